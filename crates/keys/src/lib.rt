// The encrypted link and the identity keys that go over it (Part H 2.4.3.1, 3.6.1, 3.6.4, 3.6.5): the steps of WaitingLinkEncrypted,
// WaitingIdentitityInformation and WaitingIdentitityAddressInformation, and of a bonded link that is encrypted before any request.
#![tactic(auto)]

ghost use Rattle.std.specs.Prelude.{◌≡◌, []};
ghost use Rattle.octets.specs.Write.{Wrote};
ghost use Rattle.frames.specs.Packets.{channel, framed};
ghost use Rattle.protocol.specs.declared.Supplied.{Supplied};
ghost use Rattle.protocol.specs.Plan.{ends};
ghost use Rattle.machine.specs.Keys.{
  informed,
  own_identity,
  encrypting,
  succeeds,
  addressed,
  on_bonded_link,
  on_encrypted,
  with_irk,
  with_address,
  on_information,
  on_address,
};
ghost use Rattle.machine.specs.Responder.{Follows, Quiet};

use address::Address;
use machine::{Phase, State, Step};
use protocol::{Bond, Event, Failure};

// An event in WaitingPairingRequest: a bonded link may be encrypted with no pairing at all.
pub fn bonded_link_event(state: State, event: Event, out: &mut [u8]) -> Step
    ensures { (a : Supplied) → Follows state a (on_bonded_link state event) result out.old out.new }
{
    match event {
        Event::LinkEncryptedResult(ok) => bonded_link(state, ok, out),
        _ => states::failed(state, Failure::InvalidState),
    }
}

// An event in WaitingLinkEncrypted.
pub fn encrypted_event(state: State, event: Event, out: &mut [u8]) -> Step
    ensures { (a : Supplied) → Follows state a (on_encrypted state event) result out.old out.new }
{
    match event {
        Event::LinkEncryptedResult(ok) => encrypted(state, ok, out),
        _ => states::failed(state, Failure::InvalidState),
    }
}

// A command in WaitingIdentitityInformation: the peer's IRK.
pub fn identity_information(state: State, code: u8, payload: &[u8]) -> Step
    ensures { (a : Supplied) → Quiet state a (on_information state code payload.now) result }
{
    match payloads::value(
        frames::IDENTITY_INFORMATION,
        Failure::InvalidValue,
        code,
        payload,
    ) {
        Ok(irk) => keep_irk(state, irk),
        Err(failure) => states::failed(state, failure),
    }
}

// The peer's IRK goes into the bond, and its identity address is waited for.
fn keep_irk(state: State, irk: [u8; 16]) -> Step
    ensures { (a : Supplied) → Quiet state a (ends (informed state irk)) result }
{
    let kept = State {
        bond: bond_with_irk(state.bond, irk),
        ..state
    };
    states::goes(
        kept,
        Phase::WaitingIdentitityAddressInformation,
        state.secrets,
        0,
        None,
    )
}

// A command in WaitingIdentitityAddressInformation: with it the pairing is a success, and not before.
pub fn identity_address(state: State, code: u8, payload: &[u8]) -> Step
    ensures { (a : Supplied) → Quiet state a (on_address state code payload.now) result }
{
    if code != frames::IDENTITY_ADDRESS {
        return states::failed(state, Failure::InvalidState);
    }
    match address::decode(payload) {
        Some(identity) => keep_address(state, identity),
        None => states::failed(state, Failure::InvalidValue),
    }
}

// The peer's identity address goes into the bond, and is its address from now on.
fn keep_address(state: State, identity: Address) -> Step
    ensures { (a : Supplied) → Quiet state a (ends (succeeds (addressed state identity) [])) result }
{
    let known = State {
        bond: bond_with_address(state.bond, identity),
        peer: identity,
        ..state
    };
    states::succeeded(known, 0)
}

// Whether the link of a known peer is encrypted: the known bond, or none, is then the bond.
fn bonded_link(state: State, linked: bool, out: &mut [u8]) -> Step
    ensures { (a : Supplied) → Follows state a (on_bonded_link state (Event.LinkEncryptedResult linked)) result out.old out.new }
{
    if linked {
        let bonded = State {
            bond: state.setup.known,
            ..state
        };
        return distribute(bonded, out);
    }
    states::failed(state, Failure::KeyRejected)
}

// Whether the link of this pairing is encrypted.
fn encrypted(state: State, ok: bool, out: &mut [u8]) -> Step
    ensures { (a : Supplied) → Follows state a (on_encrypted state (Event.LinkEncryptedResult ok)) result out.old out.new }
{
    if ok {
        return distribute(state, out);
    }
    states::failed(state, Failure::KeyRejected)
}

// Our identity keys go first; the peer's are waited for where it said that it sends them. It neither fails nor is refused, so it is a step
// of whatever state `m` the link was encrypted in.
fn distribute(state: State, out: &mut [u8]) -> Step
    ensures { (m : State) (a : Supplied) → Follows m a (encrypting state) result out.old out.new }
{
    let sent = send_identity(state, out);
    if features::identity_key(state.features.initiator) {
        return states::goes(
            state,
            Phase::WaitingIdentitityInformation,
            state.secrets,
            sent,
            None,
        );
    }
    states::succeeded(state, sent)
}

// Our IRK and identity address, where our responder identity bit is set.
fn send_identity(state: State, out: &mut [u8]) -> usize
    ensures { Wrote (framed channel (own_identity state)) out.old result out.new }
{
    let own = request::own_features(state.setup, state.features);
    if features::identity_key(own.responder) {
        return frames::identity(out, state.setup.irk, state.setup.identity);
    }
    0
}

// A bond, if there is one, with the peer's IRK.
fn bond_with_irk(held: Option<Bond>, irk: [u8; 16]) -> Option<Bond>
    ensures { result ≡ with_irk held irk }
{
    held.map(|bond| Bond { irk, ..bond })
}

// A bond, if there is one, with the peer's identity address.
fn bond_with_address(held: Option<Bond>, address: Address) -> Option<Bond>
    ensures { result ≡ with_address held address }
{
    held.map(|bond| Bond { address, ..bond })
}
