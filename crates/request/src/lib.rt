// The pairing request (Part H 2.3.5.1, 3.5.1, 3.5.2): what makes one acceptable, what we say of ourselves, and the step of
// WaitingPairingRequest.
#![tactic(auto)]

ghost use Rattle.std.specs.Prelude.{◌≡◌, cond, not, ◌&&◌};
ghost use Rattle.octets.specs.Octets.{all_zero};
ghost use Rattle.features.specs.Bits.{identity_bit};
ghost use Rattle.protocol.specs.declared.Supplied.{Supplied};
ghost use Rattle.protocol.specs.Plan.{ends};
ghost use Rattle.protocol.specs.Parts.{accept_of};
ghost use Rattle.machine.specs.Request.{interactive, own_features, lost, responding, on_request};
ghost use Rattle.machine.specs.Responder.{Follows};

use features::{IoCapabilities, PairingFeatures};
use machine::{Phase, Progress, State, Step};
use protocol::{Answer, ConnectionEvent, Failure, Setup};

// The tests of a request, in their order: six octets that say features, Secure Connections, a key size of at least 16.
#[tactic(auto, unfolding(protocol::specs::Parts::accept_of))]
pub fn accept(payload: &[u8]) -> Result<PairingFeatures, Failure>
    ensures { result ≡ accept_of payload.now }
{
    let peer = features::decode(payload).ok_or(Failure::InvalidParameters)?;
    if !peer.secure_connection() {
        return Err(Failure::AuthenticationRequirements);
    }
    if peer.keysize < 16 {
        return Err(Failure::EncryptionKeySize);
    }
    Ok(peer)
}

// What we say of ourselves to a peer. Its identity bits set ours, the responder's only if we have an IRK.
#[tactic(auto, unfolding(machine::specs::Request::own_features))]
pub fn own_features(setup: Setup, peer: PairingFeatures) -> PairingFeatures
    ensures { result ≡ own_features setup peer }
{
    PairingFeatures {
        io: setup.io,
        oob: setup.oob,
        authreq: features::auth_req(setup.bonding, interactive_io(setup.io)),
        keysize: 16,
        initiator: identity_octet(features::identity_key(peer.initiator)),
        responder: identity_octet(distributes(peer.responder, setup.irk)),
    }
}

// A command in WaitingPairingRequest. A known bond is lost either way.
pub fn request(state: State, code: u8, payload: &[u8], out: &mut [u8]) -> Step
    ensures { (a : Supplied) → Follows state a (on_request state code payload.now) result out.old out.new }
{
    if code != frames::PAIRING_REQUEST {
        return states::failed(state, Failure::InvalidState);
    }
    match accept(payload) {
        Err(failure) => states::failed_after(state, lost_bond(state), failure),
        Ok(peer) => answer(state, peer, out),
    }
}

// Acceptable features are answered with ours.
fn answer(state: State, peer: PairingFeatures, out: &mut [u8]) -> Step
    ensures { (a : Supplied) → Follows state a (ends (responding state peer)) result out.old out.new }
{
    let own = own_features(state.setup, peer);
    let sent = frames::pairing_response(out, own);
    let progress = Progress {
        features: peer,
        method: method::choose_pairing_method(peer, own),
        ..states::at(state, Phase::WaitingPublicKey)
    };
    Step {
        progress,
        sent,
        first: lost_bond(state),
        second: None,
        action: None,
        answer: Answer::Taken,
    }
}

fn lost_bond(state: State) -> Option<ConnectionEvent>
    ensures { result ≡ lost state }
{
    state.setup.known.map(|_bond| ConnectionEvent::BondLost)
}

// Whether we can show or take anything.
pub fn interactive_io(io: IoCapabilities) -> bool
    ensures { result ≡ interactive io }
{
    io != IoCapabilities::NoInputNoOutput
}

// A key distribution octet of ours: the identity bit, or nothing.
fn identity_octet(set: bool) -> u8
    ensures { result ≡ cond set 2 0 }
{
    if set { 2 } else { 0 }
}

// Whether we send our identity key: the peer wants it, and we have one.
fn distributes(responder: u8, irk: [u8; 16]) -> bool
    ensures { result ≡ (identity_bit responder && not (all_zero irk)) }
{
    features::identity_key(responder) && !octets::all_zero16(irk)
}
