// Out-of-band pairing (Part H 2.3.5.6.4): the steps of WaitingOobData and WaitingOobRandom.
#![tactic(auto)]

ghost use Rattle.std.specs.Prelude.{◌≡◌, cond};
ghost use Rattle.octets.specs.Octets.{zeros};
ghost use Rattle.method.specs.Method.{set};
ghost use Rattle.protocol.specs.Plan.{ends};
ghost use Rattle.machine.specs.Oob.{absent, received, receiving, on_oob_data, answering, on_oob_random};
ghost use Rattle.machine.specs.Responder.{Follows, Quiet};

use features::UseOutOfBand;
use machine::{Phase, State, Step};
use protocol::{Event, Failure, OobData, Secrets, Supplied};

// An event in WaitingOobData: the values.
pub fn oob_event(state: State, event: Event, supplied: Supplied) -> Step
    ensures { Quiet state supplied (on_oob_data state event) result }
{
    match event {
        Event::OobDataReceived(values) => receive(state, values, supplied),
        _ => states::failed(state, Failure::InvalidState),
    }
}

// A command in WaitingOobRandom: the peer's nonce, which a fresh one of ours answers.
pub fn oob_random(
    state: State,
    code: u8,
    payload: &[u8],
    supplied: Supplied,
    out: &mut [u8],
) -> Step
    ensures { Follows state supplied (on_oob_random state code payload.now) result out.old out.new }
{
    match payloads::value(frames::PAIRING_RANDOM, Failure::InvalidValue, code, payload) {
        Ok(nonce) => answer_nonce(state, nonce, supplied, out),
        Err(failure) => states::failed(state, failure),
    }
}

// The peer's nonce is kept with a fresh one of ours, which goes out.
fn answer_nonce(state: State, nonce: [u8; 16], supplied: Supplied, out: &mut [u8]) -> Step
    ensures { Follows state supplied (answering state nonce) result out.old out.new }
{
    let own_nonce = supplied.nonce;
    let sent = frames::random(out, own_nonce);
    let secrets = Secrets {
        peernonce: nonce,
        ownnonce: own_nonce,
        ..state.secrets
    };
    states::goes(state, Phase::WaitingDHKeyEa, secrets, sent, None)
}

// The data is here: where there is any of the peer's, its confirm must be the right one.
fn receive(state: State, values: OobData, supplied: Supplied) -> Step
    ensures { Quiet state supplied (receiving state values) result }
{
    if absent(values) || octets::equal(&values.peerconfirm, &supplied.peerconfirm) {
        return received(state, values);
    }
    states::failed(state, Failure::ConfirmValueFailed)
}

// Random and confirm all zero say that there is no data of the peer's.
pub fn absent(values: OobData) -> bool
    ensures { result ≡ absent values }
{
    octets::all_zero16(values.peerrandom) && octets::all_zero16(values.peerconfirm)
}

// The peer's random is its secret. Ours counts only where the peer has our values.
fn received(state: State, values: OobData) -> Step
    ensures { (a : Supplied) → Quiet state a (ends (received state values)) result }
{
    let peer_random = values.peerrandom;
    let own = own_secret(state.features.oob, values.ownrandom);
    let secrets = Secrets {
        peersecret: peer_random,
        ownsecret: own,
        ..state.secrets
    };
    states::goes(state, Phase::WaitingOobRandom, secrets, 0, None)
}

#[tactic(auto, unfolding(octets::specs::Octets::zeros))]
fn own_secret(oob: UseOutOfBand, random: [u8; 16]) -> [u8; 16]
    ensures { result ≡ cond (set oob) random (zeros 16) }
{
    match oob {
        UseOutOfBand::NotPresent => [0; 16],
        UseOutOfBand::Present => random,
    }
}
