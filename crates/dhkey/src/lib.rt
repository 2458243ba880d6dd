// The DHKey check (Part H 2.3.5.6.5): the step of WaitingDHKeyEa, and of a check that came early.
#![tactic(auto)]

ghost use Rattle.std.specs.Prelude.{◌≡◌, true};
ghost use Rattle.machine.specs.Dhkey.{new_bond, checking, on_check};
ghost use Rattle.machine.specs.Responder.{Follows};

use machine::{Phase, Progress, State, Step};
use protocol::{Action, Answer, Bond, Failure, Supplied};

// A command in WaitingDHKeyEa. Any wrong length fails as a wrong check does.
pub fn check(state: State, code: u8, payload: &[u8], supplied: Supplied, out: &mut [u8]) -> Step
    ensures { Follows state supplied (on_check state code payload.now) result out.old out.new }
{
    if code != frames::DHKEY_CHECK {
        return states::failed(state, Failure::InvalidState);
    }
    if payloads::is_value(payload) {
        return check_value(state, octets::reversed(payload), supplied, out);
    }
    states::failed(state, Failure::DHKeyCheckFailed)
}

// The peer's check against the right one. Ours goes out, and the link is to be encrypted with the link key that came of the exchange.
pub fn check_value(state: State, value: [u8; 16], supplied: Supplied, out: &mut [u8]) -> Step
    ensures { Follows state supplied (checking state true value) result out.old out.new }
{
    if octets::equal(&value, &supplied.peercheck) {
        let sent = frames::dhkey_check(out, supplied.owncheck);
        let bond = new_bond(state, supplied.ltk);
        let progress = Progress {
            bond: Some(bond),
            ..states::at(state, Phase::WaitingLinkEncrypted)
        };
        return Step {
            progress,
            sent,
            first: None,
            second: None,
            action: Some(Action::EnableEncryption(bond)),
            answer: Answer::Taken,
        };
    }
    states::failed(state, Failure::DHKeyCheckFailed)
}

// The bond of this pairing: link key, the method's level, the peer's address, no IRK yet.
#[tactic(auto, unfolding(octets::specs::Octets::zeros))]
fn new_bond(state: State, ltk: [u8; 16]) -> Bond
    ensures { result ≡ new_bond state ltk }
{
    Bond {
        ltk,
        level: state.method.security_level(),
        address: state.peer,
        irk: [0; 16],
    }
}
