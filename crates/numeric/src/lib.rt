// Numeric comparison and Just Works (Part H 2.3.5.6.2): the steps of WaitingNumericComparisonRandom and WaitingNumericComparisonResult.
#![tactic(auto)]

ghost use Rattle.machine.specs.Numeric.{compares, on_comparison_random, confirmed, on_comparison};
ghost use Rattle.machine.specs.Responder.{Follows};

use machine::{Phase, State, Step};
use method::PairingMethod;
use protocol::{ConnectionEvent, Event, Failure, Secrets, Supplied};

// A command in WaitingNumericComparisonRandom: the peer's nonce, which ours answers.
pub fn comparison_random(
    state: State,
    code: u8,
    payload: &[u8],
    supplied: Supplied,
    out: &mut [u8],
) -> Step
    ensures { Follows state supplied (on_comparison_random state code payload.now) result out.old out.new }
{
    match payloads::random(code, payload) {
        Ok(nonce) => compare(state, nonce, supplied, out),
        Err(failure) => states::failed(state, failure),
    }
}

// An event in WaitingNumericComparisonResult: the user's yes or no.
pub fn comparison_event(
    state: State,
    held: Option<[u8; 16]>,
    event: Event,
    supplied: Supplied,
    out: &mut [u8],
) -> Step
    ensures { Follows state supplied (on_comparison state held event) result out.old out.new }
{
    match event {
        Event::PassKeyConfirm => confirmed(state, held, supplied, out),
        Event::PassKeyCancel => states::failed(state, Failure::NumericComparisonFailed),
        _ => states::failed(state, Failure::InvalidState),
    }
}

// Our nonce goes out. Just Works goes on; else the user compares six digits.
fn compare(state: State, nonce: [u8; 16], supplied: Supplied, out: &mut [u8]) -> Step
    ensures { Follows state supplied (compares state.method state nonce) result out.old out.new }
{
    let sent = frames::random(out, state.secrets.ownnonce);
    let secrets = Secrets {
        peernonce: nonce,
        ..state.secrets
    };
    match state.method {
        PairingMethod::JustWorks => states::goes(state, Phase::WaitingDHKeyEa, secrets, sent, None),
        _ => states::goes(
            state,
            Phase::WaitingNumericComparisonResult(None),
            secrets,
            sent,
            Some(ConnectionEvent::PassKeyConfirm(supplied.g2 % 1_000_000)),
        ),
    }
}

// The user's yes: a held check is handled, or the check is waited for.
fn confirmed(state: State, held: Option<[u8; 16]>, supplied: Supplied, out: &mut [u8]) -> Step
    ensures { Follows state supplied (confirmed state held) result out.old out.new }
{
    match held {
        Some(early) => dhkey::check_value(state, early, supplied, out),
        None => states::goes(state, Phase::WaitingDHKeyEa, state.secrets, 0, None),
    }
}
