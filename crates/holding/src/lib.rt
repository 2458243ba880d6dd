// An early payload: a confirm that comes before the passkey is typed, a DHKey check before the user's answer.
#![tactic(auto)]

ghost use Rattle.std.specs.Prelude.{ℕ, ◌≡◌, List, Option, Some};
ghost use Rattle.octets.specs.Octets.{turned};
ghost use Rattle.protocol.specs.declared.Supplied.{Supplied};
ghost use Rattle.machine.specs.declared.Phase.{Phase};
ghost use Rattle.machine.specs.Holding.{holds};
ghost use Rattle.machine.specs.Passkey.{on_early_confirm};
ghost use Rattle.machine.specs.Numeric.{on_early_check};
ghost use Rattle.machine.specs.Responder.{Quiet};

use machine::{Phase, State, Step};
use protocol::Failure;

// A command in WaitingPassKeyInput: one early confirm is held.
pub fn confirm(state: State, held: Option<[u8; 16]>, code: u8, payload: &[u8]) -> Step
    ensures { (a : Supplied) → Quiet state a (on_early_confirm state held code payload.now) result }
{
    let early: [u8; 16] = octets::reversed(payload);
    holds(
        state,
        held,
        frames::PAIRING_CONFIRM,
        code,
        payload,
        Phase::WaitingPassKeyInput(Some(early)),
    )
}

// A command in WaitingNumericComparisonResult: one early DHKey check is held.
pub fn check(state: State, held: Option<[u8; 16]>, code: u8, payload: &[u8]) -> Step
    ensures { (a : Supplied) → Quiet state a (on_early_check state held code payload.now) result }
{
    let early: [u8; 16] = octets::reversed(payload);
    holds(
        state,
        held,
        frames::DHKEY_CHECK,
        code,
        payload,
        Phase::WaitingNumericComparisonResult(Some(early)),
    )
}

// An early payload is held: one value of the awaited code. `phase` is the one that holds it.
fn holds(
    state: State,
    held: Option<[u8; 16]>,
    awaited: u8,
    code: u8,
    payload: &[u8],
    phase: Phase,
) -> Step
    ensures { (p : Option (List ℕ) → Phase) → phase ≡ p (Some (turned 16 payload.now)) → (a : Supplied) → Quiet state a (holds state held awaited code payload.now p) result }
{
    if code != awaited || held.is_some() {
        return states::failed(state, Failure::InvalidState);
    }
    if payloads::is_value(payload) {
        return states::goes(state, phase, state.secrets, 0, None);
    }
    states::failed(state, Failure::InvalidValue)
}
