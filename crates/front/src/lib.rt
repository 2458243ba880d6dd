// The front of a call, where refusals are tested before any step, and after it the step of each phase.
#![tactic(auto)]

ghost use Rattle.std.specs.Prelude.{◌≡◌, length, ltb};
ghost use Rattle.protocol.specs.Role.{command, event, enough, gate_of, taking, plan};
ghost use Rattle.machine.specs.State.{finished_phase};
ghost use Rattle.machine.specs.Responder.{on_command, on_event, responder, Follows};

use machine::{Phase, State, Step};
use protocol::{Event, Failure, Refusal, Supplied};

// A command: the refusals, and then the step of the phase.
pub fn on_command(state: State, cmd: &[u8], supplied: Supplied, out: &mut [u8]) -> Step
    ensures { Follows state supplied (plan responder state (command cmd.now) (length out.old)) result out.old out.new }
{
    match admit(state, out.len(), true) {
        Ok(()) => take_command(state, cmd, supplied, out),
        Err(refusal) => states::refused(state, refusal),
    }
}

// An event: the refusals, and then the step of the phase.
pub fn on_event(state: State, came: Event, supplied: Supplied, out: &mut [u8]) -> Step
    ensures { Follows state supplied (plan responder state (event came) (length out.old)) result out.old out.new }
{
    match admit(state, out.len(), states::in_range(came)) {
        Ok(()) => by_event(state, came, supplied, out),
        Err(refusal) => states::refused(state, refusal),
    }
}

// R1, R2 and R3, in this order; `ranged` says whether an event's passkey is in range.
#[tactic(auto, unfolding(protocol::specs::Role::gate_of))]
fn admit(state: State, room: usize, ranged: bool) -> Result<(), Refusal>
    ensures { result ≡ gate_of (finished_phase state.phase) (ltb room enough) ranged }
{
    if states::finished(state) {
        return Err(Refusal::Finished);
    }
    if room < protocol::ENOUGH {
        return Err(Refusal::OutboxShort);
    }
    if !ranged {
        return Err(Refusal::PasskeyRange);
    }
    Ok(())
}

// A command that is taken: an empty one fails.
fn take_command(state: State, cmd: &[u8], supplied: Supplied, out: &mut [u8]) -> Step
    ensures { Follows state supplied (taking responder state (command cmd.now)) result out.old out.new }
{
    if cmd.is_empty() {
        return states::failed(state, Failure::InvalidParameters);
    }
    by_command(state, cmd[0], &cmd[1..], supplied, out)
}

fn by_command(state: State, code: u8, payload: &[u8], supplied: Supplied, out: &mut [u8]) -> Step
    ensures { Follows state supplied (on_command state.phase state code payload.now) result out.old out.new }
{
    match state.phase {
        Phase::WaitingPairingRequest => request::request(state, code, payload, out),
        Phase::WaitingPublicKey => exchange::public_key(state, code, payload, supplied, out),
        Phase::WaitingNumericComparisonRandom => numeric::comparison_random(
            state, code, payload, supplied, out,
        ),
        Phase::WaitingNumericComparisonResult(held) => holding::check(state, held, code, payload),
        Phase::WaitingPassKeyInput(held) => holding::confirm(state, held, code, payload),
        Phase::WaitingPassKeyEntryConfirm(round) => passkey::confirm(
            state, round, code, payload, supplied, out,
        ),
        Phase::WaitingPassKeyEntryRandom(round) => passkey::random(
            state, round, code, payload, supplied, out,
        ),
        Phase::WaitingOobData => states::failed(state, Failure::InvalidState),
        Phase::WaitingOobRandom => oob::oob_random(state, code, payload, supplied, out),
        Phase::WaitingDHKeyEa => dhkey::check(state, code, payload, supplied, out),
        Phase::WaitingLinkEncrypted => states::failed(state, Failure::InvalidState),
        Phase::WaitingIdentitityInformation => keys::identity_information(state, code, payload),
        Phase::WaitingIdentitityAddressInformation => keys::identity_address(state, code, payload),
        Phase::Success | Phase::Error(_) => states::refused(state, Refusal::Finished),
    }
}

fn by_event(state: State, came: Event, supplied: Supplied, out: &mut [u8]) -> Step
    ensures { Follows state supplied (on_event state.phase state came) result out.old out.new }
{
    match state.phase {
        Phase::WaitingPairingRequest => keys::bonded_link_event(state, came, out),
        Phase::WaitingNumericComparisonResult(held) => numeric::comparison_event(
            state, held, came, supplied, out,
        ),
        Phase::WaitingPassKeyInput(held) => passkey::typing_event(state, held, came, supplied, out),
        Phase::WaitingOobData => oob::oob_event(state, came, supplied),
        Phase::WaitingLinkEncrypted => keys::encrypted_event(state, came, out),
        Phase::Success | Phase::Error(_) => states::refused(state, Refusal::Finished),
        _ => states::failed(state, Failure::InvalidState),
    }
}
