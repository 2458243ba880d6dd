// What every step uses. First the values that a state is made of: secrets as they begin and once a passkey is known, whether a machine is
// finished, whether an event's passkey is in range. Then the ways a step ends: refused, failed, gone on or succeeded; frames are in the outbox
// by then, and `sent` counts their octets.
#![tactic(auto)]

ghost use Rattle.std.specs.Prelude.{◌≡◌, [], None};
ghost use Rattle.protocol.specs.Plan.{refuses, fails, goes};
ghost use Rattle.protocol.specs.Exchanged.{fresh, set_passkey};
ghost use Rattle.protocol.specs.Role.{event, ranged, said};
ghost use Rattle.machine.specs.State.{at, to, progress_of, joined_of, finished_phase};
ghost use Rattle.machine.specs.Keys.{wants_bonding, completing, storing, succeeds};
ghost use Rattle.machine.specs.Responder.{responder, step_of};

use machine::{Phase, Progress, State, Step};
use protocol::{Action, Answer, Bond, ConnectionEvent, Event, Failure, Refusal, Secrets, Setup};

// The same machine in another phase, but for its setup.
pub fn at(state: State, phase: Phase) -> Progress
    ensures { result ≡ progress_of (at state phase) }
{
    Progress {
        phase,
        features: state.features,
        method: state.method,
        secrets: state.secrets,
        bond: state.bond,
        peer: state.peer,
    }
}

// The machine that has the setup and made this progress.
pub fn joined(setup: Setup, progress: Progress) -> State
    ensures { result ≡ joined_of setup progress }
{
    State {
        phase: progress.phase,
        setup,
        features: progress.features,
        method: progress.method,
        secrets: progress.secrets,
        bond: progress.bond,
        peer: progress.peer,
    }
}

// Whether the machine is in Success or Error.
pub fn finished(state: State) -> bool
    ensures { result ≡ finished_phase state.phase }
{
    matches!(state.phase, Phase::Success | Phase::Error(_))
}

// What the two sides have exchanged once keys are: secrets not set are zero.
#[tactic(auto, unfolding(octets::specs::Octets::zeros))]
pub fn fresh_secrets(peerx: [u8; 32], dhkey: [u8; 32]) -> Secrets
    ensures { result ≡ fresh peerx dhkey }
{
    Secrets {
        peerx,
        dhkey,
        confirm: [0; 16],
        peernonce: [0; 16],
        ownnonce: [0; 16],
        peersecret: [0; 16],
        ownsecret: [0; 16],
        passkey: 0,
    }
}

// The passkey becomes both secrets.
pub fn with_passkey(secrets: Secrets, passkey: u32) -> Secrets
    ensures { result ≡ set_passkey secrets passkey }
{
    let secret = rounds::secret(passkey);
    Secrets {
        peersecret: secret,
        ownsecret: secret,
        passkey,
        ..secrets
    }
}

// Whether the passkey of an event is one; an event without a passkey has nothing to refuse.
pub fn in_range(came: Event) -> bool
    ensures { result ≡ ranged (event came) }
{
    match came {
        Event::LinkEncryptedResult(_ok) => true,
        Event::PassKeyConfirm => true,
        Event::PassKeyCancel => true,
        Event::PassKeyInput(passkey) => rounds::in_range(passkey),
        Event::OobDataReceived(_data) => true,
    }
}

// The call is refused: nothing changes.
pub fn refused(state: State, refusal: Refusal) -> Step
    ensures { result ≡ step_of (said responder state (refuses refusal)) 0 }
{
    let progress = at(state, state.phase);
    idle(progress, 0, None, None, Answer::Refused(refusal))
}

// The pairing fails.
pub fn failed(state: State, failure: Failure) -> Step
    ensures { result ≡ step_of (said responder state (fails None failure)) 0 }
{
    failed_after(state, None, failure)
}

// The pairing fails, after an event or none.
pub fn failed_after(state: State, first: Option<ConnectionEvent>, failure: Failure) -> Step
    ensures { result ≡ step_of (said responder state (fails first failure)) 0 }
{
    let second = Some(ConnectionEvent::PairingFailed(failure));
    let progress = at(state, Phase::Error(failure));
    idle(progress, 0, first, second, Answer::Failed(failure))
}

// The machine goes on, in a phase and with secrets.
pub fn goes(
    state: State,
    phase: Phase,
    secrets: Secrets,
    sent: usize,
    event: Option<ConnectionEvent>,
) -> Step
    ensures { result ≡ step_of (said responder state (goes (to state phase secrets) [] event)) sent }
{
    let progress = Progress {
        secrets,
        ..at(state, phase)
    };
    idle(progress, sent, None, event, Answer::Taken)
}

// A step that leaves the box nothing to do.
fn idle(
    progress: Progress,
    sent: usize,
    first: Option<ConnectionEvent>,
    second: Option<ConnectionEvent>,
    answer: Answer,
) -> Step
    ensures progress { result.progress ≡ progress }
    ensures sent { result.sent ≡ sent }
    ensures first { result.first ≡ first }
    ensures second { result.second ≡ second }
    ensures action { result.action ≡ None }
    ensures answer { result.answer ≡ answer }
{
    Step {
        progress,
        sent,
        first,
        second,
        action: None,
        answer,
    }
}

// Success: with a bond it is told, and stored where both sides ask bonding.
pub fn succeeded(state: State, sent: usize) -> Step
    ensures { result ≡ step_of (said responder state (succeeds state [])) sent }
{
    let wanted = wants_bonding(state);
    Step {
        progress: at(state, Phase::Success),
        sent,
        first: None,
        second: completing(state.bond, wanted),
        action: storing(state.bond, wanted),
        answer: Answer::Taken,
    }
}

// Whether both sides ask bonding.
fn wants_bonding(state: State) -> bool
    ensures { result ≡ wants_bonding state }
{
    state.setup.bonding && state.features.bonding()
}

fn completing(held: Option<Bond>, wanted: bool) -> Option<ConnectionEvent>
    ensures { result ≡ completing held wanted }
{
    held.map(|bond| ConnectionEvent::PairingComplete(bond.level, wanted))
}

fn storing(held: Option<Bond>, wanted: bool) -> Option<Action>
    ensures { result ≡ storing held wanted }
{
    if wanted {
        held.map(Action::StoreBond)
    } else {
        None
    }
}
