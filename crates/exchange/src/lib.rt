// The exchange of public keys (Part H 2.3.5.6.1): the step of WaitingPublicKey, and the first move of each method.
#![tactic(auto)]

ghost use Rattle.std.specs.Prelude.{ℕ, List, [], ◌∷◌, Option};
ghost use Rattle.protocol.specs.Plan.{ends, goes};
ghost use Rattle.protocol.specs.Parts.{shown};
ghost use Rattle.machine.specs.State.{to};
ghost use Rattle.machine.specs.Exchange.{own_key, comparing, showing, begins, keyed, on_key};
ghost use Rattle.machine.specs.Responder.{Follows};

use machine::{Phase, State, Step};
use method::{PairingMethod, PassKeyEntryAction};
use protocol::{ConnectionEvent, Failure, Refusal, Secrets, Supplied};

// A command in WaitingPublicKey. Our key leaves only where the peer's is known to be valid.
pub fn public_key(
    state: State,
    code: u8,
    payload: &[u8],
    supplied: Supplied,
    out: &mut [u8],
) -> Step
    ensures { Follows state supplied (on_key state code payload.now) result out.old out.new }
{
    match payloads::public_key(code, payload) {
        Ok(()) => keyed(state, payloads::peer_x(payload), supplied, out),
        Err(failure) => states::failed(state, failure),
    }
}

// The peer's key by its x, and what was supplied for it: the DHKey, or that there is none.
fn keyed(state: State, x: [u8; 32], supplied: Supplied, out: &mut [u8]) -> Step
    ensures { (y : List ℕ) → Follows state supplied (keyed state x y) result out.old out.new }
{
    if supplied.dhvalid {
        let secrets = states::fresh_secrets(x, supplied.dhkey);
        return begin(state, secrets, supplied, out);
    }
    states::failed(state, Failure::DHKeyCheckFailed)
}

// The method's first move. In passkey entry the passkey is shown here, or typed here; what the peer does is not asked.
fn begin(state: State, secrets: Secrets, supplied: Supplied, out: &mut [u8]) -> Step
    ensures { Follows state supplied (begins state.method state secrets) result out.old out.new }
{
    match state.method {
        PairingMethod::JustWorks | PairingMethod::NumericComparison => compare(
            state, secrets, supplied, out,
        ),
        PairingMethod::PassKeyEntry {
            peripheral: PassKeyEntryAction::Display,
            ..
        } => show(state, secrets, supplied, out),
        PairingMethod::PassKeyEntry {
            peripheral: PassKeyEntryAction::Input,
            ..
        } => send_key(
            state,
            Phase::WaitingPassKeyInput(None),
            secrets,
            Some(ConnectionEvent::PassKeyInput),
            out,
        ),
        PairingMethod::OutOfBand => send_key(
            state,
            Phase::WaitingOobData,
            secrets,
            Some(ConnectionEvent::OobRequest),
            out,
        ),
    }
}

// Just Works and numeric comparison: our nonce is drawn, and our confirm goes after our key.
fn compare(state: State, secrets: Secrets, supplied: Supplied, out: &mut [u8]) -> Step
    ensures { Follows state supplied (comparing state secrets) result out.old out.new }
{
    let ownnonce = supplied.nonce;
    let sent = frames::public_key_confirm(
        out,
        state.setup.keyx,
        state.setup.keyy,
        supplied.ownconfirm,
    );
    let drawn = Secrets {
        ownnonce,
        ..secrets
    };
    states::goes(
        state,
        Phase::WaitingNumericComparisonRandom,
        drawn,
        sent,
        None,
    )
}

// The passkey is shown here: the configured one, or a drawn one in range.
fn show(state: State, secrets: Secrets, supplied: Supplied, out: &mut [u8]) -> Step
    ensures { Follows state supplied (shown state.setup.passkey λ p. ends (showing state secrets p)) result out.old out.new }
{
    if let Some(passkey) = state.setup.passkey {
        return show_passkey(state, secrets, passkey, out);
    }
    if rounds::in_range(supplied.passkey) {
        return show_passkey(state, secrets, supplied.passkey, out);
    }
    states::refused(state, Refusal::PasskeyRange)
}

fn show_passkey(state: State, secrets: Secrets, passkey: u32, out: &mut [u8]) -> Step
    ensures { (a : Supplied) → Follows state a (ends (showing state secrets passkey)) result out.old out.new }
{
    send_key(
        state,
        Phase::WaitingPassKeyEntryConfirm(0),
        states::with_passkey(secrets, passkey),
        Some(ConnectionEvent::PassKeyDisplay(passkey)),
        out,
    )
}

// Our public key goes out.
fn send_key(
    state: State,
    phase: Phase,
    secrets: Secrets,
    event: Option<ConnectionEvent>,
    out: &mut [u8],
) -> Step
    ensures { (a : Supplied) → Follows state a (ends (goes (to state phase secrets) (own_key state ∷ []) event)) result out.old out.new }
{
    let sent = frames::public_key(out, state.setup.keyx, state.setup.keyy);
    states::goes(state, phase, secrets, sent, event)
}
