// Passkey entry (Part H 2.3.5.6.3): the steps of WaitingPassKeyInput, WaitingPassKeyEntryConfirm and WaitingPassKeyEntryRandom.
#![tactic(auto)]

ghost use Rattle.std.specs.Prelude.{◌≡◌};
ghost use Rattle.rounds.specs.Rounds.{after_of};
ghost use Rattle.octets.specs.Octets.{same};
ghost use Rattle.machine.specs.Passkey.{confirming, typed, on_typing, on_confirm, waits, testing, on_random};
ghost use Rattle.machine.specs.Responder.{Follows};

use machine::{Phase, State, Step};
use protocol::{Event, Failure, Secrets, Supplied};

// An event in WaitingPassKeyInput: the passkey, or the user's no.
pub fn typing_event(
    state: State,
    held: Option<[u8; 16]>,
    event: Event,
    supplied: Supplied,
    out: &mut [u8],
) -> Step
    ensures { Follows state supplied (on_typing state held event) result out.old out.new }
{
    match event {
        Event::PassKeyCancel => states::failed(state, Failure::PasskeyEntryFailed),
        Event::PassKeyInput(passkey) => typed(state, held, passkey, supplied, out),
        _ => states::failed(state, Failure::InvalidState),
    }
}

// A command in WaitingPassKeyEntryConfirm.
pub fn confirm(
    state: State,
    round: u8,
    code: u8,
    payload: &[u8],
    supplied: Supplied,
    out: &mut [u8],
) -> Step
    ensures { Follows state supplied (on_confirm state round code payload.now) result out.old out.new }
{
    match payloads::confirm(code, payload) {
        Ok(value) => confirm_round(state, state.secrets, round, value, supplied, out),
        Err(failure) => states::failed(state, failure),
    }
}

// A command in WaitingPassKeyEntryRandom.
pub fn random(
    state: State,
    round: u8,
    code: u8,
    payload: &[u8],
    supplied: Supplied,
    out: &mut [u8],
) -> Step
    ensures { Follows state supplied (on_random state round code payload.now) result out.old out.new }
{
    match payloads::random(code, payload) {
        Ok(nonce) => test_round(state, round, nonce, supplied, out),
        Err(failure) => states::failed(state, failure),
    }
}

// A round's random: our nonce leaves only where the kept confirm is the right one.
fn test_round(state: State, round: u8, nonce: [u8; 16], supplied: Supplied, out: &mut [u8]) -> Step
    ensures { Follows state supplied (testing state round nonce) result out.old out.new }
{
    if confirmed(state, supplied) {
        let sent = frames::random(out, state.secrets.ownnonce);
        let secrets = Secrets {
            peernonce: nonce,
            ..state.secrets
        };
        return states::goes(state, following_phase(round), secrets, sent, None);
    }
    states::failed(state, Failure::ConfirmValueFailed)
}

// Whether the confirm kept for the round is the right one.
fn confirmed(state: State, supplied: Supplied) -> bool
    ensures { result ≡ same state.secrets.confirm supplied.peerconfirm }
{
    octets::equal(&state.secrets.confirm, &supplied.peerconfirm)
}

// The passkey was typed: it becomes both secrets, and a held confirm is round 0's.
fn typed(
    state: State,
    held: Option<[u8; 16]>,
    passkey: u32,
    supplied: Supplied,
    out: &mut [u8],
) -> Step
    ensures { Follows state supplied (typed state held passkey) result out.old out.new }
{
    let keyed = states::with_passkey(state.secrets, passkey);
    match held {
        Some(early) => confirm_round(state, keyed, 0, early, supplied, out),
        None => states::goes(state, Phase::WaitingPassKeyEntryConfirm(0), keyed, 0, None),
    }
}

// A round's confirm is kept, our nonce is drawn for it, and our confirm goes out.
fn confirm_round(
    state: State,
    secrets: Secrets,
    round: u8,
    value: [u8; 16],
    supplied: Supplied,
    out: &mut [u8],
) -> Step
    ensures { Follows state supplied (confirming state secrets round value) result out.old out.new }
{
    let nonce = supplied.nonce;
    let sent = frames::confirm(out, supplied.ownconfirm);
    let kept = Secrets {
        confirm: value,
        ownnonce: nonce,
        ..secrets
    };
    states::goes(
        state,
        Phase::WaitingPassKeyEntryRandom(round),
        kept,
        sent,
        None,
    )
}

// What is waited for after a round.
fn following_phase(round: u8) -> Phase
    ensures { result ≡ waits (after_of round) }
{
    match rounds::after(round) {
        Some(next) => Phase::WaitingPassKeyEntryConfirm(next),
        None => Phase::WaitingDHKeyEa,
    }
}
