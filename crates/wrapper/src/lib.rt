// How a pairing begins: plain, or with a Security Request.
#![tactic(auto)]

ghost use Rattle.std.specs.Prelude.{◌≡◌, length};
ghost use Rattle.machine.specs.State.{fresh_state};
ghost use Rattle.wrapper.specs.Starts.{begun_of, started_of, Opened, suits, start_refused, start_of, authenticated, asks_mitm, initiate_of};

use features::{IoCapabilities, PairingFeatures, UseOutOfBand};
use machine::{Phase, State};
use method::{PairingMethod, SecurityLevel};
use protocol::{Failure, Refusal, Setup};
use responder::Responder;

// `answer` says whether the start was refused.
#[derive(Clone, Copy)]
pub struct Begun {
    pub responder: Responder,
    pub sent: usize,
    pub answer: Result<(), Refusal>,
}

// A responder that awaits a request. A configured passkey out of range is refused: here alone a setup is tested.
#[tactic(auto, unfolding(crate::specs::Starts::starting))]
pub fn new_peripheral(setup: Setup) -> Begun
    ensures { result ≡ begun_of (start_of setup) 0 }
{
    if suitable(setup.passkey) {
        return running(fresh(setup), 0);
    }
    refused(setup, Refusal::PasskeyRange)
}

// A responder that asks for a request with a Security Request, by the user's wish or by its own (`user` says which).
pub fn initiate_peripheral(setup: Setup, user: bool, out: &mut [u8]) -> Begun
    ensures { Opened (initiate_of setup user (length out.old)) result out.old out.new }
{
    if out.len() < protocol::ENOUGH {
        return refused(setup, Refusal::OutboxShort);
    }
    let begun = new_peripheral(setup);
    match begun.answer {
        Ok(()) => {
            let authreq = features::auth_req(setup.bonding, asks_mitm(setup, user));
            Begun {
                sent: frames::security_request(out, authreq),
                ..begun
            }
        }
        Err(_refusal) => begun,
    }
}

// A fresh machine: no peer features, no key distribution bits, method JustWorks, key size 16.
#[tactic(auto, unfolding(octets::specs::Octets::zeros))]
fn fresh(setup: Setup) -> State
    ensures { result ≡ fresh_state setup }
{
    State {
        phase: Phase::WaitingPairingRequest,
        setup,
        features: PairingFeatures {
            io: IoCapabilities::NoInputNoOutput,
            oob: UseOutOfBand::NotPresent,
            authreq: 0,
            keysize: 16,
            initiator: 0,
            responder: 0,
        },
        method: PairingMethod::JustWorks,
        secrets: states::fresh_secrets([0; 32], [0; 32]),
        bond: None,
        peer: setup.peer,
    }
}

fn running(state: State, sent: usize) -> Begun
    ensures { result ≡ started_of state sent }
{
    Begun {
        responder: Responder { state },
        sent,
        answer: Ok(()),
    }
}

// A refused start gives a machine in Error that takes nothing.
#[tactic(auto, unfolding(crate::specs::Starts::start_refused))]
fn refused(setup: Setup, refusal: Refusal) -> Begun
    ensures { result ≡ begun_of (start_refused setup refusal) 0 }
{
    let state = State {
        phase: Phase::Error(Failure::InvalidState),
        ..fresh(setup)
    };
    Begun {
        responder: Responder { state },
        sent: 0,
        answer: Err(refusal),
    }
}

fn suitable(configured: Option<u32>) -> bool
    ensures { result ≡ suits configured }
{
    match configured {
        Some(passkey) => rounds::in_range(passkey),
        None => true,
    }
}

fn asks_mitm(setup: Setup, user: bool) -> bool
    ensures { result ≡ asks_mitm setup user }
{
    match setup.known {
        Some(bond) if !user => is_authenticated(bond.level),
        _ => request::interactive_io(setup.io),
    }
}

fn is_authenticated(level: SecurityLevel) -> bool
    ensures { result ≡ authenticated level }
{
    level == SecurityLevel::EncryptedAuthenticated
}
