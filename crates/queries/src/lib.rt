// What is to be known of a pairing from outside.
#![tactic(auto)]

ghost use Rattle.std.specs.Prelude.{◌≡◌};
ghost use Rattle.machine.specs.Level.{encrypted, security_level};
ghost use Rattle.queries.specs.Result.{result_of};

use address::Address;
use machine::Phase;
use method::SecurityLevel;
use protocol::{Bond, Failure};
use responder::Responder;

// Three cases, where a Result in an Option would say the same less plainly.
#[derive(Clone, Copy, Debug, PartialEq, Eq)]
pub enum PairingResult {
    Running,
    Succeeded,
    Failed(Failure),
}

// How the pairing ended, if it has.
pub fn result(responder: Responder) -> PairingResult
    ensures { result ≡ result_of responder.state.phase }
{
    result_of(responder.state.phase)
}

// Whether the link counts as encrypted.
pub fn is_encrypted(responder: Responder) -> bool
    ensures { result ≡ encrypted responder.state.phase }
{
    encrypted_in(responder.state.phase)
}

// The bond's level where the link is encrypted and there is a bond.
#[tactic(auto, unfolding(machine::specs::Level::security_level))]
pub fn security_level(responder: Responder) -> SecurityLevel
    ensures { result ≡ security_level responder.state }
{
    if is_encrypted(responder) {
        let held = responder.state.bond;
        return held.map_or(SecurityLevel::NoEncryption, |bond| bond.level);
    }
    SecurityLevel::NoEncryption
}

// The bond, if there is one.
pub fn bond_information(responder: Responder) -> Option<Bond>
    ensures { result ≡ responder.state.bond }
{
    responder.state.bond
}

// The peer's address: that of the connection, and its identity address once that has come.
pub fn peer_address(responder: Responder) -> Address
    ensures { result ≡ responder.state.peer }
{
    responder.state.peer
}

fn encrypted_in(phase: Phase) -> bool
    ensures { result ≡ encrypted phase }
{
    matches!(
        phase,
        Phase::WaitingIdentitityInformation
            | Phase::WaitingIdentitityAddressInformation
            | Phase::Success
    )
}

fn result_of(phase: Phase) -> PairingResult
    ensures { result ≡ result_of phase }
{
    match phase {
        Phase::Success => PairingResult::Succeeded,
        Phase::Error(failure) => PairingResult::Failed(failure),
        _ => PairingResult::Running,
    }
}
