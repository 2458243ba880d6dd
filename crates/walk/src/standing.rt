// The parts of a line that say how the machine stands after the call: state, method, round, held, level, bond and peer.
use crate::parts::{At, Held};
use crate::text::OrDash;
use crate::word::Word;
use address::Address;
use machine::Phase;
use method::{PairingMethod, SecurityLevel};
use protocol::Bond;
use responder::Responder;
use std::fmt;

// What a line shows of a machine.
#[derive(Clone, Copy)]
pub(crate) struct View {
    phase: Phase,
    method: PairingMethod,
    level: SecurityLevel,
    bond: Option<Bond>,
    peer: Address,
}

pub(crate) fn seen(responder: Responder) -> View {
    View {
        phase: responder.state.phase,
        method: responder.state.method,
        level: queries::security_level(responder),
        bond: queries::bond_information(responder),
        peer: queries::peer_address(responder),
    }
}

impl View {
    fn round(self) -> Option<u8> {
        match self.phase {
            Phase::WaitingPassKeyEntryConfirm(round) => Some(round),
            Phase::WaitingPassKeyEntryRandom(round) => Some(round),
            _ => None,
        }
    }

    // Whether a payload is held, as 0 or 1.
    fn held(self) -> Option<u8> {
        match self.phase {
            Phase::WaitingNumericComparisonResult(held) => Some(u8::from(held.is_some())),
            Phase::WaitingPassKeyInput(held) => Some(u8::from(held.is_some())),
            _ => None,
        }
    }
}

impl fmt::Display for View {
    fn fmt<W: fmt::Write>(&self, f: &mut fmt::Formatter<W>) -> fmt::Result {
        write!(f, "state={}", Word(names::state(self.phase)))?;
        if let Phase::Error(failure) = self.phase {
            write!(f, "{}", Word(names::failure(failure)))?;
        }
        write!(f, " method={}", Word(names::method(self.method)))?;
        write!(
            f,
            " round={} held={}",
            OrDash(self.round()),
            OrDash(self.held())
        )?;
        write!(f, " level={}", Word(names::level(self.level)))?;
        write!(
            f,
            " bond={} peer={}",
            OrDash(self.bond.map(Held)),
            At(self.peer)
        )
    }
}
