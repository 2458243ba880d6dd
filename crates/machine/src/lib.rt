// The responder's state, and what a step of it gives back. The machine itself stands in specs/, as plans that read like the scope's list of
// steps, with the theorems about it in proofs/; the crates above hold the code that follows the plans. Names of phases are those of the crate.
#![tactic(auto)]

use address::Address;
use features::PairingFeatures;
use method::PairingMethod;
use protocol::{Action, Answer, Bond, ConnectionEvent, Failure, Secrets, Setup};

// What the machine waits for. A phase in which a payload can come early has it; the number is the round.
#[derive(Clone, Copy)]
pub enum Phase {
    WaitingPairingRequest,
    WaitingPublicKey,
    WaitingNumericComparisonRandom,
    WaitingNumericComparisonResult(Option<[u8; 16]>),
    WaitingPassKeyInput(Option<[u8; 16]>),
    WaitingPassKeyEntryConfirm(u8),
    WaitingPassKeyEntryRandom(u8),
    WaitingOobData,
    WaitingOobRandom,
    WaitingDHKeyEa,
    WaitingLinkEncrypted,
    WaitingIdentitityInformation,
    WaitingIdentitityAddressInformation,
    Success,
    Error(Failure),
}

// The machine. `features` are the peer's, `peer` its address as now known.
#[derive(Clone, Copy)]
pub struct State {
    pub phase: Phase,
    pub setup: Setup,
    pub features: PairingFeatures,
    pub method: PairingMethod,
    pub secrets: Secrets,
    pub bond: Option<Bond>,
    pub peer: Address,
}

// The machine but for its setup, which no step changes. It is no part of `State`: plans and theorems speak of `m.phase` (docs/COST.md has what a
// step saves by leaving the setup out).
#[derive(Clone, Copy)]
pub struct Progress {
    pub phase: Phase,
    pub features: PairingFeatures,
    pub method: PairingMethod,
    pub secrets: Secrets,
    pub bond: Option<Bond>,
    pub peer: Address,
}

// What a step gives back: the state after it but for its setup, how many octets stand in the outbox, the user's events in order, the action
// and the answer. `first` is BondLost or none.
#[derive(Clone, Copy)]
pub struct Step {
    pub progress: Progress,
    pub sent: usize,
    pub first: Option<ConnectionEvent>,
    pub second: Option<ConnectionEvent>,
    pub action: Option<Action>,
    pub answer: Answer,
}
