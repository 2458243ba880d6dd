// What both roles share: why a pairing fails and a call is refused, what a side is, what it has exchanged, what a step is handed, asks and
// gives back. `own` is this side, `peer` the other one. All octet strings are most significant octet first.
#![tactic(auto)]

ghost use Rattle.std.specs.Prelude.{◌≡◌};
ghost use Rattle.protocol.specs.Numbers.{failure_number, numbered_failure, refusal_number, numbered_refusal};

use address::Address;
use features::{IoCapabilities, UseOutOfBand};
use method::SecurityLevel;

// The longest step sends a public key and a confirm: no outbox is shorter.
pub const ENOUGH: usize = 90;

// Why a pairing failed.
#[derive(Clone, Copy, Debug, PartialEq, Eq)]
pub enum Failure {
    InvalidState,
    InvalidValue,
    Timeout,
    PasskeyEntryFailed,
    AuthenticationRequirements,
    ConfirmValueFailed,
    EncryptionKeySize,
    InvalidParameters,
    DHKeyCheckFailed,
    NumericComparisonFailed,
    KeyRejected,
}

// Why a call was refused. A refused call changes nothing.
#[derive(Clone, Copy, Debug, PartialEq, Eq)]
pub enum Refusal {
    Finished,
    OutboxShort,
    PasskeyRange,
}

// A number that no failure, or no refusal, has.
#[derive(Clone, Copy, Debug, PartialEq, Eq)]
pub struct UnknownNumber(pub u8);

// What a call is answered. Three cases, where a Result in a Result would say the same less plainly.
#[derive(Clone, Copy, Debug, PartialEq, Eq)]
pub enum Answer {
    Taken,
    Failed(Failure),
    Refused(Refusal),
}

// What may come in beside a command.
#[derive(Clone, Copy)]
pub enum Event {
    LinkEncryptedResult(bool),
    PassKeyConfirm,
    PassKeyCancel,
    PassKeyInput(u32),
    OobDataReceived(OobData),
}

// The out-of-band values: the random that we gave out, and the peer's random and confirm.
#[derive(Clone, Copy)]
pub struct OobData {
    pub ownrandom: [u8; 16],
    pub peerrandom: [u8; 16],
    pub peerconfirm: [u8; 16],
}

// What the user is told. PairingComplete has the level, and whether the bond is reported: it is then the state's.
#[derive(Clone, Copy)]
pub enum ConnectionEvent {
    BondLost,
    OobRequest,
    PassKeyDisplay(u32),
    PassKeyInput,
    PassKeyConfirm(u32),
    PairingComplete(SecurityLevel, bool),
    PairingFailed(Failure),
}

// What the box is to do. Encryption is enabled with the bond's link key and level.
#[derive(Clone, Copy)]
pub enum Action {
    EnableEncryption(Bond),
    StoreBond(Bond),
}

// No IRK is sixteen zeros.
#[derive(Clone, Copy)]
pub struct Bond {
    pub ltk: [u8; 16],
    pub level: SecurityLevel,
    pub address: Address,
    pub irk: [u8; 16],
}

// What a side is. `keyx` and `keyy` are its public key, `own` and `peer` the addresses of the connection, `identity` is the address that
// its identity key goes with, `known` the bond with this peer, `passkey` the one that is configured.
#[derive(Clone, Copy)]
pub struct Setup {
    pub io: IoCapabilities,
    pub oob: UseOutOfBand,
    pub bonding: bool,
    pub passkey: Option<u32>,
    pub keyx: [u8; 32],
    pub keyy: [u8; 32],
    pub irk: [u8; 16],
    pub own: Address,
    pub identity: Address,
    pub peer: Address,
    pub known: Option<Bond>,
}

// What the two sides have exchanged. `confirm` is the peer's.
#[derive(Clone, Copy)]
pub struct Secrets {
    pub peerx: [u8; 32],
    pub dhkey: [u8; 32],
    pub confirm: [u8; 16],
    pub peernonce: [u8; 16],
    pub ownnonce: [u8; 16],
    pub peersecret: [u8; 16],
    pub ownsecret: [u8; 16],
    pub passkey: u32,
}

// What a call is handed from outside: drawn values, and the answers to the questions that the step announces. `dhkey` stands beside `dhvalid`
// and not in an Option: a record has its bytes either way (`put_read_command`, inputs/proofs/Return.antt).
#[derive(Clone, Copy)]
pub struct Supplied {
    pub nonce: [u8; 16],
    pub passkey: u32,
    pub dhvalid: bool,
    pub dhkey: [u8; 32],
    pub ownconfirm: [u8; 16],
    pub peerconfirm: [u8; 16],
    pub g2: u32,
    pub mackey: [u8; 16],
    pub ltk: [u8; 16],
    pub peercheck: [u8; 16],
    pub owncheck: [u8; 16],
}

// A question to the cryptography outside, with its arguments in Part H's order.
#[derive(Clone, Copy)]
pub enum Question {
    // the DHKey of the peer's public key
    DH {
        x: [u8; 32],
        y: [u8; 32],
    },
    // f4, for our confirm and for the peer's
    OwnConfirm(Commitment),
    PeerConfirm(Commitment),
    // g2(U, V, X, Y)
    G2 {
        u: [u8; 32],
        v: [u8; 32],
        x: [u8; 16],
        y: [u8; 16],
    },
    // f5(W, N1, N2, A1, A2)
    F5 {
        w: [u8; 32],
        n1: [u8; 16],
        n2: [u8; 16],
        a1: Address,
        a2: Address,
    },
    // f6, for the peer's check and for ours
    PeerCheck(Check),
    OwnCheck(Check),
}

// f4(U, V, X, Z): what a confirm is computed from.
#[derive(Clone, Copy)]
pub struct Commitment {
    pub u: [u8; 32],
    pub v: [u8; 32],
    pub x: [u8; 16],
    pub z: u8,
}

// f6(W, N1, N2, R, IOcap, A1, A2): what a DHKey check is computed from.
#[derive(Clone, Copy)]
pub struct Check {
    pub w: [u8; 16],
    pub n1: [u8; 16],
    pub n2: [u8; 16],
    pub r: [u8; 16],
    pub iocap: [u8; 3],
    pub a1: Address,
    pub a2: Address,
}

// A question without its arguments: there is one answer for each. Definitions and theorems speak of it (`Reply`, protocol/specs/Plan.antt).
#[derive(Clone, Copy, Debug, PartialEq, Eq)]
pub enum QuestionKind {
    DH,
    OwnConfirm,
    PeerConfirm,
    G2,
    F5,
    PeerCheck,
    OwnCheck,
}

// Which answers have been given so far, by the question. They stand beside the answers and not in them as Options: a step takes every value,
// given or not (`step`, protocol/specs/Role.antt), and so does a record (docs/CALLS.md).
#[derive(Clone, Copy)]
pub struct Given {
    pub dh: bool,
    pub ownconfirm: bool,
    pub peerconfirm: bool,
    pub g2: bool,
    pub f5: bool,
    pub peercheck: bool,
    pub owncheck: bool,
}

// Why a pairing failed, as the scope numbers it, and back. From 33 on it is 32 plus the reason of Part H 3.5.5.
impl From<Failure> for u8 {
    ghost from_gives = { λ failure number. number ≡ failure_number failure };

    fn from(failure: Failure) -> u8 {
        match failure {
            Failure::InvalidState => 16,
            Failure::InvalidValue => 17,
            Failure::Timeout => 18,
            Failure::PasskeyEntryFailed => 33,
            Failure::AuthenticationRequirements => 35,
            Failure::ConfirmValueFailed => 36,
            Failure::EncryptionKeySize => 38,
            Failure::InvalidParameters => 42,
            Failure::DHKeyCheckFailed => 43,
            Failure::NumericComparisonFailed => 44,
            Failure::KeyRejected => 47,
        }
    }
}

impl TryFrom<u8> for Failure {
    type Error = UnknownNumber;

    ghost try_from_gives = { λ number failure. failure ≡ numbered_failure number };

    #[tactic(auto, unfolding(crate::specs::Numbers::failure_of))]
    fn try_from(number: u8) -> Result<Self, UnknownNumber> {
        match number {
            16 => Ok(Failure::InvalidState),
            17 => Ok(Failure::InvalidValue),
            18 => Ok(Failure::Timeout),
            33 => Ok(Failure::PasskeyEntryFailed),
            35 => Ok(Failure::AuthenticationRequirements),
            36 => Ok(Failure::ConfirmValueFailed),
            38 => Ok(Failure::EncryptionKeySize),
            42 => Ok(Failure::InvalidParameters),
            43 => Ok(Failure::DHKeyCheckFailed),
            44 => Ok(Failure::NumericComparisonFailed),
            47 => Ok(Failure::KeyRejected),
            _ => Err(UnknownNumber(number)),
        }
    }
}

// Why a call was refused, R1 to R3, and back.
impl From<Refusal> for u8 {
    ghost from_gives = { λ refusal number. number ≡ refusal_number refusal };

    fn from(refusal: Refusal) -> u8 {
        match refusal {
            Refusal::Finished => 1,
            Refusal::OutboxShort => 2,
            Refusal::PasskeyRange => 3,
        }
    }
}

impl TryFrom<u8> for Refusal {
    type Error = UnknownNumber;

    ghost try_from_gives = { λ number refusal. refusal ≡ numbered_refusal number };

    #[tactic(auto, unfolding(crate::specs::Numbers::refusal_of))]
    fn try_from(number: u8) -> Result<Self, UnknownNumber> {
        match number {
            1 => Ok(Refusal::Finished),
            2 => Ok(Refusal::OutboxShort),
            3 => Ok(Refusal::PasskeyRange),
            _ => Err(UnknownNumber(number)),
        }
    }
}
