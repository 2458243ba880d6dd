// How two sides pair: the four methods, the security level that each gives, and the choice from what both sides said of themselves
// (Part H 2.3.5.1), for Secure Connections and for legacy pairing.
#![tactic(auto)]

ghost use Rattle.std.specs.Prelude.{◌≡◌};
ghost use Rattle.method.specs.Method.{always, numeric_or, table, set, uses_oob, method_of, level_of, level_number, numbered_level};

use features::{IoCapabilities, PairingFeatures, UseOutOfBand};

#[derive(Clone, Copy, Debug, PartialEq, Eq)]
pub enum PassKeyEntryAction {
    Display,
    Input,
}

#[derive(Clone, Copy, Debug, PartialEq, Eq)]
pub enum PairingMethod {
    JustWorks,
    NumericComparison,
    PassKeyEntry {
        central: PassKeyEntryAction,
        peripheral: PassKeyEntryAction,
    },
    OutOfBand,
}

// The two kinds of pairing that the tables tell apart.
#[derive(Clone, Copy, Debug, PartialEq, Eq)]
pub enum Kind {
    Legacy,
    SecureConnections,
}

#[derive(Clone, Copy, Debug, PartialEq, Eq)]
pub enum SecurityLevel {
    NoEncryption,
    Encrypted,
    EncryptedAuthenticated,
}

// A number that no level has.
#[derive(Clone, Copy, Debug, PartialEq, Eq)]
pub struct UnknownLevel(pub u8);

// Levels as docs/CALLS.md numbers them, and back.
impl From<SecurityLevel> for u8 {
    ghost from_gives = { λ level number. number ≡ level_number level };

    fn from(level: SecurityLevel) -> u8 {
        match level {
            SecurityLevel::NoEncryption => 0,
            SecurityLevel::Encrypted => 1,
            SecurityLevel::EncryptedAuthenticated => 2,
        }
    }
}

impl TryFrom<u8> for SecurityLevel {
    type Error = UnknownLevel;

    ghost try_from_gives = { λ number level. level ≡ numbered_level number };

    fn try_from(number: u8) -> Result<Self, UnknownLevel> {
        match number {
            0 => Ok(SecurityLevel::NoEncryption),
            1 => Ok(SecurityLevel::Encrypted),
            2 => Ok(SecurityLevel::EncryptedAuthenticated),
            _ => Err(UnknownLevel(number)),
        }
    }
}

impl PairingMethod {
    pub const CENTRAL_DISPLAYS: Self = Self::PassKeyEntry {
        central: PassKeyEntryAction::Display,
        peripheral: PassKeyEntryAction::Input,
    };

    pub const PERIPHERAL_DISPLAYS: Self = Self::PassKeyEntry {
        central: PassKeyEntryAction::Input,
        peripheral: PassKeyEntryAction::Display,
    };

    pub const BOTH_INPUT: Self = Self::PassKeyEntry {
        central: PassKeyEntryAction::Input,
        peripheral: PassKeyEntryAction::Input,
    };

    // The level of a link that was paired by this method.
    pub fn security_level(self) -> SecurityLevel
        ensures { result ≡ level_of self }
    {
        match self {
            PairingMethod::JustWorks => SecurityLevel::Encrypted,
            PairingMethod::NumericComparison => SecurityLevel::EncryptedAuthenticated,
            PairingMethod::PassKeyEntry { .. } => SecurityLevel::EncryptedAuthenticated,
            PairingMethod::OutOfBand => SecurityLevel::EncryptedAuthenticated,
        }
    }
}

// The method for Secure Connections. The two choosers are the Rust crate's, by their names, over one that takes the kind.
pub fn choose_pairing_method(central: PairingFeatures, peripheral: PairingFeatures) -> PairingMethod
    ensures { result ≡ method_of Kind.SecureConnections central peripheral }
{
    choose(Kind::SecureConnections, central, peripheral)
}

// The method for legacy pairing.
pub fn choose_legacy_pairing_method(
    central: PairingFeatures,
    peripheral: PairingFeatures,
) -> PairingMethod
    ensures { result ≡ method_of Kind.Legacy central peripheral }
{
    choose(Kind::Legacy, central, peripheral)
}

// Out-of-band data first, then whether a side asks protection against a man in the middle, then the IO capabilities.
fn choose(kind: Kind, central: PairingFeatures, peripheral: PairingFeatures) -> PairingMethod
    ensures { result ≡ method_of kind central peripheral }
{
    if uses_oob(kind, central.oob, peripheral.oob) {
        return PairingMethod::OutOfBand;
    }
    if central.man_in_the_middle() || peripheral.man_in_the_middle() {
        return by_io(kind, central.io, peripheral.io);
    }
    PairingMethod::JustWorks
}

fn uses_oob(kind: Kind, central: UseOutOfBand, peripheral: UseOutOfBand) -> bool
    ensures { result ≡ uses_oob kind (set central) (set peripheral) }
{
    let a = matches!(central, UseOutOfBand::Present);
    let b = matches!(peripheral, UseOutOfBand::Present);
    match kind {
        Kind::Legacy => a && b,
        Kind::SecureConnections => a || b,
    }
}

fn by_io(kind: Kind, central: IoCapabilities, peripheral: IoCapabilities) -> PairingMethod
    ensures { result ≡ table peripheral central kind }
{
    match central {
        IoCapabilities::DisplayOnly => match peripheral {
            IoCapabilities::DisplayOnly => PairingMethod::JustWorks,
            IoCapabilities::DisplayYesNo => PairingMethod::JustWorks,
            IoCapabilities::KeyboardOnly => PairingMethod::CENTRAL_DISPLAYS,
            IoCapabilities::NoInputNoOutput => PairingMethod::JustWorks,
            IoCapabilities::KeyboardDisplay => PairingMethod::CENTRAL_DISPLAYS,
        },
        IoCapabilities::DisplayYesNo => match peripheral {
            IoCapabilities::DisplayOnly => PairingMethod::JustWorks,
            IoCapabilities::DisplayYesNo => numeric_or(kind, PairingMethod::JustWorks),
            IoCapabilities::KeyboardOnly => PairingMethod::CENTRAL_DISPLAYS,
            IoCapabilities::NoInputNoOutput => PairingMethod::JustWorks,
            IoCapabilities::KeyboardDisplay => numeric_or(kind, PairingMethod::CENTRAL_DISPLAYS),
        },
        IoCapabilities::KeyboardOnly => match peripheral {
            IoCapabilities::DisplayOnly => PairingMethod::PERIPHERAL_DISPLAYS,
            IoCapabilities::DisplayYesNo => PairingMethod::PERIPHERAL_DISPLAYS,
            IoCapabilities::KeyboardOnly => PairingMethod::BOTH_INPUT,
            IoCapabilities::NoInputNoOutput => PairingMethod::JustWorks,
            IoCapabilities::KeyboardDisplay => PairingMethod::PERIPHERAL_DISPLAYS,
        },
        IoCapabilities::NoInputNoOutput => PairingMethod::JustWorks,
        IoCapabilities::KeyboardDisplay => match peripheral {
            IoCapabilities::DisplayOnly => PairingMethod::PERIPHERAL_DISPLAYS,
            IoCapabilities::DisplayYesNo => numeric_or(kind, PairingMethod::PERIPHERAL_DISPLAYS),
            IoCapabilities::KeyboardOnly => PairingMethod::CENTRAL_DISPLAYS,
            IoCapabilities::NoInputNoOutput => PairingMethod::JustWorks,
            IoCapabilities::KeyboardDisplay => numeric_or(kind, PairingMethod::CENTRAL_DISPLAYS),
        },
    }
}

// Numeric comparison, which legacy pairing lacks: it takes the other method there.
fn numeric_or(kind: Kind, other: PairingMethod) -> PairingMethod
    ensures { result ≡ numeric_or (always other) kind }
{
    match kind {
        Kind::Legacy => other,
        Kind::SecureConnections => PairingMethod::NumericComparison,
    }
}
