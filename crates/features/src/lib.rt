// Pairing features: what each side says of itself in a Pairing Request and a Pairing Response (Part H 3.5.1, 3.5.2), the six octets
// that carry it, and the tests on its bits. AuthReq and the key distribution octets are kept as received, all eight bits.
#![tactic(auto)]

ghost use Rattle.std.specs.Prelude.{◌≡◌};
ghost use Rattle.features.specs.Features.{io_number, io_from, io_of, oob_number, oob_from, oob_of, encode_of, decode_of, io_cap_of};
ghost use Rattle.features.specs.Bits.{bonding_bits, mitm_bit, secure_connections_bit, identity_bit, our_auth_req};

#[derive(Clone, Copy, Debug, PartialEq, Eq)]
pub enum IoCapabilities {
    DisplayOnly,
    DisplayYesNo,
    KeyboardOnly,
    NoInputNoOutput,
    KeyboardDisplay,
}

#[derive(Clone, Copy, Debug, PartialEq, Eq)]
pub enum UseOutOfBand {
    NotPresent,
    Present,
}

// The fields in the order of the packet. `initiator` and `responder` are the two key distribution octets.
#[derive(Clone, Copy)]
pub struct PairingFeatures {
    pub io: IoCapabilities,
    pub oob: UseOutOfBand,
    pub authreq: u8,
    pub keysize: u8,
    pub initiator: u8,
    pub responder: u8,
}

// A number that Part H gives no meaning.
#[derive(Clone, Copy, Debug, PartialEq, Eq)]
pub struct Reserved(pub u8);

// The features in a payload. None: another length than 6, IO above 4, OOB above 1. Every other payload decodes.
pub fn decode(payload: &[u8]) -> Option<PairingFeatures>
    ensures { result ≡ decode_of payload.now }
{
    if payload.len() != 6 {
        return None;
    }
    Some(PairingFeatures {
        io: IoCapabilities::try_from(payload[0]).ok()?,
        oob: UseOutOfBand::try_from(payload[1]).ok()?,
        authreq: payload[2],
        keysize: payload[3],
        initiator: payload[4],
        responder: payload[5],
    })
}

impl PairingFeatures {
    // The six octets of the packet.
    pub fn encode(self) -> [u8; 6]
        ensures { result ≡ encode_of self }
    {
        [
            u8::from(self.io),
            u8::from(self.oob),
            self.authreq,
            self.keysize,
            self.initiator,
            self.responder,
        ]
    }

    // IOcap as f6 takes it: AuthReq, OOB, IO, most significant octet first.
    pub fn io_cap(self) -> [u8; 3]
        ensures { result ≡ io_cap_of self }
    {
        [self.authreq, u8::from(self.oob), u8::from(self.io)]
    }

    // Whether AuthReq asks bonding: bits 0 and 1 are 01.
    pub fn bonding(self) -> bool
        ensures { result ≡ bonding_bits self.authreq }
    {
        self.authreq % 4 == 1
    }

    // Whether AuthReq asks protection against a man in the middle: bit 2.
    pub fn man_in_the_middle(self) -> bool
        ensures { result ≡ mitm_bit self.authreq }
    {
        self.authreq / 4 % 2 == 1
    }

    // Whether AuthReq says Secure Connections: bit 3.
    pub fn secure_connection(self) -> bool
        ensures { result ≡ secure_connections_bit self.authreq }
    {
        self.authreq / 8 % 2 == 1
    }
}

// Whether a key distribution octet has the identity key: bit 1.
pub fn identity_key(keys: u8) -> bool
    ensures { result ≡ identity_bit keys }
{
    keys / 2 % 2 == 1
}

// Our AuthReq: Secure Connections, with bonding and man-in-the-middle protection where asked.
pub fn auth_req(bonding: bool, mitm: bool) -> u8
    ensures { result ≡ our_auth_req bonding mitm }
{
    if bonding {
        if mitm { 13 } else { 9 }
    } else if mitm {
        12
    } else {
        8
    }
}

// IO capabilities as numbers (Part H 3.5.1), and back.
impl From<IoCapabilities> for u8 {
    ghost from_gives = { λ io number. number ≡ io_number io };

    fn from(io: IoCapabilities) -> u8 {
        match io {
            IoCapabilities::DisplayOnly => 0,
            IoCapabilities::DisplayYesNo => 1,
            IoCapabilities::KeyboardOnly => 2,
            IoCapabilities::NoInputNoOutput => 3,
            IoCapabilities::KeyboardDisplay => 4,
        }
    }
}

impl TryFrom<u8> for IoCapabilities {
    type Error = Reserved;

    ghost try_from_gives = { λ io result. result ≡ io_from io };

    fn try_from(io: u8) -> Result<Self, Reserved> {
        match io {
            0 => Ok(IoCapabilities::DisplayOnly),
            1 => Ok(IoCapabilities::DisplayYesNo),
            2 => Ok(IoCapabilities::KeyboardOnly),
            3 => Ok(IoCapabilities::NoInputNoOutput),
            4 => Ok(IoCapabilities::KeyboardDisplay),
            _ => Err(Reserved(io)),
        }
    }
}

// The OOB data flag as a number (Part H 3.5.1), and back.
impl From<UseOutOfBand> for u8 {
    ghost from_gives = { λ oob number. number ≡ oob_number oob };

    fn from(oob: UseOutOfBand) -> u8 {
        match oob {
            UseOutOfBand::NotPresent => 0,
            UseOutOfBand::Present => 1,
        }
    }
}

impl TryFrom<u8> for UseOutOfBand {
    type Error = Reserved;

    ghost try_from_gives = { λ oob result. result ≡ oob_from oob };

    fn try_from(oob: u8) -> Result<Self, Reserved> {
        match oob {
            0 => Ok(UseOutOfBand::NotPresent),
            1 => Ok(UseOutOfBand::Present),
            _ => Err(Reserved(oob)),
        }
    }
}

// The two for any number: reserved ones are KeyboardDisplay and Present.
pub fn io_of(number: u8) -> IoCapabilities
    ensures { result ≡ io_of number }
{
    IoCapabilities::try_from(number).unwrap_or(IoCapabilities::KeyboardDisplay)
}

pub fn oob_of(octet: u8) -> UseOutOfBand
    ensures { result ≡ oob_of octet }
{
    UseOutOfBand::try_from(octet).unwrap_or(UseOutOfBand::Present)
}
