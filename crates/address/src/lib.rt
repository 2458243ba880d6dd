// Device addresses: public or random, six octets, most significant first. Here too is what makes the payload of an Identity Address
// Information (Part H 3.6.5) acceptable.
#![tactic(auto)]

ghost use Rattle.std.specs.Prelude.{◌≡◌};
ghost use Rattle.address.specs.Identity.{kind_number, kind_from, decode_of};

#[derive(Clone, Copy, Debug, PartialEq, Eq)]
pub enum AddressKind {
    Public,
    Random,
}

#[derive(Clone, Copy, Debug, PartialEq, Eq)]
pub struct Address {
    pub kind: AddressKind,
    pub octets: [u8; 6],
}

// A type octet that no kind of address has.
#[derive(Clone, Copy, Debug, PartialEq, Eq)]
pub struct UnknownKind(pub u8);

// The address in a payload: a type octet, 0 or 1, and six octets, least significant first. What comes behind is ignored.
pub fn decode(payload: &[u8]) -> Option<Address>
    ensures { result ≡ decode_of payload.now }
{
    if payload.len() < 7 {
        return None;
    }
    Some(Address {
        kind: AddressKind::try_from(payload[0]).ok()?,
        octets: octets::reversed(&payload[1..7]),
    })
}

// The type octet of a kind of address, and back.
impl From<AddressKind> for u8 {
    ghost from_gives = { λ kind number. number ≡ kind_number kind };

    fn from(kind: AddressKind) -> u8 {
        match kind {
            AddressKind::Public => 0,
            AddressKind::Random => 1,
        }
    }
}

impl TryFrom<u8> for AddressKind {
    type Error = UnknownKind;

    ghost try_from_gives = { λ number kind. kind ≡ kind_from number };

    fn try_from(number: u8) -> Result<Self, UnknownKind> {
        match number {
            0 => Ok(AddressKind::Public),
            1 => Ok(AddressKind::Random),
            _ => Err(UnknownKind(number)),
        }
    }
}
