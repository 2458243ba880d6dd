// Setups as bytes: the payload of docs/CALLS.md, kind 1, read and written. Reading gives none where a payload doesn't fit; writing refuses what
// no payload can carry.
#![tactic(auto)]

ghost use Rattle.std.specs.Prelude.{◌≡◌, [], ◌∷◌, ◌++◌, ◌≤◌, ◌<◌, length, get_or, take};
ghost use Rattle.octets.specs.Write.{Wrote};
ghost use Rattle.fields.specs.Fields.{number_at, join, every, at_most, Placed};
ghost use Rattle.setups.specs.Setup.{
  address_octets,
  kind_of,
  address_at,
  start_number,
  numbered_start,
  start_of,
  level_of,
  configured_of,
  bond_rows,
  box_rows,
  setup_rows,
  setup_octets,
  bond_at,
  setup_in,
  call_of,
  no_bond,
  setup_call,
  passkey_fits,
  setup_fits,
  read_setup,
};

use address::{Address, AddressKind};
use features::{IoCapabilities, UseOutOfBand};
use method::SecurityLevel;
use protocol::{Bond, Setup};

// How the pairing starts: plain, or with a Security Request by the user's wish or not.
#[derive(Clone, Copy, Debug, PartialEq, Eq)]
pub enum StartKind {
    Plain,
    ByUser,
    NotByUser,
}

// A number that no kind of start has.
#[derive(Clone, Copy, Debug, PartialEq, Eq)]
pub struct UnknownStart(pub u8);

impl From<StartKind> for u8 {
    ghost from_gives = { λ start r. r ≡ start_number start };

    fn from(start: StartKind) -> u8 {
        match start {
            StartKind::Plain => 0,
            StartKind::ByUser => 1,
            StartKind::NotByUser => 2,
        }
    }
}

impl TryFrom<u8> for StartKind {
    type Error = UnknownStart;

    ghost try_from_gives = { λ number r. r ≡ numbered_start number };

    fn try_from(number: u8) -> Result<Self, UnknownStart> {
        match number {
            0 => Ok(StartKind::Plain),
            1 => Ok(StartKind::ByUser),
            2 => Ok(StartKind::NotByUser),
            _ => Err(UnknownStart(number)),
        }
    }
}

// What a setup's payload says, in its order. `outbox` is the outbox's length. `bond` stands in a payload whether or not there is a known bond, as
// `there` says, so that what was read and is written again has the same bytes.
#[derive(Clone, Copy)]
pub struct SetupCall {
    pub start: StartKind,
    pub outbox: usize,
    pub io: IoCapabilities,
    pub oob: UseOutOfBand,
    pub bonding: bool,
    pub passkey: Option<u32>,
    pub keyx: [u8; 32],
    pub keyy: [u8; 32],
    pub irk: [u8; 16],
    pub own: Address,
    pub identity: Address,
    pub peer: Address,
    pub there: bool,
    pub bond: Bond,
}

impl SetupCall {
    // The call of a setup. Where it has no known bond, zeros stand in the payload.
    pub fn from_setup(start: StartKind, outbox: usize, setup: Setup) -> SetupCall
        ensures { result ≡ call_of start outbox setup no_bond }
    {
        SetupCall {
            start,
            outbox,
            io: setup.io,
            oob: setup.oob,
            bonding: setup.bonding,
            passkey: setup.passkey,
            keyx: setup.keyx,
            keyy: setup.keyy,
            irk: setup.irk,
            own: setup.own,
            identity: setup.identity,
            peer: setup.peer,
            there: setup.known.is_some(),
            bond: setup.known.unwrap_or(no_bond()),
        }
    }

    // The setup: what the side is.
    pub fn setup(self) -> Setup
        ensures { result ≡ setup_in self }
    {
        Setup {
            io: self.io,
            oob: self.oob,
            bonding: self.bonding,
            passkey: self.passkey,
            keyx: self.keyx,
            keyy: self.keyy,
            irk: self.irk,
            own: self.own,
            identity: self.identity,
            peer: self.peer,
            known: if self.there { Some(self.bond) } else { None },
        }
    }
}

// What stands in a payload where there is no known bond.
#[tactic(auto, unfolding(octets::specs::Octets::zeros))]
fn no_bond() -> Bond
    ensures { result ≡ no_bond }
{
    Bond {
        ltk: [0; 16],
        level: SecurityLevel::NoEncryption,
        address: Address {
            kind: AddressKind::Public,
            octets: [0; 6],
        },
        irk: [0; 16],
    }
}

// The setup in a payload; none where the payload doesn't fit.
#[tactic(auto, unfolding(crate::specs::Setup::read_setup))]
pub fn read_setup(payload: &[u8]) -> Option<SetupCall>
    ensures { result ≡ read_setup payload.now }
{
    if setup_fits(payload) {
        return Some(setup_call(payload));
    }
    None
}

// Writes a setup's payload and answers 153. Where out is too short or the outbox's length above 512: nothing, and 0.
pub fn put_setup(out: &mut [u8], call: SetupCall) -> usize
    ensures { Wrote (setup_octets call) out.old result out.new }
{
    if 512 < call.outbox {
        return 0;
    }
    let mut payload = [0u8; 153];
    place_setup(&mut payload, call);
    octets::put(out, &payload)
}

// Whether a payload's length and ranges are right.
#[tactic(auto, unfolding(fields::specs::Fields::every, crate::specs::Setup::setup_fits))]
fn setup_fits(p: &[u8]) -> bool
    ensures { result ≡ setup_fits p.now }
{
    p.len() == 153
        && fields::half(p, 1) <= 512
        && fields::within(p, 0, 2)
        && fields::within(p, 3, 4)
        && fields::within(p, 4, 1)
        && fields::within(p, 5, 1)
        && fields::within(p, 6, 1)
        && passkey_fits(p)
        && fields::within(p, 91, 1)
        && fields::within(p, 98, 1)
        && fields::within(p, 105, 1)
        && fields::within(p, 112, 1)
        && fields::within(p, 129, 2)
        && fields::within(p, 130, 1)
}

// Where no passkey is configured its number is 0.
fn passkey_fits(p: &[u8]) -> bool
    ensures { result ≡ passkey_fits p.now }
{
    fields::byte(p, 6) != 0 || fields::word(p, 7) == 0
}

// What a payload says.
#[tactic(auto, using(crate::proofs::Starts::start_told), unfolding(crate::specs::Setup::setup_call))]
fn setup_call(p: &[u8]) -> SetupCall
    ensures { result ≡ setup_call p.now }
{
    SetupCall {
        start: StartKind::try_from(fields::byte(p, 0)).unwrap_or(StartKind::NotByUser),
        outbox: fields::half(p, 1),
        io: features::io_of(fields::byte(p, 3)),
        oob: features::oob_of(fields::byte(p, 4)),
        bonding: fields::byte(p, 5) == 1,
        passkey: configured_of(p),
        keyx: fields::array(p, 11),
        keyy: fields::array(p, 43),
        irk: fields::array(p, 75),
        own: address_of(p, 91),
        identity: address_of(p, 98),
        peer: address_of(p, 105),
        there: fields::byte(p, 112) == 1,
        bond: bond_of(p),
    }
}

fn bond_of(p: &[u8]) -> Bond
    ensures { result ≡ bond_at p.now }
{
    Bond {
        ltk: fields::array(p, 113),
        level: level_of(fields::byte(p, 129)),
        address: address_of(p, 130),
        irk: fields::array(p, 137),
    }
}

fn configured_of(p: &[u8]) -> Option<u32>
    ensures { result ≡ configured_of (get_or p.now 6 0) (number_at 4 7 p.now) }
{
    if fields::byte(p, 6) == 1 {
        Some(fields::word(p, 7))
    } else {
        None
    }
}

fn address_of(p: &[u8], at: usize) -> Address
    requires { at < 512 }
    ensures { result ≡ address_at at p.now }
{
    Address {
        kind: address_kind_of(fields::byte(p, at)),
        octets: fields::array(p, at + 1),
    }
}

// The eleven bytes before the public key.
fn setup_head(call: SetupCall) -> [u8; 11]
    ensures { result ≡ join (take 7 (setup_rows call)) }
{
    let outbox = fields::bytes2(call.outbox);
    let digits = fields::bytes4(call.passkey.unwrap_or(0));
    [
        u8::from(call.start),
        outbox[0],
        outbox[1],
        u8::from(call.io),
        u8::from(call.oob),
        u8::from(call.bonding),
        u8::from(call.passkey.is_some()),
        digits[0],
        digits[1],
        digits[2],
        digits[3],
    ]
}

// All 153 bytes.
fn place_setup(out: &mut [u8; 153], call: SetupCall)
    ensures { Placed 153 0 (join (setup_rows call)) out.old out.new }
{
    fields::place_array(out, 0, &setup_head(call));
    place_box(out, call);
}

// Our keys and the addresses, and the known bond.
fn place_box(out: &mut [u8; 153], call: SetupCall)
    ensures { Placed 142 11 (join (box_rows call)) out.old out.new }
{
    fields::place_array(out, 11, &call.keyx);
    fields::place_array(out, 43, &call.keyy);
    fields::place_array(out, 75, &call.irk);
    place_addresses(out, call.own, call.identity, call.peer);
    place_bond(out, call.there, call.bond);
}

// The three addresses.
fn place_addresses(out: &mut [u8; 153], own: Address, identity: Address, peer: Address)
    ensures { Placed 21 91 (address_octets own ++ address_octets identity ++ address_octets peer) out.old out.new }
{
    place_address(out, 91, own);
    place_address(out, 98, identity);
    place_address(out, 105, peer);
}

// The known bond.
fn place_bond(out: &mut [u8; 153], there: bool, bond: Bond)
    ensures { Placed 41 112 (join (bond_rows there bond)) out.old out.new }
{
    fields::place_array(out, 112, &[u8::from(there)]);
    fields::place_array(out, 113, &bond.ltk);
    fields::place_array(out, 129, &[u8::from(bond.level)]);
    place_address(out, 130, bond.address);
    fields::place_array(out, 137, &bond.irk);
}

// An address: type, then six bytes.
fn place_address(out: &mut [u8; 153], at: usize, address: Address)
    ensures { Placed 7 at (address_octets address) out.old out.new }
{
    let o = address.octets;
    let kind = u8::from(address.kind);
    fields::place_array(out, at, &[kind, o[0], o[1], o[2], o[3], o[4], o[5]]);
}

// Asked of numbers in range alone: `setup_fits` comes first.
#[tactic(auto, using(crate::proofs::Starts::kind_told))]
fn address_kind_of(number: u8) -> AddressKind
    ensures { result ≡ kind_of number }
{
    AddressKind::try_from(number).unwrap_or(AddressKind::Random)
}

#[tactic(auto, using(crate::proofs::Starts::level_told))]
fn level_of(number: u8) -> SecurityLevel
    ensures { result ≡ level_of number }
{
    SecurityLevel::try_from(number).unwrap_or(SecurityLevel::EncryptedAuthenticated)
}
