// The frames that the box sends, one function a packet. Each writes its frame over the start of a lent outbox and answers how many
// octets that were; where the outbox is too short nothing is written and the answer is 0. Values, key coordinates and addresses are
// given most significant octet first and travel least significant first.
#![tactic(auto)]

ghost use Rattle.std.specs.Prelude.{◌≤◌, ◌≡◌, [], ◌∷◌, ◌++◌, length};
ghost use Rattle.octets.specs.Write.{over, Wrote};
ghost use Rattle.frames.specs.Packets.{
  pairing_response,
  pairing_confirm,
  pairing_random,
  identity_information,
  identity_address,
  security_request,
  public_key,
  dhkey_check,
  channel,
  head,
  frame,
  framed,
};
ghost use Rattle.octets.specs.Octets.{flip};

use address::Address;
use features::PairingFeatures;

// The codes of the commands (Part H 3.3). They are numbers and no enum: a code that comes may be any octet, and one that isn't awaited fails
// whether or not Part H names it.
pub const PAIRING_REQUEST: u8 = 0x01;

pub const PAIRING_RESPONSE: u8 = 0x02;

pub const PAIRING_CONFIRM: u8 = 0x03;

pub const PAIRING_RANDOM: u8 = 0x04;

pub const IDENTITY_INFORMATION: u8 = 0x08;

pub const IDENTITY_ADDRESS: u8 = 0x09;

pub const SECURITY_REQUEST: u8 = 0x0B;

pub const PUBLIC_KEY: u8 = 0x0C;

pub const DHKEY_CHECK: u8 = 0x0D;

// Pairing Response: our features.
pub fn pairing_response(out: &mut [u8], features: PairingFeatures) -> usize
    ensures { Wrote (framed channel (pairing_response features ∷ [])) out.old result out.new }
{
    if out.len() < 11 {
        return 0;
    }
    header(out, 7, PAIRING_RESPONSE);
    octets::put(&mut out[5..], &features.encode());
    11
}

// Pairing Confirm. This one and the three others of one value are a line each over `value_frame`: a function for each packet of Part H, so that
// none takes a code.
pub fn confirm(out: &mut [u8], value: [u8; 16]) -> usize
    ensures { Wrote (framed channel (pairing_confirm value ∷ [])) out.old result out.new }
{
    value_frame(out, PAIRING_CONFIRM, value)
}

// Pairing Random: a nonce.
pub fn random(out: &mut [u8], nonce: [u8; 16]) -> usize
    ensures { Wrote (framed channel (pairing_random nonce ∷ [])) out.old result out.new }
{
    value_frame(out, PAIRING_RANDOM, nonce)
}

// Identity Information: an identity resolving key.
pub fn identity_information(out: &mut [u8], irk: [u8; 16]) -> usize
    ensures { Wrote (framed channel (identity_information irk ∷ [])) out.old result out.new }
{
    value_frame(out, IDENTITY_INFORMATION, irk)
}

// Identity Address Information.
pub fn identity_address(out: &mut [u8], address: Address) -> usize
    ensures { Wrote (framed channel (identity_address address ∷ [])) out.old result out.new }
{
    if out.len() < 12 {
        return 0;
    }
    header_and(out, 8, IDENTITY_ADDRESS, u8::from(address.kind));
    octets::put_reversed(&mut out[6..], &address.octets);
    12
}

// Identity Information and, behind it, Identity Address Information.
pub fn identity(out: &mut [u8], irk: [u8; 16], address: Address) -> usize
    ensures { Wrote (framed channel (identity_information irk ∷ identity_address address ∷ [])) out.old result out.new }
{
    if out.len() < 33 {
        return 0;
    }
    identity_information(out, irk);
    identity_address(&mut out[21..], address);
    33
}

// Security Request.
pub fn security_request(out: &mut [u8], authreq: u8) -> usize
    ensures { Wrote (framed channel (security_request authreq ∷ [])) out.old result out.new }
{
    if out.len() < 6 {
        return 0;
    }
    header_and(out, 2, SECURITY_REQUEST, authreq);
    6
}

// Pairing Public Key.
pub fn public_key(out: &mut [u8], x: [u8; 32], y: [u8; 32]) -> usize
    ensures { Wrote (framed channel (public_key x y ∷ [])) out.old result out.new }
{
    if out.len() < 69 {
        return 0;
    }
    header(out, 65, PUBLIC_KEY);
    octets::put_reversed(&mut out[5..], &x);
    octets::put_reversed(&mut out[37..], &y);
    69
}

// Pairing Public Key and, behind it, Pairing Confirm: the rest of the outbox is lent on to the confirm writer.
pub fn public_key_confirm(out: &mut [u8], x: [u8; 32], y: [u8; 32], value: [u8; 16]) -> usize
    ensures { Wrote (framed channel (public_key x y ∷ pairing_confirm value ∷ [])) out.old result out.new }
{
    if out.len() < 90 {
        return 0;
    }
    public_key(out, x, y);
    confirm(&mut out[69..], value);
    90
}

// Pairing DHKey Check.
pub fn dhkey_check(out: &mut [u8], check: [u8; 16]) -> usize
    ensures { Wrote (framed channel (dhkey_check check ∷ [])) out.old result out.new }
{
    value_frame(out, DHKEY_CHECK, check)
}

// A frame that carries one value.
fn value_frame(out: &mut [u8], code: u8, value: [u8; 16]) -> usize
    ensures { Wrote (frame channel code (flip value)) out.old result out.new }
{
    if out.len() < 21 {
        return 0;
    }
    header(out, 17, code);
    octets::put_reversed(&mut out[5..], &value);
    21
}

// A frame's header and the first octet of its payload.
fn header_and(out: &mut [u8], size: u8, code: u8, first: u8)
    requires { 6 ≤ length out.old }
    ensures { out.new ≡ over (head channel size code ++ (first ∷ [])) out.old }
{
    header(out, size, code);
    out[5] = first;
}

// A frame's first five octets. `size` counts the code and the payload.
fn header(out: &mut [u8], size: u8, code: u8)
    requires { 5 ≤ length out.old }
    ensures { out.new ≡ over (head channel size code) out.old }
{
    out[..5].copy_from_slice(&[size, 0, 6, 0, code]);
}
