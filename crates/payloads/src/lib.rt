// A command's payload as it arrives: what it holds where it is the one that a step awaits, by its code and its length, and else how the pairing
// fails. A step and the query of its questions go by the same functions.
#![tactic(auto)]

ghost use Rattle.std.specs.Prelude.{◌≡◌, eqb, take, drop};
ghost use Rattle.octets.specs.Octets.{turned, flip};
ghost use Rattle.frames.specs.Packets.{confirm_code, random_code, public_key_code};
ghost use Rattle.protocol.specs.Parts.{is_value, is_key, verdict_of};

use protocol::Failure;

// A payload that is one value: sixteen octets.
pub fn is_value(payload: &[u8]) -> bool
    ensures { result ≡ is_value payload.now }
{
    payload.len() == 16
}

// One value by an awaited code; another length is a failure of the step's own.
#[tactic(auto, using(protocol::proofs::Follows::read_value), unfolding(protocol::specs::Parts::verdict_of))]
pub fn value(awaited: u8, wrong: Failure, code: u8, payload: &[u8]) -> Result<[u8; 16], Failure>
    ensures { result ≡ verdict_of (eqb code awaited) (is_value payload.now) wrong (flip payload.now) }
{
    if code != awaited {
        return Err(Failure::InvalidState);
    }
    if is_value(payload) {
        return Ok(octets::reversed(payload));
    }
    Err(wrong)
}

// Pairing Confirm of a round. This one and the next are the value of one code each, so that a step and its query can't take another.
pub fn confirm(code: u8, payload: &[u8]) -> Result<[u8; 16], Failure>
    ensures { result ≡ verdict_of (eqb code confirm_code) (is_value payload.now) Failure.InvalidParameters (flip payload.now) }
{
    value(
        frames::PAIRING_CONFIRM,
        Failure::InvalidParameters,
        code,
        payload,
    )
}

// Pairing Random of a round, and of a comparison.
pub fn random(code: u8, payload: &[u8]) -> Result<[u8; 16], Failure>
    ensures { result ≡ verdict_of (eqb code random_code) (is_value payload.now) Failure.InvalidParameters (flip payload.now) }
{
    value(
        frames::PAIRING_RANDOM,
        Failure::InvalidParameters,
        code,
        payload,
    )
}

// Pairing Public Key (Part H 3.5.6): two coordinates, each of 32 octets, least significant first.
#[tactic(auto, unfolding(protocol::specs::Parts::verdict_of))]
pub fn public_key(code: u8, payload: &[u8]) -> Result<(), Failure>
    ensures { result ≡ verdict_of (eqb code public_key_code) (is_key payload.now) Failure.InvalidParameters tt }
{
    if code != frames::PUBLIC_KEY {
        return Err(Failure::InvalidState);
    }
    if payload.len() != 64 {
        return Err(Failure::InvalidParameters);
    }
    Ok(())
}

// The x coordinate of a public key of 64 octets, and the y coordinate; zeros where there are fewer, or other, octets.
pub fn peer_x(payload: &[u8]) -> [u8; 32]
    ensures { result ≡ turned 32 (take 32 payload.now) }
{
    if payload.len() < 32 {
        return octets::reversed(payload);
    }
    octets::reversed(&payload[0..32])
}

pub fn peer_y(payload: &[u8]) -> [u8; 32]
    ensures { result ≡ turned 32 (drop 32 payload.now) }
{
    if payload.len() < 32 {
        return [0u8; 32];
    }
    octets::reversed(&payload[32..])
}
