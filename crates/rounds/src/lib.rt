// Passkey entry's twenty rounds (Part H 2.3.5.6.3): which bit of the passkey a round shows, which round follows, and the passkey as
// the secret of the DHKey check. Responder and initiator both go by these.
#![tactic(auto)]

ghost use Rattle.std.specs.Prelude.{◌≡◌};
ghost use Rattle.rounds.specs.Rounds.{z_of, after_of, in_range, secret_of};

// Round r's z: 0x80 plus bit r of the passkey. Bits past the 32nd are zero.
pub fn z(passkey: u32, round: u8) -> u8
    ensures { result ≡ z_of passkey round }
{
    if 32 <= round {
        return 128;
    }
    let bit = (passkey >> (round as u32)) % 2;
    128 + (bit as u8)
}

// The round that follows round r. None follows round 19: the DHKey check comes.
pub fn after(round: u8) -> Option<u8>
    ensures { result ≡ after_of round }
{
    if round < 19 { Some(round + 1) } else { None }
}

// Whether a number is a passkey: at most six decimal digits.
pub fn in_range(passkey: u32) -> bool
    ensures { result ≡ in_range passkey }
{
    passkey <= 999_999
}

// The passkey as a 128-bit secret, most significant octet first.
pub fn secret(passkey: u32) -> [u8; 16]
    ensures { result ≡ secret_of passkey }
{
    let a = (passkey / 16_777_216) as u8;
    let b = (passkey / 65_536 % 256) as u8;
    let c = (passkey / 256 % 256) as u8;
    let d = (passkey % 256) as u8;
    [0, 0, 0, 0, 0, 0, 0, 0, 0, 0, 0, 0, a, b, c, d]
}
