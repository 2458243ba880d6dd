// The fields of a payload: bytes, little-endian numbers and byte strings, read and written at an offset. Where a payload ends before
// a field does, zeros are read; where a buffer does, nothing is written.
#![tactic(auto)]

ghost use Rattle.std.specs.Prelude.{◌≡◌, get_or};
ghost use Rattle.fields.specs.Fields.{little, number_at, filled, field, at_most, placed, Placed};

// The byte at an offset.
pub fn byte(p: &[u8], at: usize) -> u8
    ensures { result ≡ get_or p.now at 0 }
{
    p.get(at).copied().unwrap_or(0)
}

// The number of two bytes at an offset.
pub fn half(p: &[u8], at: usize) -> usize
    ensures { result ≡ number_at 2 at p.now }
{
    if at < p.len() {
        return u16::from_le_bytes([byte(p, at), byte(p, at + 1)]) as usize;
    }
    0
}

// The number of four bytes at an offset.
pub fn word(p: &[u8], at: usize) -> u32
    ensures { result ≡ number_at 4 at p.now }
{
    if at < p.len() {
        return u32::from_le_bytes([
            byte(p, at),
            byte(p, at + 1),
            byte(p, at + 2),
            byte(p, at + 3),
        ]);
    }
    0
}

// N bytes at an offset.
pub fn array<const N: usize>(p: &[u8], at: usize) -> [u8; N]
    ensures { result ≡ field N at p.now }
{
    let mut r = [0u8; N];
    fill(&mut r, p, at);
    r
}

// Whether the byte at an offset is at most a limit.
pub fn within(p: &[u8], at: usize, limit: u8) -> bool
    ensures { result ≡ at_most at limit p.now }
{
    byte(p, at) <= limit
}

// The four bytes of a number.
pub fn bytes4(n: u32) -> [u8; 4]
    ensures { result ≡ little 4 n }
{
    n.to_le_bytes()
}

// The two bytes of a number's last sixteen bits.
pub fn bytes2(n: usize) -> [u8; 2]
    ensures { result ≡ little 2 n }
{
    ((n % 65536) as u16).to_le_bytes()
}

// N bytes, written at an offset. Put in line, or the compiler guards each copy by a test whether the two overlap.
#[inline(always)]
pub fn place_array<const N: usize>(out: &mut [u8], at: usize, value: &[u8; N])
    ensures { Placed N at value.now out.old out.new }
{
    place(out, at, value);
}

// A byte string, written at an offset.
pub fn place(out: &mut [u8], at: usize, src: &[u8])
    ensures { out.new ≡ placed at src.now out.old }
{
    if out.len() < at {
        return;
    }
    octets::put(&mut out[at..], src);
}

// Fills r from p's bytes at an offset, where there are enough of them.
fn fill(r: &mut [u8], p: &[u8], at: usize)
    ensures { r.new ≡ filled r.old at p.now }
{
    let n = r.len();
    if p.len() < n {
        return;
    }
    if p.len() - n < at {
        return;
    }
    octets::put(r, &p[at..at + n]);
}
