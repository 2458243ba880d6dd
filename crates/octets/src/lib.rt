// Octet strings: turned round between the order on the air and ours, written into lent slices, and compared. Nothing here knows of
// Bluetooth. Where a slice is too short or a value has another length, the answer says so and nothing is written. A writer gives a count and
// no Option: counts add up to what stands in an outbox (`Wrote`), and of what doesn't fit they count 0.
#![tactic(auto)]

ghost use Rattle.std.specs.Prelude.{◌≡◌, length};
ghost use Rattle.octets.specs.Octets.{flip, turned, same, all_zero};
ghost use Rattle.octets.specs.Write.{Wrote};

// Writes src over the start of dst and answers how many octets that were. Where dst is too short: nothing, and 0.
pub fn put(dst: &mut [u8], src: &[u8]) -> usize
    ensures { Wrote src.now dst.old result dst.new }
{
    if dst.len() < src.len() {
        return 0;
    }
    dst[..src.len()].copy_from_slice(src);
    src.len()
}

// Writes src, last octet first, over the start of dst and answers how many octets that were. Where dst is too short: nothing, and 0.
pub fn put_reversed(dst: &mut [u8], src: &[u8]) -> usize
    ensures { Wrote (flip src.now) dst.old result dst.new }
{
    let n = src.len();
    if dst.len() < n {
        return 0;
    }
    for i in 0..n {
        dst[i] = src[n - 1 - i];
    }
    n
}

// The N octets of src, last first; zeros where src has another length.
pub fn reversed<const N: usize>(src: &[u8]) -> [u8; N]
    ensures { result ≡ turned N src.now }
{
    let mut r = [0u8; N];
    if src.len() == N {
        put_reversed(&mut r, src);
    }
    r
}

// Whether a and b have the same octets. They are compared to the end: the number of turns doesn't tell where they differ.
pub fn equal(a: &[u8], b: &[u8]) -> bool
    ensures { result ≡ same a.now b.now }
{
    if a.len() != b.len() {
        return false;
    }
    let mut alike = true;
    for i in 0..a.len() {
        if a[i] != b[i] {
            alike = false;
        }
    }
    alike
}

// Whether all 16 octets are zero.
pub fn all_zero16(a: [u8; 16]) -> bool
    ensures { result ≡ all_zero a }
{
    equal(&a, &[0u8; 16])
}
