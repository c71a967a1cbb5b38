// Little-endian numbers in a slice of bytes: one writer and one reader, for a field of any width at
// any offset. The Rust has `to_le_bytes` and `from_le_bytes` in their place. A field must lie inside
// the slice, and a number that is read has at most 8 bytes.
#![tactic(auto)]

ghost use Rattle.std.specs.Prelude.{◌≡◌, ◌+◌, ◌≤◌, length};
ghost use Rattle.le.specs.Le.{le, unle, field, laid};

// Writes the low w bytes of x, lowest first, to dst from `at` on.
pub fn put_at(dst: &mut [u8], at: usize, w: usize, x: u64)
    requires { at + w ≤ length dst.old }
    ensures { dst.new ≡ laid dst.old at (le w x) }
{
    put_le(&mut dst[at..at + w], x);
}

// The number in the w bytes of src from `at` on, lowest first.
pub fn get_at(src: &[u8], at: usize, w: usize) -> u64
    requires { (at + w ≤ length src.now) × (w ≤ 8) }
    ensures { result ≡ field src.now at w }
{
    get_le(&src[at..at + w])
}

// Fills dst with the low bytes of x, lowest first.
pub fn put_le(dst: &mut [u8], x: u64)
    ensures { dst.new ≡ le (length dst.old) x }
{
    let mut v = x;
    for b in dst.iter_mut() {
        *b = (v % 256) as u8;
        v /= 256;
    }
}

// The number whose bytes are src, lowest first.
pub fn get_le(src: &[u8]) -> u64
    requires { length src.now ≤ 8 }
    ensures { result ≡ unle src.now }
{
    let mut r: u64 = 0;
    for b in src.iter().rev() {
        r = r * 256 + u64::from(*b);
    }
    r
}
