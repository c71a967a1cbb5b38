// Output that is poured into a lent buffer, which may be too short for it. `at` says how much came before: what falls past the buffer's
// end is counted and goes nowhere. Each writer gives back the count after it, and refuses nothing; the caller has seen that the count fits.
#![tactic(auto)]

ghost use Rattle.std.specs.Prelude.{◌≡◌, [], ◌∷◌, ◌+◌, ◌^◌, ◌<◌, length};
ghost use Rattle.le.specs.Le.{le};
ghost use Rattle.output.specs.Writer.{Puts, run_of};

// One byte.
pub fn put_byte(out: &mut [u8], at: usize, x: u8) -> usize
    requires { at + 1 < 2 ^ 64 }
    ensures { Puts (x ∷ []) out.old out.new at result }
{
    if at < out.len() {
        out[at] = x;
        return at + 1;
    }
    at + 1
}

// The low w bytes of x, lowest first.
pub fn put_le(out: &mut [u8], at: usize, w: usize, x: u64) -> usize
    requires { at + w < 2 ^ 64 }
    ensures { Puts (le w x) out.old out.new at result }
{
    let mut v = x;
    let mut a = at;
    for _ in 0..w {
        a = put_byte(out, a, (v % 256) as u8);
        v /= 256;
    }
    a
}

// A run of bytes.
pub fn put_bytes(out: &mut [u8], at: usize, src: &[u8]) -> usize
    requires { at + length src.now < 2 ^ 64 }
    ensures { Puts src.now out.old out.new at result }
{
    let mut a = at;
    for x in src {
        a = put_byte(out, a, *x);
    }
    a
}

// A run: its length as a u16, and its bytes.
pub fn put_run(out: &mut [u8], at: usize, src: &[u8]) -> usize
    requires { at + 2 + length src.now < 2 ^ 64 }
    ensures { Puts (run_of src.now) out.old out.new at result }
{
    let a = put_le(out, at, 2, src.len() as u64);
    put_bytes(out, a, src)
}
