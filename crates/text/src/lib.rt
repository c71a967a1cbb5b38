// Text: UTF-8 by RFC 3629, the rule by which `decode_header` of sah.rs (`String::from_utf8`) refuses
// a path. Overlong forms, surrogates, characters above U+10FFFF and cut characters are no text; the
// empty run and NUL are. Beside it the greatest byte of a run, which tells in one loop without an
// early exit whether all of it is ASCII (below 128) or zero (0).
#![tactic(auto)]

ghost use Rattle.std.specs.Prelude.{◌≡◌};
ghost use Rattle.text.specs.Text.{owed, lead_of, lead_of3, lead_of4, step_of, walk_of, between, is_text};
ghost use Rattle.text.specs.Greatest.{greatest};

// Where a reader of a text stands: `left` bytes are due, the next of them in lo..=hi and those
// behind it in 0x80..=0xBF.
#[derive(Clone, Copy)]
struct Due {
    left: u8,
    lo: u8,
    hi: u8,
}

// Whether s is text. A run without a byte of 128 or more is, and needs no walk.
pub fn is_text(s: &[u8]) -> bool
    ensures { result ≡ is_text s.now }
{
    if greatest(s) < 0x80 {
        return true;
    }
    let end = walk(s);
    end.left == 0
}

// The greatest byte of s, 0 where there is none.
pub fn greatest(s: &[u8]) -> u8
    ensures { result ≡ greatest s.now }
{
    let mut top: u8 = 0;
    for b in s {
        top = top.max(*b);
    }
    top
}

// Where a reader stands behind all of s.
fn walk(s: &[u8]) -> Due
    ensures { result ≡ walk_of between s.now }
{
    let mut d = owed(0, 0x80, 0xBF);
    for b in s {
        d = step(d, *b);
    }
    d
}

// Where a reader who stands at d stands behind the byte b.
fn step(d: Due, b: u8) -> Due
    ensures { result ≡ step_of d b }
{
    if d.left == 0 {
        return lead(b);
    }
    if b < d.lo {
        return owed(1, 1, 0);
    }
    if d.hi < b {
        return owed(1, 1, 0);
    }
    owed(d.left - 1, 0x80, 0xBF)
}

// What is due behind the first byte of a character; where b is no first byte, a byte that there is
// not (in 1..=0).
fn lead(b: u8) -> Due
    ensures { result ≡ lead_of b }
{
    if b <= 0x7F {
        return owed(0, 0x80, 0xBF);
    }
    if b < 0xC2 {
        return owed(1, 1, 0);
    }
    if b <= 0xDF {
        return owed(1, 0x80, 0xBF);
    }
    if b <= 0xEF {
        return lead3(b);
    }
    lead4(b)
}

// The same of a first byte in 0xE0..=0xEF: no overlong form behind E0, no surrogate behind ED.
fn lead3(b: u8) -> Due
    ensures { result ≡ lead_of3 b }
{
    if b == 0xE0 {
        return owed(2, 0xA0, 0xBF);
    }
    if b == 0xED {
        return owed(2, 0x80, 0x9F);
    }
    owed(2, 0x80, 0xBF)
}

// The same of a byte from 0xF0 on: no overlong form behind F0, nothing above U+10FFFF behind F4.
fn lead4(b: u8) -> Due
    ensures { result ≡ lead_of4 b }
{
    if b == 0xF0 {
        return owed(3, 0x90, 0xBF);
    }
    if b <= 0xF3 {
        return owed(3, 0x80, 0xBF);
    }
    if b == 0xF4 {
        return owed(3, 0x80, 0x8F);
    }
    owed(1, 1, 0)
}

// `left` bytes owed, the next in lo..=hi.
fn owed(left: u8, lo: u8, hi: u8) -> Due
    ensures { result ≡ owed left lo hi }
{
    Due {
        left: left,
        lo: lo,
        hi: hi,
    }
}
