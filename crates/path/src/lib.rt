// Paths as Rust's std::path has them on a platform with `/`: equality, the parent, the ancestors, normal spelling and the order of
// listings. A path is its bytes: any bytes will do, and nothing is refused. All works on the given spelling, and nothing is copied but
// what is to be written.
#![tactic(auto)]

ghost use Rattle.std.specs.Prelude.{◌≡◌, ◌+◌, ◌≤◌, length, drop};
ghost use Rattle.le.specs.Le.{laid};
ghost use Rattle.lists.specs.Same.{same_bytes};
ghost use Rattle.path.specs.Path.{same_path, is_parent, slash, normal, parent_of, parent_len, path_order, tail8, text_key, key_of};
ghost use Rattle.path.specs.Spelling.{idle_slash};
ghost use Rattle.path.specs.Walk.{run, NameOf, NextOf, Starts, LastOf, UpOf, Above, name_order, parent_laid};

use std::cmp::Ordering;

// A component of a path: its bytes stand from start to stop.
#[derive(Clone, Copy)]
struct Part {
    start: usize,
    stop: usize,
}

// The end of the part that starts at i: the first slash from i on, or the end of the text.
fn part_end(s: &[u8], i: usize) -> usize
    requires { i ≤ length s.now }
    ensures ends { result ≡ i + run (drop i s.now) }
    ensures inside { result ≤ length s.now }
{
    match s[i..].iter().position(|b| *b == b'/') {
        None => s.len(),
        Some(k) => i + k,
    }
}

// The next component from i on, where i is behind the path's first. The walk goes by parts, so it counts by no fixed step.
fn next_name(s: &[u8], i: usize) -> Option<Part>
    requires { i ≤ length s.now }
    ensures { NameOf s.now i result }
{
    let mut at = i;
    while at < s.len() {
        if s[at] == b'/' {
            at += 1;
        } else {
            let e = part_end(s, at);
            if e != at + 1 {
                return Some(Part { start: at, stop: e });
            }
            let dot = s[at] == b'.';
            if !dot {
                return Some(Part { start: at, stop: e });
            }
            at = e;
        }
    }
    None
}

// The next component from i on: 0 is before the first, and a component's stop is behind it.
fn next(s: &[u8], i: usize) -> Option<Part>
    requires { i ≤ length s.now }
    ensures { NextOf s.now i result }
{
    if i != 0 {
        return next_name(s, i);
    }
    if s.len() == 0 {
        return None;
    }
    if s[0] == b'/' {
        return Some(Part { start: 0, stop: 1 });
    }
    let e = part_end(s, 0);
    Some(Part { start: 0, stop: e })
}

// The start of the part that ends at e: behind the last slash before e, or the front of the text.
fn part_start(s: &[u8], e: usize) -> usize
    requires { e ≤ length s.now }
    ensures { Starts s.now e result }
{
    match s[..e].iter().rposition(|b| *b == b'/') {
        None => 0,
        Some(k) => k + 1,
    }
}

// The last component, found from the back by parts.
fn last(s: &[u8]) -> Option<Part>
    ensures { LastOf s.now result }
{
    let mut e = s.len();
    while 0 < e {
        if s[e - 1] == b'/' {
            if e == 1 {
                return Some(Part { start: 0, stop: 1 });
            }
            e -= 1;
        } else {
            let a = part_start(s, e);
            if a == 0 {
                return Some(Part { start: 0, stop: e });
            }
            if e != a + 1 {
                return Some(Part { start: a, stop: e });
            }
            if s[a] != b'.' {
                return Some(Part { start: a, stop: e });
            }
            e = a;
        }
    }
    None
}

// Whether a and b hold the same bytes: eight at a time from the back, where paths of one folder differ, then the rest. `a == b` would look
// at them from the front, where they are alike.
pub fn same_bytes(a: &[u8], b: &[u8]) -> bool
    ensures { result ≡ same_bytes a.now b.now }
{
    let n = a.len();
    if n != b.len() {
        return false;
    }
    let mut i = n;
    while 8 <= i {
        i -= 8;
        if le::get_at(a, i, 8) != le::get_at(b, i, 8) {
            return false;
        }
    }
    a[..i] == b[..i]
}

// Whether a and b spell the same path: `Path == Path`. Both are walked side by side from the back, where paths differ most often.
fn same_walk(a: &[u8], b: &[u8]) -> bool
    ensures { result ≡ same_path a.now b.now }
{
    let mut i = a.len();
    let mut j = b.len();
    while let Some(p) = last(&a[..i]) {
        let Some(q) = last(&b[..j]) else {
            return false;
        };
        if !same_bytes(&a[p.start..p.stop], &b[q.start..q.stop]) {
            return false;
        }
        i = p.start;
        j = q.start;
    }
    last(&b[..j]).is_none()
}

// Whether a and b spell the same path: `Path == Path`. Equal bytes need no walk.
pub fn same_path(a: &[u8], b: &[u8]) -> bool
    ensures { result ≡ same_path a.now b.now }
{
    if same_bytes(a, b) {
        return true;
    }
    same_walk(a, b)
}

// Writes a slash at index at if sep says so, and returns the index behind it.
fn put_slash(dst: &mut [u8], at: usize, sep: bool) -> usize
    requires { at + length (slash sep) ≤ length dst.old }
    ensures laid { dst.new ≡ laid dst.old at (slash sep) }
    ensures behind { result ≡ at + length (slash sep) }
{
    if sep {
        dst[at] = b'/';
        return at + 1;
    }
    at
}

// The length of the normal spelling.
pub fn normal_len(s: &[u8]) -> usize
    ensures { result ≡ length (normal s.now) }
{
    let mut at = 0;
    let mut out = 0;
    let mut sep = false;
    while let Some(p) = next(s, at) {
        out += usize::from(sep) + (p.stop - p.start);
        sep = s[p.start] != b'/';
        at = p.stop;
    }
    out
}

// Writes the normal spelling of src to the front of dst, and returns its length.
pub fn normalize(src: &[u8], dst: &mut [u8]) -> usize
    requires { length (normal src.now) ≤ length dst.old }
    ensures laid { dst.new ≡ laid dst.old 0 (normal src.now) }
    ensures long { result ≡ length (normal src.now) }
{
    let mut at = 0;
    let mut out = 0;
    let mut sep = false;
    while let Some(p) = next(src, at) {
        out = put_slash(dst, out, sep);
        let n = p.stop - p.start;
        dst[out..out + n].copy_from_slice(&src[p.start..p.stop]);
        out += n;
        sep = src[p.start] != b'/';
        at = p.stop;
    }
    out
}

// Where a front of the path's spelling ends that spells its parent, `Path::parent`, or that it has none.
pub fn parent_end(s: &[u8]) -> Option<usize>
    ensures { UpOf s.now result }
{
    let p = last(s)?;
    let a = p.start;
    if s[a] == b'/' {
        return None;
    }
    if a <= 1 {
        return Some(a);
    }
    Some(a - 1)
}

// Whether dir spells the parent of file.
pub fn is_parent(dir: &[u8], file: &[u8]) -> bool
    ensures { result ≡ is_parent dir.now file.now }
{
    match parent_end(file) {
        None => false,
        Some(e) => same_path(dir, &file[..e]),
    }
}

// Writes the normal spelling of src's parent to the front of dst, and says how long it is; without a parent nothing is written.
pub fn parent(src: &[u8], dst: &mut [u8]) -> Option<usize>
    requires { length (parent_of src.now) ≤ length dst.old }
    ensures long { result ≡ parent_len src.now }
    ensures laid { dst.new ≡ parent_laid dst.old src.now }
{
    let e = parent_end(src)?;
    Some(normalize(&src[..e], dst))
}

// Where the front of the spelling ends that spells the nearest ancestor but the empty path; 0 if there is none, which is where the empty
// front ends.
pub fn above(s: &[u8]) -> usize
    ensures { Above s.now result }
{
    parent_end(s).unwrap_or(0)
}

// The order of two components that differ; more_a and more_b say whether a slash and more follow them in the normal spellings, which no
// order of the library's asks.
fn compare_names(a: &[u8], more_a: bool, b: &[u8], more_b: bool) -> Ordering
    ensures { result ≡ name_order more_a a.now more_b b.now }
{
    for (x, y) in a.iter().zip(b) {
        if *x != *y {
            return x.cmp(y);
        }
    }
    if b.len() < a.len() {
        if more_b && a[b.len()] < b'/' {
            return Ordering::Less;
        }
        return Ordering::Greater;
    }
    if a.len() < b.len() {
        let low = b[a.len()] <= b'/';
        if more_a && low {
            return Ordering::Greater;
        }
        return Ordering::Less;
    }
    Ordering::Equal
}

// The order of a listing, that of the bytes of both normal spellings, which are not written: the first components that differ decide.
pub fn compare(a: &[u8], b: &[u8]) -> Ordering
    ensures { result ≡ path_order a.now b.now }
{
    let mut i = 0;
    let mut j = 0;
    while let Some(p) = next(a, i) {
        let Some(q) = next(b, j) else {
            return Ordering::Greater;
        };
        if !same_bytes(&a[p.start..p.stop], &b[q.start..q.stop]) {
            let more_a = next(a, p.stop).is_some();
            let more_b = next(b, q.stop).is_some();
            return compare_names(&a[p.start..p.stop], more_a, &b[q.start..q.stop], more_b);
        }
        i = p.stop;
        j = q.stop;
    }
    if next(b, j).is_some() {
        return Ordering::Less;
    }
    Ordering::Equal
}

// The last eight bytes of a text as a number, or as many as it has. Where there are eight their count is a constant, so that they can be
// read at once: keys are asked for in every call.
fn tail_number(c: &[u8]) -> u64
    ensures { result ≡ tail8 c.now }
{
    let n = c.len();
    if n < 8 {
        return le::get_le(c);
    }
    le::get_at(c, n - 8, 8)
}

// A key of a text, whatever it spells, from its last eight bytes, or as many as it has, and its length.
pub fn text_key(c: &[u8]) -> u32
    ensures { result ≡ text_key c.now }
{
    let x = tail_number(c);
    let n = (c.len() % 65536) as u64;
    ((x % 4294967296 + x / 4294967296 * 31 + n) % 4294967296) as u32
}

// A key for lookups, from the last component alone: equal paths have one key.
pub fn key(s: &[u8]) -> u32
    ensures { result ≡ key_of s.now }
{
    match last(s) {
        None => text_key(&[]),
        Some(p) => text_key(&s[p.start..p.stop]),
    }
}

// Whether a, of three bytes in a row, is a slash before a slash or before a part `.`.
fn idle_slash(a: u8, b: u8, c: u8) -> bool
    ensures { result ≡ idle_slash a b c }
{
    (a == b'/') & ((b == b'/') | ((b == b'.') & (c == b'/')))
}

// Whether s is its own normal spelling, told from its bytes alone: nothing is split, joined or copied. The Rust has no such test; in its
// terms, whether `path.components().collect::<PathBuf>()` is the path byte for byte. The end of the text counts as a slash. The loop has
// no early exit, so that many bytes are looked at in a turn.
pub fn is_normal(s: &[u8]) -> bool
    ensures { result ≡ same_bytes (normal s.now) s.now }
{
    let n = s.len();
    if n < 2 {
        return true;
    }
    let mut bad = false;
    for j in 0..n - 2 {
        bad |= idle_slash(s[j], s[j + 1], s[j + 2]);
    }
    let idle = idle_slash(s[n - 2], s[n - 1], b'/');
    !(bad | idle | (s[n - 1] == b'/'))
}
