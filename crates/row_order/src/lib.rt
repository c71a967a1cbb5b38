// The order in which 01 lists and dumps paths: byte order of normal spelling. What is put in order are parts of a buffer that spell paths,
// rows of slots or of directories alike; the paths stay where they are. The Rust has no such order: its listings are sets. Nothing is
// refused.
#![tactic(auto)]

ghost use Rattle.std.specs.Prelude.{◌≡◌, ℕ, Bool, map, ◌+◌, ◌*◌, ◌^◌, ◌≤◌, ◌<◌, length, get_or, drop};
ghost use Rattle.std.proofs.lemmas.List.Edits.{sets};
ghost use Rattle.limits.specs.Limits.{dir_width};
ghost use Rattle.lists.specs.Runs.{range};
ghost use Rattle.lists.specs.Sort.{keep, sort};
ghost use Rattle.slot_rows.specs.Held.{held, Lie};
ghost use Rattle.dir_rows.specs.Rows.{dirs_of};
ghost use Rattle.row_order.specs.Spans.{span, span_before, SpanInside, AllInside, file_span, dir_span, slot_of, file_spans, dir_spans};
ghost use Rattle.row_order.specs.Picks.{Answers};
ghost use Rattle.row_order.specs.Risen.{Risen, place};

use limits::{DIR_WIDTH, MAX_PATH};
use slot_rows::Rows;

// The part of a buffer that starts at a place and has a length, as one number.
pub fn span(start: usize, len: usize) -> u32
    requires { start * 512 + len < 2 ^ 32 }
    ensures { result ≡ span start len }
{
    (start * 512 + len) as u32
}

// Whether the path of the part x comes before that of y.
fn comes_before(bytes: &[u8], x: u32, y: u32) -> bool
    requires { SpanInside bytes.now x × SpanInside bytes.now y }
    ensures { result ≡ span_before bytes.now x y }
{
    let a = (x / 512) as usize;
    let m = (x % 512) as usize;
    let b = (y / 512) as usize;
    let n = (y % 512) as usize;
    path::compare(&bytes[a..a + m], &bytes[b..b + n]).is_lt()
}

// How many of the parts behind the first come before it or are level with it: they are in order, so a half of them is set aside at each
// look. `partition_point` would ask that any part can be compared, and only those that lie inside can.
fn place_of(bytes: &[u8], spans: &[u32]) -> usize
    requires { AllInside bytes.now spans.now × (0 < length spans.now) × Risen (span_before bytes.now) (drop 1 spans.now) }
    ensures { result ≡ place (span_before bytes.now) (get_or spans.now 0 0) (drop 1 spans.now) }
{
    let x = spans[0];
    let mut low = 0;
    let mut high = spans.len() - 1;
    while low < high {
        let mid = low + (high - low) / 2;
        if comes_before(bytes, x, spans[mid + 1]) {
            high = mid;
        } else {
            low = mid + 1;
        }
    }
    low
}

// Puts the parts in order, from the last to the first: each goes to its place among those behind it.
pub fn sort(bytes: &[u8], spans: &mut [u32])
    requires { AllInside bytes.now spans.old }
    ensures { spans.new ≡ sort (span_before bytes.now) spans.old }
{
    for i in (0..spans.len()).rev() {
        let k = place_of(bytes, &spans[i..]);
        spans[i..i + k + 1].rotate_left(1);
    }
}

// ---- the parts of rows

// The path of slot row i, in the names.
pub fn file_span(rows: &Rows, i: usize) -> u32
    requires { Lie rows.now × (i < rows.now.n) × (rows.now.n ≤ 256) }
    ensures { result ≡ file_span (held rows.now) i }
{
    span(i * MAX_PATH, rows.path(i).len())
}

// The spelling of directory row j, in the directory rows.
pub fn dir_span(dirs: &[u8], m: usize, j: usize) -> u32
    requires { (m * dir_width ≤ length dirs.now) × (j < m) × (m ≤ 256) }
    ensures { result ≡ dir_span (dirs_of dirs.now m) j }
{
    span(j * DIR_WIDTH + 2, dir_rows::dir_path(dirs, j).len())
}

// The slot whose path is the part x.
pub fn slot_of(x: u32) -> usize
    ensures { result ≡ slot_of x }
{
    (x / 512) as usize / MAX_PATH
}

// Writes the parts of the rows below n that pass to the front of spans, by row, and says how many they are.
pub fn picked<P: Fn(usize) -> bool, S: Fn(usize) -> u32>(
    n: usize,
    spans: &mut [u32],
    passes: P,
    span: S,
) -> usize
    requires room { n ≤ length spans.old }
    requires asked { (i : ℕ) → i < n → P.pre passes i × S.pre span i }
    ensures { (p : ℕ → Bool) (f : ℕ → ℕ) → Answers P.post passes n p → Answers S.post span n f
        → (result ≡ length (map f (keep p (range 0 n)))) × (spans.new ≡ sets spans.old 0 (map f (keep p (range 0 n)))) }
{
    let mut count = 0;
    for i in 0..n {
        if passes(i) {
            spans[count] = span(i);
            count += 1;
        }
    }
    count
}

// Writes the paths of all files, by slot, to the front of spans, and says how many they are.
pub fn all_files(rows: &Rows, spans: &mut [u32]) -> usize
    requires { Lie rows.now × (rows.now.n ≤ 256) × (rows.now.n ≤ length spans.old) }
    ensures { (result ≡ length (file_spans (held rows.now))) × (spans.new ≡ sets spans.old 0 (file_spans (held rows.now))) }
{
    picked(rows.n, spans, |i| rows.is_bound(i), |i| file_span(rows, i))
}

// Writes the spellings of all directories, by row, to the front of spans: there are m.
pub fn all_dirs(dirs: &[u8], m: usize, spans: &mut [u32])
    requires { (m * dir_width ≤ length dirs.now) × (m ≤ 256) × (m ≤ length spans.old) }
    ensures { spans.new ≡ sets spans.old 0 (dir_spans (dirs_of dirs.now m)) }
{
    for (j, x) in spans[..m].iter_mut().enumerate() {
        *x = dir_span(dirs, m, j);
    }
}
