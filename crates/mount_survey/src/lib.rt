// The look at the headers before a mount or an adoption does anything: the first half of `install` in pool.rs. `stage` reads the headers
// of new slots and writes each claim into its slot's row; `find_losers` says which claims lose, equal paths being held once. What it all
// comes to is `scan` of specs/Survey.antt. A read that fails ends the staging and leaves the rows as they were; nothing else is refused.
#![tactic(auto)]

ghost use Rattle.std.specs.Prelude.{◌≡◌, true, false, cond, ◌&&◌, [], ◌∷◌, ◌++◌, map, ◌+◌, ◌-◌, ◌*◌, ◌≤◌, ◌<◌};
ghost use Rattle.std.specs.Prelude.{max, length, get_or, take, replicate, eqb, ltb};
ghost use Rattle.lists.specs.Blocks.{pad};
ghost use Rattle.device.specs.Device.{turn, given, Shape};
ghost use Rattle.path.specs.Path.{key_of};
ghost use Rattle.slot_rows.specs.Rows.{at, holds, find, rows_of, Flat, flat_nums, flat_names};
ghost use Rattle.slot_rows.specs.Held.{held, Lie};
ghost use Rattle.mount_survey.specs.Heads.{dev_before, head_of, looked, reads_m};
ghost use Rattle.mount_survey.specs.Claims.{row_of, asks_for, asks, asked_of, losers_of, left, live, loser_of};

use device::{Geometry, Place};
use header::Header;
use limits::{LAST_COUNTER, MAX_PATH, ROW_WIDTH};
use slot_rows::Rows;

// The place after the reads, whether one failed, and what the valid headers ask of the counter, which is told on a failure too: so it is no
// Option.
#[derive(Clone, Copy)]
pub struct Staged {
    pub place: Place,
    pub failed: bool,
    pub asked: u64,
}

// The slots that lose, in the order found: an array and a count, since there is no heap.
#[derive(Clone, Copy)]
pub struct Losers {
    pub list: [u8; 64],
    pub count: usize,
}

// ---- headers into rows

// Reads the headers of the k slots from n on, and writes the claims into their rows. A read that fails ends it, and leaves no row behind.
pub fn stage(
    bytes: &[u8],
    phys: &[u64],
    geometry: Geometry,
    plan: &[u8],
    place: Place,
    nums: &mut [u64],
    names: &mut [u8],
    cap: usize,
    n: usize,
    k: usize,
) -> Staged
    requires shape { Shape geometry bytes.now phys.now × Flat cap n nums.old names.old }
    requires k_bound { (n + k ≤ cap) × (n + k ≤ length phys.now) }
    ensures place { result.place ≡ (reads_m plan.now geometry n k (dev_before bytes.now phys.now place)).place }
    ensures failed { result.failed ≡ (reads_m plan.now geometry n k (dev_before bytes.now phys.now place)).failed }
    ensures asked { result.asked ≡ asked_of (reads_m plan.now geometry n k (dev_before bytes.now phys.now place)).heads }
    ensures rows { result.failed ≡ false
        → rows_of nums.new names.new (n + k)
        ≡ rows_of nums.old names.old n
        ++ map row_of (reads_m plan.now geometry n k (dev_before bytes.now phys.now place)).heads }
    ensures flat { result.failed ≡ false → Flat cap (n + k) nums.new names.new }
    ensures kept { result.failed ≡ true → (nums.new ≡ nums.old) × (names.new ≡ names.old) }
{
    let end = n + k;
    let mut at = place;
    let mut asked = 0;
    for i in n..end {
        let s = stage_slot(bytes, phys, geometry, plan, at, nums, names, cap, i, asked);
        if s.failed {
            unstage(nums, names, cap, n, i);
            return s;
        }
        at = s.place;
        asked = s.asked;
    }
    Staged {
        place: at,
        failed: false,
        asked,
    }
}

// One slot of it: takes the decoded header out of its answer and writes the claim into row i, or goes on to the next slot as free.
fn stage_slot(
    bytes: &[u8],
    phys: &[u64],
    geometry: Geometry,
    plan: &[u8],
    place: Place,
    nums: &mut [u64],
    names: &mut [u8],
    cap: usize,
    i: usize,
    asked: u64,
) -> Staged
    requires shape { Shape geometry bytes.now phys.now × Flat cap i nums.old names.old }
    requires i_lt_cap { (i < cap) × (i < length phys.now) }
    ensures place { result.place ≡ (looked plan.now (dev_before bytes.now phys.now place)).place }
    ensures failed { result.failed ≡ eqb (turn plan.now place) 1 }
    ensures asked { result.asked
        ≡ cond result.failed asked
        (max asked (asks (head_of (given plan.now geometry i 0 512 (dev_before bytes.now phys.now place))))) }
    ensures rows { result.failed ≡ false
        → rows_of nums.new names.new (i + 1)
        ≡ rows_of nums.old names.old i
        ++ row_of (head_of (given plan.now geometry i 0 512 (dev_before bytes.now phys.now place))) ∷ [] }
    ensures flat { result.failed ≡ false → Flat cap (i + 1) nums.new names.new }
    ensures kept { result.failed ≡ true → (nums.new ≡ nums.old) × (names.new ≡ names.old) }
{
    let mut block = header::zeros();
    let got = device::header_read(bytes, phys, geometry, plan, place, i, &mut block);
    let at = got.place;
    let last = at.last;
    if last == 10 {
        return Staged {
            place: at,
            failed: true,
            asked,
        };
    }
    let Some(h) = Header::decode(block, got.count) else {
        return Staged {
            place: at,
            failed: false,
            asked,
        };
    };
    let more = raised(asked, h.generation);
    let path_len = h.path_len;
    if is_claim(h.in_use, path_len) {
        let end = Header::FIXED + path_len;
        slot_rows::bind_row(
            nums,
            names,
            cap,
            i + 1,
            i,
            &block[Header::FIXED..end],
            h.generation,
            h.len,
            false,
        );
        return Staged {
            place: at,
            failed: false,
            asked: more,
        };
    }
    Staged {
        place: at,
        failed: false,
        asked: more,
    }
}

// Whether a header claims its path.
fn is_claim(in_use: bool, path_len: usize) -> bool
    ensures { result ≡ (in_use && ltb 0 path_len) }
{
    in_use && path_len > 0
}

// What is asked of the counter with one more generation. It stops at one past the last, where `max` would not.
fn raised(asked: u64, generation: u64) -> u64
    ensures { result ≡ max asked (asks_for generation) }
{
    if asked > LAST_COUNTER {
        return asked;
    }
    if generation >= LAST_COUNTER {
        return LAST_COUNTER + 1;
    }
    if generation < asked {
        return asked;
    }
    generation + 1
}

// The slot rows from n to m - 1 are zero again.
#[tactic(auto, using(slot_rows::proofs::InBuffers::nums_long, slot_rows::proofs::InBuffers::names_long))]
pub fn unstage(nums: &mut [u64], names: &mut [u8], cap: usize, n: usize, m: usize)
    requires { Flat cap m nums.old names.old × (n ≤ m) }
    ensures nums { nums.new ≡ flat_nums cap (take n (rows_of nums.old names.old m)) }
    ensures names { names.new ≡ flat_names cap (take n (rows_of nums.old names.old m)) }
{
    nums[n * ROW_WIDTH..m * ROW_WIDTH].fill(0);
    names[n * MAX_PATH..m * MAX_PATH].fill(0);
}

// ---- losers

// Says who loses where the rows from n to m are taken as claims, one after the other, on top of the rows below n.
pub fn find_losers(nums: &[u64], names: &[u8], cap: usize, n: usize, m: usize) -> Losers
    requires { Flat cap m nums.now names.now × (n ≤ m) × (cap ≤ 64) }
    ensures list { result.list ≡ pad 64 (losers_of n (rows_of nums.now names.now m)) }
    ensures count { result.count ≡ length (losers_of n (rows_of nums.now names.now m)) }
    ensures few { result.count ≤ m - n }
{
    let mut lost = [0u8; 64];
    let mut list = [0u8; 64];
    let mut count = 0;
    let rows = Rows {
        nums,
        names,
        cap,
        n: m,
    };
    for i in n..m {
        let l = loser(&rows, &lost, i);
        if l < m {
            lost[l] = 1;
            list[count] = l as u8;
            count += 1;
        }
    }
    Losers { list, count }
}

// The slot that loses where row i comes behind the rows before it, of which some have lost: i, the holder of its path, or the count of the
// rows for none.
fn loser(rows: &Rows, lost: &[u8], i: usize) -> usize
    requires { Lie rows.now × (i < rows.now.n) × (rows.now.n ≤ length lost.now) }
    ensures { result ≡ loser_of rows.now.n (live lost.now (take i (held rows.now))) (at (held rows.now) i) }
{
    if !rows.is_bound(i) {
        return rows.n;
    }
    let j = holder(rows, lost, i, rows.path(i));
    if i <= j {
        return rows.n;
    }
    if rows.row_generation(j) >= rows.row_generation(i) {
        return i;
    }
    j
}

// The first of the rows before i that holds a path equal to p and has not lost, or i.
fn holder(rows: &Rows, lost: &[u8], i: usize, p: &[u8]) -> usize
    requires { Lie rows.now × (i < rows.now.n) × (rows.now.n ≤ length lost.now) }
    ensures { result ≡ find p.now (live lost.now (take i (held rows.now))) }
{
    let key = path::key(p);
    for j in 0..i {
        if stands(rows, lost, j, p, key) {
            return j;
        }
    }
    i
}

// Whether row j has not lost and holds a path equal to p, whose key is given.
fn stands(rows: &Rows, lost: &[u8], j: usize, p: &[u8], key: u32) -> bool
    requires { Lie rows.now × (j < rows.now.n) × (rows.now.n ≤ length lost.now) × (key ≡ key_of p.now) }
    ensures { result ≡ holds p.now (left (get_or lost.now j 0) (at (held rows.now) j)) }
{
    lost[j] == 0 && rows.row_is(j, p, key)
}
