// The slot rows as "a lent run of records, one row a slot": pool.rs's `Slot` but for its path, whose bytes stay beside the run, so that a
// row is read without copying 480 of them. `get` and `set` touch one row; `load` and `store` go over all of them, between the records and
// the flat numbers that crate slot_rows works on. Nothing is refused: an index is within the run, and a buffer has room for four numbers a
// row.
#![tactic(auto)]

ghost use Rattle.std.specs.Prelude.{◌≡◌, true, ◌+◌, ◌*◌, ◌/◌, ◌≤◌, ◌<◌, length, set, take};
ghost use Rattle.limits.specs.Limits.{row_width};
ghost use Rattle.slot_records.specs.Records.{none, slot_at, nums_of, slot_in, loaded, stored, flat_of, cleared};
ghost use Rattle.slot_records.specs.Whole.{whole_rows, spread_of};

use limits::ROW_WIDTH;

// A row: mark (0 unbound, 1 clean, 2 dirty), path length, file length, generation.
#[derive(Clone, Copy)]
pub struct Slot {
    pub mark: u64,
    pub path_len: u64,
    pub len: u64,
    pub generation: u64,
}

// ---- one row

// Row i.
pub fn get(rows: &[Slot], i: usize) -> Slot
    requires { i < length rows.now }
    ensures { result ≡ slot_at rows.now i }
{
    rows[i]
}

// Makes row i this one; every other row stays.
pub fn set(rows: &mut [Slot], i: usize, slot: Slot)
    requires { i < length rows.old }
    ensures { rows.new ≡ set rows.old i slot }
{
    rows[i] = slot;
}

// ---- all rows

// Writes the numbers of the rows over the front of a buffer, one row after the other; what it has behind them stays.
pub fn load(rows: &[Slot], nums: &mut [u64])
    requires { length rows.now * row_width ≤ length nums.old }
    ensures { nums.new ≡ loaded rows.now nums.old }
{
    for i in 0..rows.len() {
        let slot = get(rows, i);
        slot_rows::put_nums(nums, i, slot.mark, slot.path_len, slot.len, slot.generation);
    }
}

// Makes the rows those of the numbers at the front of a buffer.
pub fn store(rows: &mut [Slot], nums: &[u64])
    requires { length rows.old * row_width ≤ length nums.now }
    ensures { rows.new ≡ stored nums.now rows.old }
{
    for i in 0..rows.len() {
        set(rows, i, from_nums(nums, i));
    }
}

// The numbers of at most 64 rows as one array, zero filled: what a call over flat numbers is lent.
pub fn flat(rows: &[Slot]) -> [u64; 256]
    requires { length rows.now ≤ 64 }
    ensures { result ≡ flat_of rows.now }
{
    let mut nums = [0; 256];
    load(rows, &mut nums);
    nums
}

// Makes at most 64 rows those of an array of numbers: what such a call left.
pub fn keep(rows: &mut [Slot], nums: [u64; 256])
    requires { length rows.old ≤ 64 }
    ensures { rows.new ≡ stored nums rows.old }
{
    store(rows, &nums);
}

// Makes the first n rows zero; every other row stays.
pub fn clear(rows: &mut [Slot], n: usize)
    requires { n ≤ length rows.old }
    ensures { rows.new ≡ cleared n rows.old }
{
    rows[..n].fill(no_row());
}

// A row that is zero.
fn no_row() -> Slot
    ensures { result ≡ none }
{
    Slot {
        mark: 0,
        path_len: 0,
        len: 0,
        generation: 0,
    }
}

// ---- numbers that come as records

// Whether numbers are whole rows, at most 66 of them.
#[tactic(auto, unfolding(crate::specs::Whole::whole_rows))]
pub fn whole_rows(nums: &[u64]) -> bool
    ensures { result ≡ whole_rows nums.now }
{
    let n = nums.len();
    if 264 < n {
        return false;
    }
    n % 4 == 0
}

// The records of whole rows of numbers, in front of zero ones.
#[tactic(auto, using(crate::specs::Whole::whole_rows_lem))]
pub fn rows_of(nums: &[u64]) -> [Slot; 66]
    requires { whole_rows nums.now ≡ true }
    ensures { result ≡ spread_of nums.now }
{
    let mut rows = [no_row(); 66];
    let n = nums.len() / ROW_WIDTH;
    store(&mut rows[..n], nums);
    rows
}

// Makes whole rows of numbers those of the records at the front of an array.
#[tactic(auto, using(crate::specs::Whole::whole_rows_lem))]
pub fn put_rows(nums: &mut [u64], rows: [Slot; 66])
    requires { whole_rows nums.old ≡ true }
    ensures { nums.new ≡ nums_of (take (length nums.old / row_width) rows) }
{
    let n = nums.len() / ROW_WIDTH;
    load(&rows[..n], nums);
}

// ---- parts

// The row of the four numbers of row i.
#[tactic(auto, unfolding(crate::specs::Records::slot_in))]
fn from_nums(nums: &[u64], i: usize) -> Slot
    requires { i * row_width + row_width ≤ length nums.now }
    ensures { result ≡ slot_in nums.now i }
{
    let at = i * ROW_WIDTH;
    Slot {
        mark: nums[at],
        path_len: nums[at + 1],
        len: nums[at + 2],
        generation: nums[at + 3],
    }
}
