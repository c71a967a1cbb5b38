// The slot rows of a pool in lent buffers, in place of pool.rs's `Slot` and its map from paths: 4 numbers a row (mark, path length,
// file length, generation) and 480 bytes of path a row, zero filled. Rows are read, made and changed only here, and the row of a path
// is found here. Nothing is refused: a call on a row needs buffers that are the flat form of their first n rows.
#![tactic(auto)]

ghost use Rattle.std.specs.Prelude.{◌≡◌, [], ◌∷◌, true, false, ◌+◌, ◌*◌, ◌≤◌, ◌<◌, length, get_or, set, replicate};
ghost use Rattle.std.proofs.lemmas.List.Edits.{sets};
ghost use Rattle.limits.specs.Limits.{max_path, row_width};
ghost use Rattle.lists.specs.Blocks.{pad};
ghost use Rattle.path.specs.Path.{same_path, key_of};
ghost use Rattle.slot_rows.specs.Rows.{file, at, unbound, bound, is_bound, path_of, gen_of, len_of, is_dirty, resized, cleaned, holds};
ghost use Rattle.slot_rows.specs.Rows.{find, mark_of, row_nums, rows_of, Flat};
ghost use Rattle.slot_rows.specs.Held.{held, Lie};

use limits::{MAX_PATH, ROW_WIDTH};

// ---- leaves: runs of cells

// Writes src into dst from index at on, zero filled to a width.
pub fn put_padded(dst: &mut [u8], at: usize, width: usize, src: &[u8])
    requires { (at + width ≤ length dst.old) × (length src.now ≤ width) }
    ensures { dst.new ≡ sets dst.old at (pad width src.now) }
{
    let n = src.len();
    dst[at..at + n].copy_from_slice(src);
    dst[at + n..at + width].fill(0);
}

// Writes the four numbers of row i.
pub fn put_nums(nums: &mut [u64], i: usize, mark: u64, path_len: u64, len: u64, generation: u64)
    requires { i * row_width + row_width ≤ length nums.old }
    ensures { nums.new ≡ sets nums.old (i * row_width) (mark ∷ path_len ∷ len ∷ generation ∷ []) }
{
    let at = i * ROW_WIDTH;
    nums[at] = mark;
    nums[at + 1] = path_len;
    nums[at + 2] = len;
    nums[at + 3] = generation;
}

// ---- what a row says

// A pool's slot rows, to be read: the buffers that they lie in, how many rows there is room for, and how many are held.
#[derive(Clone, Copy)]
pub struct Rows<'a> {
    pub nums: &'a [u64],
    pub names: &'a [u8],
    pub cap: usize,
    pub n: usize,
}

impl<'a> Rows<'a> {
    // Number k of row i.
    #[tactic(auto, using(crate::proofs::InBuffers::row_fits_lem, crate::proofs::InBuffers::num_at))]
    fn num(&self, i: usize, k: usize) -> u64
        requires { Lie self.now × (i < self.now.n) × (k < 4) }
        ensures { result ≡ get_or (row_nums (at (held self.now) i)) k 0 }
    {
        let o = i * ROW_WIDTH + k;
        self.nums[o]
    }

    // Whether row i is bound.
    #[tactic(auto, using(crate::proofs::Fields::mark_bound))]
    pub fn is_bound(&self, i: usize) -> bool
        requires { Lie self.now × (i < self.now.n) }
        ensures { result ≡ is_bound (at (held self.now) i) }
    {
        self.num(i, 0) != 0
    }

    // Whether row i is dirty.
    #[tactic(auto, using(crate::proofs::Fields::mark_dirty))]
    pub fn is_dirty(&self, i: usize) -> bool
        requires { Lie self.now × (i < self.now.n) }
        ensures { result ≡ is_dirty (at (held self.now) i) }
    {
        self.num(i, 0) == 2
    }

    // Row i's path, where it lies in the names; empty for an unbound row.
    #[tactic(auto, using(crate::proofs::InBuffers::row_fits_lem, crate::proofs::InBuffers::name_part, crate::proofs::Fields::num_path))]
    pub fn path(&self, i: usize) -> &'a [u8]
        requires { Lie self.now × (i < self.now.n) }
        ensures { result.now ≡ path_of (at (held self.now) i) }
    {
        let k = self.num(i, 1) as usize;
        let from = i * MAX_PATH;
        &self.names[from..from + k]
    }

    // The file length of row i.
    #[tactic(auto, using(crate::proofs::Fields::num_len))]
    pub fn row_len(&self, i: usize) -> u64
        requires { Lie self.now × (i < self.now.n) }
        ensures { result ≡ len_of (at (held self.now) i) }
    {
        self.num(i, 2)
    }

    // The generation of row i.
    #[tactic(auto, using(crate::proofs::Fields::num_generation))]
    pub fn row_generation(&self, i: usize) -> u64
        requires { Lie self.now × (i < self.now.n) }
        ensures { result ≡ gen_of (at (held self.now) i) }
    {
        self.num(i, 3)
    }

    // Whether row i is bound to a path equal to p, whose key is given.
    #[tactic(auto, using(crate::proofs::Finding::holds_path, crate::proofs::Finding::holds_unbound))]
    pub fn row_is(&self, i: usize, p: &[u8], key: u32) -> bool
        requires { Lie self.now × (i < self.now.n) × (key ≡ key_of p.now) }
        ensures { result ≡ holds p.now (at (held self.now) i) }
    {
        self.is_bound(i) && spells(self.path(i), p, key)
    }

    // The first row that is bound to a path equal to p, or n: the answer of `find`, which theorems cite.
    pub fn find_row(&self, p: &[u8]) -> usize
        requires { Lie self.now }
        ensures row { result ≡ find p.now (held self.now) }
        ensures few { result ≤ self.now.n }
    {
        let key = path::key(p);
        for i in 0..self.n {
            if self.row_is(i, p, key) {
                return i;
            }
        }
        self.n
    }
}

// Whether q spells the path p, whose key is given: paths with two keys are not walked.
#[tactic(auto, using(path::proofs::Theorems::key_other))]
fn spells(q: &[u8], p: &[u8], key: u32) -> bool
    requires { key ≡ key_of p.now }
    ensures { result ≡ same_path q.now p.now }
{
    path::key(q) == key && path::same_path(q, p)
}

// ---- rows made and changed

// The mark of a bound row.
#[tactic(auto, unfolding(crate::specs::Rows::mark_of))]
fn mark(dirty: bool) -> u64
    ensures { result ≡ mark_of dirty }
{
    if dirty {
        return 2;
    }
    1
}

// Binds row i to the path p.
#[tactic(auto, using(crate::proofs::InBuffers::row_fits_lem))]
pub fn bind_row(
    nums: &mut [u64],
    names: &mut [u8],
    cap: usize,
    n: usize,
    i: usize,
    p: &[u8],
    generation: u64,
    len: u64,
    dirty: bool,
)
    requires { Flat cap n nums.old names.old × (i < n) × (length p.now ≤ max_path) }
    ensures rows { rows_of nums.new names.new n
        ≡ set (rows_of nums.old names.old n) i (bound p.now (file generation len dirty)) }
    ensures flat { Flat cap n nums.new names.new }
{
    put_nums(nums, i, mark(dirty), p.len() as u64, len, generation);
    put_padded(names, i * MAX_PATH, MAX_PATH, p);
}

// Unbinds row i under a generation: all else of the row becomes zero.
#[tactic(auto, using(crate::proofs::InBuffers::row_fits_lem))]
pub fn unbind_row(
    nums: &mut [u64],
    names: &mut [u8],
    cap: usize,
    n: usize,
    i: usize,
    generation: u64,
)
    requires { Flat cap n nums.old names.old × (i < n) }
    ensures rows { rows_of nums.new names.new n
        ≡ set (rows_of nums.old names.old n) i (unbound generation) }
    ensures flat { Flat cap n nums.new names.new }
{
    put_nums(nums, i, 0, 0, 0, generation);
    let at = i * MAX_PATH;
    names[at..at + MAX_PATH].fill(0);
}

// Gives the bound row i a file length and a dirty bit; its path and generation stay.
#[tactic(auto, using(crate::proofs::InBuffers::row_fits_lem))]
pub fn set_row_len(
    nums: &mut [u64],
    names: &[u8],
    cap: usize,
    n: usize,
    i: usize,
    len: u64,
    dirty: bool,
)
    requires { Flat cap n nums.old names.now × (i < n) × (is_bound (at (rows_of nums.old names.now n) i) ≡ true) }
    ensures rows { rows_of nums.new names.now n
        ≡ set (rows_of nums.old names.now n) i
        (resized len dirty (at (rows_of nums.old names.now n) i)) }
    ensures flat { Flat cap n nums.new names.now }
{
    let at = i * ROW_WIDTH;
    nums[at] = mark(dirty);
    nums[at + 2] = len;
}

// Makes the bound row i clean.
#[tactic(auto, unfolding(crate::specs::Rows::cleaned))]
pub fn clean_row(nums: &mut [u64], names: &[u8], cap: usize, n: usize, i: usize)
    requires { Flat cap n nums.old names.now × (i < n) × (is_bound (at (rows_of nums.old names.now n) i) ≡ true) }
    ensures rows { rows_of nums.new names.now n
        ≡ set (rows_of nums.old names.now n) i (cleaned (at (rows_of nums.old names.now n) i)) }
    ensures flat { Flat cap n nums.new names.now }
{
    let len = Rows {
        nums,
        names,
        cap,
        n,
    }
    .row_len(i);
    set_row_len(nums, names, cap, n, i, len, false);
}

// Writes zeros over all rows that are lent, however many there are: buffers that hold no row.
pub fn clear_rows(nums: &mut [u64], names: &mut [u8])
    ensures nums { nums.new ≡ replicate (length nums.old) 0 }
    ensures names { names.new ≡ replicate (length names.old) 0 }
{
    nums.fill(0);
    names.fill(0);
}
