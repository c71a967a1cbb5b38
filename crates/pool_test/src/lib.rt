// Whether a record and its rows are a pool: what refusal 1 of every public call asks (01, "Numbers that come back"). The Rust has no such
// test: its tables are its own. Nothing is refused here and nothing is taken for granted: any record and any buffers may come.
// Every lent byte is read, so no loop over bytes has an early exit, and paths are compared only where their keys agree.
#![tactic(auto)]

ghost use Rattle.std.specs.Prelude.{◌≡◌, ◌+◌, ◌*◌, ◌≤◌, ◌<◌, length, get_or};
ghost use Rattle.limits.specs.Limits.{max_path, row_width, dir_width};
ghost use Rattle.lists.specs.Runs.{all_of};
ghost use Rattle.text.specs.Greatest.{greatest};
ghost use Rattle.path.specs.Path.{text_key, key_of};
ghost use Rattle.slot_rows.specs.Rows.{at, path_of, Flat};
ghost use Rattle.slot_rows.specs.Held.{held, Lie};
ghost use Rattle.dir_rows.specs.Rows.{dir_at};
ghost use Rattle.pool_state.specs.State.{bufs};
ghost use Rattle.pool_test.specs.Test.{sizes_ok, rest_ok, bare_ok, row_fits, dir_fits, first_ok, row_ok, cell_ok, dir_ok};
ghost use Rattle.pool_test.specs.Test.{fits_ok, view_ok, is_pool};
ghost use Rattle.pool_test.specs.Keys.{Sized, Keys, is_dir, has_dir, Tail, Upright, Fine, Judged};

use dir_rows::dir_path;
use limits::{DIR_WIDTH, LAST_COUNTER, MAX_PATH, ROW_WIDTH};
use pool_state::Pool;
use slot_rows::Rows;

// ---- sizes and zeros

// Whether the record's counts are those of a pool with buffers of these lengths.
#[tactic(auto, unfolding(crate::specs::Test::sizes_ok))]
fn sizes_ok(pool: Pool, nums: usize, names: usize, dirs: usize) -> bool
    ensures { result ≡ sizes_ok pool nums names dirs }
{
    let rows = pool.chosen.rows;
    let dir_rows = pool.chosen.dir_rows;
    rows <= 64
        && dir_rows <= 256
        && pool.held <= rows
        && pool.dirs <= dir_rows
        && pool.free <= 64
        && 1 <= pool.counter
        && pool.counter <= LAST_COUNTER
        && nums == rows * ROW_WIDTH
        && names == rows * MAX_PATH
        && dirs == dir_rows * DIR_WIDTH
}

// The greatest of some numbers, 0 where there is none. `text::greatest` is the same of bytes: one function for both would change that one,
// which is public.
#[tactic(auto, using(text::proofs::Turns::greatest_turn, text::proofs::Turns::greatest_end))]
fn top(s: &[u64]) -> u64
    ensures { result ≡ greatest s.now }
{
    let mut t: u64 = 0;
    for x in s {
        t = t.max(*x);
    }
    t
}

// Whether all is zero behind the rows held and behind the queue.
#[tactic(auto, unfolding(crate::specs::Test::rest_ok, crate::specs::Test::is_zero))]
fn rest_ok(nums: &[u64], names: &[u8], dirs: &[u8], pool: Pool) -> bool
    requires { Sized pool (length nums.now) (length names.now) (length dirs.now) }
    ensures { result ≡ rest_ok (bufs pool nums.now names.now dirs.now) }
{
    top(&nums[pool.held * ROW_WIDTH..]) == 0
        && text::greatest(&names[pool.held * MAX_PATH..]) == 0
        && text::greatest(&dirs[pool.dirs * DIR_WIDTH..]) == 0
        && text::greatest(&pool.queue[pool.free..]) == 0
}

// ---- rows that are the form of something

// Whether slot row i is the form of a slot.
#[tactic(auto, unfolding(crate::specs::Test::row_fits, crate::specs::Test::is_zero))]
fn row_fits(nums: &[u64], names: &[u8], i: usize) -> bool
    requires { (i * row_width + row_width ≤ length nums.now) × (i * max_path + max_path ≤ length names.now) }
    ensures { result ≡ row_fits nums.now names.now i }
{
    let m = nums[i * ROW_WIDTH];
    let k = nums[i * ROW_WIDTH + 1];
    let n = nums[i * ROW_WIDTH + 2];
    let from = i * MAX_PATH;
    m <= 2
        && k <= MAX_PATH as u64
        && bare_ok(m, k, n)
        && text::greatest(&names[from + k as usize..from + MAX_PATH]) == 0
}

// Whether a row of mark m has a path and a length only if it is bound.
#[tactic(auto, unfolding(crate::specs::Test::bare_ok))]
fn bare_ok(m: u64, k: u64, n: u64) -> bool
    ensures { result ≡ bare_ok m k n }
{
    m != 0 || (k == 0 && n == 0)
}

// Whether directory row j is the form of a directory.
#[tactic(auto, using(crate::proofs::Filters::dir_told), unfolding(crate::specs::Test::is_zero))]
fn dir_fits(dirs: &[u8], j: usize) -> bool
    requires { j * dir_width + dir_width ≤ length dirs.now }
    ensures { result ≡ dir_fits dirs.now j }
{
    let at = j * DIR_WIDTH;
    let k = le::get_at(dirs, at, 2);
    k <= MAX_PATH as u64 && text::greatest(&dirs[at + 2 + k as usize..at + DIR_WIDTH]) == 0
}

// Whether each of the first n slot rows is.
fn slots_fit(nums: &[u64], names: &[u8], n: usize) -> bool
    requires { (n * row_width ≤ length nums.now) × (n * max_path ≤ length names.now) }
    ensures { result ≡ all_of (row_fits nums.now names.now) 0 n }
{
    (0..n).all(|i| row_fits(nums, names, i))
}

// Whether each of the first m directory rows is.
fn dirs_fit(dirs: &[u8], m: usize) -> bool
    requires { m * dir_width ≤ length dirs.now }
    ensures { result ≡ all_of (dir_fits dirs.now) 0 m }
{
    (0..m).all(|j| dir_fits(dirs, j))
}

// Whether the rows held are the forms of slots and of directories.
#[tactic(auto, unfolding(crate::specs::Test::fits_ok))]
fn fits_ok(nums: &[u64], names: &[u8], dirs: &[u8], pool: Pool) -> bool
    requires { Sized pool (length nums.now) (length names.now) (length dirs.now) }
    ensures { result ≡ fits_ok (bufs pool nums.now names.now dirs.now) }
{
    slots_fit(nums, names, pool.held) && dirs_fit(dirs, pool.dirs)
}

// ---- slot rows

// The keys of the rows' paths.
fn row_keys(rows: &Rows, keys: &mut [u32])
    requires { Lie rows.now × (rows.now.n ≤ length keys.old) }
    ensures { Keys key_of (λ i. path_of (at (held rows.now) i)) rows.now.n keys.new }
{
    for i in 0..rows.n {
        keys[i] = path::key(rows.path(i));
    }
}

// Whether row i is unbound, or no row before it has its path. Only where a key before it is the same are paths compared.
#[tactic(auto, using(crate::proofs::Filters::first_alone), unfolding(crate::specs::Test::first_ok))]
fn first_ok(rows: &Rows, keys: &[u32], i: usize) -> bool
    requires { Lie rows.now
        × Keys key_of (λ j. path_of (at (held rows.now) j)) rows.now.n keys.now
        × (i < rows.now.n) }
    ensures { result ≡ first_ok (held rows.now) i }
{
    !rows.is_bound(i) || !keys[..i].contains(&keys[i]) || rows.find_row(rows.path(i)) == i
}

// Whether row i is below the counter c, and its path is text and its own.
#[tactic(auto, unfolding(crate::specs::Test::row_ok))]
fn row_ok(rows: &Rows, keys: &[u32], c: u64, i: usize) -> bool
    requires { Lie rows.now
        × Keys key_of (λ j. path_of (at (held rows.now) j)) rows.now.n keys.now
        × (i < rows.now.n) }
    ensures { result ≡ row_ok c (held rows.now) i }
{
    rows.row_generation(i) < c && text::is_text(rows.path(i)) && first_ok(rows, keys, i)
}

// Whether each row is. The keys are worked out once.
fn slots_ok(rows: &Rows, c: u64) -> bool
    requires { Lie rows.now × (rows.now.n ≤ 64) }
    ensures { result ≡ all_of (row_ok c (held rows.now)) 0 rows.now.n }
{
    let mut keys = [0u32; 64];
    row_keys(rows, &mut keys);
    (0..rows.n).all(|i| row_ok(rows, &keys, c, i))
}

// ---- the queue

// Whether cell k is an unbound slot that no cell before it is.
#[tactic(auto, using(slot_rows::proofs::InBuffers::length_rows, crate::proofs::Turns::num_told), unfolding(crate::specs::Test::cell_ok))]
fn cell_ok(rows: &Rows, q: &[u8], k: usize) -> bool
    requires { Lie rows.now × (k < length q.now) }
    ensures { result ≡ cell_ok (held rows.now) q.now k }
{
    let i = usize::from(q[k]);
    i < rows.n && !rows.is_bound(i) && !q[..k].contains(&q[k])
}

// Whether each of the first m cells is.
fn queue_ok(rows: &Rows, q: &[u8], m: usize) -> bool
    requires { Lie rows.now × (m ≤ length q.now) }
    ensures { result ≡ all_of (cell_ok (held rows.now) q.now) 0 m }
{
    (0..m).all(|k| cell_ok(rows, q, k))
}

// ---- directories

// A directory is normal if its parent's row is and no slash from there on is idle, so only the last component is looked at. Rows that are
// normal are one path only if they are the same bytes, so keys and comparisons go by bytes.

// The keys of the directories. Beside `row_keys`, since what is read and its key differ: one function with closures is no shorter.
fn dir_keys(dirs: &[u8], m: usize, keys: &mut [u32])
    requires { (m * dir_width ≤ length dirs.now) × (m ≤ length keys.old) }
    ensures { Keys text_key (dir_at dirs.now) m keys.new }
{
    for j in 0..m {
        keys[j] = path::text_key(dir_path(dirs, j));
    }
}

// Whether directory j is p, whose key is f, byte for byte.
#[tactic(auto, using(crate::proofs::Turns::same_told, crate::proofs::Filters::text_other), unfolding(crate::specs::Keys::is_dir))]
fn dir_is(dirs: &[u8], keys: &[u32], j: usize, f: u32, p: &[u8]) -> bool
    requires { (j * dir_width + dir_width ≤ length dirs.now)
        × (j < length keys.now)
        × (get_or keys.now j 0 ≡ text_key (dir_at dirs.now j))
        × (f ≡ text_key p.now) }
    ensures { result ≡ is_dir dirs.now p.now j }
{
    keys[j] == f && dir_path(dirs, j) == p
}

// Whether p, whose key is f, is one of the first m directories, byte for byte.
fn has_dir(dirs: &[u8], keys: &[u32], m: usize, f: u32, p: &[u8]) -> bool
    requires { (m * dir_width ≤ length dirs.now) × Keys text_key (dir_at dirs.now) m keys.now × (f ≡ text_key p.now) }
    ensures { result ≡ has_dir dirs.now m p.now }
{
    (0..m).any(|j| dir_is(dirs, keys, j, f, p))
}

// The same, with a look at the rows beside row j first: there a directory's parent stands most often.
#[tactic(auto, using(crate::proofs::Filters::dir_hit))]
fn has_near(dirs: &[u8], keys: &[u32], m: usize, j: usize, p: &[u8]) -> bool
    requires { (m * dir_width ≤ length dirs.now) × Keys text_key (dir_at dirs.now) m keys.now × (j < m) }
    ensures { result ≡ has_dir dirs.now m p.now }
{
    let f = path::text_key(p);
    (0 < j && dir_is(dirs, keys, j - 1, f, p))
        || (j + 1 < m && dir_is(dirs, keys, j + 1, f, p))
        || has_dir(dirs, keys, m, f, p)
}

// Whether a directory before j, whose path is p, is the same bytes.
#[tactic(auto, using(crate::proofs::Filters::none_before))]
fn seen_before(dirs: &[u8], keys: &[u32], m: usize, j: usize, p: &[u8]) -> bool
    requires { (m * dir_width ≤ length dirs.now)
        × Keys text_key (dir_at dirs.now) m keys.now
        × (j < m)
        × (p.now ≡ dir_at dirs.now j) }
    ensures { result ≡ has_dir dirs.now j p.now }
{
    keys[..j].contains(&keys[j]) && has_dir(dirs, keys, j, keys[j], p)
}

// From where on x has to be looked at, if its front that ends at e is known to be normal: from the slash at e on, or else from 0 on.
fn tail_at(x: &[u8], e: usize) -> usize
    requires { e ≤ length x.now }
    ensures { Tail x.now e result }
{
    if 2 <= e && e + 2 <= x.len() && x[e] == b'/' {
        return e;
    }
    0
}

// Whether x, which is directory j, is normal if the directories are, and its nearest ancestor, if it has one, is a directory.
#[tactic(auto, using(crate::proofs::Upright::up_cut, crate::proofs::Upright::up_one))]
fn up_held(dirs: &[u8], keys: &[u32], m: usize, j: usize, x: &[u8]) -> bool
    requires { (m * dir_width ≤ length dirs.now)
        × Keys text_key (dir_at dirs.now) m keys.now
        × (j < m)
        × (x.now ≡ dir_at dirs.now j) }
    ensures { Judged (Upright dirs.now m j) dirs.now m result }
{
    let e = path::above(x);
    let k = tail_at(x, e);
    if !path::is_normal(&x[k..]) {
        return false;
    }
    if e == 0 {
        return true;
    }
    if e == k || e == 1 {
        return has_near(dirs, keys, m, j, &x[..e]);
    }
    dir_rows::dir_find(dirs, m, &x[..e])
}

// Whether directory j is the first of its bytes, and as `up_held` says.
#[tactic(auto, using(crate::proofs::Upright::seen_no, crate::proofs::Upright::seen_none))]
fn dir_ok(dirs: &[u8], keys: &[u32], m: usize, j: usize) -> bool
    requires { (m * dir_width ≤ length dirs.now) × Keys text_key (dir_at dirs.now) m keys.now × (j < m) }
    ensures { Judged (Fine dirs.now m j) dirs.now m result }
{
    let x = dir_path(dirs, j);
    !seen_before(dirs, keys, m, j, x) && up_held(dirs, keys, m, j, x)
}

// Whether each directory is normal, the first of its path, and its nearest ancestor a directory. The keys are worked out once.
fn directories_ok(dirs: &[u8], m: usize) -> bool
    requires { (m * dir_width ≤ length dirs.now) × (m ≤ 256) }
    ensures { result ≡ all_of (dir_ok dirs.now m) 0 m }
{
    let mut keys = [0u32; 256];
    dir_keys(dirs, m, &mut keys);
    (0..m).all(|j| dir_ok(dirs, &keys, m, j))
}

// ---- the whole

// Whether what the buffers hold is as a pool's should be.
#[tactic(auto, unfolding(crate::specs::Test::view_ok))]
fn view_ok(nums: &[u64], names: &[u8], dirs: &[u8], pool: Pool) -> bool
    requires { Sized pool (length nums.now) (length names.now) (length dirs.now)
        × Flat pool.chosen.rows pool.held nums.now names.now }
    ensures { result ≡ view_ok (bufs pool nums.now names.now dirs.now) }
{
    let rows = Rows {
        nums,
        names,
        cap: pool.chosen.rows,
        n: pool.held,
    };
    slots_ok(&rows, pool.counter)
        && queue_ok(&rows, &pool.queue, pool.free)
        && directories_ok(dirs, pool.dirs)
}

// Whether the record and its rows are a pool.
#[tactic(auto, using(crate::proofs::FlatForms::sized, crate::proofs::FlatForms::fit_rows), unfolding(crate::specs::Test::is_pool))]
pub fn pool_ok(nums: &[u64], names: &[u8], dirs: &[u8], pool: Pool) -> bool
    ensures { result ≡ is_pool (bufs pool nums.now names.now dirs.now) }
{
    sizes_ok(pool, nums.len(), names.len(), dirs.len())
        && rest_ok(nums, names, dirs, pool)
        && fits_ok(nums, names, dirs, pool)
        && view_ok(nums, names, dirs, pool)
}
