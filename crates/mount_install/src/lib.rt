// What `install` of pool.rs does to the rows and the record once the headers are read. The new slots' rows are staged behind those held,
// bound where the header claims a path, and the losers are known; here the claims' ancestors are registered, the spare slots are queued,
// the losers are unbound, and the record counts the new slots. Two refusals are found here, 8 (more directories to hold than directory
// rows) and 9 (no generation left for each loser): then rows and directories are put back.
#![tactic(auto)]

ghost use Rattle.std.specs.Prelude.{◌≡◌, cond, ℕ, ◌≤◌, ◌<◌, length, take, drop};
ghost use Rattle.lists.specs.Distinct.{In};
ghost use Rattle.slot_rows.specs.Rows.{at, path_of, rows_of, Flat};
ghost use Rattle.slot_rows.specs.Held.{held, Lie};
ghost use Rattle.dir_rows.specs.Dirs.{registered};
ghost use Rattle.dir_rows.specs.Rows.{dirs_of, flat_dirs, FlatDirs};
ghost use Rattle.pool_state.specs.Queue.{pushed};
ghost use Rattle.mount_survey.specs.Staged.{claimed, spares, vacated};
ghost use Rattle.mount_install.specs.Install.{answered, kept, refusal, Taken, unstaged, pushed_all, holding};
ghost use Rattle.mount_install.specs.Install.{three_before, three_after, rows_before, claimed_before};

use limits::{DIR_WIDTH, LAST_COUNTER};
use pool_state::Pool;
use slot_rows::Rows;

// The refusal that the new slots meet, or 0, and how many directories there are then.
#[derive(Clone, Copy)]
pub struct Accepted {
    pub out: u8,
    pub dirs: usize,
}

// ---- put back

// The directory rows from d to e - 1 are zero again.
#[tactic(auto, using(dir_rows::proofs::InBuffer::dirs_long))]
pub fn clear_dirs(dirs: &mut [u8], cap: usize, d: usize, e: usize)
    requires { FlatDirs cap e dirs.old × (d ≤ e) }
    ensures { dirs.new ≡ flat_dirs cap (take d (dirs_of dirs.old e)) }
{
    dirs[d * DIR_WIDTH..e * DIR_WIDTH].fill(0);
}

// ---- the claims' ancestors

// Registers the ancestors of row i's path, and gives how many directories there are then; none where there is no room for those that are
// missing. An unbound row's path is empty and has no ancestor.
fn register_row(rows: &Rows, dirs: &mut [u8], dir_cap: usize, d: usize, i: usize) -> Option<usize>
    requires { Lie rows.now × FlatDirs dir_cap d dirs.old × (i < rows.now.n) }
    ensures told { result ≡ answered dir_cap (registered (dirs_of dirs.old d) (path_of (at (held rows.now) i))) }
    ensures dirs { dirs.new ≡ kept dir_cap (registered (dirs_of dirs.old d) (path_of (at (held rows.now) i))) dirs.old }
{
    let path = rows.path(i);
    if dir_cap - d < dir_rows::missing(dirs, d, path) {
        return None;
    }
    Some(dir_rows::register_ancestors(dirs, dir_cap, d, path))
}

// Registers the ancestors of the paths of the rows from n on, and gives how many directories there are then; where there is no room for
// all, none is registered.
pub fn register_claims(
    rows: &Rows,
    n: usize,
    dirs: &mut [u8],
    dir_cap: usize,
    d: usize,
) -> Option<usize>
    requires { Lie rows.now × FlatDirs dir_cap d dirs.old × (n ≤ rows.now.n) }
    ensures told { result ≡ answered dir_cap (claimed (drop n (held rows.now)) (dirs_of dirs.old d)) }
    ensures dirs { dirs.new ≡ kept dir_cap (claimed (drop n (held rows.now)) (dirs_of dirs.old d)) dirs.old }
{
    let mut e = d;
    for i in n..rows.n {
        let Some(one) = register_row(rows, dirs, dir_cap, e, i) else {
            clear_dirs(dirs, dir_cap, d, e);
            return None;
        };
        e = one;
    }
    Some(e)
}

// Registers the claims' ancestors, and looks whether the counter leaves a generation for each loser; 8 or 9 puts the rows back as they were
// before the staging, and the directories.
pub fn accept(
    nums: &mut [u64],
    names: &mut [u8],
    dirs: &mut [u8],
    pool: Pool,
    m: usize,
    counter: u64,
    losers: usize,
) -> Accepted
    requires { Flat pool.chosen.rows m nums.old names.old
        × FlatDirs pool.chosen.dir_rows pool.dirs dirs.old
        × (pool.held ≤ m)
        × (losers ≤ 64) }
    ensures out { result.out
        ≡ refusal pool.chosen.dir_rows (claimed_before nums.old names.old dirs.old pool.held m pool.dirs) counter losers }
    ensures taken { result.out ≡ 0
        → Taken pool.chosen.dir_rows (claimed_before nums.old names.old dirs.old pool.held m pool.dirs) result.dirs
        (three_before nums.old names.old dirs.old) (three_after nums.new names.new dirs.new) }
    ensures back { (result.out ≡ 0 → ⊥)
        → three_after nums.new names.new dirs.new ≡ unstaged pool.chosen.rows pool.held m (three_before nums.old names.old dirs.old) }
{
    let cap = pool.chosen.rows;
    let n = pool.held;
    let dir_cap = pool.chosen.dir_rows;
    let d = pool.dirs;
    let rows = Rows {
        nums,
        names,
        cap,
        n: m,
    };
    let Some(e) = register_claims(&rows, n, dirs, dir_cap, d) else {
        mount_survey::unstage(nums, names, cap, n, m);
        return Accepted { out: 8, dirs: 0 };
    };
    if LAST_COUNTER - (losers as u64) < counter {
        clear_dirs(dirs, dir_cap, d, e);
        mount_survey::unstage(nums, names, cap, n, m);
        return Accepted { out: 9, dirs: 0 };
    }
    Accepted { out: 0, dirs: e }
}

// ---- the queue and the losers

// A slot joins the queue's end, unless its row is bound.
fn queue_spare(pool: Pool, slot: usize, bound: bool) -> Pool
    requires { (pool.free < 64) × (slot < 64) }
    ensures { result ≡ cond bound pool (pushed slot pool) }
{
    if bound {
        return pool;
    }
    pool_state::push_free(pool, slot)
}

// The unbound rows from n on join the queue's end, lowest first.
pub fn queue_spares(rows: &Rows, n: usize, pool: Pool) -> Pool
    requires { Lie rows.now × (n ≤ rows.now.n) × (rows.now.n ≤ 64) × (pool.free ≤ n) }
    ensures { result ≡ pushed_all (spares n (drop n (held rows.now))) pool }
{
    let mut q = pool;
    for i in n..rows.n {
        q = queue_spare(q, i, rows.is_bound(i));
    }
    q
}

// The losers' rows become unbound and zero: what a release makes of them comes later.
pub fn unbind_losers(
    nums: &mut [u64],
    names: &mut [u8],
    cap: usize,
    m: usize,
    losers: [u8; 64],
    count: usize,
)
    requires { Flat cap m nums.old names.old × (count ≤ 64) × ((x : ℕ) → In x (take count losers) → x < m) }
    ensures rows { rows_of nums.new names.new m ≡ vacated (take count losers) (rows_before nums.old names.old m) }
    ensures flat { Flat cap m nums.new names.new }
{
    for loser in &losers[..count] {
        slot_rows::unbind_row(nums, names, cap, m, *loser as usize, 0);
    }
}

// The record and the rows with the new slots: spare ones are queued, losers are unbound, and all are held.
pub fn install(
    nums: &mut [u64],
    names: &mut [u8],
    pool: Pool,
    m: usize,
    dirs: usize,
    counter: u64,
    losers: [u8; 64],
    count: usize,
) -> Pool
    requires flat_2 { Flat pool.chosen.rows m nums.old names.old × (pool.held ≤ m) × (m ≤ 64) × (pool.free ≤ pool.held) }
    requires count_bound { (count ≤ 64) × ((x : ℕ) → In x (take count losers) → x < m) }
    ensures pool { result
        ≡ holding m dirs counter
        (pushed_all (spares pool.held (drop pool.held (rows_before nums.old names.old m))) pool) }
    ensures rows { rows_of nums.new names.new m ≡ vacated (take count losers) (rows_before nums.old names.old m) }
    ensures flat { Flat pool.chosen.rows m nums.new names.new }
{
    let cap = pool.chosen.rows;
    let n = pool.held;
    let rows = Rows {
        nums,
        names,
        cap,
        n: m,
    };
    let mut r = queue_spares(&rows, n, pool);
    unbind_losers(nums, names, cap, m, losers, count);
    r.held = m;
    r.dirs = dirs;
    r.counter = counter;
    r
}
