// The calls by path: `open_read`, `open_write` and `remove_file` of pool.rs. They refuse with 4 (path too long), 5 (not found), 7 (no free
// slot), 8 (directory rows), 9 (generations), and with 10 or 11 where a device call failed or stored too little. The caller has seen
// that the buffers are a pool on its device, and that the path is text.
#![tactic(auto)]

ghost use Rattle.std.specs.Prelude.{◌≡◌, true, ◌^◌, ◌≤◌, ◌<◌, length};
ghost use Rattle.limits.specs.Limits.{max_path, last_counter};
ghost use Rattle.device.specs.Device.{dev};
ghost use Rattle.slot_rows.specs.Rows.{file, at, is_bound, rows_of};
ghost use Rattle.dir_rows.specs.Dirs.{registered};
ghost use Rattle.dir_rows.specs.Rows.{dirs_of, FlatDirs};
ghost use Rattle.pool_state.specs.State.{bufs, bufs_before, bufs_after, view, flat, IsPool};
ghost use Rattle.pool_steps.specs.World.{lent, view_w, Ready, before, after};
ghost use Rattle.pool_steps.specs.Outcome.{outcome, flat_o};
ghost use Rattle.inner_open.specs.Files.{reader_told, room_for, binds, handle, open_read_m, reopen_m, create_m, open_write_m, remove_m};

use device::{Geometry, Place};
use limits::{LAST_COUNTER, MAX_PATH};
use pool_state::Pool;
use pool_steps::Done;
use slot_rows::Rows;

// The handle of a file, for reading.
#[derive(Clone, Copy)]
pub struct Reader {
    pub slot: usize,
    pub generation: u64,
}

// The number of open_write, the handle and the file's length; the place and the record after it.
#[derive(Clone, Copy)]
pub struct Writer {
    pub out: u8,
    pub slot: usize,
    pub generation: u64,
    pub len: u64,
    pub place: Place,
    pub pool: Pool,
}

// The open that was refused with a number, or whose device call came to it.
fn refused(out: u8, place: Place, pool: Pool) -> Writer
    ensures { result ≡ record { out = out; slot = 0; generation = 0; len = 0; place = place; pool = pool } }
{
    Writer {
        out: out,
        slot: 0,
        generation: 0,
        len: 0,
        place: place,
        pool: pool,
    }
}

// 8 where the missing ancestors of the path do not fit the directory rows, 9 where so many generations are not left, else 0.
pub fn room(dirs: &[u8], pool: Pool, path: &[u8], need: u64) -> u8
    requires { FlatDirs pool.chosen.dir_rows pool.dirs dirs.now × (need ≤ 2) }
    ensures { result
        ≡ room_for need path.now pool.chosen.dir_rows
        (dirs_of dirs.now pool.dirs) pool.counter }
{
    let cap = pool.chosen.dir_rows;
    let m = pool.dirs;
    let counter = pool.counter;
    let missing = dir_rows::missing(dirs, m, path);
    if cap - m < missing {
        return 8;
    }
    if LAST_COUNTER - need < counter {
        return 9;
    }
    0
}

// Binds slot i to the path, and registers the path's ancestors.
pub fn bind(
    nums: &mut [u64],
    names: &mut [u8],
    dirs: &mut [u8],
    pool: Pool,
    i: usize,
    path: &[u8],
    generation: u64,
    len: u64,
    dirty: bool,
) -> Pool
    requires pool { IsPool (bufs pool nums.old names.old dirs.old) × (i < pool.held) × (length path.now ≤ max_path) }
    requires path_len_bound { length (registered (dirs_of dirs.old pool.dirs) path.now) ≤ pool.chosen.dir_rows }
    ensures { bufs_after nums.new names.new dirs.new result
        ≡ flat (binds i path.now (file generation len dirty) (view (bufs_before nums.old names.old dirs.old pool))) }
{
    let cap = pool.chosen.rows;
    let n = pool.held;
    let dir_cap = pool.chosen.dir_rows;
    let m = pool.dirs;
    slot_rows::bind_row(nums, names, cap, n, i, path, generation, len, dirty);
    let mut r = pool;
    r.dirs = dir_rows::register_ancestors(dirs, dir_cap, m, path);
    r
}

// The handle of the file of a path, for reading; none where there is no file, 5. The directories are lent only to be part of the pool.
pub fn open_read(nums: &[u64], names: &[u8], dirs: &[u8], pool: Pool, path: &[u8]) -> Option<Reader>
    requires { IsPool (bufs pool nums.now names.now dirs.now) }
    ensures { reader_told result ≡ open_read_m path.now (view (bufs_before nums.now names.now dirs.now pool)) }
{
    let rows = Rows {
        nums,
        names,
        cap: pool.chosen.rows,
        n: pool.held,
    };
    let i = rows.find_row(path);
    if i < rows.n {
        return Some(Reader {
            slot: i,
            generation: rows.row_generation(i),
        });
    }
    None
}

// Opens the file of slot i for writing: as it is, or cut to nothing, which makes it dirty. Its generation stays.
fn reopen(
    bytes: &mut [u8],
    phys: &mut [u64],
    geometry: Geometry,
    plan: &[u8],
    place: Place,
    nums: &mut [u64],
    names: &[u8],
    dirs: &[u8],
    pool: Pool,
    i: usize,
    keep: bool,
) -> Writer
    requires ready { Ready geometry (lent (dev bytes.old phys.old place) (bufs pool nums.old names.now dirs.now)) }
    requires i_lt_held { (i < pool.held) × (is_bound (at (rows_of nums.old names.now pool.held) i) ≡ true) }
    ensures { outcome result.out (handle result.slot result.generation result.len)
        (after bytes.new phys.new result.place nums.new names.now dirs.now result.pool)
        ≡ flat_o (reopen_m plan.now geometry i keep (view_w (before bytes.old phys.old place nums.old names.now dirs.now pool))) }
{
    let cap = pool.chosen.rows;
    let n = pool.held;
    let rows = Rows {
        nums,
        names,
        cap,
        n,
    };
    let generation = rows.row_generation(i);
    if keep {
        return Writer {
            out: 0,
            slot: i,
            generation: generation,
            len: rows.row_len(i),
            place: place,
            pool: pool,
        };
    }
    let cut = device::data_truncate(bytes, phys, geometry, plan, place, i, 0);
    let last = cut.last;
    if last != 0 {
        return refused(last, cut, pool);
    }
    slot_rows::set_row_len(nums, names, cap, n, i, 0, true);
    Writer {
        out: 0,
        slot: i,
        generation: generation,
        len: 0,
        place: cut,
        pool: pool,
    }
}

// Makes a file of the first free slot, under the next generation. Where the slot can't be cut to nothing, it goes to the queue's end and
// the generation stays spent.
fn create(
    bytes: &mut [u8],
    phys: &mut [u64],
    geometry: Geometry,
    plan: &[u8],
    place: Place,
    nums: &mut [u64],
    names: &mut [u8],
    dirs: &mut [u8],
    pool: Pool,
    path: &[u8],
) -> Writer
    requires ready { Ready geometry (lent (dev bytes.old phys.old place) (bufs pool nums.old names.old dirs.old)) }
    requires free_nonzero { (0 < pool.free) × (pool.counter < last_counter) × (length path.now ≤ max_path) }
    requires path_len_bound { length (registered (dirs_of dirs.old pool.dirs) path.now) ≤ pool.chosen.dir_rows }
    ensures { outcome result.out (handle result.slot result.generation result.len)
        (after bytes.new phys.new result.place nums.new names.new dirs.new result.pool)
        ≡ flat_o (create_m plan.now geometry path.now (view_w (before bytes.old phys.old place nums.old names.old dirs.old pool))) }
{
    let generation = pool.counter;
    let popped = pool_state::pop_free(pool);
    let i = popped.slot;
    let spent = pool_state::next_generation(popped.pool);
    let cut = device::data_truncate(bytes, phys, geometry, plan, place, i, 0);
    let last = cut.last;
    if last != 0 {
        return refused(last, cut, pool_state::push_free(spent, i));
    }
    let made = bind(nums, names, dirs, spent, i, path, generation, 0, true);
    Writer {
        out: 0,
        slot: i,
        generation: generation,
        len: 0,
        place: cut,
        pool: made,
    }
}

// Opens the file of a path for writing, or makes one.
pub fn open_write(
    bytes: &mut [u8],
    phys: &mut [u64],
    geometry: Geometry,
    plan: &[u8],
    place: Place,
    nums: &mut [u64],
    names: &mut [u8],
    dirs: &mut [u8],
    pool: Pool,
    path: &[u8],
    keep: bool,
) -> Writer
    requires { Ready geometry (lent (dev bytes.old phys.old place) (bufs pool nums.old names.old dirs.old)) }
    ensures { outcome result.out (handle result.slot result.generation result.len)
        (after bytes.new phys.new result.place nums.new names.new dirs.new result.pool)
        ≡ flat_o (open_write_m plan.now geometry path.now keep
        (view_w (before bytes.old phys.old place nums.old names.old dirs.old pool))) }
{
    if MAX_PATH < path.len() {
        return refused(4, place, pool);
    }
    let n = pool.held;
    let rows = Rows {
        nums,
        names,
        cap: pool.chosen.rows,
        n,
    };
    let i = rows.find_row(path);
    if i < n {
        return reopen(
            bytes, phys, geometry, plan, place, nums, names, dirs, pool, i, keep,
        );
    }
    let free = pool.free;
    if free == 0 {
        return refused(7, place, pool);
    }
    let no = room(dirs, pool, path, 1);
    if no != 0 {
        return refused(no, place, pool);
    }
    create(
        bytes, phys, geometry, plan, place, nums, names, dirs, pool, path,
    )
}

// Removes the file of a path: its slot is released, and unbound even where that fails.
pub fn remove_file(
    bytes: &mut [u8],
    phys: &mut [u64],
    geometry: Geometry,
    plan: &[u8],
    place: Place,
    nums: &mut [u64],
    names: &mut [u8],
    dirs: &[u8],
    pool: Pool,
    path: &[u8],
) -> Done
    requires { Ready geometry (lent (dev bytes.old phys.old place) (bufs pool nums.old names.old dirs.now)) }
    ensures { outcome result.out tt (after bytes.new phys.new result.place nums.new names.new dirs.now result.pool)
        ≡ flat_o (remove_m plan.now geometry path.now (view_w (before bytes.old phys.old place nums.old names.old dirs.now pool))) }
{
    let n = pool.held;
    let rows = Rows {
        nums,
        names,
        cap: pool.chosen.rows,
        n,
    };
    let i = rows.find_row(path);
    if n <= i {
        return Done {
            out: 5,
            place: place,
            pool: pool,
        };
    }
    let counter = pool.counter;
    if LAST_COUNTER <= counter {
        return Done {
            out: 9,
            place: place,
            pool: pool,
        };
    }
    let released = pool_steps::release(
        bytes, phys, geometry, plan, place, nums, names, dirs, pool, i,
    );
    let after = released.place;
    let left = released.pool;
    Done {
        out: after.last,
        place: after,
        pool: left,
    }
}
