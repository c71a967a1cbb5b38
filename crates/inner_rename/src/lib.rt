// `rename` of pool.rs, in three steps: what comes before the device (4 for a `to` too long, equal paths, 5 not found, 8 directory rows, 9
// generations), the file's new header, and the release of the slot that held `to`. The new header is flushed before that slot is let
// go, so a cut between the two leaves two claims of which the higher generation wins. The caller has seen that the buffers are a
// pool on its device, and that both paths are text.
#![tactic(auto)]

ghost use Rattle.std.specs.Prelude.{◌≡◌, true, cond, ◌^◌, ◌≤◌, ◌<◌, ltb, length};
ghost use Rattle.limits.specs.Limits.{max_path, last_counter};
ghost use Rattle.lists.specs.Distinct.{In};
ghost use Rattle.device.specs.Device.{dev};
ghost use Rattle.dir_rows.specs.Dirs.{registered};
ghost use Rattle.dir_rows.specs.Rows.{dirs_of};
ghost use Rattle.slot_rows.specs.Rows.{at, is_bound, rows_of};
ghost use Rattle.pool_state.specs.State.{bufs, bufs_before, view, queue_of, IsPool};
ghost use Rattle.pool_steps.specs.World.{lent, view_w, flat_w, Ready, before, after};
ghost use Rattle.pool_steps.specs.Outcome.{outcome, flat_o};
ghost use Rattle.inner_rename.specs.Rename.{stopped, front_m, rebind_m, vacated_m, settled_m, rename_m};

use device::{Geometry, Place};
use header::Header;
use limits::MAX_PATH;
use pool_state::Pool;
use pool_steps::{Done, Stepped};
use slot_rows::Rows;

// The number of a rename that ends before the device, or that it goes on, with the slot of `from` and that of `to`, which is the count of
// slots where no file has that path.
#[derive(Clone, Copy)]
pub struct Course {
    pub out: u8,
    pub go: bool,
    pub from: usize,
    pub to: usize,
}

fn stop(out: u8) -> Course
    ensures { result ≡ stopped out }
{
    Course {
        out: out,
        go: false,
        from: 0,
        to: 0,
    }
}

// How many generations a rename needs: one more where slot j has to give way.
fn needed(j: usize, n: usize) -> u64
    ensures { result ≡ cond (ltb j n) 2 1 }
{
    if j < n { 2 } else { 1 }
}

// What a rename comes to before the device.
fn front(nums: &[u64], names: &[u8], dirs: &[u8], pool: Pool, from: &[u8], to: &[u8]) -> Course
    requires { IsPool (bufs pool nums.now names.now dirs.now) }
    ensures { result ≡ front_m from.now to.now (view (bufs_before nums.now names.now dirs.now pool)) }
{
    if MAX_PATH < to.len() {
        return stop(4);
    }
    let n = pool.held;
    let rows = Rows {
        nums,
        names,
        cap: pool.chosen.rows,
        n,
    };
    let i = rows.find_row(from);
    if path::same_path(from, to) {
        if i < n {
            return stop(0);
        }
        return stop(5);
    }
    if n <= i {
        return stop(5);
    }
    let j = rows.find_row(to);
    let need = needed(j, n);
    let no = inner_open::room(dirs, pool, to, need);
    if no != 0 {
        return stop(no);
    }
    Course {
        out: 0,
        go: true,
        from: i,
        to: j,
    }
}

// Writes and flushes slot i's header with its new path, under the next generation. Where that fails, the row keeps its binding, and is
// dirty; the generation is spent either way.
fn rebind(
    bytes: &mut [u8],
    phys: &mut [u64],
    geometry: Geometry,
    plan: &[u8],
    place: Place,
    nums: &mut [u64],
    names: &[u8],
    dirs: &[u8],
    pool: Pool,
    i: usize,
    to: &[u8],
) -> Stepped
    requires ready { Ready geometry (lent (dev bytes.old phys.old place) (bufs pool nums.old names.now dirs.now)) }
    requires i_lt_held { (i < pool.held)
        × (is_bound (at (rows_of nums.old names.now pool.held) i) ≡ true)
        × (pool.counter < last_counter)
        × (length to.now ≤ max_path) }
    ensures { after bytes.new phys.new result.place nums.new names.now dirs.now result.pool
        ≡ flat_w (rebind_m plan.now geometry i to.now (view_w (before bytes.old phys.old place nums.old names.now dirs.now pool))) }
{
    let cap = pool.chosen.rows;
    let n = pool.held;
    let generation = pool.counter;
    let rows = Rows {
        nums,
        names,
        cap,
        n,
    };
    let len = rows.row_len(i);
    let header = Header::bound(to.len(), len, generation);
    let put = device_lent::put_header(bytes, phys, geometry, plan, place, i, header, to);
    let spent = pool_state::next_generation(pool);
    let last = put.last;
    if last == 0 {
        return Stepped {
            place: put,
            pool: spent,
        };
    }
    slot_rows::set_row_len(nums, names, cap, n, i, len, true);
    Stepped {
        place: put,
        pool: spent,
    }
}

// Releases slot j, if it is one.
fn vacate(
    bytes: &mut [u8],
    phys: &mut [u64],
    geometry: Geometry,
    plan: &[u8],
    place: Place,
    nums: &mut [u64],
    names: &mut [u8],
    dirs: &[u8],
    pool: Pool,
    j: usize,
) -> Stepped
    requires ready { Ready geometry (lent (dev bytes.old phys.old place) (bufs pool nums.old names.old dirs.now)) }
    requires fact { j < pool.held → (In j (queue_of pool) → ⊥) × (pool.counter < last_counter) }
    ensures { after bytes.new phys.new result.place nums.new names.new dirs.now result.pool
        ≡ flat_w (vacated_m plan.now geometry j (view_w (before bytes.old phys.old place nums.old names.old dirs.now pool))) }
{
    let n = pool.held;
    if n <= j {
        return Stepped {
            place: place,
            pool: pool,
        };
    }
    pool_steps::release(
        bytes, phys, geometry, plan, place, nums, names, dirs, pool, j,
    )
}

// Has slot j give way, and binds slot i to the path that it held. The ancestors of the path are registered unless the release failed.
fn settle(
    bytes: &mut [u8],
    phys: &mut [u64],
    geometry: Geometry,
    plan: &[u8],
    place: Place,
    nums: &mut [u64],
    names: &mut [u8],
    dirs: &mut [u8],
    pool: Pool,
    i: usize,
    j: usize,
    to: &[u8],
    generation: u64,
    len: u64,
) -> Done
    requires ready { Ready geometry (lent (dev bytes.old phys.old place) (bufs pool nums.old names.old dirs.old)) }
    requires fact { j < pool.held → (In j (queue_of pool) → ⊥) × (pool.counter < last_counter) }
    requires i_lt_held { (i < pool.held)
        × (length to.now ≤ max_path)
        × (length (registered (dirs_of dirs.old pool.dirs) to.now) ≤ pool.chosen.dir_rows) }
    ensures { outcome result.out tt (after bytes.new phys.new result.place nums.new names.new dirs.new result.pool)
        ≡ flat_o (settled_m plan.now geometry i j to.now generation len
        (view_w (before bytes.old phys.old place nums.old names.old dirs.old pool))) }
{
    let freed = vacate(
        bytes, phys, geometry, plan, place, nums, names, dirs, pool, j,
    );
    let after = freed.place;
    let kept = freed.pool;
    let cap = kept.chosen.rows;
    let n = kept.held;
    let last = after.last;
    if last != 0 {
        slot_rows::bind_row(nums, names, cap, n, i, to, generation, len, false);
        return Done {
            out: last,
            place: after,
            pool: kept,
        };
    }
    let made = inner_open::bind(nums, names, dirs, kept, i, to, generation, len, false);
    Done {
        out: 0,
        place: after,
        pool: made,
    }
}

// Gives the file of `from` the path `to`.
pub fn rename(
    bytes: &mut [u8],
    phys: &mut [u64],
    geometry: Geometry,
    plan: &[u8],
    place: Place,
    nums: &mut [u64],
    names: &mut [u8],
    dirs: &mut [u8],
    pool: Pool,
    from: &[u8],
    to: &[u8],
) -> Done
    requires { Ready geometry (lent (dev bytes.old phys.old place) (bufs pool nums.old names.old dirs.old)) }
    ensures { outcome result.out tt (after bytes.new phys.new result.place nums.new names.new dirs.new result.pool)
        ≡ flat_o (rename_m plan.now geometry from.now to.now
        (view_w (before bytes.old phys.old place nums.old names.old dirs.old pool))) }
{
    let f = front(nums, names, dirs, pool, from, to);
    let no = f.out;
    let go = f.go;
    if !go {
        return Done {
            out: no,
            place: place,
            pool: pool,
        };
    }
    let i = f.from;
    let j = f.to;
    let generation = pool.counter;
    let rows = Rows {
        nums,
        names,
        cap: pool.chosen.rows,
        n: pool.held,
    };
    let len = rows.row_len(i);
    let moved = rebind(
        bytes, phys, geometry, plan, place, nums, names, dirs, pool, i, to,
    );
    let put = moved.place;
    let spent = moved.pool;
    let last = put.last;
    if last != 0 {
        return Done {
            out: last,
            place: put,
            pool: spent,
        };
    }
    settle(
        bytes, phys, geometry, plan, put, nums, names, dirs, spent, i, j, to, generation, len,
    )
}
