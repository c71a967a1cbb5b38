// Mount and adopt of pool.rs (`new`, `adopt_slots` over `install`): the headers of new slots are read, the claims take their rows, and the
// losers are released. Refused are 12 (more slots than rows or device), 10 from a header read, 8 and 9; nothing of the pool has changed
// then. That the buffers are a pool on its device, and the shapes, the caller has seen.
#![tactic(auto)]

ghost use Rattle.std.specs.Prelude.{◌≡◌, ◌*◌, ◌≤◌, max, length, take};
ghost use Rattle.limits.specs.Limits.{max_path, row_width, dir_width};
ghost use Rattle.device.specs.Device.{dev, Shape};
ghost use Rattle.pool_state.specs.State.{bufs, pool_of};
ghost use Rattle.pool_steps.specs.World.{lent, view_w, flat_w, Ready, before, after};
ghost use Rattle.pool_steps.specs.Outcome.{only, flat_o};
ghost use Rattle.mount.specs.Mount.{drain, Due, adopt_m, empty_state, mount_m, zero_pool, mounted};

use device::{Geometry, Place};
use pool_state::{Chosen, Pool};
use pool_steps::{Done, Stepped};

// Releases the losers in their order; a release that fails is passed over.
pub fn drain(
    bytes: &mut [u8],
    phys: &mut [u64],
    geometry: Geometry,
    plan: &[u8],
    place: Place,
    nums: &mut [u64],
    names: &mut [u8],
    dirs: &[u8],
    pool: Pool,
    losers: [u8; 64],
    count: usize,
) -> Stepped
    requires ready { Ready geometry (lent (dev bytes.old phys.old place) (bufs pool nums.old names.old dirs.now)) }
    requires count_bound { (count ≤ 64)
        × Due (take count losers)
        (view_w (lent (dev bytes.old phys.old place) (bufs pool nums.old names.old dirs.now))) }
    ensures { after bytes.new phys.new result.place nums.new names.new dirs.now result.pool
        ≡ flat_w
        (drain plan.now geometry (take count losers) (view_w (before bytes.old phys.old place nums.old names.old dirs.now pool))) }
{
    let mut at = place;
    let mut q = pool;
    for loser in &losers[..count] {
        let slot = *loser as usize;
        let s = pool_steps::release(bytes, phys, geometry, plan, at, nums, names, dirs, q, slot);
        at = s.place;
        q = s.pool;
    }
    Stepped { place: at, pool: q }
}

// Takes k more slots of the device into the pool.
pub fn adopt(
    bytes: &mut [u8],
    phys: &mut [u64],
    geometry: Geometry,
    plan: &[u8],
    place: Place,
    nums: &mut [u64],
    names: &mut [u8],
    dirs: &mut [u8],
    pool: Pool,
    k: usize,
) -> Done
    requires { Ready geometry (lent (dev bytes.old phys.old place) (bufs pool nums.old names.old dirs.old)) }
    ensures { only result.out (after bytes.new phys.new result.place nums.new names.new dirs.new result.pool)
        ≡ flat_o (adopt_m plan.now geometry k (view_w (before bytes.old phys.old place nums.old names.old dirs.old pool))) }
{
    let cap = pool.chosen.rows;
    let n = pool.held;
    if cap - n < k {
        return Done {
            out: 12,
            place: place,
            pool: pool,
        };
    }
    if phys.len() - n < k {
        return Done {
            out: 12,
            place: place,
            pool: pool,
        };
    }
    let staged = mount_survey::stage(bytes, phys, geometry, plan, place, nums, names, cap, n, k);
    let at = staged.place;
    let failed = staged.failed;
    if failed {
        return Done {
            out: 10,
            place: at,
            pool: pool,
        };
    }
    let m = n + k;
    let losers = mount_survey::find_losers(nums, names, cap, n, m);
    let list = losers.list;
    let count = losers.count;
    let asked = staged.asked;
    let counter = pool.counter.max(asked);
    let accepted = mount_install::accept(nums, names, dirs, pool, m, counter, count);
    let out = accepted.out;
    if out != 0 {
        return Done {
            out: out,
            place: at,
            pool: pool,
        };
    }
    let d = accepted.dirs;
    let held = mount_install::install(nums, names, pool, m, d, counter, list, count);
    let drained = drain(
        bytes, phys, geometry, plan, at, nums, names, dirs, held, list, count,
    );
    let end = drained.place;
    let last = drained.pool;
    Done {
        out: 0,
        place: end,
        pool: last,
    }
}

// ---- mount

// The record of a pool of no slots.
fn empty(chosen: Chosen) -> Pool
    ensures { result ≡ pool_of (empty_state chosen) }
{
    Pool {
        chosen: chosen,
        held: 0,
        dirs: 0,
        counter: 1,
        free: 0,
        queue: [0u8; 64],
    }
}

// The record that a refused mount leaves, which is no pool.
pub fn zero() -> Pool
    ensures { result ≡ zero_pool }
{
    Pool {
        chosen: pool_state::choose(0, 0),
        held: 0,
        dirs: 0,
        counter: 0,
        free: 0,
        queue: [0u8; 64],
    }
}

// Mounts the first k slots of the device in rows of the right number: whatever the rows held is gone, and a refusal leaves the record and
// the rows zero.
pub fn mount_rows(
    bytes: &mut [u8],
    phys: &mut [u64],
    geometry: Geometry,
    plan: &[u8],
    place: Place,
    nums: &mut [u64],
    names: &mut [u8],
    dirs: &mut [u8],
    chosen: Chosen,
    k: usize,
) -> Done
    requires shape { Shape geometry bytes.old phys.old × (chosen.rows ≤ 64) × (chosen.dir_rows ≤ 256) }
    requires nums_len { (length nums.old ≡ chosen.rows * row_width)
        × (length names.old ≡ chosen.rows * max_path)
        × (length dirs.old ≡ chosen.dir_rows * dir_width) }
    ensures { only result.out (after bytes.new phys.new result.place nums.new names.new dirs.new result.pool)
        ≡ mounted (mount_m plan.now geometry chosen k (dev bytes.old phys.old place)) }
{
    slot_rows::clear_rows(nums, names);
    dirs.fill(0);
    let pool = empty(chosen);
    let adopted = adopt(
        bytes, phys, geometry, plan, place, nums, names, dirs, pool, k,
    );
    let out = adopted.out;
    if out != 0 {
        let at = adopted.place;
        return Done {
            out: out,
            place: at,
            pool: zero(),
        };
    }
    adopted
}
