// The steps that the pool's calls share: the release of a slot (`release_slot` of pool.rs over `sync_slot` and `truncate_slot` of sah.rs),
// and the sync of one row; both write their header by `device_lent::put_header`. Each stops at the first device call that fails or is cut
// short, and the place returned says which number it came to: 0, 10 or 11. Nothing is refused: the caller has seen that the buffers are a
// pool on its device, that the slot is held, and that a generation is left.
#![tactic(auto)]

ghost use Rattle.std.specs.Prelude.{◌≡◌, true, ◌^◌, ◌≤◌, ◌<◌, length};
ghost use Rattle.limits.specs.Limits.{last_counter};
ghost use Rattle.lists.specs.Distinct.{In};
ghost use Rattle.device.specs.Device.{dev, Shape, dev_before, dev_after};
ghost use Rattle.slot_rows.specs.Rows.{at, is_bound, rows_of};
ghost use Rattle.slot_rows.specs.Held.{held, Lie};
ghost use Rattle.pool_state.specs.State.{bufs, queue_of};
ghost use Rattle.pool_steps.specs.World.{lent, view_w, flat_w, Ready, before, after};
ghost use Rattle.pool_steps.specs.Steps.{free_m, release_m, row_header, sync_row_m};

use device::{Geometry, Place};
use header::Header;
use pool_state::Pool;
use slot_rows::Rows;

// The place after a step, and the pool's record.
#[derive(Clone, Copy)]
pub struct Stepped {
    pub place: Place,
    pub pool: Pool,
}

// The number of a call, and the place and the record after it.
#[derive(Clone, Copy)]
pub struct Done {
    pub out: u8,
    pub place: Place,
    pub pool: Pool,
}

// Writes the slot's free header under a generation, and cuts its file to nothing.
pub fn free_slot(
    bytes: &mut [u8],
    phys: &mut [u64],
    geometry: Geometry,
    plan: &[u8],
    place: Place,
    slot: usize,
    generation: u64,
) -> Place
    requires { Shape geometry bytes.old phys.old × (slot < length phys.old) }
    ensures same { dev_after bytes.new phys.new result
        ≡ free_m plan.now geometry slot generation (dev_before bytes.old phys.old place) }
    ensures kept { Shape geometry bytes.new phys.new }
{
    let free = Header::free(generation);
    let put = device_lent::put_header(bytes, phys, geometry, plan, place, slot, free, &[]);
    let last = put.last;
    if last != 0 {
        return put;
    }
    device::data_truncate(bytes, phys, geometry, plan, put, slot, 0)
}

// Unbinds the slot under a new generation, frees it on the device, and then has it join the queue's end; where a device call fails, the
// slot is neither bound nor free. The directories are lent only to be part of the pool, and stay.
pub fn release(
    bytes: &mut [u8],
    phys: &mut [u64],
    geometry: Geometry,
    plan: &[u8],
    place: Place,
    nums: &mut [u64],
    names: &mut [u8],
    dirs: &[u8],
    pool: Pool,
    slot: usize,
) -> Stepped
    requires ready { Ready geometry (lent (dev bytes.old phys.old place) (bufs pool nums.old names.old dirs.now)) }
    requires slot_lt_held { (slot < pool.held) × (In slot (queue_of pool) → ⊥) × (pool.counter < last_counter) }
    ensures { after bytes.new phys.new result.place nums.new names.new dirs.now result.pool
        ≡ flat_w (release_m plan.now geometry slot (view_w (before bytes.old phys.old place nums.old names.old dirs.now pool))) }
{
    let cap = pool.chosen.rows;
    let n = pool.held;
    let generation = pool.counter;
    slot_rows::unbind_row(nums, names, cap, n, slot, generation);
    let spent = pool_state::next_generation(pool);
    let freed = free_slot(bytes, phys, geometry, plan, place, slot, generation);
    let last = freed.last;
    if last != 0 {
        return Stepped {
            place: freed,
            pool: spent,
        };
    }
    Stepped {
        place: freed,
        pool: pool_state::push_free(spent, slot),
    }
}

// The header of the bound row i.
#[tactic(auto, unfolding(crate::specs::Steps::row_header))]
pub fn row_header(rows: &Rows, i: usize) -> Header
    requires { Lie rows.now × (i < rows.now.n) }
    ensures { result ≡ row_header (at (held rows.now) i) }
{
    Header::bound(rows.path(i).len(), rows.row_len(i), rows.row_generation(i))
}

// Writes and flushes the header of the bound row i, which makes the row clean; where that fails, no row changes.
pub fn sync_row(
    bytes: &mut [u8],
    phys: &mut [u64],
    geometry: Geometry,
    plan: &[u8],
    place: Place,
    nums: &mut [u64],
    names: &[u8],
    dirs: &[u8],
    pool: Pool,
    i: usize,
) -> Place
    requires ready { Ready geometry (lent (dev bytes.old phys.old place) (bufs pool nums.old names.now dirs.now)) }
    requires i_lt_held { (i < pool.held) × (is_bound (at (rows_of nums.old names.now pool.held) i) ≡ true) }
    ensures { after bytes.new phys.new result nums.new names.now dirs.now pool
        ≡ flat_w (sync_row_m plan.now geometry i (view_w (before bytes.old phys.old place nums.old names.now dirs.now pool))) }
{
    let cap = pool.chosen.rows;
    let n = pool.held;
    let rows = Rows {
        nums,
        names,
        cap,
        n,
    };
    let header = row_header(&rows, i);
    let path = rows.path(i);
    let put = device_lent::put_header(bytes, phys, geometry, plan, place, i, header, path);
    let last = put.last;
    if last != 0 {
        return put;
    }
    slot_rows::clean_row(nums, names, cap, n, i);
    put
}
