// The calls on a handle: `file_len`, `read_at`, `write_at`, `set_len` and `sync` of pool.rs. A handle is a slot and a generation; where it
// is stale, or the slot is out of range, each refuses with 6 and changes nothing. Else the number is that of the device call: 0, 10 where
// it failed, 11 where a write stored too little. The caller has seen that the buffers are a pool on its device.
#![tactic(auto)]

ghost use Rattle.std.specs.Prelude.{◌≡◌};
ghost use Rattle.device.specs.Device.{dev};
ghost use Rattle.slot_rows.specs.Held.{held, Lie};
ghost use Rattle.pool_state.specs.State.{bufs, bufs_before, view, IsPool};
ghost use Rattle.pool_steps.specs.World.{lent, view_w, Ready, before, after};
ghost use Rattle.pool_steps.specs.Outcome.{outcome, flat_o};
ghost use Rattle.inner_handle.specs.Handles.{len_told, is_live, file_len_m, filling, read_at_m, write_at_m, set_len_m, sync_m};

use device::{Geometry, Place};
use pool_state::Pool;
use slot_rows::Rows;

// The number of a call, and the place after it.
#[derive(Clone, Copy)]
pub struct Ended {
    pub out: u8,
    pub place: Place,
}

// The number of a read, how many bytes it gave, and the place after it.
#[derive(Clone, Copy)]
pub struct Filled {
    pub out: u8,
    pub count: usize,
    pub place: Place,
}

// Whether the slot is held and bound, under this generation.
#[tactic(auto, using(slot_rows::proofs::InBuffers::length_rows), unfolding(crate::specs::Handles::is_live))]
pub fn live(rows: &Rows, slot: usize, generation: u64) -> bool
    requires { Lie rows.now }
    ensures { result ≡ is_live slot generation (held rows.now) }
{
    slot < rows.n && rows.is_bound(slot) && rows.row_generation(slot) == generation
}

// The file's length; none where the handle is stale, 6. The directories are lent only to be part of the pool.
pub fn file_len(
    nums: &[u64],
    names: &[u8],
    dirs: &[u8],
    pool: Pool,
    slot: usize,
    generation: u64,
) -> Option<u64>
    requires { IsPool (bufs pool nums.now names.now dirs.now) }
    ensures { len_told result ≡ file_len_m slot generation (view (bufs_before nums.now names.now dirs.now pool)) }
{
    let rows = Rows {
        nums,
        names,
        cap: pool.chosen.rows,
        n: pool.held,
    };
    if live(&rows, slot, generation) {
        return Some(rows.row_len(slot));
    }
    None
}

// Reads from file offset `at` on into the buffer, which stays behind the bytes that were read. At or past the file's length there is
// nothing to read, and no device call is made.
pub fn read_at(
    bytes: &[u8],
    phys: &[u64],
    geometry: Geometry,
    plan: &[u8],
    place: Place,
    nums: &[u64],
    names: &[u8],
    dirs: &[u8],
    pool: Pool,
    slot: usize,
    generation: u64,
    at: u64,
    buf: &mut [u8],
) -> Filled
    requires { Ready geometry (lent (dev bytes.now phys.now place) (bufs pool nums.now names.now dirs.now)) }
    ensures { outcome result.out (filling result.count buf.new) (after bytes.now phys.now result.place nums.now names.now dirs.now pool)
        ≡ flat_o (read_at_m plan.now geometry slot generation at buf.old
        (view_w (before bytes.now phys.now place nums.now names.now dirs.now pool))) }
{
    let cap = pool.chosen.rows;
    let n = pool.held;
    let rows = Rows {
        nums,
        names,
        cap,
        n,
    };
    if !live(&rows, slot, generation) {
        return Filled {
            out: 6,
            count: 0,
            place: place,
        };
    }
    let len = rows.row_len(slot);
    if len <= at {
        return Filled {
            out: 0,
            count: 0,
            place: place,
        };
    }
    let want = buf.len().min((len - at) as usize);
    let got = device::data_read(
        bytes,
        phys,
        geometry,
        plan,
        place,
        slot,
        at,
        &mut buf[..want],
    );
    let after = got.place;
    Filled {
        out: after.last,
        count: got.count,
        place: after,
    }
}

// Writes src from file offset `at` on. The file then reaches at least to the end of it. The Rust looks at the handle again once the bytes
// are stored; a call here has the pool to itself, so that look would find what the first one found (specs/Again.antt), and so in set_len.
pub fn write_at(
    bytes: &mut [u8],
    phys: &mut [u64],
    geometry: Geometry,
    plan: &[u8],
    place: Place,
    nums: &mut [u64],
    names: &[u8],
    dirs: &[u8],
    pool: Pool,
    slot: usize,
    generation: u64,
    at: u64,
    src: &[u8],
) -> Ended
    requires { Ready geometry (lent (dev bytes.old phys.old place) (bufs pool nums.old names.now dirs.now)) }
    ensures { outcome result.out tt (after bytes.new phys.new result.place nums.new names.now dirs.now pool)
        ≡ flat_o (write_at_m plan.now geometry slot generation at src.now
        (view_w (before bytes.old phys.old place nums.old names.now dirs.now pool))) }
{
    let cap = pool.chosen.rows;
    let n = pool.held;
    let rows = Rows {
        nums,
        names,
        cap,
        n,
    };
    if !live(&rows, slot, generation) {
        return Ended {
            out: 6,
            place: place,
        };
    }
    let len = rows.row_len(slot);
    let put = device::data_write(bytes, phys, geometry, plan, place, slot, at, src);
    let last = put.last;
    if last != 0 {
        return Ended {
            out: last,
            place: put,
        };
    }
    let end = at + src.len() as u64;
    slot_rows::set_row_len(nums, names, cap, n, slot, len.max(end), true);
    Ended { out: 0, place: put }
}

// Cuts the file to len bytes, or adds zeros up to them.
pub fn set_len(
    bytes: &mut [u8],
    phys: &mut [u64],
    geometry: Geometry,
    plan: &[u8],
    place: Place,
    nums: &mut [u64],
    names: &[u8],
    dirs: &[u8],
    pool: Pool,
    slot: usize,
    generation: u64,
    len: u64,
) -> Ended
    requires { Ready geometry (lent (dev bytes.old phys.old place) (bufs pool nums.old names.now dirs.now)) }
    ensures { outcome result.out tt (after bytes.new phys.new result.place nums.new names.now dirs.now pool)
        ≡ flat_o (set_len_m plan.now geometry slot generation len
        (view_w (before bytes.old phys.old place nums.old names.now dirs.now pool))) }
{
    let cap = pool.chosen.rows;
    let n = pool.held;
    let rows = Rows {
        nums,
        names,
        cap,
        n,
    };
    if !live(&rows, slot, generation) {
        return Ended {
            out: 6,
            place: place,
        };
    }
    let cut = device::data_truncate(bytes, phys, geometry, plan, place, slot, len);
    let last = cut.last;
    if last != 0 {
        return Ended {
            out: last,
            place: cut,
        };
    }
    slot_rows::set_row_len(nums, names, cap, n, slot, len, true);
    Ended { out: 0, place: cut }
}

// Writes and flushes the header of a dirty file, which makes it clean; of a clean one there is only the flush.
pub fn sync(
    bytes: &mut [u8],
    phys: &mut [u64],
    geometry: Geometry,
    plan: &[u8],
    place: Place,
    nums: &mut [u64],
    names: &[u8],
    dirs: &[u8],
    pool: Pool,
    slot: usize,
    generation: u64,
) -> Ended
    requires { Ready geometry (lent (dev bytes.old phys.old place) (bufs pool nums.old names.now dirs.now)) }
    ensures { outcome result.out tt (after bytes.new phys.new result.place nums.new names.now dirs.now pool)
        ≡ flat_o (sync_m plan.now geometry slot generation (view_w (before bytes.old phys.old place nums.old names.now dirs.now pool))) }
{
    let cap = pool.chosen.rows;
    let n = pool.held;
    let rows = Rows {
        nums,
        names,
        cap,
        n,
    };
    if !live(&rows, slot, generation) {
        return Ended {
            out: 6,
            place: place,
        };
    }
    if rows.is_dirty(slot) {
        let put = pool_steps::sync_row(
            bytes, phys, geometry, plan, place, nums, names, dirs, pool, slot,
        );
        return Ended {
            out: put.last,
            place: put,
        };
    }
    let flushed = device::flush(plan, place);
    Ended {
        out: flushed.last,
        place: flushed,
    }
}
