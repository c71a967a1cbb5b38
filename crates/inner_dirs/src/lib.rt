// Directories: `create_dir_all`, `exists`, `metadata` and `sync_dir` of pool.rs. create_dir_all refuses with 4 (normal spelling too long)
// and 8 (directory rows), metadata with 5 (not found); sync_dir comes to 10 or 11 where a device call failed or stored too little. The
// caller has seen that the buffers are a pool, for sync_dir on its device, and that the path is text.
#![tactic(auto)]

ghost use Rattle.std.specs.Prelude.{◌≡◌, ◌<◌};
ghost use Rattle.device.specs.Device.{dev};
ghost use Rattle.slot_rows.specs.Rows.{at};
ghost use Rattle.slot_rows.specs.Held.{held, Lie};
ghost use Rattle.pool_state.specs.State.{bufs, bufs_before, bufs_after, view, IsPool};
ghost use Rattle.pool_steps.specs.World.{lent, view_w, Ready, before, after};
ghost use Rattle.pool_steps.specs.Outcome.{outcome, flat_o};
ghost use Rattle.inner_dirs.specs.Folders.{meta_told, flat_b, create_dir_all_m, exists_m, metadata_m, is_due, sync_one_m, sync_dir_m};

use device::{Geometry, Place};
use inner_handle::Ended;
use limits::MAX_PATH;
use pool_state::Pool;
use slot_rows::Rows;

// The number of create_dir_all, and the record after it.
#[derive(Clone, Copy)]
pub struct Made {
    pub out: u8,
    pub pool: Pool,
}

// A file's length, and whether the path is a directory's.
#[derive(Clone, Copy)]
pub struct Meta {
    pub len: u64,
    pub is_dir: bool,
}

// Makes the path a directory, and its ancestors. The spelling may be of any length. The slot rows are lent only to be part of the pool.
pub fn create_dir_all(nums: &[u64], names: &[u8], dirs: &mut [u8], pool: Pool, path: &[u8]) -> Made
    requires { IsPool (bufs pool nums.now names.now dirs.old) }
    ensures { outcome result.out tt (bufs_after nums.now names.now dirs.new result.pool)
        ≡ flat_b (create_dir_all_m path.now (view (bufs_before nums.now names.now dirs.old pool))) }
{
    if MAX_PATH < path::normal_len(path) {
        return Made { out: 4, pool: pool };
    }
    let cap = pool.chosen.dir_rows;
    let m = pool.dirs;
    let missing = dir_rows::missing_path(dirs, m, path);
    if cap - m < missing {
        return Made { out: 8, pool: pool };
    }
    let mut r = pool;
    r.dirs = dir_rows::register_path(dirs, cap, m, path);
    Made { out: 0, pool: r }
}

// Whether the path is a file's or a directory's.
pub fn exists(nums: &[u64], names: &[u8], dirs: &[u8], pool: Pool, path: &[u8]) -> bool
    requires { IsPool (bufs pool nums.now names.now dirs.now) }
    ensures { result ≡ exists_m path.now (view (bufs_before nums.now names.now dirs.now pool)) }
{
    let n = pool.held;
    let m = pool.dirs;
    let rows = Rows {
        nums,
        names,
        cap: pool.chosen.rows,
        n,
    };
    let i = rows.find_row(path);
    if i < n {
        return true;
    }
    dir_rows::dir_find(dirs, m, path)
}

// The length of a file, or that the path is a directory's; none where it is neither's, 5. A file comes before a directory of the same path.
pub fn metadata(nums: &[u64], names: &[u8], dirs: &[u8], pool: Pool, path: &[u8]) -> Option<Meta>
    requires { IsPool (bufs pool nums.now names.now dirs.now) }
    ensures { meta_told result ≡ metadata_m path.now (view (bufs_before nums.now names.now dirs.now pool)) }
{
    let n = pool.held;
    let m = pool.dirs;
    let rows = Rows {
        nums,
        names,
        cap: pool.chosen.rows,
        n,
    };
    let i = rows.find_row(path);
    if i < n {
        return Some(Meta {
            len: rows.row_len(i),
            is_dir: false,
        });
    }
    if dir_rows::dir_find(dirs, m, path) {
        return Some(Meta {
            len: 0,
            is_dir: true,
        });
    }
    None
}

// ---- sync_dir

// Whether row i is a dirty file whose parent equals the path.
#[tactic(auto, unfolding(crate::specs::Folders::is_due))]
fn is_due(rows: &Rows, i: usize, path: &[u8]) -> bool
    requires { Lie rows.now × (i < rows.now.n) }
    ensures { result ≡ is_due path.now (at (held rows.now) i) }
{
    rows.is_dirty(i) && path::is_parent(path, rows.path(i))
}

// Writes and flushes the header of row i where it is due; else nothing is done.
fn sync_one(
    bytes: &mut [u8],
    phys: &mut [u64],
    geometry: Geometry,
    plan: &[u8],
    place: Place,
    nums: &mut [u64],
    names: &[u8],
    dirs: &[u8],
    pool: Pool,
    i: usize,
    path: &[u8],
) -> Ended
    requires ready { Ready geometry (lent (dev bytes.old phys.old place) (bufs pool nums.old names.now dirs.now)) }
    requires i_lt_held { i < pool.held }
    ensures { outcome result.out tt (after bytes.new phys.new result.place nums.new names.now dirs.now pool)
        ≡ flat_o (sync_one_m plan.now geometry path.now i (view_w (before bytes.old phys.old place nums.old names.now dirs.now pool))) }
{
    let rows = Rows {
        nums,
        names,
        cap: pool.chosen.rows,
        n: pool.held,
    };
    if !is_due(&rows, i, path) {
        return Ended {
            out: 0,
            place: place,
        };
    }
    let put = pool_steps::sync_row(
        bytes, phys, geometry, plan, place, nums, names, dirs, pool, i,
    );
    Ended {
        out: put.last,
        place: put,
    }
}

// Writes and flushes the headers of the dirty files whose parent equals the path, lowest slot first, and stops at the first failure.
// The directory need not exist.
pub fn sync_dir(
    bytes: &mut [u8],
    phys: &mut [u64],
    geometry: Geometry,
    plan: &[u8],
    place: Place,
    nums: &mut [u64],
    names: &[u8],
    dirs: &[u8],
    pool: Pool,
    path: &[u8],
) -> Ended
    requires { Ready geometry (lent (dev bytes.old phys.old place) (bufs pool nums.old names.now dirs.now)) }
    ensures { outcome result.out tt (after bytes.new phys.new result.place nums.new names.now dirs.now pool)
        ≡ flat_o (sync_dir_m plan.now geometry path.now (view_w (before bytes.old phys.old place nums.old names.now dirs.now pool))) }
{
    let mut at = place;
    for i in 0..pool.held {
        let done = sync_one(
            bytes, phys, geometry, plan, at, nums, names, dirs, pool, i, path,
        );
        if done.out != 0 {
            return done;
        }
        at = done.place;
    }
    Ended { out: 0, place: at }
}
