// The calls that are made on a path, which is the table's column `first`, where nothing of the table refuses them: the file's (open_write,
// open_read, rename, remove_file) and the directory's (sync_dir, create_dir_all, read_dir, exists, metadata). Crate calls makes the others.
#![tactic(auto)]

ghost use Rattle.std.specs.Prelude.{◌≡◌, true};
ghost use Rattle.device.specs.Device.{dev};
ghost use Rattle.pool_state.specs.State.{bufs};
ghost use Rattle.pool_steps.specs.World.{lent, before, after};
ghost use Rattle.calls_gate.specs.Table.{takes_of, refusal_of};
ghost use Rattle.calls_gate.specs.Replies.{came};
ghost use Rattle.calls_gate.specs.Calls.{inner_m};
ghost use Rattle.calls_path.specs.Quiet.{quietly};

use calls_gate::{Call, NOTHING, Told, Went};
use device::{Geometry, Place};
use pool_state::Pool;

// A call that tells nothing.
pub fn quiet(out: u8, place: Place, pool: Pool) -> Went
    ensures { result ≡ quietly out place pool }
{
    Went {
        out: out,
        told: NOTHING,
        place: place,
        pool: pool,
    }
}

// The call itself.
pub fn on_path(
    bytes: &mut [u8],
    phys: &mut [u64],
    geometry: Geometry,
    plan: &[u8],
    place: Place,
    nums: &mut [u64],
    names: &mut [u8],
    dirs: &mut [u8],
    pool: Pool,
    call: Call,
    first: &[u8],
    second: &[u8],
    buf: &mut [u8],
) -> Went
    requires passed { refusal_of geometry call first.now second.now
        (lent (dev bytes.old phys.old place) (bufs pool nums.old names.old dirs.old)) ≡ 0 }
    requires path { (takes_of call).first ≡ true }
    ensures { came result.out result.told (after bytes.new phys.new result.place nums.new names.new dirs.new result.pool) buf.new
        ≡ inner_m plan.now geometry call first.now second.now buf.old
        (before bytes.old phys.old place nums.old names.old dirs.old pool) }
{
    match call {
        Call::OpenWrite { how } => {
            let d = inner_open::open_write(
                bytes, phys, geometry, plan, place, nums, names, dirs, pool, first, how.keep,
            );
            let after = d.place;
            let left = d.pool;
            return Went {
                out: d.out,
                told: Told {
                    slot: d.slot,
                    generation: d.generation,
                    len: d.len,
                    ..NOTHING
                },
                place: after,
                pool: left,
            };
        }
        Call::OpenRead => {
            let d = inner_open::open_read(nums, names, dirs, pool, first);
            let Some(reader) = d else {
                return quiet(5, place, pool);
            };
            return Went {
                out: 0,
                told: Told {
                    slot: reader.slot,
                    generation: reader.generation,
                    ..NOTHING
                },
                place: place,
                pool: pool,
            };
        }
        Call::SyncDir => {
            let d = inner_dirs::sync_dir(
                bytes, phys, geometry, plan, place, nums, names, dirs, pool, first,
            );
            let after = d.place;
            return quiet(d.out, after, pool);
        }
        Call::Rename => {
            let d = inner_rename::rename(
                bytes, phys, geometry, plan, place, nums, names, dirs, pool, first, second,
            );
            let after = d.place;
            let left = d.pool;
            return quiet(d.out, after, left);
        }
        Call::RemoveFile => {
            let d = inner_open::remove_file(
                bytes, phys, geometry, plan, place, nums, names, dirs, pool, first,
            );
            let after = d.place;
            let left = d.pool;
            return quiet(d.out, after, left);
        }
        Call::CreateDirAll => {
            let d = inner_dirs::create_dir_all(nums, names, dirs, pool, first);
            let left = d.pool;
            return quiet(d.out, place, left);
        }
        Call::ReadDir => {
            let d = inner_list::read_dir(nums, names, dirs, pool, first, buf);
            return Went {
                out: d.out,
                told: Told {
                    count: d.size,
                    ..NOTHING
                },
                place: place,
                pool: pool,
            };
        }
        Call::Exists => {
            let d = inner_dirs::exists(nums, names, dirs, pool, first);
            return Went {
                out: 0,
                told: Told { yes: d, ..NOTHING },
                place: place,
                pool: pool,
            };
        }
        Call::Metadata => {
            let d = inner_dirs::metadata(nums, names, dirs, pool, first);
            let Some(meta) = d else {
                return quiet(5, place, pool);
            };
            return Went {
                out: 0,
                told: Told {
                    len: meta.len,
                    yes: meta.is_dir,
                    ..NOTHING
                },
                place: place,
                pool: pool,
            };
        }
        _ => {
            return quiet(0, place, pool);
        }
    }
}
