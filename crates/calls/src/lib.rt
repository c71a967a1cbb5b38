// The sixteen public calls as one. Crate calls_gate has the calls and the tests 1, 2 and 3, which are made once, by its table; crate
// calls_path makes the calls on a path that pass them. Here are the others, and the call as a whole.
#![tactic(auto)]

ghost use Rattle.std.specs.Prelude.{◌≡◌};
ghost use Rattle.device.specs.Device.{dev};
ghost use Rattle.pool_state.specs.State.{bufs};
ghost use Rattle.pool_steps.specs.World.{lent, before, after};
ghost use Rattle.calls_gate.specs.Table.{refusal_of};
ghost use Rattle.calls_gate.specs.Replies.{came, replies};
ghost use Rattle.calls_gate.specs.Calls.{inner_m, call_p};

use calls_gate::{Call, NOTHING, Reply, Told, Went};
use device::{Geometry, Place};
use limits::{DIR_WIDTH, ROW_WIDTH};
use pool_state::Pool;

// The call itself, where nothing of the table refuses it.
fn inner(
    bytes: &mut [u8],
    phys: &mut [u64],
    geometry: Geometry,
    plan: &[u8],
    place: Place,
    nums: &mut [u64],
    names: &mut [u8],
    dirs: &mut [u8],
    pool: Pool,
    call: Call,
    first: &[u8],
    second: &[u8],
    buf: &mut [u8],
) -> Went
    requires { refusal_of geometry call first.now second.now
        (lent (dev bytes.old phys.old place) (bufs pool nums.old names.old dirs.old)) ≡ 0 }
    ensures { came result.out result.told (after bytes.new phys.new result.place nums.new names.new dirs.new result.pool) buf.new
        ≡ inner_m plan.now geometry call first.now second.now buf.old
        (before bytes.old phys.old place nums.old names.old dirs.old pool) }
{
    match call {
        Call::Mount { slots } => {
            let chosen = pool_state::choose(nums.len() / ROW_WIDTH, dirs.len() / DIR_WIDTH);
            let d = mount::mount_rows(
                bytes, phys, geometry, plan, place, nums, names, dirs, chosen, slots,
            );
            let after = d.place;
            let left = d.pool;
            return calls_path::quiet(d.out, after, left);
        }
        Call::Adopt { slots } => {
            let d = mount::adopt(
                bytes, phys, geometry, plan, place, nums, names, dirs, pool, slots,
            );
            let after = d.place;
            let left = d.pool;
            return calls_path::quiet(d.out, after, left);
        }
        Call::ReadAt {
            slot,
            generation,
            at,
        } => {
            let d = inner_handle::read_at(
                bytes, phys, geometry, plan, place, nums, names, dirs, pool, slot, generation, at,
                buf,
            );
            let after = d.place;
            return Went {
                out: d.out,
                told: Told {
                    count: d.count,
                    ..NOTHING
                },
                place: after,
                pool: pool,
            };
        }
        Call::WriteAt {
            slot,
            generation,
            at,
        } => {
            let d = inner_handle::write_at(
                bytes, phys, geometry, plan, place, nums, names, dirs, pool, slot, generation, at,
                first,
            );
            let after = d.place;
            return calls_path::quiet(d.out, after, pool);
        }
        Call::SetLen {
            slot,
            generation,
            len,
        } => {
            let d = inner_handle::set_len(
                bytes, phys, geometry, plan, place, nums, names, dirs, pool, slot, generation, len,
            );
            let after = d.place;
            return calls_path::quiet(d.out, after, pool);
        }
        Call::FileLen { slot, generation } => {
            let d = inner_handle::file_len(nums, names, dirs, pool, slot, generation);
            let Some(len) = d else {
                return calls_path::quiet(6, place, pool);
            };
            return Went {
                out: 0,
                told: Told {
                    len: len,
                    ..NOTHING
                },
                place: place,
                pool: pool,
            };
        }
        Call::Sync { slot, generation } => {
            let d = inner_handle::sync(
                bytes, phys, geometry, plan, place, nums, names, dirs, pool, slot, generation,
            );
            let after = d.place;
            return calls_path::quiet(d.out, after, pool);
        }
        _ => {
            return calls_path::on_path(
                bytes, phys, geometry, plan, place, nums, names, dirs, pool, call, first, second,
                buf,
            );
        }
    }
}

// Makes the call.
pub fn make(
    bytes: &mut [u8],
    phys: &mut [u64],
    geometry: Geometry,
    plan: &[u8],
    place: Place,
    nums: &mut [u64],
    names: &mut [u8],
    dirs: &mut [u8],
    pool: Pool,
    call: Call,
    first: &[u8],
    second: &[u8],
    buf: &mut [u8],
) -> Reply
    ensures { replies result bytes.new phys.new nums.new names.new dirs.new buf.new
        ≡ call_p plan.now geometry call first.now second.now buf.old
        (before bytes.old phys.old place nums.old names.old dirs.old pool) }
{
    let refused = calls_gate::refusal(
        bytes, phys, geometry, place, nums, names, dirs, pool, call, first, second,
    );
    if let Some(answer) = refused {
        return calls_gate::refuse(answer, place, nums, names, dirs, pool, call);
    }
    let done = inner(
        bytes, phys, geometry, plan, place, nums, names, dirs, pool, call, first, second, buf,
    );
    let answer = calls_gate::answer_of(done.out);
    let told = done.told;
    let after = done.place;
    let left = done.pool;
    Reply {
        answer: answer,
        told: told,
        place: after,
        pool: left,
    }
}
