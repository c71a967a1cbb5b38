// The pool's public face: the sixteen calls over a lent place, "one small record", and slot rows that are "a lent run of records, one row a
// slot". One entry loads the records into flat numbers, has crate calls make the call on those, and stores them back. So its contract is
// the flat call's, with the place and the numbers of the records at entry and at exit. Any input may come. More than 64 records are no
// pool's: they are refused before they are loaded.
#![tactic(auto)]

ghost use Rattle.std.specs.Prelude.{◌≡◌, ◌*◌, ◌≤◌, cond, length, take};
ghost use Rattle.limits.specs.Limits.{row_width};
ghost use Rattle.device.specs.Device.{dev};
ghost use Rattle.pool_state.specs.State.{bufs};
ghost use Rattle.pool_steps.specs.World.{lent};
ghost use Rattle.slot_records.specs.Records.{nums_of};
ghost use Rattle.calls_gate.specs.declared.Answer.TheVariants.{NotPool, WrongShape};
ghost use Rattle.mount.specs.Mount.{zero_pool};
ghost use Rattle.calls_gate.specs.Table.{zeroed, takes_of};
ghost use Rattle.calls_gate.specs.Replies.{replied, silently};
ghost use Rattle.calls_gate.specs.Calls.{call_p};
ghost use Rattle.pool.specs.Face.{asked, left, Same, Placed};

use calls_gate::{Answer, Call, Reply};
use device::{Geometry, Place};
use limits::ROW_WIDTH;
use pool_state::Pool;
use slot_records::Slot;

// ---- more than 64 records

// How many of n records are made zero: all at a mount, else none.
fn lost(call: Call, n: usize) -> usize
    ensures { result ≡ cond (takes_of call).mounts n 0 }
{
    let takes = calls_gate::takes_of(call);
    if takes.mounts {
        return n;
    }
    0
}

// The reply where there are more than 64 records: at a mount 2, and the paths and the directories are zero; else 1.
fn too_many(place: Place, names: &mut [u8], dirs: &mut [u8], pool: Pool, call: Call) -> Reply
    ensures reply { result ≡ cond (takes_of call).mounts (silently WrongShape place zero_pool) (silently NotPool place pool) }
    ensures names { names.new ≡ cond (takes_of call).mounts (zeroed names.old) names.old }
    ensures dirs { dirs.new ≡ cond (takes_of call).mounts (zeroed dirs.old) dirs.old }
{
    let takes = calls_gate::takes_of(call);
    if takes.mounts {
        names.fill(0);
        dirs.fill(0);
        let zero = mount::zero();
        let refused = Answer::WrongShape;
        return calls_gate::silent(refused, place, zero);
    }
    let refused = Answer::NotPool;
    calls_gate::silent(refused, place, pool)
}

// ---- at most 64

// The call over the first n rows of flat numbers.
fn on_front(
    bytes: &mut [u8],
    phys: &mut [u64],
    geometry: Geometry,
    plan: &[u8],
    place: Place,
    nums: &mut [u64],
    n: usize,
    names: &mut [u8],
    dirs: &mut [u8],
    pool: Pool,
    call: Call,
    first: &[u8],
    second: &[u8],
    buf: &mut [u8],
) -> Reply
    requires { n * row_width ≤ length nums.old }
    ensures { replied result bytes.new phys.new (take (n * row_width) nums.new) names.new dirs.new
        buf.new
        ≡ call_p plan.now geometry call first.now second.now buf.old
        (lent (dev bytes.old phys.old place)
        (bufs pool (take (n * row_width) nums.old) names.old dirs.old)) }
{
    let k = n * ROW_WIDTH;
    calls::make(
        bytes,
        phys,
        geometry,
        plan,
        place,
        &mut nums[..k],
        names,
        dirs,
        pool,
        call,
        first,
        second,
        buf,
    )
}

// ---- the entry

// Makes the call, with the place by value.
fn enter(
    bytes: &mut [u8],
    phys: &mut [u64],
    geometry: Geometry,
    plan: &[u8],
    place: Place,
    rows: &mut [Slot],
    names: &mut [u8],
    dirs: &mut [u8],
    pool: Pool,
    call: Call,
    first: &[u8],
    second: &[u8],
    buf: &mut [u8],
) -> Reply
    ensures { replied result bytes.new phys.new (nums_of rows.new) names.new dirs.new
        buf.new
        ≡ call_p plan.now geometry call first.now second.now buf.old
        (lent (dev bytes.old phys.old place)
        (bufs pool (nums_of rows.old) names.old dirs.old)) }
{
    let n = rows.len();
    if 64 < n {
        let k = lost(call, n);
        slot_records::clear(rows, k);
        return too_many(place, names, dirs, pool, call);
    }
    let mut nums = slot_records::flat(rows);
    let reply = on_front(
        bytes, phys, geometry, plan, place, &mut nums, n, names, dirs, pool, call, first, second,
        buf,
    );
    slot_records::keep(rows, nums);
    reply
}

// Makes the call; the place moves on.
pub fn call(
    bytes: &mut [u8],
    phys: &mut [u64],
    geometry: Geometry,
    plan: &[u8],
    at: &mut Place,
    rows: &mut [Slot],
    names: &mut [u8],
    dirs: &mut [u8],
    pool: Pool,
    call: Call,
    first: &[u8],
    second: &[u8],
    buf: &mut [u8],
) -> Reply
    ensures same { Same
        (asked bytes.old phys.old geometry plan.now at.old rows.old names.old dirs.old pool call first.now second.now buf.old)
        (left result bytes.new phys.new at.new rows.new names.new dirs.new buf.new) }
    ensures place { Placed (left result bytes.new phys.new at.new rows.new names.new dirs.new buf.new) }
{
    let reply = enter(
        bytes, phys, geometry, plan, *at, rows, names, dirs, pool, call, first, second, buf,
    );
    *at = reply.place;
    reply
}
