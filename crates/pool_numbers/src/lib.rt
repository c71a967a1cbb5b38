// Callers that hold flat numbers, and the place by value, come over this to the pool's face: the numbers are made records, the call is made
// over those, and their numbers are put back. The contract is the flat call's. Any input may come.
#![tactic(auto)]

ghost use Rattle.std.specs.Prelude.{◌≡◌, true};
ghost use Rattle.pool_steps.specs.World.{before, after};
ghost use Rattle.slot_records.specs.Whole.{whole_rows};
ghost use Rattle.calls_gate.specs.Answers.{number_of};
ghost use Rattle.calls_gate.specs.Replies.{came};
ghost use Rattle.calls_gate.specs.Calls.{call_p};

use calls_gate::{Call, Reply};
use device::{Geometry, Place};
use limits::ROW_WIDTH;
use pool_state::Pool;

// The call of whole rows of numbers.
fn through(
    bytes: &mut [u8],
    phys: &mut [u64],
    geometry: Geometry,
    plan: &[u8],
    place: Place,
    nums: &mut [u64],
    names: &mut [u8],
    dirs: &mut [u8],
    pool: Pool,
    call: Call,
    first: &[u8],
    second: &[u8],
    buf: &mut [u8],
) -> Reply
    requires { whole_rows nums.old ≡ true }
    ensures { came (number_of result.answer) result.told
        (after bytes.new phys.new result.place nums.new names.new dirs.new result.pool) buf.new
        ≡ call_p plan.now geometry call first.now second.now buf.old
        (before bytes.old phys.old place nums.old names.old dirs.old pool) }
{
    let n = nums.len() / ROW_WIDTH;
    let mut rows = slot_records::rows_of(nums);
    let mut at = place;
    let reply = pool::call(
        bytes,
        phys,
        geometry,
        plan,
        &mut at,
        &mut rows[..n],
        names,
        dirs,
        pool,
        call,
        first,
        second,
        buf,
    );
    slot_records::put_rows(nums, rows);
    reply
}

// Makes the call. Numbers that are no whole rows, or of more than 66, go straight to the
// flat call, which refuses them.
pub fn on_numbers(
    bytes: &mut [u8],
    phys: &mut [u64],
    geometry: Geometry,
    plan: &[u8],
    place: Place,
    nums: &mut [u64],
    names: &mut [u8],
    dirs: &mut [u8],
    pool: Pool,
    call: Call,
    first: &[u8],
    second: &[u8],
    buf: &mut [u8],
) -> Reply
    ensures { came (number_of result.answer) result.told
        (after bytes.new phys.new result.place nums.new names.new dirs.new result.pool) buf.new
        ≡ call_p plan.now geometry call first.now second.now buf.old
        (before bytes.old phys.old place nums.old names.old dirs.old pool) }
{
    if !slot_records::whole_rows(nums) {
        return calls::make(
            bytes, phys, geometry, plan, place, nums, names, dirs, pool, call, first, second, buf,
        );
    }
    through(
        bytes, phys, geometry, plan, place, nums, names, dirs, pool, call, first, second, buf,
    )
}
