// One operation of a script (docs/EXPORTS.md): the call that its code stands for, made through the pool's face of records, or on a slot of
// the device alone, and its answer, which goes to the output. A refused call answers its number and as many bytes as any other. The caller
// has seen that the operation is whole and its runs lie inside of the script.
#![tactic(auto)]

ghost use Rattle.std.specs.Prelude.{◌≡◌, ◌+◌, ◌^◌, ◌≤◌, ◌<◌, length, replicate};
ghost use Rattle.device.specs.Device.{dev_before, dev_after};
ghost use Rattle.slot_calls.specs.SlotCalls.{slot_done, slot_read};
ghost use Rattle.pool_steps.specs.World.{before, after};
ghost use Rattle.script_format.specs.Format.{last_code, run_in};
ghost use Rattle.script_format.specs.Reading.{Held};
ghost use Rattle.output.specs.Writer.{shown, pours};
ghost use Rattle.calls_gate.specs.Answers.{number_of};
ghost use Rattle.calls_gate.specs.Replies.{came};
ghost use Rattle.calls_gate.specs.Calls.{call_p};
ghost use Rattle.script_step.specs.Operate.{on_handle, on_path, call_of, change_slot, on_slot, made_m};
ghost use Rattle.script_step.specs.Operate.{bit, answer_m, room, answered_m, op_m, reached, spoken};

use calls_gate::{Call, NOTHING, Reply, Told, Went};
use device::{Geometry, Place};
use pool_state::Pool;
use script_format::Op;
use slot_calls::SlotCount;

// The place and the record after an operation, and how much was put out.
#[derive(Clone, Copy)]
pub struct Ran {
    pub place: Place,
    pub pool: Pool,
    pub at: usize,
}

// ---- the call

// Codes 5 to 9: read, write, set_len, file_len, sync.
fn on_handle(op: Op) -> Call
    ensures { result ≡ on_handle op }
{
    let code = op.code;
    if code == 5 {
        return Call::ReadAt {
            slot: op.slot,
            generation: op.generation,
            at: op.at,
        };
    }
    if code == 6 {
        return Call::WriteAt {
            slot: op.slot,
            generation: op.generation,
            at: op.at,
        };
    }
    if code == 7 {
        return Call::SetLen {
            slot: op.slot,
            generation: op.generation,
            len: op.at,
        };
    }
    if code == 8 {
        return Call::FileLen {
            slot: op.slot,
            generation: op.generation,
        };
    }
    Call::Sync {
        slot: op.slot,
        generation: op.generation,
    }
}

// Codes from 10 on: sync_dir, rename, remove, create_dir_all, read_dir, exists, metadata.
fn on_path(op: Op) -> Call
    ensures { result ≡ on_path op.code }
{
    let code = op.code;
    match code {
        10 => Call::SyncDir,
        11 => Call::Rename,
        12 => Call::RemoveFile,
        13 => Call::CreateDirAll,
        14 => Call::ReadDir,
        15 => Call::Exists,
        _ => Call::Metadata,
    }
}

// The call of an operation.
fn call_of(op: Op) -> Call
    ensures { result ≡ call_of op }
{
    let code = op.code;
    if code == 1 {
        return Call::Mount { slots: op.n };
    }
    if code == 2 {
        return Call::Adopt { slots: op.n };
    }
    if code == 3 {
        return Call::OpenWrite {
            how: calls_gate::keeping(op.n != 0),
        };
    }
    if code == 4 {
        return Call::OpenRead;
    }
    if code <= 9 {
        return on_handle(op);
    }
    on_path(op)
}

// Makes the call of an operation on the pool, which is handed this buffer.
fn ask(
    bytes: &mut [u8],
    phys: &mut [u64],
    geometry: Geometry,
    plan: &[u8],
    place: Place,
    nums: &mut [u64],
    names: &mut [u8],
    dirs: &mut [u8],
    pool: Pool,
    script: &[u8],
    op: Op,
    buf: &mut [u8],
) -> Reply
    requires { Held script.now op }
    ensures { came (number_of result.answer) result.told
        (after bytes.new phys.new result.place nums.new names.new dirs.new result.pool) buf.new
        ≡ call_p plan.now geometry (call_of op) (run_in script.now op.first)
        (run_in script.now op.second) buf.old (before bytes.old phys.old place nums.old names.old dirs.old pool) }
{
    let call = call_of(op);
    let first = op.first;
    let a = first.from;
    let e = first.to;
    let second = op.second;
    let b = second.from;
    let f = second.to;
    pool_numbers::on_numbers(
        bytes,
        phys,
        geometry,
        plan,
        place,
        nums,
        names,
        dirs,
        pool,
        call,
        &script[a..e],
        &script[b..f],
        buf,
    )
}

// Codes 23 to 26: write_slot, sync_slot, flush_slot, truncate_slot. The number of the call.
fn change_slot(
    bytes: &mut [u8],
    phys: &mut [u64],
    geometry: Geometry,
    plan: &[u8],
    place: &mut Place,
    script: &[u8],
    op: Op,
) -> u8
    requires { Held script.now op }
    ensures { slot_done result (dev_after bytes.new phys.new place.new)
        ≡ change_slot plan.now geometry op (run_in script.now op.first) (dev_before bytes.old phys.old place.old) }
{
    let code = op.code;
    let slot = op.slot;
    let at = op.at;
    let len = op.len;
    let first = op.first;
    let a = first.from;
    let e = first.to;
    if code == 23 {
        return slot_calls::write_slot(bytes, phys, geometry, plan, place, slot, at, &script[a..e]);
    }
    if code == 24 {
        let flag = op.flag;
        let generation = op.generation;
        return slot_calls::sync_slot(
            bytes,
            phys,
            geometry,
            plan,
            place,
            slot,
            flag,
            &script[a..e],
            len,
            generation,
        );
    }
    if code == 25 {
        return slot_calls::flush_slot(bytes, phys, geometry, plan, place, slot);
    }
    slot_calls::truncate_slot(bytes, phys, geometry, plan, place, slot, len)
}

// Codes 22 to 26: a call on a slot of the device, whether or not there is a pool.
fn on_slot(
    bytes: &mut [u8],
    phys: &mut [u64],
    geometry: Geometry,
    plan: &[u8],
    place: &mut Place,
    script: &[u8],
    op: Op,
    buf: &mut [u8],
) -> SlotCount
    requires { Held script.now op }
    ensures { slot_read result.number result.count buf.new (dev_after bytes.new phys.new place.new)
        ≡ on_slot plan.now geometry op (run_in script.now op.first) buf.old
        (dev_before bytes.old phys.old place.old) }
{
    let code = op.code;
    if code == 22 {
        let slot = op.slot;
        let at = op.at;
        return slot_calls::read_slot(bytes, phys, geometry, plan, place, slot, at, buf);
    }
    SlotCount {
        number: change_slot(bytes, phys, geometry, plan, place, script, op),
        count: 0,
    }
}

// Makes the call of an operation: of a slot from code 22 on, else of the pool. A call on a slot leaves the pool's record and rows.
fn make(
    bytes: &mut [u8],
    phys: &mut [u64],
    geometry: Geometry,
    plan: &[u8],
    place: Place,
    nums: &mut [u64],
    names: &mut [u8],
    dirs: &mut [u8],
    pool: Pool,
    script: &[u8],
    op: Op,
    buf: &mut [u8],
) -> Went
    requires { Held script.now op }
    ensures { came result.out result.told (after bytes.new phys.new result.place nums.new names.new dirs.new result.pool) buf.new
        ≡ made_m script.now plan.now geometry op buf.old
        (before bytes.old phys.old place nums.old names.old dirs.old pool) }
{
    let code = op.code;
    if 22 <= code {
        let mut after = place;
        let slot = on_slot(bytes, phys, geometry, plan, &mut after, script, op, buf);
        let told = Told {
            count: slot.count,
            ..NOTHING
        };
        return Went {
            out: slot.number,
            told: told,
            place: after,
            pool: pool,
        };
    }
    let reply = ask(
        bytes, phys, geometry, plan, place, nums, names, dirs, pool, script, op, buf,
    );
    let answer = reply.answer;
    let told = reply.told;
    let after = reply.place;
    let left = reply.pool;
    Went {
        out: calls_gate::number(answer),
        told: told,
        place: after,
        pool: left,
    }
}

// ---- the answer

// Puts out what a call came to: its number, what it tells, as wide as the table says, and the buffer.
fn put_answer(op: Op, number: u8, told: Told, buf: &[u8], out: &mut [u8], at: usize) -> usize
    requires { (op.code ≤ last_code) × (length buf.now < 65536) × (at < 2 ^ 62) }
    ensures answer { shown out.new result
        ≡ pours (answer_m op number told buf.now) (shown out.old at) }
    ensures few { result ≤ at + 65600 }
{
    let form = script_format::form_of(op.code);
    let a = output::put_le(out, at, 1, number as u64);
    let b = output::put_le(out, a, form.gives_slot, told.slot as u64);
    let c = output::put_le(out, b, form.gives_generation, told.generation);
    let d = output::put_le(out, c, form.gives_len, told.len);
    let e = output::put_le(out, d, form.gives_count, told.count as u64);
    let f = output::put_le(out, e, form.gives_yes, u64::from(told.yes));
    output::put_bytes(out, f, buf)
}

// Makes the call of an operation with this buffer, and puts out its answer.
fn answered(
    bytes: &mut [u8],
    phys: &mut [u64],
    geometry: Geometry,
    plan: &[u8],
    place: Place,
    nums: &mut [u64],
    names: &mut [u8],
    dirs: &mut [u8],
    pool: Pool,
    script: &[u8],
    op: Op,
    buf: &mut [u8],
    out: &mut [u8],
    at: usize,
) -> Ran
    requires { Held script.now op × (op.code ≤ last_code) × (length buf.old < 65536) × (at < 2 ^ 62) }
    ensures op { reached (shown out.new result.at) (after bytes.new phys.new result.place nums.new names.new dirs.new result.pool)
        ≡ spoken (answered_m script.now plan.now geometry op buf.old
        (before bytes.old phys.old place nums.old names.old dirs.old pool)) (shown out.old at) }
    ensures few { result.at ≤ at + 65600 }
{
    let came = make(
        bytes, phys, geometry, plan, place, nums, names, dirs, pool, script, op, buf,
    );
    let after = came.place;
    let left = came.pool;
    let told = came.told;
    let to = put_answer(op, came.out, told, buf, out, at);
    Ran {
        place: after,
        pool: left,
        at: to,
    }
}

// ---- the buffer

// How long a buffer the call is handed.
fn room(op: Op) -> usize
    requires { op.code ≤ last_code }
    ensures { result ≡ room op }
{
    let f = script_format::form_of(op.code);
    if f.n == 2 {
        return op.n;
    }
    0
}

// Runs one operation, and puts out its answer. The large array is made only where a buffer is asked for: to fill it costs more than most
// calls.
pub fn step(
    bytes: &mut [u8],
    phys: &mut [u64],
    geometry: Geometry,
    plan: &[u8],
    place: Place,
    nums: &mut [u64],
    names: &mut [u8],
    dirs: &mut [u8],
    pool: Pool,
    script: &[u8],
    op: Op,
    out: &mut [u8],
    at: usize,
) -> Ran
    requires { Held script.now op × (op.code ≤ last_code) × (op.n < 65536) × (at < 2 ^ 62) }
    ensures op { reached (shown out.new result.at) (after bytes.new phys.new result.place nums.new names.new dirs.new result.pool)
        ≡ spoken (op_m script.now plan.now geometry op (before bytes.old phys.old place nums.old names.old dirs.old pool))
        (shown out.old at) }
    ensures few { result.at ≤ at + 65600 }
{
    let n = room(op);
    if n == 0 {
        let mut none = [170u8; 0];
        return answered(
            bytes, phys, geometry, plan, place, nums, names, dirs, pool, script, op, &mut none,
            out, at,
        );
    }
    let mut work = [170u8; 65536];
    answered(
        bytes,
        phys,
        geometry,
        plan,
        place,
        nums,
        names,
        dirs,
        pool,
        script,
        op,
        &mut work[..n],
        out,
        at,
    )
}
