// The tables that a script ends with (docs/EXPORTS.md): the record with its rows, queue and directories, and the device. They go to the
// output behind what came before. Any record and any buffers may come: what is no pool is said so, and shows none. Nothing is refused.
#![tactic(auto)]

ghost use Rattle.std.specs.Prelude.{◌≡◌, ◌+◌, ◌*◌, ◌^◌, ◌≤◌, ◌<◌, length, drop, replicate};
ghost use Rattle.limits.specs.Limits.{row_width, dir_width};
ghost use Rattle.lists.specs.Blocks.{cat};
ghost use Rattle.lists.specs.Runs.{range};
ghost use Rattle.lists.specs.Sort.{sort};
ghost use Rattle.le.specs.Le.{le};
ghost use Rattle.slot_rows.specs.Held.{held, Lie};
ghost use Rattle.dir_rows.specs.Rows.{dirs_of};
ghost use Rattle.device.specs.Device.{dev};
ghost use Rattle.pool_state.specs.State.{bufs, view, IsPool};
ghost use Rattle.row_order.specs.Spans.{in_order, span_before, spelled, dir_spans, AllInside};
ghost use Rattle.output.specs.Writer.{Puts, run_of};
ghost use Rattle.script_tables.specs.Tables.{weight, marks_at, row_shown, dirs_shown, pool_shown, record_shown, device_shown};

use device::Place;
use pool_state::Pool;
use slot_rows::Rows;

// ---- slot rows

// The number if the flag is set, else 0.
fn weigh(flag: bool, x: u64) -> u64
    ensures { result ≡ weight flag x }
{
    if flag { x } else { 0 }
}

// The marks of slot row i: bound, in the queue, dirty.
fn marks(rows: &Rows, i: usize, queue: &[u8]) -> u64
    requires { Lie rows.now × (i < rows.now.n) }
    ensures { result ≡ marks_at queue.now (held rows.now) i }
{
    let bound = weigh(rows.is_bound(i), 1);
    let queued = weigh(queue.iter().any(|x| usize::from(*x) == i), 2);
    let dirty = weigh(rows.is_dirty(i), 4);
    bound + queued + dirty
}

// Slot row i.
fn put_row(rows: &Rows, i: usize, queue: &[u8], out: &mut [u8], at: usize) -> usize
    requires { Lie rows.now × (i < rows.now.n) × (at < 2 ^ 62) }
    ensures row { Puts (row_shown queue.now (held rows.now) i) out.old out.new at result }
    ensures few { result ≤ at + 512 }
{
    let m = marks(rows, i, queue);
    let g = rows.row_generation(i);
    let l = rows.row_len(i);
    let a = output::put_le(out, at, 1, m);
    let b = output::put_le(out, a, 8, g);
    let c = output::put_le(out, b, 8, l);
    output::put_run(out, c, rows.path(i))
}

// All slot rows.
fn put_rows(rows: &Rows, queue: &[u8], out: &mut [u8], at: usize) -> usize
    requires { Lie rows.now × (rows.now.n ≤ 64) × (at < 2 ^ 61) }
    ensures rows { Puts (cat (row_shown queue.now (held rows.now)) (range 0 rows.now.n)) out.old out.new at result }
    ensures few { result ≤ at + rows.now.n * 512 }
{
    let mut a = at;
    for i in 0..rows.n {
        a = put_row(rows, i, queue, out, a);
    }
    a
}

// ---- directories

// The parts of dirs, as runs.
fn put_spans(dirs: &[u8], spans: &[u32], out: &mut [u8], at: usize) -> usize
    requires { AllInside dirs.now spans.now × (length spans.now ≤ 256) × (at < 2 ^ 61) }
    ensures runs { Puts (cat (λ x. run_of (spelled dirs.now x)) spans.now) out.old out.new at result }
    ensures few { result ≤ at + length spans.now * 514 }
{
    let mut a = at;
    for x in spans {
        let from = (*x / 512) as usize;
        let k = (*x % 512) as usize;
        a = output::put_run(out, a, &dirs[from..from + k]);
    }
    a
}

// The first m directories, as runs, in order; the cells of spans are for sorting.
fn put_sorted(dirs: &[u8], m: usize, spans: &mut [u32], out: &mut [u8], at: usize) -> usize
    requires { (m * dir_width ≤ length dirs.now) × (m ≤ 256) × (length spans.old ≡ m) × (at < 2 ^ 61) }
    ensures runs { Puts (cat run_of (in_order (dirs_of dirs.now m))) out.old out.new at result }
    ensures few { result ≤ at + m * 514 }
    ensures parts { spans.new ≡ sort (span_before dirs.now) (dir_spans (dirs_of dirs.now m)) }
{
    row_order::all_dirs(dirs, m, spans);
    row_order::sort(dirs, spans);
    put_spans(dirs, spans, out, at)
}

// The first m directories: their count, and they in order.
fn put_dirs(dirs: &[u8], m: usize, out: &mut [u8], at: usize) -> usize
    requires { (m * dir_width ≤ length dirs.now) × (m ≤ 256) × (at < 2 ^ 60) }
    ensures dirs { Puts (dirs_shown (dirs_of dirs.now m)) out.old out.new at result }
    ensures few { result ≤ at + 200000 }
{
    let mut spans = [0u32; 256];
    let a = output::put_le(out, at, 2, m as u64);
    put_sorted(dirs, m, &mut spans[..m], out, a)
}

// ---- the record

// A pool: counter, rows, queue, directories.
fn put_pool(nums: &[u64], names: &[u8], dirs: &[u8], pool: Pool, out: &mut [u8], at: usize) -> usize
    requires { IsPool (bufs pool nums.now names.now dirs.now) × (at < 2 ^ 59) }
    ensures pool { Puts (pool_shown (view (bufs pool nums.now names.now dirs.now))) out.old out.new at result }
    ensures few { result ≤ at + 300000 }
{
    let n = pool.held;
    let free = pool.free;
    let q = pool.queue;
    let rows = Rows {
        nums,
        names,
        cap: pool.chosen.rows,
        n,
    };
    let a = output::put_le(out, at, 8, pool.counter);
    let b = output::put_le(out, a, 1, n as u64);
    let c = put_rows(&rows, &q[..free], out, b);
    let d = output::put_le(out, c, 1, free as u64);
    let e = output::put_bytes(out, d, &q[..free]);
    put_dirs(dirs, pool.dirs, out, e)
}

// The record, with 1 if it is a pool.
pub fn put_record(
    nums: &[u64],
    names: &[u8],
    dirs: &[u8],
    pool: Pool,
    out: &mut [u8],
    at: usize,
) -> usize
    requires { at < 2 ^ 58 }
    ensures record { Puts (record_shown (bufs pool nums.now names.now dirs.now)) out.old out.new at result }
    ensures few { result ≤ at + 400000 }
{
    if pool_test::pool_ok(nums, names, dirs, pool) {
        let a = output::put_le(out, at, 1, 1);
        return put_pool(nums, names, dirs, pool, out, a);
    }
    output::put_le(out, at, 13, 0)
}

// ---- the device

// Numbers, as u32 each.
fn put_lengths(phys: &[u64], out: &mut [u8], at: usize) -> usize
    requires { at < 2 ^ 62 }
    ensures puts { Puts (cat (le 4) phys.now) out.old out.new at result }
    ensures few { result ≤ at + length phys.now * row_width }
{
    let mut a = at;
    for x in phys {
        a = output::put_le(out, a, 4, *x);
    }
    a
}

// The plan's place, the physical lengths, and the bytes.
pub fn put_device(bytes: &[u8], phys: &[u64], place: Place, out: &mut [u8], at: usize) -> usize
    requires { at < 2 ^ 61 }
    ensures { Puts (device_shown (dev bytes.now phys.now place)) out.old out.new at result }
{
    let a = output::put_le(out, at, 4, place.at as u64);
    let b = put_lengths(phys, out, a);
    output::put_bytes(out, b, bytes)
}
