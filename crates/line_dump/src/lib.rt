// A pool as text in a lent buffer: what the command program prints for `dump` (01, "The command program"). The buffer may be too short; the
// whole length is given back, and what falls past the buffer's end goes nowhere. A record that is no pool gets `no 1`. The Rust has no such
// program.
#![tactic(auto)]

ghost use Rattle.std.specs.Prelude.{◌≡◌, ◌+◌, ◌*◌, ◌^◌, ◌≤◌, ◌<◌, length};
ghost use Rattle.limits.specs.Limits.{dir_width};
ghost use Rattle.lists.specs.Blocks.{cat};
ghost use Rattle.slot_rows.specs.Held.{held, Lie};
ghost use Rattle.dir_rows.specs.Rows.{dirs_of};
ghost use Rattle.pool_state.specs.State.{bufs, view, IsPool};
ghost use Rattle.row_order.specs.Spans.{SpanInside, AllInside, spelled, slot_of};
ghost use Rattle.output.specs.Writer.{Puts, PutsAll};
ghost use Rattle.line_dump.specs.Dump.{path_end, file_numbers, file_line, dir_line, files_text, dirs_text, dump_text};
ghost use Rattle.line_dump.specs.Dump.{dump_answer, SlotsBelow};

use pool_state::Pool;
use slot_rows::Rows;

// A space, a path, and the line's end.
fn put_path(out: &mut [u8], at: usize, path: &[u8]) -> usize
    requires { at + length path.now + 2 < 2 ^ 64 }
    ensures { Puts (path_end path.now) out.old out.new at result }
{
    let a = output::put_byte(out, at, b' ');
    let b = output::put_bytes(out, a, path);
    output::put_byte(out, b, b'\n')
}

// The front of a file's line, up to its path.
fn put_numbers(
    slot: usize,
    generation: u64,
    len: u64,
    dirty: u64,
    out: &mut [u8],
    at: usize,
) -> usize
    requires { at + 85 < 2 ^ 64 }
    ensures { Puts (file_numbers slot generation len dirty) out.old out.new at result }
{
    let a = output::put_byte(out, at, b'f');
    let b = line_answers::put_number(out, a, slot as u64);
    let c = line_answers::put_number(out, b, generation);
    let d = line_answers::put_number(out, c, len);
    line_answers::put_number(out, d, dirty)
}

// The line of the file in slot i.
fn put_file(rows: &Rows, i: usize, out: &mut [u8], at: usize) -> usize
    requires { Lie rows.now × (i < rows.now.n) × (at + 600 < 2 ^ 64) }
    ensures { Puts (file_line (held rows.now) i) out.old out.new at result }
{
    let generation = rows.row_generation(i);
    let len = rows.row_len(i);
    let dirty = u64::from(rows.is_dirty(i));
    let a = put_numbers(i, generation, len, dirty, out, at);
    put_path(out, a, rows.path(i))
}

// The lines of files, in the order of their spans.
fn put_files(rows: &Rows, spans: &[u32], out: &mut [u8], at: usize) -> usize
    requires { Lie rows.now × SlotsBelow rows.now.n spans.now × (at + length spans.now * 600 < 2 ^ 64) }
    ensures { Puts (cat (λ x. file_line (held rows.now) (slot_of x)) spans.now) out.old out.new at result }
{
    let mut a = at;
    for x in spans {
        a = put_file(rows, row_order::slot_of(*x), out, a);
    }
    a
}

// The lines of all files.
fn put_all_files(rows: &Rows, out: &mut [u8], at: usize) -> usize
    requires { Lie rows.now × (rows.now.n ≤ 64) × (at + 38400 < 2 ^ 64) }
    ensures { Puts (files_text (held rows.now)) out.old out.new at result }
{
    let mut spans = [0u32; 64];
    let count = row_order::all_files(rows, &mut spans);
    let files = &mut spans[..count];
    row_order::sort(rows.names, files);
    put_files(rows, files, out, at)
}

// The line of the directory whose spelling is the part x.
fn put_dir(dirs: &[u8], x: u32, out: &mut [u8], at: usize) -> usize
    requires { SpanInside dirs.now x × (at + 600 < 2 ^ 64) }
    ensures { Puts (dir_line (spelled dirs.now x)) out.old out.new at result }
{
    let start = (x / 512) as usize;
    let len = (x % 512) as usize;
    let a = output::put_byte(out, at, b'd');
    put_path(out, a, &dirs[start..start + len])
}

// The lines of directories, in the order of their spans.
fn put_dirs(dirs: &[u8], spans: &[u32], out: &mut [u8], at: usize) -> usize
    requires { AllInside dirs.now spans.now × (at + length spans.now * 600 < 2 ^ 64) }
    ensures { Puts (cat (λ x. dir_line (spelled dirs.now x)) spans.now) out.old out.new at result }
{
    let mut a = at;
    for x in spans {
        a = put_dir(dirs, *x, out, a);
    }
    a
}

// The lines of all directories. Beside `put_all_files`, since rows, spans and lines differ: one function with closures is no shorter.
fn put_all_dirs(dirs: &[u8], m: usize, out: &mut [u8], at: usize) -> usize
    requires { (m * dir_width ≤ length dirs.now) × (m ≤ 256) × (at + 153600 < 2 ^ 64) }
    ensures { Puts (dirs_text (dirs_of dirs.now m)) out.old out.new at result }
{
    let mut spans = [0u32; 256];
    row_order::all_dirs(dirs, m, &mut spans);
    let held = &mut spans[..m];
    row_order::sort(dirs, held);
    put_dirs(dirs, held, out, at)
}

// A pool, line by line.
fn put_pool(nums: &[u64], names: &[u8], dirs: &[u8], pool: Pool, out: &mut [u8]) -> usize
    requires { IsPool (bufs pool nums.now names.now dirs.now) }
    ensures { PutsAll (dump_text (view (bufs pool nums.now names.now dirs.now))) out.old out.new result }
{
    let m = pool.dirs;
    let free = pool.free;
    let rows = Rows {
        nums,
        names,
        cap: pool.chosen.rows,
        n: pool.held,
    };
    let a = put_all_files(&rows, out, 0);
    let b = put_all_dirs(dirs, m, out, a);
    let c = output::put_bytes(out, b, b"free");
    let d = line_answers::put_number(out, c, free as u64);
    output::put_byte(out, d, b'\n')
}

// The answer to `dump`.
pub fn say_dump(nums: &[u64], names: &[u8], dirs: &[u8], pool: Pool, out: &mut [u8]) -> usize
    ensures { PutsAll (dump_answer (bufs pool nums.now names.now dirs.now)) out.old out.new result }
{
    if !pool_test::pool_ok(nums, names, dirs, pool) {
        return line_answers::say_no(out, 1);
    }
    put_pool(nums, names, dirs, pool, out)
}
