// A script, read (docs/EXPORTS.md): a setup, and then operations to the end. What is cut off, has no code of the table, or passes the
// script's limits is none, and nothing of it is used. A place is an index of the script.
#![tactic(auto)]

ghost use Rattle.std.specs.Prelude.{◌≡◌, ◌+◌, ◌*◌, ◌≤◌, ◌<◌, length};
ghost use Rattle.lists.specs.Runs.{tab};
ghost use Rattle.script_format.specs.Format.{span_at, span_if, last_code, form_of, args_of, op_at};
ghost use Rattle.script_format.specs.Format.{limits_ok, behind_plan, setup_at, length_at, patching, patch_at, patched_m};

// The longest script, in bytes: one less than this. So the output's length fits 64 bits.
const LONGEST: usize = 0x100_0000_0000;

// The last code of the table of operations.
const LAST_CODE: usize = 26;

// How many rows the table has, with those that are no operation's.
const CODES: usize = LAST_CODE + 1;

// A run of bytes: where they start and end.
#[derive(Clone, Copy)]
pub struct Span {
    pub from: usize,
    pub to: usize,
}

// A row of the table. `used` is its first column, and no flag beside a value: an edit names a row by it.
// How an operation is written: whether it is one, the widths of its numbers, how many runs come behind them, and the widths of what it
// answers.
#[derive(Clone, Copy)]
pub struct Form {
    pub used: usize,
    pub slot: usize,
    pub flag: usize,
    pub len: usize,
    pub generation: usize,
    pub at: usize,
    pub n: usize,
    pub runs: usize,
    pub gives_slot: usize,
    pub gives_generation: usize,
    pub gives_len: usize,
    pub gives_count: usize,
    pub gives_yes: usize,
}

// An operation: its code, its arguments, those it does not have zero or empty. The next operation is at `second.to`.
#[derive(Clone, Copy)]
pub struct Op {
    pub code: usize,
    pub slot: usize,
    pub flag: u8,
    pub len: u64,
    pub generation: u64,
    pub at: u64,
    pub n: usize,
    pub first: Span,
    pub second: Span,
}

// What stands in a setup: the counts, the plan, and the places of the physical lengths and of the patches.
#[derive(Clone, Copy)]
pub struct Setup {
    pub slots: usize,
    pub rows: usize,
    pub dir_rows: usize,
    pub size: usize,
    pub plan: Span,
    pub phys: usize,
    pub count: usize,
    pub patches: usize,
}

// ---- runs

// The run at i: a u16 length and that many bytes.
#[tactic(auto, unfolding(crate::specs::Format::span_at))]
pub fn run_at(s: &[u8], i: usize) -> Option<Span>
    requires { i ≤ length s.now }
    ensures { result ≡ span_at s.now i }
{
    let n = s.len();
    let from = i + 2;
    if n < from {
        return None;
    }
    let k = le::get_at(s, i, 2) as usize;
    if n - from < k {
        return None;
    }
    Some(Span {
        from: from,
        to: from + k,
    })
}

// The run at i where one is to come, else an empty one.
#[tactic(auto, unfolding(crate::specs::Format::span_if))]
fn run_if(s: &[u8], i: usize, wanted: bool) -> Option<Span>
    requires { i ≤ length s.now }
    ensures { result ≡ span_if wanted s.now i }
{
    if wanted {
        run_at(s, i)
    } else {
        Some(Span { from: i, to: i })
    }
}

// ---- operations

// The row of the table for a code. The columns are `Form`'s fields, in their order.
pub fn form_of(code: usize) -> Form
    requires { code ≤ last_code }
    ensures { result ≡ form_of code }
{
    let table: [[usize; 13]; CODES] = [
        [0, 0, 0, 0, 0, 0, 0, 0, 0, 0, 0, 0, 0], // 0
        [1, 0, 0, 0, 0, 0, 1, 0, 0, 0, 0, 0, 0], // 1 mount
        [1, 0, 0, 0, 0, 0, 1, 0, 0, 0, 0, 0, 0], // 2 adopt
        [1, 0, 0, 0, 0, 0, 1, 1, 4, 8, 8, 0, 0], // 3 open_write
        [1, 0, 0, 0, 0, 0, 0, 1, 4, 8, 0, 0, 0], // 4 open_read
        [1, 4, 0, 0, 8, 8, 2, 0, 0, 0, 0, 4, 0], // 5 read
        [1, 4, 0, 0, 8, 8, 0, 1, 0, 0, 0, 0, 0], // 6 write
        [1, 4, 0, 0, 8, 8, 0, 0, 0, 0, 0, 0, 0], // 7 set_len
        [1, 4, 0, 0, 8, 0, 0, 0, 0, 0, 8, 0, 0], // 8 file_len
        [1, 4, 0, 0, 8, 0, 0, 0, 0, 0, 0, 0, 0], // 9 sync
        [1, 0, 0, 0, 0, 0, 0, 1, 0, 0, 0, 0, 0], // 10 sync_dir
        [1, 0, 0, 0, 0, 0, 0, 2, 0, 0, 0, 0, 0], // 11 rename
        [1, 0, 0, 0, 0, 0, 0, 1, 0, 0, 0, 0, 0], // 12 remove
        [1, 0, 0, 0, 0, 0, 0, 1, 0, 0, 0, 0, 0], // 13 create_dir_all
        [1, 0, 0, 0, 0, 0, 2, 1, 0, 0, 0, 4, 0], // 14 read_dir
        [1, 0, 0, 0, 0, 0, 0, 1, 0, 0, 0, 0, 1], // 15 exists
        [1, 0, 0, 0, 0, 0, 0, 1, 0, 0, 8, 0, 1], // 16 metadata
        [0, 0, 0, 0, 0, 0, 0, 0, 0, 0, 0, 0, 0], // 17
        [0, 0, 0, 0, 0, 0, 0, 0, 0, 0, 0, 0, 0], // 18
        [0, 0, 0, 0, 0, 0, 0, 0, 0, 0, 0, 0, 0], // 19
        [0, 0, 0, 0, 0, 0, 0, 0, 0, 0, 0, 0, 0], // 20
        [0, 0, 0, 0, 0, 0, 0, 0, 0, 0, 0, 0, 0], // 21
        [1, 4, 0, 0, 0, 8, 2, 0, 0, 0, 0, 4, 0], // 22 read_slot
        [1, 4, 0, 0, 0, 8, 0, 1, 0, 0, 0, 0, 0], // 23 write_slot
        [1, 4, 1, 8, 8, 0, 0, 1, 0, 0, 0, 0, 0], // 24 sync_slot
        [1, 4, 0, 0, 0, 0, 0, 0, 0, 0, 0, 0, 0], // 25 flush_slot
        [1, 4, 0, 8, 0, 0, 0, 0, 0, 0, 0, 0, 0], // 26 truncate_slot
    ];
    let row = table[code];
    Form {
        used: row[0],
        slot: row[1],
        flag: row[2],
        len: row[3],
        generation: row[4],
        at: row[5],
        n: row[6],
        runs: row[7],
        gives_slot: row[8],
        gives_generation: row[9],
        gives_len: row[10],
        gives_count: row[11],
        gives_yes: row[12],
    }
}

// The operation at i, or none: at the script's end, of no code of the table, or cut off.
#[tactic(auto, using(crate::specs::Reading::behind_last), unfolding(crate::specs::Format::op_at, crate::specs::Format::is_code))]
pub fn op_at(s: &[u8], i: usize) -> Option<Op>
    requires { i ≤ length s.now }
    ensures { result ≡ op_at s.now i }
{
    if s.len() <= i {
        return None;
    }
    let code = s[i] as usize;
    if LAST_CODE < code {
        return None;
    }
    let form = form_of(code);
    if form.used == 0 {
        return None;
    }
    args_of(s, i + 1, code, form)
}

// The operation of a code with this row whose arguments are at i, or none.
#[tactic(auto, using(crate::specs::Reading::run_if_inside), unfolding(crate::specs::Format::args_of, crate::specs::Format::op_of))]
fn args_of(s: &[u8], i: usize, code: usize, f: Form) -> Option<Op>
    requires { (i ≤ length s.now) × (f ≡ form_of code) }
    ensures { result ≡ args_of s.now i code }
{
    let at_flag = i + f.slot;
    let at_len = at_flag + f.flag;
    let at_generation = at_len + f.len;
    let at_at = at_generation + f.generation;
    let at_n = at_at + f.at;
    let at_runs = at_n + f.n;
    if s.len() < at_runs {
        return None;
    }
    let first = run_if(s, at_runs, 1 <= f.runs)?;
    let second = run_if(s, first.to, 2 <= f.runs)?;
    Some(Op {
        code: code,
        slot: le::get_at(s, i, f.slot) as usize,
        flag: le::get_at(s, at_flag, f.flag) as u8,
        len: le::get_at(s, at_len, f.len),
        generation: le::get_at(s, at_generation, f.generation),
        at: le::get_at(s, at_at, f.at),
        n: le::get_at(s, at_n, f.n) as usize,
        first: first,
        second: second,
    })
}

// ---- the setup

// Whether a setup of these counts keeps the script's limits.
#[tactic(auto, unfolding(crate::specs::Format::limits_ok))]
fn limits_ok(slots: usize, rows: usize, dir_rows: usize, size: usize) -> bool
    requires { (slots < 256) × (size < 4294967296) }
    ensures { result ≡ limits_ok slots rows dir_rows size }
{
    slots <= 64 && rows <= 66 && dir_rows <= 258 && slots * size <= 65536
}

// The setup at the script's start, but for the patches, which `patch` reads. None where it is cut off, or passes the limits.
#[tactic(auto, unfolding(crate::specs::Format::setup_at))]
pub fn setup_at(s: &[u8]) -> Option<Setup>
    ensures { result ≡ setup_at s.now }
{
    let n = s.len();
    if LONGEST <= n {
        return None;
    }
    if n < 9 {
        return None;
    }
    if s[0] != 1 {
        return None;
    }
    let slots = s[1] as usize;
    let rows = s[2] as usize;
    let dir_rows = le::get_at(s, 3, 2) as usize;
    let size = le::get_at(s, 5, 4) as usize;
    if !limits_ok(slots, rows, dir_rows, size) {
        return None;
    }
    behind_plan(s, slots, rows, dir_rows, size)
}

// The same with its counts read.
#[tactic(auto, using(crate::specs::Reading::run_inside), unfolding(crate::specs::Format::behind_plan))]
fn behind_plan(s: &[u8], slots: usize, rows: usize, dir_rows: usize, size: usize) -> Option<Setup>
    requires { (9 ≤ length s.now) × (slots < 256) }
    ensures { result ≡ behind_plan s.now slots rows dir_rows size (span_at s.now 9) }
{
    let plan = run_at(s, 9)?;
    let phys = plan.to;
    let counted = phys + slots * 4;
    if s.len() < counted + 2 {
        return None;
    }
    Some(Setup {
        slots: slots,
        rows: rows,
        dir_rows: dir_rows,
        size: size,
        plan: plan,
        phys: phys,
        count: le::get_at(s, counted, 2) as usize,
        patches: counted + 2,
    })
}

// Fills phys with the lengths that stand at i, a u32 each.
#[tactic(auto, unfolding(crate::specs::Format::length_at))]
pub fn lengths(s: &[u8], i: usize, phys: &mut [u64])
    requires { i + length phys.old * 4 ≤ length s.now }
    ensures { phys.new ≡ tab (length_at s.now i) 0 (length phys.old) }
{
    for (k, x) in phys.iter_mut().enumerate() {
        *x = le::get_at(s, i + k * 4, 4);
    }
}

// Lays the patch at i over the device, and gives the place behind it. One that is cut off or not inside of the device changes nothing.
#[tactic(auto, using(crate::specs::Reading::run_inside), unfolding(crate::specs::Format::patch_at, output::specs::Writer::pours))]
fn patch_one(s: &[u8], i: usize, bytes: &mut [u8]) -> Option<usize>
    requires { i ≤ length s.now }
    ensures { patching result bytes.new ≡ patch_at s.now i bytes.old }
{
    let from = i + 4;
    if s.len() < from {
        return None;
    }
    let run = run_at(s, from)?;
    let place = le::get_at(s, i, 4) as usize;
    let a = run.from;
    let e = run.to;
    if bytes.len() < place + (e - a) {
        return None;
    }
    output::put_bytes(bytes, place, &s[a..e]);
    Some(e)
}

// Lays the patches at i over the device, one after the other, and gives the place behind them, where the operations start. At the first
// that is cut off or not inside of the device it stops.
#[tactic(auto, unfolding(crate::specs::Format::patched_m))]
pub fn patch(s: &[u8], i: usize, count: usize, bytes: &mut [u8]) -> Option<usize>
    requires { i ≤ length s.now }
    ensures { patching result bytes.new ≡ patched_m s.now count i bytes.old }
{
    let mut at = i;
    for _ in 0..count {
        at = patch_one(s, at, bytes)?;
    }
    Some(at)
}
