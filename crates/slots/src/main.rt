// The command program: 01, "The command program". It mounts a pool of four slots of 1,024 bytes and 8 directory rows on a device with no
// plan, reads standard input in blocks, cuts it into lines, has `lines` answer each, and writes the answers to standard output when a block
// is done. A line of any length takes the room of 1,025 bytes, which is enough to see that it is too long. No contract can speak of what is
// read or written; what a line comes to is `lines`'s to say.
#![tactic(auto)]

ghost use Rattle.std.specs.Prelude.{◌≡◌, ◌+◌, ◌-◌, ◌≤◌, ◌<◌, min, length, take};
ghost use Rattle.pool_steps.specs.World.{before};
ghost use Rattle.slots.specs.Slots.{InBuffers, extended};
ghost use Rattle.slots.specs.Room.{RoomAt, AnswerWaits};

use calls_gate::Call;
use device::Place;
use pool_state::Pool;
use std::io::{Read, Stdin};

// Standard output's number at the C library.
const STDOUT_FILENO: i32 = 1;

// No answer is longer (`answers_fit`): a dump has at most 4 files and 8 directories.
const ROOM: usize = 8192;

// What goes on from line to line: the place and the record of the pool, how many bytes of a line are held, how many bytes of answers wait,
// and where in the block the next line starts.
#[derive(Clone, Copy)]
struct Progress {
    place: Place,
    pool: Pool,
    held: usize,
    used: usize,
    at: usize,
}

fn main(rt: HostRuntime) {
    let mut bytes = io::buffer();
    let mut phys = [0u64; 4];
    let mut nums = [0u64; 16];
    let mut names = name_rows();
    let mut dirs = dir_rows();
    let mounted = line::ask(
        &mut bytes,
        &mut phys,
        Place { at: 0, last: 0 },
        &mut nums,
        &mut names,
        &mut dirs,
        mount::zero(),
        Call::Mount { slots: 4 },
        b"",
        b"",
    );
    let place = mounted.place;
    let pool = mounted.pool;
    serve(
        &mut bytes,
        &mut phys,
        place,
        &mut nums,
        &mut names,
        &mut dirs,
        pool,
        rt.stdin(),
    );
}

// The names of four slot rows.
fn name_rows() -> [u8; 1920]
    ensures { 1920 ≡ length result }
{
    [0; 1920]
}

// Eight directory rows.
fn dir_rows() -> [u8; 3856]
    ensures { 3856 ≡ length result }
{
    [0; 3856]
}

// A line of 1,024 bytes, and one byte more.
fn line_buffer() -> [u8; 1025]
    ensures { 1025 ≡ length result }
{
    [0; 1025]
}

// Answers standard input.
fn serve(
    bytes: &mut [u8],
    phys: &mut [u64],
    place: Place,
    nums: &mut [u64],
    names: &mut [u8],
    dirs: &mut [u8],
    pool: Pool,
    stdin: Stdin,
) {
    let mut line = line_buffer();
    let mut input = io::large_buffer();
    let mut out = io::large_buffer();
    let run = Progress {
        place: place,
        pool: pool,
        held: 0,
        used: 0,
        at: 0,
    };
    answer_all(
        bytes, phys, nums, names, dirs, run, &mut line, &mut input, &mut out, stdin,
    );
}

// Reads and answers block by block, and then the line that no line feed ends. A proved loop has to end, and nothing says that the input
// does: so it takes as many turns at most as no run uses up. A read that fails counts as the end of the input.
fn answer_all(
    bytes: &mut [u8],
    phys: &mut [u64],
    nums: &mut [u64],
    names: &mut [u8],
    dirs: &mut [u8],
    run: Progress,
    line: &mut [u8],
    input: &mut [u8],
    out: &mut [u8],
    stdin: Stdin,
)
    requires { InBuffers (length line.old) (length out.old) run }
{
    let mut from = stdin;
    let mut r = run;
    for _ in 0..u64::MAX {
        let n = from.read(input).unwrap_or(0);
        if n == 0 {
            break;
        }
        r = answer_block(bytes, phys, nums, names, dirs, r, line, &input[..n], out);
    }
    answer_last(bytes, phys, nums, names, dirs, r, line, out);
}

// Answers the lines that end in a block, holds the one that does not, and writes the answers.
fn answer_block(
    bytes: &mut [u8],
    phys: &mut [u64],
    nums: &mut [u64],
    names: &mut [u8],
    dirs: &mut [u8],
    run: Progress,
    line: &mut [u8],
    input: &[u8],
    out: &mut [u8],
) -> Progress
    requires { InBuffers (length line.old) (length out.old) run }
    ensures { InBuffers (length line.new) (length out.new) result }
{
    let mut r = run;
    while r.at < input.len() {
        r = next_line(bytes, phys, nums, names, dirs, r, line, input, out);
    }
    write(out, r.used);
    let place = r.place;
    let pool = r.pool;
    Progress {
        place: place,
        pool: pool,
        held: r.held,
        used: 0,
        at: 0,
    }
}

// Takes the block's next line up to its line feed, and answers it; a line that the block ends in is only held.
fn next_line(
    bytes: &mut [u8],
    phys: &mut [u64],
    nums: &mut [u64],
    names: &mut [u8],
    dirs: &mut [u8],
    run: Progress,
    line: &mut [u8],
    input: &[u8],
    out: &mut [u8],
) -> Progress
    requires { InBuffers (length line.old) (length out.old) run × (run.at < length input.now) }
    ensures { InBuffers (length line.new) (length out.new) result × (run.at < result.at) }
{
    let at = run.at;
    let place = run.place;
    let pool = run.pool;
    let end = line_words::run_end(input, at, b'\n');
    let held = append(line, run.held, &input[at..end]);
    if end == input.len() {
        return Progress {
            place: place,
            pool: pool,
            held: held,
            used: run.used,
            at: end,
        };
    }
    let whole = Progress {
        place: place,
        pool: pool,
        held: held,
        used: run.used,
        at: end + 1,
    };
    reply(bytes, phys, nums, names, dirs, whole, line, out)
}

// Puts a part of a line behind the bytes that are held, as far as the buffer reaches, and gives how many are held then.
fn append(line: &mut [u8], held: usize, part: &[u8]) -> usize
    requires { held ≤ length line.old }
    ensures kept { take result line.new ≡ extended line.old held part.now }
    ensures within { result ≤ length line.new }
{
    let n = (line.len() - held).min(part.len());
    line[held..held + n].copy_from_slice(&part[..n]);
    held + n
}

// Answers the line that is held. Of four slot rows and eight directory rows, and with a buffer that has room for an answer, the answer is
// not cut.
fn reply(
    bytes: &mut [u8],
    phys: &mut [u64],
    nums: &mut [u64],
    names: &mut [u8],
    dirs: &mut [u8],
    run: Progress,
    line: &[u8],
    out: &mut [u8],
) -> Progress
    requires { InBuffers (length line.now) (length out.old) run }
    ensures within { InBuffers (length line.now) (length out.new) result × (result.at ≡ run.at) }
    ensures whole { AnswerWaits (take run.held line.now) (before bytes.old phys.old run.place nums.old names.old dirs.old run.pool)
        (length out.old) out.new result.used }
{
    let held = run.held;
    let place = run.place;
    let pool = run.pool;
    let start = make_room(out, run.used);
    let said = line::answer_line(
        bytes,
        phys,
        place,
        nums,
        names,
        dirs,
        pool,
        &line[..held],
        &mut out[start..],
    );
    let after = said.place;
    let left = said.pool;
    Progress {
        place: after,
        pool: left,
        held: 0,
        used: reach(out, start, said.len),
        at: run.at,
    }
}

// Where the next answer goes: behind those that wait, which are written first where it might not fit behind them.
fn make_room(out: &[u8], used: usize) -> usize
    requires { used ≤ length out.now }
    ensures within { result ≤ length out.now }
    ensures room { RoomAt (length out.now) result }
{
    if ROOM <= out.len() - used {
        return used;
    }
    write(out, used);
    0
}

// Where an answer of len bytes ends that starts at a place: in the buffer, as far as it was put there.
fn reach(out: &[u8], start: usize, len: usize) -> usize
    requires { start ≤ length out.now }
    ensures { result ≡ start + min len (length out.now - start) }
{
    start + len.min(out.len() - start)
}

// Answers the line that no line feed ends, if there is one, and writes the answer.
fn answer_last(
    bytes: &mut [u8],
    phys: &mut [u64],
    nums: &mut [u64],
    names: &mut [u8],
    dirs: &mut [u8],
    run: Progress,
    line: &[u8],
    out: &mut [u8],
)
    requires { InBuffers (length line.now) (length out.old) run }
{
    let held = run.held;
    if held != 0 {
        let r = reply(bytes, phys, nums, names, dirs, run, line, out);
        write(out, r.used);
    }
}

// Writes the answers that wait.
fn write(out: &[u8], used: usize)
    requires { used ≤ length out.now }
{
    let _ = io::write_all(STDOUT_FILENO, &out[..used]);
}
