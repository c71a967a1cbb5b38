// Inputs that no call makes, tried through the pool's face: every clause of what a pool is broken once, alone, and each call on a device of
// each wrong shape. A line has what was tried, the number that came back for it, and the number for an input beside it that is as it should
// be; the file stdout has the specification's. Other inputs that nobody should give (plans, places, handles and paths of any kind) can be
// put into scripts, and are replayed; a script's record and shape are always its own.
#![tactic(auto)]

ghost use Rattle.std.specs.Prelude.{◌≡◌, length};

use calls_gate::{Call, Reply};
use device::{Geometry, Place};
use pool_state::Pool;

// Standard output's number at the C library.
const STDOUT_FILENO: i32 = 1;

// ---- what is lent

// How many cells of each buffer are lent.
#[derive(Clone, Copy)]
struct Lengths {
    bytes: usize,
    phys: usize,
    nums: usize,
    names: usize,
    dirs: usize,
}

// What is lent beside the device's bytes: the slot size, so much of the physical lengths, the rows and the directories, and the record.
#[derive(Clone, Copy)]
struct Setting {
    size: usize,
    lengths: Lengths,
    phys: [u64; 5],
    nums: [u64; 268],
    names: [u8; 32160],
    dirs: [u8; 123874],
    pool: Pool,
}

// What a call answered, and what it left.
#[derive(Clone, Copy)]
struct Answered {
    number: u8,
    left: Setting,
}

// A setting with no record, of a slot size and so much of each buffer.
fn blank(size: usize, lengths: Lengths) -> Setting {
    Setting {
        size: size,
        lengths: lengths,
        phys: [0u64; 5],
        nums: [0u64; 268],
        names: [0u8; 32160],
        dirs: [0u8; 123874],
        pool: mount::zero(),
    }
}

// Makes a call on the part of the buffers that is lent, under an empty plan.
fn on_parts(
    bytes: &mut [u8],
    phys: &mut [u64],
    nums: &mut [u64],
    names: &mut [u8],
    dirs: &mut [u8],
    lengths: Lengths,
    size: usize,
    pool: Pool,
    call: Call,
    path: &[u8],
) -> Reply {
    let b = lengths.bytes.min(bytes.len());
    let p = lengths.phys.min(phys.len());
    let n = lengths.nums.min(nums.len());
    let m = lengths.names.min(names.len());
    let d = lengths.dirs.min(dirs.len());
    let mut buf = [0u8; 1];
    pool_numbers::on_numbers(
        &mut bytes[0..b],
        &mut phys[0..p],
        Geometry { size: size },
        b"",
        Place { at: 0, last: 0 },
        &mut nums[0..n],
        &mut names[0..m],
        &mut dirs[0..d],
        pool,
        call,
        path,
        b"g",
        &mut buf,
    )
}

// Makes a call in a setting.
fn ask(bytes: &mut [u8], s: Setting, call: Call, path: &[u8]) -> Answered {
    let mut phys = s.phys;
    let mut nums = s.nums;
    let mut names = s.names;
    let mut dirs = s.dirs;
    let lengths = s.lengths;
    let pool = s.pool;
    let reply = on_parts(
        bytes, &mut phys, &mut nums, &mut names, &mut dirs, lengths, s.size, pool, call, path,
    );
    let answer = reply.answer;
    let after = reply.pool;
    Answered {
        number: calls_gate::number(answer),
        left: Setting {
            size: s.size,
            lengths: lengths,
            phys: phys,
            nums: nums,
            names: names,
            dirs: dirs,
            pool: after,
        },
    }
}

// Makes a call that the setting is made with, and prints its number.
fn made(name: &[u8], bytes: &mut [u8], s: Setting, call: Call, path: &[u8]) -> Setting {
    let answered = ask(bytes, s, call, path);
    say(name);
    say(b": ");
    number(answered.number);
    say(b"\n");
    answered.left
}

// The device's bytes: room for one slot of 2^20 + 512.
fn card() -> [u8; 1049088]
    ensures { 1049088 ≡ length result }
{
    [0; 1049088]
}

fn main() {
    let mut bytes = card();
    records(&mut bytes);
    shapes(&mut bytes);
}

// ---- records

// What is changed: a cell of the rows or of the queue, a number of the record, how much is lent, or a few of them at once.
#[derive(Clone, Copy)]
enum Spot {
    Number(usize),
    Name(usize),
    Dir(usize),
    DirLength(usize),
    Queue(usize),
    Held,
    Dirs,
    Free,
    Counter,
    Rows,
    DirRows,
    NumsLent,
    NamesLent,
    DirsLent,
    RowsBoth,
    DirRowsBoth,
    Blank,
    Misshaped,
}

// Five slots of 512 bytes, five slot rows and seven directory rows.
fn five() -> Setting {
    let lengths = Lengths {
        bytes: 2560,
        phys: 5,
        nums: 20,
        names: 2400,
        dirs: 3374,
    };
    blank(512, lengths)
}

// Four slots of five are mounted, two hold a/b and a//c, and six directories are there: a, de/f, de, a/m, k, gh.
// Not inlined, as `shapes` is not: main's frame would hold the settings of both, of 156 KB each.
#[inline(never)]
fn records(bytes: &mut [u8]) {
    let s = files(bytes, five());
    let s = parents(bytes, s);
    let s = folders(bytes, s);
    counts(bytes, &s);
    parts(bytes, &s);
    slot_rows(bytes, &s);
    queue(bytes, &s);
    dir_rows(bytes, &s);
    refused_mount(bytes, s);
}

// The mount, and the two files.
fn files(bytes: &mut [u8], s: Setting) -> Setting {
    let s = made(b"mount", bytes, s, Call::Mount { slots: 4 }, b"");
    let s = opened(b"open_write a/b", bytes, s, b"a/b");
    opened(b"open_write a//c", bytes, s, b"a//c")
}

fn opened(name: &[u8], bytes: &mut [u8], s: Setting, path: &[u8]) -> Setting {
    let how = calls_gate::keeping(false);
    made(name, bytes, s, Call::OpenWrite { how: how }, path)
}

// Directories below others.
fn parents(bytes: &mut [u8], s: Setting) -> Setting {
    let s = folder(b"create_dir_all de/f", bytes, s, b"de/f");
    folder(b"create_dir_all a/m", bytes, s, b"a/m")
}

// Directories below none.
fn folders(bytes: &mut [u8], s: Setting) -> Setting {
    let s = folder(b"create_dir_all k", bytes, s, b"k");
    folder(b"create_dir_all gh", bytes, s, b"gh")
}

fn folder(name: &[u8], bytes: &mut [u8], s: Setting, path: &[u8]) -> Setting {
    made(name, bytes, s, Call::CreateDirAll, path)
}

// Prints a name, and asks whether a/b exists: with a number at a spot with which the input is no pool, and with one with which it is.
fn attempt(bytes: &mut [u8], s: &Setting, name: &[u8], spot: Spot, bad: u64, good: u64) {
    say(name);
    say(b": ");
    number(exists_with(bytes, s, spot, bad));
    say(b", good ");
    number(exists_with(bytes, s, spot, good));
    say(b"\n");
}

// What the question whether a/b exists comes to with a number at a spot. Not inlined: so one setting at a time is made for it.
#[inline(never)]
fn exists_with(bytes: &mut [u8], s: &Setting, spot: Spot, x: u64) -> u8 {
    ask(bytes, put(*s, spot, x), Call::Exists, b"a/b").number
}

// Counts above their limits, and the counter.
fn counts(bytes: &mut [u8], s: &Setting) {
    attempt(bytes, s, b"65 slot rows", Spot::RowsBoth, 65, 64);
    attempt(
        bytes,
        s,
        b"67 slot rows, which no records hold",
        Spot::RowsBoth,
        67,
        64,
    );
    attempt(bytes, s, b"257 directory rows", Spot::DirRowsBoth, 257, 256);
    attempt(
        bytes,
        s,
        b"more slots held than slot rows",
        Spot::Held,
        6,
        5,
    );
    attempt(
        bytes,
        s,
        b"more directories held than directory rows",
        Spot::Dirs,
        8,
        7,
    );
    attempt(bytes, s, b"a queue of 65", Spot::Free, 65, 2);
    attempt(bytes, s, b"counter 0, and no slot held", Spot::Blank, 0, 1);
    attempt(bytes, s, b"counter at a generation", Spot::Counter, 2, 3);
    attempt(
        bytes,
        s,
        b"counter above 2^63",
        Spot::Counter,
        9223372036854775809,
        9223372036854775808,
    );
    attempt(
        bytes,
        s,
        b"counter 0, and slots of 513 bytes",
        Spot::Misshaped,
        0,
        3,
    );
}

// Rows of another number than the record says.
fn parts(bytes: &mut [u8], s: &Setting) {
    attempt(
        bytes,
        s,
        b"more slot rows lent than the record says",
        Spot::Rows,
        4,
        5,
    );
    attempt(bytes, s, b"fewer slot rows lent", Spot::Rows, 6, 5);
    attempt(bytes, s, b"more directory rows lent", Spot::DirRows, 6, 7);
    attempt(bytes, s, b"fewer directory rows lent", Spot::DirRows, 8, 7);
    attempt(bytes, s, b"a number too few lent", Spot::NumsLent, 19, 20);
    attempt(
        bytes,
        s,
        b"a byte of the paths too few lent",
        Spot::NamesLent,
        2399,
        2400,
    );
    attempt(
        bytes,
        s,
        b"a byte of the directories too few lent",
        Spot::DirsLent,
        3373,
        3374,
    );
}

// Slot rows: row 0 holds a/b, row 1 holds a//c, rows 2 and 3 are unbound, row 4 is past the count.
fn slot_rows(bytes: &mut [u8], s: &Setting) {
    attempt(
        bytes,
        s,
        b"a number in a row past the count",
        Spot::Number(19),
        1,
        0,
    );
    attempt(
        bytes,
        s,
        b"a path's byte past the count",
        Spot::Name(1920),
        1,
        0,
    );
    attempt(bytes, s, b"mark 3", Spot::Number(0), 3, 1);
    attempt(bytes, s, b"a path of 481 bytes", Spot::Number(1), 481, 480);
    attempt(bytes, s, b"a byte behind a path", Spot::Name(3), 1, 0);
    attempt(
        bytes,
        s,
        b"an unbound slot with a length",
        Spot::Number(10),
        1,
        0,
    );
    attempt(
        bytes,
        s,
        b"an unbound slot with a path",
        Spot::Number(9),
        1,
        0,
    );
    attempt(bytes, s, b"a path that is no text", Spot::Name(0), 255, 97);
    attempt(bytes, s, b"a//b beside a/b", Spot::Name(483), 98, 99);
}

// The queue: slots 2 and 3.
fn queue(bytes: &mut [u8], s: &Setting) {
    attempt(bytes, s, b"a bound slot in the queue", Spot::Queue(0), 0, 2);
    attempt(bytes, s, b"a slot twice in the queue", Spot::Queue(1), 2, 3);
    attempt(
        bytes,
        s,
        b"a slot out of range in the queue",
        Spot::Queue(1),
        4,
        3,
    );
    attempt(bytes, s, b"a cell behind the queue", Spot::Queue(2), 1, 0);
}

// Directory rows: a, de/f, de, a/m, k, gh, and one past the count.
fn dir_rows(bytes: &mut [u8], s: &Setting) {
    attempt(
        bytes,
        s,
        b"a byte in a directory row past the count",
        Spot::Dir(2894),
        1,
        0,
    );
    attempt(bytes, s, b"directory g/", Spot::Dir(2413), 47, 104);
    attempt(bytes, s, b"directory a twice", Spot::Dir(1930), 97, 107);
    attempt(
        bytes,
        s,
        b"directory xe/f without xe",
        Spot::Dir(484),
        120,
        100,
    );
    attempt(
        bytes,
        s,
        b"directory x/m without x",
        Spot::Dir(1448),
        120,
        97,
    );
    attempt(
        bytes,
        s,
        b"a directory of 481 bytes",
        Spot::DirLength(1928),
        481,
        480,
    );
    attempt(
        bytes,
        s,
        b"a byte behind a directory",
        Spot::Dir(1931),
        1,
        0,
    );
}

// The setting with another number at a spot. An index past the end changes nothing.
fn put(s: Setting, spot: Spot, x: u64) -> Setting {
    let mut r = s;
    match spot {
        Spot::Number(i) => {
            if i < r.nums.len() {
                r.nums[i] = x;
            }
        }
        Spot::Name(i) => {
            if i < r.names.len() {
                r.names[i] = (x % 256) as u8;
            }
        }
        Spot::Dir(i) => {
            if i < r.dirs.len() {
                r.dirs[i] = (x % 256) as u8;
            }
        }
        Spot::DirLength(i) => {
            if i < r.dirs.len() - 1 {
                r.dirs[i] = (x % 256) as u8;
                r.dirs[i + 1] = (x / 256 % 256) as u8;
            }
        }
        Spot::Queue(i) => {
            if i < r.pool.queue.len() {
                r.pool.queue[i] = (x % 256) as u8;
            }
        }
        Spot::Held => r.pool.held = x as usize,
        Spot::Dirs => r.pool.dirs = x as usize,
        Spot::Free => r.pool.free = x as usize,
        Spot::Counter => r.pool.counter = x,
        Spot::Rows => r.pool.chosen.rows = x as usize,
        Spot::DirRows => r.pool.chosen.dir_rows = x as usize,
        Spot::NumsLent => r.lengths.nums = x as usize,
        Spot::NamesLent => r.lengths.names = x as usize,
        Spot::DirsLent => r.lengths.dirs = x as usize,
        Spot::RowsBoth => {
            let n = (x as usize).min(67);
            r.pool.chosen.rows = n;
            r.lengths.nums = n * 4;
            r.lengths.names = n * 480;
        }
        Spot::DirRowsBoth => {
            let n = (x as usize).min(257);
            r.pool.chosen.dir_rows = n;
            r.lengths.dirs = n * 482;
        }
        Spot::Blank => {
            r = five();
            r.pool.chosen.rows = 5;
            r.pool.chosen.dir_rows = 7;
            r.pool.counter = x;
        }
        _ => {
            r.size = 513;
            r.lengths.bytes = 2565;
            r.pool.counter = x;
        }
    }
    r
}

// ---- a refused mount

// A mount that is refused takes the pool that is there: record and rows are zero after it.
fn refused_mount(bytes: &mut [u8], s: Setting) {
    let refused = ask(
        bytes,
        put(s, Spot::Misshaped, 3),
        Call::Mount { slots: 4 },
        b"",
    );
    say(b"before a mount on slots of 513 bytes");
    tell(s);
    say(b"mount on slots of 513 bytes: ");
    number(refused.number);
    say(b", and after it");
    tell(refused.left);
}

// Prints the counter, the first mark, and the greatest byte of the paths and of the directories.
fn tell(s: Setting) {
    let pool = s.pool;
    let nums = s.nums;
    let names = s.names;
    let dirs = s.dirs;
    say(b": counter ");
    let _ = io::print_decimal(STDOUT_FILENO, pool.counter);
    say(b", mark ");
    let _ = io::print_decimal(STDOUT_FILENO, nums[0]);
    say(b", greatest bytes ");
    number(text::greatest(&names));
    say(b" ");
    number(text::greatest(&dirs));
    say(b"\n");
}

// ---- shapes

// One slot of 1,024 bytes, a row for it and a directory row.
fn one() -> Setting {
    let lengths = Lengths {
        bytes: 1024,
        phys: 1,
        nums: 4,
        names: 480,
        dirs: 482,
    };
    blank(1024, lengths)
}

// A pool of one slot that holds f, under generation 1. Each call is made on each wrong shape, and then on the device that is
// as it should be.
#[inline(never)]
fn shapes(bytes: &mut [u8]) {
    say(
        b"slots of 511, of 513, of 0, of 1049088 bytes; a byte too few, a byte too many; a length above the size; no slot\n",
    );
    let mut s = made(b"mount", bytes, one(), Call::Mount { slots: 1 }, b"");
    calls(bytes, &mut s);
}

// Makes every call, each on what the one before it left. The first run of bytes is the file's name, which a rename changes to g.
fn calls(bytes: &mut [u8], s: &mut Setting) {
    let how = calls_gate::keeping(true);
    misshaped(bytes, s, b"open_write", Call::OpenWrite { how }, b"f");
    misshaped(bytes, s, b"open_read", Call::OpenRead, b"f");
    misshaped(
        bytes,
        s,
        b"write_at",
        Call::WriteAt {
            slot: 0,
            generation: 1,
            at: 0,
        },
        b"f",
    );
    misshaped(
        bytes,
        s,
        b"read_at",
        Call::ReadAt {
            slot: 0,
            generation: 1,
            at: 0,
        },
        b"f",
    );
    misshaped(
        bytes,
        s,
        b"set_len",
        Call::SetLen {
            slot: 0,
            generation: 1,
            len: 1,
        },
        b"f",
    );
    misshaped(
        bytes,
        s,
        b"file_len",
        Call::FileLen {
            slot: 0,
            generation: 1,
        },
        b"f",
    );
    misshaped(
        bytes,
        s,
        b"sync",
        Call::Sync {
            slot: 0,
            generation: 1,
        },
        b"f",
    );
    misshaped(bytes, s, b"sync_dir", Call::SyncDir, b"f");
    misshaped(bytes, s, b"create_dir_all", Call::CreateDirAll, b"f");
    misshaped(bytes, s, b"read_dir", Call::ReadDir, b"f");
    misshaped(bytes, s, b"exists", Call::Exists, b"f");
    misshaped(bytes, s, b"metadata", Call::Metadata, b"f");
    misshaped(bytes, s, b"rename", Call::Rename, b"f");
    misshaped(bytes, s, b"remove_file", Call::RemoveFile, b"g");
    misshaped(bytes, s, b"adopt", Call::Adopt { slots: 0 }, b"f");
    misshaped(bytes, s, b"mount", Call::Mount { slots: 1 }, b"f");
}

// One call on each shape, and then on the device as it should be; what that one left stays.
fn misshaped(bytes: &mut [u8], s: &mut Setting, name: &[u8], call: Call, path: &[u8]) {
    say(name);
    say(b":");
    on_shapes(bytes, s, call, path);
    let good = ask(bytes, *s, call, path);
    say(b", good ");
    number(good.number);
    say(b"\n");
    *s = good.left;
}

// Prints what a call answers on each wrong shape.
fn on_shapes(bytes: &mut [u8], s: &Setting, call: Call, path: &[u8]) {
    for j in 0..8 {
        let bad = ask(bytes, shaped(*s, j), call, path);
        say(b" ");
        number(bad.number);
    }
}

// The setting with the device of a wrong shape.
fn shaped(s: Setting, j: usize) -> Setting {
    let mut r = s;
    r.phys = [0u64; 5];
    match j {
        0 => sized(r, 511),
        1 => sized(r, 513),
        2 => sized(r, 0),
        3 => sized(r, 1049088),
        4 => {
            r.lengths.bytes = 1023;
            r
        }
        5 => {
            r.lengths.bytes = 1025;
            r
        }
        6 => {
            r.phys[0] = 1025;
            r
        }
        _ => {
            r.lengths.bytes = 0;
            r.lengths.phys = 0;
            r
        }
    }
}

// The setting with one slot of so many bytes.
fn sized(s: Setting, size: usize) -> Setting {
    let mut r = s;
    r.size = size;
    r.lengths.bytes = size;
    r
}

// Prints a number.
fn number(n: u8) {
    let _ = io::print_decimal(STDOUT_FILENO, n as u64);
}

fn say(s: &[u8]) {
    let _ = io::write_all(STDOUT_FILENO, s);
}
