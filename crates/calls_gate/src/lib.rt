// What every public call has in common, before anything of its own: the answers and their numbers, the calls, what a call tells, and 01's
// "Order: 1, 2, 3, then these" as one table with its tests. Any input may come. A call that is refused here leaves what it was lent as it
// was, but that a refused mount leaves the record and the rows zero. Crate calls makes the call that is not refused.
#![tactic(auto)]

ghost use Rattle.std.specs.Prelude.{◌≡◌};
ghost use Rattle.pool_state.specs.State.{bufs};
ghost use Rattle.pool_steps.specs.World.{before};
ghost use Rattle.calls_gate.specs.Answers.{number_of, answer_of, refused_as};
ghost use Rattle.calls_gate.specs.Table.{opening, takes, takes_of, rows_b, text_if, refusal_of, refused_b};
ghost use Rattle.calls_gate.specs.Replies.{silently};

use device::{Geometry, Place};
use limits::{DIR_WIDTH, MAX_PATH, ROW_WIDTH};
use pool_state::Pool;

// ---- answers

// What a call came to; `number` gives the number of the specification.
#[derive(Clone, Copy)]
pub enum Answer {
    Done,
    NotPool,
    WrongShape,
    NotText,
    TooLong,
    NotFound,
    Stale,
    NoSlot,
    NoDirRow,
    NoGeneration,
    Failed,
    Short,
    TooMany,
    TooSmall,
}

// The specification's number of an answer. A function, since contracts and callers name it; so is `answer_of`.
#[tactic(auto, unfolding(crate::specs::Answers::number_of))]
pub fn number(answer: Answer) -> u8
    ensures { result ≡ number_of answer }
{
    match answer {
        Answer::Done => 0,
        Answer::NotPool => 1,
        Answer::WrongShape => 2,
        Answer::NotText => 3,
        Answer::TooLong => 4,
        Answer::NotFound => 5,
        Answer::Stale => 6,
        Answer::NoSlot => 7,
        Answer::NoDirRow => 8,
        Answer::NoGeneration => 9,
        Answer::Failed => 10,
        Answer::Short => 11,
        Answer::TooMany => 12,
        Answer::TooSmall => 13,
    }
}

// The answer of a number up to 13.
#[tactic(auto, unfolding(crate::specs::Answers::answer_of))]
pub fn answer_of(out: u8) -> Answer
    ensures { result ≡ answer_of out }
{
    match out {
        0 => Answer::Done,
        1 => Answer::NotPool,
        2 => Answer::WrongShape,
        3 => Answer::NotText,
        4 => Answer::TooLong,
        5 => Answer::NotFound,
        6 => Answer::Stale,
        7 => Answer::NoSlot,
        8 => Answer::NoDirRow,
        9 => Answer::NoGeneration,
        10 => Answer::Failed,
        11 => Answer::Short,
        12 => Answer::TooMany,
        _ => Answer::TooSmall,
    }
}

// ---- calls

// How a file is opened for writing: with what it holds kept, or truncated.
#[derive(Clone, Copy)]
pub struct Opening {
    pub keep: bool,
}

// An opening that keeps or truncates, and asks nothing else.
pub fn keeping(keep: bool) -> Opening
    ensures { result ≡ opening keep }
{
    Opening { keep: keep }
}

// A call with its numbers. Beside it come two runs of bytes and a buffer: `first` is the path, or the bytes that are written; `second` is
// the path that a file is renamed to; `buf` is what a read or a listing fills.
#[derive(Clone, Copy)]
pub enum Call {
    Mount {
        slots: usize,
    },
    Adopt {
        slots: usize,
    },
    OpenWrite {
        how: Opening,
    },
    OpenRead,
    ReadAt {
        slot: usize,
        generation: u64,
        at: u64,
    },
    WriteAt {
        slot: usize,
        generation: u64,
        at: u64,
    },
    SetLen {
        slot: usize,
        generation: u64,
        len: u64,
    },
    FileLen {
        slot: usize,
        generation: u64,
    },
    Sync {
        slot: usize,
        generation: u64,
    },
    SyncDir,
    Rename,
    RemoveFile,
    CreateDirAll,
    ReadDir,
    Exists,
    Metadata,
}

// What a call tells: a handle and a length, how many bytes it gave, yes or no. What it does not tell is zero.
#[derive(Clone, Copy)]
pub struct Told {
    pub slot: usize,
    pub generation: u64,
    pub len: u64,
    pub count: usize,
    pub yes: bool,
}

// What a call tells that tells nothing.
pub const NOTHING: Told = Told {
    slot: 0,
    generation: 0,
    len: 0,
    count: 0,
    yes: false,
};

// What a call came to that was not refused here: its number, what it tells, and the place and the record after it.
#[derive(Clone, Copy)]
pub struct Went {
    pub out: u8,
    pub told: Told,
    pub place: Place,
    pub pool: Pool,
}

// What a call comes to: its answer, what it tells, and the place and the record after it.
#[derive(Clone, Copy)]
pub struct Reply {
    pub answer: Answer,
    pub told: Told,
    pub place: Place,
    pub pool: Pool,
}

// ---- the table

// What is tested of a call: whether it mounts, which of its runs are paths, and whether it writes.
#[derive(Clone, Copy)]
pub struct Takes {
    pub mounts: bool,
    pub first: bool,
    pub second: bool,
    pub writes: bool,
}

fn row(mounts: bool, first: bool, second: bool, writes: bool) -> Takes
    ensures { result ≡ takes mounts first second writes }
{
    Takes {
        mounts: mounts,
        first: first,
        second: second,
        writes: writes,
    }
}

// The row of a call.
pub fn takes_of(call: Call) -> Takes
    ensures { result ≡ takes_of call }
{
    match call {
        Call::Mount { .. } => row(true, false, false, false),
        Call::Adopt { .. } => row(false, false, false, false),
        Call::OpenWrite { .. } => row(false, true, false, true),
        Call::OpenRead => row(false, true, false, false),
        Call::ReadAt { .. } => row(false, false, false, false),
        Call::WriteAt { .. } => row(false, false, false, true),
        Call::SetLen { .. } => row(false, false, false, true),
        Call::FileLen { .. } => row(false, false, false, false),
        Call::Sync { .. } => row(false, false, false, true),
        Call::SyncDir => row(false, true, false, true),
        Call::Rename => row(false, true, true, true),
        Call::RemoveFile => row(false, true, false, true),
        Call::CreateDirAll => row(false, true, false, true),
        Call::ReadDir => row(false, true, false, false),
        Call::Exists => row(false, true, false, false),
        Call::Metadata => row(false, true, false, false),
    }
}

// ---- the tests

// Whether the row buffers are so many rows each, and not too many.
fn rows_ok(nums: &[u64], names: &[u8], dirs: &[u8]) -> bool
    ensures { result ≡ rows_b nums.now names.now dirs.now }
{
    let cap = nums.len() / ROW_WIDTH;
    let dir_cap = dirs.len() / DIR_WIDTH;
    if 64 < cap {
        return false;
    }
    if 256 < dir_cap {
        return false;
    }
    if nums.len() != cap * ROW_WIDTH {
        return false;
    }
    if names.len() != cap * MAX_PATH {
        return false;
    }
    dirs.len() == dir_cap * DIR_WIDTH
}

// Whether a run is text, where it is a path.
#[tactic(auto, unfolding(crate::specs::Table::text_if))]
fn path_ok(asked: bool, path: &[u8]) -> bool
    ensures { result ≡ text_if asked path.now }
{
    !asked || text::is_text(path)
}

// The answer of the first refusal, if there is one.
pub fn refusal(
    bytes: &[u8],
    phys: &[u64],
    geometry: Geometry,
    place: Place,
    nums: &[u64],
    names: &[u8],
    dirs: &[u8],
    pool: Pool,
    call: Call,
    first: &[u8],
    second: &[u8],
) -> Option<Answer>
    ensures { result
        ≡ refused_as (refusal_of geometry call first.now second.now
        (before bytes.now phys.now place nums.now names.now dirs.now pool)) }
{
    let takes = takes_of(call);
    if takes.mounts {
        if !device::shape_ok(bytes, phys, geometry) {
            return Some(Answer::WrongShape);
        }
        if !rows_ok(nums, names, dirs) {
            return Some(Answer::WrongShape);
        }
        return None;
    }
    if !pool_test::pool_ok(nums, names, dirs, pool) {
        return Some(Answer::NotPool);
    }
    if !device::shape_ok(bytes, phys, geometry) {
        return Some(Answer::WrongShape);
    }
    if phys.len() < pool.held {
        return Some(Answer::WrongShape);
    }
    if !path_ok(takes.first, first) {
        return Some(Answer::NotText);
    }
    if !path_ok(takes.second, second) {
        return Some(Answer::NotText);
    }
    None
}

// A reply that tells nothing but its answer.
pub fn silent(answer: Answer, place: Place, pool: Pool) -> Reply
    ensures { result ≡ silently answer place pool }
{
    Reply {
        answer: answer,
        told: NOTHING,
        place: place,
        pool: pool,
    }
}

// The reply of a refusal: at a mount the record and the rows become zero.
pub fn refuse(
    answer: Answer,
    place: Place,
    nums: &mut [u64],
    names: &mut [u8],
    dirs: &mut [u8],
    pool: Pool,
    call: Call,
) -> Reply
    ensures told { result ≡ silently answer place result.pool }
    ensures left { bufs result.pool nums.new names.new dirs.new
        ≡ refused_b call (bufs pool nums.old names.old dirs.old) }
{
    let takes = takes_of(call);
    if takes.mounts {
        slot_rows::clear_rows(nums, names);
        dirs.fill(0);
        let zero = mount::zero();
        return silent(answer, place, zero);
    }
    silent(answer, place, pool)
}
