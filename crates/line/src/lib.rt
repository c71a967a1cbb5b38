// What the command program does with one line: 01, "The command program". The device has slots of 1,024 bytes and no plan. The line's
// calls are made on what is lent, by the one function of the public calls, and its answer is put into a lent buffer; a buffer that is too
// short gets the front of it, and the whole length is given back. Nothing is refused: a line of no form is answered too. The Rust has no
// such program.
#![tactic(auto)]

ghost use Rattle.std.specs.Prelude.{◌≡◌, []};
ghost use Rattle.pool_steps.specs.World.{before, after};
ghost use Rattle.output.specs.Writer.{shown};
ghost use Rattle.calls_gate.specs.Answers.{number_of};
ghost use Rattle.calls_gate.specs.Replies.{came};
ghost use Rattle.line.specs.Lines.{card, on_card, printed, prints, create_t, sync_t, number_t, line_t};

use calls_gate::{Call, Reply};
use device::{Geometry, Place};
use line_words::Command;
use pool_state::Pool;

// How long the answer is; the place and the record after the line.
#[derive(Clone, Copy)]
pub struct AfterLine {
    pub len: usize,
    pub place: Place,
    pub pool: Pool,
}

// The device: slots of 1,024 bytes.
fn geometry() -> Geometry
    ensures { result ≡ card }
{
    Geometry { size: 1024 }
}

// Makes a call on the program's device.
pub fn ask(
    bytes: &mut [u8],
    phys: &mut [u64],
    place: Place,
    nums: &mut [u64],
    names: &mut [u8],
    dirs: &mut [u8],
    pool: Pool,
    call: Call,
    first: &[u8],
    second: &[u8],
) -> Reply
    ensures { came (number_of result.answer) result.told (after bytes.new phys.new result.place nums.new names.new dirs.new result.pool) []
        ≡ on_card call first.now second.now (before bytes.old phys.old place nums.old names.old dirs.old pool) }
{
    let mut none = [0u8; 0];
    calls::make(
        bytes,
        phys,
        geometry(),
        b"",
        place,
        nums,
        names,
        dirs,
        pool,
        call,
        first,
        second,
        &mut none,
    )
}

// Makes a call, and answers it by its number.
fn end(
    bytes: &mut [u8],
    phys: &mut [u64],
    place: Place,
    nums: &mut [u64],
    names: &mut [u8],
    dirs: &mut [u8],
    pool: Pool,
    call: Call,
    first: &[u8],
    second: &[u8],
    out: &mut [u8],
) -> AfterLine
    ensures { printed (shown out.new result.len) (after bytes.new phys.new result.place nums.new names.new dirs.new result.pool)
        ≡ prints (number_t call first.now second.now (before bytes.old phys.old place nums.old names.old dirs.old pool))
        out.old }
{
    let done = ask(
        bytes, phys, place, nums, names, dirs, pool, call, first, second,
    );
    let answer = done.answer;
    let after = done.place;
    let left = done.pool;
    AfterLine {
        len: line_answers::say_end(out, calls_gate::number(answer)),
        place: after,
        pool: left,
    }
}

// `create P`: a truncating open.
fn create(
    bytes: &mut [u8],
    phys: &mut [u64],
    place: Place,
    nums: &mut [u64],
    names: &mut [u8],
    dirs: &mut [u8],
    pool: Pool,
    path: &[u8],
    out: &mut [u8],
) -> AfterLine
    ensures { printed (shown out.new result.len) (after bytes.new phys.new result.place nums.new names.new dirs.new result.pool)
        ≡ prints (create_t path.now (before bytes.old phys.old place nums.old names.old dirs.old pool)) out.old }
{
    let call = Call::OpenWrite {
        how: calls_gate::keeping(false),
    };
    let done = ask(bytes, phys, place, nums, names, dirs, pool, call, path, b"");
    let answer = done.answer;
    let told = done.told;
    let after = done.place;
    let left = done.pool;
    let number = calls_gate::number(answer);
    AfterLine {
        len: line_answers::say_open(out, number, told.slot, told.generation, told.len),
        place: after,
        pool: left,
    }
}

// `sync P`: opens for reading, then syncs.
fn sync(
    bytes: &mut [u8],
    phys: &mut [u64],
    place: Place,
    nums: &mut [u64],
    names: &mut [u8],
    dirs: &mut [u8],
    pool: Pool,
    path: &[u8],
    out: &mut [u8],
) -> AfterLine
    ensures { printed (shown out.new result.len) (after bytes.new phys.new result.place nums.new names.new dirs.new result.pool)
        ≡ prints (sync_t path.now (before bytes.old phys.old place nums.old names.old dirs.old pool)) out.old }
{
    let read = Call::OpenRead;
    let opened = ask(bytes, phys, place, nums, names, dirs, pool, read, path, b"");
    let answer = opened.answer;
    let told = opened.told;
    let after = opened.place;
    let left = opened.pool;
    let no = calls_gate::number(answer);
    if no != 0 {
        return AfterLine {
            len: line_answers::say_no(out, no),
            place: after,
            pool: left,
        };
    }
    let call = Call::Sync {
        slot: told.slot,
        generation: told.generation,
    };
    end(
        bytes, phys, after, nums, names, dirs, left, call, b"", b"", out,
    )
}

// Does what the line asks for, and answers it.
pub fn answer_line(
    bytes: &mut [u8],
    phys: &mut [u64],
    place: Place,
    nums: &mut [u64],
    names: &mut [u8],
    dirs: &mut [u8],
    pool: Pool,
    line: &[u8],
    out: &mut [u8],
) -> AfterLine
    ensures { printed (shown out.new result.len) (after bytes.new phys.new result.place nums.new names.new dirs.new result.pool)
        ≡ prints (line_t line.now (before bytes.old phys.old place nums.old names.old dirs.old pool)) out.old }
{
    let command = line_words::parse(line);
    match command {
        Command::Create(i) => {
            return create(bytes, phys, place, nums, names, dirs, pool, &line[i..], out);
        }
        Command::Sync(i) => {
            return sync(bytes, phys, place, nums, names, dirs, pool, &line[i..], out);
        }
        Command::Remove(i) => {
            let call = Call::RemoveFile;
            return end(
                bytes,
                phys,
                place,
                nums,
                names,
                dirs,
                pool,
                call,
                &line[i..],
                b"",
                out,
            );
        }
        Command::Move(i, j) => {
            let call = Call::Rename;
            return end(
                bytes,
                phys,
                place,
                nums,
                names,
                dirs,
                pool,
                call,
                &line[i..j],
                &line[j + 1..],
                out,
            );
        }
        Command::Dump => {
            return AfterLine {
                len: line_dump::say_dump(nums, names, dirs, pool, out),
                place: place,
                pool: pool,
            };
        }
        Command::What => {
            return AfterLine {
                len: line_answers::say_what(out),
                place: place,
                pool: pool,
            };
        }
    }
}
