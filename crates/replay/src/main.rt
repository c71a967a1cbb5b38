// Replays recorded scripts, with no Rust at hand: standard input is a run of entries, each a script and the output that was recorded for it
// (u32 length and bytes, twice, little-endian). Runs each script by `script::pool_script`, says which outputs differ, and at the end how
// many scripts there were. What it prints can't be said in a contract, and is compared with the file stdout.
#![tactic(auto)]

ghost use Rattle.std.specs.Prelude.{◌≤◌, length, IfSome};

// Standard input's and standard output's numbers at the C library.
const STDIN_FILENO: i32 = 0;

const STDOUT_FILENO: i32 = 1;

// How many entries were replayed, and how many of them differ.
#[derive(Clone, Copy)]
struct Tally {
    scripts: u64,
    differ: u64,
}

fn main() {
    let tally = replay_all();
    io::print_decimal(STDOUT_FILENO, tally.scripts);
    io::write_all(STDOUT_FILENO, b" scripts replayed, ");
    io::print_decimal(STDOUT_FILENO, tally.differ);
    io::write_all(STDOUT_FILENO, b" differ\n");
}

// A proved loop has to end, and nothing says that the input does: so it takes as many turns at most as no run uses up.
fn replay_all() -> Tally {
    let mut tally = Tally {
        scripts: 0,
        differ: 0,
    };
    for _ in 0..1_000_000_000u64 {
        let Some(next) = replay(tally) else {
            break;
        };
        tally = next;
    }
    tally
}

// The tally with the next entry in it, if its output is there. A script that does not fit counts as an empty one; of one that is cut off,
// where the input goes on behind it, what did not come counts as zeros.
fn replay(tally: Tally) -> Option<Tally> {
    let mut script = io::large_buffer();
    let mut recorded = io::large_buffer();
    let mut out = io::large_buffer();
    let n = read_len(script.len()).unwrap_or(0);
    io::read_full(STDIN_FILENO, &mut script[..n]);
    let m = read_run(&mut recorded)?;
    let len = script::pool_script(&script[..n], &mut out);
    let same = len <= out.len() && out[..len] == recorded[..m];
    if !same {
        tell(tally.scripts, len, m);
    }
    Some(Tally {
        scripts: tally.scripts.wrapping_add(1),
        differ: tally.differ.wrapping_add(u64::from(!same)),
    })
}

// Prints that a script came out otherwise.
fn tell(number: u64, n: usize, m: usize) {
    io::write_all(STDOUT_FILENO, b"script ");
    io::print_decimal(STDOUT_FILENO, number);
    io::write_all(STDOUT_FILENO, b": ");
    io::print_decimal(STDOUT_FILENO, n as u64);
    io::write_all(STDOUT_FILENO, b" bytes of output, recorded ");
    io::print_decimal(STDOUT_FILENO, m as u64);
    io::write_all(STDOUT_FILENO, b", or others\n");
}

// Reads a u32, and gives it if it is there and is at most `room`.
fn read_len(room: usize) -> Option<usize>
    ensures { IfSome result (λ n. n ≤ room) }
{
    let mut four = [0u8; 4];
    if io::read_full(STDIN_FILENO, &mut four) < 4 {
        return None;
    }
    let len = le::get_at(&four, 0, 4) as usize;
    (len <= room).then_some(len)
}

// Reads a u32 and that many bytes into the front of a buffer, and gives how many, if the run is whole and fits.
fn read_run(into: &mut [u8]) -> Option<usize>
    ensures { IfSome result (λ n. n ≤ length into.new) }
{
    let len = read_len(into.len())?;
    let read = io::read_full(STDIN_FILENO, &mut into[..len]);
    (read == len).then_some(len)
}
