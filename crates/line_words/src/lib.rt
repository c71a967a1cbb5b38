// What a line of the command program asks for: the words between its spaces, and 01's table of forms. Any bytes will do; a line that is too
// long, or of no form, is a command too. The Rust has no such program.
#![tactic(auto)]

ghost use Rattle.std.specs.Prelude.{◌≡◌, ◌+◌, ◌-◌, ◌≤◌, ◌<◌, ◌==◌, length, take, drop};
ghost use Rattle.std.specs.List.{position};
ghost use Rattle.line_words.specs.Words.{run_len};
ghost use Rattle.line_words.specs.Commands.{Means, one_word, two_words, three_words, request_of};

// The longest line.
const MAX_LINE: usize = 1024;

// A command, with the places of its paths in the line: a path starts at a number and goes to the line's end, and the first of two at a
// number and goes to another, behind which stand a space and the second.
#[derive(Clone, Copy)]
pub enum Command {
    Create(usize),
    Sync(usize),
    Remove(usize),
    Move(usize, usize),
    Dump,
    What,
}

// Where the first `stop` is, if there is one.
fn first(s: &[u8], stop: u8) -> Option<usize>
    ensures { result ≡ position (λ b. b == stop) s.now }
{
    s.iter().position(|b| *b == stop)
}

// Where the run of bytes that starts at `from` ends: at the next `stop`, or at the end.
pub fn run_end(s: &[u8], from: usize, stop: u8) -> usize
    requires { from ≤ length s.now }
    ensures { result ≡ from + run_len stop (drop from s.now) }
{
    match first(&s[from..], stop) {
        Some(k) => from + k,
        None => s.len(),
    }
}

// The command of a line of one word.
fn one_word(line: &[u8]) -> Command
    ensures { Means line.now result (one_word line.now) }
{
    if path::same_bytes(line, b"dump") {
        return Command::Dump;
    }
    Command::What
}

// The command of a line of two words, the first of which ends at a.
fn two_words(line: &[u8], a: usize) -> Command
    requires { a < length line.now }
    ensures { Means line.now result (two_words (take a line.now) (drop (a + 1) line.now)) }
{
    let i = a + 1;
    if i == line.len() {
        return Command::What;
    }
    if path::same_bytes(&line[..a], b"create") {
        return Command::Create(i);
    }
    if path::same_bytes(&line[..a], b"sync") {
        return Command::Sync(i);
    }
    if path::same_bytes(&line[..a], b"rm") {
        return Command::Remove(i);
    }
    Command::What
}

// The command of a line of three words, the first of which ends at a and the second at b.
fn three_words(line: &[u8], a: usize, b: usize) -> Command
    requires { (a < b) × (b < length line.now) }
    ensures { Means line.now result
        (three_words
        (take a line.now)
        (take (b - (a + 1)) (drop (a + 1) line.now))
        (drop (b + 1) line.now)) }
{
    let i = a + 1;
    if i == b {
        return Command::What;
    }
    if b + 1 == line.len() {
        return Command::What;
    }
    if path::same_bytes(&line[..a], b"mv") {
        return Command::Move(i, b);
    }
    Command::What
}

// The command of a line.
pub fn parse(line: &[u8]) -> Command
    ensures { Means line.now result (request_of line.now) }
{
    let n = line.len();
    if MAX_LINE < n {
        return Command::What;
    }
    let a = run_end(line, 0, b' ');
    if a == n {
        return one_word(line);
    }
    let b = run_end(line, a + 1, b' ');
    if b == n {
        return two_words(line, a);
    }
    let e = run_end(line, b + 1, b' ');
    if e == n {
        return three_words(line, a, b);
    }
    Command::What
}
