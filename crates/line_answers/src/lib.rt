// What the command program answers to a line, as text in a lent buffer: 01, "The command program". The buffer may be too short; the whole
// length is given back, and what falls past the buffer's end goes nowhere. Nothing is refused. The Rust has no such program.
#![tactic(auto)]

ghost use Rattle.std.specs.Prelude.{◌+◌, ◌^◌, ◌<◌};
ghost use Rattle.output.specs.Writer.{Puts, PutsAll};
ghost use Rattle.line_answers.specs.Answers.{spaced, what_text, no_text, end_text, open_text};

// A space and a number.
pub fn put_number(out: &mut [u8], at: usize, n: u64) -> usize
    requires { at + 21 < 2 ^ 64 }
    ensures { Puts (spaced n) out.old out.new at result }
{
    let mut text = [0u8; 20];
    let k = io::decimal(n, &mut text);
    let a = output::put_byte(out, at, b' ');
    output::put_bytes(out, a, &text[..k])
}

// The answer to a line of no form.
pub fn say_what(out: &mut [u8]) -> usize
    ensures { PutsAll what_text out.old out.new result }
{
    output::put_bytes(out, 0, b"what\n")
}

// A refusal, with its number.
pub fn say_no(out: &mut [u8], number: u8) -> usize
    ensures { PutsAll (no_text number) out.old out.new result }
{
    let a = output::put_bytes(out, 0, b"no");
    let b = put_number(out, a, number as u64);
    output::put_byte(out, b, b'\n')
}

// The answer to `sync`, `rm` and `mv`, by the number of the call.
pub fn say_end(out: &mut [u8], number: u8) -> usize
    ensures { PutsAll (end_text number) out.old out.new result }
{
    if number != 0 {
        return say_no(out, number);
    }
    output::put_bytes(out, 0, b"ok\n")
}

// The answer to `create`, by the number of the call, the handle and the file's length.
pub fn say_open(out: &mut [u8], number: u8, slot: usize, generation: u64, len: u64) -> usize
    ensures { PutsAll (open_text number slot generation len) out.old out.new result }
{
    if number != 0 {
        return say_no(out, number);
    }
    let a = output::put_bytes(out, 0, b"ok");
    let b = put_number(out, a, slot as u64);
    let c = put_number(out, b, generation);
    let d = put_number(out, c, len);
    output::put_byte(out, d, b'\n')
}
