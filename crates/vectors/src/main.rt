// Runs the published vectors of 32-bit FNV-1a, a header there and back, and blocks with one fault
// each, and prints of each whether it came out as it should: `ok`, or both values where they differ.
// The vectors are those of the FNV authors' test suite. The headers' bytes were worked out by
// another program.
#![tactic(auto)]

ghost use Rattle.std.specs.Prelude.{◌≤◌};

use header::Header;

// Standard output's number at the C library.
const STDOUT_FILENO: i32 = 1;

fn main() {
    others();
    words();
    parts();
    encoding();
    flags();
    longest();
    refusals();
    behind();
}

// The published vectors over words.
fn words() {
    word(b"a", 0xe40c_292c);
    word(b"b", 0xe70c_2de5);
    word(b"c", 0xe60c_2c52);
    word(b"d", 0xe10c_2473);
    word(b"e", 0xe00c_22e0);
    word(b"f", 0xe30c_2799);
    word(b"fo", 0x6222_e842);
    word(b"foo", 0xa9f3_7ed7);
    word(b"foob", 0x3f50_76ef);
    word(b"fooba", 0x39aa_a18a);
    word(b"foobar", 0xbf9c_f968);
}

// The published vectors over what does not print.
fn others() {
    hash(b"nothing", b"", 0x811c_9dc5);
    hash(b"a zero byte", b"\0", 0x050c_5d1f);
    hash(b"chongo was here!, LF", b"chongo was here!\n", 0xd499_30d5);
}

// A vector over a word, which is its own name.
fn word(s: &[u8], want: u64) {
    hash(s, s, want);
}

// A vector over s.
fn hash(name: &[u8], s: &[u8], want: u64) {
    say(b"fnv1a32 of ");
    number(name, fnv::fnv1a32(fnv::START, s) as u64, want);
}

// The check of two parts, one after the other, is that of the whole.
fn parts() {
    let part = fnv::fnv1a32(fnv::START, b"foo");
    number(
        b"fnv1a32 of foo, then bar",
        fnv::fnv1a32(part, b"bar") as u64,
        0xbf9c_f968,
    );
}

// The block of a file `a/b` of 258 bytes under generation 770, byte for byte, and what it says.
fn encoding() {
    let block = header_of(b"a/b");
    let mut want = header::zeros();
    want[..35].copy_from_slice(
        b"REGO\x01\0\0\0\x03\0\0\0\x02\x01\0\0\0\0\0\0\x02\x03\0\0\0\0\0\0\xc4\x19\xab\x6ca/b",
    );
    run(b"header of a/b", &block, &want);
    answer(b"decoded", block, 1);
}

// Bit 0 of the flags alone says in use. The checks were worked out as the bytes above.
fn flags() {
    answer(b"flags 3", changed(4, 3, 0xf25d_6e36), 1);
    answer(b"flags 2", changed(4, 2, 0xbc46_325d), 0);
}

// The longest path: a/b and zeros, which are text, up to the block's end.
fn longest() {
    let Some(h) = Header::decode(changed(8, 480, 0x9e70_70a4), 512) else {
        say(b"path length 480: differs: absent\n");
        return;
    };
    number(b"path length 480", h.path_len as u64, 480);
}

// Each reason for which a block says nothing, in the order of the tests. The check is worked out
// for the changed bytes, so that a block has no fault but the one that it is named after; another
// path stands under the check of a/b.
fn refusals() {
    absent(b"511 bytes read", header_of(b"a/b"), 511);
    absent(b"another magic", changed(0, 0, 0x2b06_fc25), 512);
    absent(b"path length 481", changed(8, 481, 0xc43a_3ecd), 512);
    absent(b"another path", changed(32, 0, 0x6cab_19c4), 512);
    absent(b"no text", header_of(b"\xff"), 512);
}

// A path of 481 bytes ends behind the block. Whatever byte lies there, a block whose check takes it
// in says nothing. A text ends in a byte below 192, and in one from 128 on only behind a first byte.
fn behind() {
    let found = (0..192u8)
        .filter(|b| Header::decode(long(*b), 512).is_some())
        .count();
    number(
        b"path length 481 with any byte behind the block",
        found as u64,
        0,
    );
}

// The block of a path that begins with a/b and ends in a byte behind the block.
fn long(last: u8) -> [u8; 512] {
    let mut block = begun(last);
    le::put_at(&mut block, 8, 4, 481);
    let check = check_of(block, last);
    le::put_at(&mut block, 28, 4, check);
    block
}

// The check of a block whose path goes one byte past it.
fn check_of(block: [u8; 512], last: u8) -> u64 {
    let part = fnv::fnv1a32(fnv::START, &block[0..28]);
    let most = fnv::fnv1a32(part, &block[32..]);
    fnv::fnv1a32(most, &[last; 1]) as u64
}

// The block of a/b, with a first byte at its end where the byte behind it is a second one.
fn begun(last: u8) -> [u8; 512] {
    let mut block = header_of(b"a/b");
    if last > 127 {
        block[511] = 0xc3;
    }
    block
}

// The block of `a/b` with another number in the four bytes from `at` on, and this check.
fn changed(at: usize, x: u64, check: u64) -> [u8; 512]
    requires { at ≤ 508 }
{
    let mut block = header_of(b"a/b");
    le::put_at(&mut block, at, 4, x);
    le::put_at(&mut block, 28, 4, check);
    block
}

// The block of a file of 258 bytes under generation 770. Of a path above 480 bytes: zeros.
fn header_of(path: &[u8]) -> [u8; 512] {
    let n = path.len();
    if n > Header::MAX_PATH {
        return header::zeros();
    }
    Header::bound(n, 258, 770).encode(path)
}

// A block of which n bytes were read, and that must say nothing.
fn absent(name: &[u8], block: [u8; 512], n: usize) {
    say(name);
    match Header::decode(block, n) {
        None => say(b": ok\n"),
        Some(_) => say(b": differs: a header was found\n"),
    }
}

// A block that must say the numbers of `header_of(b"a/b")`, but for in use.
fn answer(name: &[u8], block: [u8; 512], in_use: u64) {
    say(name);
    let Some(h) = Header::decode(block, 512) else {
        say(b": differs: absent\n");
        return;
    };
    number(b", in use", header::flags_of(h.in_use), in_use);
    say(name);
    number(b", path length", h.path_len as u64, 3);
    say(name);
    number(b", file length", h.len, 258);
    say(name);
    number(b", generation", h.generation, 770);
}

// A number that came out, and the one that should.
fn number(name: &[u8], got: u64, want: u64) {
    say(name);
    if got == want {
        say(b": ok\n");
        return;
    }
    say(b": differs: ");
    let _ = io::print_hex(STDOUT_FILENO, got, 8);
    say(b", not ");
    let _ = io::print_hex(STDOUT_FILENO, want, 8);
    say(b"\n");
}

// A run of bytes that came out, and the one that should.
fn run(name: &[u8], got: &[u8], want: &[u8]) {
    say(name);
    if got == want {
        say(b": ok\n");
        return;
    }
    say(b": differs: ");
    hex(got);
    say(b", not ");
    hex(want);
    say(b"\n");
}

fn hex(s: &[u8]) {
    for b in s {
        let _ = io::print_hex(STDOUT_FILENO, u64::from(*b), 2);
    }
}

fn say(s: &[u8]) {
    let _ = io::write_all(STDOUT_FILENO, s);
}
