// Four slots and what their header blocks say: two claim one name in two spellings, the third was cut in the middle of a write, the fourth
// is free. They are laid on a device and mounted: the higher generation holds the name, and the slot that lost is free again. Each line is
// printed from what was decoded, or from what the pool answered. No contract can speak of what is written, so all that is worked
// out stands in functions with contracts of their own.
#![tactic(auto)]

ghost use Rattle.std.specs.Prelude.{◌≡◌, ◌≤◌, [], ◌++◌, length, take, drop};
ghost use Rattle.header.specs.Block.{max_path, free_header, bound_header, encoded};
ghost use Rattle.demo.specs.Story.{says_of};

use calls_gate::{Call, Reply};
use device::{Geometry, Place};
use header::Header;
use pool_state::Pool;

// Standard output's number at the C library.
const STDOUT_FILENO: i32 = 1;

// What a slot's header block says.
#[derive(Clone, Copy)]
enum Says {
    Nothing,
    Free(u64),
    Claim(Header),
}

fn main() {
    let raw = claim(b"deck/07/tile", 384, 5);
    let cleaned = claim(b"deck//07/tile", 320, 9);
    let cut = torn(raw, cleaned);
    let unused = free(7);
    let mut bytes = [0u8; 4096];
    for (i, block) in [raw, cleaned, cut, unused].iter().enumerate() {
        lay(&mut bytes, i, *block);
    }
    tell_all(&bytes);
    mount(&mut bytes);
    tell_all(&bytes);
}

// Lays the header block of slot i on the device, whose slots are of 1,024 bytes.
fn lay(bytes: &mut [u8], i: usize, block: [u8; 512]) {
    if i < 4 {
        let from = i * 1024;
        let to = from + 512;
        if to <= bytes.len() {
            bytes[from..to].copy_from_slice(&block);
        }
    }
}

// One call through the pool's face, on slots of 1,024 bytes, under an empty plan.
fn ask(
    bytes: &mut [u8],
    phys: &mut [u64],
    nums: &mut [u64],
    names: &mut [u8],
    dirs: &mut [u8],
    pool: Pool,
    call: Call,
    path: &[u8],
) -> Reply {
    let mut none = [0u8; 1];
    pool_numbers::on_numbers(
        bytes,
        phys,
        Geometry { size: 1024 },
        b"",
        Place { at: 0, last: 0 },
        nums,
        names,
        dirs,
        pool,
        call,
        path,
        b"",
        &mut none,
    )
}

// Mounts the four slots, and prints who holds the name and which slots are free.
fn mount(bytes: &mut [u8]) {
    let mut phys = [1024u64; 4];
    let mut nums = [0u64; 16];
    let mut names = [0u8; 1920];
    let mut dirs = [0u8; 1928];
    let before = mount::zero();
    let mounted = ask(
        bytes,
        &mut phys,
        &mut nums,
        &mut names,
        &mut dirs,
        before,
        Call::Mount { slots: 4 },
        b"",
    );
    let answer = mounted.answer;
    let pool = mounted.pool;
    say(b"mount: ");
    number(calls_gate::number(answer) as u64);
    say(b"\n");
    tell_holder(bytes, &mut phys, &mut nums, &mut names, &mut dirs, pool);
    tell_queue(pool);
}

// Prints which slot holds the name.
fn tell_holder(
    bytes: &mut [u8],
    phys: &mut [u64],
    nums: &mut [u64],
    names: &mut [u8],
    dirs: &mut [u8],
    pool: Pool,
) {
    let reader = ask(
        bytes,
        phys,
        nums,
        names,
        dirs,
        pool,
        Call::OpenRead,
        b"deck/07/tile",
    );
    let handle = reader.told;
    let slot = handle.slot;
    let generation = handle.generation;
    let file = ask(
        bytes,
        phys,
        nums,
        names,
        dirs,
        pool,
        Call::FileLen {
            slot: slot,
            generation: generation,
        },
        b"",
    );
    let told = file.told;
    say(b"deck/07/tile: slot ");
    number(slot as u64);
    say(b", generation ");
    number(generation);
    say(b", length ");
    number(told.len);
    say(b"\n");
}

// Prints the free queue of four slots, from its front.
fn tell_queue(pool: Pool) {
    say(b"free slots:");
    for slot in pool.queue.iter().take(pool.free) {
        say(b" ");
        number(u64::from(*slot));
    }
    say(b"\n");
}

// The block of a slot that holds a file.
fn claim(path: &[u8], len: u64, generation: u64) -> [u8; 512]
    requires { length path.now ≤ max_path }
    ensures { result ≡ encoded (bound_header (length path.now) len generation) path.now }
{
    let h = Header::bound(path.len(), len, generation);
    h.encode(path)
}

// The block of a slot that holds none.
fn free(generation: u64) -> [u8; 512]
    ensures { result ≡ encoded (free_header generation) [] }
{
    let h = Header::free(generation);
    h.encode(b"")
}

// The first 20 bytes of the new block over the old one: the write stopped in front of the generation and the check.
fn torn(old: [u8; 512], new: [u8; 512]) -> [u8; 512]
    ensures { result ≡ take 20 new ++ drop 20 old }
{
    let mut block = old;
    block[..20].copy_from_slice(&new[..20]);
    block
}

// What a block says: in use with a path that is not empty is a claim.
#[tactic(auto, unfolding(crate::specs::Story::says_of))]
fn read(block: [u8; 512]) -> Says
    ensures { result ≡ says_of block }
{
    let Some(h) = Header::decode(block, Header::LEN) else {
        return Says::Nothing;
    };
    if !h.in_use || h.path_len == 0 {
        return Says::Free(h.generation);
    }
    Says::Claim(h)
}

// Prints what each slot's block says.
fn tell_all(bytes: &[u8]) {
    for i in 0..4 {
        tell(i, block(bytes, i));
    }
}

// The header block of slot i.
fn block(bytes: &[u8], i: usize) -> [u8; 512] {
    let mut r = [0u8; 512];
    if i < 4 {
        let from = i * 1024;
        let to = from + 512;
        if to <= bytes.len() {
            r.copy_from_slice(&bytes[from..to]);
        }
    }
    r
}

// Prints what the block of a slot says.
fn tell(slot: usize, block: [u8; 512]) {
    say(b"slot ");
    number(slot as u64);
    match read(block) {
        Says::Nothing => say(b": absent\n"),
        Says::Free(g) => tell_free(g),
        Says::Claim(h) => tell_claim(block, h),
    }
}

fn tell_free(generation: u64) {
    say(b": free, generation ");
    number(generation);
    say(b"\n");
}

fn tell_claim(block: [u8; 512], h: Header)
    requires { h.path_len ≤ max_path }
{
    let end = Header::FIXED + h.path_len;
    say(b": claim of ");
    say(&block[Header::FIXED..end]);
    say(b", generation ");
    number(h.generation);
    say(b", length ");
    number(h.len);
    say(b"\n");
}

fn number(n: u64) {
    let _ = io::print_decimal(STDOUT_FILENO, n);
}

fn say(s: &[u8]) {
    let _ = io::write_all(STDOUT_FILENO, s);
}
