// The calls that `harness_c` exports: check, header, text, paths and scripts as plain functions on numbers and byte slices.
// Each may be called with anything. A refusal is 01's number, in the order 3, 4, 5, 13, and leaves `out` as it was; 13 says that `out` is
// too small. Where an answer has a value, it is number * 2^32 + value.
#![tactic(auto)]

ghost use Rattle.std.specs.Prelude.{◌≡◌, ◌≤◌, length};
ghost use Rattle.fnv.specs.Fnv.{fnv_from};
ghost use Rattle.le.specs.Le.{laid};
ghost use Rattle.path.specs.Path.{normal};
ghost use Rattle.pool_state.specs.State.{bufs, view, IsPool};
ghost use Rattle.output.specs.Writer.{shown, poured};
ghost use Rattle.script.specs.Script.{script_m};
ghost use Rattle.harness.specs.Calls.{outcome, refusal, numbers_of, encode_call, decode_call, text_call, same_call, spelled};
ghost use Rattle.harness.specs.Calls.{normal_call, parent_call, counted_pool, record_call, hits, lookups_call};

use header::Header;
use pool_state::Pool;
use slot_rows::Rows;

// The state of the 32-bit FNV-1a behind these bytes, from the state `start`.
pub fn slot_check(start: u32, bytes: &[u8]) -> u32
    ensures { result ≡ fnv_from start bytes.now }
{
    fnv::fnv1a32(start, bytes)
}

// 0 and the header block in the first 512 bytes of out; or 3, 4, 13. in_use is 0 for a free slot.
#[tactic(auto, unfolding(crate::specs::Calls::encode_call))]
pub fn header_encode(in_use: u8, len: u64, generation: u64, path: &[u8], out: &mut [u8]) -> u8
    ensures { outcome result out.new ≡ encode_call in_use len generation path.now out.old }
{
    if !text::is_text(path) {
        return 3;
    }
    let path_len = path.len();
    if path_len > Header::MAX_PATH {
        return 4;
    }
    if out.len() < Header::LEN {
        return 13;
    }
    let h = Header {
        in_use: in_use != 0,
        path_len,
        len,
        generation,
    };
    let block = h.encode(path);
    out[..Header::LEN].copy_from_slice(&block);
    0
}

// 0 and in use, path length, file length and generation as four u64 in the first 32 bytes of out; 1 for an absent header; or 13.
#[tactic(auto, unfolding(crate::specs::Calls::decode_call))]
pub fn header_decode(block: &[u8], out: &mut [u8]) -> u8
    ensures { outcome result out.new ≡ decode_call block.now out.old }
{
    if out.len() < 32 {
        return 13;
    }
    let n = block.len();
    if n < Header::LEN {
        return 1;
    }
    let mut whole = header::zeros();
    whole.copy_from_slice(&block[..Header::LEN]);
    let Some(h) = Header::decode(whole, n) else {
        return 1;
    };
    put_numbers(out, h);
    0
}

// Writes the four numbers of a header to the front of out.
fn put_numbers(out: &mut [u8], h: Header)
    requires { 32 ≤ length out.old }
    ensures { out.new ≡ laid out.old 0 (numbers_of h) }
{
    le::put_at(out, 0, 8, header::flags_of(h.in_use));
    le::put_at(out, 8, 8, h.path_len as u64);
    le::put_at(out, 16, 8, h.len);
    le::put_at(out, 24, 8, h.generation);
}

// 1 if the bytes are text, else 0.
#[tactic(auto, unfolding(crate::specs::Calls::text_call))]
pub fn text_is(bytes: &[u8]) -> u8
    ensures { result ≡ text_call bytes.now }
{
    u8::from(text::is_text(bytes))
}

// 1 if a and b spell one path, else 0; or 3.
#[tactic(auto, unfolding(crate::specs::Calls::same_call))]
pub fn path_same(a: &[u8], b: &[u8]) -> u8
    ensures { result ≡ same_call a.now b.now }
{
    if !text::is_text(a) {
        return 3;
    }
    if !text::is_text(b) {
        return 3;
    }
    u8::from(path::same_path(a, b))
}

// The normal spelling in the front of out, and its length; or 3, 13.
#[tactic(auto, unfolding(crate::specs::Calls::normal_call))]
pub fn path_normal(path: &[u8], out: &mut [u8]) -> u64
    ensures { outcome result out.new ≡ normal_call path.now out.old }
{
    if !text::is_text(path) {
        return refusal(3);
    }
    spell(path, out)
}

// The normal spelling of the parent in the front of out, and its length; or 3, 5, 13.
#[tactic(auto, unfolding(crate::specs::Calls::parent_call))]
pub fn path_parent(path: &[u8], out: &mut [u8]) -> u64
    ensures { outcome result out.new ≡ parent_call path.now out.old }
{
    if !text::is_text(path) {
        return refusal(3);
    }
    let Some(e) = path::parent_end(path) else {
        return refusal(5);
    };
    spell(&path[..e], out)
}

// The normal spelling in the front of out, and its length; or 13.
#[tactic(auto, unfolding(crate::specs::Calls::spelled))]
fn spell(path: &[u8], out: &mut [u8]) -> u64
    ensures { outcome result out.new ≡ spelled (normal path.now) out.old }
{
    if out.len() < path::normal_len(path) {
        return refusal(13);
    }
    path::normalize(path, out) as u64
}

// A refusal where an answer has a value.
#[tactic(auto, unfolding(crate::specs::Calls::refusal))]
fn refusal(number: u8) -> u64
    ensures { result ≡ refusal number }
{
    (number as u64) * 0x1_0000_0000
}

// Runs a script over a small pool of its own, and writes what it puts out to out, as far as that reaches. Gives the length of the whole
// output, 0 if the setup isn't whole.
pub fn pool_script(script: &[u8], out: &mut [u8]) -> usize
    ensures { shown out.new result ≡ poured (script_m script.now) out.old }
{
    script::pool_script(script, out)
}

// Whether rows, and a record of these counts with an empty queue, are a pool: 1 or 0. Every public call begins with this test; it is
// exported so that its time can be measured alone.
#[tactic(auto, unfolding(crate::specs::Calls::record_call))]
pub fn record_check(
    nums: &[u64],
    names: &[u8],
    dirs: &[u8],
    rows: usize,
    dir_rows: usize,
    held: usize,
    dirs_held: usize,
    counter: u64,
) -> u8
    ensures { result ≡ record_call nums.now names.now dirs.now rows dir_rows held dirs_held counter }
{
    let pool = counted(rows, dir_rows, held, dirs_held, counter);
    u8::from(pool_test::pool_ok(nums, names, dirs, pool))
}

// The same test once, and where it is a pool the path is looked for so many times: how many times it was found. Exported so that a search
// can be measured without the test.
#[tactic(auto, unfolding(crate::specs::Calls::lookups_call))]
pub fn record_lookups(
    nums: &[u64],
    names: &[u8],
    dirs: &[u8],
    rows: usize,
    dir_rows: usize,
    held: usize,
    dirs_held: usize,
    counter: u64,
    path: &[u8],
    times: u64,
) -> u64
    ensures { result ≡ lookups_call nums.now names.now dirs.now rows dir_rows held dirs_held counter
        path.now times }
{
    let pool = counted(rows, dir_rows, held, dirs_held, counter);
    if pool_test::pool_ok(nums, names, dirs, pool) {
        return lookups(nums, names, dirs, pool, path, times);
    }
    0
}

// How many of so many searches of a path find it: all or none, so the turn is the count. The rows are a value outside of the loop: made in
// each turn, as `open_read` makes them, they would keep the compiler from seeing that all searches are one.
fn lookups(nums: &[u64], names: &[u8], dirs: &[u8], pool: Pool, path: &[u8], times: u64) -> u64
    requires { IsPool (bufs pool nums.now names.now dirs.now) }
    ensures { result ≡ hits path.now (view (bufs pool nums.now names.now dirs.now)) times }
{
    let rows = Rows {
        nums,
        names,
        cap: pool.chosen.rows,
        n: pool.held,
    };
    let mut found = 0u64;
    for i in 0..times {
        if rows.find_row(path) < rows.n {
            found = i + 1;
        }
    }
    found
}

// The record of these counts, with an empty queue.
fn counted(rows: usize, dir_rows: usize, held: usize, dirs_held: usize, counter: u64) -> Pool
    ensures { result ≡ counted_pool rows dir_rows held dirs_held counter }
{
    Pool {
        chosen: pool_state::choose(rows, dir_rows),
        held,
        dirs: dirs_held,
        counter,
        free: 0,
        queue: [0u8; 64],
    }
}
