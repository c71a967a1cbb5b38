// The calls of `harness`, exported to C and Rust under the same names, as functions on numbers and byte slices: each calls the function of
// its name, and promises word for word what that one promises. A slice passes as a pointer and a length. `rt lib` builds them into
// out/libharness_c.a; the script staticlib gives that archive the name that callers link (docs/EXPORTS.md).
#![tactic(auto)]

ghost use Rattle.std.specs.Prelude.{◌≡◌};
ghost use Rattle.fnv.specs.Fnv.{fnv_from};
ghost use Rattle.output.specs.Writer.{shown, poured};
ghost use Rattle.script.specs.Script.{script_m};
ghost use Rattle.harness.specs.Calls.{outcome, encode_call, decode_call, text_call, same_call};
ghost use Rattle.harness.specs.Calls.{normal_call, parent_call, record_call, lookups_call};

// The state of the 32-bit FNV-1a behind these bytes, from the state `start`.
#[unsafe(no_mangle)]
pub extern "C" fn slot_check(start: u32, bytes: &[u8]) -> u32
    ensures { result ≡ fnv_from start bytes.now }
{
    harness::slot_check(start, bytes)
}

// 0 and the header block in the first 512 bytes of out; or 3, 4, 13. in_use is 0 for a free slot.
#[unsafe(no_mangle)]
pub extern "C" fn header_encode(
    in_use: u8,
    len: u64,
    generation: u64,
    path: &[u8],
    out: &mut [u8],
) -> u8
    ensures { outcome result out.new ≡ encode_call in_use len generation path.now out.old }
{
    harness::header_encode(in_use, len, generation, path, out)
}

// 0 and in use, path length, file length and generation as four u64 in the first 32 bytes of out; 1 for an absent header; or 13.
#[unsafe(no_mangle)]
pub extern "C" fn header_decode(block: &[u8], out: &mut [u8]) -> u8
    ensures { outcome result out.new ≡ decode_call block.now out.old }
{
    harness::header_decode(block, out)
}

// 1 if the bytes are text, else 0.
#[unsafe(no_mangle)]
pub extern "C" fn text_is(bytes: &[u8]) -> u8
    ensures { result ≡ text_call bytes.now }
{
    harness::text_is(bytes)
}

// 1 if a and b spell one path, else 0; or 3.
#[unsafe(no_mangle)]
pub extern "C" fn path_same(a: &[u8], b: &[u8]) -> u8
    ensures { result ≡ same_call a.now b.now }
{
    harness::path_same(a, b)
}

// The normal spelling in the front of out, and its length; or 3, 13.
#[unsafe(no_mangle)]
pub extern "C" fn path_normal(path: &[u8], out: &mut [u8]) -> u64
    ensures { outcome result out.new ≡ normal_call path.now out.old }
{
    harness::path_normal(path, out)
}

// The normal spelling of the parent in the front of out, and its length; or 3, 5, 13.
#[unsafe(no_mangle)]
pub extern "C" fn path_parent(path: &[u8], out: &mut [u8]) -> u64
    ensures { outcome result out.new ≡ parent_call path.now out.old }
{
    harness::path_parent(path, out)
}

// Runs a script over a small pool of its own, and writes what it puts out to out, as far as that reaches. Gives the length of the whole
// output, 0 if the setup isn't whole.
#[unsafe(no_mangle)]
pub extern "C" fn pool_script(script: &[u8], out: &mut [u8]) -> usize
    ensures { shown out.new result ≡ poured (script_m script.now) out.old }
{
    harness::pool_script(script, out)
}

// Whether rows, and a record of these counts with an empty queue, are a pool: 1 or 0. Every public call begins with this test; it is
// exported so that its time can be measured alone.
#[unsafe(no_mangle)]
pub extern "C" fn record_check(
    nums: &[u64],
    names: &[u8],
    dirs: &[u8],
    rows: usize,
    dir_rows: usize,
    held: usize,
    dirs_held: usize,
    counter: u64,
) -> u8
    ensures { result ≡ record_call nums.now names.now dirs.now rows dir_rows held dirs_held counter }
{
    harness::record_check(nums, names, dirs, rows, dir_rows, held, dirs_held, counter)
}

// The same test once, and where it is a pool the path is looked for so many times: how many times it was found. Exported so that a search
// can be measured without the test.
#[unsafe(no_mangle)]
pub extern "C" fn record_lookups(
    nums: &[u64],
    names: &[u8],
    dirs: &[u8],
    rows: usize,
    dir_rows: usize,
    held: usize,
    dirs_held: usize,
    counter: u64,
    path: &[u8],
    times: u64,
) -> u64
    ensures { result ≡ lookups_call nums.now names.now dirs.now rows dir_rows held dirs_held counter
        path.now times }
{
    harness::record_lookups(
        nums, names, dirs, rows, dir_rows, held, dirs_held, counter, path, times,
    )
}
