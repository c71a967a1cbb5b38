// Requests for the exported calls, answered (docs/EXPORTS.md, "Requests"), for a caller that cannot link the library. A request is a byte
// that says which call, and the call's body; an answer is the call's number in as many bytes as its type has, and the buffer that it was
// lent, all 0xAA before it. A request with no call, of no call here, too short for its numbers, or that asks for too large a buffer gets
// the empty answer. The calls are harness's own; a new export is one row more in `width_of`, `lends` and `make`, and in
// specs/Requests.antt.
#![tactic(auto)]

ghost use Rattle.std.specs.Prelude.{◌≡◌, ◌+◌, ◌≤◌, Some, length, replicate};
ghost use Rattle.le.specs.Le.{field};
ghost use Rattle.harness.specs.Calls.{outcome};
ghost use Rattle.served.specs.Requests.{plain_in, lent_in, two_in, check_of, encode_of, same_of, export_of, answered, framed};

// The most bytes that a call is lent: with all that stands before them an answer stays in 1 MiB.
const MOST_LENT: usize = 0xF_FFC0;

// The answer to a request with its length before it, a u32, in the front of out; gives how many bytes that is. Where out has no room for
// the answer it is empty, and where it has none for a length there is none.
#[tactic(auto, unfolding(crate::specs::Requests::framed))]
pub fn answer(request: &[u8], out: &mut [u8]) -> usize
    ensures { outcome result out.new ≡ framed request.now out.old }
{
    if out.len() < 4 {
        return 0;
    }
    let n = bare_answer(request, &mut out[4..]);
    le::put_at(out, 0, 4, n as u64);
    4 + n
}

// The answer to a request in the front of out, and its length; the empty one where it does not fit.
fn bare_answer(request: &[u8], out: &mut [u8]) -> usize
    ensures { outcome result out.new ≡ answered request.now out.old }
{
    if request.len() == 0 {
        return 0;
    }
    let call = request[0];
    let Some(n) = lends(call, &request[1..]) else {
        return 0;
    };
    let width = width_of(call);
    let end = width + n;
    if out.len() < end {
        return 0;
    }
    let r = ask(call, &request[1..], &mut out[width..end]);
    le::put_at(out, 0, width, r);
    end
}

// How many bytes the number that a call answers has.
#[tactic(auto, unfolding(crate::specs::Requests::export_of))]
fn width_of(call: u8) -> usize
    ensures { result ≡ (export_of call).width }
{
    match call {
        1 => 4,
        2 => 1,
        3 => 1,
        4 => 1,
        5 => 1,
        6 => 8,
        7 => 8,
        8 => 8,
        _ => 0,
    }
}

// How many bytes a call is lent, where its body is whole.
#[tactic(auto, unfolding(crate::specs::Requests::export_of))]
fn lends(call: u8, body: &[u8]) -> Option<usize>
    ensures { result ≡ (export_of call).lends body.now }
{
    match call {
        1 => plain(body, 4),
        2 => lent_at(body, 17),
        3 => lent_at(body, 0),
        4 => plain(body, 0),
        5 => two(body),
        6 => lent_at(body, 0),
        7 => lent_at(body, 0),
        8 => lent_at(body, 0),
        _ => None,
    }
}

// None, of a body with n bytes of numbers.
#[tactic(auto, unfolding(crate::specs::Requests::plain_in))]
fn plain(body: &[u8], n: usize) -> Option<usize>
    ensures { result ≡ plain_in n body.now }
{
    (n <= body.len()).then_some(0)
}

// As many as the u32 at a place says.
#[tactic(auto, unfolding(crate::specs::Requests::lent_in))]
fn lent_at(body: &[u8], at: usize) -> Option<usize>
    requires { at ≤ 17 }
    ensures { result ≡ lent_in at body.now }
{
    if body.len() < at + 4 {
        return None;
    }
    let n = le::get_at(body, at, 4) as usize;
    (n <= MOST_LENT).then_some(n)
}

// None, of a body with two runs of bytes, the length of the first before it.
#[tactic(auto, unfolding(crate::specs::Requests::two_in))]
fn two(body: &[u8]) -> Option<usize>
    ensures { result ≡ two_in body.now }
{
    if body.len() < 4 {
        return None;
    }
    let n = le::get_at(body, 0, 4) as usize;
    (n <= body.len() - 4).then_some(0)
}

// Makes a call, whose body is whole, with a buffer of 0xAA.
fn ask(call: u8, body: &[u8], out: &mut [u8]) -> u64
    requires { (export_of call).lends body.now ≡ Some (length out.old) }
    ensures { outcome result out.new ≡ (export_of call).comes body.now (replicate (length out.old) 170) }
{
    out.fill(0xAA);
    make(call, body, out)
}

// Makes a call, whose body is whole.
#[tactic(auto, unfolding(crate::specs::Requests::export_of, crate::specs::Requests::script_of))]
fn make(call: u8, body: &[u8], out: &mut [u8]) -> u64
    requires { (export_of call).lends body.now ≡ Some (length out.old) }
    ensures { outcome result out.new ≡ (export_of call).comes body.now out.old }
{
    match call {
        1 => check(body),
        2 => encode(body, out),
        3 => harness::header_decode(&body[4..], out) as u64,
        4 => harness::text_is(body) as u64,
        5 => same(body),
        6 => harness::path_normal(&body[4..], out),
        7 => harness::path_parent(&body[4..], out),
        8 => harness::pool_script(&body[4..], out) as u64,
        _ => 0,
    }
}

// slot_check: the number and the bytes behind it.
#[tactic(auto, unfolding(crate::specs::Requests::check_of))]
fn check(body: &[u8]) -> u64
    requires { 4 ≤ length body.now }
    ensures { result ≡ check_of body.now }
{
    harness::slot_check(le::get_at(body, 0, 4) as u32, &body[4..]) as u64
}

// header_encode: three numbers, the size of the buffer, and the path.
#[tactic(auto, unfolding(crate::specs::Requests::encode_of))]
fn encode(body: &[u8], out: &mut [u8]) -> u64
    requires { 21 ≤ length body.now }
    ensures { outcome result out.new ≡ encode_of body.now out.old }
{
    let in_use = le::get_at(body, 0, 1) as u8;
    let len = le::get_at(body, 1, 8);
    let generation = le::get_at(body, 9, 8);
    harness::header_encode(in_use, len, generation, &body[21..], out) as u64
}

// path_same: two runs of bytes.
#[tactic(auto, unfolding(crate::specs::Requests::same_of))]
fn same(body: &[u8]) -> u64
    requires { 4 + field body.now 0 4 ≤ length body.now }
    ensures { result ≡ same_of body.now }
{
    let n = le::get_at(body, 0, 4) as usize;
    let end = 4 + n;
    harness::path_same(&body[4..end], &body[end..]) as u64
}
