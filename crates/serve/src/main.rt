// Serves the exported calls to a program that cannot link them: reads requests from standard input, each a u32 length and that many bytes,
// and writes `served::answer`'s answer to each before it reads on (docs/EXPORTS.md, "Requests"). It ends with the input, and where a
// request is cut off, has more than 1 MiB, or its answer can't be written. What is read and written no contract can say; what a request
// is answered is `served`'s to say.
#![tactic(auto)]

ghost use Rattle.std.specs.Prelude.{◌≡◌, length};

// Standard input's and standard output's numbers at the C library.
const STDIN_FILENO: i32 = 0;

const STDOUT_FILENO: i32 = 1;

fn main() {
    let mut request = room();
    let mut out = room();
    serve_all(&mut request, &mut out);
}

// 1 MiB.
fn room() -> [u8; 1048576]
    ensures { 1048576 ≡ length result }
{
    [0; 1048576]
}

// Answers one request after the other. A proved loop has to end, and nothing says that the input does: so it takes as many turns at most as
// no run uses up.
fn serve_all(request: &mut [u8], out: &mut [u8]) {
    for _ in 0..u64::MAX {
        if !serve_one(request, out) {
            break;
        }
    }
}

// Answers the next request. False where there is none that is whole and fits, or its answer can't be written.
fn serve_one(request: &mut [u8], out: &mut [u8]) -> bool {
    let mut four = [0u8; 4];
    if io::read_full(STDIN_FILENO, &mut four) < 4 {
        return false;
    }
    let n = le::get_at(&four, 0, 4) as usize;
    if request.len() < n {
        return false;
    }
    if io::read_full(STDIN_FILENO, &mut request[..n]) < n {
        return false;
    }
    let len = served::answer(&request[..n], out);
    reply(out, len)
}

// Writes the first len bytes.
fn reply(out: &[u8], len: usize) -> bool {
    if out.len() < len {
        return false;
    }
    io::write_all(STDOUT_FILENO, &out[..len])
}
