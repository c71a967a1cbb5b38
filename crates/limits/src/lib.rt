// The numbers of the specification that more than one crate needs: how long a path may be, how wide a row lies in the lent buffers, and the
// last value of the counter. specs/Limits.antt has the same under the names that contracts cite.

// "a path above 480 bytes" is refused; the header has so much room for its path.
#![tactic(auto)]

pub const MAX_PATH: usize = 480;

// A slot row in the lent numbers: mark, path length, file length, generation.
pub const ROW_WIDTH: usize = 4;

// A directory row in the lent bytes: its length in two bytes, then room for a path.
pub const DIR_WIDTH: usize = 482;

// "counter 1 to 2^63".
pub const LAST_COUNTER: u64 = 0x8000_0000_0000_0000;
