// The check of a header: 32-bit FNV-1a (01, Check). It goes on from a given state, so that it runs
// over several slices, one after the other, without a copy. It refuses nothing.
#![tactic(auto)]

ghost use Rattle.std.specs.Prelude.{◌≡◌};
ghost use Rattle.fnv.specs.Fnv.{prime32, stepped, fnv_from};

// The state before the first byte.
pub const START: u32 = 2166136261;

const PRIME: u64 = 16777619;

// The state after the bytes of s, from the state `start`.
pub fn fnv1a32(start: u32, s: &[u8]) -> u32
    ensures { result ≡ fnv_from start s.now }
{
    let mut h = start;
    for b in s {
        h = step(h, *b);
    }
    h
}

// The state after one byte more.
fn step(h: u32, b: u8) -> u32
    ensures { result ≡ stepped prime32 32 h b }
{
    let x = (h ^ (b as u32)) as u64;
    (x * PRIME % 0x1_0000_0000) as u32
}
