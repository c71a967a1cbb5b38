// The header block of a slot: 512 bytes by value, as one array. Fields are little-endian, and the
// path lies in the block from byte 32 on. Ports `encode_header` and `decode_header` of
// src/env/opfs/sah.rs. A block that isn't a header is answered by `None`, never refused.
#![tactic(auto)]

ghost use Rattle.std.specs.Prelude.{◌≡◌, ◌≤◌, ◌++◌, length, drop, replicate};
ghost use Rattle.header.specs.Block.{max_path, free_header, bound_header, flags_of, fixed, encoded, decoded};

// What a header says of its slot. The path itself stays in the block.
#[derive(Clone, Copy)]
pub struct Header {
    pub in_use: bool,
    pub path_len: usize,
    pub len: u64,
    pub generation: u64,
}

impl Header {
    // The block's length.
    pub const LEN: usize = 512;

    // The length of the part in front of the path.
    pub const FIXED: usize = 32;

    pub const MAGIC: u64 = 0x4F47_4552;

    // The longest path.
    pub const MAX_PATH: usize = limits::MAX_PATH;

    // The header of a slot that holds no file.
    pub fn free(generation: u64) -> Self
        ensures { result ≡ free_header generation }
    {
        Header {
            in_use: false,
            path_len: 0,
            len: 0,
            generation,
        }
    }

    // The header of a slot that holds a file.
    pub fn bound(path_len: usize, len: u64, generation: u64) -> Self
        ensures { result ≡ bound_header path_len len generation }
    {
        Header {
            in_use: true,
            path_len,
            len,
            generation,
        }
    }

    // The block of a header and its path.
    pub fn encode(self, path: &[u8]) -> [u8; 512]
        requires { (length path.now ≡ self.path_len) × (self.path_len ≤ max_path) }
        ensures { result ≡ encoded self path.now }
    {
        let mut block = zeros();
        put_fixed(&mut block, self);
        let part = fnv::fnv1a32(fnv::START, &block[..28]);
        let check = fnv::fnv1a32(part, path);
        le::put_at(&mut block, 28, 4, check as u64);
        block[Header::FIXED..Header::FIXED + path.len()].copy_from_slice(path);
        block
    }

    // What a block says of which n bytes were read.
    pub fn decode(block: [u8; 512], n: usize) -> Option<Header>
        ensures { result ≡ decoded block n }
    {
        if n < Header::LEN {
            return None;
        }
        if le::get_at(&block, 0, 4) != Header::MAGIC {
            return None;
        }
        let path_len = le::get_at(&block, 8, 4) as usize;
        if path_len > Header::MAX_PATH {
            return None;
        }
        let end = Header::FIXED + path_len;
        let part = fnv::fnv1a32(fnv::START, &block[..28]);
        let check = fnv::fnv1a32(part, &block[Header::FIXED..end]) as u64;
        if le::get_at(&block, 28, 4) != check {
            return None;
        }
        if text::is_text(&block[Header::FIXED..end]) {
            let flags = le::get_at(&block, 4, 4);
            let len = le::get_at(&block, 12, 8);
            let generation = le::get_at(&block, 20, 8);
            Some(Header {
                in_use: flags % 2 == 1,
                path_len,
                len,
                generation,
            })
        } else {
            None
        }
    }
}

// A block of zeros.
pub fn zeros() -> [u8; 512]
    ensures { result ≡ replicate 512 0 }
{
    [0u8; 512]
}

// The flags that are written: bit 0 says in use. Spelt out, as the document has it: the number of a flag, not of a bool.
pub fn flags_of(in_use: bool) -> u64
    ensures { result ≡ flags_of in_use }
{
    if in_use { 1 } else { 0 }
}

// Writes the fields in front of the check, bytes 0 to 27.
fn put_fixed(block: &mut [u8], h: Header)
    requires { 28 ≤ length block.old }
    ensures { block.new ≡ fixed h ++ drop 28 block.old }
{
    le::put_at(block, 0, 4, Header::MAGIC);
    le::put_at(block, 4, 4, flags_of(h.in_use));
    le::put_at(block, 8, 4, h.path_len as u64);
    le::put_at(block, 12, 8, h.len);
    le::put_at(block, 20, 8, h.generation);
}
