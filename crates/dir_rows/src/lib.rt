// Directory rows in a lent buffer: 482 bytes a row, the length of a normal spelling in two bytes and the spelling, zero filled to 480;
// rows past the count are zero. `register_ancestors` is the Rust's, of src/env/opfs/mod.rs, with rows for its map, and `register_path`
// what `create_dir_all` of pool.rs does to it. Nothing is refused here: who adds rows has counted what is missing, and knows that they
// suffice.
#![tactic(auto)]

ghost use Rattle.std.specs.Prelude.{◌≡◌, [], ◌∷◌, ◌++◌, ◌+◌, ◌*◌, ◌≤◌, ◌<◌, length};
ghost use Rattle.limits.specs.Limits.{max_path, dir_width};
ghost use Rattle.path.specs.Path.{normal, ancestors};
ghost use Rattle.dir_rows.specs.Dirs.{has_path, absent, registered, registered_with};
ghost use Rattle.dir_rows.specs.Rows.{dir_at, dirs_of, FlatDirs};

use limits::{DIR_WIDTH, MAX_PATH};

// What row j spells, where it lies.
#[tactic(auto, using(crate::proofs::InBuffer::dir_length, crate::proofs::InBuffer::dir_short, crate::proofs::InBuffer::dir_part))]
pub fn dir_path(dirs: &[u8], j: usize) -> &[u8]
    requires { j * dir_width + dir_width ≤ length dirs.now }
    ensures { result.now ≡ dir_at dirs.now j }
{
    let k = (le::get_at(dirs, j * DIR_WIDTH, 2) as usize).min(MAX_PATH);
    let at = j * DIR_WIDTH + 2;
    &dirs[at..at + k]
}

// Whether p is the path of one of the first m rows.
pub fn dir_find(dirs: &[u8], m: usize, p: &[u8]) -> bool
    requires { m * dir_width ≤ length dirs.now }
    ensures { result ≡ has_path (dirs_of dirs.now m) p.now }
{
    for j in 0..m {
        if path::same_path(dir_path(dirs, j), p) {
            return true;
        }
    }
    false
}

// How many ancestors of p are in none of the first m rows.
#[tactic(auto, using(path::proofs::Ancestors::up_falls))]
pub fn missing(dirs: &[u8], m: usize, p: &[u8]) -> usize
    requires { m * dir_width ≤ length dirs.now }
    ensures { result ≡ length (absent (dirs_of dirs.now m) (ancestors p.now)) }
{
    let mut count = 0;
    // Each turn goes on to the front of p that spells the next ancestor: not by one.
    let mut e = path::above(p);
    while e != 0 {
        let up = path::above(&p[..e]);
        if !dir_find(dirs, m, &p[..e]) {
            count += 1;
        }
        e = up;
    }
    count
}

// How many of p and its ancestors are in none of the first m rows.
#[tactic(auto, using(crate::proofs::Registering::missing_paths))]
pub fn missing_path(dirs: &[u8], m: usize, p: &[u8]) -> usize
    requires { m * dir_width ≤ length dirs.now }
    ensures { result ≡ length (absent (dirs_of dirs.now m) (normal p.now ∷ ancestors p.now)) }
{
    let count = missing(dirs, m, p);
    if dir_find(dirs, m, p) {
        return count;
    }
    count + 1
}

// Row m, the first free one, becomes the row of p. Its bytes behind the spelling are zero already.
#[tactic(auto, using(crate::proofs::InBuffer::row_fits_lem))]
pub fn put_dir(dirs: &mut [u8], cap: usize, m: usize, p: &[u8])
    requires { FlatDirs cap m dirs.old × (m < cap) × (length (normal p.now) ≤ max_path) }
    ensures rows { dirs_of dirs.new (m + 1) ≡ dirs_of dirs.old m ++ (normal p.now ∷ []) }
    ensures flat { FlatDirs cap (m + 1) dirs.new }
{
    let at = m * DIR_WIDTH;
    let a = at + 2;
    let k = path::normalize(p, &mut dirs[a..a + MAX_PATH]);
    le::put_at(dirs, at, 2, k as u64);
}

// Adds the ancestors of p that are in no row yet, nearest first, and gives the new count. The Rust stops at the first that it finds;
// all are looked for here, which gives the same directories (specs/Laws.antt, `stops_early_same`) and needs nothing of the rows.
#[tactic(auto, using(crate::proofs::InBuffer::dirs_long, path::proofs::Ancestors::up_falls))]
pub fn register_ancestors(dirs: &mut [u8], cap: usize, m: usize, p: &[u8]) -> usize
    requires { FlatDirs cap m dirs.old
        × (length (registered (dirs_of dirs.old m) p.now) ≤ cap)
        × (length (normal p.now) ≤ max_path) }
    ensures rows { dirs_of dirs.new result ≡ registered (dirs_of dirs.old m) p.now }
    ensures flat { FlatDirs cap result dirs.new }
{
    let mut n = m;
    // As in `missing`, not by one.
    let mut end = path::above(p);
    while end != 0 {
        let up = path::above(&p[..end]);
        let held = dir_find(dirs, m, &p[..end]);
        if !held {
            put_dir(dirs, cap, n, &p[..end]);
            n += 1;
        }
        end = up;
    }
    n
}

// Adds p, and then its ancestors, where they are in no row yet, and gives the new count.
#[tactic(auto, using(crate::proofs::InBuffer::dirs_long))]
pub fn register_path(dirs: &mut [u8], cap: usize, m: usize, p: &[u8]) -> usize
    requires { FlatDirs cap m dirs.old
        × (length (registered_with (dirs_of dirs.old m) p.now) ≤ cap)
        × (length (normal p.now) ≤ max_path) }
    ensures rows { dirs_of dirs.new result ≡ registered_with (dirs_of dirs.old m) p.now }
    ensures flat { FlatDirs cap result dirs.new }
{
    if dir_find(dirs, m, p) {
        return register_ancestors(dirs, cap, m, p);
    }
    put_dir(dirs, cap, m, p);
    register_ancestors(dirs, cap, m + 1, p)
}
