// `read_dir` of pool.rs: what `flat_children` (env/mod.rs) gives of the files and of the directories, written in order into a lent buffer.
// It refuses with 5 (not a directory) and with 13 (the buffer is too small), and then changes nothing. The caller has seen that the buffers
// are a pool, and that the path is text. Names stay where they are: only the parts that they stand in are picked and put in order.
#![tactic(auto)]

ghost use Rattle.std.specs.Prelude.{◌≡◌, ℕ, Bool, [], ◌++◌, ◌+◌, ◌*◌, ◌≤◌, ◌<◌, map, length, get_or};
ghost use Rattle.std.proofs.lemmas.List.Edits.{sets};
ghost use Rattle.limits.specs.Limits.{dir_width};
ghost use Rattle.lists.specs.Runs.{range};
ghost use Rattle.lists.specs.Sort.{keep, sort};
ghost use Rattle.path.specs.Path.{is_parent};
ghost use Rattle.slot_rows.specs.Rows.{at};
ghost use Rattle.slot_rows.specs.Held.{held, Lie};
ghost use Rattle.dir_rows.specs.Rows.{dirs_of};
ghost use Rattle.pool_state.specs.State.{bufs, bufs_before, view, IsPool};
ghost use Rattle.row_order.specs.Spans.{AllInside, span_before};
ghost use Rattle.inner_list.specs.Listing.{is_child, entry, listing, read_dir_m};
ghost use Rattle.inner_list.specs.Parts.{child_files, child_dirs, size_of, entries};

use pool_state::Pool;
use slot_rows::Rows;

// The number of read_dir, and how many bytes it wrote.
#[derive(Clone, Copy)]
pub struct Listed {
    pub out: u8,
    pub size: usize,
}

// Whether slot row i is bound to a path whose parent is dir.
#[tactic(auto, unfolding(crate::specs::Listing::is_child))]
fn is_child(rows: &Rows, dir: &[u8], i: usize) -> bool
    requires { Lie rows.now × (i < rows.now.n) }
    ensures { result ≡ is_child dir.now (at (held rows.now) i) }
{
    rows.is_bound(i) && path::is_parent(dir, rows.path(i))
}

// Whether the parent of directory row j is dir.
fn is_child_dir(dirs: &[u8], m: usize, dir: &[u8], j: usize) -> bool
    requires { (m * dir_width ≤ length dirs.now) × (j < m) }
    ensures { result ≡ is_parent dir.now (get_or (dirs_of dirs.now m) j []) }
{
    path::is_parent(dir, dir_rows::dir_path(dirs, j))
}

// Writes the paths of the directory's files, by slot, to the front of spans, and says how many they are.
fn child_files(rows: &Rows, dir: &[u8], spans: &mut [u32]) -> usize
    requires { Lie rows.now × (rows.now.n ≤ 256) × (rows.now.n ≤ length spans.old) }
    ensures count { result ≡ length (child_files dir.now (held rows.now)) }
    ensures picked { spans.new ≡ sets spans.old 0 (child_files dir.now (held rows.now)) }
{
    row_order::picked(
        rows.n,
        spans,
        |i| is_child(rows, dir, i),
        |i| row_order::file_span(rows, i),
    )
}

// Writes the spellings of the directory's directories, by row, to the front of spans, and says how many they are.
fn child_dirs(dirs: &[u8], m: usize, dir: &[u8], spans: &mut [u32]) -> usize
    requires { (m * dir_width ≤ length dirs.now) × (m ≤ 256) × (m ≤ length spans.old) }
    ensures count { result ≡ length (child_dirs dir.now (dirs_of dirs.now m)) }
    ensures picked { spans.new ≡ sets spans.old 0 (child_dirs dir.now (dirs_of dirs.now m)) }
{
    row_order::picked(
        m,
        spans,
        |j| is_child_dir(dirs, m, dir, j),
        |j| row_order::dir_span(dirs, m, j),
    )
}

// How many bytes the entries of these parts take.
fn size_of(spans: &[u32]) -> usize
    requires { length spans.now ≤ 256 }
    ensures { result ≡ size_of spans.now }
{
    spans.iter().map(|x| 3 + (*x % 512) as usize).sum()
}

// Writes one entry from index at on.
fn put_entry(path: &[u8], buf: &mut [u8], at: usize, kind: u8)
    requires { (at + 3 + length path.now ≤ length buf.old) × (length path.now < 512) }
    ensures { buf.new ≡ sets buf.old at (entry kind path.now) }
{
    let n = path.len();
    buf[at] = kind;
    le::put_at(buf, at + 1, 2, n as u64);
    buf[at + 3..at + 3 + n].copy_from_slice(path);
}

// Writes the entries of these parts, one behind the other, from index at on, and returns the index behind them.
fn put_entries(bytes: &[u8], spans: &[u32], buf: &mut [u8], at: usize, kind: u8) -> usize
    requires { AllInside bytes.now spans.now × (at + length (entries kind bytes.now spans.now) ≤ length buf.old) }
    ensures end { result ≡ at + length (entries kind bytes.now spans.now) }
    ensures written { buf.new ≡ sets buf.old at (entries kind bytes.now spans.now) }
{
    let mut end = at;
    for x in spans {
        let a = (*x / 512) as usize;
        let n = (*x % 512) as usize;
        put_entry(&bytes[a..a + n], buf, end, kind);
        end = end + 3 + n;
    }
    end
}

// Puts the parts in order, and writes their entries to the front of the buffer: the files, then the directories. Returns how many bytes
// they take.
fn fill(names: &[u8], dirs: &[u8], files: &mut [u32], folders: &mut [u32], buf: &mut [u8]) -> usize
    requires { AllInside names.now files.old
        × AllInside dirs.now folders.old
        × (length (entries 0 names.now files.old) + length (entries 1 dirs.now folders.old) ≤ length buf.old) }
    ensures size { result
        ≡ length (entries 0 names.now files.old) + length (entries 1 dirs.now folders.old) }
    ensures first { files.new ≡ sort (span_before names.now) files.old }
    ensures second { folders.new ≡ sort (span_before dirs.now) folders.old }
    ensures written { buf.new
        ≡ sets buf.old 0
        (entries 0 names.now (sort (span_before names.now) files.old)
        ++ entries 1 dirs.now (sort (span_before dirs.now) folders.old)) }
{
    row_order::sort(names, files);
    row_order::sort(dirs, folders);
    let at = put_entries(names, files, buf, 0, 0);
    put_entries(dirs, folders, buf, at, 1)
}

// Lists the files and the directories whose parent is the path.
pub fn read_dir(
    nums: &[u64],
    names: &[u8],
    dirs: &[u8],
    pool: Pool,
    path: &[u8],
    buf: &mut [u8],
) -> Listed
    requires { IsPool (bufs pool nums.now names.now dirs.now) }
    ensures { listing result.out result.size buf.new
        ≡ read_dir_m path.now buf.old (view (bufs_before nums.now names.now dirs.now pool)) }
{
    let m = pool.dirs;
    if !dir_rows::dir_find(dirs, m, path) {
        return Listed { out: 5, size: 0 };
    }
    let mut files = [0u32; 64];
    let mut folders = [0u32; 256];
    let rows = Rows {
        nums,
        names,
        cap: pool.chosen.rows,
        n: pool.held,
    };
    let f = child_files(&rows, path, &mut files);
    let d = child_dirs(dirs, m, path, &mut folders);
    let size = size_of(&files[..f]) + size_of(&folders[..d]);
    if buf.len() < size {
        return Listed { out: 13, size: 0 };
    }
    let end = fill(names, dirs, &mut files[..f], &mut folders[..d], buf);
    Listed { out: 0, size: end }
}
