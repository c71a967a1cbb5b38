// The device: a lent byte slice cut into equal slots, a lent list of physical lengths, one a slot, and a lent plan, one byte a device call.
// It ports the slot calls of sah.rs over memory: a slot's first 512 bytes are its header block, and file offset `at` is device place
// 512 + at. A call fails by plan byte 1, and a flush or a truncate by plan byte 2 too; a write that starts, and a truncate that ends,
// beyond the slot fails. A call that failed comes to 10, a write that stored less than it was asked to 11; `Place` keeps that number
// beside the place in the plan.
#![tactic(auto)]

ghost use Rattle.std.specs.Prelude.{◌≡◌, ◌+◌, ◌-◌, ◌*◌, ◌≤◌, ◌<◌, min, length, get_or};
ghost use Rattle.le.specs.Le.{laid};
ghost use Rattle.device.specs.Device.{Shape, shape_b, Slotted, dev_before, dev_after, turn, onward, share, short, grown};
ghost use Rattle.device.specs.Device.{stored_bytes, stored_phys, read, read_m, write_m, flushed};
ghost use Rattle.device.specs.Device.{header_read_m, header_write_m, data_read_m, data_write_m, data_truncate_m};

// The bytes of a slot before its file's first.
const HEADER: usize = 512;
// The largest slot.
const LARGEST: usize = 1048576;

// Where the plan is, and what the last device call came to: 0, 10 or 11.
#[derive(Clone, Copy)]
pub struct Place {
    pub at: usize,
    pub last: u8,
}

// What kind of device it is: the size of each slot.
#[derive(Clone, Copy)]
pub struct Geometry {
    pub size: usize,
}

// How many bytes a read gave, and the place after it.
#[derive(Clone, Copy)]
pub struct Got {
    pub count: usize,
    pub place: Place,
}

// Says whether the slice and the lengths are a device of this geometry.
pub fn shape_ok(bytes: &[u8], phys: &[u64], geometry: Geometry) -> bool
    ensures { result ≡ shape_b geometry bytes.now phys.now }
{
    let size = geometry.size;
    if size < HEADER {
        return false;
    }
    if LARGEST < size {
        return false;
    }
    if size % HEADER != 0 {
        return false;
    }
    if bytes.len() / size < phys.len() {
        return false;
    }
    if bytes.len() != size * phys.len() {
        return false;
    }
    let top = size as u64;
    phys.iter().all(|x| *x <= top)
}

// Reads the slot's header block: its first 512 bytes, as far as they lie below the physical length.
#[tactic(auto, unfolding(crate::specs::Device::header_read_m))]
pub fn header_read(
    bytes: &[u8],
    phys: &[u64],
    geometry: Geometry,
    plan: &[u8],
    place: Place,
    slot: usize,
    into: &mut [u8; 512],
) -> Got
    requires shape { Shape geometry bytes.now phys.now }
    requires slot_in_bounds { slot < length phys.now }
    ensures { read into.new result
        ≡ header_read_m plan.now geometry slot into.old (dev_before bytes.now phys.now place) }
{
    read_at(bytes, phys, geometry, plan, place, slot, 0, into)
}

// Writes the slot's header block.
#[tactic(auto, unfolding(crate::specs::Device::header_write_m))]
pub fn header_write(
    bytes: &mut [u8],
    phys: &mut [u64],
    geometry: Geometry,
    plan: &[u8],
    place: Place,
    slot: usize,
    block: [u8; 512],
) -> Place
    requires shape { Shape geometry bytes.old phys.old }
    requires slot_in_bounds { slot < length phys.old }
    ensures same { dev_after bytes.new phys.new result
        ≡ header_write_m plan.now geometry slot block (dev_before bytes.old phys.old place) }
    ensures kept { Shape geometry bytes.new phys.new }
{
    write_at(bytes, phys, geometry, plan, place, slot, 0, &block)
}

// Reads into dst from file offset `at` on; what dst has past the count stays.
pub fn data_read(
    bytes: &[u8],
    phys: &[u64],
    geometry: Geometry,
    plan: &[u8],
    place: Place,
    slot: usize,
    at: u64,
    dst: &mut [u8],
) -> Got
    requires shape { Shape geometry bytes.now phys.now }
    requires slot_in_bounds { slot < length phys.now }
    ensures { read dst.new result
        ≡ data_read_m plan.now geometry slot at dst.old (dev_before bytes.now phys.now place) }
{
    let pos = file_pos(geometry, at);
    read_at(bytes, phys, geometry, plan, place, slot, pos, dst)
}

// Writes src from file offset `at` on.
pub fn data_write(
    bytes: &mut [u8],
    phys: &mut [u64],
    geometry: Geometry,
    plan: &[u8],
    place: Place,
    slot: usize,
    at: u64,
    src: &[u8],
) -> Place
    requires shape { Shape geometry bytes.old phys.old }
    requires slot_in_bounds { slot < length phys.old }
    ensures same { dev_after bytes.new phys.new result
        ≡ data_write_m plan.now geometry slot at src.now (dev_before bytes.old phys.old place) }
    ensures kept { Shape geometry bytes.new phys.new }
{
    let pos = file_pos(geometry, at);
    write_at(bytes, phys, geometry, plan, place, slot, pos, src)
}

// Cuts the slot's file to len bytes, or adds zeros up to them.
pub fn data_truncate(
    bytes: &mut [u8],
    phys: &mut [u64],
    geometry: Geometry,
    plan: &[u8],
    place: Place,
    slot: usize,
    len: u64,
) -> Place
    requires shape { Shape geometry bytes.old phys.old }
    requires slot_in_bounds { slot < length phys.old }
    ensures same { dev_after bytes.new phys.new result
        ≡ data_truncate_m plan.now geometry slot len (dev_before bytes.old phys.old place) }
    ensures kept { Shape geometry bytes.new phys.new }
{
    let done = flush(plan, place);
    let last = done.last;
    if last != 0 {
        return done;
    }
    let size = geometry.size;
    let end = file_pos(geometry, len);
    if size < end {
        return next(plan, place, 10);
    }
    let base = slot * size;
    let from = phys[slot] as usize;
    grow(bytes, base, from, end);
    phys[slot] = end as u64;
    done
}

// Flushes a slot: over memory there is nothing to do, but the plan may have it fail.
#[tactic(auto, unfolding(crate::specs::Device::flushed, crate::specs::Device::stops))]
pub fn flush(plan: &[u8], place: Place) -> Place
    ensures { result ≡ flushed plan.now place }
{
    let byte = turn_of(plan, place);
    let last = if byte == 1 || byte == 2 { 10 } else { 0 };
    next(plan, place, last)
}

// The plan's byte for the next call; 0 at or past the plan's end.
#[tactic(auto, unfolding(crate::specs::Device::turn))]
fn turn_of(plan: &[u8], place: Place) -> u8
    ensures { result ≡ turn plan.now place }
{
    plan.get(place.at).copied().unwrap_or(0)
}

// The place after a call that came to `last`.
#[tactic(auto, unfolding(crate::specs::Device::onward))]
fn next(plan: &[u8], place: Place, last: u8) -> Place
    ensures { result ≡ onward plan.now last place }
{
    let at = place.at;
    if at < plan.len() {
        return Place { at: at + 1, last };
    }
    Place { at, last }
}

// The place in the slot of file offset `at`, or the first place beyond the slot where it lies further.
fn file_pos(geometry: Geometry, at: u64) -> usize
    requires { (512 ≤ geometry.size) × (geometry.size ≤ 1048576) }
    ensures { result ≡ min (512 + at) (geometry.size + 1) }
{
    let room = geometry.size - HEADER;
    HEADER + at.min(room as u64 + 1) as usize
}

// How many bytes a read or a write moves, of n that it could, under this byte of the plan.
#[tactic(auto, unfolding(crate::specs::Device::share))]
fn share_of(byte: u8, n: usize) -> usize
    ensures { result ≡ share byte n }
{
    if byte == 2 { n / 2 } else { n }
}

// Reads into dst from place `pos` of the slot on.
#[tactic(auto, using(crate::proofs::Ways::parts_read))]
fn read_at(
    bytes: &[u8],
    phys: &[u64],
    geometry: Geometry,
    plan: &[u8],
    place: Place,
    slot: usize,
    pos: usize,
    dst: &mut [u8],
) -> Got
    requires shape { Shape geometry bytes.now phys.now }
    requires slot_in_bounds { slot < length phys.now }
    ensures { read dst.new result
        ≡ read_m plan.now geometry slot pos dst.old (dev_before bytes.now phys.now place) }
{
    let byte = turn_of(plan, place);
    if byte == 1 {
        return Got {
            count: 0,
            place: next(plan, place, 10),
        };
    }
    let end = phys[slot] as usize;
    if end <= pos {
        return Got {
            count: 0,
            place: next(plan, place, 0),
        };
    }
    let n = share_of(byte, dst.len().min(end - pos));
    let size = geometry.size;
    let from = slot * size + pos;
    let upto = from + n;
    dst[..upto - from].copy_from_slice(&bytes[from..upto]);
    Got {
        count: n,
        place: next(plan, place, 0),
    }
}

// Writes what fits of src from place `pos` of the slot on.
fn write_at(
    bytes: &mut [u8],
    phys: &mut [u64],
    geometry: Geometry,
    plan: &[u8],
    place: Place,
    slot: usize,
    pos: usize,
    src: &[u8],
) -> Place
    requires shape { Shape geometry bytes.old phys.old }
    requires slot_in_bounds { slot < length phys.old }
    ensures same { dev_after bytes.new phys.new result
        ≡ write_m plan.now geometry slot pos src.now (dev_before bytes.old phys.old place) }
    ensures kept { Shape geometry bytes.new phys.new }
{
    let byte = turn_of(plan, place);
    if byte == 1 {
        return next(plan, place, 10);
    }
    let size = geometry.size;
    if size < pos {
        return next(plan, place, 10);
    }
    let n = share_of(byte, src.len().min(size - pos));
    store(bytes, phys, size, slot, pos, &src[..n]);
    let last = short_of(n, src.len());
    next(plan, place, last)
}

// 11 where n bytes are fewer than were asked.
#[tactic(auto, unfolding(crate::specs::Device::short))]
fn short_of(n: usize, asked: usize) -> u8
    ensures { result ≡ short n asked }
{
    if n < asked { 11 } else { 0 }
}

// Stores src at place `pos` of the slot: the gap from the physical length is zeroed, and the length reaches the end of what was stored.
#[tactic(auto, using(crate::proofs::Ways::stored_out), unfolding(crate::specs::Device::stored_phys))]
fn store(bytes: &mut [u8], phys: &mut [u64], size: usize, slot: usize, pos: usize, src: &[u8])
    requires slotted { Slotted size slot bytes.old phys.old }
    requires src_bound { pos + length src.now ≤ size }
    ensures stored { bytes.new
        ≡ stored_bytes (slot * size) (get_or phys.old slot 0) pos src.now bytes.old }
    ensures reached { phys.new ≡ stored_phys slot pos (length src.now) phys.old }
{
    let base = slot * size;
    let from = phys[slot] as usize;
    grow(bytes, base, from, pos);
    lay(bytes, base + pos, src);
    let end = pos + src.len();
    phys[slot] = phys[slot].max(end as u64);
}

// Zeroes the places `from` up to `to` of the slot that starts at base; none where `to` comes first.
#[tactic(auto, using(crate::proofs::Ways::zeroed_back, crate::proofs::Ways::grown_none))]
fn grow(bytes: &mut [u8], base: usize, from: usize, to: usize)
    requires { (base + from ≤ length bytes.old) × (base + to ≤ length bytes.old) }
    ensures { bytes.new ≡ grown base from to bytes.old }
{
    if from < to {
        bytes[base + from..base + to].fill(0);
    }
}

// Lays src over dst from `at` on.
#[tactic(auto, using(crate::proofs::Ways::copied_back))]
fn lay(dst: &mut [u8], at: usize, src: &[u8])
    requires { at + length src.now ≤ length dst.old }
    ensures { dst.new ≡ laid dst.old at src.now }
{
    dst[at..at + src.len()].copy_from_slice(src);
}
