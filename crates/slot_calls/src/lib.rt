// The slot calls of sah.rs over the memory device, public: `read_slot`, `write_slot`, `sync_slot`, `flush_slot` and `truncate_slot`. They
// work on a device alone: there is no pool, and no record is looked at. Any input may come, and what is refused (2, 3, 4, 6) changes
// nothing. The place in the plan is lent, and moves on by each device call.
#![tactic(auto)]

ghost use Rattle.std.specs.Prelude.{◌≡◌};
ghost use Rattle.device.specs.Device.{dev_before, dev_after};
ghost use Rattle.slot_calls.specs.SlotCalls.{slot_refusal, slot_done, slot_read};
ghost use Rattle.slot_calls.specs.SlotCalls.{read_slot_m, write_slot_m, sync_slot_m, flush_slot_m, truncate_slot_m};

use device::{Geometry, Place};
use header::Header;

// What a read of a slot came to: its number, and how many bytes it gave.
#[derive(Clone, Copy)]
pub struct SlotCount {
    pub number: u8,
    pub count: usize,
}

// What is refused before the device is called: 2, 3, 4, 6, in this order; 0 where nothing is. A call without a path gives none.
fn refusal(bytes: &[u8], phys: &[u64], geometry: Geometry, path: &[u8], slot: usize) -> u8
    ensures { result ≡ slot_refusal geometry bytes.now phys.now path.now slot }
{
    if !device::shape_ok(bytes, phys, geometry) {
        return 2;
    }
    if !text::is_text(path) {
        return 3;
    }
    if Header::MAX_PATH < path.len() {
        return 4;
    }
    if phys.len() <= slot {
        return 6;
    }
    0
}

// ---- the calls

// Reads into buf from file offset `at` on; what buf has past the count stays.
pub fn read_slot(
    bytes: &[u8],
    phys: &[u64],
    geometry: Geometry,
    plan: &[u8],
    place: &mut Place,
    slot: usize,
    at: u64,
    buf: &mut [u8],
) -> SlotCount
    ensures { slot_read result.number result.count buf.new (dev_before bytes.now phys.now place.new)
        ≡ read_slot_m plan.now geometry slot at buf.old (dev_before bytes.now phys.now place.old) }
{
    let number = refusal(bytes, phys, geometry, &[], slot);
    if number != 0 {
        return SlotCount { number, count: 0 };
    }
    let got = device::data_read(bytes, phys, geometry, plan, *place, slot, at, buf);
    *place = got.place;
    SlotCount {
        number: place.last,
        count: got.count,
    }
}

// Writes src from file offset `at` on.
#[tactic(auto, using(crate::proofs::Ways::shaped, crate::proofs::Ways::held), unfolding(crate::specs::SlotCalls::write_slot_m))]
pub fn write_slot(
    bytes: &mut [u8],
    phys: &mut [u64],
    geometry: Geometry,
    plan: &[u8],
    place: &mut Place,
    slot: usize,
    at: u64,
    src: &[u8],
) -> u8
    ensures { slot_done result (dev_after bytes.new phys.new place.new)
        ≡ write_slot_m plan.now geometry slot at src.now (dev_before bytes.old phys.old place.old) }
{
    let number = refusal(bytes, phys, geometry, &[], slot);
    if number != 0 {
        return number;
    }
    *place = device::data_write(bytes, phys, geometry, plan, *place, slot, at, src);
    place.last
}

// Writes the slot's header, and flushes it where that was done whole. `in_use` is 0 for a free slot.
pub fn sync_slot(
    bytes: &mut [u8],
    phys: &mut [u64],
    geometry: Geometry,
    plan: &[u8],
    place: &mut Place,
    slot: usize,
    in_use: u8,
    path: &[u8],
    len: u64,
    generation: u64,
) -> u8
    ensures { slot_done result (dev_after bytes.new phys.new place.new)
        ≡ sync_slot_m plan.now geometry slot in_use path.now len generation
        (dev_before bytes.old phys.old place.old) }
{
    let number = refusal(bytes, phys, geometry, path, slot);
    if number != 0 {
        return number;
    }
    let header = Header {
        in_use: in_use != 0,
        path_len: path.len(),
        len,
        generation,
    };
    *place = device_lent::put_header(bytes, phys, geometry, plan, *place, slot, header, path);
    place.last
}

// Flushes a slot.
pub fn flush_slot(
    bytes: &[u8],
    phys: &[u64],
    geometry: Geometry,
    plan: &[u8],
    place: &mut Place,
    slot: usize,
) -> u8
    ensures { slot_done result (dev_before bytes.now phys.now place.new)
        ≡ flush_slot_m plan.now geometry slot (dev_before bytes.now phys.now place.old) }
{
    let number = refusal(bytes, phys, geometry, &[], slot);
    if number != 0 {
        return number;
    }
    *place = device::flush(plan, *place);
    place.last
}

// Cuts the slot's file to len bytes, or adds zeros up to them.
#[tactic(auto, using(crate::proofs::Ways::shaped, crate::proofs::Ways::held), unfolding(crate::specs::SlotCalls::truncate_slot_m))]
pub fn truncate_slot(
    bytes: &mut [u8],
    phys: &mut [u64],
    geometry: Geometry,
    plan: &[u8],
    place: &mut Place,
    slot: usize,
    len: u64,
) -> u8
    ensures { slot_done result (dev_after bytes.new phys.new place.new)
        ≡ truncate_slot_m plan.now geometry slot len (dev_before bytes.old phys.old place.old) }
{
    let number = refusal(bytes, phys, geometry, &[], slot);
    if number != 0 {
        return number;
    }
    *place = device::data_truncate(bytes, phys, geometry, plan, *place, slot, len);
    place.last
}
