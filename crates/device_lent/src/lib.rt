// A header's write and flush over a lent place: "one small record that each device call moves on". Each thin call copies the record out,
// makes one call of crate device on it by value, and stores the place that came of it back; its contract is that call's, with the record at
// entry and at exit. What a call came to stands in the record alone (`last`).
// `put_header`, the one writer of headers, holds a place by value and lends it on, for callers that do not lend one.
#![tactic(auto)]

ghost use Rattle.std.specs.Prelude.{◌≡◌, ◌≤◌, ◌<◌, length};
ghost use Rattle.header.specs.Block.{max_path, encoded};
ghost use Rattle.device.specs.Device.{Shape, dev_before, dev_after, flushed, header_write_m};
ghost use Rattle.device_lent.specs.Put.{put_m};

use device::{Geometry, Place};
use header::Header;

// ---- the thin calls: each stays beside its call by value, since edits and the list of theorems speak of it

// Writes the slot's header block.
pub fn header_write(
    bytes: &mut [u8],
    phys: &mut [u64],
    geometry: Geometry,
    plan: &[u8],
    at: &mut Place,
    slot: usize,
    block: [u8; 512],
)
    requires shape { Shape geometry bytes.old phys.old }
    requires slot_in_bounds { slot < length phys.old }
    ensures same { dev_after bytes.new phys.new at.new
        ≡ header_write_m plan.now geometry slot block (dev_before bytes.old phys.old at.old) }
    ensures kept { Shape geometry bytes.new phys.new }
{
    *at = device::header_write(bytes, phys, geometry, plan, *at, slot, block);
}

// Flushes a slot.
pub fn flush(plan: &[u8], at: &mut Place)
    ensures { at.new ≡ flushed plan.now at.old }
{
    *at = device::flush(plan, *at);
}

// ---- over a place by value

// Writes the slot's header block, and flushes it where that was done whole; the place after it.
fn put_block(
    bytes: &mut [u8],
    phys: &mut [u64],
    geometry: Geometry,
    plan: &[u8],
    place: Place,
    slot: usize,
    block: [u8; 512],
) -> Place
    requires shape { Shape geometry bytes.old phys.old }
    requires slot_in_bounds { slot < length phys.old }
    ensures same { dev_after bytes.new phys.new result
        ≡ put_m plan.now geometry slot block (dev_before bytes.old phys.old place) }
    ensures kept { Shape geometry bytes.new phys.new }
{
    let mut at = place;
    header_write(bytes, phys, geometry, plan, &mut at, slot, block);
    if at.last != 0 {
        return at;
    }
    flush(plan, &mut at);
    at
}

// Writes the slot's header with its path, and flushes it. No other function writes a header.
pub fn put_header(
    bytes: &mut [u8],
    phys: &mut [u64],
    geometry: Geometry,
    plan: &[u8],
    place: Place,
    slot: usize,
    header: Header,
    path: &[u8],
) -> Place
    requires shape { Shape geometry bytes.old phys.old × (slot < length phys.old) }
    requires path_len { (length path.now ≡ header.path_len) × (header.path_len ≤ max_path) }
    ensures same { dev_after bytes.new phys.new result
        ≡ put_m plan.now geometry slot (encoded header path.now) (dev_before bytes.old phys.old place) }
    ensures kept { Shape geometry bytes.new phys.new }
{
    let block = header.encode(path);
    put_block(bytes, phys, geometry, plan, place, slot, block)
}
