//! What the area that is read holds.
ghost use Rattle.std.specs.Prelude.{ℕ, ◌+◌, ◌≤◌, length, IfOk};
ghost use Rattle.gated_journal.specs.Areas.{area_a, Begins, HasBase, head_len};
ghost use Rattle.gated_journal.specs.InUse.{IsUsed, IsUsedPlainly, IsInUseBy, IsMarked, reading_of};
ghost use Rattle.gated_journal.specs.Damage.{AreAreasUnread, IsPlainBroken};
ghost use Rattle.gated_journal.specs.Feeding.{IsAreaAt, IsContentless};
ghost use Rattle.gated_journal.specs.Frames.{ReadsTo};
ghost use Rattle.gated_journal.specs.OnlyReads.{OnlyReads, MemoryOr};

use crate::area::{Chosen, choose_area};
use crate::feeding::feed_all;
use crate::layout::AREA_A;
use crate::listed::read_list;
use disk_model::Device;
use ring_records::{Input, OLDEST_AREA, Refusal, Summary};
use std::alloc::Global;

/// What an area holds: a summary, the inputs behind it, and where its closed gate is.
#[derive(Drop)]
pub(crate) struct Contents {
    pub(crate) base: Summary,
    pub(crate) inputs: Vec<Input>,
    pub(crate) gate_at: u64,
}

// Reads the area at `start`, however far its frames go.
fn read_contents<D: Device>(
    alloc: Global,
    device: &mut D,
    layout: u8,
    n: u8,
    start: u64,
) -> Result<Contents, Refusal>
    requires there { start ≤ length (D.disk device.old).image }
    ensures area { IfOk result (λ found. IsAreaAt layout n start (D.disk device.old).image found.base found.inputs.items found.gate_at) }
    ensures device { OnlyReads D.Device device.old device.new result (IsContentless layout n start (D.disk device.old).image) }
{
    match feed_all(alloc, device, layout, n, start) {
        Err(refusal) => Err(refusal),
        Ok(reader) => match reader.finish() {
            Err(refusal) => Err(refusal),
            Ok((base, inputs, gate_at)) => Ok(Contents {
                base,
                inputs,
                gate_at,
            }),
        },
    }
}

// Reads frames alone. Refused as 15; as 8; and as 16, with the offset of area A where they take more than the capacity, and
// with that of a gate where no frame stands behind it.
fn read_plainly<D: Device>(
    alloc: Global,
    device: &mut D,
    capacity: u32,
    chosen: &Chosen,
) -> Result<Contents, Refusal>
    requires used { IsUsedPlainly capacity (D.disk device.old).image chosen.now }
    ensures begins { IfOk result (λ found. (n : ℕ) → Begins n chosen.now.start (D.disk device.old).image (reading_of chosen.now found) chosen.now.offset) }
    ensures frames { IfOk result (λ found. ReadsTo chosen.now.layout chosen.now.offset (D.disk device.old).image found.inputs.items found.gate_at) }
    ensures within { IfOk result (λ found. found.gate_at ≤ chosen.now.start + head_len + capacity) }
    ensures device { OnlyReads D.Device device.old device.new result (MemoryOr (IsPlainBroken capacity (D.disk device.old).image)) }
{
    let bound = AREA_A + 14 + u64::from(capacity);
    match read_list(alloc, device, AREA_A) {
        Err(refusal) => Err(refusal),
        Ok((inputs, gate_at)) => {
            if bound < gate_at {
                return Err(Refusal::Damaged(AREA_A));
            }
            Ok(Contents {
                base: Summary::empty(alloc),
                inputs,
                gate_at,
            })
        }
    }
}

// Reads the area that was chosen. Refused as 15; as 8; and as 16, with the offset of the area where its snapshot is broken
// or its frames take more than the capacity, and with that of a gate where no frame stands behind it.
fn read_in_area<D: Device>(
    alloc: Global,
    device: &mut D,
    n: u8,
    capacity: u32,
    chosen: &Chosen,
) -> Result<Contents, Refusal>
    requires used { IsUsed capacity (D.disk device.old).image chosen.now }
    ensures base { IfOk result (λ found. HasBase n chosen.now.start (D.disk device.old).image (reading_of chosen.now found) chosen.now.offset) }
    ensures frames { IfOk result (λ found. ReadsTo chosen.now.layout chosen.now.offset (D.disk device.old).image found.inputs.items found.gate_at) }
    ensures within { IfOk result (λ found. found.gate_at ≤ chosen.now.start + head_len + capacity) }
    ensures device { OnlyReads D.Device device.old device.new result (MemoryOr (AreAreasUnread n capacity (D.disk device.old).image)) }
{
    let bound = chosen.start + 14 + u64::from(capacity);
    match read_contents(alloc, device, chosen.layout, n, chosen.start) {
        Err(refusal) => Err(refusal),
        Ok(contents) => {
            let gate_at = contents.gate_at;
            if bound < gate_at {
                return Err(Refusal::Damaged(chosen.start));
            }
            Ok(contents)
        }
    }
}

// Reads what was chosen, an area or frames alone. Refused as 15, 8 and 16.
fn read_area<D: Device>(
    alloc: Global,
    device: &mut D,
    n: u8,
    capacity: u32,
    chosen: &Chosen,
) -> Result<Contents, Refusal>
    requires used { IsInUseBy capacity (D.disk device.old).image chosen.now }
    ensures begins { IfOk result (λ found. Begins n chosen.now.start (D.disk device.old).image (reading_of chosen.now found) chosen.now.offset) }
    ensures frames { IfOk result (λ found. ReadsTo chosen.now.layout chosen.now.offset (D.disk device.old).image found.inputs.items found.gate_at) }
    ensures within { IfOk result (λ found. found.gate_at ≤ chosen.now.start + head_len + capacity) }
    ensures device { OnlyReads D.Device device.old device.new result (MemoryOr (AreAreasUnread n capacity (D.disk device.old).image)) }
{
    if chosen.layout < OLDEST_AREA {
        return read_plainly(alloc, device, capacity, chosen);
    }
    read_in_area(alloc, device, n, capacity, chosen)
}

/// Reads what is read, with what it holds. Refused as `choose_area` and `read_area` are.
pub(crate) fn read_areas<D: Device>(
    alloc: Global,
    device: &mut D,
    n: u8,
    capacity: u32,
    is_old: bool,
) -> Result<(Chosen, Contents), Refusal>
    requires long { area_a ≤ length (D.disk device.old).image }
    requires marked { IsMarked is_old (D.disk device.old).image }
    ensures used { IfOk result (λ r. IsInUseBy capacity (D.disk device.old).image r.0) }
    ensures begins { IfOk result (λ r. Begins n r.0.start (D.disk device.old).image (reading_of r.0 r.1) r.0.offset) }
    ensures frames { IfOk result (λ r. ReadsTo r.0.layout r.0.offset (D.disk device.old).image r.1.inputs.items r.1.gate_at) }
    ensures within { IfOk result (λ r. r.1.gate_at ≤ r.0.start + head_len + capacity) }
    ensures device { OnlyReads D.Device device.old device.new result (MemoryOr (AreAreasUnread n capacity (D.disk device.old).image)) }
{
    match choose_area(device, capacity, is_old) {
        Err(refusal) => Err(refusal),
        Ok(area) => match read_area(alloc, device, n, capacity, &area) {
            Err(refusal) => Err(refusal),
            Ok(contents) => Ok((area, contents)),
        },
    }
}
