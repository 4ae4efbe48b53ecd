//! The heads of a journal's two areas, and which of them is read.
ghost use Rattle.std.specs.Prelude.{◌≡◌, ◌+◌, ◌≤◌, ◌<◌, ◌^◌, ℕ, List, length, Decides, MatchOption, IfOk, IfErr};
ghost use Rattle.disk_model.specs.Calls.{IsPart};
ghost use Rattle.gated_journal.specs.Areas.{area_a, area_b, AreAreas, Counts};
ghost use Rattle.gated_journal.specs.AreaWritten.{leaves_closed};
ghost use Rattle.gated_journal.specs.Choose.{IsChosen, IsUnchosen, IsPlainly};
ghost use Rattle.gated_journal.specs.InUse.{IsHeadOf, IsUsed, IsUsedPlainly, IsInUseBy, IsMarked, start_of, other_of};
ghost use Rattle.gated_journal.specs.Damage.{AreAreasUnread};
ghost use Rattle.gated_journal.specs.OnlyReads.{OnlyReads, NoCause};

use crate::layout::{AREA_A, area_b, is_layout};
use crate::read::read_part;
use disk_model::Device;
use ring_records::{EPOCHS, Refusal};

/// What an area begins with: its gate, its layout, its epoch, and how long its snapshot is.
#[derive(Clone, Copy)]
pub(crate) struct Head {
    pub(crate) gate: u8,
    pub(crate) layout: u8,
    pub(crate) epoch: u64,
    pub(crate) size: u32,
}

/// The area that is read.
#[derive(Clone, Copy)]
pub(crate) struct Chosen {
    pub(crate) start: u64,
    // where the other one begins, and whether its gate is there and closed
    pub(crate) other: u64,
    pub(crate) is_closed: bool,
    pub(crate) layout: u8,
    pub(crate) epoch: u64,
    // where its frames begin
    pub(crate) offset: u64,
}

/// Whether the gate of the area in use, whose closed gate is at `gate_at`, is closed itself: so it is where frames are read
/// plainly, and there are none.
pub(crate) fn leaves_closed(area: &Chosen, gate_at: u64) -> bool
    ensures { result ≡ leaves_closed area.now.layout area.now.start gate_at }
{
    area.layout == 1 && gate_at == area.start
}

// One of the two areas.
#[derive(Clone, Copy, PartialEq, Eq)]
enum Area {
    A,
    B,
}

pub(crate) fn head_in(bytes: &[u8; 14]) -> Head
    ensures { IsHeadOf result 0 bytes.now }
{
    let b = bytes;
    Head {
        gate: b[0],
        layout: b[1],
        epoch: u64::from_be_bytes([b[2], b[3], b[4], b[5], b[6], b[7], b[8], b[9]]),
        size: u32::from_be_bytes([b[10], b[11], b[12], b[13]]),
    }
}

impl Head {
    // Whether its area counts: the gate is there and open, and the layout is known.
    fn counts(&self) -> bool
        ensures { (start : ℕ) (image : List ℕ) → IsHeadOf self.now start image → Decides result (Counts start image) }
    {
        self.gate == 1 && is_layout(self.layout)
    }
}

// Which area is read; of two that count it is that of the greater epoch. None where neither counts, or both do in one
// epoch.
fn choose(a: &Head, b: &Head) -> Option<Area>
    ensures { (capacity : ℕ) (image : List ℕ) → IsHeadOf a.now area_a image → IsHeadOf b.now (area_b capacity) image
        → MatchOption result (IsUnchosen capacity image) (λ area. IsChosen (start_of capacity area) (other_of capacity area) image) }
{
    match (a.counts(), b.counts()) {
        (false, false) => None,
        (true, false) => Some(Area::A),
        (false, true) => Some(Area::B),
        (true, true) => {
            if a.epoch == b.epoch {
                None
            } else if b.epoch < a.epoch {
                Some(Area::A)
            } else {
                Some(Area::B)
            }
        }
    }
}

// The area at `start`, where its head is whole.
fn take_area(head: &Head, start: u64, over: &Head, other: u64, size: u64) -> Result<Chosen, Refusal>
    requires small { start < 2 ^ 34 }
    ensures used { IfOk result (λ chosen. (capacity : ℕ) (image : List ℕ) → length image ≡ size → AreAreas capacity start other → IsChosen start other image
        → IsHeadOf head.now start image → IsHeadOf over.now other image → IsUsed capacity image chosen) }
    ensures broken { IfErr result (λ refusal. (n capacity : ℕ) (image : List ℕ) → length image ≡ size → AreAreas capacity start other → IsChosen start other image
        → IsHeadOf head.now start image → AreAreasUnread n capacity image refusal) }
{
    let offset = start + 14 + u64::from(head.size);
    if head.epoch >= EPOCHS || size < offset {
        return Err(Refusal::Damaged(start));
    }
    Ok(Chosen {
        start,
        other,
        is_closed: other < size && over.gate != 1,
        layout: head.layout,
        epoch: head.epoch,
        offset,
    })
}

// Frames alone, with the gate of area B.
fn take_plainly(over: &Head, capacity: u32, size: u64) -> Chosen
    ensures { (image : List ℕ) → length image ≡ size → area_a ≤ size → IsPlainly capacity image → IsHeadOf over.now (area_b capacity) image → IsUsedPlainly capacity image result }
{
    let other = area_b(capacity);
    let is_closed = other < size && over.gate != 1;
    Chosen {
        start: AREA_A,
        other,
        is_closed,
        layout: 1,
        epoch: 0,
        offset: AREA_A,
    }
}

// Whether frames alone are read.
fn is_plainly(a: &Head, b: &Head, is_old: bool) -> bool
    ensures { (capacity : ℕ) (image : List ℕ) → IsMarked is_old image → IsHeadOf a.now area_a image → IsHeadOf b.now (area_b capacity) image
        → Decides result (IsPlainly capacity image) }
{
    if !is_old {
        return false;
    }
    if a.counts() {
        return false;
    }
    !b.counts()
}

// What is read of an image of this size with these heads.
fn pick(a: &Head, b: &Head, capacity: u32, is_old: bool, size: u64) -> Result<Chosen, Refusal>
    requires long { area_a ≤ size }
    ensures used { IfOk result (λ chosen. (image : List ℕ) → length image ≡ size → IsMarked is_old image → IsHeadOf a.now area_a image → IsHeadOf b.now (area_b capacity) image
        → IsInUseBy capacity image chosen) }
    ensures broken { IfErr result (λ refusal. (n : ℕ) (image : List ℕ) → length image ≡ size → IsMarked is_old image → IsHeadOf a.now area_a image → IsHeadOf b.now (area_b capacity) image
        → AreAreasUnread n capacity image refusal) }
{
    if is_plainly(a, b, is_old) {
        return Ok(take_plainly(b, capacity, size));
    }
    match choose(a, b) {
        None => Err(Refusal::Damaged(AREA_A)),
        Some(Area::A) => take_area(a, AREA_A, b, area_b(capacity), size),
        Some(Area::B) => take_area(b, area_b(capacity), a, AREA_A, size),
    }
}

// Reads the first bytes of the area at `start`. Those that the device does not have are 0, and are not asked for.
fn head_bytes<D: Device>(device: &mut D, start: u64) -> Result<[u8; 14], Refusal>
    ensures part { IfOk result (λ bytes. IsPart start bytes (D.disk device.old).image) }
    ensures device { OnlyReads D.Device device.old device.new result NoCause }
{
    let mut bytes = [0; 14];
    let size = device.size();
    if start < size {
        let there = (size - start).min(14) as usize;
        if let Err(refusal) = read_part(device, start, &mut bytes[..there]) {
            return Err(refusal);
        }
    }
    Ok(bytes)
}

// Reads the head of the area at `start`.
fn read_head<D: Device>(device: &mut D, start: u64) -> Result<Head, Refusal>
    ensures head { IfOk result (λ head. IsHeadOf head start (D.disk device.old).image) }
    ensures device { OnlyReads D.Device device.old device.new result NoCause }
{
    match head_bytes(device, start) {
        Ok(bytes) => Ok(head_in(&bytes)),
        Err(refusal) => Err(refusal),
    }
}

// Reads the heads of both areas.
fn read_heads<D: Device>(device: &mut D, capacity: u32) -> Result<(Head, Head), Refusal>
    ensures a { IfOk result (λ heads. IsHeadOf heads.0 area_a (D.disk device.old).image) }
    ensures b { IfOk result (λ heads. IsHeadOf heads.1 (area_b capacity) (D.disk device.old).image) }
    ensures device { OnlyReads D.Device device.old device.new result NoCause }
{
    match read_head(device, AREA_A) {
        Err(refusal) => Err(refusal),
        Ok(a) => match read_head(device, area_b(capacity)) {
            Err(refusal) => Err(refusal),
            Ok(b) => Ok((a, b)),
        },
    }
}

/// Reads the heads of both areas: the one that is read, or frames alone. Refused as 15; as 16 with the offset of area A
/// where none is, and with that of the area where its head is broken.
pub(crate) fn choose_area<D: Device>(
    device: &mut D,
    capacity: u32,
    is_old: bool,
) -> Result<Chosen, Refusal>
    requires long { area_a ≤ length (D.disk device.old).image }
    requires marked { IsMarked is_old (D.disk device.old).image }
    ensures used { IfOk result (λ chosen. IsInUseBy capacity (D.disk device.old).image chosen) }
    ensures device { OnlyReads D.Device device.old device.new result (λ refusal. (n : ℕ) → AreAreasUnread n capacity (D.disk device.old).image refusal) }
{
    match read_heads(device, capacity) {
        Err(refusal) => Err(refusal),
        Ok((a, b)) => pick(&a, &b, capacity, is_old, device.size()),
    }
}
