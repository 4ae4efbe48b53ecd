//! What a device holds, read from its start.
ghost use Rattle.std.specs.Prelude.{◌≡◌, ℕ, List, Ok, Err, take, IfOk, IfErr, OnOk};
ghost use Rattle.disk_model.specs.Disk.{MayLeave};
ghost use Rattle.disk_model.specs.Synced.{IsSynced};
ghost use Rattle.ring_records.specs.Member.{member};
ghost use Rattle.gated_journal.specs.Areas.{ReadsAt};
ghost use Rattle.gated_journal.specs.AreaWritten.{IsGate};
ghost use Rattle.gated_journal.specs.InUse.{reading_of, IsMarked};
ghost use Rattle.std.specs.Str.{bytes_eq};
ghost use Rattle.gated_journal.specs.Reading.{old_mark};
ghost use Rattle.gated_journal.specs.OnlyReads.{OnlyReads, SyncsAndReads, NoCause};
ghost use Rattle.gated_journal.specs.Unread.{head_at, header_at, IsNoJournal};

use crate::area::Chosen;
use crate::contents::{Contents, read_areas};
use crate::read::read_part;
use disk_model::Device;
use ring_records::{GREATEST_CAPACITY, LEAST_CAPACITY, NodeNo, Refusal};
use std::alloc::Global;

/// What is found on a device.
#[derive(Drop)]
pub(crate) struct Opened {
    pub(crate) capacity: u32,
    pub(crate) area: Chosen,
    pub(crate) contents: Contents,
}

// Makes what a read gives stable.
fn settle<D: Device>(device: &mut D) -> Result<(), Refusal>
    ensures synced { OnOk result (IsSynced (D.disk device.new)) }
    ensures narrows { (image : List ℕ) → MayLeave (D.disk device.new) image → MayLeave (D.disk device.old) image }
    ensures device { SyncsAndReads D.Device device.old device.new result NoCause }
{
    match device.sync() {
        Ok(()) => Ok(()),
        Err(_) => Err(Refusal::Device(device.failures())),
    }
}

// Whether the mark is that of a journal that began without areas.
fn is_old(head: &[u8; 16]) -> bool
    ensures { result ≡ bytes_eq (take 8 head.now) old_mark }
{
    head.starts_with(b"CRJRNL01")
}

// The capacity that a header names.
fn capacity_of(head: &[u8; 16], node: NodeNo, n: u8) -> Result<u32, Refusal>
    ensures { result ≡ head_at node n head.now }
{
    if !(head.starts_with(b"CRJRNL02") || is_old(head)) {
        return Err(Refusal::NotFormatted);
    }
    if !(head[8] == node.number() && head[9] == n) {
        return Err(Refusal::WrongNode);
    }
    let capacity = u32::from_be_bytes([head[10], head[11], head[12], head[13]]);
    if !(LEAST_CAPACITY <= capacity && capacity <= GREATEST_CAPACITY) {
        return Err(Refusal::Damaged(10));
    }
    if u16::from_be_bytes([head[14], head[15]]) != 0 {
        return Err(Refusal::Damaged(14));
    }
    Ok(capacity)
}

// The same, and whether the mark is that of a journal that began without areas.
fn header_of(head: &[u8; 16], node: NodeNo, n: u8) -> Result<(u32, bool), Refusal>
    ensures header { IfOk result (λ found. head_at node n head.now ≡ Ok found.0) }
    ensures marked { IfOk result (λ found. IsMarked found.1 head.now) }
    ensures refusal { IfErr result (λ refusal. head_at node n head.now ≡ Err refusal) }
{
    match capacity_of(head, node, n) {
        Ok(capacity) => Ok((capacity, is_old(head))),
        Err(refusal) => Err(refusal),
    }
}

// Reads the header: the capacity, and whether its mark is that of a journal that began without areas.
fn read_header<D: Device>(device: &mut D, node: NodeNo, n: u8) -> Result<(u32, bool), Refusal>
    ensures header { IfOk result (λ found. header_at node n (D.disk device.old).image ≡ Ok found.0) }
    ensures marked { IfOk result (λ found. IsMarked found.1 (D.disk device.old).image) }
    ensures device { OnlyReads D.Device device.old device.new result (λ refusal. header_at node n (D.disk device.old).image ≡ Err refusal) }
{
    if device.size() < 17 {
        return Err(Refusal::NotFormatted);
    }
    let mut head = [0; 16];
    if let Err(refusal) = read_part(device, 0, &mut head) {
        return Err(refusal);
    }
    header_of(&head, node, n)
}

// Reads what the device holds.
fn read_journal<D: Device>(
    alloc: Global,
    device: &mut D,
    node: NodeNo,
    n: u8,
) -> Result<Opened, Refusal>
    ensures reads { IfOk result (λ opened. ReadsAt (member node n opened.capacity) (D.disk device.old).image (reading_of opened.area opened.contents)
        opened.area.start opened.area.other opened.area.offset opened.contents.gate_at) }
    ensures gate { IfOk result (λ opened. IsGate opened.area.is_closed opened.area.other (D.disk device.old).image) }
    ensures device { OnlyReads D.Device device.old device.new result (IsNoJournal node n (D.disk device.old).image) }
{
    match read_header(device, node, n) {
        Err(refusal) => Err(refusal),
        Ok((capacity, is_old)) => match read_areas(alloc, device, n, capacity, is_old) {
            Err(refusal) => Err(refusal),
            Ok((area, contents)) => Ok(Opened {
                capacity,
                area,
                contents,
            }),
        },
    }
}

/// Makes the device stable, and reads what it holds: the journal of this node of a ring of `n`.
pub(crate) fn open<D: Device>(
    alloc: Global,
    device: &mut D,
    node: NodeNo,
    n: u8,
) -> Result<Opened, Refusal>
    ensures reads { IfOk result (λ opened. ReadsAt (member node n opened.capacity) (D.disk device.old).image (reading_of opened.area opened.contents)
        opened.area.start opened.area.other opened.area.offset opened.contents.gate_at) }
    ensures gate { IfOk result (λ opened. IsGate opened.area.is_closed opened.area.other (D.disk device.old).image) }
    ensures device { SyncsAndReads D.Device device.old device.new result (IsNoJournal node n (D.disk device.old).image) }
{
    match settle(device) {
        Err(refusal) => Err(refusal),
        Ok(()) => read_journal(alloc, device, node, n),
    }
}
