//! Feeds a reader the area of a device, piece after piece.
ghost use Rattle.std.specs.Prelude.{◌≡◌, ◌+◌, ◌≤◌, ◌<◌, ◌^◌, length, take, drop, Ok, IfOk};
ghost use Rattle.gated_journal.specs.Feeding.{IsFed, IsContentless};
ghost use Rattle.gated_journal.specs.Pieces.{with_piece, IsPieceDamaged};
ghost use Rattle.gated_journal.specs.OnlyReads.{OnlyReads, MemoryOr};

use crate::read::read_part;
use crate::{AreaReader, Fed};
use disk_model::Device;
use ring_records::Refusal;
use std::alloc::Global;

// How many bytes are read at once, at most.
pub(crate) const PIECE: usize = 4096;

// Reads the bytes from `at` on, as many as the buffer takes, and feeds them.
fn feed_from<D: Device>(
    device: &mut D,
    reader: &mut AreaReader,
    at: u64,
    piece: &mut [u8],
) -> Result<Fed, Refusal>
    requires next { reader.old.offset + length reader.old.bytes ≤ at }
    requires there { at + length piece.old ≤ length (D.disk device.old).image }
    requires small { at + length piece.old < 2 ^ 64 }
    ensures fed { IfOk result (λ told. reader.new ≡ with_piece reader.old (take (length piece.old) (drop at (D.disk device.old).image)) (Ok told)) }
    ensures device { OnlyReads D.Device device.old device.new result (MemoryOr (IsPieceDamaged reader.old (take (length piece.old) (drop at (D.disk device.old).image)))) }
{
    if let Err(refusal) = read_part(device, at, piece) {
        return Err(refusal);
    }
    reader.feed(piece)
}

/// Feeds a new reader the area of this layout at `start`, until it is done or no bytes are left. Refused as 15, as 16 with the offset of
/// what is damaged, and as 8.
pub(crate) fn feed_all<D: Device>(
    alloc: Global,
    device: &mut D,
    layout: u8,
    n: u8,
    start: u64,
) -> Result<AreaReader, Refusal>
    requires there { start ≤ length (D.disk device.old).image }
    ensures fed { IfOk result (λ reader. IsFed layout n start (D.disk device.old).image reader) }
    ensures small { IfOk result (λ reader. reader.offset + length reader.bytes < 2 ^ 64) }
    ensures device { OnlyReads D.Device device.old device.new result (IsContentless layout n start (D.disk device.old).image) }
{
    let size = device.size();
    let mut reader = AreaReader::new(alloc, start, layout, n);
    let mut buffer = [0; PIECE];
    let mut at = start;
    while at < size {
        let there = (size - at).min(PIECE as u64) as usize;
        match feed_from(device, &mut reader, at, &mut buffer[..there]) {
            Ok(Fed::More) => at += there as u64,
            Ok(Fed::Done) => return Ok(reader),
            Err(refusal) => return Err(refusal),
        }
    }
    Ok(reader)
}
