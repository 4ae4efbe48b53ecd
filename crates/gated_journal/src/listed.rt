//! Frames alone, read from a device piece after piece.
ghost use Rattle.std.specs.Prelude.{◌≡◌, ◌+◌, ◌*◌, ◌-◌, ◌++◌, ◌<◌, ◌≤◌, ◌^◌, ℕ, List, length, take, drop, vec_len, vec_capacity, IfOk};
ghost use Rattle.ring_records.specs.declared.refusal.Refusal.TheVariants.{OutOfMemory};
ghost use Rattle.gated_journal.specs.Damage.{IsBroken};
ghost use Rattle.gated_journal.specs.Found.{IsWaiting};
ghost use Rattle.gated_journal.specs.Frames.{ReadsTo};
ghost use Rattle.gated_journal.specs.Listed.{Lists, IsListed};
ghost use Rattle.gated_journal.specs.OnlyReads.{OnlyReads, MemoryOr};

use crate::feeding::PIECE;
use crate::found::Stage;
use crate::parts::{drop_front, take_framed};
use crate::read::read_part;
use disk_model::Device;
use ring_records::{Input, Refusal};
use std::alloc::{AllocError, Global};

// Takes all frames of layout 1 that are whole from the front of the bytes, which stand at this offset: what stands next, and
// how many bytes were taken.
fn take_list(inputs: &mut Vec<Input>, at: u64, bytes: &[u8]) -> (Stage, usize)
    requires room { length bytes.now ≤ 7 * (vec_capacity inputs.old - vec_len inputs.old) }
    requires small { at + length bytes.now < 2 ^ 64 }
    ensures lists { (taken : List ℕ) → Lists 1 taken inputs.old.items
        → IsListed 1 result.0 (taken ++ take result.1 bytes.now) inputs.new.items (drop result.1 bytes.now) }
    ensures waits { IsWaiting result.0 (drop result.1 bytes.now) }
    ensures damaged { (p : ℕ) → result.0 ≡ Stage.Damaged p → p ≡ at + result.1 }
    ensures size { result.1 ≤ length bytes.now }
{
    let mut taken = 0;
    let mut next = take_framed(inputs, at, bytes, 1);
    while next.1 > 0 {
        taken += next.1;
        next = take_framed(inputs, at + taken as u64, &bytes[taken..], 1);
    }
    (next.0, taken)
}

// Takes what is whole of the rest with the piece behind it, and keeps what is not.
fn list_piece(
    inputs: &mut Vec<Input>,
    rest: &mut Vec<u8>,
    at: u64,
    piece: &[u8],
) -> Result<(Stage, usize), AllocError>
    requires small { at + (length rest.old.items + length piece.now) < 2 ^ 64 }
    ensures lists { IfOk result (λ next. (taken : List ℕ) → Lists 1 taken inputs.old.items
        → IsListed 1 next.0 (taken ++ take next.1 (rest.old.items ++ piece.now)) inputs.new.items rest.new.items) }
    ensures rest { IfOk result (λ next. rest.new.items ≡ drop next.1 (rest.old.items ++ piece.now)) }
    ensures waits { IfOk result (λ next. IsWaiting next.0 rest.new.items) }
    ensures damaged { IfOk result (λ next. (p : ℕ) → next.0 ≡ Stage.Damaged p → p ≡ at + next.1) }
    ensures size { IfOk result (λ next. next.1 ≤ length rest.old.items + length piece.now) }
{
    inputs.reserve((rest.len() + piece.len()) / 7 + 1)?;
    rest.extend_from_slice(piece)?;
    let (stage, taken) = take_list(inputs, at, rest);
    drop_front(rest, taken);
    Ok((stage, taken))
}

// Reads the next bytes of the device, as many as the buffer takes, and takes what is whole of them.
fn list_next<D: Device>(
    device: &mut D,
    inputs: &mut Vec<Input>,
    rest: &mut Vec<u8>,
    at: u64,
    piece: &mut [u8],
) -> Result<(Stage, usize), Refusal>
    requires there { at + (length rest.old.items + length piece.old) ≤ length (D.disk device.old).image }
    requires small { at + (length rest.old.items + length piece.old) < 2 ^ 64 }
    requires rest { rest.old.items ≡ take (length rest.old.items) (drop at (D.disk device.old).image) }
    ensures lists { IfOk result (λ next. (taken : List ℕ) → Lists 1 taken inputs.old.items
        → IsListed 1 next.0 (taken ++ take next.1 (drop at (D.disk device.old).image)) inputs.new.items rest.new.items) }
    ensures rest { IfOk result (λ next. rest.new.items ≡ take (length rest.old.items + length piece.old - next.1) (drop (at + next.1) (D.disk device.old).image)) }
    ensures waits { IfOk result (λ next. IsWaiting next.0 rest.new.items) }
    ensures damaged { IfOk result (λ next. (p : ℕ) → next.0 ≡ Stage.Damaged p → p ≡ at + next.1) }
    ensures size { IfOk result (λ next. next.1 ≤ length rest.old.items + length piece.old) }
    ensures device { OnlyReads D.Device device.old device.new result (λ refusal. refusal ≡ OutOfMemory) }
{
    if let Err(refusal) = read_part(device, at + rest.len() as u64, piece) {
        return Err(refusal);
    }
    match list_piece(inputs, rest, at, piece) {
        Ok(next) => Ok(next),
        Err(_) => Err(Refusal::OutOfMemory),
    }
}

/// Reads the frames that begin at `start`, up to their closed gate, and the offset of that. Refused as 15; as 16, with the
/// offset of a gate where no frame stands behind it, or of the end where no gate stands; and as 8.
pub(crate) fn read_list<D: Device>(
    alloc: Global,
    device: &mut D,
    start: u64,
) -> Result<(Vec<Input>, u64), Refusal>
    requires there { start ≤ length (D.disk device.old).image }
    ensures reads { IfOk result (λ r. ReadsTo 1 start (D.disk device.old).image r.0.items r.1) }
    ensures device { OnlyReads D.Device device.old device.new result (MemoryOr (IsBroken 1 start (D.disk device.old).image)) }
{
    let size = device.size();
    let mut inputs = Vec::new(alloc);
    let mut rest = Vec::new(alloc);
    let mut buffer = [0; PIECE];
    let mut at = start;
    while at + (rest.len() as u64) < size {
        let there = (size - at - rest.len() as u64).min(PIECE as u64) as usize;
        match list_next(device, &mut inputs, &mut rest, at, &mut buffer[..there]) {
            Err(refusal) => return Err(refusal),
            Ok(next) => {
                at += next.1 as u64;
                match next.0 {
                    Stage::Done => return Ok((inputs, at)),
                    Stage::Damaged(gate) => return Err(Refusal::Damaged(gate)),
                    Stage::Head => {}
                    Stage::Snapshot(_) => {}
                    Stage::Frames => {}
                }
            }
        }
    }
    Err(Refusal::Damaged(at))
}
