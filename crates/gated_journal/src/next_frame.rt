//! The frame at the front of bytes that may go on, behind its gate. Its inputs are taken without a growth.
ghost use Rattle.std.specs.Prelude.{◌≡◌, ◌+◌, ◌-◌, ◌*◌, ◌≤◌, ℕ, true, false, List, [], length, vec_len, vec_capacity, MatchOption};
ghost use Rattle.ring_records.specs.declared.input.Input.{Input};
ghost use Rattle.ring_records.specs.RecordReading.{BeginsWith};
ghost use Rattle.gated_journal.specs.Frames.{records, Suits, HaveRecords};
ghost use Rattle.gated_journal.specs.NextFrame.{HasHead, TakesRecords, TakesFrame};
ghost use Rattle.gated_journal.specs.Damage.{NoFrame};
ghost use Rattle.gated_journal.specs.Pieces.{IsFrameFront, IsEnough};

use crate::layout::suits;
use ring_records::{BATCH_INPUTS, Input, read_record};

/// Whether bytes are missing of a frame that may stand at the head, by its two numbers.
pub(crate) fn is_short(tail: &[u8]) -> bool
    ensures yes { result ≡ true → IsFrameFront tail.now }
    ensures no { result ≡ false → IsEnough tail.now }
{
    if tail.len() < 6 {
        return true;
    }
    let count = u16::from_be_bytes([tail[0], tail[1]]) as usize;
    let size = u32::from_be_bytes([tail[2], tail[3], tail[4], tail[5]]) as usize;
    if count > BATCH_INPUTS {
        return false;
    }
    if size > 35 * count {
        return false;
    }
    tail.len() - 6 < size
}

// How many inputs the frame at the head has, and their records.
fn head_of(tail: &[u8]) -> Option<(usize, &[u8])>
    ensures { MatchOption result ((layout : ℕ) → NoFrame layout tail.now) (λ head. HasHead tail.now head.0 head.1.now) }
{
    if tail.len() < 6 {
        return None;
    }
    let count = u16::from_be_bytes([tail[0], tail[1]]) as usize;
    let size = u32::from_be_bytes([tail[2], tail[3], tail[4], tail[5]]) as usize;
    if count == 0 || count > BATCH_INPUTS || tail.len() - 6 < size {
        return None;
    }
    Some((count, &tail[6..6 + size]))
}

// The record at the front, of an input that an area of this layout may hold, and how long it is.
fn read_suited(bytes: &[u8], layout: u8) -> Option<(Input, usize)>
    ensures { MatchOption result ((x : Input) (n : ℕ) → BeginsWith bytes.now x n → Suits layout x → ⊥)
        (λ found. BeginsWith bytes.now found.0 found.1 × Suits layout found.0) }
{
    let Ok((input, size)) = read_record(bytes) else {
        return None;
    };
    if suits(&input, layout) {
        Some((input, size))
    } else {
        None
    }
}

// Takes so many records from the bytes, and tells whether they were there and nothing else.
fn take_records(inputs: &mut Vec<Input>, bytes: &[u8], count: usize, layout: u8) -> bool
    requires room { length bytes.now ≤ 7 * (vec_capacity inputs.old - vec_len inputs.old) }
    ensures taken { result ≡ true → TakesRecords layout inputs.old.items inputs.new.items count bytes.now [] }
    ensures broken { result ≡ false → (batch : List Input) → length batch ≡ count → HaveRecords layout batch → bytes.now ≡ records batch → ⊥ }
    ensures room { result ≡ true → 7 * (vec_capacity inputs.old - vec_len inputs.old) ≤ 7 * (vec_capacity inputs.new - vec_len inputs.new) + length bytes.now }
{
    let mut rest = bytes;
    for _ in 0..count {
        let Some((input, size)) = read_suited(rest, layout) else {
            return false;
        };
        inputs.push_reserved(input);
        rest = &rest[size..];
    }
    rest.is_empty()
}

/// Takes the inputs of the frame at the head, in this layout, and tells how long it is.
pub(crate) fn take_frame(inputs: &mut Vec<Input>, tail: &[u8], layout: u8) -> Option<usize>
    requires room { length tail.now ≤ 7 * (vec_capacity inputs.old - vec_len inputs.old) }
    ensures frame { MatchOption result (NoFrame layout tail.now) (λ size. TakesFrame layout inputs.old.items inputs.new.items tail.now size) }
    ensures size { MatchOption result (Unit {0}) (λ size. size ≤ length tail.now) }
    ensures room { MatchOption result (Unit {0}) (λ size. 7 * (vec_capacity inputs.old - vec_len inputs.old) ≤ 7 * (vec_capacity inputs.new - vec_len inputs.new) + size) }
{
    let (count, records) = match head_of(tail) {
        Some(head) => head,
        None => return None,
    };
    if take_records(inputs, records, count, layout) {
        Some(6 + records.len())
    } else {
        None
    }
}
