//! A frame's bytes.
ghost use Rattle.std.specs.Prelude.{◌≡◌, ◌≤◌, ◌+◌, ◌*◌, ◌^◌, ◌<◌, ◌++◌, ◌∷◌, [], length, IfOk, OnOk};
ghost use Rattle.ring_records.specs.declared.limits.TheConstants.{BATCH_INPUTS};
ghost use Rattle.ring_records.specs.Admission.{costs_of, newest};
ghost use Rattle.ring_records.specs.Record.{HasRecord, record_of};
ghost use Rattle.ring_records.specs.RecordLists.{AreBytes};
ghost use Rattle.gated_journal.specs.Frames.{records};
ghost use Rattle.gated_journal.specs.AreaWritten.{IsFrame};

use ring_records::{BATCH_INPUTS, Input, write_record};
use std::alloc::{AllocError, Global};

/// The bytes of the capacity that the inputs take together.
pub(crate) fn cost_of(inputs: &[Input]) -> u32
    requires { length inputs.now ≤ BATCH_INPUTS }
    ensures value { result ≡ costs_of inputs.now }
    ensures records { result ≡ length (records inputs.now) + 7 * length inputs.now }
    ensures bound { result ≤ 42 * BATCH_INPUTS }
{
    let mut cost = 0;
    for input in inputs {
        cost += input.cost();
    }
    cost
}

fn push_text(bytes: &mut Vec<u8>, text: &[u8]) -> Result<(), AllocError>
    ensures items { OnOk result (bytes.new.items ≡ bytes.old.items ++ text.now) }
    ensures range { AreBytes text.now }
{
    bytes.extend_from_slice(text)
}

// Writes the input's record behind the bytes.
fn push_record(bytes: &mut Vec<u8>, input: &Input) -> Result<(), AllocError>
    ensures record { OnOk result (bytes.new.items ≡ bytes.old.items ++ record_of input.now) }
    ensures has { HasRecord input.now }
{
    let mut record = [0; 35];
    let size = write_record(input, &mut record);
    push_text(bytes, &record[..size])
}

/// The frame of the inputs behind its gate, in the newest layout, and the next gate, which is closed.
pub(crate) fn spell(alloc: Global, inputs: &[Input]) -> Result<Vec<u8>, AllocError>
    requires some { 1 ≤ length inputs.now }
    requires few { length inputs.now ≤ BATCH_INPUTS }
    ensures { IfOk result (λ bytes. IsFrame newest inputs.now bytes.items) }
{
    let count = inputs.len() as u16;
    let len = cost_of(inputs) - 7 * u32::from(count);
    let mut bytes = Vec::new(alloc);
    bytes.extend_from_slice(&count.to_be_bytes())?;
    bytes.extend_from_slice(&len.to_be_bytes())?;
    for input in inputs {
        push_record(&mut bytes, input)?;
    }
    bytes.push(0)?;
    Ok(bytes)
}
