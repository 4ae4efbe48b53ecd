//! A summary that is to stand for all inputs so far.
ghost use Rattle.std.specs.Prelude.{◌≡◌, ◌<◌, ◌≤◌, ◌^◌, Some, length, IfOk, IfErr};
ghost use Rattle.std.specs.FinMap as map;
ghost use Rattle.ring_records.specs.declared.summary.Summary.{Summary};
ghost use Rattle.ring_records.specs.Admission.{newest};
ghost use Rattle.ring_records.specs.Snapshot.{snapshot_len};
ghost use Rattle.gated_journal.specs.AreaWritten.{new_area, blank_area};

use crate::flown::Flown;
use crate::layout::LAYOUT;
use ring_records::{Input, NodeNo, Refusal, Summary, summary_len, write_summary};
use std::alloc::{AllocError, Global};

/// A summary of all inputs so far, and those of them that are not durable yet, any number; already spelled. It must be
/// spent: only the journal ends it.
pub struct Checkpoint {
    pub(crate) flown: Flown,
    pub(crate) base: Summary,
    pub(crate) bytes: Vec<u8>,
    ghost framed: { bytes.items ≡ blank_area newest base },
    ghost sized: { flown.snapshot ≡ Some (snapshot_len newest base) },
    ghost short: { snapshot_len newest base < 2 ^ 32 },
    ghost few_keys: { map.len base.keys < 2 ^ 32 },
}

// The bytes of an area without frames behind its gate, with zeros in place of the layout and the epoch.
fn blank_area(alloc: Global, base: &Summary) -> Result<Vec<u8>, AllocError>
    requires short { snapshot_len newest base.now < 2 ^ 32 }
    requires few_keys { map.len base.now.keys < 2 ^ 32 }
    ensures { IfOk result (λ bytes. bytes.items ≡ blank_area newest base.now) }
{
    let snapshot = write_summary(alloc, base, LAYOUT)?;
    let size = snapshot.len() as u32;
    let mut bytes = vec![in alloc; 0; 9]?;
    bytes.extend_from_slice(&size.to_be_bytes())?;
    bytes.extend_from_slice(&snapshot)?;
    bytes.push(0)?;
    Ok(bytes)
}

/// Writes the layout and the epoch in front of an area's bytes.
pub(crate) fn number(bytes: &mut Vec<u8>, epoch: u64)
    requires { 9 ≤ length bytes.old.items }
    ensures { (base : Summary) → bytes.old.items ≡ blank_area newest base → bytes.new.items ≡ new_area newest epoch base }
{
    bytes[0] = LAYOUT;
    bytes[1..9].copy_from_slice(&epoch.to_be_bytes());
}

impl Checkpoint {
    ghost use Rattle.gated_journal.specs.Batch.{Numbered, numbered_with, numbered_by, base_by};

    /// A summary that stands for all inputs of this node up to these, which are those from number `first` on, counted
    /// from 0. Refused as 8.
    pub fn new(
        alloc: Global,
        node: NodeNo,
        first: u64,
        inputs: &[Input],
        base: Summary,
    ) -> Result<Checkpoint, Refusal>
        requires short { snapshot_len newest base < 2 ^ 32 }
        requires few_keys { map.len base.keys < 2 ^ 32 }
        ensures value { IfOk result (λ checkpoint. numbered_by checkpoint ≡ numbered_with node first inputs.now (Some (snapshot_len newest base))) }
        ensures base { IfOk result (λ checkpoint. base_by checkpoint ≡ base) }
        ensures refusal { IfErr result (λ refusal. refusal ≡ Refusal.OutOfMemory) }
    {
        let Ok(bytes) = blank_area(alloc, &base) else {
            return Err(Refusal::OutOfMemory);
        };
        let Ok(kept) = inputs.to_vec(alloc) else {
            return Err(Refusal::OutOfMemory);
        };
        let snapshot = summary_len(&base, LAYOUT);
        Ok(Checkpoint {
            flown: Flown {
                node,
                first,
                inputs: kept,
                snapshot: Some(snapshot),
            },
            base,
            bytes,
        })
    }

    /// The node whose inputs they are.
    pub fn node(&self) -> NodeNo
        ensures { result ≡ (numbered_by self.now).node }
    {
        self.flown.node
    }

    /// The number of the first of its inputs, counted from 0.
    pub fn first(&self) -> u64
        ensures { result ≡ (numbered_by self.now).first }
    {
        self.flown.first
    }

    /// Its inputs: those that its summary stands for and that are not durable yet.
    pub fn inputs(&self) -> &[Input]
        ensures { result.now ≡ (numbered_by self.now).inputs }
    {
        &self.flown.inputs
    }

    /// What it says of all inputs up to these.
    pub fn base(&self) -> &Summary
        ensures { result.now ≡ base_by self.now }
    {
        &self.base
    }

    /// The bytes of the capacity that its snapshot takes.
    pub fn cost(&self) -> u32
        ensures { result ≡ snapshot_len newest (base_by self.now) }
    {
        summary_len(&self.base, LAYOUT) as u32
    }
}
