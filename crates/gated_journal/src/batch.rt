//! Inputs that become durable together.
ghost use Rattle.std.specs.Prelude.{◌≡◌, ◌≤◌, ◌*◌, true, None, length, IfOk, IfErr, OnOk};
ghost use Rattle.ring_records.specs.declared.limits.TheConstants.{BATCH_INPUTS};
ghost use Rattle.ring_records.specs.Admission.{costs_of, newest};
ghost use Rattle.gated_journal.specs.AreaWritten.{IsFrame};
ghost use Rattle.gated_journal.specs.Props.{IsFrame-prop};

use crate::flown::Flown;
use crate::spell::{cost_of, spell};
use ring_records::{BATCH_INPUTS, Input, NodeNo, Refusal};
use std::alloc::Global;

/// 1 to 64 inputs of a node, already spelled. It must be spent: only the journal ends it.
pub struct Batch {
    pub(crate) flown: Flown,
    pub(crate) cost: u32,
    pub(crate) bytes: Vec<u8>,
    ghost framed: { IsFrame newest flown.inputs.items bytes.items } by { IsFrame-prop newest flown.inputs.items bytes.items },
    ghost plain: { flown.snapshot ≡ None },
    ghost counted: { cost ≡ costs_of flown.inputs.items },
    ghost small: { cost ≤ 42 * BATCH_INPUTS },
}

impl Batch {
    ghost use Rattle.gated_journal.specs.Batch.{numbered, shown};
    ghost use Rattle.gated_journal.specs.Sizes.{is_size, batch_refusal};

    /// The inputs of this node from number `first` on, counted from 0. Refused as 2 where there are not 1 to 64 of
    /// them; and as 8.
    pub fn new(alloc: Global, node: NodeNo, first: u64, inputs: &[Input]) -> Result<Batch, Refusal>
        ensures value { IfOk result (λ batch. shown batch ≡ numbered node first inputs.now) }
        ensures size { OnOk result (is_size (length inputs.now) ≡ true) }
        ensures bound { OnOk result (costs_of inputs.now ≤ 42 * BATCH_INPUTS) }
        ensures refusal { IfErr result (λ refusal. refusal ≡ batch_refusal (length inputs.now)) }
    {
        if inputs.is_empty() || inputs.len() > BATCH_INPUTS {
            return Err(Refusal::BadNumber);
        }
        let Ok(bytes) = spell(alloc, inputs) else {
            return Err(Refusal::OutOfMemory);
        };
        let Ok(kept) = inputs.to_vec(alloc) else {
            return Err(Refusal::OutOfMemory);
        };
        let cost = cost_of(inputs);
        let flown = Flown {
            node,
            first,
            inputs: kept,
            snapshot: None,
        };
        Ok(Batch { flown, cost, bytes })
    }

    /// The node whose inputs they are.
    pub fn node(&self) -> NodeNo
        ensures { result ≡ (shown self.now).node }
    {
        self.flown.node
    }

    /// The number of the first of its inputs, counted from 0.
    pub fn first(&self) -> u64
        ensures { result ≡ (shown self.now).first }
    {
        self.flown.first
    }

    /// Its inputs, 1 to 64.
    pub fn inputs(&self) -> &[Input]
        ensures value { result.now ≡ (shown self.now).inputs }
        ensures size { is_size (length result.now) ≡ true }
    {
        &self.flown.inputs
    }

    /// The bytes of the capacity that they take, at most 2,688.
    pub fn cost(&self) -> u32
        ensures value { result ≡ costs_of (shown self.now).inputs }
        ensures bound { result ≤ 42 * BATCH_INPUTS }
    {
        self.cost
    }
}
