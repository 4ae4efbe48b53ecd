//! Inputs that flew to the device. A receipt says that they are durable. Each must be spent: only `into_parts` ends it.
ghost use Rattle.std.specs.Prelude.{◌≡◌, ◌≤◌, true, None, length};
ghost use Rattle.ring_records.specs.declared.limits.TheConstants.{BATCH_INPUTS};

use ring_records::{Input, NodeNo};
use std::ops::Deref;

/// Inputs that flew, in a batch, or in a checkpoint with the summary of all up to them.
pub struct Flown {
    pub(crate) node: NodeNo,
    pub(crate) first: u64,
    pub(crate) inputs: Vec<Input>,
    pub(crate) snapshot: Option<u64>,
    ghost some: { snapshot ≡ None → 1 ≤ length inputs.items },
    ghost few: { snapshot ≡ None → length inputs.items ≤ BATCH_INPUTS },
}

impl Flown {
    ghost use Rattle.gated_journal.specs.Batch.{is_checkpoint, kept_in, numbered_with};
    ghost use Rattle.gated_journal.specs.Sizes.{is_size};

    /// The node whose inputs they are.
    pub fn node(&self) -> NodeNo
        ensures { result ≡ (kept_in self.now).node }
    {
        self.node
    }

    /// The number of the first of them, counted from 0.
    pub fn first(&self) -> u64
        ensures { result ≡ (kept_in self.now).first }
    {
        self.first
    }

    /// The inputs, 1 to 64 where they are those of a batch.
    pub fn inputs(&self) -> &[Input]
        ensures value { result.now ≡ (kept_in self.now).inputs }
        ensures size { (kept_in self.now).snapshot ≡ None → is_size (length result.now) ≡ true }
    {
        &self.inputs
    }

    /// How many bytes the snapshot has that stands for all inputs up to these; `None` where they are those of a batch.
    pub fn snapshot(&self) -> Option<u64>
        ensures { result ≡ (kept_in self.now).snapshot }
    {
        self.snapshot
    }

    /// Whether a checkpoint took them there.
    pub fn is_checkpoint(&self) -> bool
        ensures { result ≡ is_checkpoint (kept_in self.now) }
    {
        self.snapshot.is_some()
    }

    // Ends it.
    fn into_parts(self) -> (NodeNo, u64, Vec<Input>)
        ensures { numbered_with result.0 result.1 result.2.items (kept_in self).snapshot ≡ kept_in self }
    {
        let Flown {
            node,
            first,
            inputs,
            snapshot: _,
        } = self;
        (node, first, inputs)
    }
}

/// Inputs that are durable.
pub struct Receipt {
    pub(crate) flown: Flown,
}

/// It is read as what flew.
impl Deref for Receipt {
    type Target = Flown;

    ghost deref_gives = { λ receipt flown. flown ≡ receipt.flown };

    fn deref(&self) -> &Flown {
        &self.flown
    }
}

impl Receipt {
    ghost use Rattle.gated_journal.specs.Batch.{landed, numbered_with};

    /// Ends it, and gives node, first number and inputs.
    pub fn into_parts(self) -> (NodeNo, u64, Vec<Input>)
        ensures { numbered_with result.0 result.1 result.2.items (landed self).snapshot ≡ landed self }
    {
        let Receipt { flown } = self;
        flown.into_parts()
    }
}

/// Inputs that may be durable or not, since the device failed.
pub struct Spoiled {
    pub(crate) flown: Flown,
}

/// It is read as what flew.
impl Deref for Spoiled {
    type Target = Flown;

    ghost deref_gives = { λ spoiled flown. flown ≡ spoiled.flown };

    fn deref(&self) -> &Flown {
        &self.flown
    }
}

impl Spoiled {
    ghost use Rattle.gated_journal.specs.Batch.{lost, numbered_with};

    /// Ends it, and gives node, first number and inputs.
    pub fn into_parts(self) -> (NodeNo, u64, Vec<Input>)
        ensures { numbered_with result.0 result.1 result.2.items (lost self).snapshot ≡ lost self }
    {
        let Spoiled { flown } = self;
        flown.into_parts()
    }
}
