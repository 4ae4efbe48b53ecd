//! What a journal makes durable.
ghost use Rattle.std.specs.Prelude.{◌≡◌, ◌≤◌, None, length};
ghost use Rattle.ring_records.specs.declared.limits.TheConstants.{BATCH_INPUTS};
ghost use Rattle.gated_journal.specs.Batch.{is_checkpoint};
ghost use Rattle.gated_journal.specs.Works.{flown_by, summary_by};
ghost use Rattle.gated_journal.specs.WorkTaken.{syncs_of};

use crate::{Batch, Checkpoint};

/// What is to be made durable.
pub enum Work {
    /// The first inputs that wait, 1 to 64.
    Batch(Batch),
    /// All inputs that wait, any number, with the summary that stands for these and all before them.
    Checkpoint(Checkpoint),
}

impl Work {
    /// The number of the first of its inputs, counted from 0: so many are durable before it.
    pub fn first(&self) -> u64
        ensures { result ≡ (flown_by self.now).first }
    {
        match self {
            Work::Batch(batch) => batch.first(),
            Work::Checkpoint(made) => made.first(),
        }
    }

    /// How many inputs it makes durable: 1 to 64 of a batch, any number of a checkpoint.
    pub fn count(&self) -> usize
        ensures value { result ≡ length (flown_by self.now).inputs }
        ensures size { summary_by self.now ≡ None → (1 ≤ result) × (result ≤ BATCH_INPUTS) }
    {
        match self {
            Work::Batch(batch) => batch.inputs().len(),
            Work::Checkpoint(made) => made.inputs().len(),
        }
    }

    /// Whether it is a checkpoint.
    pub fn is_checkpoint(&self) -> bool
        ensures { result ≡ is_checkpoint (flown_by self.now) }
    {
        match self {
            Work::Batch(_) => false,
            Work::Checkpoint(_) => true,
        }
    }

    /// How many syncs of the device it takes where none fails.
    pub fn syncs(&self) -> u64
        ensures { result ≡ syncs_of (is_checkpoint (flown_by self.now)) }
    {
        syncs(self.is_checkpoint())
    }
}

/// How many syncs of its device a journal takes for a checkpoint, 3, or for a batch, 2, where none fails.
pub fn syncs(is_checkpoint: bool) -> u64
    ensures { result ≡ syncs_of is_checkpoint }
{
    if is_checkpoint { 3 } else { 2 }
}
