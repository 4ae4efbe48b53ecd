// What a journal on a device is told to be.
use disk_model::MemDevice;
use gated_journal::Journal;
use ring_records::{NodeNo, Refusal};
use std::alloc::Global;

/// What is read of a device: so many inputs, in this epoch, or the fault.
#[derive(Clone, Copy)]
pub enum Verdict {
    Reads(u64, u64),
    NotFormatted,
    Damaged(u64),
}

impl Verdict {
    pub fn answer(self) -> Result<(u64, u64), Refusal> {
        match self {
            Verdict::Reads(inputs, epoch) => Ok((inputs, epoch)),
            Verdict::NotFormatted => Err(Refusal::NotFormatted),
            Verdict::Damaged(at) => Err(Refusal::Damaged(at)),
        }
    }
}

/// How many inputs this node of 3 finds on a device, and in which epoch.
pub fn found_by(alloc: Global, device: MemDevice, node: NodeNo) -> Result<(u64, u64), Refusal> {
    match Journal::reopen(alloc, device, node, 3) {
        Ok((journal, opening)) => {
            let found = (journal.len(), opening.epoch);
            drop((journal, opening));
            Ok(found)
        }
        Err((device, refusal)) => {
            drop(device);
            Err(refusal)
        }
    }
}

/// The same of node 1.
pub fn found(alloc: Global, device: MemDevice) -> Result<(u64, u64), Refusal> {
    found_by(alloc, device, NodeNo::first())
}
