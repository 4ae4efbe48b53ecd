// Journals in memory, whose devices fail where a test wants it.
ghost use Rattle.std.specs.Prelude.{◌≡◌};
ghost use Rattle.gated_journal.specs.Journal.{member_of};

use crate::rows::inputs;
use disk_model::{FuseDevice, MemDevice};
use gated_journal::{Batch, Journal, Receipt, Spoiled, device_size};
use ring_records::NodeNo;
use std::alloc::AllocGlobal;
use std::process::Abort;
use test_rows::Op;

/// A device that holds nothing, with room for a journal of this capacity, at the second call where the first finds no memory.
fn device_for<R: Abort + AllocGlobal>(rt: &R, capacity: u32) -> FuseDevice<MemDevice> {
    let size = usize::try_from(device_size(capacity)).expect(rt, "a size");
    match MemDevice::new(rt.alloc(), size) {
        Ok(device) => FuseDevice::idle(device),
        Err(_) => {
            let device = MemDevice::new(rt.alloc(), size).expect(rt, "ample memory");
            FuseDevice::idle(device)
        }
    }
}

/// The same of capacity 4,096.
pub fn empty_device<R: Abort + AllocGlobal>(rt: &R) -> FuseDevice<MemDevice> {
    device_for(rt, 4096)
}

/// A new journal of this node of 3, capacity 4,096.
pub fn journal_of<R: Abort + AllocGlobal>(rt: &R, node: NodeNo) -> Journal<FuseDevice<MemDevice>>
    ensures { (member_of result).n ≡ 3 }
{
    journal_with(rt, node, 4096)
}

/// The same of this capacity.
pub fn journal_with<R: Abort + AllocGlobal>(
    rt: &R,
    node: NodeNo,
    capacity: u32,
) -> Journal<FuseDevice<MemDevice>>
    ensures { (member_of result).n ≡ 3 }
{
    match Journal::format(device_for(rt, capacity), node, 3, capacity) {
        Ok(journal) => journal,
        Err((_device, refusal)) => panic!(rt; "{refusal}"),
    }
}

/// Commits the batch, which is the journal's next.
pub fn commit(
    rt: &impl Abort,
    journal: &mut Journal<FuseDevice<MemDevice>>,
    batch: Batch,
) -> Result<Receipt, Spoiled> {
    assert!(rt; !journal.is_spoiled());
    assert!(rt; batch.node() == journal.node());
    assert!(rt; batch.first() == journal.len());
    assert!(rt; journal.room() >= batch.cost());
    assert!(rt; journal.suits(batch.inputs()));
    journal.commit(batch)
}

/// The journal makes the batch durable.
pub fn commits(
    rt: &impl Abort,
    journal: &mut Journal<FuseDevice<MemDevice>>,
    batch: Batch,
) -> Receipt {
    match commit(rt, journal, batch) {
        Ok(receipt) => receipt,
        Err(_spoiled) => panic!(rt; "spoiled"),
    }
}

/// The journal commits the inputs as its next ones.
pub fn commits_all<R: Abort + AllocGlobal>(
    rt: &R,
    journal: &mut Journal<FuseDevice<MemDevice>>,
    ops: &[Op],
) -> Receipt {
    let inputs = inputs(rt, rt.alloc(), ops);
    let (node, first) = (journal.node(), journal.len());
    let batch = match Batch::new(rt.alloc(), node, first, &inputs) {
        Ok(batch) => batch,
        Err(_) => Batch::new(rt.alloc(), node, first, &inputs).expect(rt, "1 to 64 inputs"),
    };
    commits(rt, journal, batch)
}
