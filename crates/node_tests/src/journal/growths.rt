// Calls that are refused for want of memory change nothing, and succeed when they are made again.
ghost use Rattle.std.specs.Prelude.{◌≡◌, IfOk};
ghost use Rattle.ring_records.specs.Snapshot.{IsSound};
ghost use Rattle.gated_journal.specs.Batch.{base_by};
ghost use Rattle.gated_journal.specs.Journal.{member_of};

use disk_model::{Device, MemDevice};
use gated_journal::{Batch, Checkpoint, Journal, Opening, Receipt, Spoiled, device_size};
use ring_records::{Input, LAYOUT, NodeNo, Refusal, read_summary, summary_len};
use std::alloc::Global;
use std::process::Abort;
use test_rows::Op;

const CAPACITY: u32 = 4096;

/// The snapshot in layout 3 of node 1 of 3 that stood for red 5 with bid 10, and whose token is not credited yet.
static STOOD: [u8; 69] = [
    0, 0, 0, 0, 0, 0, 0, 1, 0, 0, 0, 0, 0, 0, 0, 0, 0, 0, 0, 0, 0, 0, 0, 0, 0, 0, 0, 0, 0, 0, 0, 1,
    0, 1, 0, 0, 0, 1, 3, 0x72, 0x65, 0x64, 0, 0, 0, 5, 1, 0, 0, 0, 10, 2, 3, 0x72, 0x65, 0x64, 0,
    0, 0, 5, 0, 0, 0, 10, 1, 0, 0, 0, 0,
];

/// The Stand of that node.
pub fn stand(rt: &impl Abort) -> [Input; 1] {
    [Op::Stand("red", 5, 10).input().expect(rt, "an input")]
}

/// A device that is as long as a journal needs, at the second call where the first finds no memory.
fn device_at_last(rt: &impl Abort, alloc: Global) -> MemDevice {
    let size = usize::try_from(device_size(CAPACITY)).expect(rt, "a size");
    match MemDevice::new(alloc, size) {
        Ok(device) => device,
        Err(_) => MemDevice::new(alloc, size).expect(rt, "ample memory"),
    }
}

fn batch_at_last(rt: &impl Abort, alloc: Global, inputs: &[Input]) -> Batch {
    match Batch::new(alloc, NodeNo::first(), 0, inputs) {
        Ok(batch) => batch,
        Err(refusal) => {
            assert!(rt; refusal == Refusal::OutOfMemory);
            Batch::new(alloc, NodeNo::first(), 0, inputs).expect(rt, "ample memory")
        }
    }
}

/// What was to become durable is so.
fn is_durable(rt: &impl Abort, ended: Result<Receipt, Spoiled>) {
    match ended {
        Ok(receipt) => drop(receipt.into_parts()),
        Err(spoiled) => {
            drop(spoiled.into_parts());
            panic!(rt; "the device works")
        }
    }
}

/// A new journal of node 1 of 3 on this device.
pub fn formatted<D: Device + Drop>(rt: &impl Abort, device: D) -> Journal<D> {
    let Ok(journal) = Journal::format(device, NodeNo::first(), 3, CAPACITY) else {
        panic!(rt; "the device works");
    };
    journal
}

/// Makes the Stand durable, which is the journal's first input.
pub fn takes_stand<D: Device>(rt: &impl Abort, alloc: Global, journal: &mut Journal<D>) {
    let batch = batch_at_last(rt, alloc, &stand(rt));
    assert!(rt; !journal.is_spoiled());
    assert!(rt; batch.node() == journal.node());
    assert!(rt; batch.first() == journal.len());
    assert!(rt; journal.room() >= batch.cost());
    assert!(rt; journal.suits(batch.inputs()));
    is_durable(rt, journal.commit(batch));
}

/// The checkpoint of that node, which stands for that Stand.
fn checkpoint(rt: &impl Abort, alloc: Global) -> Result<Checkpoint, Refusal>
    ensures { IfOk result (λ made. IsSound 3 (base_by made)) }
{
    let summary = read_summary(alloc, &STOOD, 3, LAYOUT)?;
    assert!(rt; summary.floors.len() <= u32::MAX as usize);
    assert!(rt; summary_len(&summary, LAYOUT) <= u64::from(u32::MAX));
    assert!(rt; summary.keys.len() <= u32::MAX as usize);
    Checkpoint::new(alloc, NodeNo::first(), 1, &[], summary)
}

fn checkpoint_at_last(rt: &impl Abort, alloc: Global) -> Checkpoint
    ensures { IsSound 3 (base_by result) }
{
    match checkpoint(rt, alloc) {
        Ok(made) => made,
        Err(refusal) => {
            assert!(rt; refusal == Refusal::OutOfMemory);
            checkpoint(rt, alloc).expect(rt, "ample memory")
        }
    }
}

/// Makes the summary of the Stand durable, which is all that the journal holds.
pub fn takes_checkpoint<D: Device>(rt: &impl Abort, alloc: Global, journal: &mut Journal<D>)
    requires { (member_of journal.old).n ≡ 3 }
{
    let checkpoint = checkpoint_at_last(rt, alloc);
    assert!(rt; !journal.is_spoiled());
    assert!(rt; checkpoint.node() == journal.node());
    assert!(rt; checkpoint.first() == journal.len());
    assert!(rt; checkpoint.cost() <= journal.capacity());
    assert!(rt; journal.epoch() < (1 << 40) - 1);
    is_durable(rt, journal.checkpoint(checkpoint));
}

/// The journal on the device, which comes back where the first call finds no memory.
pub fn reopened_at_last<D: Device + Drop>(
    rt: &impl Abort,
    alloc: Global,
    device: D,
) -> (Journal<D>, Opening)
    ensures { (member_of result.0).n ≡ 3 }
{
    let (device, refusal) = match Journal::reopen(alloc, device, NodeNo::first(), 3) {
        Ok(found) => return found,
        Err(refused) => refused,
    };
    assert!(rt; refusal == Refusal::OutOfMemory);
    match Journal::reopen(alloc, device, NodeNo::first(), 3) {
        Ok(found) => found,
        Err(_) => panic!(rt; "not reopened"),
    }
}

/// The opening is of this epoch, with a summary of so many inputs, and these behind it.
pub fn is_opened(rt: &impl Abort, opening: &Opening, found: (u64, u64), inputs: &[Input]) {
    assert!(rt; (opening.epoch, opening.base.inputs) == found);
    assert!(rt; opening.inputs.as_slice() == inputs);
}

#[test]
fn refused_growths(rt: HostRuntime) {
    let alloc = rt.alloc();
    let mut journal = formatted(&rt, device_at_last(&rt, alloc));
    takes_stand(&rt, alloc, &mut journal);
    let (mut journal, opening) = reopened_at_last(&rt, alloc, journal.into_device());
    is_opened(&rt, &opening, (1, 0), &stand(&rt));
    drop(opening);
    takes_checkpoint(&rt, alloc, &mut journal);
    let (journal, opening) = reopened_at_last(&rt, alloc, journal.into_device());
    is_opened(&rt, &opening, (2, 1), &[]);
    drop((journal, opening));
}
