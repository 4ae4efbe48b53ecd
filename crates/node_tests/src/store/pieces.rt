// A node whose journal is read in pieces.
use crate::store::journal::{commits_all, journal_with};
use crate::store::short_reads::{MOST, ShortReads};
use disk_model::{Device, FuseDevice, MemDevice};
use gated_journal::Journal;
use node_store::Node;
use ring_records::NodeNo;
use std::alloc::AllocGlobal;
use std::process::Abort;
use test_rows::Op;

const CAPACITY: u32 = 65_536;

/// Stands for 64 terms, from this one on.
fn stands<R: Abort + AllocGlobal>(rt: &R, first_term: u32) -> Vec<Op> {
    let mut ops = Vec::new(rt.alloc());
    for term in first_term..first_term.saturating_add(64) {
        let stand = Op::Stand("red", term, 10);
        ops.push(stand).expect(rt, "ample memory");
    }
    ops
}

/// Commits 1,024 Stands.
fn commits_1024<R: Abort + AllocGlobal>(rt: &R, journal: &mut Journal<FuseDevice<MemDevice>>) {
    for batch in 0..16 {
        let ops = stands(rt, 1 + 64 * batch);
        commits_all(rt, journal, &ops).into_parts();
    }
}

/// A device whose journal, of node 1 of 3, holds 1,024 Stands.
fn with_1024_stands<R: Abort + AllocGlobal>(rt: &R) -> FuseDevice<MemDevice> {
    let mut journal = journal_with(rt, NodeNo::first(), CAPACITY);
    commits_1024(rt, &mut journal);
    journal.into_device()
}

type Short = ShortReads<FuseDevice<MemDevice>>;

/// The device fails a read of one byte more.
fn reads_no_more<R: Abort + AllocGlobal>(rt: &R, device: &mut Short) {
    let mut bytes = vec![in rt.alloc(); 0; MOST + 1].expect(rt, "ample memory");
    assert!(rt; device.read_at(0, &mut bytes).is_err());
    assert!(rt; device.failures() == 1);
}

/// Node 1 of 3, which the device holds.
fn read_in_pieces<R: Abort + AllocGlobal>(rt: &R, device: Short) -> Node<Short> {
    match Node::recover(rt.alloc(), device, NodeNo::first(), 3, 1) {
        Ok(made) => made,
        Err((_device, refusal)) => panic!(rt; "{refusal}"),
    }
}

#[test]
fn reads_are_short(rt: HostRuntime) {
    let mut device = ShortReads {
        inner: with_1024_stands(&rt),
        faults: 0,
    };
    reads_no_more(&rt, &mut device);
    let made = read_in_pieces(&rt, device);
    assert!(rt; (made.history().len(), made.desk().stands()) == (1024, 1024));
    drop(made);
}
