// A journal in a real file: its bytes, and what is read of it again.
use super::growths::{formatted, is_opened, reopened_at_last, stand, takes_stand};
use super::{COMMITTED, FRESH};
use crate::devices::{file, reads};
use ring_records::LAYOUT;

#[test]
fn file_device(rt: HostRuntime) {
    let path = "gated_journal_rows.bin";
    let mut journal = formatted(&rt, file::create(&rt, path, &[]));
    file::holds(&rt, path, &FRESH);
    takes_stand(&rt, rt.alloc(), &mut journal);
    assert!(rt; (journal.len(), journal.room(), journal.epoch()) == (1, 4034, 1));
    let mut device = journal.into_device();
    reads(&rt, &mut device, 0, &COMMITTED);
    drop(device);
    file::holds(&rt, path, &COMMITTED);
    let device = file::open(&rt, path, &[]);
    let (journal, opening) = reopened_at_last(&rt, rt.alloc(), device);
    assert!(rt; (journal.len(), journal.room(), opening.layout) == (1, 4034, LAYOUT));
    is_opened(&rt, &opening, (1, 0), &stand(&rt));
    drop((journal, opening));
    file::remove(&rt, path);
}
