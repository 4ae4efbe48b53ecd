// What the area in use may hold: a Retire in layout 3 alone.
ghost use Rattle.std.specs.Prelude.{◌≡◌};
ghost use Rattle.gated_journal.specs.Journal.{member_of};

use super::growths::{reopened_at_last, takes_checkpoint};
use super::{COMMITTED, EARLIER, PLAIN, device};
use crate::rows::inputs;
use crate::store::journal::commits_all;
use disk_model::{Device, FuseDevice, MemDevice};
use gated_journal::Journal;
use std::alloc::AllocGlobal;
use std::process::Abort;
use test_rows::Op;

const STOOD: Op = Op::Stand("red", 5, 10);

const ACKED: Op = Op::Acked(1);

const RETIRED: Op = Op::Retire("red", 5);

/// Whether the journal's area in use may hold these inputs.
fn may_hold(rt: &(impl Abort + AllocGlobal), journal: &Journal<impl Device>, ops: &[Op]) -> bool {
    let inputs = inputs(rt, rt.alloc(), ops);
    let suits = journal.suits(&inputs);
    drop(inputs);
    suits
}

/// The journal's area in use is of this layout, and may hold other inputs, and a Retire or not.
fn suits(
    rt: &(impl Abort + AllocGlobal),
    journal: &Journal<impl Device>,
    layout: u8,
    retires: bool,
) {
    assert!(rt; journal.layout() == layout);
    assert!(rt; may_hold(rt, journal, &[]));
    assert!(rt; may_hold(rt, journal, &[STOOD, ACKED]));
    assert!(rt; may_hold(rt, journal, &[RETIRED]) == retires);
    assert!(rt; may_hold(rt, journal, &[STOOD, ACKED, RETIRED]) == retires);
    assert!(rt; may_hold(rt, journal, &[RETIRED, STOOD]) == retires);
}

/// The journal on this image, which holds the Stand.
fn opened<R: Abort + AllocGlobal>(rt: &R, image: &[u8]) -> Journal<FuseDevice<MemDevice>>
    ensures { (member_of result).n ≡ 3 }
{
    let begins = FuseDevice::idle(device(rt, &[(0, image)]));
    let (journal, opening) = reopened_at_last(rt, rt.alloc(), begins);
    drop(opening);
    journal
}

/// The journal on this image, whose area is of this layout, takes a Retire once a checkpoint was made.
fn suits_at_last<R: Abort + AllocGlobal>(rt: &R, image: &[u8], layout: u8) {
    let mut journal = opened(rt, image);
    suits(rt, &journal, layout, false);
    commits_all(rt, &mut journal, &[ACKED]).into_parts();
    suits(rt, &journal, layout, false);
    drop(journal);
    let mut journal = opened(rt, image);
    takes_checkpoint(rt, rt.alloc(), &mut journal);
    suits(rt, &journal, 3, true);
    commits_all(rt, &mut journal, &[RETIRED]).into_parts();
    let (journal, opening) = reopened_at_last(rt, rt.alloc(), journal.into_device());
    suits(rt, &journal, 3, true);
    let wanted = inputs(rt, rt.alloc(), &[RETIRED]);
    assert!(rt; opening.layout == 3 && opening.inputs.as_slice() == wanted.as_slice());
    drop((journal, opening, wanted));
}

#[test]
fn an_earlier_layout_suits_no_retire_until_a_checkpoint(rt: HostRuntime) {
    let newest = opened(&rt, &COMMITTED);
    suits(&rt, &newest, 3, true);
    drop(newest);
    suits_at_last(&rt, &PLAIN, 1);
    suits_at_last(&rt, &EARLIER, 2);
}
