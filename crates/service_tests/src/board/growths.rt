// Refused growths: what a call that is refused for memory leaves.
//
// The test passes as it stands, with memory enough. `rt try --test --fail-alloc N` has its growth N refused.
ghost use Rattle.std.specs.Prelude.{◌≡◌};

use crate::board::rows::{decision, term_and_leader};
use crate::rows::{Latest, key};
use decision_board::{Board, BoardReader, Naming, Opened};
use ring_records::{Candidate, Decision, Notice, Refusal};
use std::alloc::Global;
use std::marker::Brand;
use std::sync::Wait;
use std::test::*;

/// What was refused, how many refused growths the board counted, and what a reader of the board read of the group right
/// after, and of it and of the first key once all was called again.
#[derive(Drop)]
struct Refused {
    appends: u64,
    publishes: u64,
    others: u64,
    counted: u64,
    between: Latest,
    after: Latest,
    below: Result<Option<Candidate>, Refusal>,
}

/// Calls again where the first call was refused, and counts the refusals.
fn append_twice<J: Naming>(
    board: &mut Board<J>,
    notice: &Notice,
    refused: &mut Refused,
) -> Result<(), Refusal> {
    match board.append(*notice) {
        Ok(()) => return Ok(()),
        Err(Refusal::OutOfMemory) => refused.appends = refused.appends.saturating_add(1),
        Err(_) => refused.others = refused.others.saturating_add(1),
    }
    board.append(*notice)
}

/// Calls again where the first call was refused, and reads in between.
fn publish_twice<J: Naming, R: Wait>(
    rt: &R,
    board: &mut Board<J>,
    reader: &mut BoardReader<J>,
    decision: &Decision,
    refused: &mut Refused,
) -> Result<(), Refusal> {
    match board.publish(rt) {
        Ok(()) => return Ok(()),
        Err(Refusal::OutOfMemory) => refused.publishes = refused.publishes.saturating_add(1),
        Err(_) => refused.others = refused.others.saturating_add(1),
    }
    refused.between = reader.latest(&decision.key.group);
    board.publish(rt)
}

fn grow_all<J: Naming, R: Wait>(
    rt: &R,
    alloc: Global,
    opened: Opened,
    old: &Decision,
    new: &[Notice],
) -> Result<Refused, Refusal>
    requires { opened ≡ J.history }
{
    let opening = Notice::Decided(*old);
    let mut board: Board<J> = Board::new(alloc, opened, std::slice::from_ref(&opening), 2)?;
    let place = board.reader();
    let Ok(mut reader) = place else {
        board.end(rt);
        return Err(Refusal::NoPlace);
    };
    let mut refused = Refused {
        appends: 0,
        publishes: 0,
        others: 0,
        counted: 0,
        between: term_and_leader(old),
        after: Ok(None),
        below: Ok(None),
    };
    let mut all = Ok(());
    for notice in new {
        let appended = append_twice(&mut board, notice, &mut refused);
        all = all.and(appended);
    }
    let published = publish_twice(rt, &mut board, &mut reader, old, &mut refused);
    reader.learn(board.tell());
    refused.after = reader.latest(&old.key.group);
    refused.below = reader.who(&old.key);
    refused.counted = board.refusals();
    board.end(rt);
    all?;
    published?;
    Ok(refused)
}

#[test]
fn refused_growths(rt: HostRuntime) -> Result<(), Fail> {
    let old = decision(&rt, "red", 4, 1, 7);
    let last = decision(&rt, "red", 9, 3, 4);
    let low = key(&rt, "red", 9);
    let floor = low.term;
    let more = [
        Notice::Decided(decision(&rt, "red", 5, 2, 30)),
        Notice::Decided(decision(&rt, "red", 6, 3, 1)),
        Notice::Decided(decision(&rt, "red", 7, 1, 2)),
        Notice::Decided(decision(&rt, "red", 8, 2, 3)),
        Notice::Decided(decision(&rt, "red", 9, 3, 4)),
        Notice::Retired {
            group: low.group,
            floor,
        },
    ];
    let first = grow_all::<Brand, _>(&rt, rt.alloc(), Opened::new(), &old, &more);
    let made = match first {
        Ok(refused) => refused,
        Err(refusal) => {
            // Making the board was refused. It can be made again, of another history.
            assert!(rt; refusal == Refusal::OutOfMemory);
            grow_all::<Brand, _>(&rt, rt.alloc(), Opened::new(), &old, &more)?
        }
    };
    assert!(rt; made.others == 0);
    assert!(rt; made.counted == made.appends.saturating_add(made.publishes));
    assert!(rt; made.between == term_and_leader(&old));
    assert!(rt; made.after == term_and_leader(&last));
    assert!(rt; made.below == Err(Refusal::Retired(floor)));
    Ok(())
}
