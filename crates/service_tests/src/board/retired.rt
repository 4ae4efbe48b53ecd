// A board that is told of floors.
ghost use Rattle.std.specs.Prelude.{◌≡◌};

use crate::board::rows::decision;
use crate::rows::key;
use decision_board::{Board, BoardReader, Naming, Opened};
use ring_records::{Key, Notice, Refusal};
use std::alloc::AllocGlobal;
use std::marker::Brand;
use std::process::Abort;
use std::sync::Wait;
use std::test::*;

/// A notice that is published, or a question for a key and its answer.
enum Step {
    /// The group, the term, the leader's node and bid.
    Decided(&'static str, u32, u8, u32),
    /// The group and the floor.
    Retired(&'static str, u32),
    /// The group and the term of a key that this node and bid lead.
    Led(&'static str, u32, u8, u32),
    /// Those of a key without a leader.
    Unled(&'static str, u32),
    /// Those of a key below the floor, and the floor.
    Below(&'static str, u32, u32),
    /// The group, its latest term, and that leader's node and bid.
    Latest(&'static str, u32, u8, u32),
    /// The first group behind this one, with the same.
    Next(&'static str, &'static str, u32, u8, u32),
}

/// A floor above the latest term changes nothing, nor does one that is not above the group's floor; where a floor is given,
/// the terms below it are answered 23, whatever is decided for them later, and other groups keep theirs.
static RETIRES: [Step; 28] = [
    Step::Decided("red", 4, 1, 7),
    Step::Decided("red", 9, 2, 30),
    Step::Decided("blue", 2, 1, 3),
    Step::Retired("red", 10),
    Step::Led("red", 4, 1, 7),
    Step::Retired("green", 1),
    Step::Unled("green", 1),
    Step::Retired("red", 5),
    Step::Below("red", 4, 5),
    Step::Unled("red", 5),
    Step::Led("red", 9, 2, 30),
    Step::Retired("red", 9),
    Step::Below("red", 4, 9),
    Step::Below("red", 8, 9),
    Step::Led("red", 9, 2, 30),
    Step::Latest("red", 9, 2, 30),
    Step::Led("blue", 2, 1, 3),
    Step::Retired("red", 6),
    Step::Below("red", 8, 9),
    Step::Retired("red", 9),
    Step::Below("red", 8, 9),
    Step::Decided("red", 6, 3, 2),
    Step::Below("red", 6, 9),
    Step::Decided("red", 12, 3, 5),
    Step::Led("red", 9, 2, 30),
    Step::Retired("red", 12),
    Step::Below("red", 9, 12),
    Step::Next("blue", "red", 12, 3, 5),
];

fn publish<J: Naming, R: Wait + Abort>(rt: &R, board: &mut Board<J>, notice: Notice) {
    assert!(rt; board.append(notice).is_ok());
    assert!(rt; board.publish(rt).is_ok());
}

fn plays<J: Naming, R: Wait + Abort>(
    rt: &R,
    board: &mut Board<J>,
    reader: &mut BoardReader<J>,
    step: &Step,
) {
    match *step {
        Step::Decided(group, term, node, bid) => {
            publish(
                rt,
                board,
                Notice::Decided(decision(rt, group, term, node, bid)),
            );
        }
        Step::Retired(group, floor) => {
            let Key { group, term } = key(rt, group, floor);
            publish(rt, board, Notice::Retired { group, floor: term });
        }
        Step::Led(group, term, node, bid) => {
            let leader = decision(rt, group, term, node, bid).leader;
            assert!(rt; reader.who(&key(rt, group, term)) == Ok(Some(leader)));
        }
        Step::Unled(group, term) => {
            assert!(rt; reader.who(&key(rt, group, term)) == Ok(None));
        }
        Step::Below(group, term, floor) => {
            let floor = key(rt, group, floor).term;
            assert!(rt; reader.who(&key(rt, group, term)) == Err(Refusal::Retired(floor)));
        }
        Step::Latest(group, term, node, bid) => {
            let latest = decision(rt, group, term, node, bid);
            assert!(rt;
                reader.latest(&latest.key.group) == Ok(Some((latest.key.term, latest.leader)))
            );
        }
        Step::Next(after, group, term, node, bid) => {
            let behind = key(rt, after, 1).group;
            assert!(rt;
                reader.next_group(Some(behind)) == Ok(Some(decision(rt, group, term, node, bid)))
            );
        }
    }
}

fn play_all<J: Naming, R: Wait + Abort + AllocGlobal>(rt: &R, opened: Opened) -> Result<(), Refusal>
    requires { opened ≡ J.history }
{
    let mut board: Board<J> = Board::new(rt.alloc(), opened, &[], 1)?;
    let place = board.reader();
    let Ok(mut reader) = place else {
        board.end(rt);
        return Err(Refusal::NoPlace);
    };
    for step in &RETIRES {
        plays(rt, &mut board, &mut reader, step);
    }
    board.end(rt);
    Ok(())
}

#[test]
fn board_retires(rt: HostRuntime) {
    assert!(rt; play_all::<Brand, _>(&rt, Opened::new()).is_ok());
}
