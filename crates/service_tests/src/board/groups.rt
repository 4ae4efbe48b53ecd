// The groups of a board, one by one.
ghost use Rattle.std.specs.Prelude.{◌≡◌};

use crate::board::rows::{decision, notices};
use decision_board::{Board, Naming, Opened};
use ring_records::{Decision, Refusal};
use std::alloc::Global;
use std::marker::Brand;
use std::sync::Wait;
use std::test::*;

/// What a read of the next group answers.
type Next = Result<Option<Decision>, Refusal>;

/// What a reader tells behind no name, behind the first group and behind the last, and after the board's end.
#[derive(Drop)]
struct Walk {
    begins: Next,
    second: Next,
    none: Next,
    ended: Next,
}

fn read_behind<J: Naming, R: Wait>(
    rt: &R,
    alloc: Global,
    opened: Opened,
    decisions: &[Decision],
    first: &Decision,
    last: &Decision,
) -> Result<Walk, Refusal>
    requires { opened ≡ J.history }
{
    let told = notices(alloc, decisions)?;
    let board: Board<J> = Board::new(alloc, opened, &told, 1)?;
    let place = board.reader();
    let Ok(mut reader) = place else {
        board.end(rt);
        return Err(Refusal::NoPlace);
    };
    let begins = reader.next_group(None);
    let second = reader.next_group(Some(first.key.group));
    let none = reader.next_group(Some(last.key.group));
    board.end(rt);
    let ended = reader.next_group(None);
    Ok(Walk {
        begins,
        second,
        none,
        ended,
    })
}

#[test]
fn groups_come_in_their_order(rt: HostRuntime) -> Result<(), Fail> {
    let early = decision(&rt, "red", 4, 1, 7);
    let late = decision(&rt, "red", 9, 2, 30);
    let blue = decision(&rt, "blue", 2, 1, 3);
    let decisions = [
        decision(&rt, "red", 4, 1, 7),
        decision(&rt, "red", 9, 2, 30),
        decision(&rt, "blue", 2, 1, 3),
        decision(&rt, "red", 5, 3, 2),
    ];
    let told = read_behind::<Brand, _>(&rt, rt.alloc(), Opened::new(), &decisions, &blue, &early)?;
    assert!(rt; told.begins == Ok(Some(blue)));
    assert!(rt; told.second == Ok(Some(late)));
    assert!(rt; told.none == Ok(None));
    assert!(rt; told.ended == Err(Refusal::NoPlace));
    Ok(())
}
