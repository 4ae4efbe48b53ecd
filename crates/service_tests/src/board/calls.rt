// A board and its readers by calls.
ghost use Rattle.std.specs.Prelude.{◌≡◌};

use crate::board::rows::{decision, notices, term_and_leader};
use crate::rows::{Latest, key};
use decision_board::{Board, BoardReader, Naming, Opened, is_reader_count};
use ring_records::{Candidate, Decision, Key, Notice, Refusal};
use std::alloc::Global;
use std::marker::Brand;
use std::sync::Wait;
use std::test::*;

/// Appends the decisions and publishes them.
fn publish_all<J: Naming, R: Wait>(
    rt: &R,
    board: &mut Board<J>,
    decisions: &[Decision],
) -> Result<(), Refusal> {
    for decision in decisions {
        board.append(Notice::Decided(*decision))?;
    }
    board.publish(rt)
}

/// What a reader answers before a decision is appended, once it is, once it is published, and after the board's end.
#[derive(Drop)]
struct Reads {
    before: Latest,
    appended: Latest,
    published: Latest,
    ended: Latest,
}

fn read_around<J: Naming, R: Wait>(
    rt: &R,
    alloc: Global,
    opened: Opened,
    old: &Decision,
    new: &Decision,
) -> Result<Reads, Refusal>
    requires { opened ≡ J.history }
{
    let opening = Notice::Decided(*old);
    let mut board: Board<J> = Board::new(alloc, opened, std::slice::from_ref(&opening), 1)?;
    let place = board.reader();
    let Ok(mut reader) = place else {
        board.end(rt);
        return Err(Refusal::NoPlace);
    };
    let group = &new.key.group;
    let before = reader.latest(group);
    let done = board.append(Notice::Decided(*new));
    let appended = reader.latest(group);
    let shown = board.publish(rt);
    reader.learn(board.tell());
    let published = reader.latest(group);
    let saw = reader.saw();
    board.covers(&saw);
    reader.learn(saw);
    board.end(rt);
    let ended = reader.latest(group);
    done?;
    shown?;
    Ok(Reads {
        before,
        appended,
        published,
        ended,
    })
}

#[test]
fn board_reader(rt: HostRuntime) -> Result<(), Fail> {
    let old = decision(&rt, "red", 4, 1, 7);
    let red = decision(&rt, "red", 5, 2, 30);
    let seen = read_around::<Brand, _>(&rt, rt.alloc(), Opened::new(), &old, &red)?;
    assert!(rt; seen.before == term_and_leader(&old));
    assert!(rt; seen.appended == term_and_leader(&old));
    assert!(rt; seen.published == term_and_leader(&red));
    assert!(rt; seen.ended == Err(Refusal::NoPlace));
    Ok(())
}

/// What a reader of a board answers of keys and groups.
#[derive(Drop)]
struct Answers {
    kept: Result<Option<Candidate>, Refusal>,
    between: Result<Option<Candidate>, Refusal>,
    first: Latest,
    last: Latest,
    shorter: Latest,
    longer: Latest,
    ended: Result<Option<Candidate>, Refusal>,
}

fn read_all<J: Naming, R: Wait>(
    rt: &R,
    alloc: Global,
    opened: Opened,
    opening: &[Decision],
    more: &[Decision],
    asked: &[Key; 6],
) -> Result<Answers, Refusal>
    requires { opened ≡ J.history }
{
    let told = notices(alloc, opening)?;
    let mut board: Board<J> = Board::new(alloc, opened, &told, 32)?;
    let place = board.reader();
    let Ok(mut reader) = place else {
        board.end(rt);
        return Err(Refusal::NoPlace);
    };
    let shown = publish_all(rt, &mut board, more);
    reader.learn(board.tell());
    let kept = reader.who(&asked[0]);
    let between = reader.who(&asked[1]);
    let first = reader.latest(&asked[2].group);
    let last = reader.latest(&asked[3].group);
    let shorter = reader.latest(&asked[4].group);
    let longer = reader.latest(&asked[5].group);
    board.end(rt);
    let ended = reader.who(&asked[0]);
    shown?;
    Ok(Answers {
        kept,
        between,
        first,
        last,
        shorter,
        longer,
        ended,
    })
}

/// The first decision for a key stays, and a group's latest is that of its own greatest term, whatever the groups
/// beside it have.
#[test]
fn first_decisions_and_latest_terms(rt: HostRuntime) -> Result<(), Fail> {
    let opening = [
        decision(&rt, "red", 5, 2, 30),
        decision(&rt, "redd", 7, 3, 5),
    ];
    let more = [
        decision(&rt, "red", 5, 3, 40),
        decision(&rt, "red", 999_999_999, 1, 0),
        decision(&rt, "re", 1, 16, 999_999_999),
    ];
    let asked = [
        key(&rt, "red", 5),
        key(&rt, "red", 6),
        key(&rt, "re", 1),
        key(&rt, "red", 1),
        key(&rt, "rec", 1),
        key(&rt, "redd", 1),
    ];
    let opened = Opened::new();
    let got = read_all::<Brand, _>(&rt, rt.alloc(), opened, &opening, &more, &asked)?;
    assert!(rt; got.kept == Ok(Some(opening[0].leader)));
    assert!(rt; got.between == Ok(None));
    assert!(rt; got.first == term_and_leader(&more[2]));
    assert!(rt; got.last == term_and_leader(&more[1]));
    assert!(rt; got.shorter == Ok(None));
    assert!(rt; got.longer == term_and_leader(&opening[1]));
    assert!(rt; got.ended == Err(Refusal::NoPlace));
    Ok(())
}

/// How many readers a board of 32 places gave, what it answered to one more, and to one more once a reader is gone.
fn fill_places<J: Naming, R: Wait>(
    rt: &R,
    alloc: Global,
    opened: Opened,
) -> Result<(usize, Result<(), Refusal>, Result<(), Refusal>), Refusal>
    requires { opened ≡ J.history }
{
    let board: Board<J> = Board::new(alloc, opened, &[], 32)?;
    let mut readers: Vec<BoardReader<J>> = Vec::new(alloc);
    for _ in 0..32 {
        if let Ok(reader) = board.reader() {
            if readers.push(reader).is_err() {
                break;
            }
        }
    }
    let given = readers.len();
    let one_more = board.reader().map(|_| ());
    drop(readers.pop());
    let again = board.reader().map(|_| ());
    drop(readers);
    board.end(rt);
    Ok((given, one_more, again))
}

#[test]
fn thirty_third_reader(rt: HostRuntime) -> Result<(), Fail> {
    let (given, one_more, again) = fill_places::<Brand, _>(&rt, rt.alloc(), Opened::new())?;
    assert!(rt; given == 32);
    assert!(rt; one_more == Err(Refusal::NoPlace));
    assert!(rt; again == Ok(()));
    Ok(())
}

#[test]
fn reader_counts(rt: HostRuntime) {
    assert!(rt; !is_reader_count(0));
    assert!(rt; is_reader_count(1));
    assert!(rt; is_reader_count(32));
    assert!(rt; !is_reader_count(33));
}
