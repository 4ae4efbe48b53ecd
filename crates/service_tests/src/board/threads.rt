// Readers in threads of their own, beside a board that publishes.
ghost use Rattle.std.specs.Prelude.{◌≡◌};

use crate::board::rows::{decision, term_and_leader};
use crate::rows::Latest;
use decision_board::{Board, BoardReader, Naming, Opened};
use ring_records::{Decision, GroupName, Key, Notice, Refusal, Term};
use std::alloc::Global;
use std::marker::Brand;
use std::sync::Wait;
use std::test::*;
use std::thread::{Threads, join};

/// How often each reader reads beside the publisher.
const READS: usize = 2_000;

fn publish_one<J: Naming, R: Wait>(
    rt: &R,
    board: &mut Board<J>,
    decision: &Decision,
) -> Result<(), Refusal> {
    board.append(Notice::Decided(*decision))?;
    board.publish(rt)
}

/// What publishing told, and what a reader answers beside it, once it learned of it, and after the board's end.
#[derive(Drop)]
struct Reads {
    published: Result<(), Refusal>,
    beside: Latest,
    after: Latest,
    ended: Latest,
}

fn publish_beside<J: Naming + Send + Sync, R: Threads + Wait + Sync>(
    rt: &R,
    alloc: Global,
    opened: Opened,
    red: &Decision,
) -> Result<Reads, Refusal>
    requires { opened ≡ J.history }
{
    let mut board: Board<J> = Board::new(alloc, opened, &[], 1)?;
    let place = board.reader();
    let Ok(mut reader) = place else {
        board.end(rt);
        return Err(Refusal::NoPlace);
    };
    let group = &red.key.group;
    let (published, beside) = join(
        rt,
        || publish_one(rt, &mut board, red),
        || reader.latest(group),
    );
    reader.learn(board.tell());
    let after = reader.latest(group);
    board.end(rt);
    let ended = reader.latest(group);
    Ok(Reads {
        published,
        beside,
        after,
        ended,
    })
}

#[test]
fn board_reader_in_a_thread(rt: HostRuntime) -> Result<(), Fail> {
    let red = decision(&rt, "red", 5, 2, 30);
    let seen = publish_beside::<Brand, _>(&rt, rt.alloc(), Opened::new(), &red)?;
    assert!(rt; seen.published.is_ok());
    assert!(rt; seen.beside == Ok(None) || seen.beside == term_and_leader(&red));
    assert!(rt; seen.after == term_and_leader(&red));
    assert!(rt; seen.ended == Err(Refusal::NoPlace));
    Ok(())
}

/// Publishes a decision for each term from 1 on, so many, in the group of the first.
fn publish_terms<J: Naming, R: Wait>(
    rt: &R,
    board: &mut Board<J>,
    first: &Decision,
    count: u32,
) -> Result<(), Refusal> {
    for number in 1..=count {
        let term = Term::new(number)?;
        let key = Key {
            group: first.key.group,
            term,
        };
        let leader = first.leader;
        publish_one(rt, board, &Decision { key, leader })?;
    }
    Ok(())
}

/// Whether the latest term never goes down over many reads.
fn reads_rise<J: Naming>(reader: &mut BoardReader<J>, group: &GroupName) -> Result<bool, Refusal> {
    let mut before: u32 = 0;
    for _ in 0..READS {
        let number = match reader.latest(group)? {
            Some((term, _)) => term.number(),
            None => 0,
        };
        if number < before {
            return Ok(false);
        }
        before = number;
    }
    Ok(true)
}

/// What publishing told, whether the reads of two readers rose, and what both read once they learned.
#[derive(Drop)]
struct Both {
    published: Result<(), Refusal>,
    first_rises: Result<bool, Refusal>,
    second_rises: Result<bool, Refusal>,
    first: Latest,
    second: Latest,
}

fn read_in_two_threads<J: Naming + Send + Sync, R: Threads + Wait + Sync>(
    rt: &R,
    alloc: Global,
    opened: Opened,
    last: &Decision,
) -> Result<Both, Refusal>
    requires { opened ≡ J.history }
{
    let mut board: Board<J> = Board::new(alloc, opened, &[], 2)?;
    let place = board.reader();
    let Ok(mut first) = place else {
        board.end(rt);
        return Err(Refusal::NoPlace);
    };
    let place = board.reader();
    let Ok(mut second) = place else {
        board.end(rt);
        return Err(Refusal::NoPlace);
    };
    let group = &last.key.group;
    let count = last.key.term.number();
    let (published, (first_rises, second_rises)) = join(
        rt,
        || publish_terms(rt, &mut board, last, count),
        || join(
            rt,
            || reads_rise(&mut first, group),
            || reads_rise(&mut second, group),
        ),
    );
    first.learn(board.tell());
    second.learn(board.tell());
    let one = first.latest(group);
    let other = second.latest(group);
    board.end(rt);
    Ok(Both {
        published,
        first_rises,
        second_rises,
        first: one,
        second: other,
    })
}

#[test]
fn two_readers_beside_a_publisher(rt: HostRuntime) -> Result<(), Fail> {
    let last = decision(&rt, "red", 500, 3, 9);
    let seen = read_in_two_threads::<Brand, _>(&rt, rt.alloc(), Opened::new(), &last)?;
    assert!(rt; seen.published.is_ok());
    assert!(rt; seen.first_rises == Ok(true));
    assert!(rt; seen.second_rises == Ok(true));
    assert!(rt; seen.first == term_and_leader(&last));
    assert!(rt; seen.second == term_and_leader(&last));
    Ok(())
}
