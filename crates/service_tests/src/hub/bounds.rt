// Hubs at their bounds: places, tickets, receipts and shares that are not what they wait for.
ghost use Rattle.std.specs.Prelude.{◌≡◌, ◌+◌, ◌≤◌, length, None, false};
ghost use Rattle.commit_hub.specs.Over.{is_over};
ghost use Rattle.commit_hub.specs.Pages.{ForAccepted, ForTie};

use crate::hub::calls::{asks, forfeits, keeps, settled};
use crate::hub::ends::settles_some;
use crate::hub::rows::{No, desk_behind, new_desk};
use crate::hub::station::Step::*;
use crate::hub::station::{Left, Station, Step};
use commit_hub::{Blanks, Hub, Look, NodeLedger};
use group_commit::{Desk, Ticket};
use ring_records::{Refusal, Shown};
use std::alloc::AllocGlobal;
use std::marker::Brand;
use std::process::Abort;
use std::sync::Wait;
use std::test::*;
use test_rows::{Ask, Cause, Note, Say};

const STAND: Ask = Ask::Stand("red", 5, 10);

const AGAIN: Ask = Ask::Stand("red", 6, 10);

/// What is done with a hub.
enum Case {
    /// So many places are taken; there is no other.
    Enters(u32),
    /// A ticket is given.
    Gives,
    /// A ticket of another hub is redeemed.
    Redeems(Ticket),
    /// A ticket of another hub is forfeited.
    Forfeits(Ticket),
    /// It is played with, step by step, and then it is settled, and its desk has this.
    Plays(Left),
    /// The same, where its desk was opened with a summary.
    GoesOn(Left),
    /// Some of four shares are handed in.
    SettlesSome(u8),
}

/// So many places are taken, and there is no other. All of their shares settle the hub.
fn enters<A: NodeLedger, R: Wait + Abort + AllocGlobal>(rt: &R, hub: Hub<A>, count: u32) {
    let mut shares = Vec::with_capacity(rt.alloc(), count as usize).expect(rt, "ample memory");
    for _ in 0..count {
        let share = hub.enter(rt).expect(rt, "a place");
        assert!(rt; share.count() == 0);
        keeps(rt, &mut shares, share);
    }
    let more = hub.enter(rt);
    assert!(rt; matches!(more, Err(Refusal::Limit)));
    drop(more);
    let desk = settled(rt, hub, shares);
    assert!(rt; desk.history().is_empty());
    drop(desk);
}

/// A ticket of the hub.
fn gives<A: NodeLedger, R: Wait + Abort>(rt: &R, hub: &Hub<A>) -> Ticket {
    let mut share = hub.enter(rt).expect(rt, "a place");
    asks(rt, hub, &mut share, STAND)
}

/// A ticket of another hub is refused, and comes back.
fn comes_back<A: NodeLedger, R: Wait + Abort>(rt: &R, hub: &Hub<A>, ticket: Ticket) -> Ticket {
    let question = ticket.question();
    match hub.redeem_wait(rt, ticket) {
        Ok(_) => panic!(rt; "redeemed"),
        Err((ticket, refusal)) => {
            assert!(rt; refusal == Refusal::Foreign);
            assert!(rt; ticket.question() == question);
            ticket
        }
    }
}

/// Does with a hub what the case says. What is given is a ticket of it.
fn on_hub<A: NodeLedger, R: Wait + Abort + AllocGlobal>(
    rt: &R,
    desk: Desk,
    blanks: Blanks,
    case: Case,
    steps: &[Step],
) -> Option<Ticket>
    requires member { desk.view.member ≡ A.member }
    requires ring { A.member.n ≡ 3 }
    requires opening { desk.opening ≡ A.opening }
    requires none { desk.view.state.checkpoint ≡ None }
    requires idle { desk.view.state.flying ≡ desk.view.state.durable }
    requires open { is_over desk ≡ false }
    requires opened { desk.opening.inputs + length desk.view.state.inputs ≡ A.opened }
    requires accepted { ForAccepted blanks A.name A.parts }
    requires tied { ForTie blanks A.tied }
{
    let (hub, tie) = Hub::<A>::new(desk, blanks);
    let hub = match case {
        Case::Plays(left) | Case::GoesOn(left) => {
            let mut station = Station::new(rt, hub, tie);
            station.plays(rt, steps);
            station.settles(rt, left);
            return None;
        }
        _ => {
            drop(tie);
            hub
        }
    };
    on_untied(rt, hub, case)
}

/// The same, where nothing is launched.
fn on_untied<A: NodeLedger, R: Wait + Abort + AllocGlobal>(
    rt: &R,
    hub: Hub<A>,
    case: Case,
) -> Option<Ticket> {
    let given = match case {
        Case::Enters(count) => {
            enters(rt, hub, count);
            return None;
        }
        Case::SettlesSome(mask) => {
            settles_some(rt, hub, mask);
            return None;
        }
        Case::Gives => Some(gives(rt, &hub)),
        Case::Redeems(ticket) => Some(comes_back(rt, &hub, ticket)),
        Case::Forfeits(ticket) => {
            hub.close(rt);
            forfeits(rt, &hub, ticket);
            None
        }
        Case::Plays(_) | Case::GoesOn(_) => None,
    };
    drop(hub);
    given
}

/// The case on a hub of node 1 at this opening, with so many places.
fn plays<R: Wait + Abort + AllocGlobal>(
    rt: &R,
    run: u64,
    places: u32,
    case: Case,
    steps: &[Step],
) -> Option<Ticket>
    requires { places ≤ 1000000 }
{
    let desk = match &case {
        Case::GoesOn(_) => desk_behind(rt),
        _ => new_desk(rt, 1, run),
    };
    let blanks = Blanks::new(places);
    on_hub::<Brand, R>(rt, desk, blanks, case, steps)
}

/// The case, which gives no ticket.
fn ends<R: Wait + Abort + AllocGlobal>(rt: &R, places: u32, case: Case, steps: &[Step])
    requires { places ≤ 1000000 }
{
    match plays(rt, 0, places, case, steps) {
        None => {}
        Some(_ticket) => panic!(rt; "a ticket"),
    }
}

#[test]
fn a_hub_gives_as_many_shares_as_it_has_places(rt: HostRuntime) -> Result<(), Fail> {
    ends(&rt, 0, Case::Enters(0), &[]);
    ends(&rt, 3, Case::Enters(3), &[]);
    ends(&rt, 1_000_000, Case::Enters(1_000_000), &[]);
    Ok(())
}

#[test]
fn a_ticket_of_another_hub_is_foreign(rt: HostRuntime) -> Result<(), Fail> {
    let Some(ticket) = plays(&rt, 0, 1, Case::Gives, &[]) else {
        panic!(rt; "no ticket");
    };
    let Some(ticket) = plays(&rt, 1, 1, Case::Redeems(ticket), &[]) else {
        panic!(rt; "no ticket");
    };
    ends(&rt, 1, Case::Forfeits(ticket), &[]);
    Ok(())
}

/// A ticket is forfeited while requests are taken: it is refused, and ends.
const FORFEITS_OPEN: &[Step] = &[Asks(STAND, 1), Forfeits, Counts(1)];

#[test]
fn an_open_hub_takes_no_forfeit(rt: HostRuntime) -> Result<(), Fail> {
    ends(&rt, 1, Case::Plays((1, 0, 1)), FORFEITS_OPEN);
    Ok(())
}

/// A second launch finds the first batch flying; then that lands, and its reply is released.
const LAUNCHES_TWICE: &[Step] = &[
    Asks(STAND, 1),
    Launches,
    LaunchesNone(Some(No::Busy)),
    Lands(1),
    Redeems,
];

/// The receipt of another batch does not land; that of the batch does.
const LANDS_ANOTHER: &[Step] = &[Asks(STAND, 1), Launches, LandsAnother, Lands(1), Redeems];

#[test]
fn one_batch_flies(rt: HostRuntime) -> Result<(), Fail> {
    ends(&rt, 1, Case::Plays((1, 1, 1)), LAUNCHES_TWICE);
    ends(&rt, 1, Case::Plays((1, 1, 1)), LANDS_ANOTHER);
    Ok(())
}

/// A node that stood, took a message of 29 bytes and heard of a credit, none of it durable, behind a snapshot of 42 bytes.
/// The next one has a key more.
const THREE: Look = Look {
    shown: Shown {
        inputs: 3,
        durable: 0,
        sent: 1,
        taken: 1,
        credit: 1,
    },
    used: 42 + 20 + 29 + 16,
    snapshot: 42 + 13,
    epoch: 1,
    layout: 3,
    capacity: 4096,
    stands: 1,
    floors: 0,
    is_due: false,
    frees_room: false,
    is_room_coming: false,
    is_open: true,
};

/// The share counts the requests that are accepted, each once. A Take of a message of no node of the ring gets no ticket.
const ANSWERS: &[Step] = &[
    Asks(STAND, 1),
    Forfeits,
    Counts(1),
    Asks(STAND, 1),
    Forfeits,
    Counts(1),
    Asks(Ask::Take(0, Note::Token("red", 5, 5, 3)), 2),
    Forfeits,
    Counts(2),
    Asks(Ask::Who("red", 5), 2),
    Forfeits,
    Counts(2),
    Asks(Ask::Acked(1), 3),
    Forfeits,
    Counts(3),
    Asks(Ask::Latest("red"), 3),
    Forfeits,
    Counts(3),
    Refuses(Ask::Take(1, Note::Token("red", 6, 10, 4)), No::BadNumber),
    Counts(3),
    Shows(THREE),
];

#[test]
fn an_open_hub_takes_requests(rt: HostRuntime) -> Result<(), Fail> {
    ends(&rt, 1, Case::Plays((1, 0, 3)), ANSWERS);
    Ok(())
}

/// Two Stands, of which the first is durable, in an area of layout 2, whose snapshot has 65 bytes. The next one has a key and a message more, and a number of floors.
const SECOND: Look = Look {
    shown: Shown {
        inputs: 2,
        durable: 1,
        sent: 2,
        taken: 0,
        credit: 0,
    },
    used: 65 + 20,
    snapshot: 69 + 13 + 14,
    epoch: 2,
    layout: 2,
    capacity: 4096,
    stands: 2,
    floors: 0,
    is_due: false,
    frees_room: false,
    is_room_coming: false,
    is_open: true,
};

/// The hub counts the Stand that is summarised: its next input is the second, and behind the first one.
const GOES_ON: &[Step] = &[
    CommitsAnother,
    Asks(AGAIN, 2),
    Counts(1),
    Shows(SECOND),
    Flushes,
    Redeems,
];

#[test]
fn a_hub_goes_on_from_a_summary(rt: HostRuntime) -> Result<(), Fail> {
    ends(&rt, 1, Case::GoesOn((2, 2, 1)), GOES_ON);
    Ok(())
}

/// A node takes messages until more than half of the capacity is taken, 42 + 20 + 69 * 29 bytes at least. Then a
/// checkpoint of all that waits is launched, and once it has landed its snapshot is all that is taken: that of one Stand.
/// What comes after is a batch again, behind all of that, in the new area.
const RENEWS: &[Step] = &[
    Asks(STAND, 1),
    Flushes,
    Redeems,
    Takes(0, 1),
    Flushes,
    Takes(1, 69),
    Uses(42 + 20 + 69 * 29),
    Renews(68, 69),
    Uses(69),
    Asks(AGAIN, 71),
    Flushes,
    Redeems,
];

#[test]
fn a_checkpoint_that_is_due_is_launched_and_frees_room(rt: HostRuntime) -> Result<(), Fail> {
    ends(&rt, 1, Case::Plays((2, 71, 71)), RENEWS);
    Ok(())
}

/// In an area of layout 2 the node wins, and gives up the terms below: that is launched as a checkpoint, whose snapshot has
/// 42 bytes, a key of 18, two messages of 14 and a floor of 8. What comes after is a batch again.
const GIVES_UP: &[Step] = &[
    CommitsAnother,
    Asks(Ask::Take(0, Note::Token("red", 5, 10, 1)), 2),
    Flushes,
    Says(Say::Taken),
    Asks(Ask::Retire("red", 6), 2),
    Says(Say::Refused(Cause::Undecided)),
    Asks(Ask::Retire("red", 5), 3),
    Renews(1, 96),
    Says(Say::Retired),
    Uses(96),
    Asks(Ask::Who("red", 4), 3),
    Says(Say::Refused(Cause::Retired(5))),
    Asks(AGAIN, 4),
    Flushes,
    Says(Say::Stood),
];

#[test]
fn a_checkpoint_that_is_needed_is_launched(rt: HostRuntime) -> Result<(), Fail> {
    ends(&rt, 1, Case::GoesOn((3, 4, 3)), GIVES_UP);
    Ok(())
}

/// The spoiled batch of another journal is refused and comes back. With its own the hub has failed, which it shows.
const FAILS: &[Step] = &[
    Asks(STAND, 1),
    Launches,
    SpoilsAnother,
    IsOpen(true),
    Spoils,
    IsOpen(false),
    Refuses(STAND, No::Failed),
    LaunchesNone(Some(No::Failed)),
    Fails,
];

#[test]
fn a_hub_fails_with_its_device(rt: HostRuntime) -> Result<(), Fail> {
    ends(&rt, 1, Case::Plays((1, 0, 1)), FAILS);
    Ok(())
}

/// An abandoned hub has failed, which it shows; replies that rest on durable inputs are released.
const ABANDONS: &[Step] = &[
    Asks(STAND, 1),
    Flushes,
    Asks(AGAIN, 2),
    IsOpen(true),
    Abandons,
    IsOpen(false),
    Refuses(STAND, No::Failed),
    LaunchesNone(Some(No::Failed)),
    Fails,
    Redeems,
];

#[test]
fn an_abandoned_hub_has_failed(rt: HostRuntime) -> Result<(), Fail> {
    ends(&rt, 1, Case::Plays((1, 1, 2)), ABANDONS);
    Ok(())
}

/// A closed hub takes no requests, and shows so; a ticket is forfeited. What it accepted before is made durable, in two
/// batches, and released, and then there is no batch any more.
const CLOSES: &[Step] = &[
    Asks(STAND, 1),
    Asks(AGAIN, 2),
    Takes(0, 63),
    IsOpen(true),
    Closes,
    IsOpen(false),
    Refuses(STAND, No::Failed),
    Ends,
    Launches,
    Lands(64),
    Flushes,
    Redeems,
    LaunchesNone(None),
];

#[test]
fn a_closed_hub_takes_no_requests(rt: HostRuntime) -> Result<(), Fail> {
    ends(&rt, 1, Case::Plays((1, 65, 65)), CLOSES);
    Ok(())
}

#[test]
fn shares_settle_a_hub_where_they_add_up(rt: HostRuntime) -> Result<(), Fail> {
    for mask in 0..16 {
        ends(&rt, 4, Case::SettlesSome(mask), &[]);
    }
    Ok(())
}
