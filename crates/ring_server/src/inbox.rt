//! The inbox's thread, which does with each letter what ring_post says.
ghost use Rattle.std.specs.Prelude.{◌≡◌, [], Some};
ghost use Rattle.ring_records.specs.declared.request.Request.TheVariants.{Acked};
ghost use Rattle.group_commit.specs.Ticket.{shown};
ghost use Rattle.ring_post.specs.Chronicles.{at_hand};
ghost use Rattle.ring_post.specs.declared.hand.Hand.TheVariants.{Empty};
ghost use Rattle.ring_post.specs.Intakes.{IsFree, asks_alone, away_of, greatest_heard, hand_of, tickets_of};

use crate::links::Links;
use crate::pace::{Coming, next};
use crate::window::send_what_may_miss;
use commit_hub::{Hub, NodeLedger, Share};
use crossbeam_channel::Receiver;
use group_commit::Ticket;
use ring_post::{Intake, Letter, Outcome, Pace, Step, is_full, lacks_room};
use ring_records::Request;
use std::alloc::Global;
use std::sync::Wait;
use std::time::Clock;

/// How many letters are heard before it is waited for what they brought, so that it becomes durable together.
const LETTERS: u32 = 64;

/// What an inbox has at hand: its hub and its share of it, what it sends by, and what it knows and has asked.
struct Inbox<'a, A: NodeLedger> {
    hub: &'a Hub<A>,
    links: &'a Links<'a>,
    share: Share<A>,
    intake: Intake,
}

/// Takes letters until the letterbox is closed and empty. What is not taken, for want of memory or room or since the node has
/// failed, is lost, and comes again: between two rounds this node sends what its own successor may miss. No ticket is left open.
pub(crate) fn take_all<'a, A: NodeLedger, R: Wait + Clock>(
    rt: &R,
    alloc: Global,
    hub: &'a Hub<A>,
    share: Share<A>,
    letters: &Receiver<Letter>,
    links: &'a Links<'a>,
) -> Share<A> {
    let mut inbox = Inbox {
        hub,
        links,
        share,
        intake: Intake::new(alloc, links.place()),
    };
    let mut pace = Pace::new();
    for _ in rt.forever() {
        match next(rt, &mut pace, letters) {
            Coming::Letter(letter) => {
                hear(rt, &mut inbox, letter);
                let leaves_some = hear_waiting(rt, &mut inbox, letters);
                pace.end(leaves_some);
                end_round(rt, &mut inbox);
            }
            Coming::Silence => {}
            Coming::End => break,
        }
        send_what_may_miss(rt, hub, links);
        look_for_room(rt, hub, links);
    }
    if let Some(question) = inbox.intake.owes_at_last() {
        tell(rt, &mut inbox, question);
    }
    redeem_all(rt, &mut inbox);
    let Inbox {
        hub: _,
        links: _,
        share,
        intake,
    } = inbox;
    intake.finish();
    share
}

/// Where some node wants something, looks whether this one has room, so that it is told to want some once more when it does: of
/// a node that no client stands at nothing else would tell.
fn look_for_room<A: NodeLedger, R: Wait>(rt: &R, hub: &Hub<A>, links: &Links<'_>) {
    if !links.watch.is_anything_wanted() {
        return;
    }
    let look = hub.look(rt);
    if look.takes_stands() && !look.lacks_room() {
        links.has_room(rt);
    }
}

/// Hears what waits in the letterbox, as much as fits a batch. Whether it leaves some.
fn hear_waiting<A: NodeLedger, R: Wait + Clock>(
    rt: &R,
    inbox: &mut Inbox<'_, A>,
    letters: &Receiver<Letter>,
) -> bool
    requires { IsFree inbox.old.intake }
    ensures { IsFree inbox.new.intake }
{
    for _ in 1..LETTERS {
        match letters.try_recv(rt) {
            Ok(letter) => hear(rt, inbox, letter),
            Err(_) => return false,
        }
    }
    true
}

/// Hears a letter, and does what is to be done before it hears the next.
fn hear<A: NodeLedger, R: Wait + Clock>(rt: &R, inbox: &mut Inbox<'_, A>, letter: Letter)
    requires { IsFree inbox.old.intake }
    ensures { IsFree inbox.new.intake }
{
    inbox.intake.hear(letter);
    inbox.links.hear(inbox.intake.heard());
    for _ in rt.forever() {
        if inbox.intake.is_free() {
            return;
        }
        step(rt, inbox);
    }
    unreachable!()
}

/// Does what is to be done next about the message at hand.
fn step<A: NodeLedger, R: Wait>(rt: &R, inbox: &mut Inbox<'_, A>) {
    let look = inbox.hub.look(rt);
    match inbox.intake.next(&look) {
        Step::Rest => {}
        Step::Ask(question) => ask(rt, inbox, question),
        Step::Tell(question) => tell(rt, inbox, question),
        Step::AwaitRoom => inbox.hub.wait_for_room(rt),
        Step::Redeem => redeem(rt, inbox),
        Step::Leave => {
            let outcome = inbox.intake.leave();
            end(rt, outcome, inbox.links);
        }
    }
}

/// Tells of the credits that are due, and waits for what was asked.
fn end_round<A: NodeLedger, R: Wait>(rt: &R, inbox: &mut Inbox<'_, A>)
    ensures tickets { tickets_of inbox.new.intake ≡ [] }
    ensures free { IsFree inbox.old.intake → IsFree inbox.new.intake }
{
    let look = inbox.hub.look(rt);
    if let Some(question) = inbox.intake.owes(&look) {
        tell(rt, inbox, question);
    }
    redeem_all(rt, inbox);
}

/// Asks the node to take the message at hand.
fn ask<A: NodeLedger, R: Wait>(rt: &R, inbox: &mut Inbox<'_, A>, question: Request)
    requires { at_hand (hand_of inbox.old.intake) ≡ Some question }
    ensures { hand_of inbox.new.intake ≡ Empty }
{
    if inbox.intake.has_room() {
        if let Ok(ticket) = inbox.hub.submit(rt, &mut inbox.share, question) {
            inbox.intake.keep_message(ticket);
            return;
        }
    }
    let outcome = inbox.intake.unasked();
    end(rt, outcome, inbox.links);
}

/// Tells the node of the greatest credit that was heard.
fn tell<A: NodeLedger, R: Wait>(rt: &R, inbox: &mut Inbox<'_, A>, question: Request)
    requires { question ≡ Acked (greatest_heard inbox.old.intake) }
    ensures { (hand_of inbox.new.intake ≡ hand_of inbox.old.intake) × (asks_alone inbox.new.intake ≡ asks_alone inbox.old.intake) }
{
    if inbox.intake.has_room() {
        if let Ok(ticket) = inbox.hub.submit(rt, &mut inbox.share, question) {
            inbox.intake.keep_credit(ticket);
        }
    }
}

/// Waits for the reply to the last ticket.
fn redeem<A: NodeLedger, R: Wait>(rt: &R, inbox: &mut Inbox<'_, A>) {
    if let Some(ticket) = inbox.intake.take_ticket() {
        release(rt, inbox, ticket);
    }
}

/// Waits for the replies. The last one rests on all inputs before it, so there is one wait for all of them.
fn redeem_all<A: NodeLedger, R: Wait>(rt: &R, inbox: &mut Inbox<'_, A>)
    ensures tickets { tickets_of inbox.new.intake ≡ [] }
    ensures free { IsFree inbox.old.intake → IsFree inbox.new.intake }
{
    while let Some(ticket) = inbox.intake.take_ticket() {
        release(rt, inbox, ticket);
    }
}

/// Waits for the reply, and does what comes of it.
fn release<A: NodeLedger, R: Wait>(rt: &R, inbox: &mut Inbox<'_, A>, ticket: Ticket)
    requires { away_of inbox.old.intake ≡ Some (shown ticket).question }
    ensures tickets { tickets_of inbox.new.intake ≡ tickets_of inbox.old.intake }
    ensures free { IsFree inbox.old.intake → IsFree inbox.new.intake }
{
    let outcome = match inbox.hub.redeem_wait(rt, ticket) {
        Ok((_reply, stub, _begun)) => {
            let is_full = lacks_room(&stub) && is_full(&inbox.hub.look(rt));
            inbox.intake.answered(&stub, is_full)
        }
        Err((ticket, _)) => {
            let _ = inbox.hub.forfeit(rt, ticket);
            inbox.intake.lost()
        }
    };
    end(rt, outcome, inbox.links);
}

/// Does what comes of a message that is done with.
fn end<R: Wait>(rt: &R, outcome: Outcome, links: &Links<'_>) {
    match outcome {
        Outcome::Nothing => return,
        Outcome::Done => {}
        Outcome::Credit(letter) => links.post.send(rt, letter),
        Outcome::Refused => links.tally.refuse_message(rt),
        Outcome::Full => {
            links.tally.refuse_message(rt);
            links.fill(rt);
        }
    }
    links.done();
}
