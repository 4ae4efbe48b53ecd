// A hub step by step: the one thread that the tests have is appender and flusher in turn.
ghost use Rattle.std.specs.Prelude.{◌≡◌};
ghost use Rattle.gated_journal.specs.Journal.{member_of};

use crate::calls::refused;
use crate::hub::calls::*;
use crate::hub::rows::{No, journal_of};
use commit_hub::{Hub, Look, NodeLedger, Share, Tie};
use disk_model::MemDevice;
use gated_journal::{Batch, Journal};
use group_commit::{Desk, Ticket};
use std::alloc::AllocGlobal;
use std::process::Abort;
use std::sync::Wait;
use test_rows::{Ask, Note, Say};

/// What is done with a hub, and what comes of it. A ticket is the newest one that is open.
#[derive(Clone, Copy)]
pub enum Step {
    /// The request gets a ticket of this number.
    Asks(Ask, u64),
    /// The request gets no ticket, for this cause.
    Refuses(Ask, No),
    /// The ticket is redeemed, and the stub has the reply.
    Redeems,
    /// The ticket is redeemed with this reply.
    Says(Say),
    /// The ticket of a hub that has failed is not redeemed, and is forfeited.
    Fails,
    /// The ticket is refused, and ends.
    Forfeits,
    /// The ticket of a hub that takes no requests is forfeited.
    Ends,
    /// The messages of these numbers are taken, from the first up to the second.
    Takes(u64, u64),
    /// A batch is launched.
    Launches,
    /// Nothing is launched, for this cause; where there is none, since nothing waits.
    LaunchesNone(Option<No>),
    /// The journal makes the batch that flies durable, and it lands: so many inputs.
    Lands(u64),
    /// The receipt of another journal's batch does not land, and comes back.
    LandsAnother,
    /// The one input that waits becomes durable.
    Flushes,
    /// The checkpoint that is due or needed, of so many inputs, is launched and lands. Its snapshot takes so many bytes.
    Renews(u64, u32),
    /// Another journal's batch, which its device spoiled, is refused and comes back.
    SpoilsAnother,
    /// The device fails with the batch that flies.
    Spoils,
    /// The journal makes the batch of another one durable.
    CommitsAnother,
    Closes,
    Abandons,
    /// Whether it is shown that the hub takes requests.
    IsOpen(bool),
    /// The share counts so many inputs.
    Counts(u64),
    /// So many bytes of the capacity are taken.
    Uses(u64),
    Shows(Look),
}

/// What a settled desk has: its epoch, how many inputs are durable, and how many there are behind its opening.
pub type Left = (u64, u64, usize);

fn has(rt: &impl Abort, desk: &Desk, left: Left) {
    let (epoch, durable, inputs) = left;
    assert!(rt; desk.epoch() == epoch);
    assert!(rt; desk.durable() == durable);
    assert!(rt; desk.history().len() == inputs);
}

/// A hub, its tie, its journal and a share of it, the tickets that are open, newest last, and the batch that flies.
pub struct Station<A: NodeLedger> {
    hub: Hub<A>,
    tie: Tie<A>,
    journal: Journal<MemDevice>,
    share: Share<A>,
    tickets: Vec<Ticket>,
    flown: Vec<Batch>,
    ghost ring: { (member_of journal).n ≡ 3 },
}

impl<A: NodeLedger> Station<A> {
    /// With a new journal.
    pub fn new<R: Wait + Abort + AllocGlobal>(rt: &R, hub: Hub<A>, tie: Tie<A>) -> Station<A> {
        let share = hub.enter(rt).expect(rt, "a place");
        Station {
            hub,
            tie,
            journal: journal_of(rt),
            share,
            tickets: Vec::new(rt.alloc()),
            flown: Vec::new(rt.alloc()),
        }
    }

    pub fn plays<R: Wait + Abort + AllocGlobal>(&mut self, rt: &R, steps: &[Step])
        requires ring { A.member.n ≡ 3 }
    {
        for step in steps {
            self.does(rt, *step);
        }
    }

    /// The hub and its share. No ticket is open, and nothing flies.
    fn into_parts(self, rt: &impl Abort) -> (Hub<A>, Share<A>) {
        let Station {
            hub,
            tie,
            journal,
            share,
            tickets,
            flown,
        } = self;
        drop((tie, journal));
        assert!(rt; tickets.is_empty());
        assert!(rt; flown.is_empty());
        tickets.destroy_empty();
        flown.destroy_empty();
        (hub, share)
    }

    /// The share settles the hub, and its desk has this then.
    pub fn settles<R: Abort + AllocGlobal>(self, rt: &R, left: Left) {
        let (hub, share) = self.into_parts(rt);
        let mut shares = Vec::new(rt.alloc());
        keeps(rt, &mut shares, share);
        let desk = settled(rt, hub, shares);
        has(rt, &desk, left);
        drop(desk);
    }

    fn does<R: Wait + Abort + AllocGlobal>(&mut self, rt: &R, step: Step)
        requires ring { A.member.n ≡ 3 }
    {
        match step {
            Step::Asks(ask, number) => self.asks(rt, ask, number),
            Step::Refuses(ask, cause) => refuses(rt, &self.hub, &mut self.share, ask, cause),
            Step::Redeems => self.redeems(rt),
            Step::Says(say) => self.says(rt, say),
            Step::Fails => self.fails(rt),
            Step::Forfeits => self.forfeits(rt),
            Step::Ends => self.ends(rt),
            Step::Takes(first, end) => self.takes(rt, first, end),
            Step::Launches => self.launches(rt),
            Step::LaunchesNone(cause) => launches_none(rt, &self.hub, &mut self.tie, cause),
            Step::Lands(count) => self.lands(rt, count),
            Step::LandsAnother => lands_another(rt, &self.hub, &mut self.tie),
            Step::Flushes => self.flushes(rt),
            Step::Renews(count, cost) => self.renews(rt, count, cost),
            Step::SpoilsAnother => spoils_another(rt, &self.hub, &mut self.tie),
            Step::Spoils => self.spoils(rt),
            Step::CommitsAnother => self.commits_another(rt),
            Step::Closes => self.hub.close(rt),
            Step::Abandons => self.hub.abandon(rt, &mut self.tie),
            Step::IsOpen(is_open) => assert!(rt; self.hub.look(rt).is_open == is_open),
            Step::Counts(count) => assert!(rt; self.share.count() == count),
            Step::Uses(bytes) => assert!(rt; self.hub.look(rt).used == bytes),
            Step::Shows(look) => assert!(rt; self.hub.look(rt) == look),
        }
    }

    fn asks<R: Wait + Abort>(&mut self, rt: &R, ask: Ask, number: u64) {
        let ticket = asks(rt, &self.hub, &mut self.share, ask);
        is_of(rt, &ticket, ask, number);
        keeps_ticket(rt, &mut self.tickets, ticket);
    }

    fn redeems<R: Wait + Abort>(&mut self, rt: &R) {
        let ticket = self.ticket(rt);
        redeems(rt, &self.hub, ticket);
    }

    fn says<R: Wait + Abort>(&mut self, rt: &R, say: Say) {
        let ticket = self.ticket(rt);
        says(rt, &self.hub, ticket, say);
    }

    fn fails<R: Wait + Abort>(&mut self, rt: &R) {
        let ticket = self.ticket(rt);
        fails(rt, &self.hub, ticket);
    }

    fn forfeits<R: Wait + Abort>(&mut self, rt: &R) {
        let ticket = self.ticket(rt);
        forfeits(rt, &self.hub, ticket);
    }

    fn ends<R: Wait + Abort>(&mut self, rt: &R) {
        let ticket = self.ticket(rt);
        assert!(rt; self.hub.forfeit(rt, ticket).is_ok());
    }

    fn flushes<R: Wait + Abort>(&mut self, rt: &R) {
        self.launches(rt);
        self.lands(rt, 1);
    }

    fn commits_another<R: Abort + AllocGlobal>(&mut self, rt: &R) {
        commits(rt, &mut self.journal, other_batch(rt)).into_parts();
    }

    /// The newest ticket that is open.
    fn ticket(&mut self, rt: &impl Abort) -> Ticket {
        match self.tickets.pop() {
            Some(ticket) => ticket,
            None => panic!(rt; "no ticket"),
        }
    }

    /// Each is the same token, of 29 bytes, which the node's own outbids, so that it sends nothing more.
    fn takes<R: Wait + Abort>(&mut self, rt: &R, first: u64, end: u64) {
        for number in first..end {
            let ask = Ask::Take(number, Note::Token("red", 5, 5, 3));
            takes(rt, &self.hub, &mut self.share, ask);
        }
    }

    fn launches<R: Wait + Abort>(&mut self, rt: &R) {
        let batch = launches(rt, &self.hub, &mut self.tie);
        match self.flown.push(batch) {
            Ok(()) => {}
            Err(_batch) => panic!(rt; "ample memory"),
        }
    }

    /// The batch that flies.
    fn batch(&mut self, rt: &impl Abort) -> Batch {
        match self.flown.pop() {
            Some(batch) => batch,
            None => panic!(rt; "nothing flies"),
        }
    }

    fn lands<R: Wait + Abort>(&mut self, rt: &R, count: u64) {
        let batch = self.batch(rt);
        let receipt = commits(rt, &mut self.journal, batch);
        lands(rt, &self.hub, &mut self.tie, receipt, count);
    }

    fn renews<R: Wait + Abort>(&mut self, rt: &R, count: u64, cost: u32)
        requires ring { A.member.n ≡ 3 }
    {
        let made = launches_all(rt, &self.hub, &mut self.tie);
        assert!(rt; made.inputs().len() == count as usize && made.cost() == cost);
        let receipt = replaces(rt, &mut self.journal, made);
        lands(rt, &self.hub, &mut self.tie, receipt, count);
    }

    fn spoils<R: Wait + Abort + AllocGlobal>(&mut self, rt: &R) {
        let spoiled = spoils(rt, self.batch(rt));
        match self.hub.fail(rt, &mut self.tie, spoiled) {
            Ok(()) => {}
            Err((_spoiled, refusal)) => refused(rt, refusal),
        }
    }
}
