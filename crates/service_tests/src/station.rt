// A hub and its flusher by calls: the one thread that the tests have is client and flusher in turn.

use crate::calls::*;
use crate::hub_clients::Client;
use crate::rows::{Leads, dropped};
use commit_hub::{Hub, NodeLedger, Share};
use decision_board::Naming;
use disk_model::Device;
use group_commit::Ticket;
use ring_service::Flusher;
use std::alloc::{AllocFailed, AllocGlobal};
use std::process::Abort;
use std::sync::Wait;
use test_rows::{Ask, Note};

/// What is done, and what comes of it. What is refused for memory is called again.
#[derive(Clone, Copy)]
pub enum Step {
    /// The request gets a ticket.
    Submits(Ask),
    /// The oldest ticket that is open is redeemed, and the client keeps the stub.
    Redeems,
    /// The messages of these numbers are taken, from the first up to the second, and dropped.
    Takes(u64, u64),
    /// The messages 1 to 65 are taken, by which node 2 leads `red` 6 to 70 with bid 30.
    TakesLeaders,
    /// A round makes inputs durable: so many are before them, so many they are, and so many leaders and floors they make
    /// known.
    Rounds(u64, u64, usize),
    /// The same. What the board is refused for memory is published by the next round.
    RoundsAtLast(u64, u64, usize),
    /// There is no round any more.
    RoundsNot,
    /// The request gets a ticket, a round makes a leader or a floor known, and the ticket is redeemed.
    Leads(Ask),
    /// The device fails within the round of the one ticket that is open.
    Fails,
    /// The hub is closed.
    Closes,
    /// A reader is told that this leads the group, or nobody.
    Reads(&'static str, Option<Leads>),
    /// A reader is told who leads the group in the term: the bid and the node.
    Leader(&'static str, u32, u32, u8),
    /// A reader is told that the term of the group is below this floor.
    Below(&'static str, u32, u32),
    /// Whether all that the board took is published.
    IsPublished(bool),
    /// The epoch of the journal's area in use.
    Epoch(u64),
    /// How many bytes are taken.
    Used(u64),
    /// Whether a checkpoint is due.
    IsDue(bool),
}

/// A hub, its flusher, a client, the tickets that are open, oldest first, and what the gate was told.
pub struct Station<V: Device, J: Naming, A: NodeLedger> {
    pub hub: Hub<A>,
    pub flusher: Flusher<V, J, A>,
    pub client: Client<J, A>,
    pub tickets: Vec<Ticket>,
    pub gate: Noted,
}

fn keeps(rt: &impl Abort, tickets: &mut Vec<Ticket>, ticket: Ticket) {
    let AllocFailed { value: ticket } = match tickets.push(ticket) {
        Ok(()) => return,
        Err(refused) => refused,
    };
    match tickets.push(ticket) {
        Ok(()) => {}
        Err(_ticket) => panic!(rt; "ample memory"),
    }
}

/// The oldest ticket that is open.
fn oldest(rt: &impl Abort, tickets: &mut Vec<Ticket>) -> Ticket {
    assert!(rt; !tickets.is_empty());
    tickets.remove(0)
}

/// The message is taken, and its ticket is refused and ends.
fn takes<A: NodeLedger, R: Wait + Abort>(rt: &R, hub: &Hub<A>, share: &mut Share<A>, ask: Ask) {
    let ticket = submits(rt, hub, share, ask);
    assert!(rt; hub.forfeit(rt, ticket).is_err());
}

impl<V: Device, J: Naming, A: NodeLedger> Station<V, J, A> {
    pub fn plays<R: Wait + Abort + AllocGlobal>(&mut self, rt: &R, steps: &[Step]) {
        for step in steps {
            self.does(rt, *step);
        }
    }

    fn does<R: Wait + Abort + AllocGlobal>(&mut self, rt: &R, step: Step) {
        match step {
            Step::Submits(ask) => self.submits(rt, ask),
            Step::Redeems => self.redeems(rt),
            Step::Takes(first, end) => self.takes(rt, first, end),
            Step::TakesLeaders => self.takes_leaders(rt),
            Step::Leads(ask) => self.leads(rt, ask),
            Step::Fails => self.fails(rt),
            Step::Closes => self.hub.close(rt),
            step => self.flushes(rt, step),
        }
    }

    fn flushes<R: Wait + Abort + AllocGlobal>(&mut self, rt: &R, step: Step) {
        match step {
            Step::Rounds(first, count, leaders) => self.rounds(rt, first, count, leaders),
            Step::RoundsAtLast(first, count, leaders) => self.lands(rt, first, count, leaders),
            Step::RoundsNot => self.rounds_not(rt),
            step => self.finds(rt, step),
        }
    }

    fn finds<R: Wait + Abort + AllocGlobal>(&mut self, rt: &R, step: Step) {
        match step {
            Step::Reads(name, leads) => self.client.reads(rt, name, leads),
            Step::Leader(name, term, bid, node) => self.client.knows(rt, name, term, bid, node),
            Step::Below(name, term, floor) => self.client.is_below(rt, name, term, floor),
            step => assert!(rt; self.is_so(rt, step)),
        }
    }

    /// Whether it is as the step says.
    fn is_so<R: Wait>(&self, rt: &R, step: Step) -> bool {
        match step {
            Step::IsPublished(is) => self.flusher.is_published() == is,
            Step::Epoch(epoch) => self.flusher.epoch() == epoch,
            Step::Used(bytes) => self.hub.look(rt).used == bytes,
            Step::IsDue(is_due) => self.hub.look(rt).is_due == is_due,
            _ => false,
        }
    }

    fn submits<R: Wait + Abort>(&mut self, rt: &R, ask: Ask) {
        let ticket = submits(rt, &self.hub, &mut self.client.share, ask);
        keeps(rt, &mut self.tickets, ticket);
    }

    fn redeems<R: Wait + Abort>(&mut self, rt: &R) {
        let ticket = oldest(rt, &mut self.tickets);
        let stub = released(rt, &self.hub, ticket).expect(rt, "a reply");
        self.client.last = Some(stub);
    }

    fn leads<R: Wait + Abort>(&mut self, rt: &R, ask: Ask) {
        let Station {
            hub,
            flusher,
            client,
            ..
        } = self;
        leads(rt, hub, flusher, &mut client.share, ask);
    }

    fn fails<R: Wait + Abort>(&mut self, rt: &R) {
        let ticket = oldest(rt, &mut self.tickets);
        fails_next(rt, &self.hub, &mut self.flusher, ticket);
    }

    fn takes<R: Wait + Abort>(&mut self, rt: &R, first: u64, end: u64) {
        for no in first..end {
            takes(rt, &self.hub, &mut self.client.share, dropped(no));
        }
    }

    fn takes_leaders<R: Wait + Abort>(&mut self, rt: &R) {
        for no in 1..66 {
            let ask = Ask::Take(no, Note::Elected("red", 5 + no as u32, 30, 2));
            takes(rt, &self.hub, &mut self.client.share, ask);
        }
    }

    fn lands<R: Wait + Abort>(&mut self, rt: &R, first: u64, count: u64, leaders: usize) {
        let landed = rounds(rt, &self.hub, &mut self.flusher, &mut self.gate);
        assert!(rt; landed == (count, leaders));
        assert!(rt; self.gate.first == first && self.gate.count == count as usize);
    }

    fn rounds<R: Wait + Abort>(&mut self, rt: &R, first: u64, count: u64, leaders: usize) {
        self.lands(rt, first, count, leaders);
        assert!(rt; self.flusher.is_published());
    }

    fn rounds_not<R: Wait + Abort>(&mut self, rt: &R) {
        let first = self.gate.first;
        let landed = round(rt, &self.hub, &mut self.flusher, &mut self.gate);
        assert!(rt; landed == Ok(None) && self.gate.first == first);
    }
}
