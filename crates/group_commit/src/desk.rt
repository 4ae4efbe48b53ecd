//! A node's inputs: which of them are durable, which fly, and the replies that wait for them.
ghost use Rattle.std.specs.Prelude.{◌≡◌, ◌+◌, ◌++◌, ◌⊎◌, ◌||◌, List, [], not, true, Some, None, length, drop, MatchOption, IfOk, IfErr, OnOk, OnErr};
ghost use Rattle.std.specs.List.{cons_option};
ghost use Rattle.ring_records.specs.declared.input.Input.{Input};
ghost use Rattle.ring_records.specs.Lawful.{IsNodeState};
ghost use Rattle.ring_records.specs.Answer.{Answered};
ghost use Rattle.ring_records.specs.Member.{member};
ghost use Rattle.ring_records.specs.Release.{window};
ghost use Rattle.ring_records.specs.Snapshot.{IsSound};
ghost use Rattle.ring_records.specs.States.{durable_in};

use crate::desk::parts::{accept, replay};
use crate::inputs::Inputs;
use crate::judge::judge;
use crate::kept::{keep, kept_for, take_back};
use crate::outbox::Outbox;
use crate::ticket::{Stub, Ticket};
use gated_journal::Opening;
use node_core::NodeCore;
use ring_records::{Input, NodeNo, Packet, Refusal, Reply, Request, Room, Summary, summary_len};
use std::alloc::{AllocError, AllocFailed, Global};
use std::collections::BTreeMap;
use std::marker::Model;

/// The most tickets of an opening.
const TICKETS: u64 = 1 << 60;

/// The desk of a node: it accepts inputs at once, and keeps each reply until the inputs that it rests on are durable. It
/// goes on from the summary that it was opened with, and counts the inputs that this stands for.
#[derive(Drop)]
pub struct Desk {
    node: NodeNo,
    n: u8,
    capacity: u32,
    run: u64,
    // What it was opened with.
    base: Summary,
    core: NodeCore,
    // The inputs since; how many of them are durable, and how many durable or flying.
    inputs: Inputs,
    durable: u64,
    flying: u64,
    // The area of the journal that is in use: for how many inputs since it stands, and in how many bytes. How long the
    // snapshot is of the checkpoint that flies, if one does.
    layout: u8,
    epoch: u64,
    summarised: u64,
    area: u64,
    pending: Option<u64>,
    outbox: Outbox,
    tickets: BTreeMap<u64, Stub>,
    issued: u64,
    is_closed: bool,
    is_failed: bool,
}

impl Model for Desk {
    ghost use Rattle.group_commit.specs.Codes.{coded_desk};
    ghost use Rattle.group_commit.specs.Desk.{DeskKept};

    ghost Value = { DeskKept };

    ghost coded = { coded_desk };

    ghost use Rattle.ring_records.specs.Member.{member};
    ghost use Rattle.group_commit.specs.Kept.{IsDesk, state_with};

    ghost view = { λ d. record {
      opening = d.base;
      view = record {
        member = member d.node d.n d.capacity;
        run = d.run;
        state = state_with (record { layout = d.layout; epoch = d.epoch; inputs = d.summarised; bytes = d.area }) d.inputs.all.list d.durable d.flying d.pending;
        tickets = d.tickets.entries;
        issued = d.issued;
        closed = d.is_closed;
        failed = d.is_failed;
      };
      gone = d.inputs.gone;
    } };

    ghost invariant = { λ d. IsDesk d.core d.outbox d.inputs (member d.node d.n d.capacity) d.base
        (state_with (record { layout = d.layout; epoch = d.epoch; inputs = d.summarised; bytes = d.area }) d.inputs.all.list d.durable d.flying d.pending) d.tickets.entries d.issued };
}

impl Desk {
    ghost use Rattle.group_commit.specs.Desk.{DeskKept, new_desk, core_of, seen, objection, IsSubmitted, IsHere};
    ghost use Rattle.group_commit.specs.Opening.{IsKnownLawful, IsUnlawful};
    ghost use Rattle.group_commit.specs.Past.{IsPast};
    ghost use Rattle.group_commit.specs.Since.{IsKnownDesk};
    ghost use Rattle.gated_journal.specs.Opened.{reading_of_opening};
    ghost use Rattle.group_commit.specs.Ending.{is_over, IsRedeemed, IsForfeited};
    ghost use Rattle.group_commit.specs.Ticket.{shown};
    ghost use Rattle.group_commit.specs.DeskCalls.{answered_with};

    /// The desk of a node whose journal holds this: the inputs that its summary stands for, and those since, all of them
    /// durable. The caller sees that the summary is sound for a ring of `n`. Refused as 24 with the number of the first
    /// input since, counted from 0, that is not admitted after those before it, and as 8, also where there are 2^32 floors.
    pub fn open(
        alloc: Global,
        node: NodeNo,
        n: u8,
        capacity: u32,
        run: u64,
        opening: Opening,
    ) -> Result<Desk, Refusal>
        requires { IsSound n opening.base }
        ensures desk { IfOk result (λ desk. desk ≡ new_desk (member node n capacity) run (reading_of_opening opening)) }
        ensures lawful { OnOk result (IsKnownLawful (core_of (member node n capacity) (reading_of_opening opening)) opening.inputs.items) }
        ensures refusal { IfErr result (λ refusal. (refusal ≡ Refusal.OutOfMemory) ⊎ IsUnlawful (core_of (member node n capacity) (reading_of_opening opening)) opening.inputs.items refusal) }
    {
        let Opening {
            layout,
            epoch,
            base,
            inputs,
        } = opening;
        if base.floors.len() > u32::MAX as usize {
            return Err(Refusal::OutOfMemory);
        }
        let taken = summary_len(&base, layout);
        let room = Room {
            layout,
            epoch,
            taken,
            waits: false,
        };
        let Ok(mut core) = NodeCore::restore(alloc, node, n, capacity, room, &base) else {
            return Err(Refusal::OutOfMemory);
        };
        let Ok(mut outbox) = Outbox::restore(alloc, n, &base) else {
            return Err(Refusal::OutOfMemory);
        };
        if let Err(refusal) = replay(&mut core, &mut outbox, &inputs) {
            return Err(refusal);
        }
        let count = inputs.len() as u64;
        Ok(Desk {
            node,
            n,
            capacity,
            run,
            base,
            core,
            inputs: Inputs::new(alloc, inputs),
            durable: count,
            flying: count,
            layout,
            epoch,
            summarised: 0,
            area: taken,
            pending: None,
            outbox,
            tickets: BTreeMap::new(alloc),
            issued: 0,
            is_closed: false,
            is_failed: false,
        })
    }

    /// Answers a request, accepts its input where nothing is against it, and gives a ticket for the reply. Refused as 9
    /// where it is closed or has failed, as 2 where a Take's message is of no node of the ring, as 6 at 2^60 tickets,
    /// and as 8. Every other refusal is a reply.
    pub fn submit(&mut self, question: Request) -> Result<Ticket, Refusal>
        ensures submitted { IfOk result (λ ticket. IsSubmitted question self.old self.new (shown ticket)) }
        ensures free { OnOk result (objection self.old.view question ≡ None) }
        ensures refusal { IfErr result (λ refusal. (objection self.old.view question ≡ Some refusal) ⊎ ((objection self.old.view question ≡ None) × (refusal ≡ Refusal.OutOfMemory))) }
        ensures same { OnErr result (self.new ≡ self.old) }
    {
        if let Some(refusal) = self.objection(&question) {
            return Err(refusal);
        }
        let (reply, input) = judge(&self.core, &question);
        let number = self.base.inputs + count_with(&self.inputs, &input);
        let own = self.issued;
        let kept = Stub {
            question,
            reply,
            number,
        };
        if keep(&mut self.tickets, own, kept).is_err() {
            return Err(Refusal::OutOfMemory);
        }
        if accept(&mut self.core, &mut self.inputs, &mut self.outbox, &input).is_err() {
            take_back(&mut self.tickets, own);
            return Err(Refusal::OutOfMemory);
        }
        self.issued += 1;
        Ok(Ticket {
            node: self.node,
            run: self.run,
            own,
            number,
            question,
        })
    }

    /// Ends a ticket whose reply rests on durable inputs alone, and releases the reply, with a stub of it. Refused as
    /// 10 where no such ticket is open here; where an input that the reply rests on is not durable yet, as 9 on a desk
    /// that has failed and else as 11. Then the ticket comes back.
    pub fn redeem(&mut self, ticket: Ticket) -> Result<(Reply, Stub), (Ticket, Refusal)>
        ensures { IsRedeemed self.old self.new ticket result }
    {
        let Some((reply, number)) = self.found(&ticket) else {
            return Err((ticket, Refusal::Foreign));
        };
        if number > self.durable() {
            let refusal = if self.is_failed {
                Refusal::Failed
            } else {
                Refusal::Early
            };
            return Err((ticket, refusal));
        }
        let Ticket {
            node: _,
            run: _,
            own,
            number: _,
            question,
        } = ticket;
        take_back(&mut self.tickets, own);
        let released = reply;
        Ok((
            released,
            Stub {
                question,
                number,
                reply,
            },
        ))
    }

    /// Ends a ticket with no reply, on a desk that is closed or has failed. Refused as 10 where no such ticket is open
    /// here, and the ticket comes back.
    pub fn forfeit(&mut self, ticket: Ticket) -> Result<(), (Ticket, Refusal)>
        requires over { is_over self.old ≡ true }
        ensures { IsForfeited self.old self.new ticket result }
    {
        if self.found(&ticket).is_none() {
            return Err((ticket, Refusal::Foreign));
        }
        let Ticket {
            node: _,
            run: _,
            own,
            number: _,
            question: _,
        } = ticket;
        take_back(&mut self.tickets, own);
        Ok(())
    }

    /// Nothing more becomes durable, as after a failure of the device.
    pub fn abandon(&mut self)
        ensures { self.new ≡ record self.old { view = record self.old.view { failed = true } } }
    {
        self.is_failed = true;
    }

    /// Takes no more requests; all else goes on.
    pub fn close(&mut self)
        ensures { self.new ≡ record self.old { view = record self.old.view { closed = true } } }
    {
        self.is_closed = true;
    }

    /// The bytes of its journal that its inputs may take.
    pub fn capacity(&self) -> u32
        ensures { result ≡ self.now.view.member.capacity }
    {
        self.capacity
    }

    /// The inputs that it accepted since its opening, and those of the journal's frames before these, oldest first, but for
    /// those that it let go of: the first is number `first_kept`.
    pub fn history(&self) -> &[Input]
        ensures inputs { result.now ≡ drop self.now.gone self.now.view.state.inputs }
        ensures known { IsKnownDesk self.now }
        ensures counts { IsNodeState self.now.view.state }
    {
        &self.inputs.kept
    }

    /// The messages of its durable inputs that the successor is not known to have taken, as Carry packets in order:
    /// those from the last durable credit on. They may be released again.
    pub fn window(&self) -> Result<Vec<Packet>, AllocError>
        ensures packets { IfOk result (λ packets. (past : List Input) → IsPast self.now.view.member self.now.opening past
            → packets.items ≡ window self.now.view.member.node (durable_in (seen past self.now).state)) }
        ensures known { IsKnownDesk self.now }
    {
        self.outbox.released.window(self.inputs.allocator())
    }

    /// How many tickets are open: given, and neither redeemed nor forfeited.
    pub fn open_tickets(&self) -> usize
        ensures { result ≡ length self.now.view.tickets }
    {
        self.tickets.len()
    }

    /// Whether it takes requests: it was not closed and has not failed.
    pub fn is_open(&self) -> bool
        ensures { result ≡ not (self.now.view.closed || self.now.view.failed) }
    {
        !(self.is_closed || self.is_failed)
    }

    // The reply that is kept for the ticket, if it is open here, and how many inputs that rests on.
    fn found(&self, ticket: &Ticket) -> Option<(Reply, u64)>
        ensures { MatchOption result ((kept : Answered) → IsHere self.now.view (shown ticket.now) kept → ⊥) (λ r. IsHere self.now.view (shown ticket.now) (answered_with ticket.now.question r.0 r.1)) }
    {
        if ticket.node != self.node || ticket.run != self.run {
            return None;
        }
        match kept_for(&self.tickets, ticket.own) {
            Some(kept) if kept.question == ticket.question => Some((kept.reply, kept.number)),
            _ => None,
        }
    }

    // Why no ticket is given.
    fn objection(&self, question: &Request) -> Option<Refusal>
        ensures { result ≡ objection self.now.view question.now }
    {
        if self.is_closed || self.is_failed {
            return Some(Refusal::Failed);
        }
        if question.is_outside(self.n) {
            return Some(Refusal::BadNumber);
        }
        if self.issued >= TICKETS {
            return Some(Refusal::Limit);
        }
        None
    }
}

// How many inputs there are with this one, if there is one.
fn count_with(inputs: &Inputs, input: &Option<Input>) -> u64
    ensures { result ≡ length (inputs.now.all.list ++ cons_option input.now []) }
{
    inputs.count + u64::from(input.is_some())
}

mod counts;
mod decisions;
mod flight;
mod letting_go;
mod messages;
mod next;
mod parts;
mod vouch;
