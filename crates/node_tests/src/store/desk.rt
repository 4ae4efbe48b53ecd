// The desks of group_commit while a batch flies, and where memory is short. All desks are of a ring of 3, of capacity
// 4,096. A test is a script: what is done with a desk step by step, and what comes of each step.
ghost use Rattle.ring_records.specs.Snapshot.{IsSound};

use crate::rows::{inputs, node};
use crate::store::journal::{commit, commits, commits_all, journal_of};
use crate::store::rows::{No, Tells, reply, request, sends_are, tells_are};
use disk_model::{FuseDevice, MemDevice};
use gated_journal::{Batch, Journal, Opening, Receipt, Spoiled};
use group_commit::{Desk, Landed, Stub, Ticket};
use ring_records::Refusal;
use std::alloc::{AllocFailed, AllocGlobal};
use std::process::Abort;
use test_rows::{Ask, Note, Op, Say, Sends};

mod growths;
mod landing;
mod receipts;

const STAND: Ask = Ask::Stand("red", 5, 10);

const STOOD: Op = Op::Stand("red", 5, 10);

const WHO: Ask = Ask::Who("red", 5);

/// The message that the Stand sends.
const OWN: Note = Note::Token("red", 5, 10, 1);

/// What is done with a desk, and what comes of it. A ticket goes by its place among those that are open, oldest first.
#[derive(Clone, Copy)]
enum Step {
    /// The request gets a ticket of this number, at the second call where the first finds no memory, which changes nothing.
    Asks(Ask, u64),
    /// The ticket is redeemed with this reply, and the stub has the question, the number and the reply.
    Redeems(usize, Say),
    /// The ticket is not redeemed, for this cause, and comes back.
    Returns(usize, No),
    /// The desk, which is closed or has failed, ends the ticket with no reply.
    Forfeits(usize),
    /// It is closed.
    Closes,
    /// It has so many inputs, of which so many are durable or fly, and so many are durable.
    Has(usize, u64, u64),
    /// So many inputs are launched, at the second call where the first finds no memory, which changes nothing. The journal
    /// makes them durable.
    Launches(usize),
    /// Nothing is launched: for this cause, or since nothing waits.
    LaunchesNone(Option<No>),
    /// What flies, so many inputs, lands and releases these packets. The desk knows these leaders by them.
    Lands(u64, &'static [Sends], &'static [Tells]),
    /// A receipt of these inputs of this node, behind those before them, is not taken and comes back, and nothing changes.
    IsForeign(u8, &'static [Op], &'static [Op]),
    /// The receipt of what flies is not taken.
    LandsNot,
    /// A device fails with this one input, which was launched, and so does the desk, and no other desk that has the input.
    Fails(Op),
}

/// What a journal holds that summarises nothing: these inputs.
fn opening_of<R: Abort + AllocGlobal>(rt: &R, ops: &[Op]) -> Opening
    ensures { IsSound 3 result.base }
{
    let mut opening = Opening::fresh(rt.alloc());
    opening.inputs = inputs(rt, rt.alloc(), ops);
    opening
}

/// The desk of node 1 that opens with these inputs, or why it does not open.
fn opens<R: Abort + AllocGlobal>(rt: &R, ops: &[Op]) -> Result<Desk, Refusal> {
    let opening = opening_of(rt, ops);
    Desk::open(rt.alloc(), node(rt, 1), 3, 4096, 0, opening)
}

/// The same of a desk that opens, at the second call where the first finds no memory.
fn opened<R: Abort + AllocGlobal>(rt: &R, ops: &[Op]) -> Desk {
    match opens(rt, ops) {
        Ok(desk) => desk,
        Err(refusal) => {
            assert!(rt; refusal == Refusal::OutOfMemory);
            opens(rt, ops).expect(rt, "lawful inputs")
        }
    }
}

/// How many inputs the desk has, how many are durable or fly, and how many are durable.
fn counts(desk: &Desk) -> (usize, u64, u64) {
    (desk.history().len(), desk.flying(), desk.durable())
}

/// The node of a receipt, how many inputs were before its own, and how many are its own.
fn numbers_of(receipt: &Receipt) -> (u8, u64, usize) {
    let node = receipt.node();
    (node.number(), receipt.first(), receipt.inputs().len())
}

/// What a call that is refused leaves: the counts, how many tickets are open, and whether it takes requests.
fn shown(desk: &Desk) -> ((usize, u64, u64), usize, bool) {
    (counts(desk), desk.open_tickets(), desk.is_open())
}

/// The ticket is not redeemed for this cause, and comes back.
fn comes_back(rt: &impl Abort, desk: &mut Desk, ticket: Ticket, cause: Refusal) -> Ticket {
    let number = ticket.number();
    let question = ticket.question();
    match desk.redeem(ticket) {
        Ok(_) => panic!(rt; "redeemed"),
        Err((ticket, refusal)) => {
            assert!(rt; refusal == cause);
            assert!(rt; ticket.number() == number);
            assert!(rt; ticket.question() == question);
            ticket
        }
    }
}

/// The batch that the desk launches, or why there is none. Something waits.
fn launched(rt: &impl Abort, desk: &mut Desk) -> Result<Batch, Refusal> {
    assert!(rt; !desk.needs_checkpoint());
    match desk.launch() {
        Ok(Some(batch)) => Ok(batch),
        Ok(None) => panic!(rt; "nothing waits"),
        Err(refusal) => Err(refusal),
    }
}

/// The desk launches nothing: for this cause, or since nothing waits.
fn launches_none(rt: &impl Abort, desk: &mut Desk, no: Option<No>) {
    assert!(rt; !desk.needs_checkpoint());
    match desk.launch() {
        Ok(Some(_batch)) => panic!(rt; "a batch"),
        Ok(None) => assert!(rt; no.is_none()),
        Err(refusal) => match no {
            Some(no) => assert!(rt; refusal == no.refusal()),
            None => panic!(rt; "{refusal}"),
        },
    }
}

/// A desk, the journal that its batches go to, the tickets that are open, oldest first, and the receipt of what flies.
struct Station {
    desk: Desk,
    journal: Journal<FuseDevice<MemDevice>>,
    tickets: Vec<Ticket>,
    flown: Vec<Receipt>,
}

/// A desk of node 1 that opens with these inputs, and the journal that holds them.
fn station_of<R: Abort + AllocGlobal>(rt: &R, ops: &[Op]) -> Station {
    let desk = opened(rt, ops);
    let mut journal = journal_of(rt, node(rt, 1));
    if !ops.is_empty() {
        commits_all(rt, &mut journal, ops).into_parts();
    }
    Station {
        desk,
        journal,
        tickets: Vec::new(rt.alloc()),
        flown: Vec::new(rt.alloc()),
    }
}

/// This is done with a new desk of node 1, step by step.
fn plays<R: Abort + AllocGlobal>(rt: &R, steps: &[Step]) {
    let mut station = station_of(rt, &[]);
    station.plays(rt, steps);
    station.ends(rt);
}

impl Station {
    fn plays<R: Abort + AllocGlobal>(&mut self, rt: &R, steps: &[Step]) {
        for step in steps {
            self.does(rt, *step);
        }
    }

    /// No ticket is open, and nothing flies.
    fn ends(self, rt: &impl Abort) {
        let Station {
            desk,
            journal,
            tickets,
            flown,
        } = self;
        drop((desk, journal));
        assert!(rt; tickets.is_empty());
        assert!(rt; flown.is_empty());
        tickets.destroy_empty();
        flown.destroy_empty();
    }

    fn does<R: Abort + AllocGlobal>(&mut self, rt: &R, step: Step) {
        match step {
            Step::Asks(ask, number) => self.asks(rt, ask, number),
            Step::Redeems(place, say) => drop(self.redeems(rt, place, say)),
            Step::Returns(place, no) => self.returns(rt, place, no),
            Step::Forfeits(place) => self.forfeits(rt, place),
            Step::Closes => self.desk.close(),
            Step::Has(inputs, flying, durable) => {
                assert!(rt; counts(&self.desk) == (inputs, flying, durable))
            }
            Step::Launches(count) => self.launches(rt, count),
            Step::LaunchesNone(no) => launches_none(rt, &mut self.desk, no),
            Step::Lands(count, sends, tells) => self.lands(rt, count, sends, tells),
            Step::IsForeign(number, before, ops) => self.is_foreign(rt, number, before, ops),
            Step::LandsNot => self.lands_not(rt),
            Step::Fails(op) => self.fails(rt, op),
        }
    }

    fn keeps(&mut self, rt: &impl Abort, place: usize, ticket: Ticket) {
        assert!(rt; place <= self.tickets.len());
        let AllocFailed { value: ticket } = match self.tickets.insert(place, ticket) {
            Ok(()) => return,
            Err(refused) => refused,
        };
        match self.tickets.insert(place, ticket) {
            Ok(()) => {}
            Err(_ticket) => panic!(rt; "ample memory"),
        }
    }

    fn takes_out(&mut self, rt: &impl Abort, place: usize) -> Ticket {
        assert!(rt; place < self.tickets.len());
        self.tickets.remove(place)
    }

    /// A ticket for the request.
    fn ticket_for(&mut self, rt: &impl Abort, ask: Ask) -> Ticket {
        let before = shown(&self.desk);
        match self.desk.submit(request(rt, ask)) {
            Ok(ticket) => ticket,
            Err(refusal) => {
                assert!(rt; refusal == Refusal::OutOfMemory);
                assert!(rt; shown(&self.desk) == before);
                let question = request(rt, ask);
                self.desk.submit(question).expect(rt, "a ticket")
            }
        }
    }

    fn asks(&mut self, rt: &impl Abort, ask: Ask, number: u64) {
        let ticket = self.ticket_for(rt, ask);
        assert!(rt; ticket.number() == number);
        let place = self.tickets.len();
        self.keeps(rt, place, ticket);
    }

    fn redeems(&mut self, rt: &impl Abort, place: usize, say: Say) -> Stub {
        let ticket = self.takes_out(rt, place);
        let number = ticket.number();
        let question = ticket.question();
        let reply = reply(rt, say);
        match self.desk.redeem(ticket) {
            Ok((found, stub)) => {
                assert!(rt; found == reply);
                assert!(rt; stub.reply() == reply);
                assert!(rt; stub.number() == number);
                assert!(rt; stub.question() == question);
                stub
            }
            Err((_ticket, refusal)) => panic!(rt; "{refusal}"),
        }
    }

    fn returns(&mut self, rt: &impl Abort, place: usize, no: No) {
        let ticket = self.takes_out(rt, place);
        let ticket = comes_back(rt, &mut self.desk, ticket, no.refusal());
        self.keeps(rt, place, ticket);
    }

    fn forfeits(&mut self, rt: &impl Abort, place: usize) {
        let ticket = self.takes_out(rt, place);
        assert!(rt; !self.desk.is_open());
        match self.desk.forfeit(ticket) {
            Ok(()) => {}
            Err((_ticket, refusal)) => panic!(rt; "{refusal}"),
        }
    }

    /// The journal makes the batch, of so many inputs, durable.
    fn flies(&mut self, rt: &impl Abort, batch: Batch, count: usize) {
        assert!(rt; batch.inputs().len() == count);
        let receipt = commits(rt, &mut self.journal, batch);
        let AllocFailed { value: receipt } = match self.flown.push(receipt) {
            Ok(()) => return,
            Err(refused) => refused,
        };
        match self.flown.push(receipt) {
            Ok(()) => {}
            Err(_receipt) => panic!(rt; "ample memory"),
        }
    }

    fn launches(&mut self, rt: &impl Abort, count: usize) {
        let before = shown(&self.desk);
        let batch = match launched(rt, &mut self.desk) {
            Ok(batch) => batch,
            Err(refusal) => {
                assert!(rt; refusal == Refusal::OutOfMemory);
                assert!(rt; shown(&self.desk) == before);
                launched(rt, &mut self.desk).expect(rt, "ample memory")
            }
        };
        self.flies(rt, batch, count);
    }

    /// The receipt of what flies.
    fn receipt(&mut self, rt: &impl Abort) -> Receipt {
        match self.flown.pop() {
            Some(receipt) => receipt,
            None => panic!(rt; "nothing flies"),
        }
    }

    /// What flies, so many inputs, lands: what that releases.
    fn landed(&mut self, rt: &impl Abort, count: u64) -> Landed {
        let receipt = self.receipt(rt);
        match self.desk.land(receipt) {
            Ok(landed) => {
                assert!(rt; landed.count == count);
                landed
            }
            Err((_receipt, refusal)) => panic!(rt; "{refusal}"),
        }
    }

    fn lands(&mut self, rt: &impl Abort, count: u64, sends: &[Sends], tells: &[Tells]) {
        let landed = self.landed(rt, count);
        sends_are(rt, &landed.packets, sends);
        tells_are(rt, &landed.notices, tells);
    }
}
