// The open tickets of a row, and the stubs of those that were redeemed.
ghost use Rattle.ring_records.specs.Snapshot.{IsSound};

use crate::node::fault::Fault;
use crate::node::seat::Seat;
use gated_journal::Opening;
use group_commit::{Desk, SharedDesk, Stub, Ticket};
use ring_records::{LEAST_CAPACITY, NodeNo, Refusal, Reply};
use std::alloc::{AllocError, AllocFailed, Global};

/// How many tickets a row may take.
const TICKETS: u64 = 2_000;

/// An open ticket, with its number in the row.
struct Held {
    no: u64,
    ticket: Ticket,
}

/// A redeemed one.
#[derive(Drop)]
struct Released {
    no: u64,
    stub: Stub,
}

/// The tickets of a row, numbered from 1 on. They are not let go: `end` ends them.
pub struct Tickets {
    alloc: Global,
    taken: u64,
    held: Vec<Held>,
    stubs: Vec<Released>,
    // Where tickets end that no node ends.
    desk: SharedDesk,
}

impl Tickets {
    /// None yet.
    pub fn new(alloc: Global) -> Result<Tickets, AllocError> {
        match Desk::open(alloc, NodeNo::first(), 2, LEAST_CAPACITY, 0, fresh(alloc)) {
            Ok(desk) => Ok(Tickets {
                alloc,
                taken: 0,
                held: Vec::new(alloc),
                stubs: Vec::new(alloc),
                desk: SharedDesk { desk },
            }),
            Err(_) => Err(AllocError),
        }
    }

    /// Ends those that are open, with no reply.
    pub fn end(self) {
        let Tickets {
            alloc: _,
            taken: _,
            held,
            stubs,
            mut desk,
        } = self;
        drop(stubs);
        end_all(&mut desk, held);
        drop(desk);
    }

    /// Whether the row may take no more.
    pub fn are_all_taken(&self) -> bool {
        self.taken >= TICKETS
    }

    /// Keeps the ticket: its number.
    pub fn keep(&mut self, ticket: Ticket) -> Result<u64, AllocError> {
        let no = self.taken.wrapping_add(1);
        self.taken = no;
        self.hold(Held { no, ticket })?;
        Ok(no)
    }

    fn hold(&mut self, held: Held) -> Result<(), AllocError> {
        match self.held.push(held) {
            Ok(()) => Ok(()),
            Err(AllocFailed { value }) => {
                end(&mut self.desk, value);
                Err(AllocError)
            }
        }
    }

    // Takes the ticket of this number out.
    fn take_out(&mut self, no: u64) -> Option<Held> {
        let place = self.held.iter().position(|held| held.no == no)?;
        Some(self.held.remove(place))
    }

    /// Redeems the ticket of this number, which stays open where it is refused.
    pub fn redeem(&mut self, seat: &mut Seat, no: u64) -> Result<Reply, Fault> {
        self.stubs.reserve(1)?;
        let Some(held) = self.take_out(no) else {
            return Err(Fault::NoTicket);
        };
        match redeemed(seat, held) {
            Ok((reply, stub)) => {
                let _ = self.stubs.push(Released { no, stub });
                Ok(reply)
            }
            Err((held, fault)) => {
                self.hold(held)?;
                Err(fault)
            }
        }
    }

    /// Ends the ticket of this number with no reply. It stays open where that is refused.
    pub fn forfeit(&mut self, seat: &mut Seat, no: u64) -> Result<(), Fault> {
        let Some(held) = self.take_out(no) else {
            return Err(Fault::NoTicket);
        };
        match forfeited(seat, held) {
            Ok(()) => Ok(()),
            Err((held, fault)) => {
                self.hold(held)?;
                Err(fault)
            }
        }
    }

    /// Whether the node vouches for the stub of the ticket of this number.
    pub fn vouch(&self, seat: &Seat, no: u64) -> Result<bool, Fault> {
        let Seat::Node(node) = seat else {
            return Err(Fault::NoNode);
        };
        match self.stubs.iter().find(|released| released.no == no) {
            Some(released) => match node.desk().vouch(&released.stub) {
                Ok(vouched) => Ok(vouched),
                Err(refusal) => Err(Fault::from(refusal)),
            },
            None => Err(Fault::NoStub),
        }
    }
}

// What a new journal holds.
fn fresh(alloc: Global) -> Opening
    ensures { IsSound 2 result.base }
{
    let opening = Opening::fresh(alloc);
    opening
}

fn end_all(desk: &mut SharedDesk, held: Vec<Held>) {
    let mut held = held;
    while let Some(first) = held.pop() {
        end(desk, first);
    }
    held.destroy_empty();
}

fn end(desk: &mut SharedDesk, held: Held) {
    let Held { no: _, ticket } = held;
    let _ = desk.forfeit(ticket);
}

fn redeemed(seat: &mut Seat, held: Held) -> Result<(Reply, Stub), (Held, Fault)> {
    let Seat::Node(node) = seat else {
        return Err((held, Fault::NoNode));
    };
    let Held { no, ticket } = held;
    match node.redeem(ticket) {
        Ok(released) => Ok(released),
        Err((ticket, refusal)) => Err((Held { no, ticket }, Fault::from(refusal))),
    }
}

fn forfeited(seat: &mut Seat, held: Held) -> Result<(), (Held, Fault)> {
    let Seat::Node(node) = seat else {
        return Err((held, Fault::NoNode));
    };
    if node.is_open() {
        return Err((held, Fault::Open));
    }
    let Held { no, ticket } = held;
    match node.forfeit(ticket) {
        Ok(()) => Ok(()),
        Err((ticket, refusal)) => Err((Held { no, ticket }, Fault::from(refusal))),
    }
}
