//! A desk behind a lock, where tickets end in every case.
ghost use Rattle.group_commit.specs.Ending.{IsEnded};

use crate::desk::Desk;
use crate::ticket::Ticket;
use ring_records::Refusal;

/// A desk that many share under one lock. Who forfeits a ticket cannot know there whether the desk takes requests.
#[derive(Drop)]
pub struct SharedDesk {
    pub desk: Desk,
}

impl SharedDesk {
    /// Ends a ticket in every case, with no reply. Refused as 10 where no such ticket is open here, and while the desk
    /// takes requests, which then keeps the reply for good.
    pub fn forfeit(&mut self, ticket: Ticket) -> Result<(), Refusal>
        ensures { IsEnded self.old.desk self.new.desk ticket result }
    {
        if self.desk.is_open() {
            end(ticket);
            return Err(Refusal::Foreign);
        }
        match self.desk.forfeit(ticket) {
            Ok(()) => Ok(()),
            Err((ticket, refusal)) => {
                end(ticket);
                Err(refusal)
            }
        }
    }
}

// Lets go of a ticket that nobody is to redeem.
fn end(ticket: Ticket) {
    let Ticket {
        node: _,
        run: _,
        own: _,
        number: _,
        question: _,
    } = ticket;
}
