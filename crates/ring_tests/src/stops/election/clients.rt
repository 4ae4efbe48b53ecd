// The clients, each of which stands once, and what they are told.
use super::{STANDS, Walk, key, node};
use ring_records::{Bid, Refusal, Reply, Request};
use ring_world::{Event, Outcome};

impl Walk {
    /// Every client asks for its Stand.
    pub fn stand_all(&mut self) -> Option<()> {
        for stand in 0..STANDS.len() {
            self.stand(stand)?;
        }
        Some(())
    }

    // The client of this Stand asks for it.
    fn stand(&mut self, stand: usize) -> Option<()> {
        let outcome = self.ask_stand(stand)?;
        *self.tickets.get_mut(stand)? = outcome.ticket?;
        self.note(&outcome);
        Some(())
    }

    fn ask_stand(&mut self, stand: usize) -> Option<Outcome> {
        let (number, group, bid) = *STANDS.get(stand)?;
        let bid = Bid::new(bid).ok()?;
        let request = Request::Stand(key(group)?, bid);
        self.world.step(Event::Submit(node(number)?, request)).ok()
    }

    /// The Stands that the replies acknowledge.
    pub fn note(&mut self, outcome: &Outcome) {
        for (ticket, reply) in &outcome.replies {
            self.note_reply(*ticket, reply);
        }
    }

    fn note_reply(&mut self, ticket: u64, reply: &Reply) {
        for stand in 0..STANDS.len() {
            if self.tickets[stand] == ticket && is_acknowledged(stand, reply) {
                self.acknowledged[stand] = true;
            }
        }
    }

    /// The clients whose tickets were lost ask again.
    pub fn ask_again(&mut self, stopped: &Outcome) -> Option<()> {
        for ticket in &stopped.lost {
            self.ask_lost(*ticket)?;
        }
        Some(())
    }

    fn ask_lost(&mut self, ticket: u64) -> Option<()> {
        for stand in 0..STANDS.len() {
            if self.tickets[stand] == ticket {
                self.stand(stand)?;
            }
        }
        Some(())
    }

    /// Every Stand was acknowledged, and its node knows it.
    pub fn ask_stands(&mut self) -> Option<()> {
        for stand in 0..STANDS.len() {
            self.is_good &= self.acknowledged[stand] && self.is_known(stand)?;
        }
        Some(())
    }

    fn is_known(&mut self, stand: usize) -> Option<bool> {
        let outcome = self.ask_stand(stand)?;
        match outcome.replies.get(0) {
            Some((_, Reply::Refused(Refusal::Already(bid)))) => Some(is_bid(stand, *bid)),
            _ => Some(false),
        }
    }
}

// Whether the reply to this Stand says that it is accepted, or that it was.
fn is_acknowledged(stand: usize, reply: &Reply) -> bool {
    match reply {
        Reply::Stood => true,
        Reply::Refused(Refusal::Already(bid)) => is_bid(stand, *bid),
        _ => false,
    }
}

fn is_bid(stand: usize, bid: Bid) -> bool {
    match STANDS.get(stand) {
        Some((_, _, own)) => bid.number() == *own,
        None => false,
    }
}
