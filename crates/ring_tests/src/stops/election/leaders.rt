// Who leads.
use super::{NODES, STANDS, Walk, key, node};
use ring_records::{Bid, Candidate, NodeNo, Reply, Request};
use ring_world::{Announced, Event};

impl Walk {
    /// Every node names the greatest that stood for each key, and nothing else was ever named.
    pub fn ask_leaders(&mut self) -> Option<()> {
        for group in [b'r', b'b'] {
            self.ask_leader(group)?;
        }
        let announced = self.world.announced().ok()?;
        for named in &announced {
            self.is_good &= is_greatest(named)?;
        }
        Some(())
    }

    // Every node names the greatest that stood for the key of this group.
    fn ask_leader(&mut self, group: u8) -> Option<()> {
        let greatest = greatest(group)?;
        for number in 1..NODES + 1 {
            let named = self.who(node(number)?, group)?;
            self.is_good &= named == Some(greatest);
        }
        Some(())
    }

    fn who(&mut self, node: NodeNo, group: u8) -> Option<Option<Candidate>> {
        let request = Request::Who(key(group)?);
        let outcome = self.world.step(Event::Submit(node, request)).ok()?;
        match outcome.replies.get(0) {
            Some((_, Reply::Leader(leader))) => Some(*leader),
            _ => None,
        }
    }
}

// Whether a leader that was named is the greatest that stood for its key.
fn is_greatest(named: &Announced) -> Option<bool> {
    let is_red = named.key == key(b'r')? && named.leader == greatest(b'r')?;
    let is_blue = named.key == key(b'b')? && named.leader == greatest(b'b')?;
    Some(is_red || is_blue)
}

// The candidate that stands for the key of this group with the greatest bid, and of equal ones the greatest node.
fn greatest(group: u8) -> Option<Candidate> {
    let mut best = (0, 0);
    for (number, of, bid) in STANDS {
        if of == group && (bid > best.0 || bid == best.0 && number > best.1) {
            best = (bid, number);
        }
    }
    let bid = Bid::new(best.0).ok()?;
    let node = node(best.1)?;
    Some(Candidate { bid, node })
}
