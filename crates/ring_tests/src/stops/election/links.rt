// Credits, and what arrives once more.
use super::{NODES, Walk, node};
use ring_records::{NodeNo, Refusal, Reply};
use ring_world::{Event, Outcome};

impl Walk {
    /// The node, where nothing waits, tells its predecessor what it has taken: whether the predecessor did not know.
    pub fn credit(&mut self, from: NodeNo) -> Option<bool> {
        let taken = self.world.show(from).ok()?.taken;
        if taken <= self.world.show(before(from)?).ok()?.credit {
            return Some(false);
        }
        self.credit_again(from)?;
        Some(true)
    }

    fn credit_again(&mut self, from: NodeNo) -> Option<Outcome> {
        let upto = self.world.show(from).ok()?.taken;
        self.world.step(Event::Credit { from, upto }).ok()
    }

    /// Every message, and the last credit of every node, arrives once more, and is told as old.
    pub fn repeat_all(&mut self) -> Option<()> {
        for number in 1..NODES + 1 {
            let node = node(number)?;
            self.deliver_again(node)?;
            let credited = self.credit_again(node)?;
            self.is_good &= is_old(&credited);
        }
        Some(())
    }

    // Every message of the link from a node.
    fn deliver_again(&mut self, from: NodeNo) -> Option<()> {
        let sent = self.world.show(from).ok()?.sent;
        for no in 0..sent {
            let delivered = self.world.step(Event::Deliver { from, no }).ok()?;
            self.is_good &= is_old(&delivered);
        }
        Some(())
    }
}

fn before(node: NodeNo) -> Option<NodeNo> {
    if node.number() > NODES {
        return None;
    }
    Some(node.predecessor(NODES))
}

fn is_old(outcome: &Outcome) -> bool {
    match outcome.replies.get(0) {
        Some((_, Reply::Refused(Refusal::Old(_)))) => true,
        _ => false,
    }
}
