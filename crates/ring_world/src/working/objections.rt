// Why an event is refused.
ghost use Rattle.std.specs.Prelude.{◌≡◌, ◌≤◌, None, IfSome};
ghost use Rattle.ring_records.specs.Objection.{where_so};
ghost use Rattle.ring_world.specs.declared.event.Event.TheVariants as event;
ghost use Rattle.ring_world.specs.Ring.{is_full};
ghost use Rattle.ring_world.specs.Step.{refusal_of, objection_to, unbegun, no_node, no_stop, no_checkpoint, spent};

use super::*;
use crate::event::Event;
use ring_records::Refusal;

impl Working {
    // The first cause to refuse an event, want of memory aside.
    pub(super) fn refusal(&self, event: &Event) -> Option<Refusal>
        ensures value { result ≡ refusal_of self.now event.now }
        ensures memory { IfSome result (λ refusal. refusal ≡ Refusal.OutOfMemory → ⊥) }
    {
        let _ = &self.log;
        match self.objection(event) {
            Some(refusal) => Some(refusal),
            None => match self.event_objection() {
                Some(refusal) => Some(refusal),
                None => self.checkpoint_objection(event),
            },
        }
    }

    #[tactic(auto, unfolding(crate::specs::Step::objection_to))]
    fn objection(&self, event: &Event) -> Option<Refusal>
        ensures value { result ≡ objection_to self.now event.now }
        ensures memory { IfSome result (λ refusal. refusal ≡ Refusal.OutOfMemory → ⊥) }
    {
        match event {
            Event::Submit(node, request) => self.submit_objection(*node, request),
            Event::Flush(node) => self.node_objection(*node),
            Event::Deliver { from, no } => self.deliver_objection(*from, *no),
            Event::DeliverAll => None,
            Event::Credit { from, upto } => self.credit_objection(*from, *upto),
            Event::Crash(node) => self.node_objection(*node),
            Event::Stop { node, call, .. } => self.stop_objection(*node, *call, FLUSH_CALLS),
            Event::Checkpoint(node) => self.node_objection(*node),
            Event::StopCheckpoint { node, call, .. } => {
                self.stop_objection(*node, *call, CHECKPOINT_CALLS)
            }
        }
    }

    #[tactic(auto, unfolding(crate::specs::Step::objection_to))]
    fn submit_objection(&self, node: NodeNo, request: &Request) -> Option<Refusal>
        ensures value { result ≡ objection_to self.now (event.Submit node request.now) }
        ensures memory { IfSome result (λ refusal. refusal ≡ Refusal.OutOfMemory → ⊥) }
    {
        let size = self.log.size;
        if node.number() > size || request.is_outside(size) {
            return Some(Refusal::BadNumber);
        }
        if !self.is_released(node, request) {
            return Some(Refusal::Unknown);
        }
        self.ticket_objection()
    }

    #[tactic(auto, unfolding(crate::specs::Step::objection_to))]
    fn deliver_objection(&self, from: NodeNo, no: u64) -> Option<Refusal>
        ensures value { result ≡ objection_to self.now (event.Deliver from no) }
        ensures memory { IfSome result (λ refusal. refusal ≡ Refusal.OutOfMemory → ⊥) }
    {
        if from.number() > self.log.size {
            return Some(Refusal::BadNumber);
        }
        if self.delivery(from, no).is_none() {
            return Some(Refusal::Unknown);
        }
        self.ticket_objection()
    }

    #[tactic(auto, unfolding(crate::specs::Step::objection_to))]
    fn credit_objection(&self, from: NodeNo, upto: u64) -> Option<Refusal>
        ensures value { result ≡ objection_to self.now (event.Credit from upto) }
        ensures memory { IfSome result (λ refusal. refusal ≡ Refusal.OutOfMemory → ⊥) }
    {
        if from.number() > self.log.size {
            return Some(Refusal::BadNumber);
        }
        if !self.is_earned(from, upto) {
            return Some(Refusal::Unknown);
        }
        self.ticket_objection()
    }

    // Of so many device calls none may be this one.
    fn stop_objection(&self, node: NodeNo, call: u64, calls: u64) -> Option<Refusal>
        ensures value { result ≡ no_stop self.now calls node call }
        ensures memory { IfSome result (λ refusal. refusal ≡ Refusal.OutOfMemory → ⊥) }
    {
        if node.number() > self.log.size || call == 0 || call > calls {
            return Some(Refusal::BadNumber);
        }
        None
    }

    fn node_objection(&self, node: NodeNo) -> Option<Refusal>
        ensures value { result ≡ no_node self.now node }
        ensures memory { IfSome result (λ refusal. refusal ≡ Refusal.OutOfMemory → ⊥) }
    {
        if node.number() > self.log.size {
            return Some(Refusal::BadNumber);
        }
        None
    }

    // What the checkpoint meets that the event begins, where nothing of this ring is objected to it.
    #[tactic(auto, unfolding(crate::specs::Step::objection_to, crate::specs::Step::unbegun))]
    fn checkpoint_objection(&self, event: &Event) -> Option<Refusal>
        requires free { objection_to self.now event.now ≡ None }
        ensures value { result ≡ unbegun self.now event.now }
        ensures memory { IfSome result (λ refusal. refusal ≡ Refusal.OutOfMemory → ⊥) }
    {
        match event {
            Event::Checkpoint(node) => self.checkpoint_refusal(*node),
            Event::StopCheckpoint { node, .. } => self.checkpoint_refusal(*node),
            Event::Submit(..) | Event::Flush(_) | Event::Deliver { .. } | Event::DeliverAll => None,
            Event::Credit { .. } | Event::Crash(_) | Event::Stop { .. } => None,
        }
    }

    fn checkpoint_refusal(&self, node: NodeNo) -> Option<Refusal>
        requires inside { node ≤ self.now.ring.size }
        ensures value { result ≡ no_checkpoint self.now node }
        ensures memory { IfSome result (λ refusal. refusal ≡ Refusal.OutOfMemory → ⊥) }
    {
        self.at(node).checkpoint_refusal()
    }

    fn event_objection(&self) -> Option<Refusal>
        ensures value { result ≡ where_so (is_full self.now.ring) Refusal.Limit }
        ensures memory { IfSome result (λ refusal. refusal ≡ Refusal.OutOfMemory → ⊥) }
    {
        if self.is_full() {
            return Some(Refusal::Limit);
        }
        None
    }

    fn ticket_objection(&self) -> Option<Refusal>
        ensures value { result ≡ spent self.now }
        ensures memory { IfSome result (λ refusal. refusal ≡ Refusal.OutOfMemory → ⊥) }
    {
        if self.log.tickets >= TICKETS {
            return Some(Refusal::Limit);
        }
        None
    }
}

/// The device calls of a flush.
const FLUSH_CALLS: u64 = 4;

/// Those of a checkpoint.
const CHECKPOINT_CALLS: u64 = 6;

/// The most ticket numbers.
const TICKETS: u64 = 1 << 60;
