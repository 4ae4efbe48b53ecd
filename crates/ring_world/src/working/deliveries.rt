// What the links carry.
ghost use Rattle.std.specs.Prelude.{◌≡◌, ◌≤◌, ◌<◌, ◌^◌, length, true, false, IfOk, IfSome};
ghost use Rattle.ring_records.specs.Outside.{is_outside};
ghost use Rattle.ring_world.specs.Ring.{is_released, carried, ready, next_delivery, swept_one, swept};
ghost use Rattle.ring_world.specs.Left.{IsSameState};

use super::*;

impl Working {
    // The delivery of message `no` of the link from a node.
    pub(super) fn delivery(&self, from: NodeNo, no: u64) -> Option<(NodeNo, Request)>
        requires inside { from ≤ self.now.ring.size }
        ensures value { result ≡ carried self.now.ring from no }
        ensures within { IfSome result (λ delivery. delivery.0 ≤ self.now.ring.size) }
        ensures of_ring { IfSome result (λ delivery. is_outside self.now.ring.size delivery.1 ≡ false) }
        ensures released { IfSome result (λ delivery. is_released self.now.ring delivery.0 delivery.1 ≡ true) }
    {
        match self.message(from, no) {
            Some(msg) => Some((from.successor(self.log.size), Request::Take(no, msg))),
            None => None,
        }
    }

    // The delivery of the next message of the lowest node whose successor waits for one that may be released.
    fn ready(&self) -> Option<(NodeNo, Request)>
        ensures value { result ≡ ready self.now.ring }
        ensures within { IfSome result (λ delivery. delivery.0 ≤ self.now.ring.size) }
        ensures of_ring { IfSome result (λ delivery. is_outside self.now.ring.size delivery.1 ≡ false) }
        ensures released { IfSome result (λ delivery. is_released self.now.ring delivery.0 delivery.1 ≡ true) }
    {
        let mut from = NodeNo::first();
        for _ in 0..self.log.size {
            let next = from.successor(self.log.size);
            let delivery = self.delivery(from, self.taken(next));
            if delivery.is_some() {
                return delivery;
            }
            from = next;
        }
        None
    }

    // That delivery, where an event may be added.
    fn next_delivery(&self) -> Option<(NodeNo, Request)>
        ensures value { result ≡ next_delivery self.now.ring }
        ensures within { IfSome result (λ delivery. delivery.0 ≤ self.now.ring.size) }
        ensures of_ring { IfSome result (λ delivery. is_outside self.now.ring.size delivery.1 ≡ false) }
        ensures released { IfSome result (λ delivery. is_released self.now.ring delivery.0 delivery.1 ≡ true) }
        ensures room { IfSome result (λ delivery. length self.now.ring.events < 2 ^ 60) }
    {
        if self.is_full() {
            return None;
        }
        self.ready()
    }

    // Delivers what may be released, the lowest node's first, until nothing is ready or one is refused, and at most
    // 10,000 times: how many were accepted. Want of memory may leave some of it done.
    pub(super) fn sweep(&mut self) -> Result<u32, AllocError>
        ensures swept { IfOk result (λ count. (count, self.new.ring) ≡ swept 10000 self.old.ring) }
        ensures same { IsSameState self.old self.new }
    {
        let mut count: u32 = 0;
        for _ in 0..10_000_u32 {
            let Some(delivery) = self.next_delivery() else {
                return Ok(count);
            };
            if !self.make_delivery(delivery.0, &delivery.1)? {
                return Ok(count);
            }
            count += 1;
        }
        Ok(count)
    }

    // A delivery without a number: whether it is accepted.
    fn make_delivery(&mut self, node: NodeNo, question: &Request) -> Result<bool, AllocError>
        requires inside { node ≤ self.old.ring.size }
        requires of_ring { is_outside self.old.ring.size question.now ≡ false }
        requires released { is_released self.old.ring node question.now ≡ true }
        requires room { length self.old.ring.events < 2 ^ 60 }
        ensures next { IfOk result (λ accepted. (accepted, self.new.ring) ≡ swept_one node question.now self.old.ring) }
        ensures same { IsSameState self.old self.new }
    {
        let before = self.count(node);
        let _replies = self.bring(None, node, question)?;
        Ok(before < self.count(node))
    }
}
