// What the nodes hold durably.
ghost use Rattle.std.specs.Prelude.{◌≡◌, ◌⊎◌, false, None, Some, IfOk, IfErr, IfSome, OnOk};
ghost use Rattle.ring_audit.specs.Placement.{lists};
ghost use Rattle.ring_world.specs.Dropped.{first_dropped};
ghost use Rattle.ring_world.specs.Histories.{histories};
ghost use Rattle.ring_world.specs.Capacity.{all_fresh};

use super::*;
use ring_records::{Input, Refusal};

impl Working {
    /// The durable inputs of each node, in ring order. Refused as 27 where a node has its first inputs no more, by the
    /// lowest such, and as 8.
    pub fn histories(&self) -> Result<Vec<Vec<Input>>, Refusal>
        ensures works { self.now.ring.failed ≡ false }
        ensures lists { IfOk result (λ hs. lists hs.items ≡ histories all_fresh self.now.ring.size self.now.ring.capacity self.now.ring.events) }
        ensures given { OnOk result (first_dropped self.now.ring.size self.now.ring.capacity self.now.ring.events ≡ None) }
        ensures refused { IfErr result (λ why. (first_dropped self.now.ring.size self.now.ring.capacity self.now.ring.events ≡ Some why)
            ⊎ ((first_dropped self.now.ring.size self.now.ring.capacity self.now.ring.events ≡ None) × (why ≡ Refusal.OutOfMemory))) }
        ensures memory { IfErr result (λ why. why ≡ Refusal.OutOfMemory → first_dropped self.now.ring.size self.now.ring.capacity self.now.ring.events ≡ None) }
    {
        let _ = &self.log;
        match self.dropped() {
            Some(refusal) => Err(refusal),
            None => match self.durable_histories() {
                Ok(histories) => Ok(histories),
                Err(_) => Err(Refusal::OutOfMemory),
            },
        }
    }

    // The refusal by the lowest node that has its first inputs no more.
    fn dropped(&self) -> Option<Refusal>
        ensures value { result ≡ first_dropped self.now.ring.size self.now.ring.capacity self.now.ring.events }
        ensures memory { IfSome result (λ refusal. refusal ≡ Refusal.OutOfMemory → ⊥) }
    {
        let mut node = NodeNo::first();
        for _ in 0..self.log.size {
            if self.at(node).dropped() > 0 {
                return Some(Refusal::Dropped(node));
            }
            node = node.successor(self.log.size);
        }
        None
    }

    // Every node has its first inputs.
    fn durable_histories(&self) -> Result<Vec<Vec<Input>>, AllocError>
        requires whole { first_dropped self.now.ring.size self.now.ring.capacity self.now.ring.events ≡ None }
        ensures { IfOk result (λ hs. lists hs.items ≡ histories all_fresh self.now.ring.size self.now.ring.capacity self.now.ring.events) }
    {
        let mut histories = Vec::new(self.log.alloc);
        let mut node = NodeNo::first();
        for _ in 0..self.log.size {
            let history = self.at(node).durable_history()?;
            histories.push(history)?;
            node = node.successor(self.log.size);
        }
        Ok(histories)
    }
}
