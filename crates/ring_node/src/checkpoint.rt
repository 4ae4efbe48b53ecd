// Checkpoints of a node.
ghost use Rattle.std.specs.Prelude.{◌≡◌, ◌⊎◌, ◌-◌, None, Some, length, IfSome, IfOk, IfErr, OnOk, OnErr};
ghost use Rattle.ring_node.specs.Node.{state_of, checkpointed};
ghost use Rattle.ring_node.specs.Refusals.{checkpoint_refusal};

use crate::flight::Flight;
use crate::node::RingNode;
use ring_records::Refusal;

impl RingNode {
    /// Why no checkpoint of it is begun, want of memory aside: 6 where its journal may write no other area, 7 where the
    /// snapshot of all that it accepted is longer than the capacity.
    pub fn checkpoint_refusal(&self) -> Option<Refusal>
        ensures value { result ≡ checkpoint_refusal self.now.member (state_of self.now) }
        ensures memory { IfSome result (λ refusal. refusal ≡ Refusal.OutOfMemory → ⊥) }
    {
        self.node.desk().checkpoint_objection()
    }

    /// Makes a summary of all that it accepted durable in place of what its journal holds, also where nothing waits: how
    /// many inputs became durable. Refused as 6 where its journal may write no other area, as 7 where the summary's
    /// snapshot is longer than the capacity, and as 8; nothing has changed then.
    pub fn checkpoint(&mut self) -> Result<u32, Refusal>
        ensures next { OnOk result (self.new ≡ checkpointed self.old) }
        ensures count { IfOk result (λ count. count ≡ length self.old.inputs - self.old.durable) }
        ensures free { OnOk result (checkpoint_refusal self.old.member (state_of self.old) ≡ None) }
        ensures cause { IfErr result (λ why. (checkpoint_refusal self.old.member (state_of self.old) ≡ Some why)
            ⊎ ((checkpoint_refusal self.old.member (state_of self.old) ≡ None) × (why ≡ Refusal.OutOfMemory))) }
        ensures err { OnErr result (self.new ≡ self.old) }
    {
        if let Some(refusal) = self.checkpoint_refusal() {
            return Err(refusal);
        }
        match self.make_durable(Flight::Checkpoint) {
            Ok(count) => Ok(count),
            Err(_) => Err(Refusal::OutOfMemory),
        }
    }
}
