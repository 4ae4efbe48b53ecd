// Flushes of a node: what waits becomes durable.
ghost use Rattle.std.specs.Prelude.{◌≡◌, false};
ghost use Rattle.ring_records.specs.States.{flying_in};
ghost use Rattle.group_commit.specs.Desk.{seen, launched};
ghost use Rattle.group_commit.specs.Launching.{needs_checkpoint};
ghost use Rattle.node_store.specs.State.{durable_held};
ghost use Rattle.node_store.specs.Flying.{flown_next, next_flight};

use crate::node::Node;
use crate::node::rounds::settle;
use disk_model::Device;
use gated_journal::Work;
use group_commit::Landed;
use ring_records::Refusal;

impl<D: Device> Node<D> {
    ghost use Rattle.node_store.specs.Flushed.{IsFlushed, IsNotFlushed};
    ghost use Rattle.node_store.specs.Node.{desk_of, device_of};

    /// Makes inputs that wait durable, and tells what they let the node release: all of them, by a checkpoint, where one waits
    /// that the area in use can't hold, as a Retire does in an area of an earlier layout; and else the first, at most 64, or
    /// none where none waits. Refused as 9 where it has failed, as 15, after which it has failed, and as 8.
    pub fn flush(&mut self) -> Result<Landed, Refusal>
        ensures { IsFlushed self.old self.new (next_flight (desk_of self.old)) (λ past. flying_in (seen past (flown_next (desk_of self.old))).state)
            (durable_held (desk_of self.new)) result ((desk_of self.old).view.failed ≡ false)
            (IsNotFlushed (desk_of self.old).view.failed (D.count (device_of self.old)) (D.count (device_of self.new))) }
    {
        if self.desk.needs_checkpoint() {
            self.checkpoint()
        } else {
            self.flush_batch()
        }
    }

    /// Makes the first inputs that wait durable in the area in use, which can hold them, at most 64, and tells what they let
    /// the node release; nothing where none waits. Refused as 9 where it has failed, as 15, after which it has failed, and as 8.
    pub fn flush_batch(&mut self) -> Result<Landed, Refusal>
        requires plain { needs_checkpoint (desk_of self.old) ≡ false }
        ensures { IsFlushed self.old self.new (launched (desk_of self.old).view) (λ past. flying_in (launched (seen past (desk_of self.old))).state)
            (durable_held (desk_of self.new)) result ((desk_of self.old).view.failed ≡ false)
            (IsNotFlushed (desk_of self.old).view.failed (D.count (device_of self.old)) (D.count (device_of self.new))) }
    {
        match self.desk.launch() {
            Err(refusal) => Err(refusal),
            Ok(None) => Ok(Landed::new(self.alloc)),
            Ok(Some(batch)) => match settle(&mut self.desk, &mut self.journal, Work::Batch(batch)) {
                Ok(landed) => Ok(landed),
                Err(failures) => Err(Refusal::Device(failures)),
            },
        }
    }
}
