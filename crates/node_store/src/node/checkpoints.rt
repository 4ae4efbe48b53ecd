// Checkpoints of a node.
ghost use Rattle.std.specs.Prelude.{◌≡◌, ◌+◌, None};
ghost use Rattle.ring_records.specs.Admission.{newest};
ghost use Rattle.ring_records.specs.Launching as launching;
ghost use Rattle.ring_records.specs.States.{flying_in};
ghost use Rattle.gated_journal.specs.Reading.{fresh_area};
ghost use Rattle.group_commit.specs.Desk.{known_all, seen};
ghost use Rattle.group_commit.specs.Launching.{launched_all, checkpoint_objection};

use crate::node::Node;
use crate::node::rounds::settle;
use disk_model::Device;
use gated_journal::Work;
use group_commit::Landed;
use ring_records::Refusal;

impl<D: Device> Node<D> {
    ghost use Rattle.node_store.specs.Flushed.{IsFlushed, IsNotWritten};
    ghost use Rattle.node_store.specs.Node.{desk_of, member_of, state_of, device_of};

    /// Makes a summary of all that the node accepted durable in place of what its journal holds, also where nothing waits,
    /// and tells what that lets the node release. Refused as 9 where it has failed, as 6 where its journal may write no
    /// other area, as 7 where the summary's snapshot is longer than the capacity, as 15, after which it has failed, and as
    /// 8. But for 15 nothing has changed then.
    pub fn checkpoint(&mut self) -> Result<Landed, Refusal>
        ensures { IsFlushed self.old self.new (launched_all (desk_of self.old)) (λ past. flying_in (launching.launched_all (member_of self.old).node (seen past (desk_of self.old)).state))
            (fresh_area newest ((state_of self.old).base.epoch + 1) (known_all (desk_of self.old))) result (checkpoint_objection (desk_of self.old) ≡ None)
            (IsNotWritten (checkpoint_objection (desk_of self.old)) (D.count (device_of self.old)) (D.count (device_of self.new))) }
    {
        match self.desk.launch_checkpoint() {
            Err(refusal) => Err(refusal),
            Ok(checkpoint) => match settle(
                &mut self.desk,
                &mut self.journal,
                Work::Checkpoint(checkpoint),
            ) {
                Ok(landed) => Ok(landed),
                Err(failures) => Err(Refusal::Device(failures)),
            },
        }
    }
}
