//! What a stop leaves of a node, and what a node that was just opened shows.
ghost use Rattle.std.specs.Prelude.{ℕ, Bool, List};
ghost use Rattle.disk_model.specs.Disk.{MayLeave};
ghost use Rattle.ring_records.specs.Member.{Member};
ghost use Rattle.ring_records.specs.States.{NodeState, left_by};
ghost use Rattle.ring_records.specs.Lawful.{IsLawfulState};
ghost use Rattle.group_commit.specs.Desk.{new_desk};
ghost use Rattle.node_store.specs.Node.{desk_of, device_of};
ghost use Rattle.node_store.specs.State.{IsOpenedAs, MayBeLeft, reading_of};

use crate::Node;
use disk_model::Device;

/// Between two calls, whatever they were, a stop leaves of a node's device its durable inputs, or also those that fly.
/// `Node::flush` says the same of each of its moments, and `Node::recover` takes such an image for one of the two.
pub fn left_by_a_stop<D: Device>(node: &Node<D>)
    ensures { (image : List ℕ) → MayLeave (D.disk (device_of node.now)) image → MayBeLeft (desk_of node.now) image }
{}

/// A desk that is opened with what a stop left of a lawful node shows the state that the stop left.
pub fn shown_after_a_stop()
    ensures { (m : Member) (run : ℕ) (s : NodeState) (keep : Bool) → IsLawfulState m s → IsOpenedAs m run (left_by keep s) (new_desk m run (reading_of m.node (left_by keep s))) }
{}
