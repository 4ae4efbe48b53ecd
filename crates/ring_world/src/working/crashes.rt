// Nodes that lose their memory.
ghost use Rattle.std.specs.Prelude.{◌≡◌, ◌≤◌, ◌<◌, Bool, true, false, IfOk, IfErr, vec_len, vec_capacity};
ghost use Rattle.std.specs.List.{filter_map, insert};
ghost use Rattle.ring_records.specs.Member.{member};
ghost use Rattle.ring_node.specs.Held.{MayBegin, MayStop};
ghost use Rattle.ring_node.specs.Node.{left, is_credited, reopened as reopened_in};
ghost use Rattle.ring_node.specs.Open.{serial_of};
ghost use Rattle.ring_world.specs.Ring as rings;
ghost use Rattle.ring_world.specs.Ring.{node_at, is_launched};
ghost use Rattle.ring_world.specs.Stage.{state_of};
ghost use Rattle.ring_world.specs.Left.{IsLeft};
ghost use Rattle.ring_world.specs.Step.{told, crashed, reopened, stopped};

use super::*;
use crate::outcome::Outcome;
use crate::world::Stage;
use disk_model::Tear;

impl Working {
    /// The node loses its memory, and is opened again from its device.
    pub fn crash(self, node: NodeNo) -> Result<(Working, Outcome), Stage>
        requires inside { node ≤ self.ring.size }
        ensures step { IfOk result (λ r. (told r.1, r.0) ≡ crashed node self) }
        ensures left { IfErr result (λ stage. IsLeft false self (state_of stage)) }
    {
        let Working { mut log, mut nodes } = self;
        let at = node.number() as usize - 1;
        if let Err(_) = log.events.reserve(1) {
            return Err(Stage::Failed(ended(log, nodes)));
        }
        match nodes.remove(at).crash() {
            Ok((again, lost)) => {
                put_back(&mut nodes, at, again);
                let deed = Deed::Crash {
                    keeps_flying: false,
                };
                log.events.push_reserved(Happened::new(node, deed));
                let ring = Working { log, nodes };
                let outcome = ring.reopened(node, lost);
                Ok((ring, outcome))
            }
            Err(_) => Err(Stage::Failed(ended(log, nodes))),
        }
    }

    /// The node is stopped at a device call while this flies, 1 to 4 of a batch and 1 to 6 of a checkpoint, its device is
    /// left by the tear, and it is opened again. Nothing is objected to it. Where nothing is launched the node is crashed.
    #[tactic(auto, unfolding(crate::specs::Step::stopped))]
    pub fn stop(
        self,
        flight: Flight,
        node: NodeNo,
        call: u64,
        tear: Tear,
    ) -> Result<(Working, Outcome), Stage>
        requires inside { node ≤ self.ring.size }
        requires free { MayBegin flight (member node self.ring.size self.ring.capacity) (node_at self.ring node) }
        ensures step { IfOk result (λ r. (keeps_flying : Bool) × ((told r.1, r.0) ≡ stopped flight keeps_flying node self)) }
        ensures left { IfErr result (λ stage. IsLeft false self (state_of stage)) }
    {
        if flight == Flight::Batch && !self.waits(node) {
            return self.crash(node);
        }
        self.stop_within(flight, node, call, tear)
    }

    fn stop_within(
        self,
        flight: Flight,
        node: NodeNo,
        call: u64,
        tear: Tear,
    ) -> Result<(Working, Outcome), Stage>
        requires inside { node ≤ self.ring.size }
        requires free { MayBegin flight (member node self.ring.size self.ring.capacity) (node_at self.ring node) }
        requires launched { is_launched flight (node_at self.ring node) ≡ true }
        ensures step { IfOk result (λ r. (keeps_flying : Bool) × ((told r.1, r.0) ≡ reopened node (rings.stopped flight keeps_flying node self.ring) self)) }
        ensures left { IfErr result (λ stage. IsLeft false self (state_of stage)) }
    {
        let Working { mut log, mut nodes } = self;
        let at = node.number() as usize - 1;
        if let Err(_) = log.events.reserve(2) {
            return Err(Stage::Failed(ended(log, nodes)));
        }
        match stopped(nodes.remove(at), flight, call, tear) {
            Ok((again, keeps_flying, lost)) => {
                put_back(&mut nodes, at, again);
                log.events
                    .push_reserved(Happened::new(node, launch(flight)));
                let deed = Deed::Crash { keeps_flying };
                log.events.push_reserved(Happened::new(node, deed));
                let ring = Working { log, nodes };
                let outcome = ring.reopened(node, lost);
                Ok((ring, outcome))
            }
            Err(_) => Err(Stage::Failed(ended(log, nodes))),
        }
    }
}

// Stops a node while this flies.
fn stopped(
    node: RingNode,
    flight: Flight,
    call: u64,
    tear: Tear,
) -> Result<(RingNode, bool, Vec<u64>), AllocError>
    requires credited { is_credited node ≡ true }
    requires free { MayStop flight node }
    ensures next { IfOk result (λ r. r.0 ≡ reopened_in (left flight r.1 node) node) }
    ensures lost { IfOk result (λ r. r.2.items ≡ filter_map serial_of node.held) }
{
    match flight {
        Flight::Batch => node.stop(call, tear),
        Flight::Checkpoint => node.stop_checkpoint(call, tear),
    }
}

// Puts a node at its place, for which there is room.
fn put_back(nodes: &mut Vec<RingNode>, at: usize, node: RingNode)
    requires within { at ≤ vec_len nodes.old }
    requires room { vec_len nodes.old < vec_capacity nodes.old }
    ensures { nodes.new.items ≡ insert nodes.old.items at node }
{
    match nodes.insert(at, node) {
        Ok(()) => {}
        Err(_) => unreachable!(),
    }
}
