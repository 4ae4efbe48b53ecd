// The events, none of which is refused.
ghost use Rattle.std.specs.Prelude.{◌≡◌, ◌<◌, ◌≤◌, ◌^◌, ◌⊎◌, Bool, true, false, not, None, Some, IfOk, IfErr, OnOk, length};
ghost use Rattle.ring_records.specs.Outside.{is_outside};
ghost use Rattle.ring_records.specs.Place.{before};
ghost use Rattle.ring_world.specs.Ring.{node_at, carried, is_earned, is_released};
ghost use Rattle.ring_world.specs.Stage.{state_of};
ghost use Rattle.ring_world.specs.Capacity.{all_fresh};
ghost use Rattle.ring_world.specs.Left.{IsLeft};
ghost use Rattle.ring_world.specs.CapacitySchedule.{IsSchedule};
ghost use Rattle.ring_world.specs.Step.{Steps, told, nothing_told, unknown, submitted, flushed, delivered_all, put, stepped, refusal_of};
ghost use Rattle.ring_world.specs.Worlds.{is_lasting};

use super::*;
use crate::event::Event;
use crate::outcome::Outcome;
use crate::world::Stage;
use ring_records::Refusal;

impl Working {
    /// Lets an event happen, and tells it: what that leads to, and what it brings. Refused as `World::step` says.
    #[tactic(auto, unfolding(crate::specs::Step::Steps))]
    pub fn step(self, event: Event) -> (Stage, Result<Outcome, Refusal>)
        ensures works { self.ring.failed ≡ false }
        ensures steps { IfOk result.1 (λ outcome. Steps self event (told outcome) (state_of result.0)) }
        ensures lawful { OnOk result.1 (IsSchedule all_fresh (state_of result.0).ring.size (state_of result.0).ring.capacity (state_of result.0).ring.told) }
        ensures accepted { OnOk result.1 (refusal_of self event ≡ None) }
        ensures refused { IfErr result.1 (λ refusal. (refusal ≡ Refusal.OutOfMemory) ⊎ ((refusal_of self event ≡ Some refusal) × (state_of result.0 ≡ self))) }
        ensures memory { IfErr result.1 (λ refusal. refusal ≡ Refusal.OutOfMemory → (refusal_of self event ≡ None) × IsLeft (is_lasting self event) self (state_of result.0)) }
    {
        let _ = &self.log;
        if let Some(refusal) = self.refusal(&event) {
            return (Stage::Working(self), Err(refusal));
        }
        match self.perform(event) {
            Ok((mut ring, outcome)) => {
                ring.tell();
                (Stage::Working(ring), Ok(outcome))
            }
            Err(stage) => (stage, Err(Refusal::OutOfMemory)),
        }
    }

    // Lets an event happen that nothing is objected to. Refused for memory, what is left: the ring as it was where a
    // node of one that is not eager is asked, and else what was told.
    #[tactic(auto, unfolding(crate::specs::Step::refusal_of, crate::specs::Step::objection_to, crate::specs::Step::unbegun, crate::specs::Step::stepped, crate::specs::Worlds::is_lasting))]
    fn perform(self, event: Event) -> Result<(Working, Outcome), Stage>
        requires free { refusal_of self event ≡ None }
        ensures step { IfOk result (λ r. (keeps_flying : Bool) × ((told r.1, r.0) ≡ stepped keeps_flying self event)) }
        ensures left { IfErr result (λ stage. IsLeft (is_lasting self event) self (state_of stage)) }
    {
        match event {
            Event::Submit(node, request) => self.submit(node, &request),
            Event::Flush(node) => self.flush(Flight::Batch, node),
            Event::Deliver { from, no } => self.deliver(from, no),
            Event::DeliverAll => self.deliver_all(),
            Event::Credit { from, upto } => self.credit(from, upto),
            Event::Crash(node) => self.crash(node),
            Event::Stop { node, call, tear } => self.stop(Flight::Batch, node, call, tear),
            Event::Checkpoint(node) => self.flush(Flight::Checkpoint, node),
            Event::StopCheckpoint { node, call, tear } => {
                self.stop(Flight::Checkpoint, node, call, tear)
            }
        }
    }

    #[tactic(auto, unfolding(crate::specs::Step::submitted))]
    fn submit(self, node: NodeNo, request: &Request) -> Result<(Working, Outcome), Stage>
        requires inside { node ≤ self.ring.size }
        requires of_ring { is_outside self.ring.size request.now ≡ false }
        requires released { is_released self.ring node request.now ≡ true }
        requires room { self.tickets < 2 ^ 60 }
        requires events { length self.ring.events < 2 ^ 60 }
        ensures step { IfOk result (λ r. (told r.1, r.0) ≡ submitted node request.now self) }
        ensures left { IfErr result (λ stage. IsLeft (not self.ring.eager) self (state_of stage)) }
    {
        let mut ring = self;
        let ticket = ring.log.tickets + 1;
        match ring.bring(Some(ticket), node, request) {
            Ok(replies) => {
                ring.log.tickets = ticket;
                let mut outcome = Outcome::nothing(ring.log.alloc);
                outcome.ticket = Some(ticket);
                outcome.replies = replies;
                Ok((ring, outcome))
            }
            Err(_) if ring.log.eager => Err(Stage::Failed(ring.fail())),
            Err(_) => Err(Stage::Working(ring)),
        }
    }

    #[tactic(auto, unfolding(crate::specs::Step::flushed))]
    fn flush(self, flight: Flight, node: NodeNo) -> Result<(Working, Outcome), Stage>
        requires inside { node ≤ self.ring.size }
        ensures step { IfOk result (λ r. (told r.1, r.0) ≡ flushed flight node self) }
        ensures left { IfErr result (λ stage. IsLeft false self (state_of stage)) }
    {
        let mut ring = self;
        let mut outcome = Outcome::nothing(ring.log.alloc);
        match ring.round(flight, node, &mut outcome.replies) {
            Ok(count) => {
                outcome.flushed = Some(count);
                Ok((ring, outcome))
            }
            Err(_) => Err(Stage::Failed(ring.fail())),
        }
    }

    fn deliver(self, from: NodeNo, no: u64) -> Result<(Working, Outcome), Stage>
        requires inside { from ≤ self.ring.size }
        requires there { unknown (carried self.ring from no) ≡ None }
        requires room { self.tickets < 2 ^ 60 }
        requires events { length self.ring.events < 2 ^ 60 }
        ensures step { IfOk result (λ r. (told r.1, r.0) ≡ put self (carried self.ring from no)) }
        ensures left { IfErr result (λ stage. IsLeft (not self.ring.eager) self (state_of stage)) }
    {
        match self.delivery(from, no) {
            Some(delivery) => self.submit(delivery.0, &delivery.1),
            None => unreachable!(),
        }
    }

    fn credit(self, from: NodeNo, upto: u64) -> Result<(Working, Outcome), Stage>
        requires inside { from ≤ self.ring.size }
        requires earned { is_earned self.ring from upto ≡ true }
        requires room { self.tickets < 2 ^ 60 }
        requires events { length self.ring.events < 2 ^ 60 }
        ensures step { IfOk result (λ r. (told r.1, r.0) ≡ submitted (before self.ring.size from) (Request.Acked upto) self) }
        ensures left { IfErr result (λ stage. IsLeft (not self.ring.eager) self (state_of stage)) }
    {
        let to = from.predecessor(self.log.size);
        self.submit(to, &Request::Acked(upto))
    }

    #[tactic(auto, unfolding(crate::specs::Step::delivered_all))]
    fn deliver_all(self) -> Result<(Working, Outcome), Stage>
        ensures step { IfOk result (λ r. (told r.1, r.0) ≡ delivered_all self) }
        ensures left { IfErr result (λ stage. IsLeft false self (state_of stage)) }
    {
        let mut ring = self;
        match ring.sweep() {
            Ok(count) => {
                let mut outcome = Outcome::nothing(ring.log.alloc);
                outcome.delivered = Some(count);
                Ok((ring, outcome))
            }
            Err(_) => Err(Stage::Failed(ring.fail())),
        }
    }

    // The node was opened again, and lost these tickets.
    pub(super) fn reopened(&self, node: NodeNo, lost: Vec<u64>) -> Outcome
        requires inside { node ≤ self.now.ring.size }
        ensures { told result ≡ record nothing_told { lost = lost.items; up = Some (length (node_at self.now.ring node).inputs) } }
    {
        let mut outcome = Outcome::nothing(self.log.alloc);
        outcome.lost = lost;
        outcome.up = Some(self.count(node));
        outcome
    }
}
