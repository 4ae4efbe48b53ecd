// A service over one node.
ghost use Rattle.std.specs.Prelude.{◌≡◌, ◌⊎◌, ◌+◌, ◌≤◌, ◌<◌, ℕ, length, true, false, not, is_some, nat_lt, Some, None, IfErr, OnOk, OnErr};
ghost use Rattle.std.specs.Option.{ForNone, ForSome};
ghost use Rattle.gated_journal.specs.Unread.{IsFault};
ghost use Rattle.group_commit.specs.Desk.{ended, IsHere};
ghost use Rattle.group_commit.specs.DeskCalls.{HasFlown};
ghost use Rattle.group_commit.specs.Ticket.{shown};
ghost use Rattle.node_store.specs.Node as nodes;
ghost use Rattle.node_store.specs.Flying.{settled};
ghost use Rattle.ring_records.specs.Answer.{Answered};
ghost use Rattle.ring_records.specs.States.{is_idle, opened};
ghost use Rattle.ring_records.specs.Outside.{is_outside};

use crate::Service;
use crate::command::Question;
use disk_model::Device;
use group_commit::Ticket;
use node_store::Node;
use ring_records::{Refusal, Reply, Request};
use std::mem::replace;

/// A service over one node, which flushes it until nothing waits before it answers. Refused as 6 and as 8, the node is
/// as it was. Where a flush is refused, as 15 or as 8, the input stays accepted, its ticket is kept, and each question
/// from then on is refused as 9. It is not let go: `into_parts` ends it.
pub struct SoloService<D: Device> {
    node: Node<D>,
    unanswered: Option<Ticket>,
    ghost durable: { ForNone unanswered (length (nodes.state_of node).inputs ≡ (nodes.state_of node).durable) },
    ghost idle: { ForNone unanswered (is_idle (nodes.state_of node) ≡ true) },
    ghost open: { ForNone unanswered (((nodes.desk_of node).view.closed ≡ false) × ((nodes.desk_of node).view.failed ≡ false)) },
    ghost held: { ForSome unanswered (λ ticket. ∥ ((kept : Answered) × IsHere (nodes.desk_of node).view (shown ticket) kept) ∥₁) },
}

impl<D: Device> SoloService<D> {
    ghost use Rattle.sessions.specs.Solo.{has_failed, node_of, SoloAnswers};

    /// A service over a node that takes requests and whose inputs are all durable, as one that was just created or
    /// recovered.
    pub fn new(node: Node<D>) -> SoloService<D>
        requires open { ((nodes.desk_of node).view.closed ≡ false) × ((nodes.desk_of node).view.failed ≡ false) }
        requires durable { nodes.state_of node ≡ opened (nodes.state_of node).base (nodes.state_of node).inputs }
        ensures node { node_of result ≡ node }
        ensures works { has_failed result ≡ false }
    {
        let unanswered = None;
        SoloService { node, unanswered }
    }

    /// Ends it, and gives the node and the ticket of the question whose flush was refused, if one was. That is open
    /// there, and so ends by the node's `forfeit`.
    pub fn into_parts(self) -> (Node<D>, Option<Ticket>)
        ensures node { result.0 ≡ node_of self }
        ensures ticket { is_some result.1 ≡ has_failed self }
        ensures open { ForSome result.1 (λ ticket. ∥ ((kept : Answered) × IsHere (nodes.desk_of result.0).view (shown ticket) kept) ∥₁) }
    {
        let SoloService { node, unanswered } = self;
        (node, unanswered)
    }

    fn answer(&mut self, question: Request) -> Result<Reply, Refusal>
        requires { (n : ℕ) → is_outside n question ≡ false }
        ensures { SoloAnswers D.count self.old question result self.new }
    {
        if self.unanswered.is_some() {
            return Err(Refusal::Failed);
        }
        let ticket = match self.node.submit(question) {
            Ok(ticket) => ticket,
            Err(refusal) => return Err(refusal),
        };
        match settle(&mut self.node) {
            Ok(()) => Ok(release(&mut self.node, ticket)),
            Err(refusal) => {
                match replace(&mut self.unanswered, Some(ticket)) {
                    None => {}
                    Some(_) => unreachable!(),
                }
                Err(refusal)
            }
        }
    }
}

impl<D: Device> Service for SoloService<D> {
    ghost use Rattle.sessions.specs.Solo.{SoloAnswers};

    ghost answers = { SoloAnswers D.count };

    fn ask(&mut self, question: Question) -> Result<Reply, Refusal> {
        self.answer(question.request())
    }
}

fn waits<D: Device>(node: &Node<D>) -> bool
    ensures { result ≡ nat_lt (nodes.state_of node.now).durable (length (nodes.state_of node.now).inputs) }
{
    node.desk().waits()
}

// Makes what waits durable, which is one input at most.
fn settle<D: Device>(node: &mut Node<D>) -> Result<(), Refusal>
    requires one { length (nodes.state_of node.old).inputs ≤ (nodes.state_of node.old).durable + 1 }
    requires durable { (nodes.state_of node.old).durable ≤ length (nodes.state_of node.old).inputs }
    requires idle { is_idle (nodes.state_of node.old) ≡ true }
    requires works { (nodes.desk_of node.old).view.failed ≡ false }
    ensures next { OnOk result (nodes.desk_of node.new ≡ settled (nodes.desk_of node.old)) }
    ensures stays { HasFlown (nodes.desk_of node.old) (nodes.desk_of node.new) }
    ensures inputs { OnErr result ((nodes.state_of node.new).inputs ≡ (nodes.state_of node.old).inputs) }
    ensures cause { IfErr result (λ why. IsFault (D.count (nodes.device_of node.old)) (D.count (nodes.device_of node.new)) why ⊎ (why ≡ Refusal.OutOfMemory)) }
{
    if !waits(node) {
        return Ok(());
    }
    match node.flush() {
        Ok(landed) => {
            drop(landed);
            Ok(())
        }
        Err(refusal) => Err(refusal),
    }
}

// The reply that is kept for the ticket, which rests on durable inputs alone.
fn release<D: Device>(node: &mut Node<D>, ticket: Ticket) -> Reply
    requires here { (kept : Answered) × IsHere (nodes.desk_of node.old).view (shown ticket) kept × (kept.answer.number ≤ (nodes.desk_of node.old).opening.inputs + (nodes.state_of node.old).durable) }
    ensures reply { (kept : Answered) → IsHere (nodes.desk_of node.old).view (shown ticket) kept → result ≡ kept.answer.reply }
    ensures next { nodes.desk_of node.new ≡ record (nodes.desk_of node.old) { view = ended (shown ticket).own (nodes.desk_of node.old).view } }
{
    match node.redeem(ticket) {
        Ok((reply, _)) => reply,
        Err(_) => unreachable!(),
    }
}
