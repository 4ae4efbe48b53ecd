//! Whether a desk's history gives a reply that was released.
ghost use Rattle.std.specs.Prelude.{◌≡◌, ◌+◌, ◌≤◌, Decides, List, length, true, false, Option, None, MatchOption, IfOk, IfErr};
ghost use Rattle.ring_records.specs.declared.input.Input.{Input};
ghost use Rattle.ring_records.specs.declared.summary.Summary.{Summary};
ghost use Rattle.ring_records.specs.Known.{Objects, after};
ghost use Rattle.ring_records.specs.Snapshot.{IsSound};
ghost use Rattle.group_commit.specs.Outbox.{AreFree};
ghost use Rattle.group_commit.specs.Vouch.{Accepts, IsGiven, IsInput, RepliesFull, refused_or_full};

use crate::desk::Desk;
use crate::judge::{acceptance, who_reply};
use crate::ticket::Stub;
use node_core::FreeCore;
use ring_records::{Input, NodeNo, Refusal, Reply, Request, Summary};
use std::alloc::{AllocError, Global};

impl Desk {
    ghost use Rattle.group_commit.specs.Desk.{seen};
    ghost use Rattle.group_commit.specs.Past.{IsPast};
    ghost use Rattle.group_commit.specs.Vouch.{IsVouched};

    /// Whether its history gives the stub's reply to the stub's request at the stub's number k, and k inputs are
    /// durable. Where the summary of its opening, with the inputs that it let go of, is of more than k inputs, or of k and
    /// the reply accepts an input, it does not know. Refused as 8. No other call looks back: this one takes the inputs
    /// that it kept up to input k again, in k log k steps.
    pub fn vouch(&self, stub: &Stub) -> Result<bool, Refusal>
        ensures yes { IfOk result (λ b. b ≡ true → (past : List Input) → IsPast self.now.view.member self.now.opening past
            → IsVouched self.now.view.member (self.now.opening.inputs + self.now.gone) (seen past self.now).state stub.now) }
        ensures no { IfOk result (λ b. b ≡ false → (past : List Input) → IsPast self.now.view.member self.now.opening past
            → IsVouched self.now.view.member (self.now.opening.inputs + self.now.gone) (seen past self.now).state stub.now → ⊥) }
        ensures refusal { IfErr result (λ e. e ≡ Refusal.OutOfMemory) }
    {
        let opened = self.base.inputs;
        let gone = self.inputs.gone;
        if stub.number < opened + gone || stub.number - opened > self.durable {
            return Ok(false);
        }
        let since = stub.number - opened;
        if let Some(input) = accepted(&stub.question, &stub.reply) {
            return Ok(is_input(&self.inputs.kept, since - gone, &input));
        }
        let alloc = self.inputs.allocator();
        let before = self.inputs.between(gone, since);
        match core_of(alloc, self.node, self.n, self.start(), before) {
            Ok(core) => Ok(is_given(&reply_of(&core, &stub.question), &stub.reply)),
            Err(_) => Err(Refusal::OutOfMemory),
        }
    }
}

// What a node with no room replies, which knows what the core knows.
fn reply_of(core: &FreeCore, question: &Request) -> Reply
    ensures { RepliesFull core.now question.now result }
{
    match *question {
        Request::Stand(key, bid) => refused(core, &Input::Stand { key, bid }),
        Request::Take(no, msg) => refused(core, &Input::Take { no, msg }),
        Request::Acked(upto) => refused(core, &Input::Acked { upto }),
        Request::Retire(group, floor) => refused(core, &Input::Retire { group, floor }),
        Request::Who(key) => who_reply(core.who(&key)),
        Request::Latest(group) => Reply::Latest(core.latest(&group)),
    }
}

// Whether this was given by a node that had no room, where another replies so: a Limit may stand for a Full.
fn is_given(full: &Reply, reply: &Reply) -> bool
    ensures { Decides result (IsGiven full.now reply.now) }
{
    if reply == full {
        return true;
    }
    is_limit(reply) && is_full(full)
}

fn is_limit(reply: &Reply) -> bool
    ensures { Decides result (reply.now ≡ Reply.Refused Refusal.Limit) }
{
    matches!(reply, Reply::Refused(Refusal::Limit))
}

fn is_full(reply: &Reply) -> bool
    ensures { Decides result (reply.now ≡ Reply.Refused Refusal.Full) }
{
    matches!(reply, Reply::Refused(Refusal::Full))
}

// Why it refuses the input: where nothing is known against it, for want of room.
fn refused(core: &FreeCore, input: &Input) -> Reply
    ensures { (o : Option Refusal) × Objects core.now.size core.now.known input.now o × (result ≡ refused_or_full o) }
{
    match core.objection(input) {
        Some(refusal) => Reply::Refused(refusal),
        None => Reply::Refused(Refusal::Full),
    }
}

// Whether this is input `number` of these, counted from 1.
fn is_input(inputs: &[Input], number: u64, input: &Input) -> bool
    requires { number ≤ length inputs.now }
    ensures yes { result ≡ true → IsInput inputs.now number input.now }
    ensures no { result ≡ false → IsInput inputs.now number input.now → ⊥ }
{
    number > 0 && inputs[number as usize - 1] == *input
}

// The input of the request, where the reply accepts it.
fn accepted(question: &Request, reply: &Reply) -> Option<Input>
    ensures { MatchOption result ((x : Input) → Accepts question.now reply.now x → ⊥) (λ x. Accepts question.now reply.now x) }
{
    match question.input() {
        Some(input) if *reply == acceptance(&input) => Some(input),
        _ => None,
    }
}

// The core of a node that knew this and accepted these inputs, whatever room it had.
pub(super) fn core_of(
    alloc: Global,
    node: NodeNo,
    n: u8,
    from: &Summary,
    inputs: &[Input],
) -> Result<FreeCore, AllocError>
    requires sound { IsSound n from.now }
    requires free { AreFree node n from.now inputs.now }
    ensures { IfOk result (λ core. core ≡ record { me = node; size = n; known = after node from.now inputs.now }) }
{
    let mut core = FreeCore::restore(alloc, node, n, from)?;
    for i in 0..inputs.len() {
        match core.apply(inputs[i]) {
            Ok(_effects) => {}
            Err(error) => return Err(error),
        }
    }
    Ok(core)
}
