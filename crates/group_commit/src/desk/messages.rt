//! What a desk was opened with, and which messages that and its inputs since sent.
ghost use Rattle.std.specs.Prelude.{ℕ, ◌≡◌, ◌++◌, ◌+◌, ◌^◌, ◌<◌, List, [], Option, None, drop, length, IfOk, OnOk};
ghost use Rattle.std.specs.List.{cons_option};
ghost use Rattle.std.specs.Option.{option_map};
ghost use Rattle.ring_records.specs.declared.input.Input.{Input};
ghost use Rattle.ring_records.specs.declared.msg.Msg.{Msg};
ghost use Rattle.ring_records.specs.declared.packet.Packet.TheVariants.{Carry};
ghost use Rattle.ring_records.specs.Emission.{sent};
ghost use Rattle.ring_records.specs.Known.{Objects, sends, stepped};
ghost use Rattle.ring_records.specs.Member.{member};
ghost use Rattle.ring_records.specs.Snapshot.{IsSound};
ghost use Rattle.group_commit.specs.Outbox.{AreFree};
ghost use Rattle.group_commit.specs.Past.{IsPast};

use crate::desk::Desk;
use node_core::FreeCore;
use ring_records::{Input, Msg, NodeNo, Packet, Summary};
use std::alloc::{AllocError, Global};

impl Desk {
    /// What it was opened with.
    pub fn opening(&self) -> &Summary
        ensures value { result.now ≡ self.now.opening }
        ensures sound { IsSound self.now.view.member.n self.now.opening }
        ensures few { result.now.taken + length self.now.view.state.inputs < 2 ^ 64 }
    {
        &self.base
    }

    /// The messages that its inputs sent to the successor, durable or not, oldest first: all but those that were credited
    /// when it was opened. It takes all its inputs since once more, of which none may be gone. The error is that of the
    /// allocator.
    pub fn messages(&self) -> Result<Vec<Msg>, AllocError>
        requires whole { self.now.gone ≡ 0 }
        ensures { IfOk result (λ messages. (past : List Input) → IsPast self.now.view.member self.now.opening past
            → messages.items ≡ drop self.now.opening.credit (sent self.now.view.member.node (past ++ self.now.view.state.inputs))) }
    {
        let alloc = self.inputs.allocator();
        messages_of(alloc, self.node, self.n, &self.base, self.inputs.whole())
    }
}

// The messages that these inputs sent, and before them those that the node knew as sent and not credited.
fn messages_of(
    alloc: Global,
    node: NodeNo,
    n: u8,
    from: &Summary,
    inputs: &[Input],
) -> Result<Vec<Msg>, AllocError>
    requires sound { IsSound n from.now }
    requires free { AreFree node n from.now inputs.now }
    ensures { IfOk result (λ messages. (capacity : ℕ) (past : List Input) → IsPast (member node n capacity) from.now past
        → messages.items ≡ drop from.now.credit (sent node (past ++ inputs.now))) }
{
    let mut core = FreeCore::restore(alloc, node, n, from)?;
    let mut messages = Vec::new(alloc);
    messages.extend_from_slice(from.window.as_slice())?;
    for i in 0..inputs.len() {
        send_next(&mut core, &mut messages, &inputs[i])?;
    }
    Ok(messages)
}

// Has the core accept the next input, and adds the message that this sends, if there is one.
fn send_next(core: &mut FreeCore, messages: &mut Vec<Msg>, input: &Input) -> Result<(), AllocError>
    requires { Objects core.old.size core.old.known input.now None }
    ensures steps { OnOk result (core.new ≡ record core.old { known = stepped core.old.me core.old.known input.now }) }
    ensures adds { OnOk result (messages.new.items ≡ messages.old.items ++ cons_option (sends core.old.me core.old.known input.now) []) }
{
    match core.apply(*input) {
        Ok(effects) => keep(messages, &effects.carry),
        Err(error) => Err(error),
    }
}

// Adds the message that the packet carries, if there is one.
fn keep(messages: &mut Vec<Msg>, carry: &Option<Packet>) -> Result<(), AllocError>
    ensures { OnOk result ((count : ℕ) (on : Option Msg) → carry.now ≡ option_map (Carry count) on → messages.new.items ≡ messages.old.items ++ cons_option on []) }
{
    if let Some(Packet::Carry { no: _, msg }) = carry {
        messages.push(*msg)?;
    }
    Ok(())
}
