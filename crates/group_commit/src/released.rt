// What the durable inputs of a node let it release.
ghost use Rattle.std.specs.Prelude.{◌≡◌, ◌+◌, ◌-◌, ◌++◌, ◌≤◌, ◌<◌, ◌^◌, ℕ, [], None, drop, Option, IfOk, OnOk};
ghost use Rattle.std.specs.List.{cons_option};
ghost use Rattle.std.specs.Option.{option_map};
ghost use Rattle.ring_records.specs.declared.msg.Msg.{Msg};
ghost use Rattle.ring_records.specs.declared.packet.Packet.TheVariants.{Carry};
ghost use Rattle.ring_records.specs.declared.summary.Summary.{Summary};
ghost use Rattle.ring_records.specs.Known.{Objects, stepped};
ghost use Rattle.ring_records.specs.Release.{numbered};
ghost use Rattle.ring_records.specs.Snapshot.{IsSound};
ghost use Rattle.neighbour_link.specs.Outlink.{sent_count};
ghost use Rattle.node_core.specs.Brought.{brought};

use neighbour_link::Outlink;
use node_core::Effects;
use ring_records::{Input, Packet, Summary};
use std::alloc::{AllocError, Global};

/// What a node keeps of its durable inputs: the messages that the successor is not known to have taken, and how many
/// messages were taken.
#[derive(Drop)]
pub(crate) struct Released {
    pub(crate) link: Outlink,
    pub(crate) taken: u64,
}

impl Released {
    ghost use Rattle.group_commit.specs.Outbox.{Keeps, HasRoom};

    /// That of a node that knows this by its durable inputs. The caller sees that it is sound for a ring of `n`. The error is
    /// that of the allocator.
    pub(crate) fn restore(alloc: Global, n: u8, from: &Summary) -> Result<Released, AllocError>
        requires { IsSound n from.now }
        ensures { IfOk result (λ made. Keeps made from.now) }
    {
        let _ring = n;
        Ok(Released {
            link: Outlink::restore(alloc, from.sent, from.window.as_slice())?,
            taken: from.taken,
        })
    }

    /// Makes room for what so many inputs more let it release.
    pub(crate) fn reserve(&mut self, count: usize) -> Result<(), AllocError>
        ensures keeps { (s : Summary) → Keeps self.old s → Keeps self.new s }
        ensures room { OnOk result (HasRoom self.new count) }
    {
        self.link.reserve(count)
    }

    /// The messages that the successor is not known to have taken, as packets.
    pub(crate) fn window(&self, alloc: Global) -> Result<Vec<Packet>, AllocError>
        ensures { IfOk result (λ packets. packets.items ≡ numbered self.now.link.link.credited self.now.link.link.window) }
    {
        let messages = self.link.window();
        let first = self.link.sent() - messages.len() as u64;
        let mut packets = Vec::new(alloc);
        for (index, msg) in messages.iter().enumerate() {
            let no = first + index as u64;
            packets.push(Packet::Carry { no, msg: *msg })?;
        }
        Ok(packets)
    }

    /// Adds what the next durable input lets it release, for which there is room.
    pub(crate) fn add(&mut self, input: &Input, effects: &Effects)
        requires room { HasRoom self.old 1 }
        requires free { (me n : ℕ) × (s : Summary) × Keeps self.old s × Objects n s input.now None × (effects.now ≡ brought me s input.now) }
        ensures keeps { (me n : ℕ) (s : Summary) → Keeps self.old s → Objects n s input.now None → effects.now ≡ brought me s input.now
            → Keeps self.new (stepped me s input.now) }
        ensures room { (k : ℕ) → HasRoom self.old (k + 1) → HasRoom self.new k }
    {
        queue(&mut self.link, &effects.carry);
        match input {
            Input::Stand { .. } => {}
            Input::Retire { .. } => {}
            Input::Take { .. } => self.taken += 1,
            Input::Acked { upto } => credit(&mut self.link, *upto),
        }
    }
}

// Queues the message that the packet carries, if there is one.
fn queue(link: &mut Outlink, carry: &Option<Packet>)
    requires few { sent_count link.old.link + 1 < 2 ^ 64 }
    requires room { 1 ≤ link.old.room }
    ensures credited { link.new.link.credited ≡ link.old.link.credited }
    ensures window { (count : ℕ) (on : Option Msg) → carry.now ≡ option_map (Carry count) on → link.new.link.window ≡ link.old.link.window ++ cons_option on [] }
    ensures room { link.old.room ≤ link.new.room + 1 }
{
    if let Some(Packet::Carry { msg, .. }) = carry {
        if link.queue(*msg).is_err() {
            unreachable!();
        }
    }
}

// Takes a credit above the last and not above what was sent.
fn credit(link: &mut Outlink, upto: u64)
    requires above { link.old.link.credited < upto }
    requires sent { upto ≤ sent_count link.old.link }
    ensures credited { link.new.link.credited ≡ upto }
    ensures window { link.new.link.window ≡ drop (upto - link.old.link.credited) link.old.link.window }
    ensures room { link.old.room ≤ link.new.room }
{
    if link.credit(upto).is_err() {
        unreachable!();
    }
}
