// What goes from node to node.
ghost use Rattle.std.specs.Prelude.{◌≡◌, ◌≤◌};

use crate::route::receiver_of;
use commit_hub::{Begun, NodeLedger};
use group_commit::{Landed, Stub};
use ring_records::{NodeNo, Packet, Refusal, Reply, Request};
use std::marker::Model;

/// A node's place in a ring of so many nodes, 16 at most.
#[derive(Clone, Copy, PartialEq, Eq)]
pub struct RingPlace {
    pub node: NodeNo,
    pub nodes: u8,
    ghost inside: { (node ≤ nodes) × (nodes ≤ 16) },
}

/// A packet that a node released, with the place of its sender. It is made of what landed, of a window or of a released reply,
/// and of nothing else.
#[derive(Drop)]
pub struct Letter {
    sender: RingPlace,
    packet: Packet,
}

impl Model for Letter {
    ghost use Rattle.ring_post.specs.Letters.{Sent, sent_by};

    ghost Value = { Sent };

    ghost view = { λ letter. sent_by letter.sender letter.packet };
}

impl Letter {
    ghost use Rattle.std.specs.Prelude.{◌↔◌, ℕ, Some, slice_get};
    ghost use Rattle.std.specs.Option.{option_map};
    ghost use Rattle.ring_records.specs.declared.packet.Packet.TheVariants.{Credit};
    ghost use Rattle.commit_hub.specs.Holders.{begun_by};
    ghost use Rattle.commit_hub.specs.Told.{IsWindow};
    ghost use Rattle.ring_post.specs.Letters.{goes_to, sent_by, take_in};

    /// One with the packet of this index of those that landed at the sender.
    pub fn of_landed(sender: RingPlace, landed: &Landed, index: usize) -> Option<Letter>
        ensures { result ≡ option_map (sent_by sender) (slice_get landed.now.packets.items index) }
    {
        match landed.packets.get(index) {
            Some(packet) => Some(Letter {
                sender,
                packet: *packet,
            }),
            None => None,
        }
    }

    /// One with the packet of this index of a window of the sender, by the inputs of the token that came with it.
    pub fn of_window<A: NodeLedger>(
        sender: RingPlace,
        window: &[Packet],
        _begun: &Begun<A>,
        index: usize,
    ) -> Option<Letter>
        requires window { IsWindow A.member A.opening (begun_by _begun.now) window.now }
        ensures { result ≡ option_map (sent_by sender) (slice_get window.now index) }
    {
        match window.get(index) {
            Some(packet) => Some(Letter {
                sender,
                packet: *packet,
            }),
            None => None,
        }
    }

    /// A credit of the messages that are taken, where the reply refuses a message that was taken before; none of another reply.
    pub fn of_stub(sender: RingPlace, stub: &Stub) -> Option<Letter>
        ensures { (taken : ℕ) → (result ≡ Some (sent_by sender (Credit taken))) ↔ (stub.now.answer.reply ≡ Reply.Refused (Refusal.Old taken)) }
    {
        match stub.reply() {
            Reply::Refused(Refusal::Old(taken)) => Some(Letter {
                sender,
                packet: Packet::Credit { upto: taken },
            }),
            _ => None,
        }
    }

    /// The node that it goes to: the sender's successor for a message, its predecessor for a credit.
    pub fn to(&self) -> NodeNo
        ensures { result ≡ goes_to self.now }
    {
        receiver_of(self.sender.node, self.sender.nodes, &self.packet)
    }

    /// The packet.
    pub fn packet(&self) -> Packet
        ensures { result ≡ self.now.packet }
    {
        self.packet
    }

    /// What the node is asked for it: to take the message. A credit asks nothing by itself.
    pub fn brings(&self) -> Option<Request>
        ensures { result ≡ take_in self.now.packet }
    {
        match self.packet {
            Packet::Carry { no, msg } => Some(Request::Take(no, msg)),
            Packet::Credit { .. } => None,
        }
    }
}
