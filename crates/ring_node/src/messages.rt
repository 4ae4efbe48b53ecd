// The messages that packets carry.
ghost use Rattle.std.specs.Prelude.{◌≡◌, ◌+◌, ◌++◌, ◌≤◌, [], length, vec_len, vec_capacity};
ghost use Rattle.std.specs.List.{cons_option};
ghost use Rattle.ring_node.specs.Messages.{message_in, carried_in};

use ring_records::{Msg, Packet};

/// Adds the messages that the packets carry, for which there is room.
pub(crate) fn add_carried(messages: &mut Vec<Msg>, packets: &[Packet])
    requires room { vec_len messages.old + length (carried_in packets.now) ≤ vec_capacity messages.old }
    ensures { messages.new.items ≡ messages.old.items ++ carried_in packets.now }
{
    for packet in packets {
        add(messages, packet);
    }
}

// Adds the message that the packet carries, if it does.
#[tactic(auto, unfolding(crate::specs::Messages::message_in))]
fn add(messages: &mut Vec<Msg>, packet: &Packet)
    requires room { vec_len messages.old + length (cons_option (message_in packet.now) []) ≤ vec_capacity messages.old }
    ensures items { messages.new.items ≡ messages.old.items ++ cons_option (message_in packet.now) [] }
    ensures len { vec_len messages.new ≡ vec_len messages.old + length (cons_option (message_in packet.now) []) }
    ensures capacity { vec_capacity messages.new ≡ vec_capacity messages.old }
{
    if let Packet::Carry { no: _, msg } = packet {
        messages.push_reserved(*msg);
    }
}
