// Where a packet goes, and which messages are missing.
ghost use Rattle.std.specs.Prelude.{◌≡◌, ◌≤◌};
ghost use Rattle.ring_post.specs.Routes.{is_missing, receiver_of};

use ring_records::{NodeNo, Packet};

/// The node that a packet of this node goes to, in a ring of so many: a message to the successor, a credit to the predecessor.
pub fn receiver_of(node: NodeNo, nodes: u8, packet: &Packet) -> NodeNo
    requires inside { node ≤ nodes }
    requires limit { nodes ≤ 16 }
    ensures { result ≡ receiver_of nodes node packet.now }
{
    match packet {
        Packet::Carry { .. } => node.successor(nodes),
        Packet::Credit { .. } => node.predecessor(nodes),
    }
}

/// Whether a packet of a window is a message that a successor which has so many lacks.
pub fn is_missing(packet: &Packet, heard: u64) -> bool
    ensures { result ≡ is_missing packet.now heard }
{
    match packet {
        Packet::Carry { no, .. } => *no >= heard,
        Packet::Credit { .. } => false,
    }
}
