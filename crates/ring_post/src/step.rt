// What an inbox does next.
use ring_records::Request;

/// What an inbox does next about the message at hand.
#[derive(Clone, Copy, PartialEq, Eq)]
pub enum Step {
    /// It hears on: no message is at hand.
    Rest,
    /// It asks the node to take the message.
    Ask(Request),
    /// It tells the node of a credit first.
    Tell(Request),
    /// It waits for a checkpoint, which is to make room.
    AwaitRoom,
    /// It waits for the reply to its last ticket.
    Redeem,
    /// It leaves the message, since the node is full.
    Leave,
}
