// What may happen in a ring.
use disk_model::Tear;
use ring_records::{NodeNo, Request};

/// An event of a ring.
#[derive(Clone, Copy, PartialEq, Eq)]
pub enum Event {
    /// A client, or a neighbour whose packet arrives, asks a node.
    Submit(NodeNo, Request),
    /// A node makes the first inputs that wait durable, at most 64, and releases what they let it release.
    Flush(NodeNo),
    /// Message `no`, counted from 0, of the link from node `from` arrives at its successor.
    Deliver { from: NodeNo, no: u64 },
    /// What waits on the links arrives: of the nodes whose successor's next message may be released, the lowest one's
    /// first, again and again, until one is refused, and at most 10,000 times.
    DeliverAll,
    /// The credit of node `from`, that it has taken `upto` messages, arrives at its predecessor.
    Credit { from: NodeNo, upto: u64 },
    /// A node loses its memory, and is opened again from its device.
    Crash(NodeNo),
    /// A node is stopped at a device call of a flush, 1 to 4, its device is left by the tear, and it is opened again.
    /// Where nothing waits, as `Crash`.
    Stop { node: NodeNo, call: u64, tear: Tear },
    /// A node makes a summary of all that it accepted durable in place of what its journal holds, and releases what that
    /// lets it release.
    Checkpoint(NodeNo),
    /// A node is stopped at a device call of a checkpoint, 1 to 6, its device is left by the tear, and it is opened again.
    StopCheckpoint { node: NodeNo, call: u64, tear: Tear },
}
