// What the program of a ring is told.
use crate::Event;
use disk_model::SystemFault;
use ring_records::NodeNo;

/// What is to be told of the ring.
#[derive(Clone, Copy)]
pub enum News {
    /// This node has failed, with what the system answered, where that is known.
    Failed(NodeNo, Option<SystemFault>),
    /// This has happened.
    Happened(Event),
    /// So many events were left out behind those that were told.
    LeftOut(u64),
    /// Time to look at the nodes: a second has passed, or something changed.
    Look,
    /// No node runs any more.
    Ended,
}
