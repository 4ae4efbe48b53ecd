// What happens at a node.
use ring_records::{Decision, GroupName, NodeNo, Term};

/// What has happened at a node.
#[derive(Clone, Copy)]
pub enum Event {
    /// A session was opened at this door, counted from 0.
    Opened(NodeNo, u32),
    /// It has ended.
    Ended(NodeNo, u32),
    /// The node gave up the terms of the group below this one.
    Retired(NodeNo, GroupName, Term),
    /// This leader became known to the node.
    Elected(NodeNo, Decision),
}
