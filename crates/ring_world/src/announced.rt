// A leader that a reply named.
use ring_records::{Candidate, Key, NodeNo};

/// A leader that a released reply named.
#[derive(Clone, Copy, PartialEq, Eq)]
pub struct Announced {
    /// The node that gave the reply.
    pub node: NodeNo,
    /// The key that the reply is about.
    pub key: Key,
    /// The leader for the key.
    pub leader: Candidate,
}
