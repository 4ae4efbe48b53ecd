// What plays the rows of a file.
use crate::play::played;
use crate::{node, session};
use std::alloc::{AllocError, Global};

/// What the rows of a file ask of what is in memory.
#[derive(Clone, Copy)]
pub enum Kind {
    /// Durable nodes, call by call.
    Node,
    /// Sessions over a node.
    Session,
}

impl Kind {
    /// The kind of this word.
    pub fn named(word: &str) -> Option<Kind> {
        match word {
            "node" => Some(Kind::Node),
            "session" => Some(Kind::Session),
            _ => None,
        }
    }

    /// The rows, with what their lines print now.
    pub fn played(self, alloc: Global, rows: &[u8]) -> Result<Vec<u8>, AllocError> {
        match self {
            Kind::Node => played::<node::Row>(alloc, rows),
            Kind::Session => played::<session::Row>(alloc, rows),
        }
    }
}
