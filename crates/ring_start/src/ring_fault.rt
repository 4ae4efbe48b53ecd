//! Why a ring is not opened.
use crate::log::Log;
use crate::unopened::Unopened;
use folder_plan::Identity;
use ring_records::NodeNo;
use std::alloc::AllocError;
use std::io;
use std::io::Write;
use std::time::Clock;
use thiserror::Error;

/// Why a ring is not opened, displayed without the program's name.
#[derive(Clone, Copy, Debug, Error)]
pub enum RingFault {
    /// A node was not opened.
    #[error("node {0}: {1}")]
    Node(NodeNo, Unopened),
    /// The ring of the folder has this identity, and not the one that is asked for.
    #[error("the ring is {0}")]
    OtherRing(Identity),
    /// The ring of the folder, or the folder, has no identity, and one is asked for.
    #[error("the ring has no identity")]
    NoIdentity,
    /// The histories of two nodes are not of one time.
    #[error("nodes {0} and {1} do not fit")]
    Apart(NodeNo, NodeNo),
    /// The system lets a file have so many bytes, and that of a node takes so many.
    #[error("a file may have {0} bytes, and a node's takes {1}")]
    FileLimit(u64, u64),
    /// The system lets the process have so many descriptors, and the ring takes so many.
    #[error("{0} descriptors may be had, and the ring takes {1}")]
    Descriptors(u64, u64),
    /// A line was not printed.
    #[error("output cannot be written")]
    Output,
    /// A growth was refused.
    #[error("out of memory")]
    Memory(#[from(alloc)] AllocError),
}

impl RingFault {
    /// A line of what the system answered, where a node of this folder was not opened for that.
    pub fn print_answer<C: Clock, E: Write>(
        &self,
        log: &mut Log<'_, C, E>,
        dir: &str,
    ) -> io::Result<()> {
        match self {
            RingFault::Node(node, why) => why.print(log, dir, *node),
            _ => Ok(()),
        }
    }
}
