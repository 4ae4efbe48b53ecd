//! What the program and the threads of a ring share.
use crate::post::Post;
use crate::run_fault::RunFault;
use crate::start_latch::StartLatch;
use crate::watch::Watch;
use ring_news::place;
use ring_records::NodeNo;
use ring_watch::{Reception, StatusPort, Tally};
use std::alloc::Global;
use std::sync::{Arc, Wait};
use std::thread::Threads;
use std::time::Clock;

/// The letterboxes, what the threads have the program tell, what those of each node count, where they wait for each other at
/// the start, and the port at which an operator is told of the ring, if there is one.
#[derive(Drop)]
pub(crate) struct Shared {
    pub(crate) post: Post,
    pub(crate) watch: Watch,
    pub(crate) tallies: Vec<Tally>,
    pub(crate) latch: StartLatch,
    pub(crate) status: Option<Arc<StatusPort>>,
}

impl Shared {
    /// What the threads of this node count.
    pub(crate) fn tally(&self, node: NodeNo) -> Option<&Tally> {
        self.tallies.get(place(node))
    }

    /// Where the clerks of the nodes are asked, if they are.
    pub(crate) fn reception(&self) -> Option<&Reception> {
        match &self.status {
            Some(status) => Some(status.reception()),
            None => None,
        }
    }

    /// Tells of the ring at its port, if there is one, in threads of its own.
    pub(crate) fn open_status<R: Threads + Wait + Clock + Send + Copy + 'static>(
        &self,
        rt: &R,
        alloc: Global,
    ) -> Result<(), RunFault> {
        match &self.status {
            Some(status) => match StatusPort::open(status, rt, alloc)? {
                true => Ok(()),
                false => Err(RunFault::Thread),
            },
            None => Ok(()),
        }
    }

    /// Tells nothing more there.
    pub(crate) fn end_status<R: Wait>(&self, rt: &R) {
        if let Some(status) = &self.status {
            status.end(rt);
        }
    }
}
