//! Where the threads of a ring wait until all of them are there.
use crate::run_fault::RunFault;
use ring_news::{Shortage, Starting};
use std::alloc::AllocError;
use std::sync::{Condvar, Mutex, Wait};

impl From<Shortage> for RunFault {
    fn from(shortage: Shortage) -> RunFault {
        match shortage {
            Shortage::Thread => RunFault::Thread,
            Shortage::Memory => RunFault::Memory(AllocError),
        }
    }
}

/// Each node tells once that its threads are there, or why they are not; then all are let go together, to serve or to
/// end. So no door waits for a client where another node cannot start, and a ring serves with all its doors or not at
/// all.
#[derive(Drop)]
pub(crate) struct StartLatch {
    stage: Mutex<Starting>,
    told: Condvar,
    opened: Condvar,
}

impl StartLatch {
    /// Of so many nodes that have told nothing yet.
    pub(crate) fn new(nodes: usize) -> StartLatch {
        StartLatch {
            stage: Mutex::new(Starting::new(nodes)),
            told: Condvar::new(),
            opened: Condvar::new(),
        }
    }

    /// A node is ready, or cannot start for want of this. Of several the first one stays.
    pub(crate) fn tell<R: Wait>(&self, rt: &R, outcome: Result<(), Shortage>) {
        self.stage.lock(rt).tell(outcome);
        self.told.notify_all();
    }

    /// No node tells any more, for want of this.
    pub(crate) fn fail<R: Wait>(&self, rt: &R, shortage: Shortage) {
        self.stage.lock(rt).fail(shortage);
        self.told.notify_all();
    }

    /// Waits until each node has told. Refused with what one of them lacks.
    pub(crate) fn wait_for_nodes<R: Wait>(&self, rt: &R) -> Result<(), Shortage> {
        let stage = self
            .told
            .wait_while(rt, self.stage.lock(rt), |stage| stage.is_awaited());
        stage.outcome()
    }

    /// Lets all go, to serve or to end.
    pub(crate) fn open<R: Wait>(&self, rt: &R, serves: bool) {
        self.stage.lock(rt).open(serves);
        self.opened.notify_all();
    }

    /// Waits until all are let go. Whether they serve.
    pub(crate) fn wait<R: Wait>(&self, rt: &R) -> bool {
        let stage = self
            .opened
            .wait_while(rt, self.stage.lock(rt), |stage| !stage.is_open());
        stage.serves()
    }
}
