// Two clients of a hub beside its flusher, each in a thread of its own.

use crate::calls::flush_all;
use crate::hub_clients::{Act, Client};
use crate::slow::{Flags, HeldGate};
use commit_hub::{Hub, NodeLedger};
use decision_board::Naming;
use disk_model::Device;
use group_commit::{Desk, Stub};
use ring_service::Flusher;
use std::alloc::AllocGlobal;
use std::process::Abort;
use std::sync::Wait;
use std::sync::atomic::Ordering;
use std::thread::{Threads, join};
use std::time::Clock;

/// What two clients do, and what the second one does once the flusher has ended.
#[derive(Clone, Copy)]
pub struct Duo {
    pub first: &'static [Act],
    pub second: &'static [Act],
    pub later: &'static [Act],
    /// Whether each round but the first is held.
    pub holds_rounds: bool,
}

/// The desk of a hub that was settled, the stubs of the clients' last replies, and how many packets the window had.
#[derive(Drop)]
pub struct Settled {
    pub desk: Desk,
    pub first: Option<Stub>,
    pub second: Option<Stub>,
    pub window: usize,
}

impl Settled {
    /// Whether the desk vouches for the stub, if there is one.
    fn vouched(&self, stub: &Option<Stub>) -> Option<bool> {
        match stub {
            Some(stub) => Some(self.desk.vouch(stub) == Ok(true)),
            None => None,
        }
    }

    /// The desk has two inputs, and vouches for each stub; whether the first and the second client have one.
    pub fn vouches(&self, rt: &impl Abort, first: bool, second: bool) {
        assert!(rt; self.desk.history().len() == 2);
        assert!(rt; self.vouched(&self.first) == first.then_some(true));
        assert!(rt; self.vouched(&self.second) == second.then_some(true));
    }
}

/// Both clients do what they are to, and then the hub is closed.
pub fn together<
    V: Device + Send,
    J: Naming + Send + Sync,
    A: NodeLedger + Send + Sync,
    R: Threads + Wait + Clock + Abort + Sync,
>(
    rt: &R,
    hub: &Hub<A>,
    flusher: &mut Flusher<V, J, A>,
    first: Client<J, A>,
    second: Client<J, A>,
    flags: &Flags,
    duo: Duo,
) -> (Client<J, A>, Client<J, A>) {
    let ((), both) = join(
        rt,
        || -> () { flushes(rt, hub, flusher, flags, duo.holds_rounds) },
        move || play_both(rt, hub, first, second, flags, duo),
    );
    both
}

/// Both clients do what they are to, and close the hub.
fn play_both<
    J: Naming + Send + Sync,
    A: NodeLedger + Send + Sync,
    R: Threads + Wait + Clock + Abort + Sync,
>(
    rt: &R,
    hub: &Hub<A>,
    first: Client<J, A>,
    second: Client<J, A>,
    flags: &Flags,
    duo: Duo,
) -> (Client<J, A>, Client<J, A>) {
    let both = join(
        rt,
        move || first.plays(rt, hub, flags, duo.first),
        move || second.plays(rt, hub, flags, duo.second),
    );
    flags.closing.store(true, Ordering::SeqCst);
    hub.close(rt);
    both
}

/// Flushes until the hub is closed or the device fails.
fn flushes<V: Device, J: Naming, A: NodeLedger, R: Wait + Clock + Abort>(
    rt: &R,
    hub: &Hub<A>,
    flusher: &mut Flusher<V, J, A>,
    flags: &Flags,
    holds_rounds: bool,
) {
    if holds_rounds {
        let mut gate = HeldGate { rt, flags };
        flush_all(rt, hub, flusher, &mut gate, &flags.closing);
    } else {
        flush_all(rt, hub, flusher, &mut (), &flags.closing);
    }
}

/// How many packets the hub's window has.
fn window<A: NodeLedger, R: Wait + Abort>(rt: &R, hub: &Hub<A>) -> usize {
    let (packets, _begun) = hub.window(rt).expect(rt, "ample memory");
    let count = packets.len();
    drop(packets);
    count
}

/// The shares of both clients settle the hub.
pub fn settles<J: Naming, A: NodeLedger, R: Wait + Abort + AllocGlobal>(
    rt: &R,
    hub: Hub<A>,
    first: Client<J, A>,
    second: Client<J, A>,
) -> Settled {
    let window = window(rt, &hub);
    let (one, first) = first.leaves();
    let (two, second) = second.leaves();
    let shares = Vec::from_array(rt.alloc(), [one, two]).expect(rt, "ample memory");
    match hub.settle(shares) {
        Ok(desk) => Settled {
            desk,
            first,
            second,
            window,
        },
        Err(_) => panic!(rt; "not settled"),
    }
}
