// The node of a row, in memory: between sessions it is what its device holds.
ghost use Rattle.std.specs.Prelude.{◌≡◌, false, true, IfOk};
ghost use Rattle.std.specs.Option.{ForSome};
ghost use Rattle.group_commit.specs.Desk.{IsHere};
ghost use Rattle.group_commit.specs.Ticket.{shown};
ghost use Rattle.node_store.specs.Node.{desk_of, state_of};
ghost use Rattle.ring_records.specs.Answer.{Answered};
ghost use Rattle.ring_records.specs.States.{opened};

use crate::session::course::{Counts, Course};
use disk_model::{Device, FuseDevice, MemDevice};
use group_commit::Ticket;
use node_store::Node;
use ring_records::{Msg, NodeNo, Refusal, Reply, Request};
use sessions::{SoloService, serve};
use std::alloc::Global;

/// How many bytes of inputs a node takes.
const CAPACITY: u32 = 4_096;

/// How many bytes a device of such a node has, with its head and two areas.
const DISK_BYTES: usize = 46 + 2 * 4_096;

type Disk = FuseDevice<MemDevice>;

type Stored = Node<Disk>;

/// Node 1 of a ring: how many nodes that has, the device, or none where the node is new, whether it is to fail at its
/// next call, and what the node told last.
#[derive(Drop)]
pub struct Stage {
    n: u8,
    device: Option<Disk>,
    fails: bool,
    counts: Counts,
}

/// A device that holds these bytes.
fn disk(alloc: Global, image: &[u8]) -> Result<Disk, Refusal> {
    let Ok(mut device) = MemDevice::new(alloc, DISK_BYTES) else {
        return Err(Refusal::OutOfMemory);
    };
    match device.write_at(0, image) {
        Ok(()) => Ok(FuseDevice::idle(device)),
        Err(_) => Err(Refusal::Full),
    }
}

/// A new node, on a new device.
fn created(alloc: Global, n: u8) -> Result<Stored, Refusal>
    ensures open { IfOk result (λ made. ((desk_of made).view.closed ≡ false) × ((desk_of made).view.failed ≡ false)) }
    ensures durable { IfOk result (λ made. state_of made ≡ opened (state_of made).base (state_of made).inputs) }
{
    let device = disk(alloc, &[])?;
    match Node::create(alloc, device, NodeNo::first(), n, CAPACITY, 0) {
        Ok(made) => Ok(made),
        Err((_device, refusal)) => Err(refusal),
    }
}

/// Has the node's device fail at its next call, once, where it is to.
fn arm(node: &mut Stored, fails: bool)
    ensures { desk_of node.new ≡ desk_of node.old }
{
    if fails {
        node.arm(0, true);
    }
}

/// On how many inputs the answer rests for a ticket.
fn number(unanswered: &Option<Ticket>) -> Option<u64> {
    match unanswered {
        Some(ticket) => Some(ticket.number()),
        None => None,
    }
}

/// Closes a node, and forfeits the ticket that is open there.
fn close(node: &mut Stored, unanswered: Option<Ticket>)
    requires { ForSome unanswered (λ ticket. ∥ ((kept : Answered) × IsHere (desk_of node.old).view (shown ticket) kept) ∥₁) }
    ensures { (desk_of node.new).view.closed ≡ true }
{
    node.close();
    let Some(ticket) = unanswered else {
        return;
    };
    match node.forfeit(ticket) {
        Ok(()) => {}
        Err(_) => unreachable!(),
    }
}

/// The reply for a ticket that is open. Where it is not released, the node is closed and the ticket forfeited.
fn redeem(node: &mut Stored, ticket: Ticket) -> Result<Reply, Refusal>
    requires open { (kept : Answered) × IsHere (desk_of node.old).view (shown ticket) kept }
{
    match node.redeem(ticket) {
        Ok((reply, _stub)) => Ok(reply),
        Err((ticket, refusal)) => {
            node.close();
            match node.forfeit(ticket) {
                Ok(()) => Err(refusal),
                Err(_) => unreachable!(),
            }
        }
    }
}

/// The reply to the message of this number, once what it brought is durable.
fn answer(node: &mut Stored, no: u64, msg: Msg) -> Result<Reply, Refusal> {
    let ticket = match node.submit(Request::Take(no, msg)) {
        Ok(ticket) => ticket,
        Err(refusal) => return Err(refusal),
    };
    let flushed = node.flush();
    drop(flushed);
    redeem(node, ticket)
}

impl Stage {
    /// Node 1 of a new ring of `n`, 2 to 16.
    pub fn new(n: u8) -> Stage {
        Stage {
            n,
            device: None,
            fails: false,
            counts: Counts {
                accepted: 0,
                durable: 0,
                tickets: 0,
                unanswered: None,
            },
        }
    }

    /// The node's device holds these bytes from now on, and nothing else. Refused as 7 where they are too many, and as 8.
    pub fn takes_image(&mut self, alloc: Global, image: &[u8]) -> Result<(), Refusal> {
        let device = disk(alloc, image)?;
        self.device = Some(device);
        Ok(())
    }

    /// The device fails in the next session, at its first call.
    pub fn fails(&mut self) {
        self.fails = true;
    }

    /// What the node told last.
    pub fn counts(&self) -> Counts {
        self.counts
    }

    /// The node that the device holds.
    fn recovered(&mut self, alloc: Global, device: Disk) -> Result<Stored, Refusal>
        ensures open { IfOk result (λ made. ((desk_of made).view.closed ≡ false) × ((desk_of made).view.failed ≡ false)) }
        ensures durable { IfOk result (λ made. state_of made ≡ opened (state_of made).base (state_of made).inputs) }
    {
        let n = self.n;
        if n < 2 {
            return Err(Refusal::BadNumber);
        }
        match Node::recover(alloc, device, NodeNo::first(), n, 1) {
            Ok(made) => Ok(made),
            Err((device, refusal)) => {
                self.device = Some(device);
                Err(refusal)
            }
        }
    }

    /// The node, which takes requests, and all of whose inputs are durable.
    fn open(&mut self, alloc: Global) -> Result<Stored, Refusal>
        ensures open { IfOk result (λ made. ((desk_of made).view.closed ≡ false) × ((desk_of made).view.failed ≡ false)) }
        ensures durable { IfOk result (λ made. state_of made ≡ opened (state_of made).base (state_of made).inputs) }
    {
        match self.device.take() {
            None => created(alloc, self.n),
            Some(device) => self.recovered(alloc, device),
        }
    }

    /// Keeps what a node tells, closes it, and keeps its device.
    fn lets_go(&mut self, node: Stored, unanswered: Option<Ticket>)
        requires { ForSome unanswered (λ ticket. ∥ ((kept : Answered) × IsHere (desk_of node).view (shown ticket) kept) ∥₁) }
    {
        let mut node = node;
        self.counts = Counts {
            accepted: node.desk().accepted(),
            durable: node.durable(),
            tickets: node.open_tickets(),
            unanswered: number(&unanswered),
        };
        close(&mut node, unanswered);
        if node.open_tickets() == 0 {
            self.device = Some(node.into_device());
        } else {
            drop(node);
        }
    }

    /// The node takes the message of this number.
    pub fn takes(&mut self, alloc: Global, no: u64, msg: Msg) -> Result<Reply, Refusal> {
        let mut node = self.open(alloc)?;
        let answered = answer(&mut node, no, msg);
        self.lets_go(node, None);
        answered
    }

    /// A session over the node: how it went, and its answers.
    pub fn serves(&mut self, alloc: Global, input: &[u8], answers: &mut Vec<u8>) -> Course {
        let mut node = match self.open(alloc) {
            Ok(node) => node,
            Err(refusal) => return Course::Refused(refusal),
        };
        arm(&mut node, self.fails);
        self.fails = false;
        let mut service = SoloService::new(node);
        let mut rest = input;
        let answer = serve(alloc, &mut rest, answers, &mut service);
        let unread = rest.len();
        let (node, unanswered) = service.into_parts();
        self.lets_go(node, unanswered);
        match answer {
            Ok(lines) => Course::Ended { lines, unread },
            Err(_) => Course::Broken,
        }
    }
}
