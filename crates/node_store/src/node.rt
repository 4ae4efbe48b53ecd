ghost use Rattle.std.specs.Prelude.{◌≡◌, ◌+◌, ◌-◌, ◌⊎◌, ◌||◌, ◌≤◌, ℕ, List, length, not, true, false, None, Some, IfOk, IfErr, OnOk, OnErr};
ghost use Rattle.disk_model.specs.Disk.{MayLeave, Reaches};
ghost use Rattle.ring_records.specs.declared.input.Input.{Input};
ghost use Rattle.ring_records.specs.Admission.{newest};
ghost use Rattle.ring_records.specs.Member.{member};
ghost use Rattle.ring_records.specs.Lawful.{IsNodeState, IsLawfulState};
ghost use Rattle.ring_records.specs.Summary.{empty};
ghost use Rattle.gated_journal.specs.Areas.{AllReadAs};
ghost use Rattle.gated_journal.specs.Journal as journals;
ghost use Rattle.gated_journal.specs.OnlyReads.{IsOnlySynced};
ghost use Rattle.gated_journal.specs.Reading.{device_size, fresh_area, is_header};
ghost use Rattle.gated_journal.specs.Unread.{IsFault, IsUnread};
ghost use Rattle.node_core.specs.Core.{IsNodeOf};
ghost use Rattle.group_commit.specs.Desk.{new_desk, seen, objection, IsSubmitted};
ghost use Rattle.group_commit.specs.Ending.{is_over, IsRedeemed, IsForfeited};
ghost use Rattle.group_commit.specs.Past.{IsPast};
ghost use Rattle.group_commit.specs.Since.{IsKnownDesk};
ghost use Rattle.node_store.specs.Props.{Stands-prop};
ghost use Rattle.node_store.specs.Standing.{IsReady, Stands};
ghost use Rattle.node_store.specs.State.{Holds, MayBeLeft, durable_held};

use crate::node::rounds::settle;
use disk_model::{Device, FuseDevice};
use gated_journal::{Journal, Opening, Work, is_header};
use group_commit::{Desk, Landed, Stub, Ticket};
use ring_records::{Input, NodeNo, Refusal, Reply, Request};
use std::alloc::Global;

mod checkpoints;
mod flushes;
mod rounds;

/// A node whose inputs outlive it: a desk, and the journal that makes what it accepts durable.
#[derive(Drop)]
pub struct Node<D: Device> {
    alloc: Global,
    desk: Desk,
    journal: Journal<D>,
    ghost stands: { Stands desk journal } by { Stands-prop desk journal },
}

impl<D: Device> Node<D> {
    ghost use Rattle.group_commit.specs.Ticket.{shown};
    ghost use Rattle.node_store.specs.Node.{desk_of, member_of, state_of, device_of};
    ghost use Rattle.node_store.specs.Recovery.{IsNotLawful, IsUnrecovered, StandsAgain, StandsForAll};

    /// A new node, which has accepted nothing, on a device that is formatted for it. Refused as 2 where `n` is not 2 to
    /// 16, `node` is above it, or the capacity is not 4,096 to 1,048,576 bytes, as 15, and as 8. What the device holds
    /// after a 15 is not known.
    pub fn create(
        alloc: Global,
        device: D,
        node: NodeNo,
        n: u8,
        capacity: u32,
        run: u64,
    ) -> Result<Node<D>, (D, Refusal)>
        ensures desk { IfOk result (λ made. desk_of made ≡ new_desk (member node n capacity) run (fresh_area newest 1 empty)) }
        ensures empty { IfOk result (λ made. AllReadAs (member node n capacity) (D.disk (device_of made)) (fresh_area newest 1 empty)) }
        ensures range { OnOk result (is_header (member node n capacity) ≡ true) }
        ensures same { IfOk result (λ made. D.count (device_of made) ≡ D.count device) }
        ensures reach { IfOk result (λ made. D.reach (device_of made) ≡ D.reach device) }

        // Refused as 2 or 8, the device is as it was; as 15, the device failed.
        ensures number { IfErr result (λ e. is_header (member node n capacity) ≡ false → (e.1 ≡ Refusal.BadNumber) × (e.0 ≡ device)) }
        ensures fault { IfErr result (λ e. is_header (member node n capacity) ≡ true → IsFault (D.count device) (D.count e.0) e.1 ⊎ ((e.1 ≡ Refusal.OutOfMemory) × (e.0 ≡ device))) }
        ensures works { Reaches (D.reach device) (device_size capacity) → IfErr result (λ e. (e.1 ≡ Refusal.BadNumber) ⊎ (e.1 ≡ Refusal.OutOfMemory)) }
    {
        if !is_header(node, n, capacity) {
            return Err((device, Refusal::BadNumber));
        }
        inside(node, n);
        match Desk::open(alloc, node, n, capacity, run, Opening::fresh(alloc)) {
            Err(refusal) => Err((device, refusal)),
            Ok(desk) => match Journal::format(device, node, n, capacity) {
                Ok(journal) => Ok(Node {
                    alloc,
                    desk,
                    journal,
                }),
                Err((device, refusal)) => Err((device, refusal)),
            },
        }
    }

    /// The node that a device holds, which it makes stable first: it goes on from the summary that its journal holds, and
    /// stands for the inputs behind that, all of them durable. The caller sees that the node is one of the ring. Refused as
    /// 15; as 17 where there is no header; as 19 where it names another node or ring size; as 16 with the offset of what is
    /// damaged; as 24 with the number of the first input behind the summary, counted from 0, that is not admitted after
    /// those before it; and as 8 where it is met.
    pub fn recover(
        alloc: Global,
        device: D,
        node: NodeNo,
        n: u8,
        run: u64,
    ) -> Result<Node<D>, (D, Refusal)>
        requires in_ring { node ≤ n }
        ensures stands { IfOk result (StandsForAll node n run device) }
        ensures again { StandsAgain node n run device result }

        // A refusal has its cause. While the device works it is the image's, or want of memory.
        ensures refusal { IfErr result (λ e. IsUnrecovered node n (D.count device) (D.count e.0) (D.disk device).image e.1) }
        ensures works { Reaches (D.reach device) (length (D.disk device).image)
            → IfErr result (λ e. (e.1 ≡ Refusal.OutOfMemory) ⊎ (IsUnread node n (D.disk device).image e.1 ⊎ IsNotLawful node n (D.disk device).image e.1)) }
        ensures device { IsOnlySynced D.Device device_of device result }
    {
        inside(node, n);
        match Journal::reopen(alloc, device, node, n) {
            Err((device, refusal)) => Err((device, refusal)),
            Ok((journal, opening)) => {
                match Desk::open(alloc, node, n, journal.capacity(), run, opening) {
                    Ok(desk) => Ok(Node {
                        alloc,
                        desk,
                        journal,
                    }),
                    Err(refusal) => Err((journal.into_device(), refusal)),
                }
            }
        }
    }

    /// Answers a request, accepts its input where nothing is against it, and gives a ticket for the reply. Refused as 9
    /// where it is closed or has failed, as 2 where a Take's message is of no node of the ring, as 6 at 2^60 tickets,
    /// and as 8. Every other refusal is a reply.
    pub fn submit(&mut self, question: Request) -> Result<Ticket, Refusal>
        ensures submitted { IfOk result (λ ticket. IsSubmitted question (desk_of self.old) (desk_of self.new) (shown ticket)) }
        ensures free { OnOk result (objection (desk_of self.old).view question ≡ None) }
        ensures refusal { IfErr result (λ refusal. (objection (desk_of self.old).view question ≡ Some refusal)
            ⊎ ((objection (desk_of self.old).view question ≡ None) × (refusal ≡ Refusal.OutOfMemory))) }
        ensures same { OnErr result (desk_of self.new ≡ desk_of self.old) }
        ensures device { device_of self.new ≡ device_of self.old }
    {
        self.desk.submit(question)
    }

    /// Ends a ticket whose reply rests on durable inputs alone, and releases the reply, with a stub of it. Refused as
    /// 10 where no such ticket is open here; where an input that the reply rests on is not durable yet, as 9 on a node
    /// that has failed and else as 11. Then the ticket comes back.
    pub fn redeem(&mut self, ticket: Ticket) -> Result<(Reply, Stub), (Ticket, Refusal)>
        ensures redeemed { IsRedeemed (desk_of self.old) (desk_of self.new) ticket result }
        ensures device { device_of self.new ≡ device_of self.old }
    {
        self.desk.redeem(ticket)
    }

    /// Ends a ticket with no reply, on a node that is closed or has failed. Refused as 10 where no such ticket is open
    /// here, and the ticket comes back.
    pub fn forfeit(&mut self, ticket: Ticket) -> Result<(), (Ticket, Refusal)>
        requires over { is_over (desk_of self.old) ≡ true }
        ensures forfeited { IsForfeited (desk_of self.old) (desk_of self.new) ticket result }
        ensures device { device_of self.new ≡ device_of self.old }
    {
        self.desk.forfeit(ticket)
    }

    /// Its desk, which tells what the node shows.
    pub fn desk(&self) -> &Desk
        ensures { result.now ≡ desk_of self.now }
    {
        &self.desk
    }

    /// The inputs that it accepted since its opening, and those that its journal held behind the summary, oldest first.
    pub fn history(&self) -> &[Input]
        ensures inputs { result.now ≡ (state_of self.now).inputs }
        ensures known { IsKnownDesk (desk_of self.now) }
    {
        self.desk.history()
    }

    /// How many of its inputs are durable, those that are summarised among them.
    pub fn durable(&self) -> u64
        ensures { result ≡ (desk_of self.now).opening.inputs + (state_of self.now).durable }
    {
        self.desk.durable()
    }

    /// The epoch of its journal's area in use: each checkpoint raises it by 1.
    pub fn epoch(&self) -> u64
        ensures { result ≡ (state_of self.now).base.epoch }
    {
        self.desk.epoch()
    }

    /// Takes no more requests; all else goes on.
    pub fn close(&mut self)
        ensures next { desk_of self.new ≡ record (desk_of self.old) { view = record (desk_of self.old).view { closed = true } } }
        ensures device { device_of self.new ≡ device_of self.old }
    {
        self.desk.close();
    }

    /// Whether it takes requests: it was not closed and has not failed.
    pub fn is_open(&self) -> bool
        ensures { result ≡ not ((desk_of self.now).view.closed || (desk_of self.now).view.failed) }
    {
        self.desk.is_open()
    }

    /// How many tickets are open: given, and neither redeemed nor forfeited.
    pub fn open_tickets(&self) -> usize
        ensures { result ≡ length (desk_of self.now).view.tickets }
    {
        self.desk.open_tickets()
    }

    /// The desk and the journal of a node that takes requests and has no open ticket, for threads of their own: the
    /// journal holds the durable inputs, and nothing flies.
    pub fn split(self) -> (Desk, Journal<D>)
        requires open { ((desk_of self).view.closed || (desk_of self).view.failed) ≡ false }
        requires spent { length (desk_of self).view.tickets ≡ 0 }
        ensures desk { result.0 ≡ desk_of self }
        ensures device { journals.device_of result.1 ≡ device_of self }
        ensures member { journals.member_of result.1 ≡ result.0.view.member }
        ensures inside { IsNodeOf result.0.view.member.n result.0.view.member.node }
        ensures ready { IsReady result.0 (journals.is_spoiled result.1) (journals.len_of result.1) (journals.room_of result.1) (journals.layout_of result.1) (journals.epoch_of result.1) }
        ensures counts { IsNodeState result.0.view.state }
        ensures lawful { (past : List Input) → IsPast result.0.view.member result.0.opening past → IsLawfulState result.0.view.member (seen past result.0).state }
        ensures durable { AllReadAs result.0.view.member (D.disk (journals.device_of result.1)) (durable_held result.0) }
    {
        let Node {
            alloc: _,
            desk,
            journal,
        } = self;
        (desk, journal)
    }

    /// Ends a node that is closed or has failed and has no open ticket, and gives its device.
    pub fn into_device(self) -> D
        requires over { ((desk_of self).view.closed || (desk_of self).view.failed) ≡ true }
        requires spent { length (desk_of self).view.tickets ≡ 0 }
        ensures device { result ≡ device_of self }

        // A stop leaves what was durable, or also what flew.
        ensures left { (image : List ℕ) → MayLeave (D.disk result) image → MayBeLeft (desk_of self) image }
        ensures holds { (past : List Input) → IsPast (member_of self) (desk_of self).opening past
            → IsLawfulState (member_of self) (seen past (desk_of self)).state × Holds (member_of self) (D.disk result) (seen past (desk_of self)).state }
        ensures durable { (desk_of self).view.failed ≡ false → AllReadAs (member_of self) (D.disk result) (durable_held (desk_of self)) }
    {
        let Node {
            alloc: _,
            desk: _,
            journal,
        } = self;
        journal.into_device()
    }
}

impl<D: Device> Node<FuseDevice<D>> {
    ghost use Rattle.disk_model.specs.Fuse.{planned};
    ghost use Rattle.disk_model.specs.FuseDevice.{inner_of, will_fail, own_faults};
    ghost use Rattle.node_store.specs.Node.{desk_of, device_of};

    /// Sets the device's fuse anew: from now on `after` of its calls pass, and then the next fails if `once`, else all
    /// later ones.
    pub fn arm(&mut self, after: u64, once: bool)
        ensures fuse { (k : ℕ) → will_fail (device_of self.new) k ≡ planned after once k }
        ensures inner { inner_of (device_of self.new) ≡ inner_of (device_of self.old) }
        ensures faults { own_faults (device_of self.new) ≡ own_faults (device_of self.old) }
        ensures desk { desk_of self.new ≡ desk_of self.old }
    {
        self.journal.arm(after, once);
    }
}

// A node that is no more than its ring's size is one of the ring.
fn inside(node: NodeNo, n: u8)
    requires { node ≤ n }
    ensures { IsNodeOf n node }
{
    let _number = node.number();
}
