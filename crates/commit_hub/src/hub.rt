//! One lock round a desk, for many appenders and one flusher.
ghost use Rattle.std.specs.Prelude.{◌≡◌, ◌+◌, ◌≤◌, ◌⊎◌, List, length, map, false, true, IfOk, IfErr, IfNone, IsOk, OnOk, OnErr};
ghost use Rattle.std.specs.List.{sum_by};
ghost use Rattle.ring_records.specs.declared.input.Input.{Input};
ghost use Rattle.ring_records.specs.Outside.{is_outside};
ghost use Rattle.group_commit.specs.Desk.{IsAnswer};
ghost use Rattle.node_core.specs.Core.{IsNodeOf};
ghost use Rattle.group_commit.specs.Past.{IsPast};
ghost use Rattle.group_commit.specs.Since.{IsKnownDesk};
ghost use Rattle.group_commit.specs.Ticket.{shown};
ghost use Rattle.commit_hub.specs.Over.{is_over};
ghost use Rattle.commit_hub.specs.Holders.{begun_by, count_of, known_by, objection_to, view_by};
ghost use Rattle.commit_hub.specs.Pages.{ForAccepted, ForTie};
ghost use Rattle.group_commit.specs.Next.{durable_part};
ghost use Rattle.commit_hub.specs.Told.{IsUnasked, IsLook, IsWindow};
ghost use Rattle.commit_hub.specs.Rounds.{IsFailed, IsLanded, IsLaunched};

use crate::blanks::Blanks;
use crate::ledgers::NodeLedger;
use crate::locked::Locked;
use crate::look::Look;
use crate::share::{Begun, Share, Tie};
use crate::waking::{Bells, Guarded};
use gated_journal::{Receipt, Spoiled, Work};
use group_commit::{Desk, Landed, Stub, Ticket};
use ring_records::{Packet, Refusal, Reply, Request};
use std::alloc::AllocError;
use std::sync::{Mutex, MutexGuard, Wait};

/// One lock round a desk. Many appenders submit to it, each with a share, and wait for their replies; one flusher, who
/// has the tie, launches batches and lands them. No call holds the lock for longer than one call of the desk takes. Its
/// numbers count the inputs that the desk's opening summarises, and the bytes of that summary. What is said of lawful
/// histories holds behind each past of which the opening is the summary; a hub whose opening is that of no history keeps
/// its counts.
#[derive(Drop)]
pub struct Hub<A: NodeLedger> {
    guarded: Mutex<Guarded<A>>,
    bells: Bells,
}

impl<A: NodeLedger> Hub<A> {
    /// A hub round this desk, and its one tie, which knows what of the desk is durable. Nothing flies, and the desk takes
    /// requests.
    pub fn new(desk: Desk, blanks: Blanks) -> (Hub<A>, Tie<A>)
        requires member { desk.view.member ≡ A.member }
        requires opening { desk.opening ≡ A.opening }
        requires none { desk.view.state.checkpoint ≡ None }
        requires idle { desk.view.state.flying ≡ desk.view.state.durable }
        requires open { is_over desk ≡ false }
        requires opened { desk.opening.inputs + length desk.view.state.inputs ≡ A.opened }
        requires accepted { ForAccepted blanks A.name A.parts }
        requires tied { ForTie blanks A.tied }
        ensures known { known_by result.1 ≡ durable_part desk }
        ensures durable { length (known_by result.1).inputs ≡ desk.view.state.durable }
        ensures free { objection_to result.1 ≡ None }
    {
        let (locked, tie) = Locked::new(desk, blanks);
        let hub = Hub {
            guarded: Mutex::new(Guarded::new(locked)),
            bells: Bells::new(),
        };
        (hub, tie)
    }

    /// A share that counts nothing yet. Refused as 6 where no place is left.
    pub fn enter<R: Wait>(&self, rt: &R) -> Result<Share<A>, Refusal>
        ensures count { IfOk result (λ share. count_of share ≡ 0) }
        ensures refusal { IfErr result (λ refusal. refusal ≡ Refusal.Limit) }
    {
        self.guarded.lock(rt).locked.enter()
    }

    /// Has the desk answer a request, and gives a ticket for the reply; the share counts an input that is accepted.
    /// Refused as 9 where the hub is closed or has failed, as 2 where a Take's message is of no node of the ring, as 6
    /// at 2^60 tickets, and as 8. Every other refusal is a reply.
    pub fn submit<R: Wait>(
        &self,
        rt: &R,
        share: &mut Share<A>,
        question: Request,
    ) -> Result<Ticket, Refusal>
        ensures question { IfOk result (λ ticket. (shown ticket).question ≡ question) }
        ensures inside { OnOk result (is_outside A.member.n question ≡ false) }
        ensures refusal { IfErr result (λ refusal. IsUnasked A.member.n question refusal) }
        ensures more { (count_of share.old ≤ count_of share.new) × (count_of share.new ≤ count_of share.old + 1) }
        ensures same { OnErr result (count_of share.new ≡ count_of share.old) }
    {
        let mut guard = self.guarded.lock(rt);
        match guard.locked.submit(share, question) {
            Err(refusal) => Err(refusal),
            Ok(ticket) => {
                let wakes = guard.must_wake();
                drop(guard);
                if wakes {
                    self.bells.tell_flusher();
                }
                Ok(ticket)
            }
        }
    }

    /// Waits until the inputs that the ticket's reply rests on are durable, ends the ticket and releases the reply,
    /// with a stub of it, and a token of the durable inputs that it is the answer behind. Refused as 10 where no such ticket
    /// is open here, and as 9 where an input that the reply rests on will not become durable, since the hub has failed. Then
    /// the ticket comes back.
    pub fn redeem_wait<R: Wait>(
        &self,
        rt: &R,
        ticket: Ticket,
    ) -> Result<(Reply, Stub, Begun<A>), (Ticket, Refusal)>
        ensures question { IfOk result (λ r. r.1.question ≡ (shown ticket).question) }
        ensures reply { IfOk result (λ r. r.0 ≡ r.1.answer.reply) }
        ensures answer { IfOk result (λ r. (past : List Input) → IsPast A.member A.opening past → IsAnswer A.member past (begun_by r.2) r.1) }
        ensures own { OnOk result ((shown ticket).node ≡ A.member.node) }
        ensures refusal { IfErr result (λ e. (e.1 ≡ Refusal.Foreign) ⊎ (e.1 ≡ Refusal.Failed)) }
        ensures failed { IfErr result (λ e. e.1 ≡ Refusal.Failed → (shown ticket).node ≡ A.member.node) }
        ensures back { IfErr result (λ e. shown e.0 ≡ shown ticket) }
    {
        let mut guard = self.guarded.lock(rt);
        let mut ticket = ticket;
        for _ in rt.forever() {
            match guard.locked.redeem(ticket) {
                Ok(released) => {
                    // a reply for want of room may want a checkpoint
                    if guard.must_wake() {
                        self.bells.tell_flusher();
                    }
                    return Ok(released);
                }
                Err((back, Refusal::Early)) => {
                    let turn = guard.turn_of(back.number());
                    guard = self.bells.waiters(turn).wait(rt, guard);
                    ticket = back;
                }
                Err((back, refusal)) => return Err((back, refusal)),
            }
        }
        Err((ticket, Refusal::Foreign))
    }

    /// Waits while a checkpoint is to make room that is not launched yet, and the hub takes requests: what was refused for
    /// room may be asked once more then.
    pub fn wait_for_room<R: Wait>(&self, rt: &R) {
        let mut guard = self.guarded.lock(rt);
        for _ in rt.forever() {
            if !guard.locked.awaits_room() {
                return;
            }
            let turn = guard.next_turn();
            guard = self.bells.waiters(turn).wait(rt, guard);
        }
    }

    /// Ends a ticket in every case, with no reply. Refused as 10 where no such ticket is open here, and while the hub
    /// takes requests.
    pub fn forfeit<R: Wait>(&self, rt: &R, ticket: Ticket) -> Result<(), Refusal>
        ensures own { OnOk result ((shown ticket).node ≡ A.member.node) }
        ensures refusal { IfErr result (λ refusal. refusal ≡ Refusal.Foreign) }
    {
        self.guarded.lock(rt).locked.forfeit(ticket)
    }

    /// Waits until an input waits or a checkpoint is due or wanted, and launches what is to be made durable next: where one is
    /// due, or is wanted and frees a sixteenth of the capacity, a checkpoint of all inputs; else the first that wait, at most
    /// 64, as a batch. One is wanted where a reply refused something for room since the last. `None` once the hub is closed and
    /// none waits. It fits a journal of the node that has what the tie knows. Refused as 9 where the hub has failed, as
    /// 12 where a batch or a checkpoint is flying, and as 8.
    pub fn launch<R: Wait>(&self, rt: &R, tie: &mut Tie<A>) -> Result<Option<Work>, Refusal>
        ensures tied { IsLaunched tie.old tie.new result }
        ensures done { IfOk result (λ some. IfNone some ((view_by tie.new).done ≡ true)) }
    {
        let mut guard = self.bells.wait_for_work(rt, self.guarded.lock(rt));
        guard.locked.launch(tie)
    }

    /// What flies is durable, a batch or a checkpoint: what it lets the node release. The tie knows it, and those who
    /// wait for it are woken. It takes no memory. Refused as 10 where this is not the receipt of what flies, or the hub has
    /// failed, and it comes back.
    pub fn land<R: Wait>(
        &self,
        rt: &R,
        tie: &mut Tie<A>,
        receipt: Receipt,
    ) -> Result<Landed, (Receipt, Refusal)>
        ensures { IsLanded tie.old tie.new receipt result }
    {
        let mut guard = self.guarded.lock(rt);
        match guard.locked.land(tie, receipt) {
            Err((receipt, refusal)) => Err((receipt, refusal)),
            Ok(landed) => {
                let turn = guard.pass_turn();
                drop(guard);
                self.bells.waiters(turn).notify_all();
                Ok(landed)
            }
        }
    }

    /// The device failed with what flies: nothing more is launched, nor becomes durable, and those who wait are told so.
    /// Refused as 10 where this is not what flies, and it comes back.
    pub fn fail<R: Wait>(
        &self,
        rt: &R,
        tie: &mut Tie<A>,
        spoiled: Spoiled,
    ) -> Result<(), (Spoiled, Refusal)>
        ensures { IsFailed tie.old tie.new spoiled result }
    {
        let mut guard = self.guarded.lock(rt);
        match guard.locked.fail(tie, spoiled) {
            Err((spoiled, refusal)) => Err((spoiled, refusal)),
            Ok(()) => {
                drop(guard);
                self.bells.tell_waiters();
                Ok(())
            }
        }
    }

    /// Takes no more requests; all else goes on. The flusher goes on until nothing waits.
    pub fn close<R: Wait>(&self, rt: &R) {
        let mut guard = self.guarded.lock(rt);
        guard.locked.close();
        self.tell_all(guard);
    }

    /// Nothing more becomes durable, as after a failure of the device: for a flusher that goes on no more. All who wait
    /// are told. The tie knows it, so that `launch` and `land` refuse it from then on.
    pub fn abandon<R: Wait>(&self, rt: &R, tie: &mut Tie<A>)
        ensures failed { (view_by tie.new).failed ≡ true }
        ensures tie { known_by tie.new ≡ known_by tie.old }
        ensures flies { (view_by tie.new).flying ≡ (view_by tie.old).flying }
    {
        let mut guard = self.guarded.lock(rt);
        guard.locked.abandon(tie);
        self.tell_all(guard);
    }

    /// Wakes the flusher, where it is to be, and all who wait for a reply.
    fn tell_all(&self, mut guard: MutexGuard<'_, Guarded<A>>) {
        let wakes = guard.must_wake();
        drop(guard);
        if wakes {
            self.bells.tell_flusher();
        }
        self.bells.tell_waiters();
    }

    /// The messages that the successor is not known to have taken, as Carry packets in order, by the durable inputs of
    /// some moment within the call, of which there is a token.
    pub fn window<R: Wait>(&self, rt: &R) -> Result<(Vec<Packet>, Begun<A>), AllocError>
        ensures { IfOk result (λ r. IsWindow A.member A.opening (begun_by r.1) r.0.items) }
    {
        self.guarded.lock(rt).locked.window()
    }

    /// Lets go of the inputs that the area of the journal in use stands for, as `Desk::let_go` does, and frees what the desk
    /// kept of them behind the lock. The caller sees that the node is one of the ring.
    pub fn let_go<R: Wait>(&self, rt: &R)
        requires inside { IsNodeOf A.member.n A.member.node }
    {
        let gone = self.guarded.lock(rt).locked.let_go();
        drop(gone);
    }

    /// What the node shows at some moment within the call: plain counts, copied under one hold of the lock.
    pub fn look<R: Wait>(&self, rt: &R) -> Look
        ensures { IsLook A.member A.opening result }
    {
        self.guarded.lock(rt).locked.look()
    }

    /// Ends the hub and the shares, and gives its desk, where the shares count all inputs that were accepted through
    /// the hub; they do where all shares that the hub could give are here. Refused as 22 elsewhere, and all comes back.
    pub fn settle(self, shares: Vec<Share<A>>) -> Result<Desk, (Hub<A>, Vec<Share<A>>, Refusal)>
        ensures member { IfOk result (λ desk. desk.view.member ≡ A.member) }
        ensures opening { IfOk result (λ desk. desk.opening ≡ A.opening) }
        ensures known { IfOk result (λ desk. IsKnownDesk desk) }
        ensures count { IfOk result (λ desk. desk.opening.inputs + length desk.view.state.inputs ≡ A.opened + sum_by count_of shares.items) }
        ensures whole { 1 + length shares.items ≡ A.parts → IsOk result }
        ensures refusal { IfErr result (λ e. e.2 ≡ Refusal.Mismatch) }
        ensures back { IfErr result (λ e. map count_of e.1.items ≡ map count_of shares.items) }
    {
        let Hub { guarded, bells } = self;
        match guarded.into_inner().into_locked().settle(shares) {
            Ok(desk) => Ok(desk),
            Err((locked, shares)) => {
                let hub = Hub {
                    guarded: Mutex::new(Guarded::new(locked)),
                    bells,
                };
                Err((hub, shares, Refusal::Mismatch))
            }
        }
    }
}
