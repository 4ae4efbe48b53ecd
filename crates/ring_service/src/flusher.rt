//! The flusher's end of a hub.
ghost use Rattle.std.specs.Prelude.{◌≡◌, ◌-◌, ◌<◌, ◌≤◌, [], true, false, None, length, IfOk, IfSome, IfNone};
ghost use mathlib.Core.List.{IsPrefix};
ghost use Rattle.gated_journal.specs.Areas.{AllReadAs};
ghost use Rattle.gated_journal.specs.Batch.{landed};
ghost use Rattle.gated_journal.specs.Journal.{member_of, len_of, room_of, layout_of, epoch_of as journal_epoch, is_spoiled};
ghost use Rattle.gated_journal.specs.Reading.{Reading};
ghost use Rattle.gated_journal.specs.Works.{flown_by};
ghost use Rattle.decision_board.specs.Boards.{published, pending, in_rounds};
ghost use Rattle.commit_hub.specs.Holders.{begun_by, known_by, objection_to, view_by};
ghost use Rattle.group_commit.specs.Next.{IsNext};
ghost use Rattle.node_core.specs.Core.{IsNodeOf};
ghost use Rattle.ring_service.specs.Rounds.{IsRound, IsStopped, HasKnown};
ghost use Rattle.ring_service.specs.Settled.{IsSettled};
ghost use Rattle.ring_service.specs.Props.{HasKnown-prop};

use crate::gate::Gate;
use commit_hub::{Begun, Hub, NodeLedger, Tie, Work};
use decision_board::{Board, Naming, Owed, Told};
use disk_model::{Device, SystemFault};
use gated_journal::Journal;
use group_commit::Landed;
use ring_records::Refusal;
use std::alloc::Global;
use std::collections::VecDeque;
use std::sync::Wait;

/// The journal and the tie of a hub's node, the board that is told its notices, and those that the board could not take
/// yet.
pub struct Flusher<V: Device, J: Naming, A: NodeLedger> {
    journal: Journal<V>,
    tie: Tie<A>,
    board: Board<J>,
    owed: VecDeque<Owed>,
    is_published: bool,
    has_ended: bool,
    ghost inside: { IsNodeOf A.member.n A.member.node },
    ghost shown: { is_published ≡ true → pending board ≡ [] },
    ghost ready: { has_ended ≡ false → is_spoiled journal ≡ false },
    ghost free: { has_ended ≡ false → objection_to tie ≡ None },
    ghost member: { has_ended ≡ false → member_of journal ≡ A.member },
    ghost known: { has_ended ≡ false → HasKnown A.member A.opening (known_by tie) (len_of journal) (room_of journal) (layout_of journal) (journal_epoch journal) } by { HasKnown-prop has_ended A.member A.opening (known_by tie) (len_of journal) (room_of journal) (layout_of journal) (journal_epoch journal) },
}

impl<V: Device, J: Naming, A: NodeLedger> Flusher<V, J, A> {
    ghost use Rattle.ring_service.specs.Flushers.{journal_of, device_in, known_to, board_of, owed_of, told_to, is_published, is_done, has_ended};
    ghost use Rattle.ring_service.specs.Flushes.{EndsOnFault, IsUnflushed, Publishes};

    /// A flusher that owes nothing. The journal is that of the node of the tie's hub, is not spoiled, and has what the
    /// tie knows. By the tie nothing flies, and the hub has not failed.
    pub fn new(alloc: Global, journal: Journal<V>, board: Board<J>, tie: Tie<A>) -> Flusher<V, J, A>
        requires inside { IsNodeOf A.member.n A.member.node }
        requires ready { is_spoiled journal ≡ false }
        requires free { objection_to tie ≡ None }
        requires member { member_of journal ≡ A.member }
        requires known { HasKnown A.member A.opening (known_by tie) (len_of journal) (room_of journal) (layout_of journal) (journal_epoch journal) }
        ensures journal { journal_of result ≡ journal }
        ensures known { known_to result ≡ known_by tie }
        ensures board { board_of result ≡ board }
        ensures owed { owed_of result ≡ [] }
        ensures goes_on { has_ended result ≡ false }
    {
        Flusher {
            journal,
            tie,
            board,
            owed: VecDeque::new(alloc),
            is_published: false,
            has_ended: false,
        }
    }

    /// What the system answered to the first call of its journal's device that failed, where that is known.
    pub fn cause(&self) -> Option<SystemFault> {
        self.journal.cause()
    }

    /// One round on the hub of its tie: waits for inputs, makes the first of them durable, at most 64, or all of them by a
    /// checkpoint where one is due, behind which the hub lets go of them, and publishes the leaders that they make known. Tells
    /// what it made durable; `None` once the hub is closed and nothing waits.
    ///
    /// Refused as 8 or 9, nothing was launched: a growth was refused; the flusher has ended. Refused as 15, the device failed.
    /// After 15 the flusher has ended. Notices that the board cannot take for memory stay owed, and go first in
    /// the next round; all that it took is published, but for want of memory, of which `is_published` tells. Behind a
    /// round in which the board was refused no growth nothing is owed, and all is published.
    pub fn flush_round<R: Wait, G: Gate>(
        &mut self,
        rt: &R,
        hub: &Hub<A>,
        gate: &mut G,
    ) -> Result<Option<Landed>, Refusal>
        ensures round { IfOk result (λ some. IfSome some (λ landed. IsRound V.Device A.member A.opening (device_in self.old) (device_in self.new)
            (known_to self.old) (known_to self.new) landed)) }
        ensures none { IfOk result (λ some. IfNone some ((journal_of self.new ≡ journal_of self.old) × (known_to self.new ≡ known_to self.old))) }
        ensures done { IfOk result (λ some. IfNone some (is_done self.new ≡ true)) }
        ensures publishes { Publishes self.old self.new result }
        ensures refused { IsUnflushed self.old self.new result }
        ensures ends { EndsOnFault self.old self.new result }

        // A stop at any moment leaves what the journal read as, or what it reads as behind the round.
        ensures any_moment { has_ended self.old ≡ false → (r : Reading) → AllReadAs A.member (V.disk (device_in self.old)) r
            → IsStopped V.Device (device_in self.old) (device_in self.new) A.member A.opening (known_to self.old) r }
    {
        if self.has_ended {
            return Err(Refusal::Failed);
        }
        let Flusher {
            journal,
            tie,
            board,
            owed,
            is_published,
            has_ended,
        } = self;
        // A place for what the board cannot take of this round.
        if owed.reserve(1).is_err() {
            return Err(Refusal::OutOfMemory);
        }
        match hub.launch(rt, tie) {
            Err(refusal) => Err(refusal),
            Ok(None) => Ok(None),
            Ok(Some(work)) => {
                gate.before_commit(work.first(), work.count());
                match settle(rt, hub, journal, tie, work) {
                    Err(refusal) => {
                        *has_ended = true;
                        Err(refusal)
                    }
                    Ok(mut landed) => {
                        let told = landed.take_notices();
                        *is_published = board.publish_owed(rt, owed, told).is_ok();
                        Ok(Some(landed))
                    }
                }
            }
        }
    }

    /// Changes nothing, and nothing runs: what it knows to be durable begins with the inputs of the token, on which a reply or
    /// a window of its hub rests.
    pub fn covers(&mut self, begun: &mut Begun<A>)
        ensures begins { IsPrefix (begun_by begun.old) (known_to self.old).inputs }
        ensures known { known_to self.new ≡ known_to self.old }
        ensures begun { begun_by begun.new ≡ begun_by begun.old }
        ensures journal { journal_of self.new ≡ journal_of self.old }
        ensures board { board_of self.new ≡ board_of self.old }
        ensures owed { owed_of self.new ≡ owed_of self.old }
        ensures is_published { is_published self.new ≡ is_published self.old }
        ensures has_ended { has_ended self.new ≡ has_ended self.old }
    {
        self.tie.covers(begun);
    }

    /// Changes nothing, and nothing runs: all that it was told of begins with what was told, as with what a reader of its board
    /// saw (`BoardReader::saw`).
    pub fn covers_told(&mut self, told: &Told<J>)
        ensures begins { IsPrefix told.now (told_to self.old) }
        ensures known { known_to self.new ≡ known_to self.old }
        ensures journal { journal_of self.new ≡ journal_of self.old }
        ensures board { board_of self.new ≡ board_of self.old }
        ensures owed { owed_of self.new ≡ owed_of self.old }
        ensures is_published { is_published self.new ≡ is_published self.old }
        ensures has_ended { has_ended self.new ≡ has_ended self.old }
    {
        self.board.covers(told);
    }

    /// Goes on no more, as after a failure of the device: it has ended, and nothing more of its hub becomes durable.
    pub fn abandon<R: Wait>(&mut self, rt: &R, hub: &Hub<A>)
        ensures known { known_to self.new ≡ known_to self.old }
        ensures journal { journal_of self.new ≡ journal_of self.old }
        ensures board { board_of self.new ≡ board_of self.old }
        ensures owed { owed_of self.new ≡ owed_of self.old }
        ensures is_published { is_published self.new ≡ is_published self.old }
        ensures has_ended { has_ended self.new ≡ true }
    {
        self.has_ended = true;
        hub.abandon(rt, &mut self.tie);
    }

    /// The epoch of its journal's area in use, which each round that makes a checkpoint raises by 1.
    pub fn epoch(&self) -> u64
        ensures { result ≡ journal_epoch (journal_of self.now) }
    {
        self.journal.epoch()
    }

    /// Whether all that the board took is published. Before the first round it is not known; after a round it is not where
    /// publishing was refused for want of memory, until a later one finds some.
    pub fn is_published(&self) -> bool
        ensures value { result ≡ is_published self.now }
        ensures pending { result ≡ true → pending (board_of self.now) ≡ [] }
    {
        self.is_published
    }

    /// The journal, the board, and the notices that the board could not take yet, a list for each round that told some.
    pub fn into_parts(self) -> (Journal<V>, Board<J>, VecDeque<Owed>)
        ensures journal { result.0 ≡ journal_of self }
        ensures board { result.1 ≡ board_of self }
        ensures owed { in_rounds result.2.items ≡ owed_of self }
    {
        let Flusher {
            journal,
            tie: _,
            board,
            owed,
            is_published: _,
            has_ended: _,
        } = self;
        (journal, board, owed)
    }
}

/// Behind a checkpoint the hub lets go of the inputs that the area of the journal in use stands for.
fn free_behind<A: NodeLedger, R: Wait>(rt: &R, hub: &Hub<A>, landed: &Landed)
    requires inside { IsNodeOf A.member.n A.member.node }
{
    if landed.is_checkpoint {
        hub.let_go(rt);
    }
}

/// Makes it durable, and tells the hub what became of it. By the tie it flies, so the hub refuses neither.
fn settle<V: Device, A: NodeLedger, R: Wait>(
    rt: &R,
    hub: &Hub<A>,
    journal: &mut Journal<V>,
    tie: &mut Tie<A>,
    work: Work,
) -> Result<Landed, Refusal>
    requires ready { is_spoiled journal.old ≡ false }
    requires member { member_of journal.old ≡ A.member }
    requires inside { IsNodeOf A.member.n A.member.node }
    requires next { IsNext A.member A.opening (known_by tie.old) work }
    requires flies { (view_by tie.old).flying ≡ flown_by work }
    requires works { (view_by tie.old).failed ≡ false }
    requires based { (known_by tie.old).base.inputs ≤ length (known_by tie.old).inputs }
    requires known { HasKnown A.member A.opening (known_by tie.old) (len_of journal.old) (room_of journal.old) (layout_of journal.old) (journal_epoch journal.old) }
    ensures { IsSettled journal.old journal.new tie.old tie.new work result }
{
    match journal.write(work) {
        Ok(receipt) => match hub.land(rt, tie, receipt) {
            Ok(landed) => {
                free_behind(rt, hub, &landed);
                Ok(landed)
            }
            Err(_) => unreachable!(),
        },
        Err(spoiled) => match hub.fail(rt, tie, spoiled) {
            Ok(()) => Err(Refusal::Device(journal.failures())),
            Err(_) => unreachable!(),
        },
    }
}
