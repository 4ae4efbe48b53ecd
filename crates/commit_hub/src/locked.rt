//! What lies under a hub's lock: its desk, the book of its ledger, and what its tie knows too.
ghost use Rattle.std.specs.Prelude.{◌≡◌, ◌↔◌, ◌+◌, ◌-◌, ◌≤◌, ◌<◌, ◌⊎◌, ◌&&◌, List, IsTrue, true, false, length, Some, None, IfOk, IfErr, IfNone, MatchOption, OnOk, OnErr};
ghost use Rattle.ring_records.specs.declared.input.Input.{Input};
ghost use Rattle.ring_records.specs.States.{durable_in};
ghost use Rattle.ring_records.specs.Lawful.{IsNodeState};
ghost use Rattle.ring_records.specs.Props.{IsNodeState-prop};
ghost use Rattle.ring_records.specs.Release.{packets, notices, window};
ghost use Rattle.gated_journal.specs.Batch.{landed as receipted, lost};
ghost use Rattle.group_commit.specs.Desk.{seen, landed, objection, IsSubmitted, IsAnswer};
ghost use Rattle.group_commit.specs.DeskCalls.{let_go, IsFlying};
ghost use Rattle.group_commit.specs.Launching.{launch_objection, launched_next, IsNoWork, IsUnlaunched, IsWorkOf};
ghost use Rattle.node_core.specs.Core.{IsNodeOf};
ghost use Rattle.group_commit.specs.Next.{durable_part};
ghost use Rattle.group_commit.specs.Past.{IsPast};
ghost use Rattle.group_commit.specs.Ending.{IsEnded, IsRedeemed};
ghost use Rattle.group_commit.specs.Ticket.{shown};
ghost use Rattle.commit_hub.specs.Desks.{flying_part, is_done, is_resting};
ghost use Rattle.commit_hub.specs.Over.{is_over};
ghost use Rattle.commit_hub.specs.Holders.{begun_by, count_of, known_by, objection_to, view_by};
ghost use Rattle.commit_hub.specs.Pages.{ForAccepted, ForTie};
ghost use Rattle.commit_hub.specs.Places.{places_of};
ghost use Rattle.commit_hub.specs.Props.{member-prop, summary-prop, names-prop, durable-prop, flying-prop, IsNextArea-prop};
ghost use Rattle.commit_hub.specs.Told.{IsWindow, told_of};
ghost use Rattle.commit_hub.specs.Works.{IsNextArea, stays_wanted};
ghost use Rattle.commit_hub.specs.Rounds.{IsFailed, IsLanded, IsLaunched};
ghost use Rattle.ring_records.specs.declared.reply.Reply.TheVariants as replied;

mod looks;

use crate::blanks::Blanks;
use crate::ledgers::NodeLedger;
use crate::places::Places;
use crate::share::{Begun, Share, Tie};
use crate::tied::{Held, audit, follow, tell};
use gated_journal::{Receipt, Spoiled, Work};
use group_commit::{Desk, Gone, Landed, SharedDesk, Stub, Ticket};
use ring_records::{Packet, Refusal, Reply, Request};
use std::alloc::AllocError;
use std::marker::PhantomData;
use std::sync::ledger;
use std::sync::ledger::Book;

/// A desk, the book that counts its inputs, and what its tie knows to be durable; and the shares of the accepted inputs
/// that nobody holds: of those that the desk had at first, and of the places that are left, of all that there are.
#[derive(Drop)]
pub(crate) struct Locked<A: NodeLedger> {
    pub(crate) shared: SharedDesk,
    pub(crate) accepted: Book<A>,
    pub(crate) first: ledger::Share<A>,
    pub(crate) opened: u64,
    pub(crate) spare: ledger::Share<A>,
    pub(crate) left: u32,
    pub(crate) places: Places<A>,
    pub(crate) held: Held,
    // whether something was refused for room since the last checkpoint was launched
    pub(crate) is_wanted: bool,
    ghost of: { shared.desk.view.member ≡ A.member } by { member-prop shared.desk.view.member A.member },
    ghost opening: { shared.desk.opening ≡ A.opening } by { summary-prop shared.desk.opening A.opening },
    ghost counts: { IsNodeState shared.desk.view.state } by { IsNodeState-prop shared.desk.view.state },
    ghost counted: { accepted.total ≡ shared.desk.opening.inputs + length shared.desk.view.state.inputs },
    ghost first_is: { (first.parts ≡ 1) × (first.amount ≡ opened) × (opened ≡ A.opened) },
    ghost spare_is: { (spare.parts ≡ left) × (spare.amount ≡ 0) },
    ghost named: { held.name ≡ A.tied } by { names-prop held.name A.tied },
    ghost held_is: { held.knows.durable ≡ durable_part shared.desk } by { durable-prop held.knows.durable (durable_part shared.desk) },
    ghost flies: { held.knows.flying ≡ flying_part shared.desk } by { flying-prop held.knows.flying (flying_part shared.desk) },
    ghost fails: { held.knows.failed ≡ shared.desk.view.failed },
    ghost done: { held.knows.done ≡ true → is_done shared.desk ≡ true },
    ghost next_is: { IsNextArea shared.desk.view.state } by { IsNextArea-prop shared.desk.view.state },
}

impl<A: NodeLedger> Locked<A> {
    /// Opens the ledger, counts what the desk has, and lets the tie know what of it is durable.
    pub(crate) fn new(desk: Desk, blanks: Blanks) -> (Locked<A>, Tie<A>)
        requires member { desk.view.member ≡ A.member }
        requires opening { desk.opening ≡ A.opening }
        requires none { desk.view.state.checkpoint ≡ None }
        requires idle { desk.view.state.flying ≡ desk.view.state.durable }
        requires open { is_over desk ≡ false }
        requires opened { desk.opening.inputs + length desk.view.state.inputs ≡ A.opened }
        requires accepted { ForAccepted blanks A.name A.parts }
        requires tied { ForTie blanks A.tied }
        ensures desk { result.0.shared.desk ≡ desk }
        ensures places { result.0.left ≡ places_of blanks }
        ensures known { known_by result.1 ≡ durable_part desk }
        ensures durable { length (known_by result.1).inputs ≡ desk.view.state.durable }
        ensures free { objection_to result.1 ≡ None }
    {
        let Blanks {
            places,
            accepted,
            mut held,
            mut known,
        } = blanks;
        let (mut accepted, mut spare) = accepted.open::<A>();
        let mut first = spare.split_off(1, 0);
        let opened = desk.accepted();
        accepted.add(&mut first, opened);
        follow(&mut held, &mut known, &desk);
        let locked = Locked {
            shared: SharedDesk { desk },
            accepted,
            first,
            opened,
            spare,
            left: places,
            places: Places::new(places),
            held,
            is_wanted: false,
        };
        let tie = Tie {
            known,
            of: PhantomData,
        };
        (locked, tie)
    }

    /// A share that counts nothing yet. Refused as 6 where no place is left.
    pub(crate) fn enter(&mut self) -> Result<Share<A>, Refusal>
        ensures count { IfOk result (λ share. count_of share ≡ 0) }
        ensures left { OnOk result (self.new.left + 1 ≡ self.old.left) }
        ensures none { IfErr result (λ refusal. (refusal ≡ Refusal.Limit) × (self.old.left ≡ 0)) }
        ensures desk { self.new.shared.desk ≡ self.old.shared.desk }
    {
        if self.left == 0 {
            return Err(Refusal::Limit);
        }
        let Locked { spare, left, .. } = self;
        let token = spare.split_off(1, 0);
        *left -= 1;
        Ok(Share { count: 0, token })
    }

    /// As on the desk; the share counts an input that is accepted.
    pub(crate) fn submit(
        &mut self,
        share: &mut Share<A>,
        question: Request,
    ) -> Result<Ticket, Refusal>
        ensures submitted { IfOk result (λ ticket. IsSubmitted question self.old.shared.desk self.new.shared.desk (shown ticket)) }
        ensures free { OnOk result (objection self.old.shared.desk.view question ≡ None) }
        ensures refusal { IfErr result (λ refusal. (objection self.old.shared.desk.view question ≡ Some refusal)
            ⊎ ((objection self.old.shared.desk.view question ≡ None) × (refusal ≡ Refusal.OutOfMemory))) }
        ensures same { OnErr result (self.new.shared.desk ≡ self.old.shared.desk) }

        // The share counts what the desk accepted.
        ensures counted { count_of share.new + length self.old.shared.desk.view.state.inputs ≡ count_of share.old + length self.new.shared.desk.view.state.inputs }
        ensures left { self.new.left ≡ self.old.left }
    {
        let Locked {
            shared: SharedDesk { desk },
            accepted,
            ..
        } = self;
        let Share { count, token } = share;
        accepted.audit(token);
        let before = desk.accepted();
        match desk.submit(question) {
            Err(refusal) => Err(refusal),
            Ok(ticket) => {
                let more = desk.accepted() - before;
                accepted.add(token, more);
                *count += more;
                Ok(ticket)
            }
        }
    }

    /// As on the desk, with a token of the durable inputs that the reply rests on.
    pub(crate) fn redeem(
        &mut self,
        ticket: Ticket,
    ) -> Result<(Reply, Stub, Begun<A>), (Ticket, Refusal)>
        ensures redeemed { IsRedeemed self.old.shared.desk self.new.shared.desk ticket (told_of result (λ r. (r.0, r.1))) }
        ensures answer { IfOk result (λ r. (past : List Input) → IsPast A.member A.opening past → IsAnswer A.member past (begun_by r.2) r.1) }
        ensures begun { IfOk result (λ r. begun_by r.2 ≡ (durable_part self.old.shared.desk).inputs) }

        // A reply for want of room wants a checkpoint, until one is launched, and nothing else does.
        ensures wants { IfOk result (λ r. r.0 ≡ replied.Refused Refusal.Full → self.new.is_wanted ≡ true) }
        ensures alone { IfOk result (λ r. self.new.is_wanted ≡ true → (self.old.is_wanted ≡ true) ⊎ (r.0 ≡ replied.Refused Refusal.Full)) }
        ensures wanted { self.old.is_wanted ≡ true → self.new.is_wanted ≡ true }
        ensures unwanted { OnErr result (self.new.is_wanted ≡ self.old.is_wanted) }
    {
        match self.shared.desk.redeem(ticket) {
            Ok((reply, stub)) => {
                self.is_wanted |= is_for_room(&reply);
                Ok((reply, stub, self.tell()))
            }
            Err(refused) => Err(refused),
        }
    }

    /// A token of what is durable.
    fn tell(&mut self) -> Begun<A>
        ensures begun { begun_by result ≡ (durable_part self.old.shared.desk).inputs }
        ensures desk { self.new.shared.desk ≡ self.old.shared.desk }
        ensures wanted { self.new.is_wanted ≡ self.old.is_wanted }
    {
        let mark = tell(&mut self.held);
        Begun {
            mark,
            of: PhantomData,
        }
    }

    /// As on the desk, which may take requests; the ticket ends in every case.
    pub(crate) fn forfeit(&mut self, ticket: Ticket) -> Result<(), Refusal>
        ensures { IsEnded self.old.shared.desk self.new.shared.desk ticket result }
    {
        self.shared.forfeit(ticket)
    }

    /// A checkpoint where one is due, or is wanted and frees room, and the desk takes requests or something waits, and else a
    /// batch, as on the desk. It fits a journal of the node that has what the tie knows. What was refused before wants none
    /// behind a checkpoint.
    pub(crate) fn launch(&mut self, tie: &mut Tie<A>) -> Result<Option<Work>, Refusal>
        ensures tied { IsLaunched tie.old tie.new result }
        ensures done { IfOk result (λ some. IfNone some (is_resting self.old.is_wanted self.old.shared.desk ≡ false → (view_by tie.new).done ≡ true)) }
        ensures work { IfOk result (λ some. MatchOption some (IsNoWork self.old.is_wanted self.old.shared.desk) (IsWorkOf self.old.is_wanted self.old.shared.desk self.new.shared.desk)) }
        ensures desk { OnOk result (self.new.shared.desk ≡ launched_next self.old.is_wanted self.old.shared.desk) }
        ensures wanted { self.new.is_wanted ≡ stays_wanted self.old.is_wanted result }
        ensures free { OnOk result (launch_objection self.old.shared.desk.view ≡ None) }
        ensures refusal { IfErr result (IsUnlaunched self.old.shared.desk) }
        ensures same { OnErr result (self.new.shared.desk ≡ self.old.shared.desk) }
    {
        let Locked {
            shared: SharedDesk { desk },
            accepted,
            first,
            held,
            is_wanted,
            ..
        } = self;
        let Tie { known, .. } = tie;
        // Its inputs are those of the opening, and more.
        accepted.audit(first);
        let launched = desk.launch_next(*is_wanted);
        follow(held, known, desk);
        *is_wanted = stays_wanted(*is_wanted, &launched);
        launched
    }

    /// As on the desk; the tie knows what became durable.
    pub(crate) fn land(
        &mut self,
        tie: &mut Tie<A>,
        receipt: Receipt,
    ) -> Result<Landed, (Receipt, Refusal)>
        ensures tied { IsLanded tie.old tie.new receipt result }
        ensures flying { OnOk result (IsFlying self.old.shared.desk (receipted receipt)) }
        ensures works { OnOk result (self.old.shared.desk.view.failed ≡ false) }
        ensures packets { IfOk result (λ landed. (past : List Input) → IsPast A.member A.opening past
            → landed.packets.items ≡ packets A.member.node (durable_in (seen past self.old.shared.desk).state) (receipted receipt).inputs) }
        ensures notices { IfOk result (λ landed. (past : List Input) → IsPast A.member A.opening past
            → landed.notices.items ≡ notices A.member.node (durable_in (seen past self.old.shared.desk).state) (receipted receipt).inputs) }
        ensures next { OnOk result (self.new.shared.desk ≡ record self.old.shared.desk { view = landed self.old.shared.desk.view }) }
        ensures foreign { OnErr result (IsFlying self.old.shared.desk (receipted receipt) → self.old.shared.desk.view.failed ≡ false → ⊥) }
        ensures same { OnErr result (self.new.shared.desk ≡ self.old.shared.desk) }
    {
        let Locked {
            shared: SharedDesk { desk },
            held,
            ..
        } = self;
        let Tie { known, .. } = tie;
        audit(held, known);
        match desk.land(receipt) {
            Err((receipt, refusal)) => Err((receipt, refusal)),
            Ok(landed) => {
                // Its state is lawful behind each past.
                let _accepted = desk.accepted();
                follow(held, known, desk);
                Ok(landed)
            }
        }
    }

    /// As on the desk; the tie knows it.
    pub(crate) fn fail(
        &mut self,
        tie: &mut Tie<A>,
        spoiled: Spoiled,
    ) -> Result<(), (Spoiled, Refusal)>
        ensures tied { IsFailed tie.old tie.new spoiled result }
        ensures flying { OnOk result (IsFlying self.old.shared.desk (lost spoiled)) }
        ensures next { OnOk result (self.new.shared.desk ≡ record self.old.shared.desk { view = record self.old.shared.desk.view { failed = true } }) }
        ensures foreign { OnErr result (IsFlying self.old.shared.desk (lost spoiled) → ⊥) }
        ensures same { OnErr result (self.new.shared.desk ≡ self.old.shared.desk) }
    {
        let Locked {
            shared: SharedDesk { desk },
            held,
            ..
        } = self;
        let Tie { known, .. } = tie;
        audit(held, known);
        match desk.fail(spoiled) {
            Err((spoiled, refusal)) => Err((spoiled, refusal)),
            Ok(()) => Ok(follow(held, known, desk)),
        }
    }

    /// As on the desk; the tie knows it.
    pub(crate) fn abandon(&mut self, tie: &mut Tie<A>)
        ensures next { self.new.shared.desk ≡ record self.old.shared.desk { view = record self.old.shared.desk.view { failed = true } } }
        ensures failed { (view_by tie.new).failed ≡ true }
        ensures tie { known_by tie.new ≡ known_by tie.old }
        ensures flies { (view_by tie.new).flying ≡ (view_by tie.old).flying }
        ensures left { self.new.left ≡ self.old.left }
        ensures wanted { self.new.is_wanted ≡ self.old.is_wanted }
    {
        let Locked {
            shared: SharedDesk { desk },
            held,
            ..
        } = self;
        let Tie { known, .. } = tie;
        desk.abandon();
        follow(held, known, desk);
    }

    /// As on the desk; nothing else is changed, no share, no tie and no list.
    pub(crate) fn close(&mut self)
        ensures next { self.new.shared.desk ≡ record self.old.shared.desk { view = record self.old.shared.desk.view { closed = true } } }
        ensures left { self.new.left ≡ self.old.left }
        ensures held { self.new.held ≡ self.old.held }
        ensures wanted { self.new.is_wanted ≡ self.old.is_wanted }
    {
        self.shared.desk.close();
    }

    /// As on the desk; nothing else is changed, no share, no tie and no list. The caller sees that the node is one of the ring.
    pub(crate) fn let_go(&mut self) -> Gone
        requires inside { IsNodeOf A.member.n A.member.node }
        ensures next { self.new.shared.desk ≡ let_go self.old.shared.desk }
        ensures count { result.count ≡ self.new.shared.desk.gone }
        ensures left { self.new.left ≡ self.old.left }
        ensures held { self.new.held ≡ self.old.held }
        ensures wanted { self.new.is_wanted ≡ self.old.is_wanted }
    {
        self.shared.desk.let_go()
    }

    /// As on the desk, with a token of the durable inputs that it rests on.
    pub(crate) fn window(&mut self) -> Result<(Vec<Packet>, Begun<A>), AllocError>
        ensures packets { IfOk result (λ r. (past : List Input) → IsPast A.member A.opening past → r.0.items ≡ window A.member.node (durable_in (seen past self.old.shared.desk).state)) }
        ensures lawful { IfOk result (λ r. IsWindow A.member A.opening (begun_by r.1) r.0.items) }
        ensures begun { IfOk result (λ r. begun_by r.1 ≡ (durable_part self.old.shared.desk).inputs) }
        ensures desk { self.new.shared.desk ≡ self.old.shared.desk }
        ensures wanted { self.new.is_wanted ≡ self.old.is_wanted }
    {
        let list = self.shared.desk.window()?;
        Ok((list, self.tell()))
    }
}

/// Whether a checkpoint stays wanted behind a launch: none is launched.
fn stays_wanted(is_wanted: bool, launched: &Result<Option<Work>, Refusal>) -> bool
    ensures { result ≡ stays_wanted is_wanted launched.now }
{
    is_wanted && !matches!(launched, Ok(Some(Work::Checkpoint(_))))
}

/// Whether it is a refusal for want of room.
fn is_for_room(reply: &Reply) -> bool
    ensures { IsTrue result ↔ (reply.now ≡ replied.Refused Refusal.Full) }
{
    matches!(reply, Reply::Refused(Refusal::Full))
}
