// Calls of hubs that go well, or are refused as they are to be, and what these calls need.
ghost use Rattle.std.specs.Prelude.{◌≡◌};
ghost use Rattle.ring_records.specs.Snapshot.{IsSound};
ghost use Rattle.gated_journal.specs.Batch.{base_by};
ghost use Rattle.gated_journal.specs.Journal.{member_of};

use crate::calls::refused;
use crate::hub::rows::{No, broken_journal, journal_of};
use crate::rows::{node, request};
use commit_hub::{Hub, NodeLedger, Share, Tie, Work};
use disk_model::{Device, MemDevice};
use gated_journal::{Batch, Checkpoint, Journal, Receipt, Spoiled};
use group_commit::{Desk, Ticket};
use ring_records::{Input, Refusal};
use std::alloc::AllocGlobal;
use std::process::Abort;
use std::sync::Wait;
use test_rows::{Ask, Op, Say};

pub fn asks<A: NodeLedger, R: Wait + Abort>(
    rt: &R,
    hub: &Hub<A>,
    share: &mut Share<A>,
    ask: Ask,
) -> Ticket {
    let question = request(rt, ask);
    hub.submit(rt, share, question).expect(rt, "a ticket")
}

/// The ticket is of this request, and of this number.
pub fn is_of(rt: &impl Abort, ticket: &Ticket, ask: Ask, number: u64) {
    assert!(rt; ticket.question() == request(rt, ask));
    assert!(rt; ticket.number() == number);
}

pub fn keeps_ticket(rt: &impl Abort, tickets: &mut Vec<Ticket>, ticket: Ticket) {
    match tickets.push(ticket) {
        Ok(()) => {}
        Err(_ticket) => panic!(rt; "ample memory"),
    }
}

/// The request gets a ticket, which is refused and ends.
pub fn takes<A: NodeLedger, R: Wait + Abort>(rt: &R, hub: &Hub<A>, share: &mut Share<A>, ask: Ask) {
    let ticket = asks(rt, hub, share, ask);
    forfeits(rt, hub, ticket);
}

/// The request is refused for this cause.
pub fn refuses<A: NodeLedger, R: Wait + Abort>(
    rt: &R,
    hub: &Hub<A>,
    share: &mut Share<A>,
    ask: Ask,
    no: No,
) {
    match hub.submit(rt, share, request(rt, ask)) {
        Ok(_ticket) => panic!(rt; "a ticket"),
        Err(refusal) => assert!(rt; refusal == no.refusal()),
    }
}

pub fn redeems<A: NodeLedger, R: Wait + Abort>(rt: &R, hub: &Hub<A>, ticket: Ticket) {
    match hub.redeem_wait(rt, ticket) {
        Ok((reply, stub, _begun)) => assert!(rt; stub.reply() == reply),
        Err((_ticket, refusal)) => refused(rt, refusal),
    }
}

/// The ticket is redeemed with this reply.
pub fn says<A: NodeLedger, R: Wait + Abort>(rt: &R, hub: &Hub<A>, ticket: Ticket, say: Say) {
    let want = say.reply().expect(rt, "a reply");
    match hub.redeem_wait(rt, ticket) {
        Ok((reply, stub, _begun)) => assert!(rt; reply == want && stub.reply() == want),
        Err((_ticket, refusal)) => refused(rt, refusal),
    }
}

/// The hub has failed: the ticket is refused, and forfeited.
pub fn fails<A: NodeLedger, R: Wait + Abort>(rt: &R, hub: &Hub<A>, ticket: Ticket) {
    match hub.redeem_wait(rt, ticket) {
        Ok(_) => panic!(rt; "redeemed"),
        Err((ticket, refusal)) => has_failed(rt, hub, ticket, refusal),
    }
}

/// The ticket that was refused since the hub has failed is forfeited.
fn has_failed<A: NodeLedger, R: Wait + Abort>(
    rt: &R,
    hub: &Hub<A>,
    ticket: Ticket,
    refusal: Refusal,
) {
    assert!(rt; refusal == Refusal::Failed);
    assert!(rt; hub.forfeit(rt, ticket).is_ok());
}

/// The ticket is no open one of the hub, or the hub takes requests.
pub fn forfeits<A: NodeLedger, R: Wait + Abort>(rt: &R, hub: &Hub<A>, ticket: Ticket) {
    assert!(rt; hub.forfeit(rt, ticket) == Err(Refusal::Foreign));
}

/// Nothing is launched, for this cause; where there is none, since nothing waits.
pub fn launches_none<A: NodeLedger, R: Wait + Abort>(
    rt: &R,
    hub: &Hub<A>,
    tie: &mut Tie<A>,
    no: Option<No>,
) {
    match hub.launch(rt, tie) {
        Ok(Some(_work)) => panic!(rt; "work"),
        Ok(None) => assert!(rt; no.is_none()),
        Err(refusal) => is_no(rt, refusal, no),
    }
}

/// The refusal is of this cause.
fn is_no(rt: &impl Abort, refusal: Refusal, no: Option<No>) {
    match no {
        Some(no) => assert!(rt; refusal == no.refusal()),
        None => refused(rt, refusal),
    }
}

pub fn launches<A: NodeLedger, R: Wait + Abort>(rt: &R, hub: &Hub<A>, tie: &mut Tie<A>) -> Batch {
    match hub.launch(rt, tie) {
        Ok(Some(Work::Batch(batch))) => batch,
        Ok(Some(Work::Checkpoint(_made))) => panic!(rt; "a checkpoint"),
        Ok(None) => panic!(rt; "nothing waits"),
        Err(refusal) => refused(rt, refusal),
    }
}

/// Commits the batch, which is the journal's next.
pub fn commit<V: Device>(
    rt: &impl Abort,
    journal: &mut Journal<V>,
    batch: Batch,
) -> Result<Receipt, Spoiled>
    ensures { member_of journal.new ≡ member_of journal.old }
{
    assert!(rt; !journal.is_spoiled());
    assert!(rt; batch.node() == journal.node());
    assert!(rt; batch.first() == journal.len());
    assert!(rt; journal.room() >= batch.cost());
    assert!(rt; journal.suits(batch.inputs()));
    journal.commit(batch)
}

pub fn commits<R: Abort>(rt: &R, journal: &mut Journal<MemDevice>, batch: Batch) -> Receipt
    ensures { member_of journal.new ≡ member_of journal.old }
{
    match commit(rt, journal, batch) {
        Ok(receipt) => receipt,
        Err(_spoiled) => panic!(rt; "spoiled"),
    }
}

/// So many inputs land.
pub fn lands<A: NodeLedger, R: Wait + Abort>(
    rt: &R,
    hub: &Hub<A>,
    tie: &mut Tie<A>,
    receipt: Receipt,
    count: u64,
) {
    match hub.land(rt, tie, receipt) {
        Ok(landed) => {
            assert!(rt; landed.count == count);
            drop(landed);
        }
        Err((_receipt, refusal)) => refused(rt, refusal),
    }
}

/// The checkpoint that is due or needed. The node is one of a ring of 3.
pub fn launches_all<A: NodeLedger, R: Wait + Abort>(
    rt: &R,
    hub: &Hub<A>,
    tie: &mut Tie<A>,
) -> Checkpoint
    requires ring { A.member.n ≡ 3 }
    ensures { IsSound 3 (base_by result) }
{
    match hub.launch(rt, tie) {
        Ok(Some(Work::Checkpoint(made))) => {
            assert!(rt; made.node().number() <= 3);
            made
        }
        Ok(Some(Work::Batch(_batch))) => panic!(rt; "a batch"),
        Ok(None) => panic!(rt; "nothing waits"),
        Err(refusal) => refused(rt, refusal),
    }
}

/// Makes the checkpoint, which is the journal's next.
pub fn replaces<R: Abort>(rt: &R, journal: &mut Journal<MemDevice>, made: Checkpoint) -> Receipt
    requires ring { (member_of journal.old).n ≡ 3 }
    requires sound { IsSound 3 (base_by made) }
    ensures { member_of journal.new ≡ member_of journal.old }
{
    assert!(rt; !journal.is_spoiled());
    assert!(rt; made.node() == journal.node());
    assert!(rt; made.first() == journal.len());
    assert!(rt; made.cost() <= journal.capacity());
    assert!(rt; journal.epoch() < (1 << 40) - 1);
    match journal.checkpoint(made) {
        Ok(receipt) => receipt,
        Err(_spoiled) => panic!(rt; "spoiled"),
    }
}

pub fn keeps<A: NodeLedger, R: Abort>(rt: &R, shares: &mut Vec<Share<A>>, share: Share<A>) {
    match shares.push(share) {
        Ok(()) => {}
        Err(_share) => panic!(rt; "ample memory"),
    }
}

/// The desk of the hub, which these shares settle.
pub fn settled<A: NodeLedger, R: Abort>(rt: &R, hub: Hub<A>, shares: Vec<Share<A>>) -> Desk {
    match hub.settle(shares) {
        Ok(desk) => desk,
        Err(_) => panic!(rt; "not settled"),
    }
}

/// The input of another journal.
pub fn other_input(rt: &impl Abort) -> Input {
    Op::Stand("blue", 1, 3).input().expect(rt, "an input")
}

/// The batch of another journal.
pub fn other_batch<R: Abort + AllocGlobal>(rt: &R) -> Batch {
    let inputs = [other_input(rt)];
    Batch::new(rt.alloc(), node(rt, 1), 0, &inputs).expect(rt, "one input")
}

/// What a device made of a batch: it failed.
pub fn spoils<R: Abort + AllocGlobal>(rt: &R, batch: Batch) -> Spoiled {
    match commit(rt, &mut broken_journal(rt), batch) {
        Ok(_receipt) => panic!(rt; "committed"),
        Err(spoiled) => spoiled,
    }
}

/// The receipt of another journal's batch is refused, and comes back.
pub fn lands_another<A: NodeLedger, R: Wait + Abort + AllocGlobal>(
    rt: &R,
    hub: &Hub<A>,
    tie: &mut Tie<A>,
) {
    let foreign = commits(rt, &mut journal_of(rt), other_batch(rt));
    match hub.land(rt, tie, foreign) {
        Ok(_landed) => panic!(rt; "landed"),
        Err((receipt, refusal)) => {
            assert!(rt; refusal == Refusal::Foreign);
            assert!(rt; receipt.inputs() == [other_input(rt)].as_slice());
            receipt.into_parts();
        }
    }
}

/// The spoiled batch of another journal is refused, and comes back.
pub fn spoils_another<A: NodeLedger, R: Wait + Abort + AllocGlobal>(
    rt: &R,
    hub: &Hub<A>,
    tie: &mut Tie<A>,
) {
    match hub.fail(rt, tie, spoils(rt, other_batch(rt))) {
        Ok(()) => panic!(rt; "failed"),
        Err((spoiled, refusal)) => {
            assert!(rt; refusal == Refusal::Foreign);
            assert!(rt; spoiled.inputs() == [other_input(rt)].as_slice());
            spoiled.into_parts();
        }
    }
}
