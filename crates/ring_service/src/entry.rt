//! What stands between the clients of a node and its hub.
ghost use Rattle.std.specs.Prelude.{◌≡◌, ◌↔◌, ◌+◌, ◌≤◌, ◌&&◌, IsTrue, Ok, Some, None, if◌then◌else◌, nat_lt};
ghost use Rattle.ring_records.specs.declared.reply.Reply.TheVariants as replied;
ghost use Rattle.ring_service.specs.Entry.{EntryAnswers, IsAsked, IsStand, latest_in, objection_to};
ghost use Rattle.sessions.specs.Commands.{request_of};

use commit_hub::{Hub, Look, NodeLedger};
use ring_records::{Bid, Key, Refusal, Reply, Term};
use sessions::{Question, Service};
use std::sync::Wait;

/// A service in front of that of a hub. A Stand is refused here, and the hub not asked, as 28 where its term is more than
/// the leap above the latest that the node knows for the group, 0 where it knows none, and as 7 where the Stand and its
/// messages would leave less than the reserve free behind a checkpoint; a hub that has failed or is closed is asked. What the
/// hub refuses as 7 is asked once more, behind the checkpoint that the refusal wanted.
#[derive(Drop)]
pub struct EntryService<'a, R, A: NodeLedger, S: Service> {
    rt: &'a R,
    hub: &'a Hub<A>,
    leap: u32,
    service: S,
    ghost bounded: { leap ≤ 999999999 },
}

/// The term that a client may stand for at most, where this one is further above the latest than the leap; a leap of 0 is
/// for no bound.
fn farthest(leap: u32, latest: u32, term: Term) -> Option<Term>
    requires { (leap ≤ 999999999) × (latest ≤ 999999999) }
    ensures { result ≡ (if nat_lt 0 leap && nat_lt (latest + leap) term then Some (latest + leap) else None) }
{
    let most = latest + leap;
    if leap == 0 || most >= term.number() {
        return None;
    }
    Term::new(most).ok()
}

/// Why a Stand for this term is not asked of the hub, which shows this. A hub that has failed or is closed says so itself.
fn objection_to(leap: u32, latest: u32, look: &Look, term: Term) -> Option<Refusal>
    requires { (leap ≤ 999999999) × (latest ≤ 999999999) }
    ensures { result ≡ objection_to leap latest look.now term }
{
    if !look.is_open {
        return None;
    }
    if let Some(most) = farthest(leap, latest, term) {
        return Some(Refusal::TooFar(most));
    }
    if look.takes_stands() {
        None
    } else {
        Some(Refusal::Full)
    }
}

/// The latest term that the answer names, 0 where it names none.
fn latest_in(answer: &Result<Reply, Refusal>) -> u32
    ensures value { result ≡ latest_in answer.now }
    ensures range { result ≤ 999999999 }
{
    match answer {
        Ok(Reply::Latest(Some((term, _)))) => term.number(),
        _ => 0,
    }
}

/// Whether an answer is a refusal for want of room.
pub fn is_for_room(answer: &Result<Reply, Refusal>) -> bool
    ensures { IsTrue result ↔ (answer.now ≡ Ok (replied.Refused Refusal.Full)) }
{
    matches!(answer, Ok(Reply::Refused(Refusal::Full)))
}

impl<'a, R, A: NodeLedger, S: Service> EntryService<'a, R, A, S> {
    /// In front of this service of the hub.
    pub fn new(rt: &'a R, hub: &'a Hub<A>, leap: u32, service: S) -> EntryService<'a, R, A, S>
        requires { leap ≤ 999999999 }
        ensures leap { result.leap ≡ leap }
        ensures service { result.service ≡ service }
    {
        EntryService {
            rt,
            hub,
            leap,
            service,
        }
    }

    /// What it stood in front of.
    pub fn into_service(self) -> S
        ensures { result ≡ self.entry.service }
    {
        self.service
    }
}

impl<'a, R: Wait, A: NodeLedger, S: Service> EntryService<'a, R, A, S> {
    // Asks this, once more behind a refusal for room.
    fn ask_for_room(&mut self, question: &Question) -> Result<Reply, Refusal>
        ensures asked { IsAsked S.answers self.old.service (request_of question.now) result self.new.service }
        ensures leap { self.new.leap ≡ self.old.leap }
    {
        let first = self.service.ask(*question);
        if !is_for_room(&first) {
            return first;
        }
        self.hub.wait_for_room(self.rt);
        self.service.ask(*question)
    }

    // Refuses a Stand, or asks it.
    fn decide_stand(&mut self, key: Key, bid: Bid) -> Result<Reply, Refusal>
        ensures decided { IsStand S.answers A.member A.opening self.old.leap self.old.service key bid result self.new.service }
        ensures leap { self.new.leap ≡ self.old.leap }
    {
        let told = self.service.latest(&key.group);
        let look = self.hub.look(self.rt);
        match objection_to(self.leap, latest_in(&told), &look, key.term) {
            Some(refusal) => Ok(Reply::Refused(refusal)),
            None => self.ask_for_room(&Question::Stand(key, bid)),
        }
    }
}

impl<'a, R: Wait, A: NodeLedger, S: Service> Service for EntryService<'a, R, A, S> {
    ghost answers = { λ before asked answer after. (after.leap ≡ before.leap) × EntryAnswers S.answers A.member A.opening before.leap before.service asked answer after.service };

    fn ask(&mut self, question: Question) -> Result<Reply, Refusal> {
        match question {
            Question::Stand(key, bid) => self.decide_stand(key, bid),
            Question::Retire(_, _) => self.ask_for_room(&question),
            Question::Who(_) | Question::Latest(_) => self.service.ask(question),
        }
    }
}
