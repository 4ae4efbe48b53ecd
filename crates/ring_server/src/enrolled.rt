//! A service whose client is known to be there.
ghost use Rattle.sessions.specs.Commands.{request_of};

use crate::event::Event;
use crate::links::Links;
use ring_records::{Bid, GroupName, Key, Refusal, Reply, Term};
use ring_service::is_for_room;
use sessions::{Question, Service};
use std::sync::Wait;

/// A service at this door of a node, which tells where an operator is answered for what its client stood, until the session
/// ends, and has it told that the node is full where a client is refused for room.
#[derive(Drop)]
pub(crate) struct EnrolledService<'a, R, S: Service> {
    rt: &'a R,
    links: &'a Links<'a>,
    door: u32,
    service: S,
}

impl<'a, R: Wait, S: Service> EnrolledService<'a, R, S> {
    /// In front of this one.
    pub(crate) fn new(
        rt: &'a R,
        links: &'a Links<'a>,
        door: u32,
        service: S,
    ) -> EnrolledService<'a, R, S> {
        EnrolledService {
            rt,
            links,
            door,
            service,
        }
    }

    /// The node stands for its client.
    fn enrol(&self, key: &Key) {
        if let Some(reception) = self.links.reception {
            reception.enrol(self.rt, self.links.node, self.door, *key);
        }
    }

    /// The node gave up the terms of the group below this floor.
    fn retire_known(&self, group: &GroupName, floor: Term) {
        if let Some(reception) = self.links.reception {
            reception.retire(self.rt, self.links.node, group, floor);
        }
    }

    /// What a client was answered to a Stand.
    fn hear_stand(&self, key: &Key, bid: Bid, answer: &Result<Reply, Refusal>) {
        if is_own(answer, bid) {
            self.enrol(key);
        }
        if is_for_room(answer) {
            self.links.fill(self.rt);
        }
        if matches!(answer, Ok(Reply::Refused(Refusal::Limit))) {
            self.links.limit(self.rt);
        }
        if matches!(answer, Ok(Reply::Stood)) {
            self.links.watch.ease(self.rt, self.links.node);
        }
    }

    /// What a client was answered to a Retire.
    fn hear_retire(&self, group: &GroupName, floor: Term, answer: &Result<Reply, Refusal>) {
        if matches!(answer, Ok(Reply::Retired)) {
            self.retire_known(group, floor);
            let event = Event::Retired(self.links.node, *group, floor);
            self.links.watch.hear(self.rt, event);
        }
    }

    /// The session has ended.
    pub(crate) fn withdraw(&self) {
        if let Some(reception) = self.links.reception {
            reception.withdraw(self.rt, self.links.node, self.door);
        }
    }

    /// What it stood in front of.
    pub(crate) fn into_service(self) -> S {
        self.service
    }
}

impl<R: Wait, S: Service> EnrolledService<'_, R, S> {
    /// Asks the service behind it, and tells who is to hear of the answer.
    fn ask_and_hear(&mut self, question: &Question) -> Result<Reply, Refusal>
        ensures { S.answers self.old.service (request_of question.now) result self.new.service }
    {
        let answer = self.service.ask(*question);
        match question {
            Question::Stand(key, bid) => self.hear_stand(key, *bid, &answer),
            Question::Retire(group, floor) => self.hear_retire(group, *floor, &answer),
            Question::Who(_) | Question::Latest(_) => {}
        }
        answer
    }
}

/// Whether the answer says that its node stands with this bid.
fn is_own(answer: &Result<Reply, Refusal>, bid: Bid) -> bool {
    match answer {
        Ok(Reply::Stood) => true,
        Ok(Reply::Refused(Refusal::Already(other))) => *other == bid,
        _ => false,
    }
}

impl<R: Wait, S: Service> Service for EnrolledService<'_, R, S> {
    ghost answers = { λ before asked answer after. S.answers before.service asked answer after.service };

    fn ask(&mut self, question: Question) -> Result<Reply, Refusal> {
        self.ask_and_hear(&question)
    }
}
