// The clients of a hub: each with a share of it and a reader of its board.
use crate::calls::{released, submits};
use crate::rows::{Leads, bid, group, key, latest, leader, reply};
use crate::slow::{Flags, await_flag};
use commit_hub::{Hub, NodeLedger, Share};
use decision_board::{Board, BoardReader, Naming};
use group_commit::Stub;
use ring_records::{Key, Refusal, Reply};
use ring_service::HubService;
use sessions::Service;
use std::process::Abort;
use std::sync::Wait;
use std::sync::atomic::{AtomicBool, Ordering};
use std::time::Clock;
use test_rows::{Ask, Cause, Say};

/// What a client does, and what comes of it.
#[derive(Clone, Copy)]
pub enum Act {
    /// It submits, and waits for this reply; where there is none it is told that the hub has failed.
    Appends(Ask, Option<Say>),
    /// The same, and what is held goes on once the input is accepted.
    AppendsAndFrees(Ask, Option<Say>),
    /// It reads that this leads the group, or nobody.
    Reads(&'static str, Option<Leads>),
    /// It waits until something is held.
    AwaitsHold,
    /// What is held goes on.
    Frees,
    /// By a service it stands for term 5 of the group twice, reads, and retires.
    StandsTwice(&'static str),
    /// By a service it gives up the terms of the group below 5, twice, and stands for term 4.
    GivesUp(&'static str),
    /// It reads that the term of the group is below this floor.
    IsBelow(&'static str, u32, u32),
}

/// A share, a reader, and the stub of the last reply, if there was one.
#[derive(Drop)]
pub struct Client<J: Naming, A: NodeLedger> {
    pub share: Share<A>,
    pub reader: BoardReader<J>,
    pub last: Option<Stub>,
}

impl<J: Naming, A: NodeLedger> Client<J, A> {
    /// A client of the hub and the board, which have a place left.
    pub fn enters<R: Wait + Abort>(rt: &R, hub: &Hub<A>, board: &Board<J>) -> Client<J, A> {
        Client {
            share: hub.enter(rt).expect(rt, "a place"),
            reader: board.reader().expect(rt, "a place"),
            last: None,
        }
    }

    /// Leaves its share, and the stub of the last reply, if there was one.
    pub fn leaves(self) -> (Share<A>, Option<Stub>) {
        let Client {
            share,
            reader,
            last,
        } = self;
        drop(reader);
        (share, last)
    }

    /// Does so, in turn.
    pub fn plays<R: Wait + Clock + Abort>(
        self,
        rt: &R,
        hub: &Hub<A>,
        flags: &Flags,
        acts: &[Act],
    ) -> Client<J, A> {
        let mut client = self;
        for act in acts {
            client = client.does(rt, hub, flags, *act);
        }
        client
    }

    fn does<R: Wait + Clock + Abort>(
        self,
        rt: &R,
        hub: &Hub<A>,
        flags: &Flags,
        act: Act,
    ) -> Client<J, A> {
        let mut client = self;
        match act {
            Act::Appends(ask, say) => client.appends(rt, hub, ask, say, None),
            Act::AppendsAndFrees(ask, say) => {
                client.appends(rt, hub, ask, say, Some(&flags.freed));
            }
            Act::Reads(name, leads) => client.reads(rt, name, leads),
            Act::AwaitsHold => assert!(rt; await_flag(rt, &flags.held)),
            Act::Frees => flags.freed.store(true, Ordering::SeqCst),
            Act::StandsTwice(name) => return client.stands_twice(rt, hub, name),
            Act::GivesUp(name) => return client.gives_up(rt, hub, name),
            Act::IsBelow(name, term, floor) => client.is_below(rt, name, term, floor),
        }
        client
    }

    fn appends<R: Wait + Abort>(
        &mut self,
        rt: &R,
        hub: &Hub<A>,
        ask: Ask,
        say: Option<Say>,
        accepted: Option<&AtomicBool>,
    ) {
        let ticket = submits(rt, hub, &mut self.share, ask);
        if let Some(accepted) = accepted {
            accepted.store(true, Ordering::SeqCst);
        }
        match released(rt, hub, ticket) {
            Ok(stub) => self.keeps(rt, stub, say),
            Err(refusal) => assert!(rt; refusal == Refusal::Failed && say.is_none()),
        }
    }

    /// Keeps the stub of this reply, which there was to be.
    fn keeps(&mut self, rt: &impl Abort, stub: Stub, say: Option<Say>) {
        let said = say.expect(rt, "a reply");
        assert!(rt; stub.reply() == reply(rt, said));
        self.last = Some(stub);
    }

    /// The reader is told that this leads the group, or nobody.
    pub fn reads(&mut self, rt: &impl Abort, name: &str, leads: Option<Leads>) {
        assert!(rt; self.reader.latest(&group(rt, name)) == latest(rt, leads));
    }

    /// The reader is told that this leads the group in the term.
    pub fn knows(&mut self, rt: &impl Abort, name: &str, term: u32, bid: u32, node: u8) {
        assert!(rt; self.reader.who(&key(rt, name, term)) == leader(rt, bid, node));
    }

    /// The reader is told that the term of the group is below this floor.
    pub fn is_below(&mut self, rt: &impl Abort, name: &str, term: u32, floor: u32) {
        let floor = key(rt, name, floor).term;
        assert!(rt; self.reader.who(&key(rt, name, term)) == Err(Refusal::Retired(floor)));
    }

    /// Gives up the terms below 5, of which the group has a leader: a second time, and as it stands for term 4, it is refused.
    fn gives_up<'a, R: Wait + Abort>(self, rt: &'a R, hub: &'a Hub<A>, name: &str) -> Client<J, A> {
        let mut service = self.serves(rt, hub);
        let (floor, below) = (key(rt, name, 5), key(rt, name, 4));
        retires(rt, &mut service, &floor, Say::Retired);
        retires(rt, &mut service, &floor, BELOW);
        stands(rt, &mut service, &below, BELOW);
        Client::served(service)
    }

    /// By a service it stands twice with bid 10, reads, and retires.
    fn stands_twice<R: Wait + Abort>(self, rt: &R, hub: &Hub<A>, name: &str) -> Client<J, A> {
        let mut service = self.serves(rt, hub);
        asks_twice(rt, &mut service, name);
        assert!(rt; is_of(service.last(), reply(rt, EARLY)));
        Client::served(service)
    }

    /// A service in its place, which has released nothing yet.
    fn serves<'a, R: Wait>(self, rt: &'a R, hub: &'a Hub<A>) -> HubService<'a, R, J, A> {
        let Client {
            share,
            reader,
            last,
        } = self;
        drop(last);
        HubService::new(rt, hub, share, reader)
    }

    /// The client that such a service served.
    fn served<R>(service: HubService<'_, R, J, A>) -> Client<J, A> {
        let (share, reader, last) = service.into_parts();
        let last = match last {
            Some((stub, _begun)) => Some(stub),
            None => None,
        };
        Client {
            share,
            reader,
            last,
        }
    }
}

/// Whether there is a stub, of this reply.
fn is_of(stub: Option<&Stub>, reply: Reply) -> bool {
    match stub {
        Some(stub) => stub.reply() == reply,
        None => false,
    }
}

/// What a second Stand with bid 10 is answered.
const AGAIN: Say = Say::Refused(Cause::Already(10));

/// What a Retire is answered where no leader is known.
const EARLY: Say = Say::Refused(Cause::Undecided);

const BELOW: Say = Say::Refused(Cause::Retired(5));

/// Stands with bid 10 for this term, and is answered so.
fn stands<J: Naming, A: NodeLedger, R: Wait + Abort>(
    rt: &R,
    service: &mut HubService<'_, R, J, A>,
    key: &Key,
    say: Say,
) {
    let answer = service.stand(*key, bid(rt, 10));
    assert!(rt; answer == Ok(reply(rt, say)));
}

/// Gives up the terms below this one, and is answered so.
fn retires<J: Naming, A: NodeLedger, R: Wait + Abort>(
    rt: &R,
    service: &mut HubService<'_, R, J, A>,
    key: &Key,
    say: Say,
) {
    let answer = service.retire(&key.group, key.term);
    assert!(rt; answer == Ok(reply(rt, say)));
}

/// No leader is known of the group.
fn knows_nobody<J: Naming, A: NodeLedger, R: Wait + Abort>(
    rt: &R,
    service: &mut HubService<'_, R, J, A>,
    key: &Key,
) {
    assert!(rt; service.who(key) == Ok(reply(rt, Say::Nobody)));
    assert!(rt; service.latest(&key.group) == Ok(reply(rt, Say::NoTerm)));
}

/// Stands twice with bid 10: the second is refused, and no leader is known, so no floor is taken.
fn asks_twice<J: Naming, A: NodeLedger, R: Wait + Abort>(
    rt: &R,
    service: &mut HubService<'_, R, J, A>,
    name: &str,
) {
    let key = key(rt, name, 5);
    stands(rt, service, &key, Say::Stood);
    stands(rt, service, &key, AGAIN);
    assert!(rt; is_of(service.last(), reply(rt, AGAIN)));
    knows_nobody(rt, service, &key);
    retires(rt, service, &key, EARLY);
}
