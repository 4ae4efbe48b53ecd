//! A service over a hub and the board of its node.
ghost use Rattle.std.specs.Prelude.{◌≡◌, false, Some, None, is_some, IfErr, IfOk, IfSome};
ghost use Rattle.ring_records.specs.Outside.{is_outside};
ghost use Rattle.decision_board.specs.Readers.{seen};

use commit_hub::{Begun, Hub, NodeLedger, Share};
use decision_board::{BoardReader, Naming, Told};
use group_commit::Stub;
use ring_records::{GroupName, Key, Refusal, Reply, Request};
use sessions::{Question, Service};
use std::sync::Wait;

/// A service over a node that other threads use too. It stands and retires by the hub, with a share of its own, and waits
/// until the reply is released; it reads leaders from the board, whose reads take no handle to wait. A Stand and a Retire
/// are refused as 9 where the hub is closed or has failed, as 6 and as 8; a read as 20 after the board's end.
#[derive(Drop)]
pub struct HubService<'a, R, J: Naming, A: NodeLedger> {
    rt: &'a R,
    hub: &'a Hub<A>,
    share: Share<A>,
    reader: BoardReader<J>,
    last: Option<(Stub, Begun<A>)>,
}

impl<'a, R, J: Naming, A: NodeLedger> HubService<'a, R, J, A> {
    ghost use Rattle.ring_service.specs.Services.{share_of, reader_of, last_of, begun_of, stub_in, begun_in};

    /// A service that has released nothing yet.
    pub fn new(
        rt: &'a R,
        hub: &'a Hub<A>,
        share: Share<A>,
        reader: BoardReader<J>,
    ) -> HubService<'a, R, J, A>
        ensures share { share_of result ≡ share }
        ensures reader { reader_of result ≡ reader }
        ensures last { last_of result ≡ None }
        ensures begun { begun_of result ≡ None }
    {
        HubService {
            rt,
            hub,
            share,
            reader,
            last: None,
        }
    }

    /// The stub of the last reply to a Stand or a Retire, if there was one.
    pub fn last(&self) -> Option<&Stub>
        ensures some { is_some result ≡ is_some (last_of self.now) }
        ensures stub { IfSome result (λ stub. last_of self.now ≡ Some stub.now) }
    {
        match &self.last {
            Some((stub, _)) => Some(stub),
            None => None,
        }
    }

    /// What its reader of the board saw last, by which its last read was answered. The flusher of its hub covers it.
    pub fn saw(&self) -> Told<J>
        ensures { result ≡ seen (reader_of self.now) }
    {
        self.reader.saw()
    }

    /// Ends it. The last stub comes with the token of what its reply rests on.
    pub fn into_parts(self) -> (Share<A>, BoardReader<J>, Option<(Stub, Begun<A>)>)
        ensures share { result.0 ≡ share_of self.entry }
        ensures reader { result.1 ≡ reader_of self.entry }
        ensures last { stub_in result.2 ≡ last_of self.entry }
        ensures begun { begun_in result.2 ≡ begun_of self.entry }
    {
        let HubService {
            share,
            reader,
            last,
            ..
        } = self;
        (share, reader, last)
    }
}

impl<'a, R: Wait, J: Naming, A: NodeLedger> HubService<'a, R, J, A> {
    ghost use Rattle.ring_service.specs.Services.{IsReleased, IsUnreleased};

    // Asks the hub for what is no question for leaders, and waits.
    fn ask_hub(&mut self, question: Request) -> Result<Reply, Refusal>
        requires { is_outside A.member.n question ≡ false }
        ensures reply { IfOk result (λ reply. IsReleased A.member A.opening self.old question reply self.new) }
        ensures refusal { IfErr result (λ why. IsUnreleased self.old why self.new) }
    {
        match self.hub.submit(self.rt, &mut self.share, question) {
            Err(refusal) => Err(refusal),
            Ok(ticket) => match self.hub.redeem_wait(self.rt, ticket) {
                Ok((reply, stub, begun)) => {
                    self.last = Some((stub, begun));
                    Ok(reply)
                }
                Err((ticket, refusal)) => {
                    let _ = self.hub.forfeit(self.rt, ticket);
                    Err(refusal)
                }
            },
        }
    }
}

impl<'a, R, J: Naming, A: NodeLedger> HubService<'a, R, J, A> {
    ghost use Rattle.ring_records.specs.declared.request.Request.TheVariants as ask;
    ghost use Rattle.ring_service.specs.Services.{HubAnswers};

    // Reads who leads for the key.
    fn read_leader(&mut self, key: &Key) -> Result<Reply, Refusal>
        ensures { HubAnswers A.member A.opening self.old (ask.Who key.now) result self.new }
    {
        match self.reader.who(key) {
            Ok(leader) => Ok(Reply::Leader(leader)),
            Err(refusal) => Err(refusal),
        }
    }

    // Reads the greatest term of the group with a known leader.
    fn read_latest(&mut self, group: &GroupName) -> Result<Reply, Refusal>
        ensures { HubAnswers A.member A.opening self.old (ask.Latest group.now) result self.new }
    {
        match self.reader.latest(group) {
            Ok(latest) => Ok(Reply::Latest(latest)),
            Err(refusal) => Err(refusal),
        }
    }
}

impl<'a, R: Wait, J: Naming, A: NodeLedger> Service for HubService<'a, R, J, A> {
    ghost use Rattle.ring_service.specs.Services.{HubAnswers};

    ghost answers = { HubAnswers A.member A.opening };

    fn ask(&mut self, question: Question) -> Result<Reply, Refusal> {
        match question {
            Question::Stand(key, bid) => self.ask_hub(Request::Stand(key, bid)),
            Question::Retire(group, floor) => self.ask_hub(Request::Retire(group, floor)),
            Question::Who(key) => self.read_leader(&key),
            Question::Latest(group) => self.read_latest(&group),
        }
    }
}
