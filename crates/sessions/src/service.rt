// What answers the questions of a session.
use crate::command::Question;
use ring_records::{Bid, GroupName, Key, Refusal, Reply, Term};

/// What answers the questions of a session: a node, or what stands in front of one.
pub trait Service {
    ghost use Rattle.std.specs.Prelude.{Result};
    ghost use Rattle.ring_records.specs.declared.refusal.Refusal.{Refusal};
    ghost use Rattle.ring_records.specs.declared.reply.Reply.{Reply};
    ghost use Rattle.ring_records.specs.declared.request.Request.{Request};
    ghost use Rattle.ring_records.specs.declared.request.Request.TheVariants as ask;
    ghost use Rattle.sessions.specs.Commands.{request_of};

    // What may come of a question: the service before it, the question, the answer, and the service after it.
    ghost answers: { Self → Request → Result Reply Refusal → Self → Type 0 };

    /// Asks this.
    fn ask(&mut self, question: Question) -> Result<Reply, Refusal>
        ensures { answers self.old (request_of question) result self.new };

    /// Stands for a key with a bid.
    fn stand(&mut self, key: Key, bid: Bid) -> Result<Reply, Refusal>
        ensures { answers self.old (ask.Stand key bid) result self.new }
    {
        self.ask(Question::Stand(key, bid))
    }

    /// Retires the terms of the group below this floor.
    fn retire(&mut self, group: &GroupName, floor: Term) -> Result<Reply, Refusal>
        ensures { answers self.old (ask.Retire group.now floor) result self.new }
    {
        self.ask(Question::Retire(*group, floor))
    }

    /// Who leads for the key.
    fn who(&mut self, key: &Key) -> Result<Reply, Refusal>
        ensures { answers self.old (ask.Who key.now) result self.new }
    {
        self.ask(Question::Who(*key))
    }

    /// The greatest term of the group with a known leader, and that leader.
    fn latest(&mut self, group: &GroupName) -> Result<Reply, Refusal>
        ensures { answers self.old (ask.Latest group.now) result self.new }
    {
        self.ask(Question::Latest(*group))
    }
}
