//! What stands for a reply until it is released, and what is left of it then.
ghost use Rattle.std.specs.Prelude.{◌≡◌};

use ring_records::{NodeNo, Reply, Request};
use std::marker::Model;

/// A request that a desk answered, and whose reply it keeps until the inputs that the reply rests on are durable. It
/// must be spent: `Desk::redeem` ends it, `Desk::forfeit` on a desk that is closed or has failed, and
/// `SharedDesk::forfeit` in every case.
pub struct Ticket {
    pub(crate) node: NodeNo,
    pub(crate) run: u64,
    pub(crate) own: u64,
    pub(crate) number: u64,
    pub(crate) question: Request,
}

impl Ticket {
    ghost use Rattle.group_commit.specs.Ticket.{shown};

    /// How many inputs the reply rests on.
    pub fn number(&self) -> u64
        ensures { result ≡ (shown self.now).number }
    {
        self.number
    }

    /// The request.
    pub fn question(&self) -> Request
        ensures { result ≡ (shown self.now).question }
    {
        self.question
    }
}

/// A reply, with its request and the number of inputs that it rests on. A desk keeps one for each open ticket; `redeem`
/// alone hands one out.
#[derive(Drop)]
pub struct Stub {
    pub(crate) question: Request,
    pub(crate) number: u64,
    pub(crate) reply: Reply,
}

impl Model for Stub {
    ghost use Rattle.ring_records.specs.Answer.{Answered};
    ghost use Rattle.group_commit.specs.DeskCalls.{answered_with};

    ghost Value = { Answered };

    ghost view = { λ s. answered_with s.question s.reply s.number };
}

impl Stub {
    /// The request.
    pub fn question(&self) -> Request
        ensures { result ≡ self.now.question }
    {
        self.question
    }

    /// How many inputs the reply rests on.
    pub fn number(&self) -> u64
        ensures { result ≡ self.now.answer.number }
    {
        self.number
    }

    /// The reply.
    pub fn reply(&self) -> Reply
        ensures { result ≡ self.now.answer.reply }
    {
        self.reply
    }
}
