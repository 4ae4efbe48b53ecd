// How far the start of a ring is.
ghost use Rattle.std.specs.Prelude.{◌≡◌, ◌-◌, nat_lt, Some, None, is_some};
ghost use Rattle.std.specs.Option.{option_or};
ghost use Rattle.ring_news.specs.Starts.{lack, outcome_of, serves};

use std::alloc::AllocError;

/// What a node lacks whose threads are not there.
#[derive(Clone, Copy)]
pub enum Shortage {
    /// The system gave no thread.
    Thread,
    /// A growth was refused, or no place was left.
    Memory,
}

impl From<AllocError> for Shortage {
    ghost use Rattle.ring_news.specs.declared.starting.Shortage.TheVariants.{Memory};

    ghost from_gives = { λ _ shortage. shortage ≡ Memory };

    fn from(_: AllocError) -> Shortage {
        Shortage::Memory
    }
}

/// How many nodes have not told yet that they are there, what one lacks, if one does, and, once all are let go, whether they
/// serve.
#[derive(Clone, Copy)]
pub struct Starting {
    pub awaited: usize,
    pub shortage: Option<Shortage>,
    pub serves: Option<bool>,
}

impl Starting {
    /// Of so many nodes that have told nothing yet.
    pub fn new(nodes: usize) -> Starting
        ensures { result ≡ record { awaited = nodes; shortage = None; serves = None } }
    {
        Starting {
            awaited: nodes,
            shortage: None,
            serves: None,
        }
    }

    /// A node is ready, or cannot start for want of this. Of several shortages the first one stays.
    pub fn tell(&mut self, outcome: Result<(), Shortage>)
        ensures { self.new ≡ record self.old { awaited = self.old.awaited - 1; shortage = option_or self.old.shortage (lack outcome) } }
    {
        self.awaited = self.awaited.saturating_sub(1);
        if self.shortage.is_none() {
            self.shortage = outcome.err();
        }
    }

    /// No node tells any more, for want of this: none is awaited.
    pub fn fail(&mut self, shortage: Shortage)
        ensures { self.new ≡ record self.old { awaited = 0; shortage = Some shortage } }
    {
        self.awaited = 0;
        self.shortage = Some(shortage);
    }

    /// Whether a node is awaited.
    pub fn is_awaited(&self) -> bool
        ensures { result ≡ nat_lt 0 self.now.awaited }
    {
        self.awaited > 0
    }

    /// Refused with what a node lacks, where one lacks something.
    pub fn outcome(&self) -> Result<(), Shortage>
        ensures { result ≡ outcome_of self.now.shortage }
    {
        match self.shortage {
            Some(shortage) => Err(shortage),
            None => Ok(()),
        }
    }

    /// All are let go, to serve or to end.
    pub fn open(&mut self, serves: bool)
        ensures { self.new ≡ record self.old { serves = Some serves } }
    {
        self.serves = Some(serves);
    }

    /// Whether all are let go.
    pub fn is_open(&self) -> bool
        ensures { result ≡ is_some self.now.serves }
    {
        self.serves.is_some()
    }

    /// Whether all are let go to serve.
    pub fn serves(&self) -> bool
        ensures { result ≡ serves self.now.serves }
    {
        matches!(self.serves, Some(true))
    }
}
