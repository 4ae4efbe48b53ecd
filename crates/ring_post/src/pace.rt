// When an inbox takes what comes.
ghost use Rattle.std.specs.Prelude.{◌≡◌, ◌+◌, ◌&&◌, false, min, nat_le, not};

/// How many rounds in a row take a message as soon as it comes. An election is over within as many.
pub const PROMPT: u32 = 8;

/// An inbox takes the first messages after a rest as they come. Where they go on coming they gather between two rounds, so
/// that one batch makes many of them durable, and the disk is left to the Stands, for which clients wait.
#[derive(Clone, Copy, PartialEq, Eq)]
pub struct Pace {
    pub rounds: u32,
    pub leaves_some: bool,
}

impl Pace {
    /// At rest.
    pub fn new() -> Pace
        ensures { (result.rounds ≡ 0) × (result.leaves_some ≡ false) }
    {
        Pace {
            rounds: 0,
            leaves_some: false,
        }
    }

    /// Whether messages gather before the next round: behind eight rounds in a row, but not where the last one left some.
    pub fn gathers(&self) -> bool
        ensures { result ≡ (nat_le PROMPT self.now.rounds && not self.now.leaves_some) }
    {
        self.rounds >= PROMPT && !self.leaves_some
    }

    /// A round begins with a message.
    pub fn begin(&mut self)
        ensures rounds { self.new.rounds ≡ min (self.old.rounds + 1) PROMPT }
        ensures left { self.new.leaves_some ≡ self.old.leaves_some }
    {
        if self.rounds < PROMPT {
            self.rounds += 1;
        } else {
            self.rounds = PROMPT;
        }
    }

    /// It ends, and leaves messages behind or not.
    pub fn end(&mut self, leaves_some: bool)
        ensures rounds { self.new.rounds ≡ self.old.rounds }
        ensures left { self.new.leaves_some ≡ leaves_some }
    {
        self.leaves_some = leaves_some;
    }

    /// Nothing came for a while.
    pub fn rest(&mut self)
        ensures rounds { self.new.rounds ≡ 0 }
        ensures left { self.new.leaves_some ≡ self.old.leaves_some }
    {
        self.rounds = 0;
    }
}
