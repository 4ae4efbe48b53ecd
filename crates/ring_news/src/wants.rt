// What a node wants.
ghost use Rattle.std.specs.Prelude.{◌≡◌};
ghost use Rattle.ring_news.specs.Wanting.{are_some, differ, nothing};

/// What a node wants, as its threads say.
#[derive(Clone, Copy)]
pub struct Wants {
    /// Room: it refused a message or a client for want of that.
    pub room: bool,
    /// Memory: its rounds have been refused for a while for want of that.
    pub memory: bool,
    /// Stands that it gives up: it refused a client, since it has all that it may take.
    pub stands: bool,
}

impl Wants {
    /// Nothing.
    pub fn nothing() -> Wants
        ensures { result ≡ nothing }
    {
        Wants {
            room: false,
            memory: false,
            stands: false,
        }
    }

    /// Whether something is wanted.
    pub fn are_some(&self) -> bool
        ensures { result ≡ are_some self.now }
    {
        self.room || self.memory || self.stands
    }

    /// Whether they differ from these.
    pub fn differ(&self, other: &Wants) -> bool
        ensures { result ≡ differ self.now other.now }
    {
        self.room != other.room || self.memory != other.memory || self.stands != other.stands
    }
}
