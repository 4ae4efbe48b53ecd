// What is told of the troubles of a node.
ghost use Rattle.std.specs.Prelude.{◌≡◌, None, if◌then◌else◌, true};
ghost use Rattle.log_lines.specs.Spells.{spell_after, turn_of};
ghost use Rattle.ring_news.specs.Looks.{is_beginning, is_end, is_one_told, looked_at, no_troubles, nothing_told, told_of_wants};

use crate::Wants;
use log_lines::{Spell, Turn};

/// What is told of the troubles of a node: that its disk hangs, and what it wants; and whether it has failed.
#[derive(Clone, Copy)]
pub struct NodeTroubles {
    pub hang: Spell,
    pub room: Spell,
    pub memory: Spell,
    pub stands: Spell,
    pub has_failed: bool,
}

/// Which lines are told of what a node wants at one look, in this order.
#[derive(Clone, Copy)]
pub struct WantsTold {
    /// That it is full.
    pub full: bool,
    /// That it finds no memory.
    pub memory: bool,
    /// That it is at its limit.
    pub at_limit: bool,
    /// That it is well again.
    pub well_again: bool,
}

fn is_beginning(turn: Option<Turn>) -> bool
    ensures { result ≡ is_beginning turn }
{
    matches!(turn, Some(Turn::Begins))
}

fn is_end(turn: Option<Turn>) -> bool
    ensures { result ≡ is_end turn }
{
    matches!(turn, Some(Turn::Ends))
}

impl WantsTold {
    // No line.
    fn nothing() -> WantsTold
        ensures { result ≡ nothing_told }
    {
        WantsTold {
            full: false,
            memory: false,
            at_limit: false,
            well_again: false,
        }
    }
}

impl NodeTroubles {
    /// Of a node of which nothing is told.
    pub fn new() -> NodeTroubles
        ensures { result ≡ no_troubles }
    {
        NodeTroubles {
            hang: Spell::new(),
            room: Spell::new(),
            memory: Spell::new(),
            stands: Spell::new(),
            has_failed: false,
        }
    }

    /// The node has failed: nothing else is told of it.
    pub fn fail(&mut self)
        ensures { self.new ≡ record self.old { has_failed = true } }
    {
        self.has_failed = true;
    }

    /// What is told of its disk at this second, at which that hangs or does not: nothing where the node has failed.
    pub fn look_at_disk(&mut self, hangs: bool, second: u64) -> Option<Turn>
        ensures told { result ≡ (if self.old.has_failed then None else turn_of self.old.hang hangs second) }
        ensures after { self.new ≡ (if self.old.has_failed then self.old else record self.old { hang = spell_after self.old.hang hangs second }) }
    {
        if self.has_failed {
            return None;
        }
        self.hang.look(hangs, second)
    }

    /// What is told of its wants at this second: nothing where the node has failed.
    pub fn look_at_wants(&mut self, wants: Wants, second: u64) -> WantsTold
        ensures told { result ≡ (if self.old.has_failed then nothing_told else told_of_wants self.old wants second) }
        ensures after { self.new ≡ (if self.old.has_failed then self.old else looked_at self.old wants second) }
    {
        if self.has_failed {
            return WantsTold::nothing();
        }
        let room = self.room.look(wants.room, second);
        let memory = self.memory.look(wants.memory, second);
        let stands = self.stands.look(wants.stands, second);
        let is_over = is_end(room) || is_end(memory) || is_end(stands);
        WantsTold {
            full: is_beginning(room),
            memory: is_beginning(memory),
            at_limit: is_beginning(stands),
            well_again: is_over && !self.is_one_told(),
        }
    }

    // Whether it is told to want something.
    fn is_one_told(&self) -> bool
        ensures { result ≡ is_one_told self.now }
    {
        self.room.is_told || self.memory.is_told || self.stands.is_told
    }
}
