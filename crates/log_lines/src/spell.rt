//! When a trouble is told that comes and goes.
ghost use Rattle.std.specs.Prelude.{◌≡◌, None, false};
ghost use Rattle.log_lines.specs.Spells.{may_begin, spell_after, turn_of};

/// For how many seconds at least a trouble is not told again.
pub const QUIET: u64 = 60;

/// Whether a trouble is told as there, and when it was last told so, in seconds of one clock.
#[derive(Clone, Copy, PartialEq, Eq)]
pub struct Spell {
    pub is_told: bool,
    pub last: Option<u64>,
}

/// What is to be told of a trouble.
#[derive(Clone, Copy, PartialEq, Eq)]
pub enum Turn {
    /// That it is there.
    Begins,
    /// That it is over.
    Ends,
}

/// Whether it may be told again.
fn may_begin(last: Option<u64>, second: u64) -> bool
    ensures { result ≡ may_begin last second }
{
    match last {
        Some(last) => second.saturating_sub(last) >= QUIET,
        None => true,
    }
}

impl Spell {
    /// Of a trouble that never was.
    pub fn new() -> Spell
        ensures { result ≡ record { is_told = false; last = None } }
    {
        Spell {
            is_told: false,
            last: None,
        }
    }

    /// What is to be told at this second, at which the trouble is there or is not. It is told once while it stays, and again
    /// where it comes back, but not within a minute; and once that it is over, where it was told.
    pub fn look(&mut self, is_there: bool, second: u64) -> Option<Turn>
        ensures turn { result ≡ turn_of self.old is_there second }
        ensures after { self.new ≡ spell_after self.old is_there second }
    {
        if self.is_told {
            if is_there {
                return None;
            }
            self.is_told = false;
            return Some(Turn::Ends);
        }
        if is_there && may_begin(self.last, second) {
            self.is_told = true;
            self.last = Some(second);
            return Some(Turn::Begins);
        }
        None
    }
}
