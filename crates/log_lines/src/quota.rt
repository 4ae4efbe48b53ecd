//! How many lines are told in a second.
ghost use Rattle.std.specs.Prelude.{◌≡◌, ◌<◌, IsTrue, Some, None, nat_lt, if◌then◌else◌};
ghost use Rattle.log_lines.specs.Quotas.{begun, counted};
ghost use Rattle.log_lines.specs.declared.quota.TheConstants.{MOST_LINES};

/// How many lines are told in a second at most.
pub const MOST_LINES: u64 = 1_024;

/// How many more lines may be told in this second, how many were left out in it, and how many before it of which nothing is
/// told yet; these two stay at the greatest number.
#[derive(Clone, Copy, PartialEq, Eq)]
pub struct Quota {
    pub free: u64,
    pub left_out: u64,
    pub due: u64,
}

impl Quota {
    /// Of a second in which nothing was told, and none before it.
    pub fn new() -> Quota
        ensures { result ≡ record { free = MOST_LINES; left_out = 0; due = 0 } }
    {
        Quota {
            free: MOST_LINES,
            left_out: 0,
            due: 0,
        }
    }

    /// Whether one more may be told in this second.
    pub fn has_more(&self) -> bool
        ensures { result ≡ nat_lt 0 self.now.free }
    {
        self.free > 0
    }

    /// A line was told, or left out: it is counted as that.
    pub fn count(&mut self, is_told: bool)
        requires { IsTrue is_told → 0 < self.old.free }
        ensures { self.new ≡ counted self.old is_told }
    {
        if is_told {
            self.free -= 1;
        } else {
            self.left_out = self.left_out.saturating_add(1);
        }
    }

    /// A second begins. What was left out before is to be told.
    pub fn begin_second(&mut self)
        ensures { self.new ≡ begun self.old }
    {
        self.free = MOST_LINES;
        self.due = self.due.saturating_add(self.left_out);
        self.left_out = 0;
    }

    /// How many were left out before this second, where some were: from now on it is told.
    pub fn left_out(&mut self) -> Option<u64>
        ensures some { result ≡ (if nat_lt 0 self.old.due then Some self.old.due else None) }
        ensures told { self.new ≡ record self.old { due = 0 } }
    {
        let count = self.due;
        self.due = 0;
        if count > 0 { Some(count) } else { None }
    }
}
