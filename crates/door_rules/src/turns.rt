// The doors of a node, and the sessions at them.
ghost use Rattle.std.specs.Prelude.{◌≡◌, ◌≤◌, ◌+◌, ◌-◌, min};
ghost use Rattle.door_rules.specs.Doors.{are_taken, is_over, since_when, was_none_free};

/// How many lines a session may have at the last free door.
pub const SHORT_LINES: u64 = 10;

/// For how many seconds no door is free before that is told.
pub const FULL_SECONDS: u64 = 5;

/// Whether a session is over behind so many lines, which holds the last free door or not.
pub fn is_over(is_short: bool, lines: u64) -> bool
    ensures { result ≡ is_over is_short lines }
{
    is_short && lines >= SHORT_LINES
}

/// The doors of a node, how many of them serve a session, at which one that took the last free one is, as long as no other is
/// free, and since when all but one are held at least, in seconds of some clock.
#[derive(Clone, Copy, PartialEq, Eq)]
pub struct Turns {
    pub doors: u32,
    pub busy: u32,
    pub short: Option<u32>,
    pub since: Option<u64>,
}

// Since when all but one are held at least: as before, or from now on.
fn since_when(are_taken: bool, before: Option<u64>, now: u64) -> Option<u64>
    ensures { result ≡ since_when are_taken before now }
{
    match before {
        _ if !are_taken => None,
        Some(since) => Some(since),
        None => Some(now),
    }
}

impl Turns {
    /// Of so many doors, which are all free.
    pub fn new(doors: u32) -> Turns
        ensures doors { result.doors ≡ doors }
        ensures busy { result.busy ≡ 0 }
        ensures short { result.short ≡ None }
        ensures since { result.since ≡ None }
    {
        Turns {
            doors,
            busy: 0,
            short: None,
            since: None,
        }
    }

    // Whether one door is free at most.
    fn are_taken(&self) -> bool
        ensures { result ≡ are_taken self.now.doors self.now.busy }
    {
        u64::from(self.doors) <= u64::from(self.busy) + 1
    }

    // The same doors, of which so many serve, and at that one the session that holds the last free one.
    fn with(&self, busy: u32, short: Option<u32>, now: u64) -> Turns
        ensures doors { result.doors ≡ self.now.doors }
        ensures busy { result.busy ≡ busy }
        ensures short { result.short ≡ short }
        ensures since { result.since ≡ since_when (are_taken self.now.doors busy) self.now.since now }
    {
        let served = Turns {
            doors: self.doors,
            busy,
            short,
            since: None,
        };
        Turns {
            doors: self.doors,
            busy,
            short,
            since: since_when(served.are_taken(), self.since, now),
        }
    }

    // How many serve once one more does.
    fn one_more(&self) -> u32
        ensures { result ≡ min self.now.doors (self.now.busy + 1) }
    {
        if self.busy < self.doors {
            self.busy + 1
        } else {
            self.doors
        }
    }

    /// A session begins at this door, in this second. It holds the last free door where no other is free then.
    pub fn begun(&self, door: u32, now: u64) -> Turns
        ensures doors { result.doors ≡ self.now.doors }
        ensures busy { result.busy ≡ min self.now.doors (self.now.busy + 1) }
        ensures last { self.now.doors ≤ self.now.busy + 1 → result.short ≡ Some door }
        ensures other { self.now.busy + 2 ≤ self.now.doors → result.short ≡ self.now.short }
        ensures since { result.since ≡ since_when (are_taken self.now.doors result.busy) self.now.since now }
    {
        let short = if self.are_taken() {
            Some(door)
        } else {
            self.short
        };
        self.with(self.one_more(), short, now)
    }

    /// A session has ended, in this second. No one holds the last free door then.
    pub fn ended(&self, now: u64) -> Turns
        ensures doors { result.doors ≡ self.now.doors }
        ensures busy { result.busy ≡ self.now.busy - 1 }
        ensures short { result.short ≡ None }
        ensures since { result.since ≡ since_when (are_taken self.now.doors result.busy) self.now.since now }
    {
        let busy = if self.busy == 0 { 0 } else { self.busy - 1 };
        self.with(busy, None, now)
    }

    /// Whether no door was free but the one that is kept, for five seconds up to now.
    pub fn was_none_free(&self, now: u64) -> bool
        ensures { result ≡ was_none_free self.now.since now }
    {
        match self.since {
            Some(since) => since <= now && now - since >= FULL_SECONDS,
            None => false,
        }
    }
}
