// When messages are sent again.
ghost use Rattle.std.specs.Prelude.{◌≡◌, ◌≢◌, ◌⊎◌, ◌*◌, ◌+◌, ◌≤◌, ℕ, false, true, min, nat_le, None, Some};

/// For how many milliseconds the successor's credit stands still before messages are sent again.
pub const PAUSE: u64 = 100;

/// The longest pause between two times that they are, in milliseconds, where nothing comes of it.
pub const LONGEST_PAUSE: u64 = 6_400;

/// The credit that was seen last, when messages were sent again or the credit was seen to rise, in milliseconds of some clock, and
/// how long they rest from then on.
#[derive(Clone, Copy, PartialEq, Eq)]
pub struct Repeats {
    pub seen: u64,
    pub since: Option<u64>,
    pub pause: u64,
    ghost bounded: { pause ≤ 6400 },
}

impl Repeats {
    /// Before the first look.
    pub fn new() -> Repeats
        ensures { (result.seen ≡ 0) × ((result.since ≡ None) × (result.pause ≡ PAUSE)) }
    {
        Repeats {
            seen: 0,
            since: None,
            pause: PAUSE,
        }
    }

    /// Whether messages are to be sent again now, where the successor is known to have so many: it has been no more for
    /// a pause, which doubles each time that they are sent in vain, up to 6.4 seconds.
    pub fn are_due(&mut self, now: u64, heard: u64) -> bool
        ensures risen { (self.old.since ≡ None) ⊎ (self.old.seen ≢ heard) → (result ≡ false) × ((self.new.seen ≡ heard) × ((self.new.since ≡ Some now) × (self.new.pause ≡ PAUSE))) }
        ensures rests { (since : ℕ) → self.old.since ≡ Some since → self.old.seen ≡ heard → result ≡ nat_le (since + self.old.pause) now }
        ensures again { result ≡ true → (self.new.seen ≡ heard) × ((self.new.since ≡ Some now) × (self.new.pause ≡ min (2 * self.old.pause) LONGEST_PAUSE)) }
        ensures waits { self.old.seen ≡ heard → (since : ℕ) → self.old.since ≡ Some since → result ≡ false → self.new ≡ self.old }
        ensures longest { (since : ℕ) → self.old.since ≡ Some since → self.old.seen ≡ heard → since + LONGEST_PAUSE ≤ now → result ≡ true }
    {
        match self.since {
            Some(since) if self.seen == heard => {
                let is_due = since <= now && now - since >= self.pause;
                if is_due {
                    self.since = Some(now);
                    self.pause = (2 * self.pause).min(LONGEST_PAUSE);
                }
                is_due
            }
            _ => {
                *self = Repeats {
                    seen: heard,
                    since: Some(now),
                    pause: PAUSE,
                };
                false
            }
        }
    }
}
