// The link to the successor.
ghost use Rattle.std.specs.Prelude.{◌≡◌, ℕ, ◌+◌, ◌-◌, ◌<◌, ◌≤◌, ◌^◌, List, [], ◌++◌, ◌∷◌, drop, length, OnOk, OnErr, IfOk, IsOk};
ghost use Rattle.std.specs.Result.{result_err};
ghost use Rattle.ring_records.specs.declared.input.Input.{Input};
ghost use Rattle.ring_records.specs.declared.input.Input.TheVariants.{Acked};
ghost use Rattle.ring_records.specs.declared.msg.Msg.{Msg};
ghost use Rattle.ring_records.specs.Objection.{objection, too_many};
ghost use Rattle.ring_records.specs.Emission as emission;
ghost use Rattle.ring_records.specs.History as history;
ghost use Rattle.ring_records.specs.Lists.{or_else};
ghost use Rattle.neighbour_link.specs.Outlink.{credit_objection, sent_count, OutlinkStandsFor};

use ring_records::{Msg, Refusal};
use std::alloc::{AllocError, Global};
use std::marker::Model;

/// The link to the successor: how many of its messages the successor is known to have taken, and those sent after
/// these. Its messages are numbered from 0.
#[derive(Drop)]
pub struct Outlink {
    // The messages from number `first` on. The dead are those of them that are credited; they stand in front, so that
    // the window is one slice, and leave once they are more than half.
    kept: Vec<Msg>,
    first: u64,
    dead: usize,
}

impl Model for Outlink {
    ghost use Rattle.std.specs.Prelude.{◌+◌, ◌-◌, drop, length, vec_len, vec_capacity};
    ghost use Rattle.neighbour_link.specs.Outlink.{OutlinkView, IsQueue};

    ghost Value = { OutlinkView };

    ghost view = { λ link. record { link = record { credited = link.first + link.dead; window = drop link.dead link.kept.items }; room = vec_capacity link.kept - vec_len link.kept } };

    ghost invariant = { λ link. IsQueue link.first link.dead (length link.kept.items) };
}

impl Outlink {
    /// A link on which nothing was sent.
    pub fn new(alloc: Global) -> Outlink
        ensures credited { result.link.credited ≡ 0 }
        ensures window { result.link.window ≡ [] }
        ensures stands { OutlinkStandsFor result.link [] 0 }
    {
        Outlink {
            kept: Vec::new(alloc),
            first: 0,
            dead: 0,
        }
    }

    /// A link on which `sent` messages were sent: `window` are the last of them, and those before are credited. The
    /// caller sees that there are no more in the window than were sent.
    pub fn restore(alloc: Global, sent: u64, window: &[Msg]) -> Result<Outlink, AllocError>
        requires { length window.now ≤ sent }
        ensures credited { IfOk result (λ made. made.link.credited ≡ sent - length window.now) }
        ensures window { IfOk result (λ made. made.link.window ≡ window.now) }
        ensures stands { IfOk result (λ made. (messages : List Msg) (credit : ℕ) → sent ≡ length messages → credit ≤ sent → window.now ≡ drop credit messages
            → OutlinkStandsFor made.link messages credit) }
    {
        let kept = Vec::from_slice(alloc, window)?;
        Ok(Outlink {
            kept,
            first: sent - window.len() as u64,
            dead: 0,
        })
    }

    /// How many messages were sent, which is the number of the next one.
    pub fn sent(&self) -> u64
        ensures value { result ≡ sent_count self.now.link }
        ensures stands { (sent : List Msg) (credit : ℕ) → OutlinkStandsFor self.now.link sent credit → result ≡ length sent }
    {
        self.first + self.kept.len() as u64
    }

    /// How many messages the successor is known to have taken: the greatest credit so far, 0 at first.
    pub fn credited(&self) -> u64
        ensures value { result ≡ self.now.link.credited }
        ensures stands { (sent : List Msg) (credit : ℕ) → OutlinkStandsFor self.now.link sent credit → result ≡ credit }
    {
        self.first + self.dead as u64
    }

    /// The messages sent and not credited, oldest first: those numbered from `credited()` to below `sent()`.
    pub fn window(&self) -> &[Msg]
        ensures value { result.now ≡ self.now.link.window }
        ensures stands { (sent : List Msg) (credit : ℕ) → OutlinkStandsFor self.now.link sent credit → result.now ≡ drop credit sent }
    {
        &self.kept[self.dead..]
    }

    /// Makes room for so many more messages, which are queued without a growth then. Room that there is stays, also
    /// where a growth is refused.
    pub fn reserve(&mut self, additional: usize) -> Result<(), AllocError>
        ensures same { self.new.link ≡ self.old.link }
        ensures room { OnOk result (additional ≤ self.new.room) }
        ensures keeps { self.old.room ≤ self.new.room }
    {
        self.kept.reserve(additional)
    }

    /// Sends one more message: its number. The caller sees that `sent()` is below 2^64 - 1. A refused growth changes
    /// nothing; where there is room none is needed, and the message takes one place of it.
    pub fn queue(&mut self, msg: Msg) -> Result<u64, AllocError>
        requires { sent_count self.old.link + 1 < 2 ^ 64 }
        ensures number { IfOk result (λ no. no ≡ sent_count self.old.link) }
        ensures credited { self.new.link.credited ≡ self.old.link.credited }
        ensures window { OnOk result (self.new.link.window ≡ self.old.link.window ++ msg ∷ []) }
        ensures works { 1 ≤ self.old.room → IsOk result }
        ensures room { self.old.room ≤ self.new.room + 1 }
        ensures err { OnErr result (self.new.link ≡ self.old.link) }
        ensures stands { IfOk result (λ no. (sent : List Msg) (credit : ℕ) → OutlinkStandsFor self.old.link sent credit
            → (no ≡ length sent) × OutlinkStandsFor self.new.link (sent ++ msg ∷ []) credit) }
    {
        let no = self.sent();
        self.kept.push(msg)?;
        Ok(no)
    }

    /// Whether the successor may have taken the first `upto` messages now: refused as 13 (Old) where that is not above
    /// the credit so far, else as 14 (AckAhead) where it is above the count sent.
    #[tactic(auto, unfolding(ring_records::specs::Objection::objection))]
    pub fn judge(&self, upto: u64) -> Result<(), Refusal>
        ensures value { result_err result ≡ credit_objection self.now.link.credited (sent_count self.now.link) upto }
        ensures admission { (me n : ℕ) (h : List Input) → OutlinkStandsFor self.now.link (emission.sent me h) (history.credit h)
            → objection me n h (Acked upto) ≡ or_else (result_err result) (too_many h) }
    {
        if upto <= self.credited() {
            Err(Refusal::Old(self.credited()))
        } else if upto > self.sent() {
            Err(Refusal::AckAhead(self.sent()))
        } else {
            Ok(())
        }
    }

    /// The successor has taken the first `upto` messages. Refused as `judge` says; a refusal changes nothing. It takes
    /// no room.
    pub fn credit(&mut self, upto: u64) -> Result<(), Refusal>
        ensures judged { result_err result ≡ credit_objection self.old.link.credited (sent_count self.old.link) upto }
        ensures credited { OnOk result (self.new.link.credited ≡ upto) }
        ensures window { OnOk result (self.new.link.window ≡ drop (upto - self.old.link.credited) self.old.link.window) }
        ensures room { self.old.room ≤ self.new.room }
        ensures err { OnErr result (self.new ≡ self.old) }
        ensures stands { OnOk result ((sent : List Msg) (credit : ℕ) → OutlinkStandsFor self.old.link sent credit → OutlinkStandsFor self.new.link sent upto) }
    {
        self.judge(upto)?;
        self.dead = (upto - self.first) as usize;
        self.bury();
        Ok(())
    }

    /// A link that has the same messages and the same credit.
    pub fn try_copy(&self) -> Result<Outlink, AllocError>
        ensures { IfOk result (λ copy. copy.link ≡ self.now.link) }
    {
        let kept = Vec::from_slice(*self.kept.allocator(), self.window())?;
        Ok(Outlink {
            kept,
            first: self.credited(),
            dead: 0,
        })
    }

    // Drops the credited messages once they are more than half of those kept: fewer than these move up then, so over
    // all credits no message costs more than a few steps.
    fn bury(&mut self)
        ensures same { self.new.link ≡ self.old.link }
        ensures room { self.old.room ≤ self.new.room }
    {
        if self.dead > self.kept.len() - self.dead {
            self.kept.drain(..self.dead);
            self.first += self.dead as u64;
            self.dead = 0;
        }
    }
}
