// What a hub's locked state shows: a look, and for what its threads wait.
ghost use Rattle.std.specs.Prelude.{◌≡◌, ◌&&◌, not};
ghost use Rattle.group_commit.specs.Next.{is_to_make_room};
ghost use Rattle.commit_hub.specs.Desks.{is_resting, lands_next};
ghost use Rattle.commit_hub.specs.Over.{is_over};
ghost use Rattle.commit_hub.specs.Told.{IsLook, look_at};

use super::Locked;
use crate::ledgers::NodeLedger;
use crate::look::Look;

impl<A: NodeLedger> Locked<A> {
    /// What the desk shows.
    pub(crate) fn look(&self) -> Look
        ensures value { result ≡ look_at self.now.is_wanted self.now.shared.desk }
        ensures lawful { IsLook A.member A.opening result }
    {
        let desk = &self.shared.desk;
        Look {
            shown: desk.shown(),
            used: desk.used(),
            snapshot: desk.summary_len(),
            epoch: desk.epoch(),
            layout: desk.layout(),
            capacity: desk.capacity(),
            stands: desk.stands(),
            floors: desk.floor_count() as u64,
            is_due: desk.due(),
            frees_room: desk.frees_room(),
            is_room_coming: self.is_room_coming(),
            is_open: desk.is_open(),
        }
    }

    /// Whether there is nothing to launch yet: all inputs are durable, more may come, and no checkpoint is to make room.
    pub(crate) fn is_idle(&self) -> bool
        ensures { result ≡ is_resting self.now.is_wanted self.now.shared.desk }
    {
        !self.shared.desk.waits() && self.shared.desk.is_open() && !self.is_room_coming()
    }

    /// Whether a checkpoint is to make room: it is due, or is wanted and frees some.
    fn is_room_coming(&self) -> bool
        ensures { result ≡ is_to_make_room self.now.is_wanted self.now.shared.desk }
    {
        self.shared.desk.is_to_make_room(self.is_wanted)
    }

    /// Whether who waits for room goes on waiting: a checkpoint is to make some, and the desk takes requests.
    pub(crate) fn awaits_room(&self) -> bool
        ensures { result ≡ (not (is_over self.now.shared.desk) && is_to_make_room self.now.is_wanted self.now.shared.desk) }
    {
        self.shared.desk.is_open() && self.is_room_coming()
    }

    /// Whether so many inputs are durable once the next batch lands, as far as is known: they fly, or nothing flies
    /// yet.
    pub(crate) fn lands_next(&self, number: u64) -> bool
        ensures { result ≡ lands_next number self.now.shared.desk }
    {
        let flying = self.shared.desk.flying();
        number <= flying || flying == self.shared.desk.durable()
    }
}
