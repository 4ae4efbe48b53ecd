//! Which work of a desk is next.
ghost use Rattle.std.specs.Prelude.{◌≡◌, None, IfOk, IfErr, IfSome, MatchOption, OnOk, OnErr};
ghost use Rattle.group_commit.specs.Launching.{launch_objection, is_checkpoint_next, launched_next, IsFitting, IsNoWork, IsUnlaunched, IsWorkOf};
ghost use Rattle.group_commit.specs.Next.{is_to_make_room};

use crate::desk::Desk;
use gated_journal::Work;
use ring_records::Refusal;

impl Desk {
    /// What is to be made durable next, which flies from then on: a checkpoint where one is needed, or is to make room and the
    /// desk takes requests or something waits, and else a batch. One is to make room where it is due, or wanted and frees some.
    /// `None` where nothing is. Refused as 9 where the desk has failed, as 12 where a batch or a checkpoint is flying, and as 8.
    pub fn launch_next(&mut self, is_wanted: bool) -> Result<Option<Work>, Refusal>
        ensures work { IfOk result (λ some. MatchOption some (IsNoWork is_wanted self.old) (IsWorkOf is_wanted self.old self.new)) }
        ensures fits { IfOk result (λ some. IfSome some (IsFitting self.old)) }
        ensures next { OnOk result (self.new ≡ launched_next is_wanted self.old) }
        ensures free { OnOk result (launch_objection self.old.view ≡ None) }
        ensures refusal { IfErr result (IsUnlaunched self.old) }
        ensures same { OnErr result (self.new ≡ self.old) }
    {
        // Its state is lawful.
        let _accepted = self.accepted();
        if self.is_checkpoint_next(is_wanted) {
            return match self.launch_checkpoint() {
                Ok(made) => Ok(Some(Work::Checkpoint(made))),
                Err(refusal) => Err(refusal),
            };
        }
        match self.launch() {
            Ok(Some(batch)) => Ok(Some(Work::Batch(batch))),
            Ok(None) => Ok(None),
            Err(refusal) => Err(refusal),
        }
    }

    /// Whether a checkpoint is to make room: one is due, or is wanted and frees some.
    pub fn is_to_make_room(&self, is_wanted: bool) -> bool
        ensures { result ≡ is_to_make_room is_wanted self.now }
    {
        self.due() || is_wanted && self.frees_room()
    }

    // Whether the next work is a checkpoint.
    fn is_checkpoint_next(&self, is_wanted: bool) -> bool
        ensures { result ≡ is_checkpoint_next is_wanted self.now }
    {
        self.needs_checkpoint()
            || self.is_to_make_room(is_wanted) && (self.waits() || self.is_open())
    }
}
