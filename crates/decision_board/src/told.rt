// What a board tells its readers.
ghost use Rattle.std.specs.Prelude.{◌≡◌};

use crate::history::{Front, Naming};
use std::marker::{Model, PhantomData};

/// What a board had published when it told it, or a reader of it saw. Contracts see it as that list of notices.
#[derive(Drop)]
pub struct Told<J: Naming> {
    front: Front,
    of: PhantomData<J>,
}

impl<J: Naming> Model for Told<J> {
    ghost use Rattle.std.specs.Prelude.{◌≡◌, List};
    ghost use Rattle.ring_records.specs.declared.notice.Notice.{Notice};

    ghost Value = { List Notice };

    ghost view = { λ t. t.front.mark.notices };

    ghost invariant = { λ t. t.front.mark.history ≡ J.history };
}

impl<J: Naming> Told<J> {
    pub(crate) fn new(front: Front) -> Told<J>
        requires { front.mark.history ≡ J.history }
        ensures { result ≡ front.mark.notices }
    {
        Told {
            front,
            of: PhantomData,
        }
    }

    pub(crate) fn front(&self) -> &Front
        ensures notices { result.now.mark.notices ≡ self.now }
        ensures history { result.now.mark.history ≡ J.history }
    {
        &self.front
    }

    pub(crate) fn into_front(self) -> Front
        ensures notices { result.mark.notices ≡ self }
        ensures history { result.mark.history ≡ J.history }
    {
        let Told { front, of: _ } = self;
        front
    }
}
