// What came to pass at an inbox, for proofs alone.
ghost use Rattle.std.specs.Prelude.{◌≡◌, List, [], ◌∷◌};
ghost use Rattle.std.specs.Borrow.{ftrue};
ghost use Rattle.ring_post.specs.Codes.{coded_entries};
ghost use Rattle.ring_post.specs.declared.chronicle.Entry.{Entry};

use ring_records::{Packet, Request};
use std::marker::Model;

/// What comes to pass at an inbox.
#[derive(Clone, Copy, PartialEq, Eq)]
pub enum Entry {
    /// A letter with this packet was heard.
    Heard(Packet),
    /// The node was asked to take this message, for the first time.
    Asked(Request),
    /// It was asked once more to take it, which it had refused for want of room.
    Again(Request),
    /// It was not asked to take it, since it is full.
    Left(Request),
    /// The inbox is done with this message: it is taken, refused, left or lost.
    Done(Request),
    /// The node was told of this credit, and gave a ticket for it.
    Told(u64),
    /// It refused a credit for want of room, so it knows of none.
    Untold,
}

/// All that came to pass at an inbox, the latest first. It has no bytes: only clauses read it.
#[derive(Drop)]
pub struct Chronicle {
    pub ghost entries: { List Entry } by { coded_entries },
}

impl Model for Chronicle {
    ghost also_owns = { λ _. ftrue };
}

impl Chronicle {
    /// Nothing came to pass yet.
    pub(crate) fn new() -> Chronicle
        ensures { result ≡ record { entries = [] } }
    {
        Chronicle {}
    }

    /// This came to pass as well.
    pub(crate) fn with(before: &Chronicle, entry: &Entry) -> Chronicle
        ensures { result ≡ record { entries = entry.now ∷ before.now.entries } }
    {
        Chronicle {}
    }
}
