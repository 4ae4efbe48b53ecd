// What comes of what a node was asked.
ghost use Rattle.std.specs.Prelude.{◌≡◌, ◌≢◌, ◌↔◌, ℕ, true, false, Some};
ghost use Rattle.ring_records.specs.declared.packet.Packet.TheVariants.{Credit};
ghost use Rattle.ring_post.specs.Letters.{sent_by};

use crate::letter::{Letter, RingPlace};
use group_commit::Stub;
use ring_records::{Refusal, Reply};

/// What comes of what the node was asked. With each but `Nothing` the inbox is done with a message.
#[derive(Drop)]
pub enum Outcome {
    /// It was no message, or one that is to be asked for again.
    Nothing,
    /// The message is taken, refused or lost.
    Done,
    /// It was taken before, and this credit tells so.
    Credit(Letter),
    /// It was refused for want of room.
    Refused,
    /// It was refused for want of room or left, and the node is full.
    Full,
}

/// Whether it was refused for want of room.
pub fn lacks_room(stub: &Stub) -> bool
    ensures { (result ≡ true) ↔ (stub.now.answer.reply ≡ Reply.Refused Refusal.Full) }
{
    matches!(stub.reply(), Reply::Refused(Refusal::Full))
}

// What comes of a message with this reply, at a node that is full or not.
pub(crate) fn outcome_of(place: RingPlace, stub: &Stub, is_full: bool) -> Outcome
    ensures credit { (taken : ℕ) → (result ≡ Outcome.Credit (sent_by place (Credit taken))) ↔ (stub.now.answer.reply ≡ Reply.Refused (Refusal.Old taken)) }
    ensures full { (result ≡ Outcome.Full) ↔ ((is_full ≡ true) × (stub.now.answer.reply ≡ Reply.Refused Refusal.Full)) }
    ensures refused { (result ≡ Outcome.Refused) ↔ ((is_full ≡ false) × (stub.now.answer.reply ≡ Reply.Refused Refusal.Full)) }
    ensures something { result ≢ Outcome.Nothing }
{
    if lacks_room(stub) {
        if is_full {
            Outcome::Full
        } else {
            Outcome::Refused
        }
    } else {
        match Letter::of_stub(place, stub) {
            Some(letter) => Outcome::Credit(letter),
            None => Outcome::Done,
        }
    }
}
