// The message that an inbox is about to ask the node for.
ghost use Rattle.std.specs.Prelude.{◌≡◌, true, Some};
ghost use Rattle.ring_records.specs.declared.request.Request.{Request as Asks};
ghost use Rattle.ring_post.specs.Asks.{is_take};

use ring_records::{Msg, Request};

/// The message that an inbox has at hand: the last one that it heard, until the node is asked for it.
#[derive(Clone, Copy, PartialEq, Eq)]
pub enum Hand {
    /// None.
    Empty,
    /// This one, of this number, for which the node was not asked.
    Fresh(u64, Msg),
    /// This one, which the node refused for want of room: it is to be asked again.
    Refused(u64, Msg),
}

impl Hand {
    ghost use Rattle.ring_post.specs.Chronicles.{at_hand};

    // What the node is asked for it.
    pub(crate) fn take(&self) -> Option<Request>
        ensures value { result ≡ at_hand self.now }
        ensures message { (q : Asks) → result ≡ Some q → is_take q ≡ true }
    {
        match *self {
            Hand::Empty => None,
            Hand::Fresh(no, msg) | Hand::Refused(no, msg) => Some(Request::Take(no, msg)),
        }
    }
}

/// Whether the node is asked to take a message.
pub(crate) fn is_take(request: &Request) -> bool
    ensures { result ≡ is_take request.now }
{
    matches!(request, Request::Take(..))
}
