// How an inbox meets the message at hand.
ghost use Rattle.std.specs.Prelude.{◌≡◌};
ghost use Rattle.std.specs.List.{cons_option};
ghost use Rattle.ring_post.specs.Chronicles.{credit_heard, credit_told, takes_done, takes_heard, takes_met, unmet};

use crate::chronicle::{Chronicle, Entry};
use crate::hand::Hand;
use ring_records::Request;

// The node was asked for the message at hand: for the first time, or once more.
pub(crate) fn ask(chronicle: &mut Chronicle, hand: &Hand)
    ensures heard { takes_heard chronicle.new.entries ≡ takes_heard chronicle.old.entries }
    ensures met { takes_met chronicle.new.entries ≡ cons_option (unmet hand.now) (takes_met chronicle.old.entries) }
    ensures done { takes_done chronicle.new.entries ≡ takes_done chronicle.old.entries }
    ensures credits { (credit_heard chronicle.new.entries ≡ credit_heard chronicle.old.entries) × (credit_told chronicle.new.entries ≡ credit_told chronicle.old.entries) }
{
    match *hand {
        Hand::Fresh(no, msg) => {
            *chronicle = Chronicle::with(chronicle, &Entry::Asked(Request::Take(no, msg)))
        }
        Hand::Refused(no, msg) => {
            *chronicle = Chronicle::with(chronicle, &Entry::Again(Request::Take(no, msg)))
        }
        Hand::Empty => {}
    }
}

// It was left.
pub(crate) fn leave(chronicle: &mut Chronicle, hand: &Hand)
    ensures heard { takes_heard chronicle.new.entries ≡ takes_heard chronicle.old.entries }
    ensures met { takes_met chronicle.new.entries ≡ cons_option (unmet hand.now) (takes_met chronicle.old.entries) }
    ensures done { takes_done chronicle.new.entries ≡ takes_done chronicle.old.entries }
    ensures credits { (credit_heard chronicle.new.entries ≡ credit_heard chronicle.old.entries) × (credit_told chronicle.new.entries ≡ credit_told chronicle.old.entries) }
{
    match *hand {
        Hand::Fresh(no, msg) => {
            *chronicle = Chronicle::with(chronicle, &Entry::Left(Request::Take(no, msg)))
        }
        Hand::Refused(..) | Hand::Empty => {}
    }
}
