// The tickets of what an inbox has asked.
ghost use Rattle.std.specs.Prelude.{◌≡◌, ◌<◌, ◌++◌, ◌∷◌, [], vec_len, vec_capacity};

use group_commit::Ticket;
use ring_records::{Msg, Request};

// Keeps one more. The push is generic, and a proof of it has to see which types a ticket holds: so a message is named.
pub(crate) fn keep(tickets: &mut Vec<Ticket>, ticket: Ticket)
    requires room { vec_len tickets.old < vec_capacity tickets.old }
    ensures items { tickets.new.items ≡ tickets.old.items ++ ticket ∷ [] }
{
    let _msg: Option<Msg> = match ticket.question() {
        Request::Take(_, msg) => Some(msg),
        _ => None,
    };
    tickets.push_reserved(ticket);
}
