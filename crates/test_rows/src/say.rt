// A reply in plain numbers.
use crate::{Cause, candidate};
use ring_records::{Refusal, Reply, Term};

/// A reply in plain numbers.
#[derive(Clone, Copy)]
pub enum Say {
    Stood,
    Taken,
    Acked,
    Retired,
    /// No leader is known for the key.
    Nobody,
    /// The bid and the node of the leader.
    Leader(u32, u8),
    /// No term of the group has a known leader.
    NoTerm,
    /// The term, and the bid and the node of its leader.
    Latest(u32, u32, u8),
    Refused(Cause),
}

impl Say {
    /// The reply; refused as 2.
    pub fn reply(self) -> Result<Reply, Refusal> {
        match self {
            Say::Stood => Ok(Reply::Stood),
            Say::Taken => Ok(Reply::Taken),
            Say::Acked => Ok(Reply::Acked),
            Say::Retired => Ok(Reply::Retired),
            Say::Nobody => Ok(Reply::Leader(None)),
            Say::Leader(bid, node) => {
                let leader = candidate(bid, node)?;
                Ok(Reply::Leader(Some(leader)))
            }
            Say::NoTerm => Ok(Reply::Latest(None)),
            Say::Latest(term, bid, node) => {
                let term = Term::new(term)?;
                let leader = candidate(bid, node)?;
                Ok(Reply::Latest(Some((term, leader))))
            }
            Say::Refused(cause) => {
                let refusal = cause.refusal()?;
                Ok(Reply::Refused(refusal))
            }
        }
    }
}
