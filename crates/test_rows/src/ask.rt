// A request in plain numbers.
use crate::{Note, key};
use ring_records::{Bid, GroupName, Key, Refusal, Request};

/// A request in plain numbers.
#[derive(Clone, Copy)]
pub enum Ask {
    /// The group, the term and the bid.
    Stand(&'static str, u32, u32),
    /// The number of the message, and the message.
    Take(u64, Note),
    /// How many messages the successor has taken.
    Acked(u64),
    /// The group and the floor.
    Retire(&'static str, u32),
    /// The group and the term.
    Who(&'static str, u32),
    /// The group.
    Latest(&'static str),
}

impl Ask {
    /// The request; refused as 1 or 2.
    pub fn request(self) -> Result<Request, Refusal> {
        match self {
            Ask::Stand(group, term, bid) => {
                let key = key(group, term)?;
                let bid = Bid::new(bid)?;
                Ok(Request::Stand(key, bid))
            }
            Ask::Take(no, note) => {
                let msg = note.msg()?;
                Ok(Request::Take(no, msg))
            }
            Ask::Acked(upto) => Ok(Request::Acked(upto)),
            Ask::Retire(group, floor) => {
                let Key { group, term } = key(group, floor)?;
                Ok(Request::Retire(group, term))
            }
            Ask::Who(group, term) => {
                let key = key(group, term)?;
                Ok(Request::Who(key))
            }
            Ask::Latest(group) => {
                let group = GroupName::read(group.as_bytes())?;
                Ok(Request::Latest(group))
            }
        }
    }
}
