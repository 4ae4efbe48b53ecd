// An input in plain numbers.
use crate::{Note, key};
use ring_records::{Bid, Input, Key, Refusal};

/// An input in plain numbers.
#[derive(Clone, Copy)]
pub enum Op {
    /// The group, the term and the bid.
    Stand(&'static str, u32, u32),
    /// The number of the message, and the message.
    Take(u64, Note),
    /// How many messages the successor has taken.
    Acked(u64),
    /// The group and the floor.
    Retire(&'static str, u32),
}

impl Op {
    /// The input; refused as 1 or 2.
    pub fn input(self) -> Result<Input, Refusal> {
        match self {
            Op::Stand(group, term, bid) => {
                let key = key(group, term)?;
                let bid = Bid::new(bid)?;
                Ok(Input::Stand { key, bid })
            }
            Op::Take(no, note) => {
                let msg = note.msg()?;
                Ok(Input::Take { no, msg })
            }
            Op::Acked(upto) => Ok(Input::Acked { upto }),
            Op::Retire(group, floor) => {
                let Key { group, term } = key(group, floor)?;
                Ok(Input::Retire { group, floor: term })
            }
        }
    }
}
