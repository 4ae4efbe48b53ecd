// A message in plain numbers.
use crate::{candidate, key};
use ring_records::{Msg, Refusal};

/// A message in plain numbers: its group and term, and the bid and the node of its candidate.
#[derive(Clone, Copy)]
pub enum Note {
    Token(&'static str, u32, u32, u8),
    Elected(&'static str, u32, u32, u8),
}

impl Note {
    /// The message; refused as 1 or 2.
    pub fn msg(self) -> Result<Msg, Refusal> {
        match self {
            Note::Token(group, term, bid, node) => {
                let key = key(group, term)?;
                let candidate = candidate(bid, node)?;
                Ok(Msg::Token { key, candidate })
            }
            Note::Elected(group, term, bid, node) => {
                let key = key(group, term)?;
                let candidate = candidate(bid, node)?;
                Ok(Msg::Elected { key, candidate })
            }
        }
    }
}
