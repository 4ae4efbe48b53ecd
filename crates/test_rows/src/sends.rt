// A packet in plain numbers.
use crate::Note;
use ring_records::{Packet, Refusal};

/// A packet in plain numbers.
#[derive(Clone, Copy)]
pub enum Sends {
    /// The number of the message, and the message, to the successor.
    Carry(u64, Note),
    /// How many messages the sender took, to the predecessor.
    Credit(u64),
}

impl Sends {
    /// The packet; refused as 1 or 2.
    pub fn packet(self) -> Result<Packet, Refusal> {
        match self {
            Sends::Carry(no, note) => {
                let msg = note.msg()?;
                Ok(Packet::Carry { no, msg })
            }
            Sends::Credit(upto) => Ok(Packet::Credit { upto }),
        }
    }
}
