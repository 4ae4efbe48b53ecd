// Why a node refuses an input, in plain numbers.
use ring_records::{Bid, Refusal, Term};

/// Why a node refuses an input, in plain numbers.
#[derive(Clone, Copy)]
pub enum Cause {
    /// The bid with which it has stood.
    Already(u32),
    Late,
    /// The number that is expected, or the credit.
    Old(u64),
    /// The floor of the group.
    Retired(u32),
    Undecided,
}

impl Cause {
    /// The refusal for this cause; itself refused as 2.
    pub fn refusal(self) -> Result<Refusal, Refusal> {
        let refusal = match self {
            Cause::Already(bid) => Refusal::Already(Bid::new(bid)?),
            Cause::Late => Refusal::Late,
            Cause::Old(expected) => Refusal::Old(expected),
            Cause::Retired(floor) => Refusal::Retired(Term::new(floor)?),
            Cause::Undecided => Refusal::Undecided,
        };
        Ok(refusal)
    }
}
