// Keys and candidates of plain numbers.
use ring_records::{Bid, Candidate, GroupName, Key, NodeNo, Refusal, Term};

/// The key of this group and term; refused as 1 or 2.
pub fn key(group: &str, term: u32) -> Result<Key, Refusal> {
    let group = GroupName::read(group.as_bytes())?;
    let term = Term::new(term)?;
    Ok(Key { group, term })
}

/// The candidate of this bid and node; refused as 2.
pub fn candidate(bid: u32, node: u8) -> Result<Candidate, Refusal> {
    let bid = Bid::new(bid)?;
    let node = NodeNo::new(node)?;
    Ok(Candidate { bid, node })
}
