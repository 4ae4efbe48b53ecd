// Decisions and notices as plain numbers.
use crate::rows::{Latest, key};
use ring_records::{Decision, Notice, Refusal};
use std::alloc::Global;
use std::process::Abort;

/// The decision for this group and term, that the node of this number and bid leads.
pub fn decision(rt: &impl Abort, group: &str, term: u32, node: u8, bid: u32) -> Decision {
    let key = key(rt, group, term);
    let leader = test_rows::candidate(bid, node).expect(rt, "a candidate");
    Decision { key, leader }
}

/// The notices of these decisions.
pub fn notices(alloc: Global, decisions: &[Decision]) -> Result<Vec<Notice>, Refusal> {
    let mut notices = Vec::new(alloc);
    for decision in decisions {
        match notices.push(Notice::Decided(*decision)) {
            Ok(()) => {}
            Err(_) => return Err(Refusal::OutOfMemory),
        }
    }
    Ok(notices)
}

/// What a read answers where this decision is the latest of its group.
pub fn term_and_leader(decision: &Decision) -> Latest {
    Ok(Some((decision.key.term, decision.leader)))
}
