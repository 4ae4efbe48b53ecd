// Rings that tests tell of.
use ring_records::{Bid, Candidate, Decision, GroupName, Key, NodeNo, Shown, Term};
use ring_status::{
    Bound, CommitTimes, Condition, Counts, Holder, Holding, Letters, NodeStatus, Place,
    RefusalCount, RingStatus, WithinCount,
};
use std::alloc::{AllocError, Global};
use std::process::Abort;

/// The identity of a ring.
pub const IDENTITY: &str = "00112233445566778899aabbccddeeff";

/// A ring of this identity and of these nodes, of which some have no door free.
pub fn ring_of<'a>(
    ring: &'a str,
    dir: &'a str,
    words: &'a str,
    nodes: &'a [NodeStatus],
    doorless: &'a [NodeNo],
) -> RingStatus<'a> {
    RingStatus {
        version: "0.1.0",
        ring: Some(ring),
        dir,
        started: 1_700_000_000,
        words,
        idle: 5,
        nodes,
        doorless,
    }
}

/// What a node holds, and what its threads counted, with numbers that differ from each other.
pub const HELD: Holding = Holding {
    shown: Shown {
        inputs: 30,
        durable: 29,
        sent: 12,
        taken: 11,
        credit: 10,
    },
    used: 1_234,
    snapshot: 345,
    capacity: 65_536,
    stands: 7,
    floors: 15,
    epoch: 14,
    layout: 3,
    takes_stands: true,
    lacks_room: false,
    is_open: true,
};

pub const COUNTS: Counts = Counts {
    batches: 5,
    checkpoints: 13,
    syncs: 6,
    refused_rounds: 16,
    refused_messages: 17,
    elections: 18,
    begun: 8,
    busy: 3,
    since: None,
    renewed: None,
};

/// Where clients come to the node of this number, and what waits there.
pub fn place(rt: &impl Abort, number: u8) -> Place {
    Place {
        node: NodeNo::new(number).expect(rt, "a node"),
        port: 7100 + u16::from(number),
        doors: 4,
    }
}

pub fn letters(rt: &impl Abort, number: u8) -> Letters {
    Letters {
        node: NodeNo::new(number).expect(rt, "a node"),
        count: 9,
    }
}

/// A node of this number, in this condition, with numbers that differ from each other.
pub fn node(
    rt: &impl Abort,
    alloc: Global,
    number: u8,
    condition: Condition,
) -> Result<NodeStatus, AllocError> {
    let mut refusals = Vec::new(alloc);
    refusals.push(RefusalCount {
        number: 4,
        count: 2,
    })?;
    refusals.push(RefusalCount {
        number: 25,
        count: 1,
    })?;
    let mut within = Vec::new(alloc);
    within.push(WithinCount {
        bound: Bound::Millis1,
        count: 3,
    })?;
    within.push(WithinCount {
        bound: Bound::Seconds10,
        count: 19,
    })?;
    Ok(NodeStatus {
        place: place(rt, number),
        condition,
        held: HELD,
        renewable: true,
        stands_left: 1_017,
        counts: COUNTS,
        writing: 12,
        checkpoint_age: 21,
        letters: letters(rt, number),
        commits: CommitTimes {
            within,
            count: 20,
            micros: 21_000_022,
        },
        refusals,
    })
}

/// Nodes in these conditions, in their order.
pub fn nodes_in(
    rt: &impl Abort,
    alloc: Global,
    conditions: &[Condition],
) -> Result<Vec<NodeStatus>, AllocError> {
    let mut nodes = Vec::new(alloc);
    let mut number = 0u8;
    for condition in conditions {
        number = number.saturating_add(1);
        nodes.push(node(rt, alloc, number, *condition)?)?;
    }
    Ok(nodes)
}

/// What is known of who leads.
pub fn known(present: bool, resigned: bool, text: &str) -> Holder<'_> {
    Holder {
        present,
        resigned,
        text,
    }
}

/// A decision of plain numbers.
pub fn lead(rt: &impl Abort, group: &str, term: u32, bid: u32, node: u8) -> Decision {
    Decision {
        key: Key {
            group: GroupName::read(group.as_bytes()).expect(rt, "a group"),
            term: Term::new(term).expect(rt, "a term"),
        },
        leader: Candidate {
            bid: Bid::new(bid).expect(rt, "a bid"),
            node: NodeNo::new(node).expect(rt, "a node"),
        },
    }
}
