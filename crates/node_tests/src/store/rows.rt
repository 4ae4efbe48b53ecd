// What desks and nodes are given and give, in plain numbers. All numbers and names of rows are in their ranges.
use ring_records::{Decision, Key, Notice, Packet, Refusal, Reply, Request};
use std::process::Abort;
use test_rows::{Ask, Say, Sends, candidate, key};

/// Why a call is refused, as a plain name.
#[derive(Clone, Copy)]
pub enum No {
    Failed,
    Early,
    Busy,
}

impl No {
    pub fn refusal(self) -> Refusal {
        match self {
            No::Failed => Refusal::Failed,
            No::Early => Refusal::Early,
            No::Busy => Refusal::Busy,
        }
    }
}

pub fn request(rt: &impl Abort, ask: Ask) -> Request {
    ask.request().expect(rt, "a request")
}

pub fn reply(rt: &impl Abort, say: Say) -> Reply {
    say.reply().expect(rt, "a reply")
}

/// The packets are these, in this order.
pub fn sends_are(rt: &impl Abort, packets: &[Packet], sends: &[Sends]) {
    assert!(rt; packets.len() == sends.len());
    for (place, want) in sends.iter().enumerate() {
        let packet = want.packet().expect(rt, "a packet");
        assert!(rt; packets.get(place).copied() == Some(packet));
    }
}

/// A notice in plain numbers.
#[derive(Clone, Copy)]
pub enum Tells {
    /// That a candidate leads: the group and the term, and the bid and the node of the candidate.
    Leads(&'static str, u32, u32, u8),
    /// The group and its floor.
    GaveUp(&'static str, u32),
}

impl Tells {
    fn notice(self, rt: &impl Abort) -> Notice {
        match self {
            Tells::Leads(group, term, bid, node) => {
                let key = key(group, term).expect(rt, "a key");
                let leader = candidate(bid, node).expect(rt, "a candidate");
                Notice::Decided(Decision { key, leader })
            }
            Tells::GaveUp(group, floor) => {
                let Key { group, term } = key(group, floor).expect(rt, "a key");
                Notice::Retired { group, floor: term }
            }
        }
    }
}

/// The notices are these, in this order, and no others.
pub fn tells_are(rt: &impl Abort, notices: &[Notice], tells: &[Tells]) {
    assert!(rt; notices.len() == tells.len());
    for (place, want) in tells.iter().enumerate() {
        let notice = want.notice(rt);
        assert!(rt; notices.get(place).copied() == Some(notice));
    }
}
