//! The clerk's thread: what an operator is told of a node.
use crate::held::held_by;
use crate::links::Links;
use crate::start_latch::StartLatch;
use commit_hub::{Hub, NodeLedger};
use crossbeam_channel::{Receiver, Sender};
use decision_board::{Board, BoardReader, Naming};
use ring_records::{Decision, GroupName, Key, Refusal};
use ring_status::{NodeStatus, Place, node_status};
use ring_watch::{Inquiry, Page};
use std::alloc::{AllocError, Global};
use std::sync::Wait;
use std::time::{Clock, Instant};

/// How many groups a page has at most.
const GROUPS: usize = 1_000;

/// What a clerk answers by: what it is asked, its reader of the board, and the port and the number of the node's doors.
#[derive(Drop)]
pub(crate) struct Clerk<J: Naming> {
    asked: Receiver<Inquiry>,
    reader: BoardReader<J>,
    port: u16,
    doors: u32,
}

/// A clerk of a node whose doors are these, where it may be asked. Refused where the board has no place.
pub(crate) fn take_clerk<J: Naming>(
    board: &Board<J>,
    asked: Option<Receiver<Inquiry>>,
    port: u16,
    doors: u32,
) -> Result<Option<Clerk<J>>, Refusal> {
    let Some(asked) = asked else {
        return Ok(None);
    };
    match board.reader() {
        Ok(reader) => Ok(Some(Clerk {
            asked,
            reader,
            port,
            doors,
        })),
        Err(refusal) => Err(refusal),
    }
}

/// What is told of the node. The hub's lock is held once, while counts are copied.
fn status<A: NodeLedger, R: Wait + Clock>(
    rt: &R,
    alloc: Global,
    hub: &Hub<A>,
    port: u16,
    doors: u32,
    links: &Links<'_>,
) -> Result<NodeStatus, AllocError> {
    let node = links.node;
    let place = Place { node, port, doors };
    let held = held_by(&hub.look(rt));
    let tally = links.tally;
    let counts = tally.counts(rt);
    let now = Instant::now(rt).ok();
    let letters = links.post.letters(node);
    let commits = tally.commits(alloc)?;
    let refusals = tally.refusals(alloc)?;
    Ok(node_status(place, held, counts, now, letters, commits, refusals))
}

/// Adds a leader, and gives its group.
fn add(leads: &mut Vec<Decision>, lead: &Decision) -> Result<GroupName, AllocError> {
    leads.extend_from_slice(&[*lead])?;
    Ok(lead.key.group)
}

/// The leader of the first group behind this one, where there is one, or `None` where the board has ended.
fn next<J: Naming>(
    reader: &mut BoardReader<J>,
    after: Option<GroupName>,
) -> Option<Option<Decision>> {
    reader.next_group(after).ok()
}

/// The first groups behind this one, in order of name, or `None` where the board has ended or memory is wanting.
fn page<J: Naming>(
    alloc: Global,
    reader: &mut BoardReader<J>,
    after: Option<GroupName>,
) -> Option<Page> {
    let mut leads = Vec::new(alloc);
    let mut last = after;
    for _ in 0..GROUPS {
        let Some(lead) = next(reader, last)? else {
            return Some(Page { leads, more: false });
        };
        last = Some(add(&mut leads, &lead).ok()?);
    }
    let more = next(reader, last)?.is_some();
    Some(Page { leads, more })
}

/// The latest leader of the group, where there is one, or `None` where the board has ended.
fn latest<J: Naming>(reader: &mut BoardReader<J>, group: GroupName) -> Option<Option<Decision>> {
    match reader.latest(&group) {
        Ok(Some((term, leader))) => Some(Some(Decision {
            key: Key { group, term },
            leader,
        })),
        Ok(None) => Some(None),
        Err(_) => None,
    }
}

/// Sends an answer back, where there is one.
fn send_back<T: Drop, R: Wait>(rt: &R, back: Sender<T>, answer: Option<T>) {
    if let Some(answer) = answer {
        let _ = back.send(rt, answer);
    }
}

impl<J: Naming> Clerk<J> {
    /// Answers what is asked. Where there is no answer, who asks finds none to come.
    fn answer<A: NodeLedger, R: Wait + Clock>(
        &mut self,
        rt: &R,
        alloc: Global,
        hub: &Hub<A>,
        inquiry: Inquiry,
        links: &Links<'_>,
    ) {
        match inquiry {
            Inquiry::Status(back) => {
                let answer = status(rt, alloc, hub, self.port, self.doors, links).ok();
                send_back(rt, back, answer)
            }
            Inquiry::Page(after, back) => {
                send_back(rt, back, page(alloc, &mut self.reader, after))
            }
            Inquiry::Latest(group, back) => { send_back(rt, back, latest(&mut self.reader, group)) }
            Inquiry::Doors(back) => send_back(rt, back, Some(links.turnstile.was_none_free(rt))),
        }
    }
}

/// Answers what the clerk is asked, until it is dismissed. Who asks waits for no sync, and the node for no clerk.
pub(crate) fn serve_clerk<J: Naming, A: NodeLedger, R: Wait + Clock>(
    rt: &R,
    alloc: Global,
    hub: &Hub<A>,
    clerk: Clerk<J>,
    links: &Links<'_>,
    latch: &StartLatch,
) {
    let mut clerk = clerk;
    if !latch.wait(rt) {
        return;
    }
    for _ in rt.forever() {
        match clerk.asked.recv(rt) {
            Ok(inquiry) => clerk.answer(rt, alloc, hub, inquiry, links),
            Err(_) => break,
        }
    }
}
