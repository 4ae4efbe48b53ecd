//! What is told for each target.
ghost use Rattle.std.specs.Prelude.{◌≡◌, ◌==◌, ◌&&◌, [], if◌then◌else◌, length, string_bytes, IfOk, IfErr};
ghost use Rattle.ring_status.specs.Health.{all_well, can_elect, health_body, ready_body};

use crate::people::{group_for_people, ring_for_people};
use crate::process::process;
use crate::reception::{Page, Reception, home_of};
use crate::status_port::Facts;
use client_stream::Deadline;
use door_rules::{Presence, is_next, is_told};
use ring_records::{Decision, GroupName, NodeNo};
use ring_status::{
    Content, Holder, NodeStatus, RingStatus, Status, Target, are_well, can_elect, health_text,
    latest_json, leaders_json, metrics_text, ready_text, status_json,
};
use std::alloc::{AllocError, Global};
use std::sync::Wait;
use std::time::Clock;

/// A body, what it is, and how the request is answered.
#[derive(Drop)]
pub(crate) struct Body {
    pub(crate) status: Status,
    pub(crate) content: Content,
    pub(crate) text: String,
}

/// What is told where the process answers, whatever its nodes do.
const LIVE: &str = "live\n";

/// A text where memory was had for it.
fn had(text: Result<String, AllocError>) -> Result<String, Status>
    ensures ok { IfOk result (λ t. text ≡ Ok t) }
    ensures err { IfErr result (λ status. status ≡ Status.Unavailable) }
{
    match text {
        Ok(text) => Ok(text),
        Err(_) => Err(Status::Unavailable),
    }
}

/// How a question is answered that asks whether something is so.
fn status_if(is_so: bool) -> Status
    ensures { result ≡ (if is_so then Status.Found else Status.Unavailable) }
{
    if is_so {
        Status::Found
    } else {
        Status::Unavailable
    }
}

/// What is told of each node, in their order. Refused where one of them does not answer.
pub(crate) fn statuses<R: Wait + Clock>(
    rt: &R,
    alloc: Global,
    reception: &Reception,
    deadline: Deadline,
) -> Result<Vec<NodeStatus>, Status> {
    let mut nodes = Vec::new(alloc);
    for number in 1..=16u8 {
        if usize::from(number) > reception.nodes() {
            break;
        }
        let Ok(node) = NodeNo::new(number) else {
            break;
        };
        let Some(status) = reception.status(rt, alloc, node, deadline) else {
            return Err(Status::Unavailable);
        };
        if nodes.push(status).is_err() {
            return Err(Status::Unavailable);
        }
    }
    Ok(nodes)
}

/// The nodes of which no door was free for a while, in their order. Refused where one of them does not answer.
pub(crate) fn doorless<R: Wait + Clock>(
    rt: &R,
    alloc: Global,
    reception: &Reception,
    nodes: &[NodeStatus],
    deadline: Deadline,
) -> Result<Vec<NodeNo>, Status> {
    let mut without = Vec::new(alloc);
    for status in nodes {
        match reception.has_no_door(rt, alloc, status.place.node, deadline) {
            Some(true) => {
                if without.push(status.place.node).is_err() {
                    return Err(Status::Unavailable);
                }
            }
            Some(false) => {}
            None => return Err(Status::Unavailable),
        }
    }
    Ok(without)
}

fn ready(alloc: Global, nodes: &[NodeStatus]) -> Result<Body, Status>
    ensures status { IfOk result (λ body. body.status ≡ (if can_elect nodes.now then Status.Found else Status.Unavailable)) }
    ensures text { IfOk result (λ body. string_bytes body.text ≡ ready_body nodes.now) }
{
    Ok(Body {
        status: status_if(can_elect(nodes)),
        content: Content::Text,
        text: had(ready_text(alloc, nodes))?,
    })
}

fn health(alloc: Global, nodes: &[NodeStatus], doorless: &[NodeNo]) -> Result<Body, Status>
    ensures status { IfOk result (λ body. body.status ≡ (if all_well nodes.now && (length doorless.now == 0) then Status.Found else Status.Unavailable)) }
    ensures text { IfOk result (λ body. string_bytes body.text ≡ health_body nodes.now doorless.now) }
{
    Ok(Body {
        status: status_if(are_well(nodes) && doorless.is_empty()),
        content: Content::Text,
        text: had(health_text(alloc, nodes, doorless))?,
    })
}

pub(crate) fn ring<'a>(
    facts: &'a Facts,
    nodes: &'a [NodeStatus],
    doorless: &'a [NodeNo],
) -> RingStatus<'a> {
    RingStatus {
        version: facts.version,
        ring: match &facts.ring {
            Some(text) => Some(text.as_str()),
            None => None,
        },
        dir: facts.dir.as_str(),
        started: facts.started,
        words: facts.words.as_str(),
        idle: facts.idle,
        nodes,
        doorless,
    }
}

pub(crate) fn found(content: Content, text: Result<String, AllocError>) -> Result<Body, Status>
    ensures status { IfOk result (λ body. body.status ≡ Status.Found) }
    ensures content { IfOk result (λ body. body.content ≡ content) }
    ensures text { IfOk result (λ body. text ≡ Ok body.text) }
{
    Ok(Body {
        status: Status::Found,
        content,
        text: had(text)?,
    })
}

/// A page of the groups behind this one.
fn page<R: Wait + Clock>(
    rt: &R,
    alloc: Global,
    reception: &Reception,
    node: NodeNo,
    after: Option<GroupName>,
    deadline: Deadline,
) -> Result<Body, Status> {
    match reception.page(rt, alloc, node, after, deadline) {
        Some(Page { leads, more }) => {
            found(Content::Json, leaders_json(alloc, node, &leads, more))
        }
        None => Err(Status::Unavailable),
    }
}

/// This leader by the node's board, and what is known of who leads so.
fn leader<R: Wait>(
    rt: &R,
    alloc: Global,
    reception: &Reception,
    node: NodeNo,
    lead: &Decision,
) -> Result<Body, Status> {
    match reception.presence(rt, home_of(lead), &lead.key) {
        Some(presence) => holder(alloc, node, lead, &presence),
        None => Err(Status::Unavailable),
    }
}

/// What is known of who leads, as it is told.
pub(crate) fn known(presence: &Presence) -> Holder<'_>
    ensures present { result.present ≡ presence.now.present }
    ensures resigned { result.resigned ≡ presence.now.resigned }
    ensures text { result.text.now ≡ string_bytes presence.now.text }
{
    Holder {
        present: presence.present,
        resigned: presence.resigned,
        text: presence.text.as_str(),
    }
}

/// This leader by the node's board, of whom this is known.
fn holder(
    alloc: Global,
    node: NodeNo,
    lead: &Decision,
    presence: &Presence,
) -> Result<Body, Status> {
    found(
        Content::Json,
        latest_json(alloc, node, lead, &known(presence)),
    )
}

/// The latest leader of the group.
fn latest<R: Wait + Clock>(
    rt: &R,
    alloc: Global,
    reception: &Reception,
    node: NodeNo,
    group: GroupName,
    deadline: Deadline,
) -> Result<Body, Status> {
    match reception.latest(rt, alloc, node, group, deadline) {
        Some(Some(lead)) => leader(rt, alloc, reception, node, &lead),
        Some(None) => Err(Status::NotFound),
        None => Err(Status::Unavailable),
    }
}

/// The latest leader of the group in a term above this one, or that there is none.
fn next<R: Wait + Clock>(
    rt: &R,
    alloc: Global,
    reception: &Reception,
    node: NodeNo,
    group: GroupName,
    above: u64,
    deadline: Deadline,
) -> Result<Body, Status> {
    let Some(known) = reception.latest(rt, alloc, node, group, deadline) else {
        return Err(Status::Unavailable);
    };
    match known {
        Some(lead) => leader_above(rt, alloc, reception, node, &lead, above),
        None => Ok(nothing(alloc)),
    }
}

/// That nothing has come.
fn nothing(alloc: Global) -> Body
    ensures status { result.status ≡ Status.NoContent }
    ensures text { string_bytes result.text ≡ [] }
{
    Body {
        status: Status::NoContent,
        content: Content::Json,
        text: String::new(alloc),
    }
}

/// This leader where its term is above that one, or that there is none.
fn leader_above<R: Wait>(
    rt: &R,
    alloc: Global,
    reception: &Reception,
    node: NodeNo,
    lead: &Decision,
    above: u64,
) -> Result<Body, Status> {
    if is_next(above, u64::from(lead.key.term.number())) {
        leader(rt, alloc, reception, node, lead)
    } else {
        Ok(nothing(alloc))
    }
}

/// The latest leader of the group in a term above this one, or in this one where it is not present any more, or that there is
/// none.
fn gone<R: Wait + Clock>(
    rt: &R,
    alloc: Global,
    reception: &Reception,
    node: NodeNo,
    group: GroupName,
    held: u64,
    deadline: Deadline,
) -> Result<Body, Status> {
    let Some(known) = reception.latest(rt, alloc, node, group, deadline) else {
        return Err(Status::Unavailable);
    };
    match known {
        Some(lead) => leader_behind(rt, alloc, reception, node, &lead, held),
        None => Ok(nothing(alloc)),
    }
}

/// This leader where one who waits for the end of that of term `held` is told of it, or that there is none.
fn leader_behind<R: Wait>(
    rt: &R,
    alloc: Global,
    reception: &Reception,
    node: NodeNo,
    lead: &Decision,
    held: u64,
) -> Result<Body, Status> {
    let Some(presence) = reception.presence(rt, home_of(lead), &lead.key) else {
        return Err(Status::Unavailable);
    };
    let term = u64::from(lead.key.term.number());
    if is_told(held, term, presence.present) {
        holder(alloc, node, lead, &presence)
    } else {
        Ok(nothing(alloc))
    }
}

/// Whether the ring has the node.
fn has(reception: &Reception, node: NodeNo) -> bool {
    usize::from(node.number()) <= reception.nodes()
}

/// What is told of leaders for the target. Refused as `body_of` is.
fn body_of_leaders<R: Wait + Clock>(
    rt: &R,
    alloc: Global,
    reception: &Reception,
    target: Target,
    deadline: Deadline,
) -> Result<Body, Status> {
    match target {
        Target::Leaders(node, after) if has(reception, node) => {
            page(rt, alloc, reception, node, after, deadline)
        }
        Target::LeaderOf(node, group) if has(reception, node) => {
            latest(rt, alloc, reception, node, group, deadline)
        }
        Target::NextOf(node, group, above, _) if has(reception, node) => {
            next(rt, alloc, reception, node, group, above, deadline)
        }
        Target::HeldOf(node, group, held, _) if has(reception, node) => {
            gone(rt, alloc, reception, node, group, held, deadline)
        }
        _ => Err(Status::NotFound),
    }
}

/// What is told for the target. Refused as 404 where the ring has no such node or the group no leader, and as 503 where a
/// node does not answer in time, or memory is wanting.
pub(crate) fn body_of<R: Wait + Clock>(
    rt: &R,
    alloc: Global,
    facts: &Facts,
    reception: &Reception,
    target: Target,
    deadline: Deadline,
) -> Result<Body, Status> {
    match target {
        Target::Live => found(Content::Text, String::from_str(alloc, LIVE)),
        Target::Ready => ready(alloc, &statuses(rt, alloc, reception, deadline)?),
        Target::Health => {
            let nodes = statuses(rt, alloc, reception, deadline)?;
            let doorless = doorless(rt, alloc, reception, &nodes, deadline)?;
            health(alloc, &nodes, &doorless)
        }
        Target::Status => {
            let nodes = statuses(rt, alloc, reception, deadline)?;
            let doorless = doorless(rt, alloc, reception, &nodes, deadline)?;
            let ring = ring(facts, &nodes, &doorless);
            found(Content::Json, status_json(alloc, &ring))
        }
        Target::Metrics => {
            let nodes = statuses(rt, alloc, reception, deadline)?;
            let ring = ring(facts, &nodes, &[]);
            found(
                Content::Metrics,
                metrics_text(alloc, &ring, &process(&facts.statm)),
            )
        }
        Target::Page => ring_for_people(rt, alloc, facts, reception, deadline),
        Target::Group(group) => group_for_people(rt, alloc, reception, group, deadline),
        _ => body_of_leaders(rt, alloc, reception, target, deadline),
    }
}
