//! What is told to people, as HTML.
use crate::pages::{Body, doorless, found, known, ring, statuses};
use crate::reception::{Page, Reception, home_of};
use crate::status_port::Facts;
use client_stream::Deadline;
use ring_page::{group_page, ring_page};
use ring_records::{Decision, GroupName, NodeNo};
use ring_status::{Content, Status};
use std::alloc::Global;
use std::sync::Wait;
use std::time::Clock;

/// Now, in seconds of Unix time, or when the ring was started where there is no clock.
fn now<R: Clock>(rt: &R, facts: &Facts) -> u64 {
    match rt.since_1970() {
        Ok(now) => now.as_secs(),
        Err(_) => facts.started,
    }
}

/// The page of the ring, with the first leaders by node 1's board. Refused where a node does not answer.
pub(crate) fn ring_for_people<R: Wait + Clock>(
    rt: &R,
    alloc: Global,
    facts: &Facts,
    reception: &Reception,
    deadline: Deadline,
) -> Result<Body, Status> {
    let nodes = statuses(rt, alloc, reception, deadline)?;
    let doorless = doorless(rt, alloc, reception, &nodes, deadline)?;
    let ring = ring(facts, &nodes, &doorless);
    match reception.page(rt, alloc, NodeNo::first(), None, deadline) {
        Some(Page { leads, more }) => found(
            Content::Page,
            ring_page(alloc, &ring, now(rt, facts), &leads, more),
        ),
        None => Err(Status::Unavailable),
    }
}

/// The page of a group with this leader.
fn led_by<R: Wait>(
    rt: &R,
    alloc: Global,
    reception: &Reception,
    lead: &Decision,
) -> Result<Body, Status> {
    match reception.presence(rt, home_of(lead), &lead.key) {
        Some(presence) => found(Content::Page, group_page(alloc, lead, &known(&presence))),
        None => Err(Status::Unavailable),
    }
}

/// The page of a group, by node 1's board. Refused as 404 where it knows no leader of it.
pub(crate) fn group_for_people<R: Wait + Clock>(
    rt: &R,
    alloc: Global,
    reception: &Reception,
    group: GroupName,
    deadline: Deadline,
) -> Result<Body, Status> {
    match reception.latest(rt, alloc, NodeNo::first(), group, deadline) {
        Some(Some(lead)) => led_by(rt, alloc, reception, &lead),
        Some(None) => Err(Status::NotFound),
        None => Err(Status::Unavailable),
    }
}
