// What is told as JSON.
ghost use Rattle.std.specs.Prelude.{◌≡◌, false, IfOk, OnOk, map, option_map, string_bytes};
ghost use Rattle.serde_json.specs.Data.{array, no_members, object, string, put as with_member};
ghost use Rattle.serde_json.specs.View.{items_of, members_view, view};
ghost use Rattle.serde_json.specs.Written.{compact_text, has_float};
ghost use Rattle.ring_status.specs.Data.{condition_text, identity_data, journal_data, journal_last, journal_members, journal_middle, latest_data, lead_data, leaders_data, messages_data, natural, node_data, refusal_data, sessions_data, stands_data, status_data};

use crate::holder::Holder;
use crate::values::{Condition, NodeStatus, RefusalCount, RingStatus};
use ring_records::{Decision, GroupName, NodeNo};
use serde_json::{Map, Value, json, put};
use std::alloc::{AllocError, Global};
use std::str;

/// The condition in a word.
pub fn condition_text(condition: Condition) -> &'static str
    ensures { result.now ≡ condition_text condition }
{
    match condition {
        Condition::Well => "well",
        Condition::Limit => "limit",
        Condition::Full => "full",
        Condition::Hangs => "hangs",
        Condition::Failed => "failed",
    }
}

fn refusal_json(alloc: Global, told: &RefusalCount) -> Result<Value, AllocError>
    ensures { IfOk result (λ v. view v ≡ refusal_data told.now) }
{
    json!(in alloc; {"count": told.count, "number": told.number})
}

fn refusals_json(alloc: Global, told: &[RefusalCount]) -> Result<Value, AllocError>
    ensures { IfOk result (λ v. view v ≡ array (items_of (map refusal_data told.now))) }
{
    let mut all = Vec::new(alloc);
    for told in told {
        all.push(refusal_json(alloc, told)?)?;
    }
    Ok(Value::Array(all))
}

// One member more, a number.
fn put_number(
    members: &mut Map<String, Value>,
    alloc: Global,
    name: &str,
    number: u64,
) -> Result<(), AllocError>
    ensures { OnOk result (members_view members.new.entries ≡ with_member name.now (natural number) (members_view members.old.entries)) }
{
    put(members, alloc, name, Value::from(number))
}

// The last members of a journal, from the last one on, so that each stands before all that are there.
fn put_last(
    members: &mut Map<String, Value>,
    alloc: Global,
    node: &NodeStatus,
) -> Result<(), AllocError>
    requires { members_view members.old.entries ≡ no_members }
    ensures { OnOk result (members_view members.new.entries ≡ journal_last node.now) }
{
    put_number(members, alloc, "writing", node.writing)?;
    put_number(members, alloc, "used", node.held.used)?;
    put_number(members, alloc, "syncs", node.counts.syncs)?;
    put_number(members, alloc, "snapshot", node.held.snapshot)?;
    put(members, alloc, "renewable", Value::from(node.renewable))
}

// Those before these.
fn put_middle(
    members: &mut Map<String, Value>,
    alloc: Global,
    node: &NodeStatus,
) -> Result<(), AllocError>
    requires { members_view members.old.entries ≡ journal_last node.now }
    ensures { OnOk result (members_view members.new.entries ≡ journal_middle node.now) }
{
    put_number(members, alloc, "refused", node.counts.refused_rounds)?;
    put_number(members, alloc, "layout", u64::from(node.held.layout))?;
    put_number(members, alloc, "inputs", node.held.shown.inputs)?;
    put_number(members, alloc, "epoch", node.held.epoch)
}

// And the first ones.
fn put_first(
    members: &mut Map<String, Value>,
    alloc: Global,
    node: &NodeStatus,
) -> Result<(), AllocError>
    requires { members_view members.old.entries ≡ journal_middle node.now }
    ensures { OnOk result (members_view members.new.entries ≡ journal_members node.now) }
{
    put_number(members, alloc, "durable", node.held.shown.durable)?;
    put_number(members, alloc, "checkpoints", node.counts.checkpoints)?;
    put_number(members, alloc, "checkpoint_age", node.checkpoint_age)?;
    put_number(members, alloc, "capacity", node.held.capacity)?;
    put_number(members, alloc, "batches", node.counts.batches)
}

fn journal_json(alloc: Global, node: &NodeStatus) -> Result<Value, AllocError>
    ensures { IfOk result (λ v. view v ≡ journal_data node.now) }
{
    let mut members = Map::new(alloc);
    put_last(&mut members, alloc, node)?;
    put_middle(&mut members, alloc, node)?;
    put_first(&mut members, alloc, node)?;
    Ok(Value::Object(members))
}

fn messages_json(alloc: Global, node: &NodeStatus) -> Result<Value, AllocError>
    ensures { IfOk result (λ v. view v ≡ messages_data node.now) }
{
    json!(in alloc; {
        "credit": node.held.shown.credit,
        "refused": node.counts.refused_messages,
        "sent": node.held.shown.sent,
        "taken": node.held.shown.taken,
        "waiting": node.letters.count
    })
}

fn sessions_json(alloc: Global, node: &NodeStatus) -> Result<Value, AllocError>
    ensures { IfOk result (λ v. view v ≡ sessions_data node.now) }
{
    let refusals = refusals_json(alloc, node.refusals.as_slice())?;
    json!(in alloc; {
        "begun": node.counts.begun,
        "busy": node.counts.busy,
        "doors": node.place.doors,
        "refusals": refusals
    })
}

fn stands_json(alloc: Global, node: &NodeStatus) -> Result<Value, AllocError>
    ensures { IfOk result (λ v. view v ≡ stands_data node.now) }
{
    json!(in alloc; {"floors": node.held.floors, "left": node.stands_left, "taken": node.held.stands})
}

// The members of a node, from the last one on.
fn put_node(
    members: &mut Map<String, Value>,
    alloc: Global,
    node: &NodeStatus,
) -> Result<(), AllocError>
    requires { members_view members.old.entries ≡ no_members }
    ensures { OnOk result (object (members_view members.new.entries) ≡ node_data node.now) }
{
    let state = String::from_str(alloc, condition_text(node.condition))?;
    put(members, alloc, "state", Value::String(state))?;
    put(members, alloc, "stands", stands_json(alloc, node)?)?;
    put(members, alloc, "sessions", sessions_json(alloc, node)?)?;
    put_number(members, alloc, "port", u64::from(node.place.port))?;
    put_number(members, alloc, "node", u64::from(node.place.node.number()))?;
    put(members, alloc, "messages", messages_json(alloc, node)?)?;
    put(members, alloc, "journal", journal_json(alloc, node)?)?;
    put_number(members, alloc, "elections", node.counts.elections)
}

fn node_json(alloc: Global, node: &NodeStatus) -> Result<Value, AllocError>
    ensures { IfOk result (λ v. view v ≡ node_data node.now) }
{
    let mut members = Map::new(alloc);
    put_node(&mut members, alloc, node)?;
    Ok(Value::Object(members))
}

fn nodes_json(alloc: Global, nodes: &[NodeStatus]) -> Result<Value, AllocError>
    ensures { IfOk result (λ v. view v ≡ array (items_of (map node_data nodes.now))) }
{
    let mut all = Vec::new(alloc);
    for node in nodes {
        all.push(node_json(alloc, node)?)?;
    }
    Ok(Value::Array(all))
}

fn number_json(node: NodeNo) -> Value
    ensures { view result ≡ natural node }
{
    Value::from(node.number())
}

fn numbers_json(alloc: Global, nodes: &[NodeNo]) -> Result<Value, AllocError>
    ensures { IfOk result (λ v. view v ≡ array (items_of (map natural nodes.now))) }
{
    let mut all = Vec::new(alloc);
    for node in nodes {
        all.push(number_json(*node))?;
    }
    Ok(Value::Array(all))
}

fn identity_json(alloc: Global, ring: Option<&str>) -> Result<Value, AllocError>
    ensures { IfOk result (λ v. view v ≡ identity_data (option_map (λ text. text.now) ring.entry)) }
{
    match ring {
        None => Ok(Value::Null),
        Some(text) => Ok(Value::String(String::from_str(alloc, text)?)),
    }
}

// One member more, a text.
fn put_text(
    members: &mut Map<String, Value>,
    alloc: Global,
    name: &str,
    text: &str,
) -> Result<(), AllocError>
    ensures { OnOk result (members_view members.new.entries ≡ with_member name.now (string text.now) (members_view members.old.entries)) }
{
    put(
        members,
        alloc,
        name,
        Value::String(String::from_str(alloc, text)?),
    )
}

// The members of the ring, from the last one on.
#[tactic(auto, unfolding(crate::specs::Data::status_data))]
fn put_ring(
    members: &mut Map<String, Value>,
    alloc: Global,
    ring: &RingStatus<'_>,
) -> Result<(), AllocError>
    requires { members_view members.old.entries ≡ no_members }
    ensures { OnOk result (object (members_view members.new.entries) ≡ status_data ring.now) }
{
    put_text(members, alloc, "words", ring.words)?;
    put_text(members, alloc, "version", ring.version)?;
    put_number(members, alloc, "started", ring.started)?;
    put(members, alloc, "ring", identity_json(alloc, ring.ring)?)?;
    put(members, alloc, "nodes", nodes_json(alloc, ring.nodes)?)?;
    put_number(members, alloc, "idle", u64::from(ring.idle))?;
    put(
        members,
        alloc,
        "doorless",
        numbers_json(alloc, ring.doorless)?,
    )?;
    put_text(members, alloc, "dir", ring.dir)
}

fn ring_json(alloc: Global, ring: &RingStatus<'_>) -> Result<Value, AllocError>
    ensures { IfOk result (λ v. view v ≡ status_data ring.now) }
{
    let mut members = Map::new(alloc);
    put_ring(&mut members, alloc, ring)?;
    Ok(Value::Object(members))
}

#[tactic(auto, using(crate::proofs::Names::name_is_text))]
/// The name of the group as text.
pub fn name_of(group: &GroupName) -> &str
    ensures { result.now ≡ group.now }
{
    match str::from_utf8(group.as_bytes()) {
        Ok(name) => name,
        Err(_) => unreachable!(),
    }
}

fn lead_json(alloc: Global, lead: &Decision) -> Result<Value, AllocError>
    ensures { IfOk result (λ v. view v ≡ lead_data lead.now) }
{
    json!(in alloc; {
        "bid": lead.leader.bid.number(),
        "group": name_of(&lead.key.group),
        "node": lead.leader.node.number(),
        "term": lead.key.term.number()
    })
}

fn leads_json(alloc: Global, leads: &[Decision]) -> Result<Value, AllocError>
    ensures { IfOk result (λ v. view v ≡ array (items_of (map lead_data leads.now))) }
{
    let mut all = Vec::new(alloc);
    for lead in leads {
        all.push(lead_json(alloc, lead)?)?;
    }
    Ok(Value::Array(all))
}

#[tactic(auto, unfolding(crate::specs::Data::leaders_data))]
fn page_json(
    alloc: Global,
    node: NodeNo,
    leads: &[Decision],
    more: bool,
) -> Result<Value, AllocError>
    ensures { IfOk result (λ v. view v ≡ leaders_data node leads.now more) }
{
    let leads = leads_json(alloc, leads)?;
    json!(in alloc; {"by": node.number(), "leaders": leads, "more": more})
}

// The members of a leader, from the last one on.
#[tactic(auto, unfolding(crate::specs::Data::latest_data))]
fn put_leader(
    members: &mut Map<String, Value>,
    alloc: Global,
    node: NodeNo,
    lead: &Decision,
    holder: &Holder<'_>,
) -> Result<(), AllocError>
    requires { members_view members.old.entries ≡ no_members }
    ensures { OnOk result (object (members_view members.new.entries) ≡ latest_data node lead.now holder.now) }
{
    put_text(members, alloc, "text", holder.text)?;
    put(members, alloc, "resigned", Value::from(holder.resigned))?;
    put(members, alloc, "present", Value::from(holder.present))?;
    put(members, alloc, "leader", lead_json(alloc, lead)?)?;
    put_number(members, alloc, "by", u64::from(node.number()))
}

fn leader_json(
    alloc: Global,
    node: NodeNo,
    lead: &Decision,
    holder: &Holder<'_>,
) -> Result<Value, AllocError>
    ensures { IfOk result (λ v. view v ≡ latest_data node lead.now holder.now) }
{
    let mut members = Map::new(alloc);
    put_leader(&mut members, alloc, node, lead, holder)?;
    Ok(Value::Object(members))
}

// The text of a value in which no number has a fraction.
fn text_of(alloc: Global, value: &Value) -> Result<String, AllocError>
    requires { has_float (view value.now) ≡ false }
    ensures { IfOk result (λ text. string_bytes text ≡ compact_text (view value.now)) }
{
    value.to_string(alloc)
}

#[tactic(auto, using(crate::proofs::Floats::ring_has_none))]
/// The ring and its nodes. Refused for want of memory alone.
pub fn status_json(alloc: Global, ring: &RingStatus<'_>) -> Result<String, AllocError>
    ensures { IfOk result (λ text. string_bytes text ≡ compact_text (status_data ring.now)) }
{
    let value = ring_json(alloc, ring)?;
    text_of(alloc, &value)
}

#[tactic(auto, using(crate::proofs::Floats::page_has_none))]
/// A page of leaders by the board of a node, and whether there are more groups behind it. Refused for want of memory
/// alone.
pub fn leaders_json(
    alloc: Global,
    node: NodeNo,
    leads: &[Decision],
    more: bool,
) -> Result<String, AllocError>
    ensures { IfOk result (λ text. string_bytes text ≡ compact_text (leaders_data node leads.now more)) }
{
    let value = page_json(alloc, node, leads, more)?;
    text_of(alloc, &value)
}

#[tactic(auto, using(crate::proofs::Floats::one_has_none))]
/// The latest leader of a group by the board of a node, and what is known of who leads so. Refused for want of memory alone.
pub fn latest_json(
    alloc: Global,
    node: NodeNo,
    lead: &Decision,
    holder: &Holder<'_>,
) -> Result<String, AllocError>
    ensures { IfOk result (λ text. string_bytes text ≡ compact_text (latest_data node lead.now holder.now)) }
{
    let value = leader_json(alloc, node, lead, holder)?;
    text_of(alloc, &value)
}
