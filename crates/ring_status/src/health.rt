// Whether each node takes what it should, and whether the ring can elect.
ghost use Rattle.std.specs.Prelude.{◌≡◌, ◌++◌, OnOk, IfOk, string_bytes};
ghost use Rattle.std.specs.List.{flat_map, list_all, list_any};
ghost use Rattle.ring_status.specs.Health.{all_well, blocked_text, can_elect, carries, doorless_text, fault_text, hangs, has_failed, health_body, help_for, help_line, is_at_limit, is_full, is_well, not_ready, ready_body};

use crate::values::{Condition, NodeStatus};
use ring_records::NodeNo;
use std::alloc::{AllocError, Global};

fn is_well(node: &NodeStatus) -> bool
    ensures { result ≡ is_well node.now }
{
    matches!(node.condition, Condition::Well)
}

/// Whether each node takes Stands and messages.
pub fn are_well(nodes: &[NodeStatus]) -> bool
    ensures { result ≡ all_well nodes.now }
{
    nodes.iter().all(|node| is_well(node))
}

// Adds the line of a node that does not take what it should.
fn print_fault(out: &mut String, node: &NodeStatus) -> Result<(), AllocError>
    ensures { OnOk result (string_bytes out.new ≡ string_bytes out.old ++ fault_text node.now) }
{
    let number = node.place.node.number();
    match node.condition {
        Condition::Well => Ok(()),
        Condition::Limit => writeln!(out, "node {number} limit"),
        Condition::Full => writeln!(out, "node {number} full"),
        Condition::Hangs => writeln!(out, "node {number} hangs"),
        Condition::Failed => writeln!(out, "node {number} failed"),
    }
}

fn print_faults(out: &mut String, nodes: &[NodeStatus]) -> Result<(), AllocError>
    ensures { OnOk result (string_bytes out.new ≡ string_bytes out.old ++ flat_map fault_text nodes.now) }
{
    for node in nodes {
        print_fault(out, node)?;
    }
    Ok(())
}

// Adds the line of a node of which no door was free.
fn print_no_door(out: &mut String, node: &NodeNo) -> Result<(), AllocError>
    ensures { OnOk result (string_bytes out.new ≡ string_bytes out.old ++ doorless_text node.now) }
{
    let number = node.number();
    writeln!(out, "node {number} has no door free")
}

fn print_doorless(out: &mut String, doorless: &[NodeNo]) -> Result<(), AllocError>
    ensures { OnOk result (string_bytes out.new ≡ string_bytes out.old ++ flat_map doorless_text doorless.now) }
{
    for node in doorless {
        print_no_door(out, node)?;
    }
    Ok(())
}

fn has_failed(node: &NodeStatus) -> bool
    ensures { result ≡ has_failed node.now }
{
    matches!(node.condition, Condition::Failed)
}

fn hangs(node: &NodeStatus) -> bool
    ensures { result ≡ hangs node.now }
{
    matches!(node.condition, Condition::Hangs)
}

fn is_full(node: &NodeStatus) -> bool
    ensures { result ≡ is_full node.now }
{
    matches!(node.condition, Condition::Full)
}

fn is_at_limit(node: &NodeStatus) -> bool
    ensures { result ≡ is_at_limit node.now }
{
    matches!(node.condition, Condition::Limit)
}

fn some_failed(nodes: &[NodeStatus]) -> bool
    ensures { result ≡ list_any has_failed nodes.now }
{
    nodes.iter().any(|node| has_failed(node))
}

fn some_hang(nodes: &[NodeStatus]) -> bool
    ensures { result ≡ list_any hangs nodes.now }
{
    nodes.iter().any(|node| hangs(node))
}

fn some_are_full(nodes: &[NodeStatus]) -> bool
    ensures { result ≡ list_any is_full nodes.now }
{
    nodes.iter().any(|node| is_full(node))
}

fn some_are_at_limit(nodes: &[NodeStatus]) -> bool
    ensures { result ≡ list_any is_at_limit nodes.now }
{
    nodes.iter().any(|node| is_at_limit(node))
}

#[tactic(auto, unfolding(crate::specs::Health::help_for))]
// What helps against the worst of what is told.
fn help_for(nodes: &[NodeStatus]) -> &'static str
    ensures { result.now ≡ help_for nodes.now }
{
    if some_failed(nodes) {
        "see the disk, and start ringd again"
    } else if some_hang(nodes) {
        "see the disk"
    } else if some_are_full(nodes) {
        "retire old terms"
    } else if some_are_at_limit(nodes) {
        "retire old terms, or stand at other nodes"
    } else {
        "give more doors, or less idle time"
    }
}

fn print_help(out: &mut String, nodes: &[NodeStatus]) -> Result<(), AllocError>
    ensures { OnOk result (string_bytes out.new ≡ string_bytes out.old ++ help_line nodes.now) }
{
    let help = help_for(nodes);
    writeln!(out, "help: {help}")
}

#[tactic(auto, using(crate::proofs::Appends::three))]
// Adds the lines of a ring of which something is not as it should be.
fn print_unwell(
    out: &mut String,
    nodes: &[NodeStatus],
    doorless: &[NodeNo],
) -> Result<(), AllocError>
    ensures { OnOk result (string_bytes out.new ≡ string_bytes out.old ++ (flat_map fault_text nodes.now ++ flat_map doorless_text doorless.now ++ help_line nodes.now)) }
{
    print_faults(out, nodes)?;
    print_doorless(out, doorless)?;
    print_help(out, nodes)
}

#[tactic(auto, unfolding(crate::specs::Health::health_body))]
/// `well`, or a line for each node that does not take what it should, then one for each of which no door was free, and what helps
/// against the worst of it. Refused for want of memory alone.
pub fn health_text(
    alloc: Global,
    nodes: &[NodeStatus],
    doorless: &[NodeNo],
) -> Result<String, AllocError>
    ensures { IfOk result (λ text. string_bytes text ≡ health_body nodes.now doorless.now) }
{
    let mut out = String::new(alloc);
    if are_well(nodes) && doorless.is_empty() {
        out.push_str("well\n")?;
    } else {
        print_unwell(&mut out, nodes, doorless)?;
    }
    Ok(out)
}

// Whether it passes messages on.
fn carries(node: &NodeStatus) -> bool
    ensures { result ≡ carries node.now }
{
    matches!(node.condition, Condition::Well | Condition::Limit)
}

fn all_carry(nodes: &[NodeStatus]) -> bool
    ensures { result ≡ list_all carries nodes.now }
{
    nodes.iter().all(|node| carries(node))
}

fn some_are_well(nodes: &[NodeStatus]) -> bool
    ensures { result ≡ list_any is_well nodes.now }
{
    nodes.iter().any(|node| is_well(node))
}

#[tactic(auto, unfolding(crate::specs::Health::can_elect))]
/// Whether the ring can elect: a message passes each node, and a node takes Stands.
pub fn can_elect(nodes: &[NodeStatus]) -> bool
    ensures { result ≡ can_elect nodes.now }
{
    all_carry(nodes) && some_are_well(nodes)
}

// Adds the line of a node that no message passes.
fn print_block(out: &mut String, node: &NodeStatus) -> Result<(), AllocError>
    ensures { OnOk result (string_bytes out.new ≡ string_bytes out.old ++ blocked_text node.now) }
{
    if carries(node) {
        Ok(())
    } else {
        print_fault(out, node)
    }
}

fn print_blocks(out: &mut String, nodes: &[NodeStatus]) -> Result<(), AllocError>
    ensures { OnOk result (string_bytes out.new ≡ string_bytes out.old ++ flat_map blocked_text nodes.now) }
{
    for node in nodes {
        print_block(out, node)?;
    }
    Ok(())
}

#[tactic(auto, unfolding(crate::specs::Health::not_ready))]
// Adds a line for each node that keeps the ring from electing.
fn print_not_ready(out: &mut String, nodes: &[NodeStatus]) -> Result<(), AllocError>
    ensures { OnOk result (string_bytes out.new ≡ string_bytes out.old ++ not_ready nodes.now) }
{
    if some_are_well(nodes) {
        print_blocks(out, nodes)
    } else {
        print_faults(out, nodes)
    }
}

#[tactic(auto, unfolding(crate::specs::Health::ready_body))]
/// `ready` where the ring can elect, or a line for each node that keeps it from that: those that no message passes, or all where
/// none takes Stands. Refused for want of memory alone.
pub fn ready_text(alloc: Global, nodes: &[NodeStatus]) -> Result<String, AllocError>
    ensures { IfOk result (λ text. string_bytes text ≡ ready_body nodes.now) }
{
    let mut out = String::new(alloc);
    if can_elect(nodes) {
        out.push_str("ready\n")?;
    } else {
        print_not_ready(&mut out, nodes)?;
    }
    Ok(out)
}
