//! What an operator is told of a ring that is stopped.
ghost use Rattle.std.specs.Prelude.{ℕ, ◌≡◌, ◌≤◌, ◌+◌, length, Decides, IfOk, IfSome, IfNone, OnErr};
ghost use Rattle.ring_audit.specs.Placement.{lists};
ghost use Rattle.ring_start.specs.Checks.{histories, AreNoLater, AreWhole, IsNoLater, IsVerdict, IsFirstDropped, status_of};
ghost use Rattle.ring_start.specs.Fits.{found_as, IsInOrder};

use crate::found::Found;
use crate::look_over::{desk_at, number_at};
use crate::ring_fault::RingFault;
use disk_model::Device;
use ring_audit::{AuditFault, audit};
use ring_records::{Decision, Input, Key, NodeNo, Notice};
use std::alloc::{AllocError, Global};
use std::io;
use std::io::Write;

/// What an audit says of the nodes of a ring.
#[derive(Clone, Copy, PartialEq, Eq)]
pub(crate) enum Verdict {
    /// All that they hold can be told as one run of so many inputs.
    Whole(u64),
    /// It cannot: of this node, the lowest such, so many inputs can be placed, and not all.
    Stuck(NodeNo, u64),
    /// It is not audited, since the file of this node, the lowest such, begins behind a checkpoint.
    Dropped(NodeNo),
}

impl Verdict {
    /// What `ringd --check` ends with: 1 where the ring is stuck, else 0.
    fn status(&self) -> u8
        ensures { result ≡ status_of self.now }
    {
        match self {
            Verdict::Stuck(..) => 1,
            Verdict::Whole(_) | Verdict::Dropped(_) => 0,
        }
    }
}

/// Prints a line of each node, with how many inputs it accepted and how many of them its snapshot stands for, and one of
/// what an audit says; then the status to end with. With `leaders` there stands behind each node's line one of the latest
/// leader of each group that it knows. Refused with what was not printed, and where memory was wanting.
pub(crate) fn tell_ring<V: Device, O: Write>(
    alloc: Global,
    ring: &[Found<V>],
    leaders: bool,
    out: &mut O,
) -> Result<u8, RingFault>
    requires order { IsInOrder found_as ring.now }
    requires shape { (2 ≤ length ring.now) × (length ring.now ≤ 16) }
    ensures { IfOk result (λ status. (verdict : Verdict) × IsVerdict found_as ring.now verdict × (status ≡ status_of verdict)) }
{
    let verdict = audit_ring(alloc, ring)?;
    print_nodes(ring, leaders, out)?;
    if print_verdict(&verdict, out).is_err() {
        return Err(RingFault::Output);
    }
    Ok(verdict.status())
}

/// A line of each node, and behind it the leaders that it knows, where they are asked for.
fn print_nodes<V: Device, O: Write>(
    ring: &[Found<V>],
    leaders: bool,
    out: &mut O,
) -> Result<(), RingFault> {
    for node in ring {
        let number = node.number();
        let desk = node.desk();
        let (inputs, behind) = (desk.accepted(), desk.first());
        if writeln!(out, "node {number} inputs {inputs} behind {behind}").is_err() {
            return Err(RingFault::Output);
        }
        if leaders {
            let told = desk.decisions()?;
            if print_leaders(number, &told, out).is_err() {
                return Err(RingFault::Output);
            }
        }
    }
    Ok(())
}

/// A line of a leader.
fn print_leader<O: Write>(node: NodeNo, decision: &Decision, out: &mut O) -> io::Result<()> {
    let Decision { key, leader } = decision;
    write!(out, "node {node} ")?;
    out.write_all(key.group.as_bytes())?;
    writeln!(
        out,
        " term {} leader {} {}",
        key.term, leader.node, leader.bid
    )
}

/// A line of the latest leader of each group of which one is told.
fn print_leaders<O: Write>(node: NodeNo, told: &[Notice], out: &mut O) -> io::Result<()> {
    for notice in told {
        if let Notice::Decided(decision) = notice {
            if is_latest(&decision.key, told) {
                print_leader(node, decision, out)?;
            }
        }
    }
    Ok(())
}

/// Whether the notice tells no leader of a later term of the key's group.
fn is_no_later(key: &Key, notice: &Notice) -> bool
    ensures { Decides result (IsNoLater key.now notice.now) }
{
    match notice {
        Notice::Decided(decision) => {
            decision.key.group != key.group || decision.key.term <= key.term
        }
        Notice::Retired { .. } => true,
    }
}

/// Whether none of the notices does.
fn is_latest(key: &Key, told: &[Notice]) -> bool
    ensures { Decides result (AreNoLater key.now told.now) }
{
    told.iter().all(|notice| is_no_later(key, notice))
}

/// A line of what an audit says.
fn print_verdict<O: Write>(verdict: &Verdict, out: &mut O) -> io::Result<()> {
    match verdict {
        Verdict::Whole(count) => writeln!(out, "audit ok {count}")?,
        Verdict::Stuck(node, place) => writeln!(out, "audit stuck {node} {place}")?,
        Verdict::Dropped(node) => {
            writeln!(out, "dropped {node}")?;
            writeln!(
                out,
                "no run can be told, as node {node} begins behind a checkpoint; what the nodes know of each other fits"
            )?;
        }
    }
    out.flush()
}

/// Audits what the nodes hold. The error is that of the allocator.
fn audit_ring<V: Device>(alloc: Global, ring: &[Found<V>]) -> Result<Verdict, AllocError>
    requires order { IsInOrder found_as ring.now }
    requires shape { (2 ≤ length ring.now) × (length ring.now ≤ 16) }
    ensures { IfOk result (λ verdict. IsVerdict found_as ring.now verdict) }
{
    if let Some(node) = first_dropped(ring) {
        return Ok(Verdict::Dropped(node));
    }
    let held = histories_of(alloc, ring)?;
    match audit(alloc, &held) {
        Ok(run) => Ok(Verdict::Whole(run.len() as u64)),
        Err(fault) => stuck_by(&fault),
    }
}

/// What a fault of an audit of a ring's histories tells. The error is that of the allocator.
fn stuck_by(fault: &AuditFault) -> Result<Verdict, AllocError>
    requires shape { fault.now ≡ AuditFault.Shape → ⊥ }
    ensures stuck { IfOk result (λ verdict. (node : ℕ) × (place : ℕ) × (fault.now ≡ AuditFault.Stuck node place) × (verdict ≡ Verdict.Stuck node place)) }
    ensures memory { OnErr result (fault.now ≡ AuditFault.Memory) }
{
    match fault {
        AuditFault::Stuck { node, place } => Ok(Verdict::Stuck(*node, *place)),
        AuditFault::Memory => Err(AllocError),
        AuditFault::Shape => unreachable!(),
    }
}

/// The first node whose file begins behind a checkpoint.
fn first_dropped<V: Device>(ring: &[Found<V>]) -> Option<NodeNo>
    requires { IsInOrder found_as ring.now }
    ensures none { IfNone result (AreWhole found_as ring.now (length ring.now + 1)) }
    ensures some { IfSome result (λ i. IsFirstDropped found_as ring.now i) }
{
    for place in 0..ring.len() {
        if desk_at(ring, place).first() > 0 {
            return Some(number_at(ring, place));
        }
    }
    None
}

/// The inputs of each node since its opening.
fn histories_of<V: Device>(alloc: Global, ring: &[Found<V>]) -> Result<Vec<Vec<Input>>, AllocError>
    ensures { IfOk result (λ held. lists held.items ≡ histories found_as ring.now) }
{
    let mut held = Vec::new(alloc);
    for node in ring {
        let mut inputs = Vec::new(alloc);
        inputs.extend_from_slice(node.desk().history())?;
        held.push(inputs)?;
    }
    Ok(held)
}
