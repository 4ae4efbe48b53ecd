//! The files of nodes, as what they hold is read, and as new ones are made.
ghost use Rattle.std.specs.Prelude.{ℕ, ◌≡◌, ◌≤◌, Some, None, IfOk, IfSome, IfNone};
ghost use Rattle.ring_records.specs.Member.{member};
ghost use Rattle.ring_records.specs.Admission.{newest};
ghost use Rattle.ring_records.specs.Summary.{empty};
ghost use Rattle.gated_journal.specs.Areas.{area_b};
ghost use Rattle.gated_journal.specs.Reading.{fresh_area};
ghost use Rattle.group_commit.specs.Desk.{new_desk};
ghost use Rattle.ring_start.specs.Fits.{kept_by, number_of};
ghost use Rattle.ring_start.specs.Written.{HoldsAll};

use crate::open_node::OpenNode;
use crate::unopened::{FileFault, Place, Unopened};
use disk_model::{Device, DeviceFault, FileDevice, OpenFault, SystemFault};
use gated_journal::{AreaStart, device_size, newer_layout};
use node_store::Node;
use ring_records::{NodeNo, Refusal};
use std::alloc::Global;
use std::fs::File;
use std::io::ErrorKind;
use std::rt::Files;

/// How much of a new file is written at once.
const PIECE: u64 = 1 << 12;

/// Writes zeros up to this length, which are stable after the next sync. What stands behind the closed gate has no
/// meaning, and a file that has its length from the start is synced with no word on its length each time.
fn lengthen<V: Device>(device: &mut V, length: u64) -> Result<(), DeviceFault> {
    let zeros = [0; PIECE as usize];
    for piece in 0..length / PIECE {
        device.write_at(piece * PIECE, &zeros)?;
    }
    let rest = length % PIECE;
    device.write_at(length - rest, &zeros[..rest as usize])
}

/// The offset at which a journal is damaged of which no area counts, that of its first area.
const AREAS: u64 = 16;

/// The first bytes of the area at this offset of the device; those of a closed one where they are not there.
fn area_start(device: &mut FileDevice, offset: u64) -> AreaStart {
    let mut bytes = [0; 2];
    match device.read_at(offset, &mut bytes) {
        Ok(()) => AreaStart::new(bytes),
        Err(_) => AreaStart::new([0; 2]),
    }
}

/// The layout of the journal on this device, where a later program wrote it.
fn newer_layout_of(device: &mut FileDevice) -> Option<u8> {
    let mut capacity = [0; 4];
    if device.read_at(10, &mut capacity).is_err() {
        return None;
    }
    let area_b = second_area(u32::from_be_bytes(capacity));
    newer_layout(area_start(device, AREAS), area_start(device, area_b))
}

/// Where the second area of a journal of this capacity begins.
fn second_area(capacity: u32) -> u64
    ensures { result ≡ area_b capacity }
{
    AREAS + 15 + u64::from(capacity)
}

/// Why a node is not recovered whose journal was refused so, where the system answered this last, or a later program wrote it in this
/// layout. Its bytes are none of this node's journal where nothing else is to be told.
fn unread(refusal: Refusal, cause: Option<SystemFault>, newer: Option<u8>) -> Unopened
    ensures refusal { result.refusal ≡ refusal }
    ensures memory { refusal ≡ Refusal.OutOfMemory → result.told ≡ None }
    ensures silent { (times : ℕ) → refusal ≡ Refusal.Device times → IfNone cause (result.told ≡ None) }
    ensures system { (times : ℕ) → refusal ≡ Refusal.Device times → IfSome cause (λ fault. result.told ≡ Some (FileFault.Fault Place.Journal fault)) }
    ensures newer { (offset : ℕ) → refusal ≡ Refusal.Damaged offset → IfSome newer (λ layout. result.told ≡ Some (FileFault.Newer layout)) }
{
    match refusal {
        Refusal::OutOfMemory => Unopened::new(refusal),
        Refusal::Device(_) => Unopened::caused(refusal, Place::Journal, cause),
        _ => match newer {
            Some(layout) => Unopened {
                refusal,
                told: Some(FileFault::Newer(layout)),
            },
            None => Unopened {
                refusal,
                told: Some(FileFault::Found(Place::Journal, ErrorKind::InvalidData)),
            },
        },
    }
}

/// Why the node of this device is not recovered: the system refused a call, or its bytes are none of this node's journal.
fn unrecovered(device: FileDevice, refusal: Refusal) -> Unopened {
    let mut device = device;
    let cause = device.cause();
    let newer = match refusal {
        Refusal::Damaged(AREAS) => newer_layout_of(&mut device),
        _ => None,
    };
    drop(device);
    unread(refusal, cause, newer)
}

/// The node of this file, which is there, as that was opened.
pub(crate) fn recover(
    alloc: Global,
    opened: Result<FileDevice, OpenFault>,
    node: NodeNo,
    nodes: u8,
) -> Result<OpenNode<FileDevice>, Unopened>
    requires { (node ≤ nodes) × (nodes ≤ 16) }
    ensures { IfOk result (λ opened. number_of opened ≡ node) }
{
    let device = match opened {
        Ok(device) => device,
        Err(fault) => return Err(Unopened::closed(Place::Journal, fault)),
    };
    match Node::recover(alloc, device, node, nodes, 0) {
        Ok(made) => Ok(OpenNode::new(node, nodes, made)),
        Err((device, refusal)) => Err(unrecovered(device, refusal)),
    }
}

/// Why no node is made over this device.
fn unmade(device: FileDevice, refusal: Refusal) -> Unopened {
    let cause = device.cause();
    drop(device);
    Unopened::caused(refusal, Place::New, cause)
}

/// A new node over this device, which gets its full length first.
pub(crate) fn format(
    alloc: Global,
    device: FileDevice,
    node: NodeNo,
    nodes: u8,
    capacity: u32,
) -> Result<OpenNode<FileDevice>, Unopened>
    requires { (node ≤ nodes) × (nodes ≤ 16) }
    ensures desk { IfOk result (λ opened. kept_by opened ≡ new_desk (member node nodes capacity) 0 (fresh_area newest 1 empty)) }
    ensures holds { IfOk result (λ opened. HoldsAll 1 (kept_by opened) opened) }
{
    let mut device = device;
    if lengthen(&mut device, device_size(capacity)).is_err() {
        return Err(unmade(device, Refusal::Device(1)));
    }
    match Node::create(alloc, device, node, nodes, capacity, 0) {
        Ok(made) => Ok(OpenNode::new(node, nodes, made)),
        Err((device, refusal)) => Err(unmade(device, refusal)),
    }
}

/// A new node in a new file.
pub(crate) fn create<R: Files<File = File>>(
    rt: &R,
    alloc: Global,
    path: &str,
    node: NodeNo,
    nodes: u8,
    capacity: u32,
) -> Result<OpenNode<FileDevice>, Unopened>
    requires { (node ≤ nodes) × (nodes ≤ 16) }
    ensures desk { IfOk result (λ opened. kept_by opened ≡ new_desk (member node nodes capacity) 0 (fresh_area newest 1 empty)) }
    ensures holds { IfOk result (λ opened. HoldsAll 1 (kept_by opened) opened) }
{
    match FileDevice::create(alloc, rt, path) {
        Ok(device) => format(alloc, device, node, nodes, capacity),
        Err(fault) => Err(Unopened::closed(Place::New, fault)),
    }
}
