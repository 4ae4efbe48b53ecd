//! The nodes of a ring, from their files to what may be served.
ghost use Rattle.std.specs.Prelude.{◌≡◌, length, IfOk};
ghost use Rattle.ring_start.specs.Fits.{found_as, IsInOrder, Fits};
ghost use Rattle.ring_start.specs.Written.{ready_as, AreReady};

use crate::basis::Target;
use crate::folder::Folder;
use crate::found::Found;
use crate::look_over::look_over;
use crate::ready::Ready;
use crate::ring_fault::RingFault;
use crate::unopened::Unopened;
use disk_model::FileDevice;
use folder_plan::FolderStep;
use ring_records::{NodeNo, Refusal};
use std::alloc::Global;
use std::fs::File;
use std::rt::Files;

/// Nodes 1 to the last as their files have them, which fit. Nothing is made; with `existing` each has to have a file.
pub(crate) fn find_ring<R: Files<File = File>>(
    rt: &R,
    alloc: Global,
    folder: &Folder<'_>,
    target: &Target,
    existing: bool,
) -> Result<Vec<Found<FileDevice>>, RingFault>
    ensures order { IfOk result (λ found. IsInOrder found_as found.items) }
    ensures count { IfOk result (λ found. length found.items ≡ target.now.nodes) }
    ensures fits { IfOk result (λ found. Fits found_as target.now.nodes found.items) }
{
    if existing {
        look_for_nodes(rt, alloc, folder, target.nodes)?;
    }
    let found = find_nodes(rt, alloc, folder, target)?;
    look_over(&found)?;
    Ok(found)
}

/// Refused where a node has no file.
fn look_for_nodes<R: Files<File = File>>(
    rt: &R,
    alloc: Global,
    folder: &Folder<'_>,
    nodes: u8,
) -> Result<(), RingFault> {
    for number in 1..=nodes {
        let Ok(node) = NodeNo::new(number) else {
            break;
        };
        match folder.has_node(rt, alloc, node) {
            Ok(true) => {}
            Ok(false) => {
                return Err(RingFault::Node(node, Unopened::gone()));
            }
            Err(why) => return Err(RingFault::Node(node, why)),
        }
    }
    Ok(())
}

/// Nodes 1 to the last, in this order.
fn find_nodes<R: Files<File = File>>(
    rt: &R,
    alloc: Global,
    folder: &Folder<'_>,
    target: &Target,
) -> Result<Vec<Found<FileDevice>>, RingFault>
    ensures order { IfOk result (λ found. IsInOrder found_as found.items) }
    ensures count { IfOk result (λ found. length found.items ≡ target.now.nodes) }
{
    let mut nodes = Vec::new(alloc);
    for place in 0..target.nodes {
        let Ok(node) = NodeNo::new(place + 1) else {
            unreachable!();
        };
        match folder.find(rt, alloc, node, target.nodes, target.capacity) {
            Ok(found) => nodes.push(found)?,
            Err(why) => return Err(RingFault::Node(node, why)),
        }
    }
    Ok(nodes)
}

/// The nodes that were found, as they may be served: each was made by this start, or made a checkpoint, or can make none.
/// They go on from what was found. `begun` gets the steps in the folder that were begun.
pub(crate) fn open_ring<R: Files<File = File>>(
    rt: &R,
    alloc: Global,
    folder: &Folder<'_>,
    nodes: u8,
    found: Vec<Found<FileDevice>>,
    begun: &mut Vec<FolderStep>,
) -> Result<Vec<Ready<FileDevice>>, RingFault>
    requires order { IsInOrder found_as found.items }
    requires count { length found.items ≡ nodes }
    requires fits { Fits found_as nodes found.items }
    ensures ready { IfOk result (λ ring. AreReady found.items ring.items) }
    ensures order { IfOk result (λ ring. IsInOrder ready_as ring.items) }
    ensures count { IfOk result (λ ring. length ring.items ≡ nodes) }
    ensures fits { IfOk result (λ ring. Fits ready_as nodes ring.items) }
{
    let ring = make_ready(rt, alloc, folder, found, begun)?;
    Ok(ring)
}

/// Each node that was found, in this order.
fn make_ready<R: Files<File = File>>(
    rt: &R,
    alloc: Global,
    folder: &Folder<'_>,
    found: Vec<Found<FileDevice>>,
    begun: &mut Vec<FolderStep>,
) -> Result<Vec<Ready<FileDevice>>, RingFault>
    ensures { IfOk result (λ ring. AreReady found.items ring.items) }
{
    let mut ring = Vec::with_capacity(alloc, found.len())?;
    for node in found {
        let number = node.number();
        match folder.ready(rt, alloc, node, begun) {
            Ok(ready) => ring.push(ready)?,
            Err(why) => return Err(RingFault::Node(number, why)),
        }
    }
    Ok(ring)
}
