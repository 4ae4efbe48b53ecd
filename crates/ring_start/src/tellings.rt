//! What a start tells of the nodes that it found.
use crate::folder::Folder;
use crate::found::Found;
use crate::log::Log;
use crate::ready::Ready;
use disk_model::FileDevice;
use log_lines::Level;
use ring_records::LAYOUT;
use std::alloc::Global;
use std::fs::File;
use std::io::Write;
use std::rt::Files;
use std::time::Clock;

/// Tells, where notices are told, the version, and the layout that is written and those of nodes that are of an earlier one.
pub(crate) fn tell_start<C: Clock, E: Write>(
    log: &mut Log<'_, C, E>,
    version: &str,
    ring: &[Found<FileDevice>],
) {
    if !log.has_notices() {
        return;
    }
    let _ = writeln!(
        log.line(Level::Notice),
        "ringd: version {version}, layout {LAYOUT}"
    );
    for node in ring {
        let (number, layout) = (node.number(), node.desk().layout());
        if layout != LAYOUT {
            let _ = writeln!(
                log.line(Level::Notice),
                "ringd: node {number} is of layout {layout}"
            );
        }
    }
}

/// Tells the ring's identity, where it has one and notices are told.
pub(crate) fn tell_identity<R: Files<File = File>, C: Clock, E: Write>(
    rt: &R,
    alloc: Global,
    folder: &Folder<'_>,
    log: &mut Log<'_, C, E>,
) {
    if !log.has_notices() {
        return;
    }
    if let Ok(Some(identity)) = folder.identity(rt, alloc) {
        let _ = writeln!(log.line(Level::Notice), "ringd: the ring is {identity}");
    }
}

/// Names each node that has another capacity than this one, which it keeps.
pub(crate) fn tell_capacities<C: Clock, E: Write>(
    log: &mut Log<'_, C, E>,
    capacity: u32,
    ring: &[Found<FileDevice>],
) {
    for node in ring {
        let (number, kept) = (node.number(), node.desk().capacity());
        if kept != capacity {
            let _ = writeln!(
                log.line(Level::Warning),
                "ringd: node {number} keeps its capacity of {kept}"
            );
        }
    }
}

/// Names each node of which no checkpoint could be made.
pub(crate) fn tell_kept<C: Clock, E: Write>(log: &mut Log<'_, C, E>, ring: &[Ready<FileDevice>]) {
    for ready in ring {
        if !ready.is_written {
            let node = ready.opened.number;
            let _ = writeln!(
                log.line(Level::Warning),
                "ringd: node {node} holds what an earlier start wrote"
            );
        }
    }
}
