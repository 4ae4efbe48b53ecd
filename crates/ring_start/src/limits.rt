//! What the system lets the process have.
ghost use Rattle.std.specs.Prelude.{◌≡◌, ◌+◌, ◌*◌, ◌≤◌, ◌↔◌, IsOk, OnErr, Err};

use crate::found::Found;
use crate::ring_fault::RingFault;
use disk_model::Device;
use gated_journal::device_size;
use libc::types::rlimit;
use libc::{RLIMIT_NOFILE, getrlimit};

/// Linux's number of the limit on a file's length.
const RLIMIT_FSIZE: i32 = 1;

/// What the system lets the process have of this, or all where it does not say.
fn limit_of(resource: i32) -> u64 {
    let mut limit = rlimit {
        rlim_cur: u64::MAX,
        rlim_max: u64::MAX,
    };
    if getrlimit(resource, &mut limit) == 0 {
        limit.rlim_cur
    } else {
        u64::MAX
    }
}

/// Refused where the file of one of these nodes comes to be longer than a file may be: the system ends with a signal who
/// writes more.
pub(crate) fn look_at_files<V: Device>(ring: &[Found<V>]) -> Result<(), RingFault> {
    let limit = limit_of(RLIMIT_FSIZE);
    for node in ring {
        stay_within(limit, device_size(node.desk().capacity()))?;
    }
    Ok(())
}

/// Refused where so many nodes with so many doors each, and the one that is kept, have too few descriptors: a file, a port
/// and the clients of each, the folder, and the standard streams.
pub fn look_at_descriptors(nodes: u8, doors: u32) -> Result<(), RingFault> {
    have_descriptors(limit_of(RLIMIT_NOFILE), descriptors_of(nodes, doors))
}

/// How many descriptors a ring takes: three a node and one for each of its doors, and four beside these.
fn descriptors_of(nodes: u8, doors: u32) -> u64
    ensures { result ≡ 4 + nodes * (3 + doors) }
{
    4 + u64::from(nodes) * (3 + u64::from(doors))
}

/// Refused where a file of so many bytes is longer than one may be.
fn stay_within(limit: u64, bytes: u64) -> Result<(), RingFault>
    ensures within { IsOk result ↔ (bytes ≤ limit) }
    ensures refusal { OnErr result (result ≡ Err (RingFault.FileLimit limit bytes)) }
{
    if bytes <= limit {
        Ok(())
    } else {
        Err(RingFault::FileLimit(limit, bytes))
    }
}

/// Refused where fewer descriptors may be had than these.
fn have_descriptors(limit: u64, needed: u64) -> Result<(), RingFault>
    ensures within { IsOk result ↔ (needed ≤ limit) }
    ensures refusal { OnErr result (result ≡ Err (RingFault.Descriptors limit needed)) }
{
    if needed <= limit {
        Ok(())
    } else {
        Err(RingFault::Descriptors(limit, needed))
    }
}
