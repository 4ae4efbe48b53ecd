//! What the system says of the process.
use libc::net::{POLLNVAL, poll};
use libc::types::{pollfd, rlimit};
use libc::{_SC_PAGESIZE, RLIMIT_NOFILE, getrlimit, sysconf};
use ring_status::{Process, resident_bytes};
use std::fs::File;
use std::os::unix::fs::FileExt;

/// What is longer than the line in `/proc/self/statm`.
const LINE: usize = 256;

/// How many descriptors are asked for at once, and how often. The system gives the least that is free, so the ring has none
/// above these.
const PIECE: usize = 64;

const PIECES: usize = 64;

fn resident(statm: &Option<File>) -> Option<u64> {
    let mut line = [0u8; LINE];
    let len = statm.as_ref()?.read_at(&mut line, 0).ok()?;
    let page = u32::try_from(sysconf(_SC_PAGESIZE)).ok()?;
    resident_bytes(&line[..len], page)
}

/// How many descriptors are open from this one on, in a piece.
fn open_from(first: i32) -> Option<u64> {
    let mut signs = [pollfd {
        fd: 0,
        events: 0,
        revents: 0,
    }; PIECE];
    let mut fd = first;
    for sign in &mut signs {
        sign.fd = fd;
        fd = fd.saturating_add(1);
    }
    if poll(&mut signs, 0) < 0 {
        return None;
    }
    let open = signs.iter().filter(|sign| sign.revents & POLLNVAL == 0);
    Some(open.count() as u64)
}

fn open() -> Option<u64> {
    let mut open = 0u64;
    let mut first = 0i32;
    for _ in 0..PIECES {
        open = open.saturating_add(open_from(first)?);
        first = first.saturating_add(PIECE as i32);
    }
    Some(open)
}

fn most() -> Option<u64> {
    let mut limit = rlimit {
        rlim_cur: u64::MAX,
        rlim_max: u64::MAX,
    };
    if getrlimit(RLIMIT_NOFILE, &mut limit) == 0 {
        Some(limit.rlim_cur)
    } else {
        None
    }
}

/// What the system says of the process at this moment, as far as it says so: of its memory in `/proc/self/statm`, where that
/// is open.
pub(crate) fn process(statm: &Option<File>) -> Process {
    Process {
        resident_bytes: resident(statm),
        open_fds: open(),
        max_fds: most(),
    }
}
