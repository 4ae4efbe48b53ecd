//! All nodes of a ring, each in threads of its own.
use crate::event::print_event;
use crate::node::serve_node;
use crate::post::Post;
use crate::run_fault::RunFault;
use crate::shared::Shared;
use crate::site::Site;
use crate::start_latch::StartLatch;
use crate::troubles::Troubles;
use crate::watch::Watch;
use disk_model::{Device, SystemFault};
use log_lines::{Level, LogForm};
use ring_news::{News, Shortage};
use ring_records::{NodeNo, Shown};
use ring_start::{Log, Place, print_fault};
use ring_watch::{StatusPort, Tally};
use std::alloc::{AllocError, Global};
use std::io::Write;
use std::marker::Brand;
use std::sync::{Arc, Wait};
use std::thread;
use std::thread::{JoinHandle, Scope, Threads};
use std::time::{Clock, Instant};

/// A ring that is to be served: its nodes in their order, their letterboxes, the port at which an operator is told of it, if
/// there is one, whether it ends with the first node that fails, the folder of its nodes, what a line on standard error
/// begins with, and whether all that happens is told there.
#[derive(Drop)]
pub struct Ring<V: Device> {
    pub sites: Vec<Site<V>>,
    pub post: Post,
    pub status: Option<StatusPort>,
    pub fail_stop: bool,
    pub dir: String,
    pub log: LogForm,
    pub verbose: bool,
}

/// What each node of a ring holds at the end, in their order, `None` where it failed.
type Ends = Result<Vec<Option<Shown>>, AllocError>;

// The ledgers of a node are picked here.
fn one_node<V: Device + Send + Drop, R: Threads + Wait + Clock + Sync>(
    rt: &R,
    site: Site<V>,
    shared: &Shared,
) -> Option<Shown> {
    serve_node::<Brand, Brand, V, R>(rt, site, shared)
}

/// Runs this node of the ring. However it fails, it is told.
fn watched_node<V: Device + Send + Drop, R: Threads + Wait + Clock + Sync>(
    rt: &R,
    node: NodeNo,
    site: Site<V>,
    shared: &Shared,
) -> Option<Shown> {
    let end = one_node(rt, site, shared);
    if end.is_none() {
        shared.watch.fail(rt, node, None);
    }
    end
}

/// Starts each node in a thread. One that does not start is told.
fn start_nodes<'s, N: 's, V: Device + Send + Drop + 's, R: Threads + Wait + Clock + Sync>(
    scope: &Scope<'s, N>,
    rt: &'s R,
    sites: Vec<Site<V>>,
    shared: &'s Shared,
    handles: &mut Vec<Option<JoinHandle<Option<Shown>>>>,
) {
    for site in sites {
        let node = site.node();
        let started = scope
            .spawn(move || watched_node(rt, node, site, shared))
            .ok();
        if started.is_none() {
            shared.latch.tell(rt, Err(Shortage::Thread));
        }
        if let Err(refused) = handles.push(started) {
            drop(refused);
        }
    }
}

/// Runs all nodes until the last door is done. All memory of its own is had before the first thread.
fn run_nodes<V: Device + Send + Drop, R: Threads + Wait + Clock + Sync>(
    rt: &R,
    alloc: Global,
    sites: Vec<Site<V>>,
    shared: &Shared,
) -> Ends {
    let mut handles: Vec<Option<JoinHandle<Option<Shown>>>> = Vec::with_capacity(
        alloc,
        sites.len(),
    )?;
    let mut ends: Vec<Option<Shown>> = Vec::with_capacity(alloc, sites.len())?;
    thread::scope(thread::scope_env(), rt, |scope| {
        start_nodes(scope, rt, sites, shared, &mut handles);
        for started in handles {
            let end = match started {
                Some(handle) => handle.join(rt),
                None => None,
            };
            let _ = ends.push(end);
        }
    });
    Ok(ends)
}

/// Runs all nodes, and tells where memory was wanting, and that no node runs any more.
fn run_ring<V: Device + Send + Drop, R: Threads + Wait + Clock + Sync>(
    rt: &R,
    alloc: Global,
    sites: Vec<Site<V>>,
    shared: &Shared,
) -> Ends {
    let ends = run_nodes(rt, alloc, sites, shared);
    if ends.is_err() {
        shared.latch.fail(rt, Shortage::Memory);
    }
    shared.watch.end(rt);
    ends
}

/// Prints `serving` once all threads of all nodes are there, and those that tell of the ring, and lets them go: to serve,
/// or to end where one is missing or the line is not taken.
fn let_go<R: Threads + Wait + Clock + Send + Copy + 'static, O: Write>(
    rt: &R,
    alloc: Global,
    shared: &Shared,
    out: &mut O,
) -> Result<(), RunFault> {
    let mut outcome = match shared.latch.wait_for_nodes(rt) {
        Ok(()) => shared.open_status(rt, alloc),
        Err(shortage) => Err(RunFault::from(shortage)),
    };
    if outcome.is_ok() && (writeln!(out, "serving").is_err() || out.flush().is_err()) {
        outcome = Err(RunFault::Output);
    }
    shared.latch.open(rt, outcome.is_ok());
    outcome
}

/// Tells that the node has failed, and behind it of its file, with what the system answered.
fn tell_failure<C: Clock, E: Write>(
    log: &mut Log<'_, C, E>,
    dir: &str,
    node: NodeNo,
    cause: Option<SystemFault>,
) {
    let _ = writeln!(log.line(Level::Error), "ringd: node {node} failed");
    if let Some(fault) = cause {
        let _ = print_fault(log, dir, Place::Journal, node, fault);
    }
}

/// Tells that the ring ends, where notices are told, since this node failed.
fn tell_fail_stop<C: Clock, E: Write>(log: &mut Log<'_, C, E>, node: NodeNo) {
    if log.has_notices() {
        let _ = writeln!(
            log.line(Level::Notice),
            "ringd: ends, as node {node} failed"
        );
    }
}

/// Tells of nodes that fail, hang, are full or find no memory, and that they do no more, until no node runs any more. Whether
/// it is to end before: at the first node that fails, where that is asked for.
fn tell_of_nodes<R: Wait + Clock, E: Write>(
    rt: &R,
    shared: &Shared,
    fail_stop: bool,
    dir: &str,
    log: &mut Log<'_, R, E>,
) -> bool {
    let mut troubles = Troubles::new(rt);
    for _ in rt.forever() {
        match shared.watch.next(rt) {
            News::Failed(node, cause) => {
                tell_failure(log, dir, node, cause);
                troubles.fail(node);
                if fail_stop {
                    tell_fail_stop(log, node);
                    return true;
                }
            }
            News::Happened(event) => {
                let _ = print_event(log.line(Level::Debug), &event);
                troubles.look_each_second(rt, shared, log);
            }
            News::LeftOut(count) => {
                let _ = writeln!(log.line(Level::Debug), "ringd: {count} more are left out");
            }
            News::Look => troubles.look(rt, shared, log),
            News::Ended => break,
        }
    }
    false
}

/// Prints what each node holds. The status: 1 where one failed.
fn print_ends<O: Write>(out: &mut O, ends: &[Option<Shown>]) -> Result<u8, RunFault> {
    let mut status = 0;
    let mut node = 0u8;
    for end in ends {
        node = node.saturating_add(1);
        match end {
            Some(shown) => {
                if writeln!(out, "node {node} {shown}").is_err() {
                    return Err(RunFault::Output);
                }
            }
            None => status = 1,
        }
    }
    if out.flush().is_err() {
        return Err(RunFault::Output);
    }
    Ok(status)
}

/// Tells how a ring ended that was served, and gives the status.
fn tell_end<O: Write, C: Clock, E: Write>(out: &mut O, log: &mut Log<'_, C, E>, ends: Ends) -> u8 {
    let told = match ends {
        Ok(ends) => print_ends(out, &ends),
        Err(fault) => Err(RunFault::Memory(fault)),
    };
    match told {
        Ok(status) => {
            if log.has_notices() {
                let _ = writeln!(
                    log.line(Level::Notice),
                    "ringd: ends, as all doors are done"
                );
            }
            status
        }
        Err(fault) => {
            let _ = writeln!(log.line(Level::Error), "ringd: {fault}");
            fault.status()
        }
    }
}

/// What the threads of so many nodes count that are started at this moment.
fn take_tallies(
    alloc: Global,
    nodes: usize,
    now: Option<Instant>,
) -> Result<Vec<Tally>, AllocError> {
    let mut tallies = Vec::with_capacity(alloc, nodes)?;
    for _ in 0..nodes {
        tallies.push(Tally::new(alloc, now)?)?;
    }
    Ok(tallies)
}

/// Serves with all nodes of a ring until the last door is done, and gives the status: 0, or 1 where a node failed, or
/// `out` does not take what is printed at the end. Prints `serving` first, and at the end for each node in order what it
/// holds, to `out`; that a node has failed, hangs, is full or finds no memory, and that it does no more, to `err`, and with
/// `verbose` what happens. Meanwhile it tells of the ring at its status port, where there is one: the nodes have clerks then.
/// With `fail_stop` it ends with the first node
/// that fails, and leaves the threads of the ring to the end of the program. Refused where memory or a thread is wanting,
/// or `out` does not take `serving`: nothing was served then, and no thread of a node or of the port goes on.
pub fn serve_ring<
    V: Device + Send + Drop + 'static,
    R: Threads + Wait + Clock + Sync + Send + Copy + 'static,
    O: Write,
    E: Write,
>(rt: &R, alloc: Global, ring: Ring<V>, out: &mut O, err: &mut E) -> Result<u8, RunFault> {
    let Ring {
        sites,
        post,
        status,
        fail_stop,
        dir,
        log,
        verbose,
    } = ring;
    let mut log = Log::new(rt, err, log);
    let status = match status {
        Some(status) => Some(Arc::new(alloc, status)?),
        None => None,
    };
    let shared = Shared {
        post,
        watch: Watch::new(alloc, verbose)?,
        tallies: take_tallies(alloc, sites.len(), Instant::now(rt).ok())?,
        latch: StartLatch::new(sites.len()),
        status,
    };
    let shared = Arc::new(alloc, shared)?;
    let theirs = Arc::try_clone(&shared)?;
    let own = *rt;
    let ring = thread::spawn(rt, move || run_ring(&own, alloc, sites, &theirs));
    let ring = match ring {
        Ok(ring) => ring,
        Err(_) => return Err(RunFault::Thread),
    };
    if let Err(fault) = let_go(rt, alloc, &shared, out) {
        shared.end_status(rt);
        let _ = ring.join(rt);
        return Err(fault);
    }
    if tell_of_nodes(rt, &shared, fail_stop, dir.as_str(), &mut log) {
        return Ok(1);
    }
    let ends = ring.join(rt);
    shared.end_status(rt);
    Ok(tell_end(out, &mut log, ends))
}
