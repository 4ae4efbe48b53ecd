//! The program `ringd`, over readers and writers.
ghost use Rattle.std.specs.Prelude.{◌≡◌, length};
ghost use Rattle.ring_records.specs.declared.limits.TheConstants.{DOORS};
ghost use Rattle.ring_service.specs.Words.{IsIn};
ghost use Rattle.ring_start.specs.Fits.{found_as, IsInOrder, Fits};

use crate::ports::Ports;
use crate::post::Post;
use crate::ring::{Ring, serve_ring};
use crate::run_fault::RunFault;
use crate::site::{Doors, Site};
use crate::taking::{print_settings, take_settings};
use clap::Error;
use clap::error::ErrorKind as WordFault;
use crossbeam_channel::Receiver;
use disk_model::FileDevice;
use folder_plan::FolderStep;
use log_lines::{Level, LogForm};
use ring_post::Letter;
use ring_service::{Settings, VERSION, Words, read_words};
use ring_start::{Basis, Found, Log, Ready, Target, check_ring, look_at_descriptors, make_ring};
use ring_watch::{Inquiry, StatusPort};
use std::alloc::{AllocError, Global};
use std::fs::File;
use std::io::{Read, Write};
use std::net::{Net, TcpListener, TcpStream};
use std::rt::Files;
use std::sync::Wait;
use std::thread::Threads;
use std::time::Clock;

/// Runs `ringd` on these words, of which the first is the program's name, and gives the status to end with. Settings
/// are read from `settings` where the words name no file. Where `err` is systemd's journal, its lines have the form for that
/// unless the words say another one.
pub fn start<R, I: Read, O: Write, E: Write>(
    rt: &R,
    alloc: Global,
    said: &[&str],
    is_journal: bool,
    settings: &mut I,
    out: &mut O,
    err: &mut E,
) -> u8
where
    R: Threads
        + Wait
        + Sync
        + Send
        + Copy
        + 'static
        + Clock
        + Files<File = File>
        + Net<Listener = TcpListener, Stream = TcpStream>,
{
    let words = match read_words(alloc, said) {
        Ok(words) => words,
        Err(error) => {
            let mut log = Log::new(rt, err, LogForm::of(None, is_journal));
            return tell_words(&error, out, &mut log);
        }
    };
    let log = LogForm::of(words.log, is_journal);
    let mut text = Vec::new(alloc);
    match run(
        rt,
        alloc,
        &Call { said, words, log },
        settings,
        &mut text,
        out,
        err,
    ) {
        Ok(status) => status,
        Err(fault) => {
            let mut log = Log::new(rt, err, log);
            let _ = writeln!(log.line(Level::Error), "ringd: {fault}");
            let _ = fault.print_source(&mut log, words.settings);
            let _ = fault.print_place(&mut log, alloc, &text);
            let _ = fault.print_rule(&mut log);
            fault.status()
        }
    }
}

/// Tells why the words were not taken, or what they asked for of the program, and the status for that.
fn tell_words<O: Write, C: Clock, E: Write>(
    error: &Error,
    out: &mut O,
    log: &mut Log<'_, C, E>,
) -> u8 {
    if error.kind() == WordFault::OutOfMemory {
        let fault = RunFault::Memory(AllocError);
        let _ = writeln!(log.line(Level::Error), "ringd: {fault}");
        return fault.status();
    }
    if error.use_stderr() {
        let _ = write!(log.line(Level::Error), "{error}");
    } else if write!(out, "{error}").is_err() {
        let fault = RunFault::Output;
        let _ = writeln!(log.line(Level::Error), "ringd: {fault}");
        return fault.status();
    }
    (error.exit_code() % 256) as u8
}

/// The words that are said, what they ask, and what a line on standard error begins with.
#[derive(Clone, Copy)]
struct Call<'a> {
    said: &'a [&'a str],
    words: Words<'a>,
    log: LogForm,
}

fn run<R, I: Read, O: Write, E: Write>(
    rt: &R,
    alloc: Global,
    call: &Call<'_>,
    settings: &mut I,
    text: &mut Vec<u8>,
    out: &mut O,
    err: &mut E,
) -> Result<u8, RunFault>
where
    R: Threads
        + Wait
        + Sync
        + Send
        + Copy
        + 'static
        + Clock
        + Files<File = File>
        + Net<Listener = TcpListener, Stream = TcpStream>,
    requires doors { IsIn 1 DOORS call.now.words.doors }
    requires leap { IsIn 0 999999999 call.now.words.leap }
{
    let words = &call.words;
    let settings = take_settings(rt, alloc, words.settings, settings, text)?;
    *text = Vec::new(alloc);
    if print_settings(out, &settings).is_err() {
        return Err(RunFault::Output);
    }
    let end = match (words.always, words.serve) {
        _ if words.make => make(rt, alloc, &settings, call, out, err),
        _ if words.check => check(rt, alloc, &settings, words, out),
        (true, _) => serve(rt, alloc, &settings, call, None, out, err),
        (false, Some(count)) => serve(rt, alloc, &settings, call, Some(count), out, err),
        (false, None) => return Ok(0),
    };
    match end {
        Ok(status) => Ok(status),
        Err(fault) => {
            let mut log = Log::new(rt, err, call.log);
            let _ = writeln!(log.line(Level::Error), "ringd: {fault}");
            let _ = fault.print_answer(&mut log, settings.dir.as_str(), words.listen);
            Ok(fault.status())
        }
    }
}

/// How a ring serves: its ports, the doors of each node, whether it ends with the first node that fails, what a line on
/// standard error begins with, and whether all that happens is told there.
#[derive(Drop)]
struct Serving {
    ports: Ports,
    doors: Doors,
    fail_stop: bool,
    log: LogForm,
    verbose: bool,
}

/// The ring that a start is for, by these settings and words.
fn target_of(settings: &Settings, words: &Words<'_>) -> Target
    ensures { (result.nodes ≡ settings.now.nodes) × (result.capacity ≡ settings.now.capacity) }
{
    Target {
        nodes: settings.nodes,
        capacity: settings.capacity,
        ring: words.ring,
    }
}

/// Looks at the nodes, each of which has to be there, and tells what an audit says of them. Nothing is changed.
fn check<R: Files<File = File>, O: Write>(
    rt: &R,
    alloc: Global,
    settings: &Settings,
    words: &Words<'_>,
    out: &mut O,
) -> Result<u8, RunFault> {
    let target = target_of(settings, words);
    Ok(check_ring(
        rt,
        alloc,
        settings.dir.as_str(),
        &target,
        words.leaders,
        out,
    )?)
}

/// Makes the nodes that are not there, as a start does, and serves nothing; prints the ring's identity. Where it is refused, what
/// it made is gone.
fn make<R: Files<File = File> + Clock, O: Write, E: Write>(
    rt: &R,
    alloc: Global,
    settings: &Settings,
    call: &Call<'_>,
    out: &mut O,
    err: &mut E,
) -> Result<u8, RunFault> {
    let target = target_of(settings, &call.words);
    let mut log = Log::new(rt, err, call.log);
    let dir = settings.dir.as_str();
    Ok(make_ring(rt, alloc, dir, &target, VERSION, out, &mut log)?)
}

/// Finds the nodes, has their ports, makes the nodes ready, and serves so many sessions at each, or without end. Where
/// the start is refused, what it made is gone.
fn serve<R, O: Write, E: Write>(
    rt: &R,
    alloc: Global,
    settings: &Settings,
    call: &Call<'_>,
    sessions: Option<u32>,
    out: &mut O,
    err: &mut E,
) -> Result<u8, RunFault>
where
    R: Threads
        + Wait
        + Sync
        + Send
        + Copy
        + 'static
        + Clock
        + Files<File = File>
        + Net<Listener = TcpListener, Stream = TcpStream>,
    requires doors { IsIn 1 DOORS call.now.words.doors }
    requires leap { IsIn 0 999999999 call.now.words.leap }
{
    let words = &call.words;
    // Its lock is held until the last node has ended.
    let target = target_of(settings, words);
    let basis = Basis::open(rt, alloc, settings.dir.as_str(), &target)?;
    let found = basis.find(rt, words.existing, &mut Log::new(rt, err, call.log))?;
    look_at_descriptors(settings.nodes, words.doors)?;
    let serving = Serving {
        ports: Ports::listen(rt, alloc, settings, words, call.said)?,
        doors: Doors::new(words.doors, sessions, words.idle).with_leap(words.leap),
        fail_stop: words.fail_stop,
        log: call.log,
        verbose: words.verbose,
    };
    let mut begun = Vec::new(alloc);
    let end = serve_found(rt, &basis, found, serving, &mut begun, out, err);
    if end.is_err() {
        basis.take_back(rt, &begun);
    }
    end
}

/// Makes the nodes ready that were found, and serves with them. Refused only where nothing was served.
fn serve_found<R, O: Write, E: Write>(
    rt: &R,
    basis: &Basis<'_>,
    found: Vec<Found<FileDevice>>,
    serving: Serving,
    begun: &mut Vec<FolderStep>,
    out: &mut O,
    err: &mut E,
) -> Result<u8, RunFault>
where
    R: Threads
        + Wait
        + Sync
        + Send
        + Copy
        + 'static
        + Clock
        + Files<File = File>
        + Net<Listener = TcpListener, Stream = TcpStream>,
    requires order { IsInOrder found_as found.items }
    requires count { length found.items ≡ basis.now.target.now.nodes }
    requires fits { Fits found_as basis.now.target.now.nodes found.items }
{
    let ready = basis.make_ready(
        rt,
        VERSION,
        found,
        begun,
        &mut Log::new(rt, err, serving.log),
    )?;
    let Serving {
        ports: Ports {
            listeners,
            status,
            clerks,
        },
        doors,
        fail_stop,
        log,
        verbose,
    } = serving;
    let alloc = basis.alloc;
    let status = named(rt, basis, status)?;
    let (post, inboxes) = Post::new(alloc, basis.target.nodes)?;
    let ring = Ring {
        sites: take_sites(alloc, ready, inboxes, listeners, clerks, doors)?,
        post,
        status,
        fail_stop,
        dir: String::from_str(alloc, basis.dir())?,
        log,
        verbose,
    };
    serve_ring(rt, alloc, ring, out, err)
}

/// The status port, which tells the identity of the ring, where it has one.
fn named<R: Files<File = File>>(
    rt: &R,
    basis: &Basis<'_>,
    status: Option<StatusPort>,
) -> Result<Option<StatusPort>, AllocError> {
    let Some(mut status) = status else {
        return Ok(None);
    };
    if let Some(identity) = basis.identity(rt) {
        status.name_ring(Some(format!(in basis.alloc; "{identity}")?));
    }
    Ok(Some(status))
}

/// A site for each node, in their order, with a clerk where there is one.
fn take_sites(
    alloc: Global,
    ring: Vec<Ready<FileDevice>>,
    inboxes: Vec<Receiver<Letter>>,
    listeners: Vec<TcpListener>,
    clerks: Vec<Receiver<Inquiry>>,
    doors: Doors,
) -> Result<Vec<Site<FileDevice>>, AllocError> {
    let mut clerks = clerks.into_iter();
    let mut sites = Vec::new(alloc);
    for ((ready, inbox), listener) in ring.into_iter().zip(inboxes).zip(listeners) {
        sites.push(Site::new(alloc, ready.opened, inbox, listener, doors, clerks.next()))?;
    }
    Ok(sites)
}
