//! The ports of a ring.
use crate::run_fault::RunFault;
use crossbeam_channel::Receiver;
use disk_model::{SystemCall, SystemFault};
use ring_service::{Host, Settings, VERSION, Words};
use ring_watch::{Facts, Inquiry, Reception, StatusPort};
use std::alloc::{AllocError, Global};
use std::fs::File;
use std::io::ErrorKind;
use std::net::{IpAddr, Net, SocketAddr, TcpListener, TcpStream, ToSocketAddrs};
use std::rt::Files;
use std::time::Clock;

/// The listeners of the nodes, in their order; and the port at which an operator is told of the ring, with what the clerks
/// of its nodes are asked, in their order, or none where no port is said.
#[derive(Drop)]
pub(crate) struct Ports {
    pub(crate) listeners: Vec<TcpListener>,
    pub(crate) status: Option<StatusPort>,
    pub(crate) clerks: Vec<Receiver<Inquiry>>,
}

impl Ports {
    /// All of them, as the words say, which were said so. Refused with the first that is not to be had.
    pub(crate) fn listen<
        R: Clock + Files<File = File> + Net<Listener = TcpListener, Stream = TcpStream>,
    >(
        rt: &R,
        alloc: Global,
        settings: &Settings,
        words: &Words<'_>,
        said: &[&str],
    ) -> Result<Ports, RunFault> {
        let address = address_of(rt, words.listen)?;
        let listeners = listen(rt, alloc, settings, address)?;
        let (status, clerks) = listen_for_questions(rt, alloc, settings, words, address, said)?;
        Ok(Ports {
            listeners,
            status,
            clerks,
        })
    }
}

/// A listener at this port.
fn listen_at<R: Net<Listener = TcpListener, Stream = TcpStream>>(
    rt: &R,
    address: IpAddr,
    port: u16,
) -> Result<TcpListener, RunFault> {
    match TcpListener::bind(rt, (address, port)) {
        Ok(listener) => Ok(listener),
        Err(error) => {
            let fault = SystemFault::new(SystemCall::Listen, &error);
            Err(RunFault::Port(SocketAddr::new(address, port), fault))
        }
    }
}

/// The address, or the first one that the system tells for the name.
fn address_of<R: Net>(rt: &R, host: Host<'_>) -> Result<IpAddr, RunFault> {
    let name = match host {
        Host::Address(address) => return Ok(address),
        Host::Name(name) => name,
    };
    match (name, 0u16).to_socket_addrs(rt) {
        Ok(mut found) => match found.next() {
            Some(first) => Ok(first.ip()),
            None => Err(RunFault::Host),
        },
        Err(error) if error.kind() == ErrorKind::OutOfMemory => Err(RunFault::Memory(AllocError)),
        Err(_) => Err(RunFault::Host),
    }
}

/// Each node listens at a port of its own, the first one at the port that is set.
fn listen<R: Net<Listener = TcpListener, Stream = TcpStream>>(
    rt: &R,
    alloc: Global,
    settings: &Settings,
    address: IpAddr,
) -> Result<Vec<TcpListener>, RunFault> {
    let mut listeners = Vec::new(alloc);
    for place in 0..settings.nodes {
        let port = settings.port + u16::from(place);
        listeners.push(listen_at(rt, address, port)?)?;
    }
    Ok(listeners)
}

/// The words behind the first, with a space between two.
fn joined(alloc: Global, said: &[&str]) -> Result<String, AllocError> {
    let mut text = String::new(alloc);
    for word in said.iter().skip(1) {
        if !text.as_str().is_empty() {
            text.push_str(" ")?;
        }
        text.push_str(word)?;
    }
    Ok(text)
}

/// The port at which an operator is told of the ring, and what the clerks of its nodes are asked, in their order; none
/// where no port is said.
fn listen_for_questions<
    R: Clock + Files<File = File> + Net<Listener = TcpListener, Stream = TcpStream>,
>(
    rt: &R,
    alloc: Global,
    settings: &Settings,
    words: &Words<'_>,
    address: IpAddr,
    said: &[&str],
) -> Result<(Option<StatusPort>, Vec<Receiver<Inquiry>>), RunFault> {
    let Some(port) = words.status else {
        return Ok((None, Vec::new(alloc)));
    };
    let listener = listen_at(rt, address, port)?;
    let facts = Facts {
        version: VERSION,
        ring: None,
        dir: String::from_str(alloc, settings.dir.as_str())?,
        started: match rt.since_1970() {
            Ok(now) => now.as_secs(),
            Err(_) => 0,
        },
        words: joined(alloc, said)?,
        idle: words.idle,
        statm: File::open(rt, "/proc/self/statm").ok(),
    };
    let (reception, clerks) = Reception::new(alloc, settings.nodes)?;
    let watchers = words.watchers as usize;
    let status = StatusPort::new(listener, facts, reception, watchers);
    Ok((Some(status), clerks))
}
