//! What ends a run of `ringd` before its end.
use disk_model::SystemFault;
use log_lines::Level;
use ring_service::{Host, Setting, StartFault, line_of_fault, unknown_key};
use ring_start::{Log, RingFault};
use std::alloc::{AllocError, Global};
use std::io::Write;
use std::net::SocketAddr;
use std::time::Clock;
use std::{io, str};
use thiserror::Error;

/// Why a run ended early, displayed without the program's name.
#[derive(Clone, Copy, Debug, Error)]
pub enum RunFault {
    /// The system did not give them and answered so, or they are not UTF-8, or too long.
    #[error("settings cannot be read")]
    Settings(Option<SystemFault>),
    /// They are refused.
    #[error(transparent)]
    Start(#[from] StartFault),
    /// The ring was not opened.
    #[error(transparent)]
    Ring(#[from] RingFault),
    /// The host that is to be listened at has a name of which the system tells no address.
    #[error("no address is known to listen at")]
    Host,
    /// A port is in use, or not to be had: the system answered so.
    #[error("port {} cannot be used", .0.port())]
    Port(SocketAddr, SystemFault),
    /// A line was not printed.
    #[error("output cannot be written")]
    Output,
    /// The system gave no thread.
    #[error("no thread can be started")]
    Thread,
    /// A growth was refused.
    #[error("out of memory")]
    Memory(#[from(alloc)] AllocError),
}

impl RunFault {
    /// A line of what the system answered, where a node of this folder was not opened for that, or a port not had, or this
    /// host has no address.
    pub(crate) fn print_answer<C: Clock, E: Write>(
        &self,
        log: &mut Log<'_, C, E>,
        dir: &str,
        host: Host<'_>,
    ) -> io::Result<()> {
        match self {
            RunFault::Ring(fault) => fault.print_answer(log, dir),
            RunFault::Port(address, fault) => {
                writeln!(log.line(Level::Error), "ringd: {address}: {fault}")
            }
            RunFault::Host => match host {
                Host::Name(name) => writeln!(log.line(Level::Error), "ringd: {name}: no address"),
                Host::Address(_) => Ok(()),
            },
            _ => Ok(()),
        }
    }

    /// A line of what the system answered, where the settings at this path cannot be read.
    pub(crate) fn print_source<C: Clock, E: Write>(
        &self,
        log: &mut Log<'_, C, E>,
        path: &str,
    ) -> io::Result<()> {
        match self {
            RunFault::Settings(Some(fault)) => {
                writeln!(log.line(Level::Error), "ringd: {path}: {fault}")
            }
            _ => Ok(()),
        }
    }

    /// A line of where this text of settings is no TOML, or of a key of it that is no setting.
    pub(crate) fn print_place<C: Clock, E: Write>(
        &self,
        log: &mut Log<'_, C, E>,
        alloc: Global,
        text: &[u8],
    ) -> io::Result<()> {
        let Ok(text) = str::from_utf8(text) else {
            return Ok(());
        };
        match self {
            RunFault::Start(StartFault::Toml) => match line_of_fault(alloc, text) {
                Some(line) => writeln!(
                    log.line(Level::Error),
                    "ringd: line {line} of the settings"
                ),
                None => Ok(()),
            },
            RunFault::Start(StartFault::Unknown) => match unknown_key(alloc, text) {
                Some(key) => writeln!(log.line(Level::Error), "ringd: setting {key} is unknown"),
                None => Ok(()),
            },
            _ => Ok(()),
        }
    }

    /// A line of what a setting may be, where one is missing, wrong or unknown.
    pub(crate) fn print_rule<C: Clock, E: Write>(&self, log: &mut Log<'_, C, E>) -> io::Result<()> {
        match self {
            RunFault::Start(StartFault::Missing(setting) | StartFault::Wrong(setting)) => {
                let values = values_of(*setting);
                writeln!(log.line(Level::Error), "ringd: {setting} is {values}")
            }
            RunFault::Start(StartFault::Unknown) => writeln!(
                log.line(Level::Error),
                "ringd: settings are nodes, dir, port and capacity"
            ),
            _ => Ok(()),
        }
    }

    /// The status that the program ends with: 2 where the settings are at fault.
    pub fn status(&self) -> u8 {
        match self {
            RunFault::Start(StartFault::Memory) => 1,
            RunFault::Settings(_) | RunFault::Start(_) => 2,
            _ => 1,
        }
    }
}

/// What the setting may be.
fn values_of(setting: Setting) -> &'static str {
    match setting {
        Setting::Nodes => "a number from 2 to 16",
        Setting::Dir => "a path of 1 to 200 printed ASCII characters, none of them a space",
        Setting::Port => "a number from 1 to 65535, as is the port of the last node",
        Setting::Capacity => "a number from 4096 to 1048576",
    }
}
