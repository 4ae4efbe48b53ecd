//! The words of `ringd`.
ghost use Rattle.std.specs.Prelude.{◌≡◌, ◌||◌, nat_lt, is_none, Option, Some, None, IfOk, IfSome, map, codes, unwrap_or};
ghost use Rattle.ring_records.specs.declared.limits.TheConstants.{DOORS};
ghost use Rattle.clap.specs.Words.{first_value, found_of, one_text};
ghost use Rattle.ring_service.specs.Words.{AreAllowed, AreSaidBy, AreTold, IsForm, IsIn, IsMatched, IsRing, IsSaid};
ghost use Rattle.ring_service.specs.Hosts.{IsHost};

mod app;
mod args;

use crate::host::Host;
use app::command;
use clap::error::ErrorKind;
use clap::{ArgMatches, Error};
use folder_plan::Identity;
use log_lines::LogForm;
use ring_records::DOORS;
use std::alloc::Global;

/// The version of the program.
pub const VERSION: &str = "0.1.0";

/// What the words ask.
#[derive(Clone, Copy, PartialEq, Eq)]
pub struct Words<'a> {
    /// The path of the settings; `-` is standard input.
    pub settings: &'a str,
    /// How many sessions each node serves, 1 to 1,000. Where this and `always` say nothing, the settings are shown alone.
    pub serve: Option<u32>,
    /// Whether sessions are served without end. No words say this and `serve`.
    pub always: bool,
    /// Whether the nodes are made that are not there, and nothing is served. No words say this and `serve`, `always` or
    /// `existing`.
    pub make: bool,
    /// Whether the nodes are looked at alone, and nothing is made or served. No words say this and `serve`, `always` or
    /// `make`.
    pub check: bool,
    /// Whether each node has to be there: none is made.
    pub existing: bool,
    /// Whether the program ends where a node fails.
    pub fail_stop: bool,
    /// How many sessions a node serves side by side, 1 to 32.
    pub doors: u32,
    /// How many seconds a session may go without a whole line or a whole answer, up to 86,400; 0 is for ever.
    pub idle: u32,
    /// The port at which an operator is told of the ring, 1 to 65,535. It takes the place of a door: there are at most 31
    /// beside it.
    pub status: Option<u16>,
    /// How many clients of that port may wait for a leader, up to 64.
    pub watchers: u32,
    /// Where on this host all of them listen.
    pub listen: Host<'a>,
    /// How far above the latest known term of its group a client may stand, up to 999,999,999; 0 is for no bound.
    pub leap: u32,
    /// The identity that the ring of the folder has to have.
    pub ring: Option<Identity>,
    /// What stands before each line on standard error, where that is said.
    pub log: Option<LogForm>,
    /// Whether it is told there of sessions, retires and elections too.
    pub verbose: bool,
    /// Whether a look at the nodes tells the leaders that each one knows. No words say this without `check`.
    pub leaders: bool,
}

/// Reads words, of which the first is the program's name: `[--settings PATH] [--serve K | --always | --make
/// | --check [--leaders]] [--existing] [--fail-stop] [--doors S] [--idle SECONDS] [--status PORT] [--watchers W]
/// [--listen HOST] [--leap N] [--ring ID] [--log FORM] [--verbose]`.
/// Refused with what is to be printed, and the status.
pub fn read_words<'a>(alloc: Global, words: &'a [&'a str]) -> Result<Words<'a>, Error>
    ensures told { IfOk result (AreTold (map (λ word. word.now) words.now)) }
    ensures allowed { IfOk result AreAllowed }
{
    let mut command = command(alloc)?;
    let matches = command.try_get_matches_from_mut(words)?;
    match words_of(&matches) {
        Ok(told) => Ok(told),
        Err(objection) => Err(command.error(objection.kind(), objection.text())?),
    }
}

/// Why words are refused that `clap` takes.
#[derive(Clone, Copy)]
enum Objection {
    Number,
    Doors,
    Listen,
    Ring,
    Log,
    Leaders,
}

impl Objection {
    fn kind(self) -> ErrorKind {
        match self {
            Objection::Number | Objection::Doors => ErrorKind::ValueValidation,
            Objection::Listen | Objection::Ring | Objection::Log => ErrorKind::InvalidValue,
            Objection::Leaders => ErrorKind::MissingRequiredArgument,
        }
    }

    fn text(self) -> &'static str {
        match self {
            Objection::Number => "a number is out of its range",
            Objection::Doors => "--doors takes 1 to 31 beside --status",
            Objection::Listen =>
                "--listen takes an address of this host, as 127.0.0.1 or ::1, or its name",
            Objection::Ring => "--ring takes the 32 hexadecimal digits of a ring.id",
            Objection::Log => "--log takes plain, journal or time",
            Objection::Leaders => "--leaders stands beside --check alone",
        }
    }
}

/// The number that is matched to a word. Refused where what is matched is no number in this range, which the word's
/// parser lets nobody say.
fn number(
    matches: &ArgMatches<'_>,
    word: &str,
    low: u32,
    high: u32,
) -> Result<Option<u32>, Objection>
    ensures { IfOk result (IsMatched low high (one_text (found_of matches.now) word.now)) }
{
    match matches.try_get_one::<u32>(word) {
        Ok(None) => Ok(None),
        Ok(Some(number)) if low <= number && number <= high => Ok(Some(number)),
        _ => Err(Objection::Number),
    }
}

/// The number that is matched to a word, or this one where none is.
fn said(
    matches: &ArgMatches<'_>,
    word: &str,
    low: u32,
    high: u32,
    otherwise: u32,
) -> Result<u32, Objection>
    requires { IsIn low high otherwise }
    ensures said { IfOk result (IsSaid low high otherwise (one_text (found_of matches.now) word.now)) }
    ensures range { IfOk result (IsIn low high) }
{
    match number(matches, word, low, high)? {
        Some(number) => Ok(number),
        None => Ok(otherwise),
    }
}

/// The port that is matched to `--status`.
fn port(matches: &ArgMatches<'_>) -> Result<Option<u16>, Objection>
    ensures matched { IfOk result (IsMatched 1 65535 (one_text (found_of matches.now) (codes "status"))) }
    ensures range { IfOk result (λ port. IfSome port (IsIn 1 65535)) }
{
    match number(matches, "status", 1, 65_535)? {
        Some(port) => Ok(Some(port as u16)),
        None => Ok(None),
    }
}

/// Where all listen by what is matched to `--listen`.
fn host<'a>(matches: &ArgMatches<'a>) -> Result<Host<'a>, Objection>
    ensures { IfOk result (IsHost (unwrap_or (first_value (found_of matches.now) (codes "listen")) (codes "127.0.0.1"))) }
{
    let text = match matches.get_str("listen") {
        Some(text) => text,
        None => "127.0.0.1",
    };
    match Host::read(text) {
        Some(host) => Ok(host),
        None => Err(Objection::Listen),
    }
}

/// The identity that is matched to `--ring`.
fn ring(matches: &ArgMatches<'_>) -> Result<Option<Identity>, Objection>
    ensures { IfOk result (IsRing (first_value (found_of matches.now) (codes "ring"))) }
{
    let Some(digits) = matches.get_str("ring") else {
        return Ok(None);
    };
    match Identity::read(digits) {
        Some(identity) => Ok(Some(identity)),
        None => Err(Objection::Ring),
    }
}

/// The form that is matched to `--log`.
fn form(matches: &ArgMatches<'_>) -> Result<Option<LogForm>, Objection>
    ensures { IfOk result (IsForm (first_value (found_of matches.now) (codes "log"))) }
{
    let Some(text) = matches.get_str("log") else {
        return Ok(None);
    };
    match LogForm::read(text) {
        Some(form) => Ok(Some(form)),
        None => Err(Objection::Log),
    }
}

/// Whether the doors leave a place for who tells of the ring, where that is asked for.
fn have_place(doors: u32, status: Option<u16>) -> bool
    ensures { result ≡ (is_none status || nat_lt doors DOORS) }
{
    status.is_none() || doors < DOORS
}

/// What is matched.
fn words_of<'a>(matches: &ArgMatches<'a>) -> Result<Words<'a>, Objection>
    ensures said { IfOk result (AreSaidBy matches.now) }
    ensures allowed { IfOk result AreAllowed }
{
    let settings = match matches.get_str("settings") {
        Some(path) => path,
        None => "-",
    };
    let serve = number(matches, "serve", 1, 1000)?;
    let idle = said(matches, "idle", 0, 86_400, 0)?;
    let status = port(matches)?;
    let watchers = said(matches, "watchers", 0, 64, 16)?;
    let doors = said(matches, "doors", 1, DOORS, 1)?;
    if !have_place(doors, status) {
        return Err(Objection::Doors);
    }
    let listen = host(matches)?;
    let leap = said(matches, "leap", 0, 999_999_999, 1_000_000)?;
    let ring = ring(matches)?;
    let log = form(matches)?;
    let check = matches.get_flag("check");
    let leaders = matches.get_flag("leaders");
    if leaders && !check {
        return Err(Objection::Leaders);
    }
    Ok(Words {
        settings,
        serve,
        always: matches.get_flag("always"),
        make: matches.get_flag("make"),
        check,
        existing: matches.get_flag("existing"),
        fail_stop: matches.get_flag("fail-stop"),
        doors,
        idle,
        status,
        watchers,
        listen,
        leap,
        ring,
        log,
        verbose: matches.get_flag("verbose"),
        leaders,
    })
}
