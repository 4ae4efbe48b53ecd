//! The command of `ringd`, word by word.
ghost use Rattle.std.specs.Prelude.{◌≡◌, false, IfOk};
ghost use Rattle.ring_records.specs.declared.limits.TheConstants.{DOORS};
ghost use Rattle.clap.specs.Words.{app_of, rule_of, with_rule};
ghost use Rattle.ring_service.specs.Words.{alone_rule, always_rule, flag_rule, ringd_app, with_doors, with_folder, with_ring, with_service, with_status, with_tellings, with_works};

use crate::words::args::{
    alone_arg, always_arg, flag_arg, listen_arg, number_arg, settings_arg, text_arg,
};
use clap::{Arg, Command};
use ring_records::DOORS;
use std::alloc::{AllocError, Global};

// The version of the program, with the layout that it writes, and reads as the newest one.
const VERSION_AND_LAYOUT: &str = "0.1.0 (layout 3)";

/// The command with one more argument.
fn with_arg<'a>(command: Command<'a>, arg: Arg<'a>) -> Result<Command<'a>, AllocError>
    requires { arg.global ≡ false }
    ensures { IfOk result (λ more. app_of more ≡ with_rule (app_of command.entry) (rule_of arg.entry)) }
{
    command.arg(arg)
}

/// With `--always`.
fn with_always<'a>(alloc: Global, command: Command<'a>) -> Result<Command<'a>, AllocError>
    ensures { IfOk result (λ more. app_of more ≡ with_rule (app_of command.entry) always_rule) }
{
    match always_arg(alloc) {
        Ok(always) => with_arg(command, always),
        Err(error) => {
            drop(command);
            Err(error)
        }
    }
}

/// With a flag that stands beside neither this other word nor one that serves.
fn with_alone<'a>(
    alloc: Global,
    command: Command<'a>,
    name: &'a str,
    other: &'a str,
    help: &'a str,
) -> Result<Command<'a>, AllocError>
    ensures { IfOk result (λ more. app_of more ≡ with_rule (app_of command.entry) (alone_rule name.now)) }
{
    match alone_arg(alloc, name, other, help) {
        Ok(alone) => with_arg(command, alone),
        Err(error) => {
            drop(command);
            Err(error)
        }
    }
}

/// With a flag.
fn with_flag<'a>(
    alloc: Global,
    command: Command<'a>,
    name: &'a str,
    heading: &'a str,
    help: &'a str,
) -> Result<Command<'a>, AllocError>
    ensures { IfOk result (λ more. app_of more ≡ with_rule (app_of command.entry) (flag_rule name.now)) }
{
    with_arg(command, flag_arg(alloc, name, heading, help))
}

/// With the words that say which settings, and for how long.
fn with_service<'a>(alloc: Global, command: Command<'a>) -> Result<Command<'a>, AllocError>
    ensures { IfOk result (λ more. app_of more ≡ with_service (app_of command.entry)) }
{
    let command = with_arg(command, settings_arg(alloc))?;
    let serve = number_arg(
        alloc,
        "serve",
        "K",
        1,
        1000,
        "Sessions",
        "Serves K sessions at each node, at all its doors together, 1 to 1000, and ends; the settings alone are \
         shown without this and --always",
    );
    let command = with_arg(command, serve)?;
    with_always(alloc, command)
}

/// With the words that say what is done with the folder.
fn with_folder<'a>(alloc: Global, command: Command<'a>) -> Result<Command<'a>, AllocError>
    ensures { IfOk result (λ more. app_of more ≡ with_folder (app_of command.entry)) }
{
    let existing = "Makes no node: each has to be there";
    let command = with_flag(alloc, command, "existing", "Ring", existing)?;
    let fail_stop = "Ends with status 1 where a node fails; a start goes on";
    let command = with_flag(alloc, command, "fail-stop", "Ring", fail_stop)?;
    with_works(alloc, command)
}

/// With the words that say what is done in place of serving.
fn with_works<'a>(alloc: Global, command: Command<'a>) -> Result<Command<'a>, AllocError>
    ensures { IfOk result (λ more. app_of more ≡ with_works (app_of command.entry)) }
{
    let make = "Makes the nodes that are not there, and ends";
    let command = with_alone(alloc, command, "make", "existing", make)?;
    let check = "Looks at the nodes of a ring that is stopped, changes nothing, and ends";
    with_alone(alloc, command, "check", "make", check)
}

/// With the words that say how clients are served.
fn with_doors<'a>(alloc: Global, command: Command<'a>) -> Result<Command<'a>, AllocError>
    ensures { IfOk result (λ more. app_of more ≡ with_doors (app_of command.entry)) }
{
    let doors = number_arg(
        alloc,
        "doors",
        "S",
        1,
        DOORS,
        "Sessions",
        "Serves S sessions side by side at each node, 1 to 32; 1 where it is not said",
    );
    let command = with_arg(command, doors)?;
    let idle = number_arg(
        alloc,
        "idle",
        "SECONDS",
        0,
        86_400,
        "Sessions",
        "Ends a session that has sent no whole line, or taken no whole answer, for so long, 0 to 86400; 0, for \
         never, where it is not said",
    );
    let command = with_arg(command, idle)?;
    with_status(alloc, command)
}

/// With the words that say where an operator is told of the ring, and how many may wait there.
fn with_status<'a>(alloc: Global, command: Command<'a>) -> Result<Command<'a>, AllocError>
    ensures { IfOk result (λ more. app_of more ≡ with_status (app_of command.entry)) }
{
    let status = number_arg(
        alloc,
        "status",
        "PORT",
        1,
        65_535,
        "Status",
        "Tells of the ring by HTTP at this port, 1 to 65535: /, /live, /ready, /health, /status, /metrics, /leaders; \
         with 31 doors at most",
    );
    let command = with_arg(command, status)?;
    let watchers = number_arg(
        alloc,
        "watchers",
        "W",
        0,
        64,
        "Status",
        "Lets W clients wait for a leader there, 0 to 64; 16 where it is not said",
    );
    with_arg(command, watchers)
}

/// With the words that say where, and of which ring.
fn with_ring<'a>(alloc: Global, command: Command<'a>) -> Result<Command<'a>, AllocError>
    ensures { IfOk result (λ more. app_of more ≡ with_ring (app_of command.entry)) }
{
    let command = with_arg(command, listen_arg(alloc))?;
    let leap = number_arg(
        alloc,
        "leap",
        "N",
        0,
        999_999_999,
        "Sessions",
        "Refuses a client that stands for a term more than N above the latest that is known for its group, 0 to \
         999999999; 0, for no bound; 1000000 where it is not said",
    );
    let command = with_arg(command, leap)?;
    let ring = text_arg(
        alloc,
        "ring",
        "ID",
        "Ring",
        "Refuses a folder whose ring.id tells not this identity, or that has none",
    );
    with_arg(command, ring)
}

/// With the words that say what is told.
fn with_tellings<'a>(alloc: Global, command: Command<'a>) -> Result<Command<'a>, AllocError>
    ensures { IfOk result (λ more. app_of more ≡ with_tellings (app_of command.entry)) }
{
    let log = text_arg(
        alloc,
        "log",
        "FORM",
        "Status",
        "Puts before each line on standard error nothing where FORM is plain, its level as systemd reads it where it \
         is journal, or the time and the level where it is time; the last two tell more; where it is not said it is \
         journal where standard error is systemd's journal, else plain",
    );
    let command = with_arg(command, log)?;
    let leaders = "Tells with --check the latest leader of each group by each node";
    let command = with_flag(alloc, command, "leaders", "Ring", leaders)?;
    let verbose = "Tells on standard error of sessions, retires and elections too";
    with_flag(alloc, command, "verbose", "Status", verbose)
}

/// The command that the words are of.
pub(crate) fn command<'a>(alloc: Global) -> Result<Command<'a>, AllocError>
    ensures { IfOk result (λ command. app_of command ≡ ringd_app) }
{
    let named = Command::new(alloc, "ringd")
        .version(VERSION_AND_LAYOUT)
        .about("A ring of durable nodes that elect a leader for each group and term");
    let command = with_service(alloc, named)?;
    let command = with_folder(alloc, command)?;
    let command = with_doors(alloc, command)?;
    let command = with_ring(alloc, command)?;
    with_tellings(alloc, command)
}
