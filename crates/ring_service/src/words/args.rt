//! The words of `ringd`, each as `clap` reads it.
ghost use Rattle.std.specs.Prelude.{◌≡◌, false, IfOk};
ghost use Rattle.clap.specs.Words.{rule_of};
ghost use Rattle.ring_service.specs.Words.{alone_rule, always_rule, flag_rule, listen_rule, number_rule, settings_rule, text_rule};

use clap::{Arg, ArgAction, value_parser};
use std::alloc::{AllocError, Global};

/// `--NAME`, a flag, which is told of under this heading.
pub(crate) fn flag_arg<'a>(alloc: Global, name: &'a str, heading: &'a str, help: &'a str) -> Arg<'a>
    ensures rule { rule_of result ≡ flag_rule name.now }
    ensures local { result.global ≡ false }
{
    Arg::new(alloc, name)
        .long(name)
        .help_heading(heading)
        .help(help)
        .action(ArgAction::SetTrue)
}

/// `--NAME VALUE`, a number from `low` to `high`.
pub(crate) fn number_arg<'a>(
    alloc: Global,
    name: &'a str,
    value: &'a str,
    low: u32,
    high: u32,
    heading: &'a str,
    help: &'a str,
) -> Arg<'a>
    ensures rule { rule_of result ≡ number_rule name.now low high }
    ensures local { result.global ≡ false }
{
    Arg::new(alloc, name)
        .long(name)
        .value_name(value)
        .help_heading(heading)
        .help(help)
        .value_parser(value_parser!(u32).range(i64::from(low)..=i64::from(high)))
}

/// `--NAME VALUE`, a text.
pub(crate) fn text_arg<'a>(
    alloc: Global,
    name: &'a str,
    value: &'a str,
    heading: &'a str,
    help: &'a str,
) -> Arg<'a>
    ensures rule { rule_of result ≡ text_rule name.now }
    ensures local { result.global ≡ false }
{
    Arg::new(alloc, name)
        .long(name)
        .value_name(value)
        .help_heading(heading)
        .help(help)
}

/// `--settings PATH`
pub(crate) fn settings_arg<'a>(alloc: Global) -> Arg<'a>
    ensures rule { rule_of result ≡ settings_rule }
    ensures local { result.global ≡ false }
{
    Arg::new(alloc, "settings")
        .long("settings")
        .value_name("PATH")
        .help_heading("Ring")
        .help("Reads the settings from this file; - is standard input")
        .default_value("-")
}

/// `--listen HOST`
pub(crate) fn listen_arg<'a>(alloc: Global) -> Arg<'a>
    ensures rule { rule_of result ≡ listen_rule }
    ensures local { result.global ≡ false }
{
    Arg::new(alloc, "listen")
        .long("listen")
        .value_name("HOST")
        .help_heading("Ring")
        .help(
            "Listens at this address of the host, IPv4 or IPv6, or at the first one of this name; who reaches it may ask \
             all, and nothing is encrypted",
        )
        .default_value("127.0.0.1")
}

/// `--always`
pub(crate) fn always_arg<'a>(alloc: Global) -> Result<Arg<'a>, AllocError>
    ensures rule { IfOk result (λ arg. rule_of arg ≡ always_rule) }
    ensures local { IfOk result (λ arg. arg.global ≡ false) }
{
    Arg::new(alloc, "always")
        .long("always")
        .help_heading("Sessions")
        .help("Serves sessions without end, in place of --serve")
        .action(ArgAction::SetTrue)
        .conflicts_with("serve")
}

/// `--NAME`, a flag that stands beside neither this other word nor one that serves.
pub(crate) fn alone_arg<'a>(
    alloc: Global,
    name: &'a str,
    other: &'a str,
    help: &'a str,
) -> Result<Arg<'a>, AllocError>
    ensures rule { IfOk result (λ arg. rule_of arg ≡ alone_rule name.now) }
    ensures local { IfOk result (λ arg. arg.global ≡ false) }
{
    Arg::new(alloc, name)
        .long(name)
        .help_heading("Ring")
        .help(help)
        .action(ArgAction::SetTrue)
        .conflicts_with(other)?
        .conflicts_with("serve")?
        .conflicts_with("always")
}
