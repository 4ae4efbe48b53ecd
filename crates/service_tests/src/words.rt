// What words of `ringd` ask, as texts.
use ring_service::{Host, Words, read_words};
use std::alloc::{AllocError, AllocGlobal, Global};
use std::test::*;

/// Words, and what they ask: first what is known where they do not say it, then what they say.
static ROWS: &[(&str, &str)] = &[
    (
        "ringd",
        "settings - doors 1 idle 0 watchers 16 listen 127.0.0.1 leap 1000000",
    ),
    (
        "ringd --serve 7 --settings=x",
        "settings x doors 1 idle 0 watchers 16 listen 127.0.0.1 leap 1000000 serve 7",
    ),
    (
        "ringd --always --existing --doors=32 --idle 86400",
        "settings - doors 32 idle 86400 watchers 16 listen 127.0.0.1 leap 1000000 always existing",
    ),
    (
        "ringd --fail-stop --serve=1000",
        "settings - doors 1 idle 0 watchers 16 listen 127.0.0.1 leap 1000000 serve 1000 fail-stop",
    ),
    (
        "ringd --make",
        "settings - doors 1 idle 0 watchers 16 listen 127.0.0.1 leap 1000000 make",
    ),
    (
        "ringd --check --existing",
        "settings - doors 1 idle 0 watchers 16 listen 127.0.0.1 leap 1000000 check existing",
    ),
    (
        "ringd --status 65535 --doors=31",
        "settings - doors 31 idle 0 watchers 16 listen 127.0.0.1 leap 1000000 status 65535",
    ),
    (
        "ringd --listen 0.0.0.0 --watchers=0",
        "settings - doors 1 idle 0 watchers 0 listen 0.0.0.0 leap 1000000",
    ),
    (
        "ringd --leap=0",
        "settings - doors 1 idle 0 watchers 16 listen 127.0.0.1 leap 0",
    ),
    (
        "ringd --check --leaders --log=time",
        "settings - doors 1 idle 0 watchers 16 listen 127.0.0.1 leap 1000000 log time check leaders",
    ),
    (
        "ringd --log journal",
        "settings - doors 1 idle 0 watchers 16 listen 127.0.0.1 leap 1000000 log journal",
    ),
    (
        "ringd --ring 00112233445566778899aabbccddeeff",
        "settings - doors 1 idle 0 watchers 16 listen 127.0.0.1 leap 1000000 ring 00112233445566778899aabbccddeeff",
    ),
    (
        "ringd --log=plain --verbose",
        "settings - doors 1 idle 0 watchers 16 listen 127.0.0.1 leap 1000000 log plain verbose",
    ),
    (
        "ringd --listen localhost",
        "settings - doors 1 idle 0 watchers 16 listen localhost leap 1000000",
    ),
    (
        "ringd --listen=::1",
        "settings - doors 1 idle 0 watchers 16 listen ::1 leap 1000000",
    ),
    (
        "ringd --listen [::]",
        "settings - doors 1 idle 0 watchers 16 listen :: leap 1000000",
    ),
];

/// Adds a number, where it is said.
fn add_number(text: &mut String, name: &str, said: Option<u32>) -> Result<(), AllocError> {
    match said {
        Some(number) => write!(text, " {name} {number}"),
        None => Ok(()),
    }
}

/// Adds where is listened.
fn add_host(text: &mut String, host: Host<'_>) -> Result<(), AllocError> {
    match host {
        Host::Address(address) => write!(text, " listen {address}"),
        Host::Name(name) => write!(text, " listen {name}"),
    }
}

/// Adds the options of the words that have no value where they are not said.
fn add_options(text: &mut String, words: &Words<'_>) -> Result<(), AllocError> {
    add_number(text, "serve", words.serve)?;
    add_number(text, "status", words.status.map(u32::from))?;
    if let Some(ring) = words.ring {
        write!(text, " ring {ring}")?;
    }
    match words.log {
        Some(log) => write!(text, " log {}", log.name()),
        None => Ok(()),
    }
}

/// Adds the flags of the words that are said.
fn add_flags(text: &mut String, words: &Words<'_>) -> Result<(), AllocError> {
    let flags = [
        (words.always, " always"),
        (words.make, " make"),
        (words.check, " check"),
        (words.leaders, " leaders"),
        (words.existing, " existing"),
        (words.fail_stop, " fail-stop"),
        (words.verbose, " verbose"),
    ];
    for (is_said, name) in flags {
        if is_said {
            text.push_str(name)?;
        }
    }
    Ok(())
}

/// Adds what words ask.
fn add_words(text: &mut String, words: &Words<'_>) -> Result<(), AllocError> {
    let (settings, doors, idle) = (words.settings, words.doors, words.idle);
    let watchers = words.watchers;
    write!(
        text,
        "settings {settings} doors {doors} idle {idle} watchers {watchers}"
    )?;
    add_host(text, words.listen)?;
    add_number(text, "leap", Some(words.leap))?;
    add_options(text, words)?;
    add_flags(text, words)
}

/// What the words of a line ask, or that they are refused.
fn asked_by(alloc: Global, line: &'static str) -> Result<String, AllocError> {
    let words: Vec<&str> = line.split(' ').collect(alloc)?;
    let mut text = String::new(alloc);
    let read = read_words(alloc, &words);
    match &read {
        Ok(read) => add_words(&mut text, read)?,
        Err(_) => text.push_str("refused")?,
    }
    drop(read);
    Ok(text)
}

#[test]
fn words(rt: HostRuntime) {
    for (line, asked) in ROWS {
        let text = asked_by(rt.alloc(), line).expect(&rt, "ample memory");
        assert!(rt; text.as_str() == *asked);
    }
}
