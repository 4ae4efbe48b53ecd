// Settings and words where a growth is refused.
use ring_service::{Host, Settings, StartFault, Words, read_settings, read_words};
use std::alloc::{AllocGlobal, Global};
use std::net::{IpAddr, Ipv4Addr};
use std::process::Abort;
use std::test::*;

const TEXT: &str = "nodes = 3\ndir = \"state\"\nport = 7101\n";

static WORDS: &[&str] = &["ringd", "--serve", "7", "--settings=x"];

/// What the words ask.
const ASKED: Words<'static> = Words {
    settings: "x",
    serve: Some(7),
    always: false,
    make: false,
    check: false,
    existing: false,
    fail_stop: false,
    doors: 1,
    idle: 0,
    status: None,
    watchers: 16,
    listen: Host::Address(IpAddr::V4(Ipv4Addr::LOCALHOST)),
    leap: 1_000_000,
    ring: None,
    log: None,
    verbose: false,
    leaders: false,
};

/// These settings, at the second call where the first finds no memory.
fn settings_at_last(rt: &impl Abort, alloc: Global, text: &str) -> Settings {
    match read_settings(alloc, text) {
        Ok(read) => read,
        Err(fault) => {
            assert!(rt; fault == StartFault::Memory);
            read_settings(alloc, text).expect(rt, "ample memory")
        }
    }
}

/// These words ask this, at the second call where the first finds no memory.
fn asks_at_last(
    rt: &impl Abort,
    alloc: Global,
    words: &'static [&'static str],
    asked: Words<'static>,
) {
    match read_words(alloc, words) {
        Ok(read) => assert!(rt; read == asked),
        Err(_) => match read_words(alloc, words) {
            Ok(read) => assert!(rt; read == asked),
            Err(_) => panic!(rt; "ample memory"),
        },
    }
}

#[test]
fn refused_growths(rt: HostRuntime) {
    let read = settings_at_last(&rt, rt.alloc(), TEXT);
    assert!(rt; (read.nodes, read.port, read.capacity) == (3, 7101, 65_536));
    assert!(rt; read.dir.as_str() == "state");
    asks_at_last(&rt, rt.alloc(), WORDS, ASKED);
}
