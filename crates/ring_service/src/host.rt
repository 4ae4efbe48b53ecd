//! Where on a host ports are listened at.
ghost use Rattle.std.specs.Prelude.{◌≡◌, IfNone, IfSome};
ghost use Rattle.std.specs.Net.Grammar.{IsIpText, IsIpv6Text};
ghost use Rattle.ring_service.specs.Hosts.{IsHost, inner_of};

use std::net::{IpAddr, Ipv6Addr};

/// An address of this host, or a name that stands for some.
#[derive(Clone, Copy, PartialEq, Eq)]
pub enum Host<'a> {
    Address(IpAddr),
    /// 1 to 253 letters, digits, `-`, `_` and dots, with a letter first behind the last dot.
    Name(&'a str),
}

/// Whether the byte may stand in a name of a host.
fn is_of_name(byte: u8) -> bool {
    byte.is_ascii_alphanumeric() || byte == b'-' || byte == b'_' || byte == b'.'
}

/// What stands behind the last dot.
fn last_label(text: &str) -> &str {
    match text.rsplit_once('.') {
        Some((_, last)) => last,
        None => text,
    }
}

/// Whether the text may name a host. So nothing that is nearly an address is taken for a name.
fn is_name(text: &str) -> bool {
    let bytes = text.as_bytes();
    match last_label(text).as_bytes().first() {
        Some(first) => {
            first.is_ascii_alphabetic()
                && bytes.len() <= 253
                && bytes.iter().all(|byte| is_of_name(*byte))
        }
        None => false,
    }
}

/// What stands between the first and the last byte.
fn inner(text: &[u8]) -> &[u8]
    ensures { result.now ≡ inner_of text.now }
{
    if text.is_empty() {
        return text;
    }
    let rest = &text[1..];
    if rest.is_empty() {
        return rest;
    }
    &rest[..rest.len() - 1]
}

/// The IPv6 address that the text spells in square brackets.
fn bracketed(text: &[u8]) -> Option<Ipv6Addr>
    ensures { IfSome result (IsIpv6Text (inner_of text.now)) }
{
    if text.starts_with(b"[") && text.ends_with(b"]") {
        Ipv6Addr::parse_ascii(inner(text)).ok()
    } else {
        None
    }
}

impl<'a> Host<'a> {
    /// What the text spells: an IPv4 or IPv6 address, this also in square brackets, or else a name. `None` where it is neither.
    pub fn read(text: &'a str) -> Option<Host<'a>>
        ensures host { IfSome result (IsHost text.now) }
        ensures none { IfNone result ((a : IpAddr) → IsIpText text.now a → ⊥) }
    {
        match IpAddr::parse_ascii(text.as_bytes()) {
            Ok(address) => Some(Host::Address(address)),
            Err(_) => Host::named(text),
        }
    }

    /// The same of a text that is no address without brackets.
    fn named(text: &'a str) -> Option<Host<'a>>
        requires { (a : IpAddr) → IsIpText text.now a → ⊥ }
        ensures { IfSome result (IsHost text.now) }
    {
        match bracketed(text.as_bytes()) {
            Some(address) => Some(Host::Address(IpAddr::V6(address))),
            None if is_name(text) => Some(Host::Name(text)),
            None => None,
        }
    }
}
