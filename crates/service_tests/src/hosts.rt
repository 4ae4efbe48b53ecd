// Hosts to listen at.
use ring_service::Host;
use std::test::*;

/// Texts, and how a host is told by them: as an address, by that name, or not at all.
static HOSTS: [(&str, &str); 16] = [
    ("127.0.0.1", "127.0.0.1"),
    ("0.0.0.0", "0.0.0.0"),
    ("::1", "::1"),
    ("::", "::"),
    ("[::1]", "::1"),
    ("[fe80::2]", "fe80::2"),
    ("localhost", "name localhost"),
    ("ring-1.example.org", "name ring-1.example.org"),
    ("127.1", "none"),
    ("127.0.0.256", "none"),
    ("0x7f", "none"),
    ("[127.0.0.1]", "none"),
    ("[::1", "none"),
    ("a host", "none"),
    ("host.", "none"),
    ("", "none"),
];

#[test]
fn hosts_to_listen_at(rt: HostRuntime) -> Result<(), Fail> {
    for row in &HOSTS {
        let (text, wanted) = *row;
        let told = match Host::read(text) {
            Some(Host::Address(address)) => format!(in rt.alloc(); "{address}")?,
            Some(Host::Name(name)) => format!(in rt.alloc(); "name {name}")?,
            None => format!(in rt.alloc(); "none")?,
        };
        assert!(rt; told.as_str() == wanted);
    }
    Ok(())
}
