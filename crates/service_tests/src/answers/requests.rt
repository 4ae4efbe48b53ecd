// What heads and targets ask, where no answer of a ring tells all of it.
use crate::rows::node;
use ring_records::GroupName;
use ring_status::{HttpRequest, Method, Target, read_request, read_target};
use std::process::Abort;

#[test]
fn what_is_asked(rt: HostRuntime) {
    assert!(rt; read_request(b"") == Ok(None));
    for (head, method, target) in [
        (
            "HEAD /status HTTP/1.1\r\n\r\n",
            Method::Head,
            Target::Status,
        ),
        (
            "GET /metrics?x=1 HTTP/1.1\r\n\r\nbody",
            Method::Get,
            Target::Metrics,
        ),
    ] {
        let asked = HttpRequest { method, target };
        assert!(rt; read_request(head.as_bytes()) == Ok(Some(asked)));
    }
    let red = GroupName::read(b"red").expect(&rt, "a group");
    let first = node(&rt, 1);
    for (target, asked) in [
        ("/leaders?node=16", Target::Leaders(node(&rt, 16), None)),
        (
            "/leaders/red?above=0&wait=60",
            Target::NextOf(first, red, 0, 60),
        ),
        (
            "/leaders/red?node=2&above=999999999&wait=0",
            Target::NextOf(node(&rt, 2), red, 999_999_999, 0),
        ),
        (
            "/leaders/red?held=5&wait=60",
            Target::HeldOf(first, red, 5, 60),
        ),
    ] {
        assert!(rt; read_target(target.as_bytes()) == Ok(asked));
    }
}
