// The bytes of answers.
use httpdate::HttpDate;
use ring_status::{Content, Method, Status, answer_text};
use std::alloc::{AllocError, Global};

/// A method, a status, what the body is, a body, and the bytes of the answer.
type Answer = (Method, Status, Content, &'static str, &'static str);

static ANSWERS: [Answer; 8] = [
    (
        Method::Get,
        Status::Found,
        Content::Text,
        "well\n",
        "HTTP/1.1 200 OK\r\nContent-Type: text/plain; charset=utf-8\r\nContent-Length: 5\r\nCache-Control: \
         no-store\r\nConnection: close\r\n\r\nwell\n",
    ),
    (
        Method::Head,
        Status::Found,
        Content::Json,
        "{}",
        "HTTP/1.1 200 OK\r\nContent-Type: application/json\r\nContent-Length: 2\r\nCache-Control: \
         no-store\r\nConnection: close\r\n\r\n",
    ),
    (
        Method::Get,
        Status::Unavailable,
        Content::Metrics,
        "",
        "HTTP/1.1 503 Service Unavailable\r\nContent-Type: text/plain; version=0.0.4; \
         charset=utf-8\r\nContent-Length: 0\r\nCache-Control: no-store\r\nConnection: close\r\n\r\n",
    ),
    (
        Method::Get,
        Status::Found,
        Content::Page,
        "<p>",
        "HTTP/1.1 200 OK\r\nContent-Type: text/html; charset=utf-8\r\nContent-Length: 3\r\nCache-Control: \
         no-store\r\nConnection: close\r\n\r\n<p>",
    ),
    (
        Method::Get,
        Status::NoContent,
        Content::Json,
        "",
        "HTTP/1.1 204 No Content\r\nContent-Type: application/json\r\nCache-Control: no-store\r\nConnection: close\r\n\r\n",
    ),
    (
        Method::Get,
        Status::NotAllowed,
        Content::Text,
        "no\n",
        "HTTP/1.1 405 Method Not Allowed\r\nContent-Type: text/plain; charset=utf-8\r\nContent-Length: 3\r\nAllow: \
         GET, HEAD\r\nCache-Control: no-store\r\nConnection: close\r\n\r\nno\n",
    ),
    (
        Method::Head,
        Status::TooLarge,
        Content::Text,
        "",
        "HTTP/1.1 431 Request Header Fields Too Large\r\nContent-Type: text/plain; \
         charset=utf-8\r\nContent-Length: 0\r\nCache-Control: no-store\r\nConnection: close\r\n\r\n",
    ),
    (
        Method::Head,
        Status::NotFound,
        Content::Text,
        "",
        "HTTP/1.1 404 Not Found\r\nContent-Type: text/plain; charset=utf-8\r\nContent-Length: 0\r\nCache-Control: \
         no-store\r\nConnection: close\r\n\r\n",
    ),
];

fn is_as_wanted(alloc: Global, row: Answer) -> bool {
    let (method, status, content, body, wanted) = row;
    match answer_text(alloc, method, status, content, None, body) {
        Ok(answer) => answer.as_str() == wanted,
        Err(_) => false,
    }
}

#[test]
fn heads_and_bodies(rt: HostRuntime) {
    for row in &ANSWERS {
        assert!(rt; is_as_wanted(rt.alloc(), *row));
    }
}

/// Seconds behind the beginning of 1970, and how an answer tells them: of the first, what RFC 9110 gives as its example.
static DATES: [(u64, &str); 4] = [
    (784_111_777, "Date: Sun, 06 Nov 1994 08:49:37 GMT\r\n"),
    (0, "Date: Thu, 01 Jan 1970 00:00:00 GMT\r\n"),
    (951_782_400, "Date: Tue, 29 Feb 2000 00:00:00 GMT\r\n"),
    (253_402_300_800, ""),
];

/// The answer `a` at this time.
fn answer_at(alloc: Global, seconds: u64) -> Result<String, AllocError> {
    let date = HttpDate::from_unix_secs(seconds).ok();
    answer_text(alloc, Method::Get, Status::Found, Content::Text, date, "a")
}

/// Whether the answer is `a` with this line before what says that it is not kept.
fn is_dated(answer: &str, line: &str) -> bool {
    match answer.strip_prefix(
        "HTTP/1.1 200 OK\r\nContent-Type: text/plain; charset=utf-8\r\nContent-Length: 1\r\n",
    ) {
        Some(rest) => {
            rest.strip_prefix(line) == Some("Cache-Control: no-store\r\nConnection: close\r\n\r\na")
        }
        None => false,
    }
}

#[test]
fn dates(rt: HostRuntime) {
    for (seconds, line) in &DATES {
        let answer = answer_at(rt.alloc(), *seconds).expect(&rt, "memory");
        assert!(rt; is_dated(answer.as_str(), line));
    }
}
