// The bytes of an answer.
ghost use Rattle.std.specs.Prelude.{◌≡◌, ◌++◌, IfOk, OnOk, length, string_bytes};
ghost use Rattle.ring_status.specs.Answers.{answer, content_text, date_field, field_of, fields_of, head_text, last_fields, length_field, start_of};

use crate::request::Method;
use crate::status::Status;
use httpdate::HttpDate;
use std::alloc::{AllocError, Global};

/// What a body is.
#[derive(Clone, Copy, PartialEq, Eq)]
pub enum Content {
    /// Lines.
    Text,
    /// JSON.
    Json,
    /// The text format of Prometheus.
    Metrics,
    /// HTML.
    Page,
}

impl Content {
    /// The name of its type.
    fn text(self) -> &'static str
        ensures { result.now ≡ content_text self }
    {
        match self {
            Content::Text => "text/plain; charset=utf-8",
            Content::Json => "application/json",
            Content::Metrics => "text/plain; version=0.0.4; charset=utf-8",
            Content::Page => "text/html; charset=utf-8",
        }
    }
}

// The field that some statuses have to have.
fn field_of(status: Status) -> &'static str
    ensures { result.now ≡ field_of status }
{
    match status {
        Status::NotAllowed => "Allow: GET, HEAD\r\n",
        _ => "",
    }
}

#[tactic(auto, unfolding(crate::specs::Answers::start_of))]
fn print_start(out: &mut String, status: Status, content: Content) -> Result<(), AllocError>
    ensures { OnOk result (string_bytes out.new ≡ string_bytes out.old ++ start_of status content) }
{
    let line = status.line();
    let content = content.text();
    write!(out, "HTTP/1.1 {line}\r\nContent-Type: {content}\r\n")
}

// Adds how long the body is, where the status has one.
fn print_length(out: &mut String, status: Status, bytes: usize) -> Result<(), AllocError>
    ensures { OnOk result (string_bytes out.new ≡ string_bytes out.old ++ length_field status bytes) }
{
    match status {
        Status::NoContent => Ok(()),
        _ => write!(out, "Content-Length: {bytes}\r\n"),
    }
}

fn print_field(out: &mut String, status: Status) -> Result<(), AllocError>
    ensures { OnOk result (string_bytes out.new ≡ string_bytes out.old ++ field_of status) }
{
    out.push_str(field_of(status))
}

// Adds when it is answered, as RFC 9110 spells it, where there is a clock.
fn print_date(out: &mut String, date: Option<HttpDate>) -> Result<(), AllocError>
    ensures { OnOk result (string_bytes out.new ≡ string_bytes out.old ++ date_field date) }
{
    match date {
        None => Ok(()),
        Some(date) => write!(out, "Date: {date}\r\n"),
    }
}

#[tactic(auto, unfolding(crate::specs::Answers::fields_of), using(crate::proofs::Appends::three))]
fn print_fields(
    out: &mut String,
    status: Status,
    bytes: usize,
    date: Option<HttpDate>,
) -> Result<(), AllocError>
    ensures { OnOk result (string_bytes out.new ≡ string_bytes out.old ++ fields_of status bytes date) }
{
    print_length(out, status, bytes)?;
    print_field(out, status)?;
    print_date(out, date)
}

#[tactic(auto, unfolding(crate::specs::Answers::last_fields))]
fn print_last_fields(out: &mut String) -> Result<(), AllocError>
    ensures { OnOk result (string_bytes out.new ≡ string_bytes out.old ++ last_fields) }
{
    out.push_str("Cache-Control: no-store\r\nConnection: close\r\n\r\n")
}

#[tactic(auto, using(crate::proofs::Appends::three))]
// Adds the head of an answer, whose body has so many bytes.
fn print_head(
    out: &mut String,
    status: Status,
    content: Content,
    bytes: usize,
    date: Option<HttpDate>,
) -> Result<(), AllocError>
    ensures { OnOk result (string_bytes out.new ≡ string_bytes out.old ++ head_text status content bytes date) }
{
    print_start(out, status, content)?;
    print_fields(out, status, bytes, date)?;
    print_last_fields(out)
}

#[tactic(auto, unfolding(crate::specs::Answers::answer))]
/// The answer to a request: its head, which tells when it is answered where there is a clock, and its body where it asks for
/// more than the head. The connection ends with it. Refused for want of memory alone.
pub fn answer_text(
    alloc: Global,
    method: Method,
    status: Status,
    content: Content,
    date: Option<HttpDate>,
    body: &str,
) -> Result<String, AllocError>
    ensures { IfOk result (λ text. string_bytes text ≡ answer method status content date body.now) }
{
    let mut out = String::new(alloc);
    print_head(&mut out, status, content, body.len(), date)?;
    match method {
        Method::Get => out.push_str(body)?,
        Method::Head => {}
    }
    Ok(out)
}
