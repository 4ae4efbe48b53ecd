//! One request and its answer.
use crate::pages::{Body, body_of};
use crate::status_port::StatusPort;
use crate::visitor::{Asked, Caller};
use crate::watchers::Watcher;
use client_stream::{Deadline, part, send_all};
use httpdate::HttpDate;
use ring_status::{Content, HttpRequest, Method, Status, Target, answer_text};
use std::alloc::{AllocError, Global};
use std::sync::Wait;
use std::time::Clock;

/// Now, as an answer tells it, where there is a clock.
fn date<R: Clock>(rt: &R) -> Option<HttpDate> {
    let now = rt.since_1970().ok()?;
    HttpDate::from_unix_secs(now.as_secs()).ok()
}

/// The answer of a request that is refused: its status, in words too.
fn refusal<R: Clock>(
    rt: &R,
    alloc: Global,
    method: Method,
    status: Status,
) -> Result<String, AllocError> {
    let line = status.line();
    let body = format!(in alloc; "{line}\n")?;
    answer_text(alloc, method, status, Content::Text, date(rt), &body)
}

/// The answer to what was asked.
fn answer<R: Wait + Clock>(
    rt: &R,
    alloc: Global,
    port: &StatusPort,
    asked: Asked,
    deadline: Deadline,
) -> Result<String, AllocError> {
    let HttpRequest { method, target } = match asked {
        Ok(request) => request,
        Err((method, status)) => return refusal(rt, alloc, method, status),
    };
    let body = body_of(rt, alloc, &port.facts, &port.reception, target, deadline);
    told(rt, alloc, method, body)
}

/// The answer of this body.
fn told<R: Clock>(
    rt: &R,
    alloc: Global,
    method: Method,
    body: Result<Body, Status>,
) -> Result<String, AllocError> {
    match body {
        Ok(
            Body {
                status,
                content,
                text,
            },
        ) => answer_text(alloc, method, status, content, date(rt), &text),
        Err(status) => refusal(rt, alloc, method, status),
    }
}

/// Answers a client that waited, if there is something to be told or its time is over: else it waits on.
pub(crate) fn answer_watcher<R: Wait + Clock>(
    rt: &R,
    alloc: Global,
    port: &StatusPort,
    watcher: Watcher,
) -> Option<Watcher> {
    let request = watcher.request();
    let deadline = watcher.deadline(rt)?;
    let body = body_of(
        rt,
        alloc,
        &port.facts,
        &port.reception,
        request.target,
        deadline,
    );
    if is_nothing(&body) && !watcher.is_over(rt) {
        return Some(watcher);
    }
    if let Ok(text) = told(rt, alloc, request.method, body) {
        watcher.send(rt, &text);
    }
    None
}

/// Whether nothing has come.
fn is_nothing(body: &Result<Body, Status>) -> bool {
    match body {
        Ok(body) => body.status == Status::NoContent,
        Err(_) => false,
    }
}

/// What is asked, and for how many seconds it is waited for, where it is.
fn waits(asked: &Asked) -> Option<(HttpRequest, u64)> {
    match asked {
        Ok(request) => match request.target {
            Target::NextOf(_, _, _, seconds) if seconds > 0 => Some((*request, seconds)),
            Target::HeldOf(_, _, _, seconds) if seconds > 0 => Some((*request, seconds)),
            _ => None,
        },
        Err(_) => None,
    }
}

/// Answers a client where there is something to be told, and else leaves it with those that wait.
fn wait<R: Wait + Clock>(rt: &R, alloc: Global, port: &StatusPort, watcher: Watcher) {
    if let Some(watcher) = answer_watcher(rt, alloc, port, watcher) {
        seat(rt, alloc, port, watcher);
    }
}

/// Leaves a client with those that wait. Refused as 503 where there is no place for it.
fn seat<R: Wait + Clock>(rt: &R, alloc: Global, port: &StatusPort, watcher: Watcher) {
    let request = watcher.request();
    if let Some(watcher) = port.watchers.enter(rt, watcher) {
        if let Ok(text) = refusal(rt, alloc, request.method, Status::Unavailable) {
            watcher.send(rt, &text);
        }
    }
}

/// Answers a client, within its time. It is not lingered with where each other thread of the port is away too.
pub(crate) fn exchange<R: Wait + Clock>(rt: &R, alloc: Global, port: &StatusPort, caller: Caller) {
    let Caller {
        stream,
        asked,
        deadline,
    } = caller;
    let _ = stream.set_nodelay(true);
    if let Some((request, seconds)) = waits(&asked) {
        if let Some(watcher) = Watcher::new(rt, stream, request, seconds) {
            wait(rt, alloc, port, watcher);
        }
        return;
    }
    let Ok(text) = answer(rt, alloc, port, asked, deadline) else {
        return;
    };
    if send_all(rt, &stream, deadline, text.as_bytes()).is_ok() && !port.is_deserted() {
        part(rt, &stream);
    }
}
