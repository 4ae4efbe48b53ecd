//! What an operator asks of a ring over HTTP/1.1, and the bytes of the answers. Nothing here opens a socket or a node.
//!
//! A request is the head of a message: its method, GET or HEAD, and its target, which names what is asked. An answer is
//! a head and a body: `/ready` and `/health` in lines, `/status` and `/leaders` as JSON, `/metrics` in the text format of
//! Prometheus, and what is told to people as HTML, which ring_page makes.
//!
//! `specs/` says the same by a look at bytes and values: Targets what a target asks, Requests what a head asks, Answers
//! the bytes of an answer, Health, Data and Metrics its bodies, Counts and Bounds what is counted, and by which bounds.
#![tactic(auto)]

mod answer;
mod bound;
mod counts;
mod health;
mod holder;
mod holding;
mod json;
mod metric;
mod metrics;
mod process;
mod request;
mod status;
mod target;
mod told;
mod values;

pub use answer::{Content, answer_text};
pub use bound::Bound;
pub use counts::{Counts, Landing};
pub use health::{are_well, can_elect, health_text, ready_text};
pub use holder::Holder;
pub use holding::{Holding, hangs};
pub use json::{condition_text, latest_json, leaders_json, name_of, status_json};
pub use metric::Metric;
pub use metrics::metrics_text;
pub use process::{Process, resident_bytes};
pub use request::{HEAD_BYTES, HttpRequest, Method, read_request};
pub use status::Status;
pub use target::{Target, read_target};
pub use told::node_status;
pub use values::{
    CommitTimes, Condition, Letters, NodeStatus, Place, RefusalCount, RingStatus, WithinCount,
};
