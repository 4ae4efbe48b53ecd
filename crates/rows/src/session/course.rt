// What comes of a session, and what a node tells behind it.
use ring_records::Refusal;

/// How a session went.
#[derive(Clone, Copy)]
pub enum Course {
    /// It came to its end: how many lines it answered, and how many bytes it left unread.
    Ended { lines: u64, unread: usize },
    /// It ended before its end.
    Broken,
    /// There was none, since the node was not opened.
    Refused(Refusal),
}

/// What a node told as it was let go: how many inputs it had, how many of them were durable, how many tickets were open,
/// and on how many inputs the answer rests that a refused flush kept back.
#[derive(Clone, Copy)]
pub struct Counts {
    pub accepted: u64,
    pub durable: u64,
    pub tickets: usize,
    pub unanswered: Option<u64>,
}
