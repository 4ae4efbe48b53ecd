// What is told of a ring.
use crate::bound::Bound;
use crate::counts::Counts;
use crate::holding::Holding;
use ring_records::NodeNo;

/// Whether a node takes Stands and messages.
#[derive(Clone, Copy, PartialEq, Eq)]
pub enum Condition {
    /// It takes them.
    Well,
    /// It takes no further Stand: it has taken all that it may.
    Limit,
    /// It takes no further Stand, for want of room; and no message, where a checkpoint would free little.
    Full,
    /// It makes none durable: its device has taken ten seconds or longer for a batch or a checkpoint.
    Hangs,
    /// It takes neither: its device failed, or a growth was refused.
    Failed,
}

/// How often clients were told a refusal.
#[derive(Clone, Copy, PartialEq, Eq)]
pub struct RefusalCount {
    /// The refusal's number, 1 to 28.
    pub number: u8,
    pub count: u64,
}

/// How many batches and checkpoints took no longer than a bound.
#[derive(Clone, Copy, PartialEq, Eq)]
pub struct WithinCount {
    pub bound: Bound,
    pub count: u64,
}

/// How long the batches and the checkpoints of a node took, those that failed too.
#[derive(Drop)]
pub struct CommitTimes {
    /// How many took no longer than each of some bounds, which rise.
    pub within: Vec<WithinCount>,
    /// How many there were.
    pub count: u64,
    /// How long all of them took together, in microseconds.
    pub micros: u64,
}

/// Which node it is, and where clients come to it.
#[derive(Clone, Copy, PartialEq, Eq)]
pub struct Place {
    pub node: NodeNo,
    /// The port of its doors.
    pub port: u16,
    /// How many doors it has.
    pub doors: u32,
}

/// How many messages wait in the letterbox of a node.
#[derive(Clone, Copy, PartialEq, Eq)]
pub struct Letters {
    pub node: NodeNo,
    pub count: u64,
}

/// What is told of a node.
#[derive(Drop)]
pub struct NodeStatus {
    pub place: Place,
    pub condition: Condition,
    pub held: Holding,
    /// Whether another checkpoint can come.
    pub renewable: bool,
    /// How many more Stands it may take.
    pub stands_left: u64,
    pub counts: Counts,
    /// For how many seconds its device has been busy with the batch or the checkpoint that it writes, 0 where it writes none.
    pub writing: u64,
    /// How many seconds ago its last checkpoint was durable, or it was started where none has come since.
    pub checkpoint_age: u64,
    pub letters: Letters,
    /// How long its batches and checkpoints took.
    pub commits: CommitTimes,
    /// The refusals that its clients were told.
    pub refusals: Vec<RefusalCount>,
}

/// What is told of a ring.
#[derive(Clone, Copy)]
pub struct RingStatus<'a> {
    /// The version of the program.
    pub version: &'a str,
    /// The ring's identity, where it has one.
    pub ring: Option<&'a str>,
    /// The folder of its nodes.
    pub dir: &'a str,
    /// When it was started, in seconds of Unix time.
    pub started: u64,
    /// The words that it was started with, behind the program's name, with a space between two.
    pub words: &'a str,
    /// How many seconds a session may go without a whole line or a whole answer; 0 is for ever.
    pub idle: u32,
    /// Its nodes, in their order.
    pub nodes: &'a [NodeStatus],
    /// Those of which no door was free for a while.
    pub doorless: &'a [NodeNo],
}
