// What is measured of a node.
ghost use Rattle.std.specs.Prelude.{◌≡◌};
ghost use Rattle.ring_status.specs.Metrics.{help_text, kind_text, metrics, name_text, value_of};

use crate::values::{Condition, NodeStatus};

/// What is measured of a node, each with a name, a line that tells what it is, and a kind.
#[derive(Clone, Copy, PartialEq, Eq)]
pub enum Metric {
    Failed,
    Hangs,
    Full,
    AtLimit,
    Inputs,
    Durable,
    Sent,
    Taken,
    Credit,
    RefusedMessages,
    Elections,
    Used,
    Snapshot,
    Renewable,
    Capacity,
    Stands,
    StandsLeft,
    Floors,
    Batches,
    Checkpoints,
    Epoch,
    Layout,
    Syncs,
    Writing,
    RefusedRounds,
    Sessions,
    Doors,
    BusyDoors,
    Letters,
}

/// All of them, in the order in which they are told.
const METRICS: [Metric; 29] = [
    Metric::Failed,
    Metric::Hangs,
    Metric::Full,
    Metric::AtLimit,
    Metric::Inputs,
    Metric::Durable,
    Metric::Sent,
    Metric::Taken,
    Metric::Credit,
    Metric::RefusedMessages,
    Metric::Elections,
    Metric::Used,
    Metric::Snapshot,
    Metric::Renewable,
    Metric::Capacity,
    Metric::Stands,
    Metric::StandsLeft,
    Metric::Floors,
    Metric::Batches,
    Metric::Checkpoints,
    Metric::Epoch,
    Metric::Layout,
    Metric::Syncs,
    Metric::Writing,
    Metric::RefusedRounds,
    Metric::Sessions,
    Metric::Doors,
    Metric::BusyDoors,
    Metric::Letters,
];

impl Metric {
    /// All of them, in the order in which they are told.
    #[tactic(auto, unfolding(crate::specs::Metrics::metrics))]
    pub fn all() -> &'static [Metric]
        ensures { result.now ≡ metrics }
    {
        &METRICS
    }

    /// Its name. A counter's ends in `_total`.
    pub fn name(self) -> &'static str
        ensures { result.now ≡ name_text self }
    {
        match self {
            Metric::Failed => "cinoweta_node_failed",
            Metric::Hangs => "cinoweta_node_hangs",
            Metric::Full => "cinoweta_node_full",
            Metric::AtLimit => "cinoweta_node_at_limit",
            Metric::Inputs => "cinoweta_inputs_total",
            Metric::Durable => "cinoweta_durable_inputs_total",
            Metric::Sent => "cinoweta_messages_sent_total",
            Metric::Taken => "cinoweta_messages_taken_total",
            Metric::Credit => "cinoweta_messages_credited_total",
            Metric::RefusedMessages => "cinoweta_messages_refused_total",
            Metric::Elections => "cinoweta_elections_total",
            Metric::Used => "cinoweta_journal_used_bytes",
            Metric::Snapshot => "cinoweta_journal_snapshot_bytes",
            Metric::Renewable => "cinoweta_journal_renewable",
            Metric::Capacity => "cinoweta_journal_capacity_bytes",
            Metric::Stands => "cinoweta_stands",
            Metric::StandsLeft => "cinoweta_stands_left",
            Metric::Floors => "cinoweta_floors",
            Metric::Batches => "cinoweta_batches_total",
            Metric::Checkpoints => "cinoweta_checkpoints_total",
            Metric::Epoch => "cinoweta_journal_epoch",
            Metric::Layout => "cinoweta_journal_layout",
            Metric::Syncs => "cinoweta_syncs_total",
            Metric::Writing => "cinoweta_writing_seconds",
            Metric::RefusedRounds => "cinoweta_refused_rounds_total",
            Metric::Sessions => "cinoweta_sessions_total",
            Metric::Doors => "cinoweta_doors",
            Metric::BusyDoors => "cinoweta_doors_busy",
            Metric::Letters => "cinoweta_letters_waiting",
        }
    }

    /// What it is.
    pub fn help(self) -> &'static str
        ensures { result.now ≡ help_text self }
    {
        match self {
            Metric::Failed => "Whether the node failed.",
            Metric::Hangs =>
                "Whether its device has taken ten seconds for a batch or a checkpoint.",
            Metric::Full => "Whether the node has no room for a Stand or a message.",
            Metric::AtLimit => "Whether the node has all Stands that it may take.",
            Metric::Inputs => "Inputs that the node accepted.",
            Metric::Durable => "Inputs of the node that are durable.",
            Metric::Sent => "Messages that the node sent to its successor.",
            Metric::Taken => "Messages of its predecessor that the node took.",
            Metric::Credit => "Messages that the successor credited.",
            Metric::RefusedMessages =>
                "Messages that the node refused for want of room since the start.",
            Metric::Elections => "Leaders that became known to the node since the start.",
            Metric::Used =>
                "Bytes of its capacity that its last snapshot and the inputs since take.",
            Metric::Snapshot => "Bytes of the snapshot that a checkpoint would write now.",
            Metric::Renewable =>
                "Whether another checkpoint can come, with a snapshot of a quarter of the capacity at most.",
            Metric::Capacity => "Bytes of a snapshot and of inputs that the node takes.",
            Metric::Stands => "Stands of the node that are not retired.",
            Metric::StandsLeft => "Stands that the node may still take.",
            Metric::Floors => "Groups with a floor, below which terms are retired.",
            Metric::Batches => "Batches that the node wrote since the start.",
            Metric::Checkpoints => "Checkpoints that the node made since the start.",
            Metric::Epoch =>
                "Epoch of its journal's area in use, which each checkpoint raises by 1.",
            Metric::Layout => "Layout of that area.",
            Metric::Syncs => "Syncs of its device since the start.",
            Metric::Writing => "Seconds for which its device has been busy with one of these.",
            Metric::RefusedRounds => "Rounds refused for want of memory since the start.",
            Metric::Sessions => "Sessions begun at the node since the start.",
            Metric::Doors => "Doors of the node.",
            Metric::BusyDoors => "Doors of the node that serve a session.",
            Metric::Letters => "Messages in the node's letterbox.",
        }
    }

    /// Its kind: a counter never goes down but at a start.
    pub fn kind(self) -> &'static str
        ensures { result.now ≡ kind_text self }
    {
        match self {
            Metric::Inputs
            | Metric::Durable
            | Metric::Sent
            | Metric::Taken
            | Metric::Credit
            | Metric::RefusedMessages
            | Metric::Elections
            | Metric::Batches
            | Metric::Checkpoints
            | Metric::Syncs
            | Metric::RefusedRounds
            | Metric::Sessions => "counter",
            _ => "gauge",
        }
    }

    /// Its value at a node.
    pub fn of(self, node: &NodeStatus) -> u64
        ensures { result ≡ value_of self node.now }
    {
        match self {
            Metric::Failed => u64::from(matches!(node.condition, Condition::Failed)),
            Metric::Hangs => u64::from(matches!(node.condition, Condition::Hangs)),
            Metric::Full => u64::from(matches!(node.condition, Condition::Full)),
            Metric::AtLimit => u64::from(matches!(node.condition, Condition::Limit)),
            Metric::Inputs => node.held.shown.inputs,
            Metric::Durable => node.held.shown.durable,
            Metric::Sent => node.held.shown.sent,
            Metric::Taken => node.held.shown.taken,
            Metric::Credit => node.held.shown.credit,
            Metric::RefusedMessages => node.counts.refused_messages,
            Metric::Elections => node.counts.elections,
            Metric::Used => node.held.used,
            Metric::Snapshot => node.held.snapshot,
            Metric::Renewable => u64::from(node.renewable),
            Metric::Capacity => node.held.capacity,
            Metric::Stands => node.held.stands,
            Metric::StandsLeft => node.stands_left,
            Metric::Floors => node.held.floors,
            Metric::Batches => node.counts.batches,
            Metric::Checkpoints => node.counts.checkpoints,
            Metric::Epoch => node.held.epoch,
            Metric::Layout => u64::from(node.held.layout),
            Metric::Syncs => node.counts.syncs,
            Metric::Writing => node.writing,
            Metric::RefusedRounds => node.counts.refused_rounds,
            Metric::Sessions => node.counts.begun,
            Metric::Doors => u64::from(node.place.doors),
            Metric::BusyDoors => node.counts.busy,
            Metric::Letters => node.letters.count,
        }
    }
}
