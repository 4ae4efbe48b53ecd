//! What a desk shows and counts of its inputs, by what it knows. `laws::counts` says what its whole history says of that.
ghost use Rattle.std.specs.Prelude.{◌≡◌, ◌+◌, ◌-◌, ◌^◌, ◌<◌, length, nat_lt};
ghost use Rattle.std.specs.FinMap as map;
ghost use Rattle.ring_records.specs.Admission.{newest, snapshot_len, used};
ghost use Rattle.ring_records.specs.States.{launched_base};
ghost use Rattle.ring_records.specs.Lawful.{IsNodeState};

use crate::desk::Desk;
use ring_records::{Candidate, Key, Shown};

impl Desk {
    ghost use Rattle.group_commit.specs.Desk.{known_all, known_durable, shown_all};
    ghost use Rattle.group_commit.specs.Leads.{leader_by};
    ghost use Rattle.group_commit.specs.Since.{IsKnownDesk};

    /// How many inputs the summary of its opening stands for: the number of the first input since.
    pub fn first(&self) -> u64
        ensures { result ≡ self.now.opening.inputs }
    {
        self.base.inputs
    }

    /// How many inputs it accepted, those that are summarised among them.
    pub fn accepted(&self) -> u64
        ensures value { result ≡ self.now.opening.inputs + length self.now.view.state.inputs }
        ensures counts { IsNodeState self.now.view.state }
        ensures known { IsKnownDesk self.now }
        ensures bound { result < 2 ^ 64 - 1 }
    {
        self.base.inputs + self.inputs.count
    }

    /// Whether some of its inputs are not durable yet.
    pub fn waits(&self) -> bool
        ensures { result ≡ nat_lt self.now.view.state.durable (length self.now.view.state.inputs) }
    {
        self.durable < self.inputs.count
    }

    /// The layout of the area of the journal that is in use, which its next checkpoint makes the newest.
    pub fn layout(&self) -> u8
        ensures { result ≡ self.now.view.state.base.layout }
    {
        self.layout
    }

    /// The epoch of the area of the journal that is in use.
    pub fn epoch(&self) -> u64
        ensures { result ≡ self.now.view.state.base.epoch }
    {
        self.epoch
    }

    /// How many of its inputs are durable, those that are summarised among them.
    pub fn durable(&self) -> u64
        ensures { result ≡ self.now.opening.inputs + self.now.view.state.durable }
    {
        self.base.inputs + self.durable
    }

    /// How many of its inputs are durable or fly.
    pub fn flying(&self) -> u64
        ensures { result ≡ self.now.opening.inputs + self.now.view.state.flying }
    {
        self.base.inputs + self.flying
    }

    /// How many messages its inputs sent to the successor.
    pub fn sent(&self) -> u64
        ensures value { result ≡ (known_all self.now).sent }
        ensures known { IsKnownDesk self.now }
    {
        self.core.sent()
    }

    /// How many messages of the predecessor its inputs took.
    pub fn taken(&self) -> u64
        ensures value { result ≡ (known_all self.now).taken }
        ensures known { IsKnownDesk self.now }
    {
        self.core.taken()
    }

    /// The last credit of the successor, 0 before the first: so many messages the successor is known to have taken.
    pub fn credit(&self) -> u64
        ensures value { result ≡ (known_all self.now).credit }
        ensures known { IsKnownDesk self.now }
    {
        self.core.credit()
    }

    /// What it shows: the counts of its inputs, those that are summarised among them, and how far the links are.
    pub fn shown(&self) -> Shown
        ensures value { result ≡ shown_all self.now }
        ensures counts { (result.inputs ≡ self.now.opening.inputs + length self.now.view.state.inputs) × (result.durable ≡ self.now.opening.inputs + self.now.view.state.durable) }
        ensures known { IsKnownDesk self.now }
    {
        Shown {
            inputs: self.accepted(),
            durable: self.durable(),
            sent: self.sent(),
            taken: self.taken(),
            credit: self.credit(),
        }
    }

    /// The leader that its inputs make known for a key, also where they are not durable; none where the key is retired.
    pub fn who(&self, key: &Key) -> Option<Candidate>
        ensures value { result ≡ leader_by (known_all self.now) key.now }
        ensures known { IsKnownDesk self.now }
    {
        match self.core.who(key) {
            Ok(leader) => leader,
            Err(_) => None,
        }
    }

    /// How many messages of the predecessor its durable inputs took: so many it may credit.
    pub fn durable_taken(&self) -> u64
        ensures value { result ≡ (known_durable self.now).taken }
        ensures known { IsKnownDesk self.now }
    {
        self.outbox.released.taken
    }

    /// The bytes of its capacity that are taken: by the area of the journal that is in use once what flies is durable, and
    /// by the inputs behind those that this stands for.
    pub fn used(&self) -> u64
        ensures { result ≡ used (launched_base self.now.view.state) self.now.view.state.inputs }
    {
        self.core.used()
    }

    /// How many of its inputs are Stands, at most 1,024; those that are summarised are counted.
    pub fn stands(&self) -> u32
        ensures { result ≡ (known_all self.now).stands }
    {
        self.core.stands()
    }

    /// How many groups have a floor.
    pub fn floor_count(&self) -> usize
        ensures { result ≡ map.len (known_all self.now).floors }
    {
        self.core.floor_count()
    }

    /// The length of the snapshot of all its inputs, in bytes: that of the next checkpoint.
    pub fn summary_len(&self) -> u64
        ensures { result ≡ snapshot_len newest (known_all self.now) }
    {
        self.core.summary_len()
    }
}
