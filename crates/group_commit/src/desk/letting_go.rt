//! What a desk keeps of its inputs, and what it lets go of.
ghost use Rattle.std.specs.Prelude.{◌≡◌, ◌+◌, ◌≤◌, take};
ghost use Rattle.ring_records.specs.Known.{after};
ghost use Rattle.ring_records.specs.Snapshot.{IsSound};
ghost use Rattle.node_core.specs.Core.{IsNodeOf};

use crate::desk::Desk;
use crate::gone::Gone;
use ring_records::Summary;

impl Desk {
    ghost use Rattle.group_commit.specs.DeskCalls.{let_go};

    /// Lets go of the inputs that the area of the journal in use stands for, and says how many are gone since the opening:
    /// `history` begins behind them, and of what rests on fewer `vouch` knows nothing. While a checkpoint flies it lets go
    /// of nothing. It takes no memory, frees none and moves no input, however many there are: what is dropped is handed
    /// out. The caller sees that the node is one of the ring.
    pub fn let_go(&mut self) -> Gone
        requires inside { IsNodeOf self.old.view.member.n self.old.view.member.node }
        ensures next { self.new ≡ let_go self.old }
        ensures count { result.count ≡ self.new.gone }
    {
        if self.pending.is_some() {
            return Gone::none(self.inputs.allocator(), self.inputs.gone);
        }
        self.inputs.let_go()
    }

    /// The number of the first input that it has not let go of.
    pub fn first_kept(&self) -> u64
        ensures value { result ≡ self.now.opening.inputs + self.now.gone }
        ensures durable { self.now.gone ≤ self.now.view.state.base.inputs }
    {
        self.base.inputs + self.inputs.gone
    }

    // What its node knew by the inputs that are gone.
    pub(super) fn start(&self) -> &Summary
        ensures value { result.now ≡ after self.now.view.member.node self.now.opening (take self.now.gone self.now.view.state.inputs) }
        ensures sound { IsSound self.now.view.member.n result.now }
    {
        match &self.inputs.known {
            Some(known) => known,
            None => &self.base,
        }
    }
}
