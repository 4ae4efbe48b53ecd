//! What a hub's ledger names.
ghost use Rattle.std.specs.Prelude.{ℕ};
ghost use Rattle.ring_records.specs.declared.summary.Summary.{Summary};
ghost use Rattle.ring_records.specs.Member.{Member};
ghost use Rattle.ring_records.specs.Summary.{empty};
ghost use Rattle.commit_hub.specs.Ties.{Names};

use std::marker::Brand;
use std::sync::ledger::Ledger;

/// The ledger of the inputs that a node accepted. It names the node, its ring size and its capacity; the summary that
/// its desk was opened with; how many inputs the node had when its hub was made, those that are summarised among them;
/// and by its names what the hub and its tie both know, and the list of the durable inputs since the opening.
pub trait NodeLedger: Ledger {
    ghost member: { Member };

    ghost opening: { Summary };

    ghost opened: { ℕ };

    ghost tied: { Names };
}

impl NodeLedger for Brand {
    ghost member = { record { node = 0; n = 0; capacity = 0 } };

    ghost opening = { empty };

    ghost opened = { 0 };

    ghost tied = { record { value = 0; history = 0 } };
}
