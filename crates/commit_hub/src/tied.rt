//! What a hub's tie knows of the desk under the lock: two halves of one value, and tokens of the inputs in it. They have
//! no bytes, and their calls do nothing when they run: only clauses read them.
ghost use Rattle.std.specs.Prelude.{◌≡◌, ℕ, List};
ghost use mathlib.Core.List.{IsPrefix};
ghost use Rattle.ring_records.specs.declared.input.Input.{Input};
ghost use Rattle.commit_hub.specs.Tied.{coded_inputs, coded_names, coded_view, begun_owns, held_owns, known_owns, nothing, part_of};
ghost use Rattle.commit_hub.specs.Ties.{Names, TieView};
ghost use Rattle.group_commit.specs.Next.{durable_part};

use group_commit::Desk;
use std::marker::{Model, PhantomData};

/// The half that lies under the lock.
#[derive(Drop)]
pub(crate) struct Held {
    marker: PhantomData<()>,
    pub ghost name: { Names } by { coded_names },
    pub ghost knows: { TieView } by { coded_view },
}

impl Model for Held {
    ghost also_owns = { λ h. held_owns h.name h.knows };
}

/// The half outside it.
#[derive(Drop)]
pub(crate) struct Known {
    marker: PhantomData<()>,
    pub ghost name: { Names } by { coded_names },
    pub ghost knows: { TieView } by { coded_view },
}

impl Model for Known {
    ghost also_owns = { λ k. known_owns k.name k.knows };
}

/// These inputs were durable when it was made: the list of them, by its name, begins so for good.
#[derive(Drop)]
pub(crate) struct Mark {
    marker: PhantomData<()>,
    pub ghost history: { ℕ },
    pub ghost inputs: { List Input } by { coded_inputs },
}

impl Model for Mark {
    ghost also_owns = { λ m. begun_owns m.history m.inputs };
}

// What it owns names no key of one thread.
unsafe impl Send for Held {}

// What it owns names no key of one thread.
unsafe impl Send for Known {}

// What it owns names no key of one thread.
unsafe impl Send for Mark {}

/// The halves of a value that nobody else knows.
pub(crate) fn open() -> (Held, Known)
    ensures name { result.1.name ≡ result.0.name }
    ensures held { result.0.knows ≡ nothing }
    ensures known { result.1.knows ≡ nothing }
{
    (
        Held {
            marker: PhantomData,
        },
        Known {
            marker: PhantomData,
        },
    )
}

/// Changes nothing: both know the same.
pub(crate) fn audit(held: &mut Held, known: &mut Known)
    requires { known.old.name ≡ held.old.name }
    ensures equal { known.old.knows ≡ held.old.knows }
    ensures held { held.new.knows ≡ held.old.knows }
    ensures known { known.new.knows ≡ known.old.knows }
    ensures held_name { held.new.name ≡ held.old.name }
    ensures known_name { known.new.name ≡ known.old.name }
{}

/// Both know the same of the desk, whose durable inputs go on from those that they knew.
pub(crate) fn follow(held: &mut Held, known: &mut Known, desk: &Desk)
    requires name { known.old.name ≡ held.old.name }
    requires longer { IsPrefix held.old.knows.durable.inputs (durable_part desk.now).inputs }
    ensures equal { known.old.knows ≡ held.old.knows }
    ensures held { held.new.knows ≡ part_of desk.now }
    ensures known { known.new.knows ≡ part_of desk.now }
    ensures held_name { held.new.name ≡ held.old.name }
    ensures known_name { known.new.name ≡ known.old.name }
{}

/// A token of what is durable now.
pub(crate) fn tell(held: &mut Held) -> Mark
    ensures history { result.history ≡ held.old.name.history }
    ensures inputs { result.inputs ≡ held.old.knows.durable.inputs }
    ensures same { held.new ≡ held.old }
{
    Mark {
        marker: PhantomData,
    }
}

/// Changes nothing: what is durable begins with what the token names.
pub(crate) fn covers(known: &mut Known, mark: &mut Mark)
    requires { mark.old.history ≡ known.old.name.history }
    ensures begins { IsPrefix mark.old.inputs known.old.knows.durable.inputs }
    ensures known { known.new ≡ known.old }
    ensures mark { mark.new ≡ mark.old }
{}
