//! Laws of schedules beside the headline's: what the nodes of a ring hold durably, and what they begin with.
//! They are public functions with an empty body, whose contracts say what follows from the definitions alone.
ghost use Rattle.std.specs.Prelude.{◌≡◌, ℕ, List, [], true};
ghost use Rattle.ring_records.specs.declared.base.Base.{Base};
ghost use Rattle.ring_records.specs.declared.input.Input.{Input};
ghost use Rattle.ring_records.specs.Admission.{fresh};
ghost use Rattle.ring_records.specs.Lawful.{IsBaseOf, IsLawfulState};
ghost use Rattle.ring_records.specs.Member.{Member};
ghost use Rattle.ring_records.specs.States.{opened, NodeState, is_idle};
ghost use Rattle.ring_records.specs.Summary.{empty};
ghost use Rattle.gated_journal.specs.Reading.{fresh_area};
ghost use Rattle.group_commit.specs.Desk.{new_desk};
ghost use Rattle.ring_audit.specs.Placement.{IsWhole};
ghost use Rattle.ring_world.specs.Capacity.{committed};
ghost use Rattle.ring_world.specs.Acts.{launched_in};
ghost use Rattle.ring_world.specs.Events.{Action};
ghost use Rattle.ring_world.specs.CapacitySchedule.{IsSchedule};
ghost use Rattle.ring_world.specs.Histories.{histories};
ghost use Rattle.ring_world.specs.Lasting.{AreLawful, DurableFits};
ghost use Rattle.ring_world.specs.Start.{first_epoch, formatted, IsFormatted};

/// In every schedule the durable histories of all nodes are the parts, whole, of one legal run: that of the inputs
/// that became durable, in this order.
pub fn whole_histories()
    ensures { (start : ℕ → Base) (n capacity : ℕ) (events : List (ℕ × Action)) → IsSchedule start n capacity events → IsWhole (histories start n capacity events) (committed start n capacity events) }
{}

/// In every schedule the durable histories of all nodes fit: for each link as many messages at most are credited as were
/// taken, what was taken is what was sent, message by message, and no two nodes know different leaders for a key.
pub fn ring_fits()
    ensures fits { (start : ℕ → Base) (n capacity : ℕ) (events : List (ℕ × Action)) → IsSchedule start n capacity events → DurableFits start n capacity events }
{}

/// A desk that is opened on a journal of no input, of whatever layout, is in the state that its node begins with.
pub fn desks_begin_so()
    ensures { (member : Member) (run layout : ℕ) → (new_desk member run (fresh_area layout (first_epoch layout) empty)).view.state ≡ opened (formatted layout) [] }
{}

/// Whatever versions wrote a node's journal, its state is lawful and stays so, as `states_stay_lawful` of ring_records
/// says of this one. As some version formatted it a journal stands for no input, and so for none of whatever history;
/// a new one of today is such a journal. A checkpoint may be of any layout. So after every schedule each node's state is
/// lawful.
pub fn versions_stay_lawful()
    ensures new { IsFormatted fresh }
    ensures base { (me : ℕ) (base : Base) (h : List Input) → IsFormatted base → IsBaseOf me base h }
    ensures opened { (m : Member) (base : Base) → IsFormatted base → IsLawfulState m (opened base []) }
    ensures launched_in { (m : Member) (s : NodeState) (layout : ℕ) → is_idle s ≡ true → IsLawfulState m s → IsLawfulState m (launched_in layout m.node s) }
    ensures scheduled { (start : ℕ → Base) (n capacity : ℕ) (events : List (ℕ × Action)) → IsSchedule start n capacity events → AreLawful start n capacity events }
{}
