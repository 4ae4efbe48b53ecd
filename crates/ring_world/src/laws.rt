//! Laws of runs and schedules of a ring, whatever there is room for: public functions with an empty body, whose contracts say
//! what follows from the definitions alone. A schedule goes by any rule of room, an arbitrary function; `capacity` says the
//! same of the rule of this service. `World::announced` calls `headline`; no program calls another. Further laws of schedules
//! are in `fits`.
ghost use Rattle.std.specs.Prelude.{◌≡◌, ◌≢◌, ◌≤◌, ℕ, List, ◌∷◌, ◌++◌, take, IsTrue, IsSome};
ghost use Rattle.std.specs.List.{Contains};
ghost use Rattle.ring_records.specs.declared.base.Base.{Base};
ghost use Rattle.ring_records.specs.declared.candidate.Candidate.{Candidate};
ghost use Rattle.ring_records.specs.declared.input.Input.{Input};
ghost use Rattle.ring_records.specs.declared.input.Input.TheVariants.{Stand};
ghost use Rattle.ring_records.specs.declared.key.Key.{Key};
ghost use Rattle.ring_records.specs.Leader.{leader};
ghost use Rattle.ring_records.specs.Order.{is_less};
ghost use Rattle.ring_records.specs.Ring.{IsLegal};
ghost use Rattle.ring_records.specs.Part.{part};
ghost use Rattle.ring_world.specs.Agreement.{IsKnown, IsRetiredNowhere, IsDrained};
ghost use Rattle.ring_world.specs.Committed.{committed};
ghost use Rattle.ring_world.specs.Events.{Thing, Action, Release, RoomRule, state_after};
ghost use Rattle.ring_world.specs.Released.{IsKept, IsAnnounced};
ghost use Rattle.ring_world.specs.Schedules.{IsSchedule};

/// In a legal run all leaders that are known for one key, at whatever node and after however many of its inputs, are
/// one candidate. It stands in the run, and every other candidate that stands there for the key, earlier or later, is
/// less.
pub fn agreement()
    ensures same { (n : ℕ) (run : List (ℕ × Input)) (key : Key) (c d : Candidate) → IsLegal n run → IsKnown run key c → IsKnown run key d → c ≡ d }
    ensures stands { (n : ℕ) (run : List (ℕ × Input)) (key : Key) (c : Candidate) → IsLegal n run → IsKnown run key c → Contains run (c.node, Stand key c.bid) }
    ensures greatest { (n : ℕ) (run : List (ℕ × Input)) (key : Key) (c d : Candidate)
        → IsLegal n run → IsKnown run key c → Contains run (d.node, Stand key d.bid) → d ≢ c → IsTrue (is_less d c) }
{}

/// In a legal run in which each message was taken, every node has a leader for each key that some node stood for and no
/// node retired. The election of `worked_schedules` is such a run; no law says that a run ever comes to that.
pub fn decided()
    ensures { (n : ℕ) (run : List (ℕ × Input)) (key : Key) (i bid node : ℕ)
        → IsLegal n run → IsDrained n run → Contains run (i, Stand key bid) → IsRetiredNowhere n run key → 1 ≤ node → node ≤ n → IsSome (leader node (part run node) key) }
{}

/// In every schedule, at every node, what is released rests on inputs that are durable at its release. They are durable
/// and the same after all later events.
pub fn prefix()
    ensures kept { (start : ℕ → Base) (n : ℕ) (room : RoomRule) (early later : List (ℕ × Action)) (i : ℕ) (thing : Thing)
        → IsSchedule start n room (early ++ (i, Release thing) ∷ later)
        → IsKept i n room thing (state_after start n room early i) (state_after start n room (early ++ (i, Release thing) ∷ later) i) }
{}

/// In every schedule the inputs that became durable, in this order, are a legal run. Its part for a node is that node's
/// first durable inputs.
pub fn ring_legality()
    ensures legal { (start : ℕ → Base) (n : ℕ) (room : RoomRule) (events : List (ℕ × Action)) → IsSchedule start n room events → IsLegal n (committed start n room events) }
    ensures parts { (start : ℕ → Base) (n : ℕ) (room : RoomRule) (events : List (ℕ × Action)) (i : ℕ)
        → IsSchedule start n room events → part (committed start n room events) i ≡ take (state_after start n room events i).durable (state_after start n room events i).inputs }
{}

/// In every schedule all answers that were ever released for one key name one leader. It stands among the inputs that
/// became durable, and every other candidate that stands there for the key, earlier or later than the answer, is less.
pub fn headline()
    ensures same { (start : ℕ → Base) (n : ℕ) (room : RoomRule) (events : List (ℕ × Action)) (key : Key) (c d : Candidate) → IsSchedule start n room events → IsAnnounced events key c → IsAnnounced events key d → c ≡ d }
    ensures stands { (start : ℕ → Base) (n : ℕ) (room : RoomRule) (events : List (ℕ × Action)) (key : Key) (c : Candidate)
        → IsSchedule start n room events → IsAnnounced events key c → Contains (committed start n room events) (c.node, Stand key c.bid) }
    ensures greatest { (start : ℕ → Base) (n : ℕ) (room : RoomRule) (events : List (ℕ × Action)) (key : Key) (c d : Candidate)
        → IsSchedule start n room events → IsAnnounced events key c → Contains (committed start n room events) (d.node, Stand key d.bid) → d ≢ c → IsTrue (is_less d c) }
{}

pub mod capacity;
mod worked;

pub use worked::worked_schedules;
