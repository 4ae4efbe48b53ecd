//! The laws of schedules by the service's own rule of room, for every capacity, where some version formatted each journal.
//! `prefix` also says from what base room was counted.
ghost use Rattle.std.specs.Prelude.{◌≡◌, ◌≢◌, ℕ, List, ◌∷◌, ◌++◌, take, IsTrue};
ghost use Rattle.std.specs.List.{Contains};
ghost use Rattle.ring_records.specs.declared.base.Base.{Base};
ghost use Rattle.ring_records.specs.declared.candidate.Candidate.{Candidate};
ghost use Rattle.ring_records.specs.declared.input.Input.TheVariants.{Stand};
ghost use Rattle.ring_records.specs.declared.key.Key.{Key};
ghost use Rattle.ring_records.specs.Order.{is_less};
ghost use Rattle.ring_records.specs.Ring.{IsLegal};
ghost use Rattle.ring_records.specs.Part.{part};
ghost use Rattle.ring_world.specs.Based.{IsKept};
ghost use Rattle.ring_world.specs.Capacity.{committed, state_after};
ghost use Rattle.ring_world.specs.Events.{Thing, Action, Release};
ghost use Rattle.ring_world.specs.Released.{IsAnnounced};
ghost use Rattle.ring_world.specs.CapacitySchedule.{IsSchedule};

/// In every schedule, at every node, what is released rests on inputs that are durable at its release. They are durable
/// and the same after all later events.
pub fn prefix()
    ensures kept { (start : ℕ → Base) (n capacity : ℕ) (early later : List (ℕ × Action)) (i : ℕ) (thing : Thing)
        → IsSchedule start n capacity (early ++ (i, Release thing) ∷ later)
        → IsKept i n capacity thing (state_after start n capacity early i) (state_after start n capacity (early ++ (i, Release thing) ∷ later) i) }
{}

/// In every schedule the inputs that became durable, in this order, are a legal run. Its part for a node is that node's
/// first durable inputs.
pub fn ring_legality()
    ensures legal { (start : ℕ → Base) (n capacity : ℕ) (events : List (ℕ × Action)) → IsSchedule start n capacity events → IsLegal n (committed start n capacity events) }
    ensures parts { (start : ℕ → Base) (n capacity : ℕ) (events : List (ℕ × Action)) (i : ℕ)
        → IsSchedule start n capacity events → part (committed start n capacity events) i ≡ take (state_after start n capacity events i).durable (state_after start n capacity events i).inputs }
{}

/// In every schedule all answers that were ever released for one key name one leader. It stands among the inputs that
/// became durable, and every other candidate that stands there for the key, earlier or later than the answer, is less.
pub fn headline()
    ensures same { (start : ℕ → Base) (n capacity : ℕ) (events : List (ℕ × Action)) (key : Key) (c d : Candidate) → IsSchedule start n capacity events → IsAnnounced events key c → IsAnnounced events key d → c ≡ d }
    ensures stands { (start : ℕ → Base) (n capacity : ℕ) (events : List (ℕ × Action)) (key : Key) (c : Candidate)
        → IsSchedule start n capacity events → IsAnnounced events key c → Contains (committed start n capacity events) (c.node, Stand key c.bid) }
    ensures greatest { (start : ℕ → Base) (n capacity : ℕ) (events : List (ℕ × Action)) (key : Key) (c d : Candidate)
        → IsSchedule start n capacity events → IsAnnounced events key c → Contains (committed start n capacity events) (d.node, Stand key d.bid) → d ≢ c → IsTrue (is_less d c) }
{}
