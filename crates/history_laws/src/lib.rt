//! Laws of the histories of a ring's nodes, of which each by itself is allowed, and which fit link by link: public functions
//! with an empty body, whose contracts say what follows from the definitions alone. No program calls them.
//!
//! Nothing is asked of the order in which things happened: no run, no schedule, no order of messages, no credits. Nor is
//! any room counted: of answers all is said for any rule of room. History i is that of node i, from 1 on.
#![tactic(auto)]

ghost use Rattle.std.specs.Prelude.{◌≡◌, ◌≢◌, ◌≤◌, ◌++◌, ℕ, List, Some, IsTrue, take};
ghost use Rattle.std.specs.List.{Contains};
ghost use Rattle.ring_records.specs.declared.candidate.Candidate.{Candidate};
ghost use Rattle.ring_records.specs.declared.input.Input.{Input};
ghost use Rattle.ring_records.specs.declared.input.Input.TheVariants.{Stand};
ghost use Rattle.ring_records.specs.declared.key.Key.{Key};
ghost use Rattle.ring_records.specs.declared.reply.Reply.TheVariants as say;
ghost use Rattle.ring_records.specs.declared.request.Request.{Request};
ghost use Rattle.ring_records.specs.declared.request.Request.TheVariants as ask;
ghost use Rattle.ring_records.specs.Answer.{Answer, Answers, Rule};
ghost use Rattle.ring_records.specs.Leader.{leader};
ghost use Rattle.ring_records.specs.Order.{is_less};
ghost use Rattle.ring_records.specs.Ring.{IsLegal};
ghost use Rattle.ring_records.specs.Part.{part};
ghost use Rattle.history_laws.specs.Linked.{AreHanded, AreLinked, IsLeaderIn};

/// Of allowed histories in which each message that was taken names a node, counted from 1, and was sent by the node before,
/// all leaders that are known for a key by beginnings of them are one candidate. It stands in its node's history, and every
/// other candidate that stands for the key in some node's history is less.
pub fn agreement_of_histories()
    ensures same { (n : ℕ) (history : ℕ → List Input) (key : Key) (c d : Candidate)
        → AreLinked n history → IsLeaderIn n history key c → IsLeaderIn n history key d → c ≡ d }
    ensures stands { (n : ℕ) (history : ℕ → List Input) (key : Key) (c : Candidate)
        → AreLinked n history → IsLeaderIn n history key c → Contains (history c.node) (Stand key c.bid) }
    ensures greatest { (n : ℕ) (history : ℕ → List Input) (key : Key) (c d : Candidate) → AreLinked n history → IsLeaderIn n history key c
        → 1 ≤ d.node → d.node ≤ n → Contains (history d.node) (Stand key d.bid) → d ≢ c → IsTrue (is_less d c) }
{}

/// The parts of a legal run are such histories, so they agree; and each message in them came in a packet that rests on a
/// beginning of its sender's part.
pub fn runs_are_linked()
    ensures linked { (n : ℕ) (run : List (ℕ × Input)) → IsLegal n run → AreLinked n (part run) }
    ensures handed { (n : ℕ) (run : List (ℕ × Input)) → IsLegal n run → AreHanded n (part run) }
{}

/// Histories whose messages came in released packets are linked. A reply that names a leader, to `who` of its key or to
/// `latest` of its group, by a beginning of a node's history, tells of a leader that is known there; so does what such a
/// beginning shows.
pub fn released_histories()
    ensures linked { (n : ℕ) (history : ℕ → List Input) → AreHanded n history → AreLinked n history }
    ensures replied { (n : ℕ) (rule : Rule) (history : ℕ → List Input) (i : ℕ) (begun rest : List Input) (key : Key) (c : Candidate) (a : Answer)
        → 1 ≤ i → i ≤ n → begun ++ rest ≡ history i → Answers i n rule begun (ask.Who key) a → a.reply ≡ say.Leader (Some c) → IsLeaderIn n history key c }
    ensures latest { (n : ℕ) (rule : Rule) (history : ℕ → List Input) (i : ℕ) (begun rest : List Input) (key : Key) (c : Candidate) (a : Answer)
        → 1 ≤ i → i ≤ n → begun ++ rest ≡ history i → Answers i n rule begun (ask.Latest key.group) a → a.reply ≡ say.Latest (Some (key.term, c)) → IsLeaderIn n history key c }
    ensures shown { (n : ℕ) (history : ℕ → List Input) (i : ℕ) (begun rest : List Input) (key : Key) (c : Candidate)
        → 1 ≤ i → i ≤ n → begun ++ rest ≡ history i → leader i begun key ≡ Some c → IsLeaderIn n history key c }
{}

/// An answer that was given at some point of a history was given at that point of each longer one, and of each beginning
/// that has the inputs that the answer rests on.
pub fn answers_of_beginnings()
    ensures longer { (me n : ℕ) (rule : Rule) (h more : List Input) (q : Request) (a : Answer)
        → Answers me n rule h q a → Answers me n rule (h ++ more) q a }
    ensures shorter { (me n k : ℕ) (rule : Rule) (h : List Input) (q : Request) (a : Answer)
        → Answers me n rule h q a → a.number ≤ k → Answers me n rule (take k h) q a }
{}
