// What one node knows of one key.
ghost use Rattle.std.specs.Prelude.{◌≡◌, ℕ, false, List, ◌++◌, ◌∷◌, [], Some, None};
ghost use Rattle.ring_records.specs.declared.candidate.Candidate.{Candidate};
ghost use Rattle.ring_records.specs.declared.input.Input.{Input};
ghost use Rattle.ring_records.specs.declared.input.Input.TheVariants.{Stand, Take};
ghost use Rattle.ring_records.specs.declared.key.Key.{Key};
ghost use Rattle.ring_records.specs.declared.msg.Msg.TheVariants.{Token, Elected};
ghost use Rattle.ring_records.specs.Emission.{emit};
ghost use Rattle.ring_records.specs.History.{is_retired};
ghost use Rattle.ring_records.specs.Known.{passed, shown};
ghost use Rattle.ring_records.specs.Lists.{or_else};

use ring_records::{Bid, Candidate, Key, Msg, NodeNo};

/// What one node knows of one key, as long as the key is not retired.
#[derive(Clone, Copy, PartialEq, Eq)]
pub struct Ballot {
    /// Its own bid, if it stood.
    pub stood: Option<Bid>,
    /// The leader, if one is known.
    pub leader: Option<Candidate>,
}

impl Ballot {
    ghost use Rattle.cr_automaton.specs.Ballot.{StandsFor};

    /// The ballot of a key that no input names yet.
    #[tactic(auto, unfolding(ring_records::specs::History::first_stand, ring_records::specs::Leader::first_leader, ring_records::specs::Lists::first, ring_records::specs::Lists::found_after))]
    pub fn new() -> Ballot
        ensures empty { (me : ℕ) (key : Key) → StandsFor result me [] key }
        ensures stood { result.stood ≡ None }
        ensures leader { result.leader ≡ None }
    {
        Ballot {
            stood: None,
            leader: None,
        }
    }

    /// Node `me` stands for the key with the bid: the token that it sends.
    #[tactic(auto, unfolding(ring_records::specs::Emission::emit))]
    pub fn stand(&mut self, me: NodeNo, key: Key, bid: Bid) -> Msg
        requires { self.old.stood ≡ None }
        ensures value { result ≡ Token key (record { bid = bid; node = me }) }
        ensures sends { (h : List Input) → emit me h (Stand key bid) ≡ Some result }
        ensures next { (h : List Input) → StandsFor self.old me h key → StandsFor self.new me (h ++ Stand key bid ∷ []) key }
        ensures stood { self.new.stood ≡ Some bid }
        ensures leader { self.new.leader ≡ self.old.leader }
    {
        self.stood = Some(bid);
        Msg::Token {
            key,
            candidate: Candidate { bid, node: me },
        }
    }

    /// Node `me` takes the token of a candidate: what it sends on. Its own token that comes home makes it the leader,
    /// once; another's goes on unless the node stood with a greater candidate.
    #[tactic(auto, unfolding(ring_records::specs::Emission::emit, ring_records::specs::Emission::passed_on, ring_records::specs::History::stood, ring_records::specs::Leader::leader, ring_records::specs::Emission::is_below, ring_records::specs::Leader::is_bid, ring_records::specs::Known::passed, ring_records::specs::Known::shown))]
    pub fn hear_token(&mut self, me: NodeNo, key: Key, candidate: Candidate) -> Option<Msg>
        ensures value { result ≡ passed me self.old.stood self.old.leader (Token key candidate) }
        ensures shown { self.new.leader ≡ or_else self.old.leader (shown me self.old.stood (Token key candidate)) }
        ensures sends { (h : List Input) (msg_no : ℕ) → StandsFor self.old me h key → is_retired h key ≡ false → emit me h (Take msg_no (Token key candidate)) ≡ result }
        ensures next { (h : List Input) (msg_no : ℕ) → StandsFor self.old me h key → StandsFor self.new me (h ++ Take msg_no (Token key candidate) ∷ []) key }
        ensures stood { self.new.stood ≡ self.old.stood }
        ensures leader { (c : Candidate) → self.old.leader ≡ Some c → self.new.leader ≡ Some c }
    {
        if candidate.node == me {
            if self.stood == Some(candidate.bid) && self.leader.is_none() {
                self.leader = Some(candidate);
                return Some(Msg::Elected { key, candidate });
            }
            return None;
        }
        if self.yields_to(me, &candidate) {
            Some(Msg::Token { key, candidate })
        } else {
            None
        }
    }

    /// Node `me` takes the news of who is elected: what it sends on. The round stops at the leader itself, and where
    /// a leader is known already.
    #[tactic(auto, unfolding(ring_records::specs::Emission::emit, ring_records::specs::Emission::passed_on, ring_records::specs::Leader::leader, ring_records::specs::Known::passed, ring_records::specs::Known::shown))]
    pub fn hear_elected(&mut self, me: NodeNo, key: Key, candidate: Candidate) -> Option<Msg>
        ensures value { result ≡ passed me self.old.stood self.old.leader (Elected key candidate) }
        ensures shown { self.new.leader ≡ or_else self.old.leader (shown me self.old.stood (Elected key candidate)) }
        ensures sends { (h : List Input) (msg_no : ℕ) → StandsFor self.old me h key → is_retired h key ≡ false → emit me h (Take msg_no (Elected key candidate)) ≡ result }
        ensures next { (h : List Input) (msg_no : ℕ) → StandsFor self.old me h key → StandsFor self.new me (h ++ Take msg_no (Elected key candidate) ∷ []) key }
        ensures stood { self.new.stood ≡ self.old.stood }
        ensures leader { (c : Candidate) → self.old.leader ≡ Some c → self.new.leader ≡ Some c }
    {
        if candidate.node == me || self.leader.is_some() {
            return None;
        }
        self.leader = Some(candidate);
        Some(Msg::Elected { key, candidate })
    }
}

impl Ballot {
    ghost use Rattle.ring_records.specs.Emission.{is_below};

    /// Whether the node has not stood, or stood with a lesser candidate.
    #[tactic(auto, unfolding(ring_records::specs::Emission::is_below))]
    fn yields_to(&self, me: NodeNo, candidate: &Candidate) -> bool
        ensures { result ≡ is_below self.now.stood me candidate.now }
    {
        match self.stood {
            None => true,
            Some(bid) => Candidate { bid, node: me }.is_below(candidate),
        }
    }
}
