// The leaders by key.
ghost use Rattle.std.specs.Prelude.{◌≡◌, ◌<◌, ℕ, None, IsSome, MatchOption, OnOk, OnErr};
ghost use Rattle.std.specs.FinMap as map;
ghost use Rattle.ring_records.specs.Latest.{IsLatest};
ghost use Rattle.decision_board.specs.Leaders.{leads, put, reaches, start_of, without};
ghost use Rattle.decision_board.specs.Next.{IsFirstLed, IsNext};

use ring_records::{Candidate, Decision, GroupName, Key, Term};
use std::alloc::{AllocError, Global};
use std::collections::BTreeMap;
use std::marker::Model;
use std::ops::Bound;

// Where the keys of the groups behind the name begin.
fn start_of(after: Option<GroupName>) -> Bound<Key>
    ensures { result ≡ start_of after }
{
    match after {
        Some(group) => Bound::Excluded(Key {
            group,
            term: Term::last(),
        }),
        None => Bound::Unbounded,
    }
}

/// The leaders, as a finite map from key to leader.
#[derive(Drop)]
pub struct Leaders {
    by_key: BTreeMap<Key, Candidate>,
}

impl Model for Leaders {
    ghost use Rattle.std.specs.FinMap as map;
    ghost use Rattle.ring_records.specs.KeyOrder.{key_cmp};
    ghost use Rattle.ring_records.specs.declared.candidate.Candidate.{Candidate};
    ghost use Rattle.decision_board.specs.Leaders.{coded_leaders, HaveTerms};

    ghost Value = { map.FinMap key_cmp Candidate };

    ghost coded = { coded_leaders };

    ghost view = { λ l. map.from_entries l.by_key.entries };

    ghost invariant = { λ l. HaveTerms (map.from_entries l.by_key.entries) };
}

impl Leaders {
    /// No leaders.
    pub fn new(alloc: Global) -> Leaders
        ensures { result ≡ map.empty }
    {
        Leaders {
            by_key: BTreeMap::new(alloc),
        }
    }

    /// The leader for the key, if there is one.
    pub fn who(&self, key: &Key) -> Option<Candidate>
        ensures { result ≡ map.get self.now key.now }
    {
        self.by_key.get(key).copied()
    }

    /// The greatest term of the group with a leader, and that leader.
    pub fn latest(&self, group: &GroupName) -> Option<(Term, Candidate)>
        ensures { IsLatest (leads self.now group.now) result }
    {
        let first = Key {
            group: *group,
            term: Term::first(),
        };
        let last = Key {
            group: *group,
            term: Term::last(),
        };
        let (key, leader) = self.by_key.range(first..=last).next_back()?;
        Some((key.term, *leader))
    }

    // The first group behind the name that has a leader.
    fn first_led(&self, after: Option<GroupName>) -> Option<GroupName>
        ensures { IsFirstLed (leads self.now) after result }
    {
        let (key, _leader) = self
            .by_key
            .range((start_of(after), Bound::Unbounded))
            .next()?;
        Some(key.group)
    }

    /// The first group behind the name that has a leader, with its greatest term and that leader.
    pub fn next(&self, after: Option<GroupName>) -> Option<Decision>
        ensures { IsNext (leads self.now) after result }
    {
        let group = self.first_led(after)?;
        let (term, leader) = self.latest(&group)?;
        let key = Key { group, term };
        Some(Decision { key, leader })
    }

    /// Puts the leader where the key has none. An `Err` changes nothing.
    pub fn put(&mut self, key: Key, leader: Candidate) -> Result<(), AllocError>
        ensures ok { OnOk result (self.new ≡ put self.old key leader) }
        ensures err { OnErr result (self.new ≡ self.old) }
    {
        if self.by_key.contains_key(&key) {
            return Ok(());
        }
        // The number that is read is known to be in its range, which `latest` looks through.
        let _number = key.term.number();
        self.by_key.insert(key, leader)?;
        Ok(())
    }

    /// Whether some term of the group from the floor on has a leader.
    pub fn reaches(&self, group: &GroupName, floor: Term) -> bool
        ensures { result ≡ reaches self.now group.now floor }
    {
        match self.latest(group) {
            Some(latest) => floor <= latest.0,
            None => false,
        }
    }

    // A key of the group below the floor, if one has a leader.
    fn under(&self, group: &GroupName, floor: Term) -> Option<Key>
        ensures { MatchOption result ((term : ℕ) → term < floor → leads self.now group.now term ≡ None)
            (λ key. (key.group ≡ group.now) × (key.term < floor) × IsSome (map.get self.now key)) }
    {
        // The number that is read is known to be 1 at least, where the range begins.
        let _number = floor.number();
        let first = Key {
            group: *group,
            term: Term::first(),
        };
        let end = Key {
            group: *group,
            term: floor,
        };
        let (key, _leader) = self.by_key.range(first..end).next()?;
        Some(*key)
    }

    // Takes the key out.
    fn remove(&mut self, key: &Key)
        ensures { self.new ≡ map.remove self.old key.now }
    {
        self.by_key.remove(key);
    }

    /// Takes out the group's leaders below the floor, one by one: the others are not looked at, and no memory is asked for.
    pub fn drop_under(&mut self, group: &GroupName, floor: Term)
        ensures { self.new ≡ without self.old group.now floor }
    {
        while let Some(key) = self.under(group, floor) {
            self.remove(&key);
        }
    }
}
