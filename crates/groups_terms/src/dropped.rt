// The ballots of a group below a floor.
ghost use Rattle.std.specs.Prelude.{◌≡◌, ◌-◌, ◌<◌, ◌≤◌, ◌^◌, ℕ, None, IsSome, MatchOption, not};
ghost use Rattle.std.specs.FinMap as map;
ghost use Rattle.ring_records.specs.Known.{drops};
ghost use Rattle.groups_terms.specs.Dropped.{HaveTerms, bytes_among, kept_in, stood_at, stood_among};

use cr_automaton::Ballot;
use ring_records::{GroupName, Key, KeyState, Term, state_len};
use std::collections::BTreeMap;

// Between which keys those of the group below the floor lie: from the first on, before the end.
fn bounds(group: &GroupName, floor: Term) -> (Key, Key)
    ensures first { result.0 ≡ record { group = group.now; term = 1 } }
    ensures end { result.1 ≡ record { group = group.now; term = floor } }
    ensures some { 1 ≤ floor }
{
    // The number that is read is known to be 1 at least, where the range begins.
    let _number = floor.number();
    let first = Key {
        group: *group,
        term: Term::first(),
    };
    let end = Key {
        group: *group,
        term: floor,
    };
    (first, end)
}

// A key of the group below the floor, if one has a ballot.
fn under(ballots: &BTreeMap<Key, Ballot>, group: &GroupName, floor: Term) -> Option<Key>
    requires terms { HaveTerms (kept_in ballots.now) }
    ensures { MatchOption result ((term : ℕ) → term < floor → map.get (kept_in ballots.now) (record { group = group.now; term = term }) ≡ None)
        (λ key. (key.group ≡ group.now) × (key.term < floor) × IsSome (map.get (kept_in ballots.now) key)) }
{
    let (first, end) = bounds(group, floor);
    let (key, _ballot) = ballots.range(first..end).next()?;
    Some(*key)
}

// Takes the key out, and a Stand for it out of their count.
fn remove(ballots: &mut BTreeMap<Key, Ballot>, stands: &mut u32, key: &Key)
    ensures ballots { kept_in ballots.new ≡ map.remove (kept_in ballots.old) key.now }
    ensures stands { stands.new ≡ stands.old - stood_at (kept_in ballots.old) key.now }
{
    if let Some(ballot) = ballots.remove(key) {
        if ballot.stood.is_some() {
            *stands = stands.saturating_sub(1);
        }
    }
}

/// Takes the group's ballots below the floor out, one by one, and their Stands out of the count: the others are not looked
/// at, and no memory is asked for.
pub fn drop_under(
    ballots: &mut BTreeMap<Key, Ballot>,
    stands: &mut u32,
    group: &GroupName,
    floor: Term,
)
    requires terms { HaveTerms (kept_in ballots.old) }
    ensures ballots { kept_in ballots.new ≡ map.retain_keys (kept_in ballots.old) (λ key. not (drops group.now floor key)) }
    ensures stands { stands.new ≡ stands.old - stood_among (kept_in ballots.old) (drops group.now floor) }
{
    while let Some(key) = under(ballots, group, floor) {
        remove(ballots, stands, &key);
    }
}

/// The bytes that the states of the group's keys below the floor take in a snapshot: the others are not looked at.
pub fn bytes_under(ballots: &BTreeMap<Key, Ballot>, group: &GroupName, floor: Term) -> u64
    requires terms { HaveTerms (kept_in ballots.now) }
    requires few { bytes_among (kept_in ballots.now) (drops group.now floor) < 2 ^ 64 }
    ensures { result ≡ bytes_among (kept_in ballots.now) (drops group.now floor) }
{
    let (first, end) = bounds(group, floor);
    let mut bytes = 0;
    for (key, ballot) in ballots.range(first..end) {
        bytes += u64::from(state_len(&KeyState {
            key: *key,
            stood: ballot.stood,
            leader: ballot.leader,
        }));
    }
    bytes
}
