// The readers' end of a board. No call of a reader waits.
ghost use Rattle.std.specs.Prelude.{◌≡◌, ◌<◌, ◌≤◌, ◌⊎◌, ℕ, [], Option, Some, MatchOption, IfOk, IfErr, IsErrOf};
ghost use mathlib.Core.List.{IsPrefix};
ghost use Rattle.left_right.specs.Sides.{view};
ghost use Rattle.ring_records.specs.Notices.{floor_in, leader_in, leads_in, IsNotBelow};
ghost use Rattle.ring_records.specs.Latest.{IsLatest};
ghost use Rattle.ring_records.specs.declared.candidate.Candidate.{Candidate};
ghost use Rattle.ring_records.specs.declared.refusal.Refusal.TheVariants.{NoPlace, Retired};
ghost use Rattle.decision_board.specs.Next.{IsNext};
ghost use Rattle.decision_board.specs.Readers.{seen, learned, IsWho};

use crate::history::{Front, Naming};
use crate::rule::{Posted, Sees};
use crate::store::Store;
use crate::told::Told;
use core::mem::replace_with;
use left_right::reader::Reader;
use ring_records::{Candidate, Decision, GroupName, Key, Notice, Refusal, Term};
use std::marker::Model;

pub(crate) type Place<J> = Reader<Store, [Notice; 0], Posted<J>>;

/// A reader of a board. Contracts see the list of notices that it saw last, and the longest list that it learned.
#[derive(Drop)]
pub struct BoardReader<J: Naming> {
    place: Reader<Store, [Notice; 0], Posted<J>>,
    seen: Front,
    learned: Front,
}

impl<J: Naming> Model for BoardReader<J> {
    ghost use Rattle.std.specs.Prelude.{◌≡◌, List};
    ghost use Rattle.ring_records.specs.declared.notice.Notice.{Notice};
    ghost use mathlib.Core.List.{IsPrefix};

    ghost Value = { List Notice × List Notice };

    ghost view = { λ r. (r.seen.mark.notices, r.learned.mark.notices) };

    ghost invariant = { λ r. (r.seen.mark.history ≡ J.history) × (r.learned.mark.history ≡ J.history) × IsPrefix r.seen.mark.notices r.place.place.me.0.client };
}

impl<J: Naming> BoardReader<J> {
    pub(crate) fn new(place: Place<J>, start: Front, told: Front) -> BoardReader<J>
        requires start { (start.mark.history ≡ J.history) × (start.mark.notices ≡ []) }
        requires told { told.mark.history ≡ J.history }
        ensures seen { seen result ≡ [] }
        ensures learned { learned result ≡ told.mark.notices }
    {
        BoardReader {
            place,
            seen: start,
            learned: told,
        }
    }

    /// The leader for the key in the list that is seen then; refused as 23 where the key is below its group's floor there,
    /// and as 20 after the board's end.
    pub fn who(&mut self, key: &Key) -> Result<Option<Candidate>, Refusal>
        ensures answer { IfOk result (λ a. a ≡ leader_in (seen self.new) key.now) }
        ensures live { IfOk result (λ _. floor_in (seen self.new) key.now.group ≤ key.now.term) }
        ensures begins { IsErrOf result NoPlace ⊎ (IsPrefix (seen self.old) (seen self.new) × IsPrefix (learned self.old) (seen self.new)) }
        ensures stays { IfOk result (λ a. (leader : Candidate) → leader_in (seen self.old) key.now ≡ Some leader → a ≡ Some leader) }
        ensures learned { learned self.new ≡ learned self.old }
        ensures refused { IfErr result (λ e. ((e ≡ NoPlace) × (self.new ≡ self.old))
            ⊎ ((e ≡ Retired (floor_in (seen self.new) key.now.group)) × (key.now.term < floor_in (seen self.new) key.now.group))) }
    {
        match replace_with(&mut self.place, *key, find::<J>) {
            Some((leader, front)) => {
                // What is published never goes back, so it covers what was told.
                if !front.covers(&self.learned) {
                    return Err(Refusal::NoPlace);
                }
                self.seen = front;
                match leader {
                    Ok(leader) => Ok(leader),
                    Err(floor) => Err(Refusal::Retired(floor)),
                }
            }
            None => Err(Refusal::NoPlace),
        }
    }

    /// The greatest term of the group with a leader, and that leader, in the list that is seen then; refused as 20 after
    /// the board's end.
    pub fn latest(&mut self, group: &GroupName) -> Result<Option<(Term, Candidate)>, Refusal>
        ensures answer { IfOk result (λ a. IsLatest (leads_in (seen self.new) group.now) a) }
        ensures begins { IfOk result (λ _. IsPrefix (seen self.old) (seen self.new) × IsPrefix (learned self.old) (seen self.new)) }
        ensures never_down { IfOk result (λ a. (before : Option (ℕ × Candidate)) → IsLatest (leads_in (seen self.old) group.now) before → IsNotBelow before a) }
        ensures learned { learned self.new ≡ learned self.old }
        ensures refused { IfErr result (λ e. (e ≡ NoPlace) × (self.new ≡ self.old)) }
    {
        match replace_with(&mut self.place, *group, find_latest::<J>) {
            Some((latest, front)) => {
                // What is published never goes back, so it covers what was told.
                if !front.covers(&self.learned) {
                    return Err(Refusal::NoPlace);
                }
                self.seen = front;
                Ok(latest)
            }
            None => Err(Refusal::NoPlace),
        }
    }

    /// The first group behind the name that has a leader, with its greatest term and that leader, in the list that is
    /// seen then: all groups come, one by one, each behind the one before; refused as 20 after the board's end.
    pub fn next_group(&mut self, after: Option<GroupName>) -> Result<Option<Decision>, Refusal>
        ensures answer { IfOk result (λ a. IsNext (leads_in (seen self.new)) after a) }
        ensures begins { IfOk result (λ _. IsPrefix (seen self.old) (seen self.new) × IsPrefix (learned self.old) (seen self.new)) }
        ensures learned { learned self.new ≡ learned self.old }
        ensures refused { IfErr result (λ e. (e ≡ NoPlace) × (self.new ≡ self.old)) }
    {
        match replace_with(&mut self.place, after, find_next::<J>) {
            Some((next, front)) => {
                // What is published never goes back, so it covers what was told.
                if !front.covers(&self.learned) {
                    return Err(Refusal::NoPlace);
                }
                self.seen = front;
                Ok(next)
            }
            None => Err(Refusal::NoPlace),
        }
    }

    /// What it saw last. The board covers it, and any reader of the board may learn it.
    pub fn saw(&self) -> Told<J>
        ensures { result ≡ seen self.now }
    {
        Told::new(self.seen.again())
    }

    /// Learns what the board told. Each later read sees it.
    pub fn learn(&mut self, told: Told<J>)
        ensures seen { seen self.new ≡ seen self.old }
        ensures one { (learned self.new ≡ learned self.old) ⊎ (learned self.new ≡ told) }
        ensures before { IsPrefix (learned self.old) (learned self.new) }
        ensures told { IsPrefix told (learned self.new) }
        ensures one_history { IsPrefix (seen self.new) told ⊎ IsPrefix told (seen self.new) }
    {
        let front = told.into_front();
        self.seen.one_history(&front);
        if front.covers(&self.learned) {
            self.learned = front;
        }
    }
}

// The leader for the key, or the floor that it is below, and the list that says so.
fn find<J: Naming>(
    place: Place<J>,
    key: Key,
) -> (Place<J>, Option<(Result<Option<Candidate>, Term>, Front)>)
    ensures { MatchOption result.1 (view result.0.place ≡ view place.place)
        (λ a. IsWho a.1.mark.notices key a.0 × (a.1.mark.history ≡ J.history) × (view result.0.place ≡ a.1.mark.notices) × IsPrefix (view place.place) a.1.mark.notices) }
{
    match place.enter_as::<Sees<J>>() {
        Ok(reading) => {
            let leader = reading.get().who(&key);
            let front = reading.get().front.again();
            (reading.leave(), Some((leader, front)))
        }
        Err(place) => (place, None),
    }
}

// The latest leader of the group, and the list that names it.
fn find_latest<J: Naming>(
    place: Place<J>,
    group: GroupName,
) -> (Place<J>, Option<(Option<(Term, Candidate)>, Front)>)
    ensures { MatchOption result.1 (view result.0.place ≡ view place.place)
        (λ a. IsLatest (leads_in a.1.mark.notices group) a.0 × (a.1.mark.history ≡ J.history) × (view result.0.place ≡ a.1.mark.notices) × IsPrefix (view place.place) a.1.mark.notices) }
{
    match place.enter_as::<Sees<J>>() {
        Ok(reading) => {
            let latest = reading.get().latest(&group);
            let front = reading.get().front.again();
            (reading.leave(), Some((latest, front)))
        }
        Err(place) => (place, None),
    }
}

// The first group behind the name that has a leader, and the list that names it.
fn find_next<J: Naming>(
    place: Place<J>,
    after: Option<GroupName>,
) -> (Place<J>, Option<(Option<Decision>, Front)>)
    ensures { MatchOption result.1 (view result.0.place ≡ view place.place)
        (λ a. IsNext (leads_in a.1.mark.notices) after a.0 × (a.1.mark.history ≡ J.history) × (view result.0.place ≡ a.1.mark.notices) × IsPrefix (view place.place) a.1.mark.notices) }
{
    match place.enter_as::<Sees<J>>() {
        Ok(reading) => {
            let next = reading.get().next(after);
            let front = reading.get().front.again();
            (reading.leave(), Some((next, front)))
        }
        Err(place) => (place, None),
    }
}
