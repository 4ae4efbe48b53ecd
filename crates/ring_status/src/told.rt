// What is told of a node, by what is known of it.
ghost use Rattle.std.specs.Prelude.{◌≡◌, min};
ghost use Rattle.ring_status.specs.Counts.{nanos_passed, seconds_of};
ghost use Rattle.ring_status.specs.Health.{condition_of, is_renewable, stands_left};

use crate::counts::Counts;
use crate::holding::Holding;
use crate::values::{CommitTimes, Letters, NodeStatus, Place, RefusalCount};
use std::time::Instant;

/// The counts of a node with so many doors, without the one that is kept, where a session more may be busy.
fn without_kept(counts: Counts, doors: u32) -> Counts
    ensures { result ≡ record counts { busy = min counts.busy doors } }
{
    let mut told = counts;
    told.busy = counts.busy.min(u64::from(doors));
    told
}

/// What is told at this moment of the node at that place: what it holds and what its threads counted, the messages that wait
/// there, how long its commits took, and the refusals that its clients were told. A session at the door that is kept is none of
/// those that are busy.
pub fn node_status(
    place: Place,
    held: Holding,
    counts: Counts,
    now: Option<Instant>,
    letters: Letters,
    commits: CommitTimes,
    refusals: Vec<RefusalCount>,
) -> NodeStatus
    requires { letters.node ≡ place.node }
    ensures place { result.place ≡ place }
    ensures condition { result.condition ≡ condition_of held result.writing }
    ensures held { result.held ≡ held }
    ensures renewable { result.renewable ≡ is_renewable held }
    ensures left { result.stands_left ≡ stands_left held }
    ensures counts { result.counts ≡ record counts { busy = min counts.busy place.doors } }
    ensures writing { result.writing ≡ seconds_of (nanos_passed counts.since now) }
    ensures age { result.checkpoint_age ≡ seconds_of (nanos_passed counts.renewed now) }
    ensures letters { result.letters ≡ letters }
    ensures commits { result.commits ≡ commits }
    ensures refusals { result.refusals ≡ refusals }
{
    let writing = counts.writing(now);
    NodeStatus {
        place,
        condition: held.condition(writing),
        held,
        renewable: held.is_renewable(),
        stands_left: held.stands_left(),
        counts: without_kept(counts, place.doors),
        writing,
        checkpoint_age: counts.checkpoint_age(now),
        letters,
        commits,
        refusals,
    }
}
