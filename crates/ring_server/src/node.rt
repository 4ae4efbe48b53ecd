//! One node: it is opened, its threads run, and it is closed.
ghost use Rattle.std.specs.Prelude.{◌≡◌, ◌+◌, length, IfSome};
ghost use Rattle.std.specs.List.{sum_by};
ghost use Rattle.commit_hub.specs.Holders.{count_of};
ghost use Rattle.commit_hub.specs.Pages.{ForAccepted, ForTie};
ghost use Rattle.group_commit.specs.Next.{durable_part};
ghost use Rattle.ring_service.specs.Flushers.{known_to};
ghost use Rattle.ring_start.specs.Fits.{kept_by};

use crate::crew::{Common, Ends, run_threads, take_ends, unstarted};
use crate::links::{Links, Successor};
use crate::shared::Shared;
use crate::site::Site;
use crate::turnstile::Turnstile;
use commit_hub::{Hub, NodeLedger, Share};
use decision_board::Naming;
use disk_model::Device;
use ring_records::Shown;
use ring_service::{Flusher, opened_board};
use ring_start::OpenNode;
use std::sync::Wait;
use std::thread::Threads;
use std::time::Clock;

/// A node that is open: its hub, its flusher, and what its other threads take with them.
struct ServedNode<J: Naming, A: NodeLedger, V: Device> {
    hub: Hub<A>,
    flusher: Flusher<V, J, A>,
    ends: Ends<J, A>,
}

/// Runs a node until the last door of the ring is done, and shows what it holds then. `None` where its device failed: the
/// others go on. It tells the latch once that its threads are there, or that a thread or memory is wanting; where the
/// ring does not start, nothing is served.
pub(crate) fn serve_node<
    J: Naming + Send + Sync,
    A: NodeLedger + Send + Sync,
    V: Device + Send + Drop,
    R: Threads + Wait + Clock + Sync,
>(rt: &R, site: Site<V>, shared: &Shared) -> Option<Shown>
    requires member { (kept_by site.opened).view.member ≡ A.member }
    requires opening { (kept_by site.opened).opening ≡ A.opening }
    requires opened { (kept_by site.opened).opening.inputs + length (kept_by site.opened).view.state.inputs ≡ A.opened }
    requires history { site.history ≡ J.history }
    requires accepted { ForAccepted site.blanks A.name A.parts }
    requires tied { ForTie site.blanks A.tied }
{
    let latch = &shared.latch;
    let Some(tally) = shared.tally(site.node()) else {
        drop(site);
        return unstarted(rt, latch);
    };
    let (alloc, place, doors) = (site.alloc, site.place(), site.entrance.doors.count);
    let Some(node) = open::<J, A, V, R>(rt, site) else {
        return unstarted(rt, latch);
    };
    let ServedNode { hub, flusher, ends } = node;
    let successor = Successor::new();
    let turnstile = Turnstile::new(rt, doors);
    let links = Links::new(shared, &successor, tally, &turnstile, place);
    let common = Common {
        alloc,
        hub: &hub,
        links: &links,
        latch,
    };
    match run(rt, &common, flusher, ends) {
        Some(shares) => Some(close(hub, shares)),
        None => {
            drop(hub);
            None
        }
    }
}

/// Opens a node, with a share of its hub for each place but its flusher's. `None` where memory or a place is wanting.
fn open<J: Naming, A: NodeLedger, V: Device + Drop, R: Wait>(
    rt: &R,
    site: Site<V>,
) -> Option<ServedNode<J, A, V>>
    requires member { (kept_by site.opened).view.member ≡ A.member }
    requires opening { (kept_by site.opened).opening ≡ A.opening }
    requires opened { (kept_by site.opened).opening.inputs + length (kept_by site.opened).view.state.inputs ≡ A.opened }
    requires history { site.history ≡ J.history }
    requires accepted { ForAccepted site.blanks A.name A.parts }
    requires tied { ForTie site.blanks A.tied }
    ensures places { IfSome result (λ node. 1 + (length node.ends.crew.seats.items + 1) ≡ A.parts) }
    ensures known { IfSome result (λ node. known_to node.flusher ≡ durable_part (kept_by site.opened)) }
{
    let Site {
        alloc,
        opened,
        entrance,
        readers,
        blanks,
        history,
    } = site;
    let OpenNode {
        number: _,
        nodes: _,
        node,
    } = opened;
    let (desk, journal) = node.split();
    let Ok(board) = opened_board::<J>(alloc, history, &desk, readers as usize) else {
        drop((desk, journal, entrance, blanks));
        return None;
    };
    let (hub, tie) = Hub::<A>::new(desk, blanks);
    let ends = take_ends(rt, alloc, &hub, &board, entrance);
    let flusher = Flusher::new(alloc, journal, board, tie);
    match ends {
        Some(ends) => Some(ServedNode { hub, flusher, ends }),
        None => {
            end_flusher(rt, flusher);
            drop(hub);
            None
        }
    }
}

/// Ends a flusher, whose readers are all let go.
fn end_flusher<J: Naming, A: NodeLedger, V: Device + Drop, R: Wait>(
    rt: &R,
    flusher: Flusher<V, J, A>,
) {
    let (journal, board, owed) = flusher.into_parts();
    drop((journal, owed));
    board.end(rt);
}

/// Runs the threads of a node, ends its flusher, and gives back the shares of all places, or `None` where a thread or memory
/// was wanting, the ring did not start or the flusher did not come to its end.
fn run<
    J: Naming + Send + Sync,
    A: NodeLedger + Send + Sync,
    V: Device + Drop,
    R: Threads + Wait + Clock + Sync,
>(
    rt: &R,
    common: &Common<'_, A>,
    flusher: Flusher<V, J, A>,
    ends: Ends<J, A>,
) -> Option<Vec<Share<A>>>
    ensures { IfSome result (λ shares. length shares.items ≡ length ends.crew.seats.items + 1) }
{
    let mut flusher = flusher;
    let shares = run_threads(rt, common, &mut flusher, ends);
    end_flusher(rt, flusher);
    shares
}

/// What the node holds, where the shares of all places are back.
fn close<A: NodeLedger>(hub: Hub<A>, shares: Vec<Share<A>>) -> Shown
    requires { 1 + length shares.items ≡ A.parts }
    ensures { result.inputs ≡ A.opened + sum_by count_of shares.items }
{
    match hub.settle(shares) {
        Ok(desk) => desk.shown(),
        Err(_) => unreachable!(),
    }
}
