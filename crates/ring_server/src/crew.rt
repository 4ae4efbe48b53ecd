//! The threads of a node: its inbox, its doors and, where it may be asked, its clerk, beside the one that flushes.
ghost use Rattle.std.specs.Prelude.{◌≡◌, ◌+◌, length, None, IsTrue, IfOk, IfSome, OnOk};
ghost use denote.Param.Send.{IsSend};

use crate::clerk::{Clerk, serve_clerk, take_clerk};
use crate::door::{Doorway, Seat, serve_door, take_seats};
use crate::flush::flush_all;
use crate::inbox::take_all;
use crate::links::Links;
use crate::site::{Doors, Entrance};
use crate::start_latch::StartLatch;
use crate::window::send_window;
use commit_hub::{Hub, NodeLedger, Share};
use crossbeam_channel::Receiver;
use decision_board::{Board, Naming};
use disk_model::Device;
use ring_news::Shortage;
use ring_post::Letter;
use ring_service::Flusher;
use std::alloc::{AllocError, Global};
use std::net::TcpListener;
use std::sync::Wait;
use std::thread::{JoinHandle, Scope, Threads, scope, scope_env};
use std::time::Clock;

/// What the threads of the inbox, the doors and the clerk of a node take each for themselves.
#[derive(Drop)]
pub(crate) struct Crew<J: Naming, A: NodeLedger> {
    share: Share<A>,
    pub(crate) seats: Vec<Seat<J, A>>,
    clerk: Option<Clerk<J>>,
}

/// What the inbox, the doors and the clerk of a node take with them.
#[derive(Drop)]
pub(crate) struct Ends<J: Naming, A: NodeLedger> {
    inbox: Receiver<Letter>,
    listener: TcpListener,
    doors: Doors,
    pub(crate) crew: Crew<J, A>,
}

/// What all threads of a node share.
#[derive(Drop)]
pub(crate) struct Common<'s, A: NodeLedger> {
    pub(crate) alloc: Global,
    pub(crate) hub: &'s Hub<A>,
    pub(crate) links: &'s Links<'s>,
    pub(crate) latch: &'s StartLatch,
}

/// Tells the latch that memory or a place is wanting: the node does not start.
pub(crate) fn unstarted<T, R: Wait>(rt: &R, latch: &StartLatch) -> Option<T>
    ensures { result ≡ None }
{
    latch.tell(rt, Err(Shortage::Memory));
    None
}

/// What the threads of a node take, or `None` where memory or a place is wanting.
pub(crate) fn take_ends<J: Naming, A: NodeLedger, R: Wait>(
    rt: &R,
    alloc: Global,
    hub: &Hub<A>,
    board: &Board<J>,
    entrance: Entrance,
) -> Option<Ends<J, A>>
    ensures { IfSome result (λ ends. length ends.crew.seats.items ≡ entrance.doors.count) }
{
    let Entrance {
        inbox,
        listener,
        doors,
        asked,
    } = entrance;
    let share = hub.enter(rt).ok()?;
    let seats = take_seats(rt, alloc, hub, board, doors.count)?;
    let clerk = take_clerk(board, asked, port_of(&listener), doors.count - 1).ok()?;
    Some(Ends {
        inbox,
        listener,
        doors,
        crew: Crew {
            share,
            seats,
            clerk,
        },
    })
}

/// The port where clients come, 0 where the system does not tell it.
fn port_of(listener: &TcpListener) -> u16 {
    match listener.local_addr() {
        Ok(address) => address.port(),
        Err(_) => 0,
    }
}

/// Runs the inbox once all are let go, and closes the hub behind it and dismisses the clerk: the doors are done by then.
/// Where the ring does not start, nothing is taken.
fn serve_inbox<A: NodeLedger, R: Wait + Clock>(
    rt: &R,
    common: &Common<'_, A>,
    share: Share<A>,
    inbox: &Receiver<Letter>,
) -> Share<A> {
    let (hub, links) = (common.hub, common.links);
    let share = if common.latch.wait(rt) {
        take_all(rt, common.alloc, hub, share, inbox, links)
    } else {
        share
    };
    hub.close(rt);
    links.dismiss(rt);
    share
}

/// Keeps the handle of a thread that was started.
fn keep<A: NodeLedger>(
    handles: &mut Vec<JoinHandle<Share<A>>>,
    started: Option<JoinHandle<Share<A>>>,
) -> Result<(), Shortage>
    ensures { OnOk result (length handles.new.items ≡ length handles.old.items + 1) }
{
    match started {
        Some(handle) => match handles.push(handle) {
            Ok(()) => Ok(()),
            Err(_) => Err(Shortage::Memory),
        },
        None => Err(Shortage::Thread),
    }
}

/// Starts the inbox in a thread.
fn start_inbox<'s, N: 's, A: NodeLedger + Send + Sync + 's, R: Wait + Clock + Sync>(
    scope: &Scope<'s, N>,
    rt: &'s R,
    common: &'s Common<'s, A>,
    share: Share<A>,
    inbox: &'s Receiver<Letter>,
    handles: &mut Vec<JoinHandle<Share<A>>>,
) -> Result<(), Shortage>
    ensures { OnOk result (length handles.new.items ≡ length handles.old.items + 1) }
{
    let started = scope
        .spawn(move || serve_inbox(rt, common, share, inbox))
        .ok();
    keep(handles, started)
}

/// Starts each door in a thread.
fn start_doors<
    's,
    N: 's,
    J: Naming + Send + Sync + 's,
    A: NodeLedger + Send + Sync + 's,
    R: Wait + Clock + Sync,
>(
    scope: &Scope<'s, N>,
    rt: &'s R,
    common: &'s Common<'s, A>,
    seats: Vec<Seat<J, A>>,
    doorway: &'s Doorway,
    handles: &mut Vec<JoinHandle<Share<A>>>,
) -> Result<(), Shortage>
    ensures { OnOk result (length handles.new.items ≡ length handles.old.items + length seats.items) }
{
    for seat in seats {
        let Common {
            alloc,
            hub,
            links,
            latch,
        } = *common;
        let started = scope
            .spawn(move || serve_door(rt, alloc, hub, seat, doorway, links, latch))
            .ok();
        keep(handles, started)?;
    }
    Ok(())
}

/// Starts the clerk in a thread, where there is one.
fn start_clerk<
    's,
    N: 's,
    J: Naming + Send + Sync + 's,
    A: NodeLedger + Send + Sync + 's,
    R: Wait + Clock + Sync,
>(
    scope: &Scope<'s, N>,
    rt: &'s R,
    common: &'s Common<'s, A>,
    clerk: Option<Clerk<J>>,
) -> Result<(), Shortage> {
    let Some(clerk) = clerk else {
        return Ok(());
    };
    let Common {
        alloc,
        hub,
        links,
        latch,
    } = *common;
    match scope.spawn(move || serve_clerk(rt, alloc, hub, clerk, links, latch)) {
        Ok(_) => Ok(()),
        Err(_) => Err(Shortage::Thread),
    }
}

/// Starts the inbox, the doors and the clerk in threads.
fn start_crew<
    's,
    N: 's,
    J: Naming + Send + Sync + 's,
    A: NodeLedger + Send + Sync + 's,
    R: Wait + Clock + Sync,
>(
    scope: &Scope<'s, N>,
    rt: &'s R,
    common: &'s Common<'s, A>,
    crew: Crew<J, A>,
    inbox: &'s Receiver<Letter>,
    doorway: &'s Doorway,
    handles: &mut Vec<JoinHandle<Share<A>>>,
) -> Result<(), Shortage>
    ensures { OnOk result (length handles.new.items ≡ length handles.old.items + (length crew.seats.items + 1)) }
{
    let Crew {
        share,
        seats,
        clerk,
    } = crew;
    handles.reserve(seats.len().saturating_add(1))?;
    start_inbox(scope, rt, common, share, inbox, handles)?;
    start_doors(scope, rt, common, seats, doorway, handles)?;
    start_clerk(scope, rt, common, clerk)
}

/// Room for the shares of all places, before any thread is started.
fn take_room<J: Naming, A: NodeLedger>(
    alloc: Global,
    crew: &Crew<J, A>,
) -> Result<Vec<Share<A>>, AllocError>
    ensures { IfOk result (λ shares. length shares.items ≡ 0) }
{
    Vec::with_capacity(alloc, crew.seats.len().saturating_add(1))
}

/// Waits for the threads, and takes their shares. Whether there is room for all.
fn join_all<A: NodeLedger, R: Threads>(
    rt: &R,
    handles: Vec<JoinHandle<Share<A>>>,
    shares: &mut Vec<Share<A>>,
) -> bool
    ensures { IsTrue result → length shares.new.items ≡ length shares.old.items + length handles.items }
{
    let mut are_back = true;
    for handle in handles {
        match shares.push(handle.join(rt)) {
            Ok(()) => {}
            Err(_) => are_back = false,
        }
    }
    are_back
}

/// Starts the inbox, the doors and the clerk in threads, tells the latch, and flushes here once all are let go. Gives the shares
/// back, or `None` where the ring did not start or the flusher did not come to its end.
pub(crate) fn run_threads<
    J: Naming + Send + Sync,
    A: NodeLedger + Send + Sync,
    V: Device,
    R: Threads + Wait + Clock + Sync,
>(
    rt: &R,
    common: &Common<'_, A>,
    flusher: &mut Flusher<V, J, A>,
    ends: Ends<J, A>,
) -> Option<Vec<Share<A>>>
    ensures { IfSome result (λ shares. length shares.items ≡ length ends.crew.seats.items + 1) }
{
    let Ends {
        inbox,
        listener,
        doors,
        crew,
    } = ends;
    let inbox = &inbox;
    let doorway = Doorway::new(listener, doors);
    let doorway = &doorway;
    scope(
        scope_env(),
        rt,
        |scope| -> Option<Vec<Share<A>>>
            requires { IsSend J.row × IsSend A.row }
            ensures { IfSome result (λ shares. length shares.items ≡ length crew.seats.items + 1) }
        {
            let (hub, links, latch) = (common.hub, common.links, common.latch);
            let mut handles = Vec::new(common.alloc);
            let Ok(mut shares) = take_room(common.alloc, &crew) else {
                drop((crew, handles));
                return unstarted(rt, latch);
            };
            let outcome = start_crew(scope, rt, common, crew, inbox, doorway, &mut handles);
            // No message of this run may come to the successor before these.
            send_window(rt, hub, links);
            let is_started = outcome.is_ok();
            latch.tell(rt, outcome);
            let works = latch.wait(rt) && flush_all(rt, hub, flusher, links);
            let are_back = join_all(rt, handles, &mut shares);
            if is_started && works && are_back {
                Some(shares)
            } else {
                None
            }
        },
    )
}
