// Hubs of new nodes, with a flusher and two clients each.
ghost use Rattle.std.specs.Prelude.{◌≡◌, ◌+◌, ◌-◌, ◌||◌, false, length, None};
ghost use Rattle.ring_records.specs.Admission.{used};
ghost use Rattle.ring_records.specs.States.{durable_in};
ghost use Rattle.gated_journal.specs.Journal.{member_of, len_of, room_of, layout_of, epoch_of, is_spoiled};
ghost use Rattle.node_core.specs.Core.{IsNodeOf};
ghost use Rattle.node_store.specs.Node.{desk_of};
ghost use Rattle.commit_hub.specs.Over.{is_over};
ghost use Rattle.commit_hub.specs.Pages.{ForAccepted, ForTie};

use crate::calls::{Noted, refused};
use crate::hub_clients::Client;
use crate::ring::{Ring, Seat, takes_part};
use crate::rows::{fills, node};
use crate::slow::Flags;
use crate::station::{Station, Step};
use crate::together::{Duo, Settled, settles, together};
use commit_hub::{Blanks, Hub, NodeLedger};
use decision_board::{Board, Naming, Opened};
use disk_model::Device;
use gated_journal::Journal;
use group_commit::Desk;
use ring_records::Refusal;
use ring_service::Flusher;
use std::alloc::AllocGlobal;
use std::marker::Brand;
use std::process::Abort;
use std::sync::Wait;
use std::sync::atomic::Ordering;
use std::thread::Threads;
use std::time::Clock;

/// What is done with a hub.
#[derive(Clone, Copy)]
pub enum Play<'a> {
    /// These steps, in turn.
    Alone(&'static [Step]),
    /// The same, where a checkpoint is due and all inputs are durable.
    Filled(&'static [Step]),
    /// The same, and then the hub is settled.
    Settled(&'static [Step]),
    /// What both clients do beside the flusher.
    Together(&'a Flags, Duo),
    /// The first client has this part in the election of a ring.
    InRing(&'a Ring, Seat),
}

impl Play<'_> {
    /// The number of the node whose hub it is.
    fn number(self) -> u8 {
        match self {
            Play::InRing(_, seat) => seat.number,
            _ => 1,
        }
    }
}

/// What a hub leaves: its journal, how many rounds the board is owed, and what it was settled with, if it was.
#[derive(Drop)]
pub struct Ended<V: Device> {
    pub journal: Journal<V>,
    pub owed: usize,
    pub settled: Option<Settled>,
}

/// The hub, its flusher and the client behind the steps.
fn played<V: Device, J: Naming, A: NodeLedger, R: Wait + Abort + AllocGlobal>(
    rt: &R,
    hub: Hub<A>,
    flusher: Flusher<V, J, A>,
    client: Client<J, A>,
    steps: &[Step],
) -> (Hub<A>, Flusher<V, J, A>, Client<J, A>) {
    let mut station = Station {
        hub,
        flusher,
        client,
        tickets: Vec::new(rt.alloc()),
        gate: Noted { first: 9, count: 9 },
    };
    station.plays(rt, steps);
    let Station {
        hub,
        flusher,
        client,
        tickets,
        gate: _gate,
    } = station;
    assert!(rt; tickets.is_empty());
    tickets.destroy_empty();
    (hub, flusher, client)
}

/// The journal, and how many rounds the board is owed.
fn ends<V: Device, J: Naming, A: NodeLedger, R: Wait>(
    rt: &R,
    flusher: Flusher<V, J, A>,
) -> (Journal<V>, usize) {
    let (journal, board, owed) = flusher.into_parts();
    board.end(rt);
    (journal, owed.len())
}

/// Ends the flusher, and settles the hub by the shares of both clients.
fn settled<V: Device, J: Naming, A: NodeLedger, R: Wait + Abort + AllocGlobal>(
    rt: &R,
    hub: Hub<A>,
    flusher: Flusher<V, J, A>,
    first: Client<J, A>,
    second: Client<J, A>,
) -> Ended<V> {
    let (journal, owed) = ends(rt, flusher);
    Ended {
        journal,
        owed,
        settled: Some(settles(rt, hub, first, second)),
    }
}

/// Does with a hub what the play says, and ends it.
fn on_hub<
    V: Device + Drop + Send,
    J: Naming + Send + Sync,
    A: NodeLedger + Send + Sync,
    R: Threads + Wait + Clock + Abort + AllocGlobal + Sync,
>(
    rt: &R,
    desk: Desk,
    journal: Journal<V>,
    opened: Opened,
    blanks: Blanks,
    play: Play<'_>,
) -> Result<Ended<V>, Refusal>
    requires member { desk.view.member ≡ A.member }
    requires opening { desk.opening ≡ A.opening }
    requires none { desk.view.state.checkpoint ≡ None }
    requires idle { desk.view.state.flying ≡ desk.view.state.durable }
    requires open { is_over desk ≡ false }
    requires inside { IsNodeOf desk.view.member.n desk.view.member.node }
    requires opened { desk.opening.inputs + length desk.view.state.inputs ≡ A.opened }
    requires history { opened ≡ J.history }
    requires accepted { ForAccepted blanks A.name A.parts }
    requires tied { ForTie blanks A.tied }
    requires ready { is_spoiled journal ≡ false }
    requires header { member_of journal ≡ desk.view.member }
    requires len { len_of journal ≡ desk.opening.inputs + desk.view.state.durable }
    requires room { room_of journal ≡ desk.view.member.capacity - used desk.view.state.base (durable_in desk.view.state) }
    requires layout { layout_of journal ≡ desk.view.state.base.layout }
    requires epoch { epoch_of journal ≡ desk.view.state.base.epoch }
{
    let board = match Board::<J>::new(rt.alloc(), opened, &[], 2) {
        Ok(board) => board,
        Err(_) => {
            drop((desk, journal, blanks));
            return Err(Refusal::OutOfMemory);
        }
    };
    let (hub, tie) = Hub::<A>::new(desk, blanks);
    let first = Client::enters(rt, &hub, &board);
    let second = Client::enters(rt, &hub, &board);
    let flusher = Flusher::new(rt.alloc(), journal, board, tie);
    Ok(with_clients(rt, hub, flusher, first, second, play))
}

/// Does what the play says, by these clients.
fn with_clients<
    V: Device + Send,
    J: Naming + Send + Sync,
    A: NodeLedger + Send + Sync,
    R: Threads + Wait + Clock + Abort + AllocGlobal + Sync,
>(
    rt: &R,
    hub: Hub<A>,
    flusher: Flusher<V, J, A>,
    first: Client<J, A>,
    second: Client<J, A>,
    play: Play<'_>,
) -> Ended<V> {
    match play {
        Play::Alone(steps) | Play::Filled(steps) => {
            drop(second);
            alone(rt, hub, flusher, first, steps)
        }
        Play::Settled(steps) => stepped(rt, hub, flusher, first, second, steps),
        Play::Together(flags, duo) => beside(rt, hub, flusher, first, second, flags, duo),
        Play::InRing(ring, seat) => in_ring(rt, hub, flusher, first, second, ring, seat),
    }
}

/// Behind the steps the flusher ends.
fn alone<V: Device, J: Naming, A: NodeLedger, R: Wait + Abort + AllocGlobal>(
    rt: &R,
    hub: Hub<A>,
    flusher: Flusher<V, J, A>,
    client: Client<J, A>,
    steps: &[Step],
) -> Ended<V> {
    let (hub, flusher, client) = played(rt, hub, flusher, client, steps);
    drop((hub, client));
    let (journal, owed) = ends(rt, flusher);
    Ended {
        journal,
        owed,
        settled: None,
    }
}

/// Behind the steps the hub is settled.
fn stepped<V: Device, J: Naming, A: NodeLedger, R: Wait + Abort + AllocGlobal>(
    rt: &R,
    hub: Hub<A>,
    flusher: Flusher<V, J, A>,
    first: Client<J, A>,
    second: Client<J, A>,
    steps: &[Step],
) -> Ended<V> {
    let (hub, flusher, first) = played(rt, hub, flusher, first, steps);
    settled(rt, hub, flusher, first, second)
}

/// What both clients do beside the flusher, and the second one behind its end.
fn beside<
    V: Device + Send,
    J: Naming + Send + Sync,
    A: NodeLedger + Send + Sync,
    R: Threads + Wait + Clock + Abort + AllocGlobal + Sync,
>(
    rt: &R,
    hub: Hub<A>,
    flusher: Flusher<V, J, A>,
    first: Client<J, A>,
    second: Client<J, A>,
    flags: &Flags,
    duo: Duo,
) -> Ended<V> {
    let mut flusher = flusher;
    let (first, second) = together(rt, &hub, &mut flusher, first, second, flags, duo);
    let second = second.plays(rt, &hub, flags, duo.later);
    settled(rt, hub, flusher, first, second)
}

/// The first client's part in the election of a ring.
fn in_ring<
    V: Device + Send,
    J: Naming + Send + Sync,
    A: NodeLedger + Send + Sync,
    R: Threads + Wait + Clock + Abort + AllocGlobal + Sync,
>(
    rt: &R,
    hub: Hub<A>,
    flusher: Flusher<V, J, A>,
    first: Client<J, A>,
    second: Client<J, A>,
    ring: &Ring,
    seat: Seat,
) -> Ended<V> {
    let (mut flusher, mut first) = (flusher, first);
    takes_part(rt, &hub, &mut flusher, &mut first, ring, seat);
    settled(rt, hub, flusher, first, second)
}

/// The node as the play begins with it.
fn begun<V: Device, R: Abort>(
    rt: &R,
    made: node_store::Node<V>,
    play: Play<'_>,
) -> node_store::Node<V>
    ensures open { ((desk_of result).view.closed || (desk_of result).view.failed) ≡ false }
    ensures spent { length (desk_of result).view.tickets ≡ 0 }
{
    let mut made = made;
    match play {
        Play::Alone(_) | Play::Settled(_) | Play::InRing(_, _) => {}
        Play::Filled(_) => fills(rt, &mut made),
        Play::Together(flags, _) => flags.armed.store(true, Ordering::SeqCst),
    }
    assert!(rt; made.is_open() && made.open_tickets() == 0);
    made
}

/// Plays on the hub of a node of 3, of node 1 outside a ring, with this device and capacity.
pub fn plays<V: Device + Drop + Send, R: Threads + Wait + Clock + Abort + AllocGlobal + Sync>(
    rt: &R,
    device: V,
    capacity: u32,
    play: Play<'_>,
) -> Result<Ended<V>, Refusal> {
    let me = node(rt, play.number());
    match node_store::Node::create(rt.alloc(), device, me, 3, capacity, 0) {
        Ok(made) => {
            let (desk, journal) = begun(rt, made, play).split();
            let (opened, blanks) = (Opened::new(), Blanks::new(2));
            on_hub::<V, Brand, Brand, R>(rt, desk, journal, opened, blanks, play)
        }
        Err((_device, refusal)) => Err(refusal),
    }
}

/// Plays on a hub with this device, of capacity 4,096: what it leaves, and what it was settled with.
pub fn ends_settled<
    V: Device + Drop + Send,
    R: Threads + Wait + Clock + Abort + AllocGlobal + Sync,
>(rt: &R, device: V, play: Play<'_>) -> (Journal<V>, Settled) {
    let ended = match plays(rt, device, 4096, play) {
        Ok(ended) => ended,
        Err(refusal) => refused(rt, refusal),
    };
    let Ended {
        journal,
        settled,
        owed: _,
    } = ended;
    match settled {
        Some(settled) => (journal, settled),
        None => panic!(rt; "not settled"),
    }
}

/// What both clients do beside the flusher of such a hub. What was held was not late.
pub fn plays_duo<V: Device + Drop + Send, R: Threads + Wait + Clock + Abort + AllocGlobal + Sync>(
    rt: &R,
    device: V,
    flags: &Flags,
    duo: Duo,
) -> (Journal<V>, Settled) {
    let ended = ends_settled(rt, device, Play::Together(flags, duo));
    assert!(rt; !flags.late.load(Ordering::SeqCst));
    ended
}
