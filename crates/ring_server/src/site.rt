//! What a node serves with.
ghost use Rattle.std.specs.Prelude.{◌≡◌, ◌+◌, ◌≤◌, min};
ghost use Rattle.ring_records.specs.declared.limits.TheConstants.{DOORS};
ghost use Rattle.commit_hub.specs.Places.{places_of};

use commit_hub::Blanks;
use crossbeam_channel::Receiver;
use decision_board::Opened;
use disk_model::Device;
use ring_post::{Letter, RingPlace};
use ring_records::{DOORS, NodeNo};
use ring_start::OpenNode;
use ring_watch::Inquiry;
use std::alloc::Global;
use std::net::TcpListener;
use std::time::Duration;

/// How a node's doors serve.
#[derive(Clone, Copy)]
pub struct Doors {
    pub(crate) count: u32,
    pub(crate) sessions: u64,
    pub(crate) idle: Option<Duration>,
    pub(crate) leap: u32,
    ghost range: { (1 ≤ count) × (count ≤ DOORS) },
    ghost bounded: { leap ≤ 999999999 },
}

impl Doors {
    /// So many doors, 1 to 32, which serve so many sessions together, or sessions without end. A session ends where its
    /// client sends nothing for so many seconds, or takes no answer for as long; 0 is for ever. Terms have no bound.
    pub fn new(count: u32, sessions: Option<u32>, idle: u32) -> Doors
        requires { (1 ≤ count) × (count ≤ DOORS) }
    {
        Doors {
            count,
            sessions: match sessions {
                Some(sessions) => u64::from(sessions),
                // more than are served in any time
                None => u64::MAX,
            },
            idle: match idle {
                0 => None,
                seconds => Some(Duration::from_secs(u64::from(seconds))),
            },
            leap: 0,
        }
    }

    /// Which let a client stand for a term so far above the latest that is known for its group; 0 is for no bound.
    pub fn with_leap(self, leap: u32) -> Doors
        requires { leap ≤ 999999999 }
    {
        let Doors {
            count,
            sessions,
            idle,
            leap: _,
        } = self;
        Doors {
            count,
            sessions,
            idle,
            leap,
        }
    }
}

impl Doors {
    /// These and one more, where there are places for so many.
    fn with_one_kept(self, places: u32) -> Doors
        requires { (self.count ≤ places) × (places ≤ DOORS) }
        ensures { result.count ≡ min places (self.count + 1) }
    {
        let count = if self.count < places {
            self.count + 1
        } else {
            places
        };
        Doors {
            count,
            sessions: self.sessions,
            idle: self.idle,
            leap: self.leap,
        }
    }
}

/// The place of a node in its ring.
fn place_of<V: Device>(opened: &OpenNode<V>) -> RingPlace
    ensures { (result.node ≡ opened.now.number) × (result.nodes ≡ opened.now.nodes) }
{
    RingPlace {
        node: opened.number,
        nodes: opened.nodes,
    }
}

/// Where messages and clients come to a node, how its doors serve, and what its clerk is asked, where it has one.
#[derive(Drop)]
pub(crate) struct Entrance {
    pub(crate) inbox: Receiver<Letter>,
    pub(crate) listener: TcpListener,
    pub(crate) doors: Doors,
    pub(crate) asked: Option<Receiver<Inquiry>>,
}

/// A node with its entrance, how many read its board, and what its ledgers begin with.
#[derive(Drop)]
pub struct Site<V: Device> {
    pub(crate) alloc: Global,
    pub(crate) opened: OpenNode<V>,
    pub(crate) entrance: Entrance,
    pub(crate) readers: u32,
    pub(crate) blanks: Blanks,
    pub(crate) history: Opened,
    ghost places: { places_of blanks ≡ entrance.doors.count + 1 },
    ghost few: { (1 ≤ readers) × (readers ≤ DOORS) },
}

impl<V: Device> Site<V> {
    /// Of a node that was opened. It has a clerk where that may be asked and has a place: a board has 32, of which each
    /// door takes one. It has a door more, for short questions, where that has a place.
    pub fn new(
        alloc: Global,
        opened: OpenNode<V>,
        inbox: Receiver<Letter>,
        listener: TcpListener,
        doors: Doors,
        asked: Option<Receiver<Inquiry>>,
    ) -> Site<V> {
        let asked = if doors.count < DOORS { asked } else { None };
        let clerks = u32::from(asked.is_some());
        let doors = doors.with_one_kept(DOORS - clerks);
        let readers = doors.count + clerks;
        Site {
            alloc,
            opened,
            entrance: Entrance {
                inbox,
                listener,
                doors,
                asked,
            },
            readers,
            blanks: Blanks::new(doors.count + 1),
            history: Opened::new(),
        }
    }

    /// Which node it is.
    pub(crate) fn node(&self) -> NodeNo {
        self.opened.number
    }

    /// Its place in the ring.
    pub(crate) fn place(&self) -> RingPlace
        ensures { (result.node ≡ self.now.opened.number) × (result.nodes ≡ self.now.opened.nodes) }
    {
        place_of(&self.opened)
    }
}
