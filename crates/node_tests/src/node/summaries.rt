// What a node knows, taken out as a summary and put back from its snapshot: the restored node judges, sends and answers
// as the first one, and its snapshot has the same bytes.
use super::*;
use crate::rows::{read, written};
use ring_records::{EPOCHS, LAYOUT, Room};

/// The snapshot of what the node knows, of the length that it tells.
fn snapshot(rt: &impl Abort, alloc: Global, core: &NodeCore) -> Vec<u8> {
    let summary = core.summary(alloc).expect(rt, "ample memory");
    let bytes = written(rt, alloc, &summary);
    drop(summary);
    assert!(rt; core.summary_len() == (bytes.len() as u64));
    bytes
}

/// Node 2 of three, with a capacity and this room, as these bytes have it.
fn restored(rt: &impl Abort, alloc: Global, capacity: u32, room: Room, bytes: &[u8]) -> NodeCore {
    let from = read(rt, alloc, bytes);
    assert!(rt; from.floors.len() <= u32::MAX as usize);
    assert!(rt; room.taken <= u64::from(u32::MAX));
    let core = NodeCore::restore(alloc, node(rt, 2), 3, capacity, room, &from);
    drop(from);
    core.expect(rt, "ample memory")
}

/// Inputs at the borders of what the histories below leave.
static ASKED: [Op; 15] = [
    Stand("red", 5, 31),
    Stand("red", 4, 1),
    Stand("red", 6, 1),
    Stand("blue", 1, 9),
    Stand("green", 1, 1),
    Take(0, Token("red", 5, 40, 3)),
    Take(1, Token("red", 5, 40, 3)),
    Take(2, Elected("red", 5, 40, 3)),
    Take(4, Elected("red", 5, 40, 4)),
    Acked(0),
    Acked(2),
    Acked(9),
    Retire("red", 5),
    Retire("red", 6),
    Retire("blue", 1),
];

/// Both admit the same, and refuse the rest for the same causes.
fn judge_alike(rt: &impl Abort, core: &NodeCore, other: &NodeCore) {
    for op in &ASKED {
        let input = input(rt, *op);
        assert!(rt; core.admit(&input) == other.admit(&input));
    }
}

/// Keys of these histories, and of none.
static LOOKED_AT: [(&str, u32); 4] = [("red", 5), ("red", 4), ("blue", 1), ("green", 1)];

/// Both show the same; of its capacity the restored one has taken the bytes of the snapshot.
fn show_alike(rt: &impl Abort, core: &NodeCore, other: &NodeCore) {
    let (mut here, there) = (counts(core), counts(other));
    here.1 = core.summary_len();
    assert!(rt; here == there);
    assert!(rt; core.window() == other.window());
    for row in &LOOKED_AT {
        let key = key(rt, row.0, row.1);
        assert!(rt; core.who(&key) == other.who(&key));
        assert!(rt; core.latest(&key.group) == other.latest(&key.group));
    }
}

/// A restored node accepts the input too, and brings the same. From then on its snapshot stands for all its inputs.
fn accepts_alike(rt: &impl Abort, alloc: Global, core: &mut NodeCore, op: Op) {
    let input = input(rt, op);
    let bytes = snapshot(rt, alloc, core);
    let room = Room {
        layout: LAYOUT,
        epoch: 1,
        taken: bytes.len() as u64,
        waits: false,
    };
    let mut other = restored(rt, alloc, 65_536, room, &bytes);
    show_alike(rt, core, &other);
    judge_alike(rt, core, &other);
    let effects = accept(rt, core, input);
    assert!(rt; accept(rt, &mut other, input) == effects);
    assert!(rt; snapshot(rt, alloc, &other) == snapshot(rt, alloc, core));
    assert!(rt; other.used() == (bytes.len() as u64 + input.cost() as u64));
    other.rebase(2);
    show_alike(rt, core, &other);
    drop((bytes, other));
}

/// Each input of the history finds a node that is restored from its summary as good as the first one.
fn goes_on(rt: &impl Abort, alloc: Global, ops: &[Op]) {
    let mut core = fresh(rt, alloc);
    for op in ops {
        accepts_alike(rt, alloc, &mut core, *op);
    }
    drop(core);
}

static ELECTED: [Op; 7] = [
    Stand("red", 5, 30),
    Take(0, Token("red", 5, 10, 1)),
    Take(1, Token("red", 5, 40, 3)),
    Take(2, Token("red", 5, 30, 2)),
    Acked(2),
    Take(3, Elected("red", 5, 30, 2)),
    Acked(3),
];

static PASSED_ON: [Op; 6] = [
    Take(0, Token("blue", 1, 7, 1)),
    Stand("blue", 2, 3),
    Acked(1),
    Take(1, Elected("blue", 1, 9, 3)),
    Acked(3),
    Take(2, Token("blue", 1, 7, 1)),
];

static GAVE_UP: [Op; 7] = [
    Stand("red", 4, 30),
    Stand("blue", 1, 30),
    Take(0, Elected("red", 5, 10, 1)),
    Retire("red", 5),
    Take(1, Token("red", 4, 30, 2)),
    Take(2, Elected("blue", 1, 40, 1)),
    Retire("blue", 1),
];

#[test]
fn a_restored_node_goes_on_as_the_first_one(rt: HostRuntime) {
    goes_on(&rt, rt.alloc(), &ELECTED);
    goes_on(&rt, rt.alloc(), &PASSED_ON);
    goes_on(&rt, rt.alloc(), &GAVE_UP);
}

static WON: [Op; 2] = [Stand("red", 9, 5), Take(0, Token("red", 9, 5, 2))];

/// What is asked, the layout and the number of the area in use, whether a Retire waits, the capacity, an input, and the
/// number of its refusal, or 0 where it is admitted.
type Case = (&'static str, u8, u64, bool, u32, Op, u8);

const LAST: u64 = EPOCHS - 1;

const GIVES_UP: Op = Retire("red", 9);

const TOO_HIGH: Op = Retire("red", 10);

const STANDS: Op = Stand("red", 10, 5);

const FULL: u8 = 7;

const LIMIT: u8 = 6;

const UNDECIDED: u8 = 26;

const NONE: u8 = 0;

/// 100 bytes are taken, and the snapshot has 88. A floor of 8 bytes comes to it, or a key of 13 and a message of 14.
static ROOMS: [Case; 17] = [
    ("a floor just fits", 2, 1, false, 96, GIVES_UP, NONE),
    ("one byte too long", 2, 1, false, 95, GIVES_UP, FULL),
    ("in layout 1", 1, 0, false, 96, GIVES_UP, NONE),
    ("too long in layout 1", 1, 0, false, 95, GIVES_UP, FULL),
    ("one area is left", 2, LAST - 1, false, 96, GIVES_UP, NONE),
    ("no area is left", 2, LAST, false, 96, GIVES_UP, LIMIT),
    ("6 before 7", 2, LAST, false, 95, GIVES_UP, LIMIT),
    ("26 before 6", 2, LAST, false, 95, TOO_HIGH, UNDECIDED),
    ("a Stand just fits", 2, LAST, false, 120, STANDS, NONE),
    ("a Stand too many", 2, 1, false, 119, STANDS, FULL),
    ("it fits behind one", 2, 1, true, 115, STANDS, NONE),
    ("too long behind one", 2, 1, true, 114, STANDS, FULL),
    ("no area behind one", 2, LAST, true, 120, STANDS, LIMIT),
    ("a second floor", 1, 0, true, 96, GIVES_UP, NONE),
    ("the newest layout", 3, LAST, true, 116, GIVES_UP, NONE),
    ("too many for it", 3, 1, true, 115, GIVES_UP, FULL),
    ("less than is taken", 3, 1, false, 68, Acked(1), FULL),
];

/// The node, restored from the snapshot with the room of the case, judges its input so.
fn has_room(rt: &impl Abort, alloc: Global, bytes: &[u8], case: &Case) {
    let (_what, layout, epoch, waits, capacity, op, refused) = *case;
    let room = Room {
        layout,
        epoch,
        taken: 100,
        waits,
    };
    let core = restored(rt, alloc, capacity, room, bytes);
    let needs = core.needs_area() == (waits && layout < LAYOUT);
    let number = match core.admit(&input(rt, op)) {
        Ok(()) => NONE,
        Err(refusal) => refusal.number(),
    };
    drop(core);
    assert!(rt; needs && number == refused);
}

// In an area of an earlier layout a Retire, and each input behind one that waits, takes no byte of the capacity: the
// snapshot behind it has to fit in, and an area has to be left for it.
#[test]
fn a_floor_has_room_in_earlier_layouts(rt: HostRuntime) {
    let core = after(&rt, rt.alloc(), &WON);
    let bytes = snapshot(&rt, rt.alloc(), &core);
    for case in &ROOMS {
        has_room(&rt, rt.alloc(), &bytes, case);
    }
    drop((core, bytes));
}
