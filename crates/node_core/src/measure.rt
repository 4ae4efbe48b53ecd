// How the length of a core's snapshot changes.
ghost use Rattle.std.specs.Prelude.{◌≡◌, ◌+◌, ◌<◌, ◌≤◌, ◌^◌, ℕ, None};
ghost use Rattle.ring_records.specs.declared.input.Input.TheVariants.{Stand, Take, Acked, Retire};
ghost use Rattle.ring_records.specs.Admission.{newest, snapshot_len};
ghost use Rattle.ring_records.specs.Known.{Objects, stepped};
ghost use Rattle.node_core.specs.Measure as bytes;

use crate::free::FreeCore;
use ring_records::{
    GroupName, Input, Key, KeyState, Msg, Term, floor_len, messages_len, msg_len, state_len,
};

impl FreeCore {
    /// The length of the snapshot behind an input to which `objection` has nothing, where it is so long before: at most 64
    /// bytes more. It looks at the keys that the input names or drops alone.
    pub fn len_after(&self, len: u64, input: &Input) -> u64
        requires free { Objects self.now.size self.now.known input.now None }
        requires exact { len ≡ snapshot_len newest self.now.known }
        requires short { len + 64 < 2 ^ 64 }
        ensures value { result ≡ snapshot_len newest (stepped self.now.me self.now.known input.now) }
        ensures range { result ≤ len + 64 }
    {
        let (more, less) = change(self, input);
        len + u64::from(more) - less
    }
}

// The bytes that the input brings into the snapshot, and those that it takes out.
fn change(core: &FreeCore, input: &Input) -> (u32, u64)
    requires free { Objects core.now.size core.now.known input.now None }
    requires short { snapshot_len newest core.now.known < 2 ^ 64 }
    ensures more { result.0 ≡ bytes.more core.now.me core.now.known input.now }
    ensures less { result.1 ≡ bytes.less core.now.known input.now }
    ensures range { result.0 ≤ 64 }
{
    match input {
        Input::Stand { key, .. } => (stood_len(key), 0),
        Input::Take { msg, .. } => heard_len(core, msg),
        Input::Acked { upto } => (0, credited_len(core, *upto)),
        Input::Retire { group, floor } => (
            new_floor_len(core, group, *floor),
            core.bytes_under(group, *floor),
        ),
    }
}

// Those of a key that the node stands for, and of its token.
fn stood_len(key: &Key) -> u32
    ensures value { (me bid : ℕ) → result ≡ bytes.stood_len me key.now bid }
    ensures range { result ≤ 64 }
{
    let name = key.group.as_bytes().len() as u32;
    (10 + name) + (11 + name)
}

// Those that a message brings and takes out.
fn heard_len(core: &FreeCore, msg: &Msg) -> (u32, u64)
    ensures more { (msg_no : ℕ) → result.0 ≡ bytes.more core.now.me core.now.known (Take msg_no msg.now) }
    ensures less { (msg_no : ℕ) → result.1 ≡ bytes.less core.now.known (Take msg_no msg.now) }
    ensures range { result.0 ≤ 64 }
{
    if core.is_below(&msg.key()) {
        return (0, 0);
    }
    let (before, heard, on) = core.would_hear(msg);
    (state_len(&heard) + len_on(&on), len_of(&before).into())
}

// Those of a state that may be known.
fn len_of(state: &Option<KeyState>) -> u32
    ensures { result ≡ bytes.len_of state.now }
{
    match state {
        Some(state) => state_len(state),
        None => 0,
    }
}

// Those of a message that may be sent.
fn len_on(on: &Option<Msg>) -> u32
    ensures value { result ≡ bytes.len_on on.now }
    ensures range { result ≤ 27 }
{
    match on {
        Some(msg) => msg_len(msg),
        None => 0,
    }
}

// Those of the messages that a credit takes out of the window.
fn credited_len(core: &FreeCore, upto: u64) -> u64
    requires above { core.now.known.credit < upto }
    requires sent { upto ≤ core.now.known.sent }
    ensures { result ≡ bytes.less core.now.known (Acked upto) }
{
    let count = (upto - core.credit()) as usize;
    messages_len(&core.window()[..count])
}

// Those of a floor, where the group had none.
fn new_floor_len(core: &FreeCore, group: &GroupName, floor: Term) -> u32
    ensures value { result ≡ bytes.more core.now.me core.now.known (Retire group.now floor) }
    ensures range { result ≤ 64 }
{
    if core.has_floor(group) {
        return 0;
    }
    floor_len(&Key {
        group: *group,
        term: floor,
    })
}
