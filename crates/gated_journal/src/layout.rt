//! Where a journal lies on its device.
ghost use Rattle.std.specs.Prelude.{◌≡◌, Decides};
ghost use Rattle.ring_records.specs.Member.{member};
ghost use Rattle.gated_journal.specs.Areas.{IsLayout, area_b};
ghost use Rattle.gated_journal.specs.Frames.{Suits, AreSuited};
ghost use Rattle.gated_journal.specs.Reading.{device_size, is_header};

use ring_records::{GREATEST_CAPACITY, Input, LEAST_CAPACITY, NodeNo, OLDEST_AREA};

/// The layout of the areas that are written.
pub(crate) use ring_records::LAYOUT;

/// The offset of area A: it stands behind the header.
pub(crate) const AREA_A: u64 = 16;

/// Whether areas of this layout are read.
pub(crate) fn is_layout(layout: u8) -> bool
    ensures { Decides result (IsLayout layout) }
{
    OLDEST_AREA <= layout && layout <= LAYOUT
}

/// Whether an area of this layout may hold the input: a Retire where the area's snapshot tells floors.
pub(crate) fn suits(input: &Input, layout: u8) -> bool
    ensures { Decides result (Suits layout input.now) }
{
    match input {
        Input::Retire { .. } => layout > 2,
        Input::Stand { .. } | Input::Take { .. } | Input::Acked { .. } => true,
    }
}

/// Whether it may hold each of these.
pub(crate) fn are_suited(inputs: &[Input], layout: u8) -> bool
    ensures { Decides result (AreSuited layout inputs.now) }
{
    inputs.iter().all(|input| suits(input, layout))
}

/// The offset of area B: it stands where area A ends at the latest.
pub(crate) fn area_b(capacity: u32) -> u64
    ensures { result ≡ area_b capacity }
{
    31 + u64::from(capacity)
}

/// Whether a journal may have this header: of a ring of 2 to 16 nodes, a node of it, and a capacity of 4,096 to
/// 1,048,576 bytes.
pub fn is_header(node: NodeNo, n: u8, capacity: u32) -> bool
    ensures { result ≡ is_header (member node n capacity) }
{
    2 <= n
        && n <= 16
        && node.number() <= n
        && LEAST_CAPACITY <= capacity
        && capacity <= GREATEST_CAPACITY
}

/// How many bytes of a device a journal of this capacity may come to use: its header and two areas. Each of these has 14
/// bytes of its own before the capacity, and a gate behind it.
pub fn device_size(capacity: u32) -> u64
    ensures { result ≡ device_size capacity }
{
    area_b(capacity) + 15 + u64::from(capacity)
}
