// How much there may be: of what becomes durable together, of a journal, and of a node.

/// The most inputs of a batch.
pub const BATCH_INPUTS: usize = 64;

/// The most bytes of the capacity that an input takes.
pub const INPUT_BYTES: u64 = 42;

/// The least capacity of a journal, in bytes.
pub const LEAST_CAPACITY: u32 = 4_096;

/// The greatest capacity of a journal, in bytes.
pub const GREATEST_CAPACITY: u32 = 1_048_576;

/// The layout of the areas that a journal writes.
pub const LAYOUT: u8 = 3;

/// The least layout of an area that a journal reads.
pub const OLDEST_AREA: u8 = 2;

/// The areas of a journal are numbered below this.
pub const EPOCHS: u64 = 1 << 40;

/// The most Stands of a node.
pub const STANDS: u32 = 1_024;

/// The most sessions that a node serves side by side.
pub const DOORS: u32 = 32;

/// The greatest number of a refusal.
pub const REFUSALS: u8 = 28;
