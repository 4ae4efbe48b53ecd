/// What room is told from, beside the capacity.
#[derive(Clone, Copy, PartialEq, Eq)]
pub struct Room {
    /// The layout of the area in use.
    pub layout: u8,
    /// The number of that area.
    pub epoch: u64,
    /// How many bytes of the capacity are taken.
    pub taken: u64,
    /// Whether an input waits behind what the area stands for, for which only an area of the newest layout has a record.
    pub waits: bool,
}
