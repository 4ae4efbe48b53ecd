// The bounds by which batches and checkpoints are counted.
ghost use Rattle.std.specs.Prelude.{◌≡◌};
ghost use Rattle.ring_status.specs.Bounds.{bounds, micros_of, seconds_text};

/// A bound by which batches and checkpoints are counted.
#[derive(Clone, Copy, PartialEq, Eq)]
pub enum Bound {
    Micros200,
    Millis1,
    Millis5,
    Millis25,
    Millis100,
    Millis500,
    Millis2500,
    Seconds10,
}

/// All of them, as they rise.
const BOUNDS: [Bound; 8] = [
    Bound::Micros200,
    Bound::Millis1,
    Bound::Millis5,
    Bound::Millis25,
    Bound::Millis100,
    Bound::Millis500,
    Bound::Millis2500,
    Bound::Seconds10,
];

impl Bound {
    /// All of them, as they rise.
    #[tactic(auto, unfolding(crate::specs::Bounds::bounds))]
    pub fn all() -> &'static [Bound]
        ensures { result.now ≡ bounds }
    {
        &BOUNDS
    }

    /// It in microseconds.
    pub fn micros(self) -> u64
        ensures { result ≡ micros_of self }
    {
        match self {
            Bound::Micros200 => 200,
            Bound::Millis1 => 1_000,
            Bound::Millis5 => 5_000,
            Bound::Millis25 => 25_000,
            Bound::Millis100 => 100_000,
            Bound::Millis500 => 500_000,
            Bound::Millis2500 => 2_500_000,
            Bound::Seconds10 => 10_000_000,
        }
    }

    /// It in seconds, as a decimal number.
    pub fn seconds(self) -> &'static str
        ensures { result.now ≡ seconds_text self }
    {
        match self {
            Bound::Micros200 => "0.0002",
            Bound::Millis1 => "0.001",
            Bound::Millis5 => "0.005",
            Bound::Millis25 => "0.025",
            Bound::Millis100 => "0.1",
            Bound::Millis500 => "0.5",
            Bound::Millis2500 => "2.5",
            Bound::Seconds10 => "10",
        }
    }
}
