// What keeps a session from being idle.
ghost use Rattle.std.specs.Prelude.{◌≡◌};
ghost use Rattle.door_rules.specs.Doors.{asks_nothing, keeps};

fn asks_nothing(number: u8) -> bool
    ensures { result ≡ asks_nothing number }
{
    number == 1 || number == 2 || number == 25
}

/// Whether a line keeps its session from being idle that was answered with the refusal of this number, if with one: not
/// where the line itself is refused, which asks nothing.
pub fn keeps(refusal: Option<u8>) -> bool
    ensures { result ≡ keeps refusal }
{
    match refusal {
        Some(number) => !asks_nothing(number),
        None => true,
    }
}
