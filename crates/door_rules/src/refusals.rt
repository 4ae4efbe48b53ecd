// Which refusals are told with the numbers of a node.
ghost use Rattle.std.specs.Prelude.{◌≡◌};
ghost use Rattle.door_rules.specs.Refusals.{is_listed};

/// Whether the refusal of this number is told, which clients were told so often: one from 3 to 9 always, so that a rate shows
/// the first one, and each other once a client was told it.
pub fn is_listed(number: u8, count: u64) -> bool
    ensures { result ≡ is_listed number count }
{
    count > 0 || (3 <= number && number <= 9)
}
