// When a waiter is told.
ghost use Rattle.std.specs.Prelude.{◌≡◌};
ghost use Rattle.door_rules.specs.Waiters.{is_next, is_told};

/// Whether who waits for a leader of a term above that one is told, where the latest one is of this term.
pub fn is_next(above: u64, term: u64) -> bool
    ensures { result ≡ is_next above term }
{
    above < term
}

/// Whether who waits for the end of a leader of term `held` is told, where the latest one is of this term, and present or
/// not.
pub fn is_told(held: u64, term: u64, present: bool) -> bool
    ensures { result ≡ is_told held term present }
{
    held < term || (held == term && !present)
}
