// How much is kept of what sessions stood for.

/// Of how many terms a session is known to have stood for them, and of how many it is known that who stood resigned: as many as
/// a node may have Stands.
pub const TERMS: usize = 1_024;
