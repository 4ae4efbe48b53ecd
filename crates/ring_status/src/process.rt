// What the system says of the process.
ghost use Rattle.std.specs.Prelude.{◌≡◌};
ghost use Rattle.ring_status.specs.Process.{resident_in};

use crate::target::cut_at;
use line_words::read_number;

/// What the system says of the process, as far as it says so.
#[derive(Clone, Copy, PartialEq, Eq)]
pub struct Process {
    /// How many bytes of its memory are resident.
    pub resident_bytes: Option<u64>,
    /// How many descriptors it has open.
    pub open_fds: Option<u64>,
    /// How many it may have open.
    pub max_fds: Option<u64>,
}

#[tactic(auto, unfolding(crate::specs::Process::resident_in))]
/// How many bytes are resident, by what `/proc/self/statm` reads as and the bytes of a page: its second word counts pages.
/// `None` where that is no number of at most 999,999,999.
pub fn resident_bytes(statm: &[u8], page: u32) -> Option<u64>
    ensures { result ≡ resident_in statm.now page }
{
    let (_, rest) = cut_at(statm, b' ');
    let (word, _) = cut_at(rest?, b' ');
    let pages = read_number(word, 0, 999_999_999).ok()?;
    Some(pages * u64::from(page))
}
