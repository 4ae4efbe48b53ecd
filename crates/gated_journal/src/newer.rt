//! What tells a journal that a later program wrote.
ghost use Rattle.std.specs.Prelude.{◌⊎◌, ℕ, Decides, IfNone, IfSome};
ghost use Rattle.gated_journal.specs.Newer.{IsRead, IsNewer};

use crate::layout::{LAYOUT, is_layout};

/// The first two bytes of an area.
#[derive(Clone, Copy, PartialEq, Eq)]
pub struct AreaStart {
    pub gate: u8,
    pub layout: u8,
}

impl AreaStart {
    /// Of these bytes.
    pub fn new(bytes: [u8; 2]) -> AreaStart {
        let [gate, layout] = bytes;
        AreaStart { gate, layout }
    }

    /// Whether the area counts here.
    fn is_read(self) -> bool
        ensures { Decides result (IsRead self) }
    {
        self.gate == 1 && is_layout(self.layout)
    }

    /// Its layout, where it is open and of one above all that are read here.
    fn newer(self) -> Option<u8>
        ensures some { IfSome result (λ layout. IsNewer self layout) }
        ensures none { IfNone result ((layout : ℕ) → IsNewer self layout → ⊥) }
    {
        if self.gate == 1 && self.layout > LAYOUT {
            Some(self.layout)
        } else {
            None
        }
    }
}

/// The layout of a journal that a later program wrote, by the first bytes of its two areas: none of them counts here, and
/// one that is open is of a layout above all that are read here. Nothing else of an area tells that its layout is what was
/// written.
pub fn newer_layout(a: AreaStart, b: AreaStart) -> Option<u8>
    ensures newer { IfSome result (λ layout. IsNewer a layout ⊎ IsNewer b layout) }
    ensures unread { IfSome result (λ _. (IsRead a → ⊥) × (IsRead b → ⊥)) }
    ensures none { IfNone result ((layout : ℕ) → (IsNewer a layout ⊎ IsNewer b layout) → (IsRead a ⊎ IsRead b)) }
{
    if a.is_read() || b.is_read() {
        return None;
    }
    match a.newer() {
        Some(layout) => Some(layout),
        None => b.newer(),
    }
}
