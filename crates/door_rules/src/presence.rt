// What is known of who stood for a key.
ghost use Rattle.std.specs.Prelude.{◌≡◌, ◌==◌, ◌&&◌, [], not, filter, length, string_bytes, string_len};
ghost use Rattle.door_rules.specs.Stands.{last_text};

use std::alloc::Global;

/// What is known of who stood for a key: whether a session is open that did, or its client resigned, and what it tells.
#[derive(Drop)]
pub struct Presence {
    pub present: bool,
    pub resigned: bool,
    pub text: String,
}

// The texts that are not empty.
fn that_tell(texts: Vec<String>) -> Vec<String>
    ensures { result.items ≡ filter (λ text. not (string_len text == 0)) texts.items }
{
    let mut left = texts;
    left.retain(|text| !text.is_empty());
    left
}

#[tactic(auto, using(crate::proofs::Lasts::text_of_last, crate::proofs::Lasts::text_of_none))]
// The last text that is not empty, or an empty one.
fn last_text(alloc: Global, texts: Vec<String>) -> String
    ensures { string_bytes result ≡ last_text texts.items }
{
    let mut telling = that_tell(texts);
    match telling.pop() {
        Some(text) => text,
        None => String::new(alloc),
    }
}

/// What is known of a key, for which sessions with these texts stood, in the order of their doors, and who stood resigned or
/// not. The text is the last one that is not empty.
pub fn presence_of(alloc: Global, texts: Vec<String>, resigned: bool) -> Presence
    ensures present { result.present ≡ (not (length texts.items == 0) && not resigned) }
    ensures resigned { result.resigned ≡ resigned }
    ensures text { string_bytes result.text ≡ last_text texts.items }
{
    Presence {
        present: !texts.is_empty() && !resigned,
        resigned,
        text: last_text(alloc, texts),
    }
}
