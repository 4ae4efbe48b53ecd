// What a line says of what its session stood for.
ghost use Rattle.std.specs.Prelude.{◌≡◌, ◌==◌, not, option_map, position};
ghost use Rattle.std.specs.Char.{is_control};
ghost use Rattle.std.specs.List.{list_all};
ghost use Rattle.std.specs.Str.{chars};
ghost use Rattle.door_rules.specs.Marks.{is_printable, is_text, mark_in, resigned, resigned_in, told, told_in};

use line_words::{behind, read_group, read_term};
use ring_records::{GroupName, Key};
use std::str;

/// The most bytes of a text.
pub const TEXT_BYTES: usize = 200;

/// The most bytes of a line that says something of this kind, a carriage return among them.
pub const MARK_BYTES: usize = 223;

/// What a line says of what its session stood for.
#[derive(Clone, Copy, PartialEq, Eq)]
pub enum Mark {
    /// Its client tells a text for the group: the last so many bytes of the line.
    Tell(GroupName, usize),
    /// Its client resigns for the key.
    Resign(Key),
}

// The place of the first space.
fn space(text: &[u8]) -> Option<usize>
    ensures { result ≡ position (λ b. b == 32) text.now }
{
    text.iter().position(|b| *b == b' ')
}

fn has_no_control(text: &str) -> bool
    ensures { result ≡ list_all (λ c. not (is_control c)) (chars text.now) }
{
    text.chars().all(|c| !c.is_control())
}

#[tactic(auto, using(crate::proofs::Texts::is_utf8_of, crate::proofs::Texts::not_utf8_of))]
// Whether it is UTF-8, with no control character.
fn is_printable(text: &[u8]) -> bool
    ensures { result ≡ is_printable text.now }
{
    match str::from_utf8(text) {
        Ok(text) => has_no_control(text),
        Err(_) => false,
    }
}

fn is_text(text: &[u8]) -> bool
    ensures { result ≡ is_text text.now }
{
    1 <= text.len() && text.len() <= TEXT_BYTES && is_printable(text)
}

// What is told of the group of this name by the text.
fn told(name: &[u8], text: &[u8]) -> Option<Mark>
    ensures { result ≡ told name.now text.now }
{
    if is_text(text) {
        Some(Mark::Tell(read_group(name).ok()?, text.len()))
    } else {
        None
    }
}

// `G TEXT`
fn told_in(rest: &[u8]) -> Option<Mark>
    ensures { result ≡ told_in rest.now }
{
    match space(rest) {
        Some(at) => told(&rest[..at], &rest[at + 1..]),
        None => None,
    }
}

fn resigned(name: &[u8], number: &[u8]) -> Option<Mark>
    ensures { result ≡ resigned name.now number.now }
{
    let group = read_group(name).ok()?;
    let term = read_term(number).ok()?;
    Some(Mark::Resign(Key { group, term }))
}

// `G T`
fn resigned_in(rest: &[u8]) -> Option<Mark>
    ensures { result ≡ resigned_in rest.now }
{
    match space(rest) {
        Some(at) => resigned(&rest[..at], &rest[at + 1..]),
        None => None,
    }
}

/// What a line says, which is given without its end: `tell G TEXT`, whose text is 1 to 200 bytes of UTF-8 with no control
/// character, or `resign G T`, with one space behind each word; `None` where it is neither.
pub fn read_mark(line: &[u8]) -> Option<Mark>
    ensures { result ≡ mark_in line.now }
{
    match behind(line, b"tell ") {
        Some(rest) => told_in(rest),
        None => resigned_in(behind(line, b"resign ")?),
    }
}
