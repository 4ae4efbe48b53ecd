//! What helps to find a fault of settings.
ghost use Rattle.std.specs.Prelude.{◌≡◌, ◌+◌, ◌≤◌, ◌==◌, None, false, IfSome, count_by, length, string_bytes};
ghost use Rattle.toml.specs.Parse.{parse_document};
ghost use Rattle.ring_service.specs.Settings.{is_setting};
ghost use Rattle.ring_service.specs.Words.{IsIn};

use crate::settings::{all_printed, is_setting};
use std::alloc::Global;
use toml::Table;

/// A key of so many bytes is shown at most.
const KEY_BYTES: usize = 64;

/// The line, counted from 1, in which a text stops being TOML. None where it is TOML, or memory is wanting.
pub fn line_of_fault(alloc: Global, text: &str) -> Option<u64>
    ensures no_toml { IfSome result (λ line. parse_document text.now ≡ None) }
    ensures there { IfSome result (λ line. (1 ≤ line) × (line ≤ 1 + count_by (λ byte. byte == 10) text.now)) }
{
    match toml::table_from_str(alloc, text) {
        Ok(_) => None,
        Err(error) => {
            let span = error.span()?;
            Some(line_at(text.as_bytes(), span.start))
        }
    }
}

/// The line of this place.
fn line_at(text: &[u8], place: usize) -> u64
    ensures first { 1 ≤ result }
    ensures last { result ≤ 1 + count_by (λ byte. byte == 10) text.now }
{
    let before = text.iter().take(place);
    1 + before.filter(|byte| **byte == b'\n').count() as u64
}

/// The key, where it prints and has 1 to 64 bytes, and memory is not wanting.
fn shown(alloc: Global, key: &str) -> Option<String>
    ensures key { IfSome result (λ shown. string_bytes shown ≡ key.now) }
    ensures size { IfSome result (λ shown. IsIn 1 KEY_BYTES (length (string_bytes shown))) }
{
    if 1 <= key.len() && key.len() <= KEY_BYTES && all_printed(key.as_bytes()) {
        String::from_str(alloc, key).ok()
    } else {
        None
    }
}

/// The first key of the table that is no setting, where it can be shown.
fn unknown_in(alloc: Global, table: &Table) -> Option<String>
    ensures unknown { IfSome result (λ key. is_setting (string_bytes key) ≡ false) }
    ensures size { IfSome result (λ key. IsIn 1 KEY_BYTES (length (string_bytes key))) }
{
    let key = table.keys().find(|key| !is_setting(key.as_str()))?;
    shown(alloc, key.as_str())
}

/// The first key of a TOML text, in order of bytes, that is no setting, where it prints and has 1 to 64 bytes.
pub fn unknown_key(alloc: Global, text: &str) -> Option<String>
    ensures unknown { IfSome result (λ key. is_setting (string_bytes key) ≡ false) }
    ensures size { IfSome result (λ key. IsIn 1 KEY_BYTES (length (string_bytes key))) }
{
    let table = toml::table_from_str(alloc, text).ok()?;
    unknown_in(alloc, &table)
}
