// Bytes that a row writes in printed letters.
use std::alloc::AllocError;

/// What a hexadecimal digit is worth.
fn digit(letter: u8) -> Option<u8> {
    match letter {
        b'0'..=b'9' => Some(letter - b'0'),
        b'a'..=b'f' => Some(letter - b'a' + 10),
        _ => None,
    }
}

/// The byte of two such digits.
fn byte_of(high: u8, low: u8) -> Option<u8> {
    match (digit(high), digit(low)) {
        (Some(high), Some(low)) => Some(high.wrapping_mul(16).wrapping_add(low)),
        _ => None,
    }
}

/// What stands behind a backslash: the byte, and what follows it.
fn escaped(text: &[u8]) -> Option<(u8, &[u8])> {
    match text {
        [b'n', rest @ ..] => Some((b'\n', rest)),
        [b'r', rest @ ..] => Some((b'\r', rest)),
        [b'\\', rest @ ..] => Some((b'\\', rest)),
        [b'x', high, low, rest @ ..] => Some((byte_of(*high, *low)?, rest)),
        _ => None,
    }
}

/// The first byte that the text writes, and what follows it; none where it ends, or a backslash has no meaning.
fn next_byte(text: &[u8]) -> Option<(u8, &[u8])> {
    match text {
        [b'\\', rest @ ..] => escaped(rest),
        [byte, rest @ ..] => Some((*byte, rest)),
        [] => None,
    }
}

/// Adds the bytes that the text writes: `\n`, `\r`, `\\` and `\xHH` are one each. Whether it writes any.
pub fn add_bytes(bytes: &mut Vec<u8>, text: &[u8]) -> Result<bool, AllocError> {
    let mut rest = text;
    for _ in 0..text.len() {
        match next_byte(rest) {
            Some((byte, after)) => {
                bytes.push(byte)?;
                rest = after;
            }
            None => break,
        }
    }
    Ok(rest.is_empty())
}
