//! What tells one ring's folder from another's.
ghost use Rattle.std.specs.Prelude.{◌≡◌, ◌↔◌, ◌++◌, ◌∷◌, [], List, ℕ, length, Ok, IsSome, IfSome, IfNone};
ghost use Rattle.std.specs.List.{AllPass};
ghost use Rattle.hex.specs.Hex.{decode_of, encode_lower, is_hex_digit};

use hex::{FromHex, encode_to_slice};
use std::fmt;

/// A ring's identity: 128 bits. Displayed as 32 hexadecimal digits, of which the letters are small.
#[derive(Clone, Copy, Debug, PartialEq, Eq)]
pub struct Identity {
    bits: [u8; 16],
}

impl Identity {
    /// Of these bits.
    pub fn new(bits: [u8; 16]) -> Identity
        ensures { result.bits ≡ bits }
    {
        Identity { bits }
    }

    /// That of these digits, of which the letters may be small or capital. `None` where they are not 32 digits.
    pub fn read(digits: &str) -> Option<Identity>
        ensures value { IfSome result (λ id. decode_of digits.now ≡ Ok id.bits) }
        ensures found { IsSome result ↔ ((length digits.now ≡ 32) × AllPass is_hex_digit digits.now) }
    {
        match bits_of(digits.as_bytes()) {
            Some(bits) => Some(Identity { bits }),
            None => None,
        }
    }

    /// That of a file which has its digits and a newline. `None` of any other bytes.
    pub fn in_file(bytes: &[u8]) -> Option<Identity>
        ensures value { IfSome result (λ id. (digits : List ℕ) × (bytes.now ≡ digits ++ 10 ∷ []) × (decode_of digits ≡ Ok id.bits)) }
        ensures none { IfNone result ((digits : List ℕ) → bytes.now ≡ digits ++ 10 ∷ [] → length digits ≡ 32 → AllPass is_hex_digit digits → ⊥) }
    {
        let Some((last, digits)) = bytes.split_last() else {
            return None;
        };
        if *last != b'\n' {
            return None;
        }
        match bits_of(digits) {
            Some(bits) => Some(Identity { bits }),
            None => None,
        }
    }

    /// Its digits.
    pub fn digits(&self) -> [u8; 32]
        ensures { result ≡ encode_lower self.now.bits }
    {
        let mut digits = [0; 32];
        let _ = encode_to_slice(self.bits, &mut digits);
        digits
    }
}

/// The bits of 32 hexadecimal digits. `None` where they are none.
fn bits_of(digits: &[u8]) -> Option<[u8; 16]>
    ensures value { IfSome result (λ bits. decode_of digits.now ≡ Ok bits) }
    ensures found { IsSome result ↔ ((length digits.now ≡ 32) × AllPass is_hex_digit digits.now) }
{
    <[u8; 16] as FromHex>::from_hex(digits).ok()
}

impl fmt::Display for Identity {
    fn fmt<W: fmt::Write>(&self, f: &mut fmt::Formatter<W>) -> fmt::Result {
        for digit in self.digits() {
            f.write_char(char::from(digit))?;
        }
        Ok(())
    }
}
