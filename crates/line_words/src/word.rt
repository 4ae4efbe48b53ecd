// The words of a line, and what each of them says.
ghost use Rattle.std.specs.Prelude.{◌≡◌, ◌≤◌, map, option_map, IfOk, IfErr, true};
ghost use Rattle.std.specs.Char.{is_ascii_digit};
ghost use Rattle.std.specs.List.{list_all};
ghost use Rattle.std.specs.Str.Parse.{digits_value};
ghost use Rattle.line_words.specs.Forms.{bid_word, name_word, number_word, term_word, words_in};
ghost use Rattle.line_words.specs.Words.{behind, is_number, words_of};

use ring_records::{Bid, GroupName, Refusal, Term};
use std::alloc::{AllocError, Global};

/// The most bytes of a line, without its end.
const LINE_BYTES: usize = 200;

fn split_words(alloc: Global, line: &[u8]) -> Result<Vec<&[u8]>, AllocError>
    ensures { IfOk result (λ v. map (λ x. x.now) v.items ≡ words_of line.now) }
{
    line.split(|b| *b == b' ')
        .filter(|word| !word.is_empty())
        .collect(alloc)
}

/// The words of a line, which is given without its end. Refused as 25 where it has more than 200 bytes.
#[tactic(auto, unfolding(crate::specs::Forms::words_in))]
pub fn read_words(alloc: Global, line: &[u8]) -> Result<Result<Vec<&[u8]>, Refusal>, AllocError>
    ensures words { IfOk result (λ r. IfOk r (λ v. words_in line.now ≡ Ok (map (λ x. x.now) v.items))) }
    ensures refused { IfOk result (λ r. IfErr r (λ e. words_in line.now ≡ Err e)) }
{
    if line.len() > LINE_BYTES {
        return Ok(Err(Refusal::BadLine));
    }
    Ok(Ok(split_words(alloc, line)?))
}

/// What stands behind these bytes, where the text begins with them.
#[tactic(auto, unfolding(crate::specs::Words::behind))]
pub fn behind<'a>(text: &'a [u8], front: &[u8]) -> Option<&'a [u8]>
    ensures { option_map (λ rest. rest.now) result ≡ behind front.now text.now }
{
    if text.starts_with(front) {
        Some(&text[front.len()..])
    } else {
        None
    }
}

fn are_digits(word: &[u8]) -> bool
    ensures { result ≡ list_all is_ascii_digit word.now }
{
    word.iter().all(|b| b.is_ascii_digit())
}

fn is_number(word: &[u8]) -> bool
    ensures { result ≡ is_number word.now }
{
    !word.is_empty() && word.len() < 11 && are_digits(word)
}

// What the digits of a word are worth.
fn value_of(word: &[u8]) -> u64
    requires { is_number word.now ≡ true }
    ensures { result ≡ digits_value 10 word.now }
{
    let mut n: u64 = 0;
    for b in word {
        n = n * 10 + (*b - b'0') as u64;
    }
    n
}

/// The number that a word writes in 1 to 10 digits. Refused as 2 where it is none from `low` to `high`.
#[tactic(auto, unfolding(crate::specs::Forms::number_word))]
pub fn read_number(word: &[u8], low: u64, high: u64) -> Result<u64, Refusal>
    ensures value { result ≡ number_word low high word.now }
    ensures range { IfOk result (λ n. (low ≤ n) × (n ≤ high)) }
{
    if !is_number(word) {
        return Err(Refusal::BadNumber);
    }
    let n = value_of(word);
    if low <= n && n <= high {
        Ok(n)
    } else {
        Err(Refusal::BadNumber)
    }
}

/// The group that a word names. Refused as 1 where it is no name.
pub fn read_group(word: &[u8]) -> Result<GroupName, Refusal>
    ensures { result ≡ name_word word.now }
{
    GroupName::read(word)
}

/// The term that a word writes. Refused as 2 where it is no number from 1 to 999,999,999.
pub fn read_term(word: &[u8]) -> Result<Term, Refusal>
    ensures { result ≡ term_word word.now }
{
    Term::new(read_number(word, 1, 999_999_999)? as u32)
}

/// The bid that a word writes. Refused as 2 where it is no number from 0 to 999,999,999.
pub fn read_bid(word: &[u8]) -> Result<Bid, Refusal>
    ensures { result ≡ bid_word word.now }
{
    Bid::new(read_number(word, 0, 999_999_999)? as u32)
}
