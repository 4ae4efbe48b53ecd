// What a row has that no client sends: marks, the lines that begin with `! `.
use line_words::{read_bid, read_group, read_number, read_term};
use ring_records::{Candidate, Key, Msg, NodeNo, Refusal};

/// What a mark does.
#[derive(Clone, Copy)]
pub enum Mark<'a> {
    /// So often the client sends the bytes that the text writes, and no line feed behind them.
    Sends(u64, &'a [u8]),
    /// The row's node is node 1 of a new ring of so many.
    Ring(u8),
    /// The node's device holds the bytes that the text writes.
    Image(&'a [u8]),
    /// The node takes the message of this number.
    Takes(u64, Msg),
    /// The node's device fails in the next session.
    Fails,
    /// The node told so much as it was let go.
    Counts,
}

/// What stands before the first space of a text, and what stands behind it.
fn first_word(text: &[u8]) -> (&[u8], &[u8]) {
    match text.iter().position(|byte| *byte == b' ') {
        Some(at) => (&text[..at], &text[at + 1..]),
        None => (text, &[]),
    }
}

fn read_node(word: &[u8]) -> Result<NodeNo, Refusal> {
    NodeNo::new(read_number(word, 1, 16)? as u8)
}

/// The key and the candidate of `G T B I`.
fn read_candidate(text: &[u8]) -> Result<(Key, Candidate), Refusal> {
    let (group, text) = first_word(text);
    let (term, text) = first_word(text);
    let (bid, node) = first_word(text);
    let group = read_group(group)?;
    let term = read_term(term)?;
    let bid = read_bid(bid)?;
    let node = read_node(node)?;
    Ok((Key { group, term }, Candidate { bid, node }))
}

/// That message NO of the predecessor comes, by `NO token G T B I` or `NO elected G T B I`.
fn read_take(text: &[u8]) -> Result<(u64, Msg), Refusal> {
    let (no, text) = first_word(text);
    let (kind, text) = first_word(text);
    let no = read_number(no, 0, 9_999_999_999)?;
    let (key, candidate) = read_candidate(text)?;
    if kind == b"token".as_slice() {
        Ok((no, Msg::Token { key, candidate }))
    } else if kind == b"elected".as_slice() {
        Ok((no, Msg::Elected { key, candidate }))
    } else {
        Err(Refusal::BadLine)
    }
}

/// The mark of what stands behind `! `. Refused as 25 where it is none, and else as 1 or 2 by its first word that is no
/// group or no number in its range.
pub fn read_mark(mark: &[u8]) -> Result<Mark<'_>, Refusal> {
    let (word, text) = first_word(mark);
    if word == b"sends".as_slice() {
        Ok(Mark::Sends(1, text))
    } else if word == b"repeats".as_slice() {
        let (times, text) = first_word(text);
        Ok(Mark::Sends(read_number(times, 1, 1_000_000)?, text))
    } else if word == b"ring".as_slice() {
        Ok(Mark::Ring(read_number(text, 2, 16)? as u8))
    } else if word == b"image".as_slice() {
        Ok(Mark::Image(text))
    } else if word == b"takes".as_slice() {
        match read_take(text) {
            Ok((no, msg)) => Ok(Mark::Takes(no, msg)),
            Err(refusal) => Err(refusal),
        }
    } else if mark == b"fails".as_slice() {
        Ok(Mark::Fails)
    } else if mark == b"counts".as_slice() {
        Ok(Mark::Counts)
    } else {
        Err(Refusal::BadLine)
    }
}
