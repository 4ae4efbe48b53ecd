// What the words of a line say.
use crate::node::seat::Shape;
use disk_model::Tear;
use line_words::{read_bid, read_group, read_number, read_term};
use ring_records::{Candidate, Key, LEAST_CAPACITY, Msg, NodeNo, Refusal, Request};

/// A count, 0 to 9,999,999,999.
pub fn read_count(word: &[u8]) -> Result<u64, Refusal> {
    read_number(word, 0, 9_999_999_999)
}

/// The number of a node, 1 to 16.
fn read_node(word: &[u8]) -> Result<NodeNo, Refusal> {
    NodeNo::new(read_number(word, 1, 16)? as u8)
}

/// How many nodes a ring is to have, 0 to 255: a node says itself that it stands in none such.
fn read_nodes(word: &[u8]) -> Result<u8, Refusal> {
    Ok(read_number(word, 0, 255)? as u8)
}

/// The key of a group and a term.
pub fn read_key(group: &[u8], term: &[u8]) -> Result<Key, Refusal> {
    let group = read_group(group)?;
    let term = read_term(term)?;
    Ok(Key { group, term })
}

fn read_candidate(bid: &[u8], node: &[u8]) -> Result<Candidate, Refusal> {
    let bid = read_bid(bid)?;
    let node = read_node(node)?;
    Ok(Candidate { bid, node })
}

fn read_message(kind: &[u8], key: Key, candidate: Candidate) -> Result<Msg, Refusal> {
    if kind == b"token".as_slice() {
        Ok(Msg::Token { key, candidate })
    } else if kind == b"elected".as_slice() {
        Ok(Msg::Elected { key, candidate })
    } else {
        Err(Refusal::BadLine)
    }
}

fn read_take(words: &[&[u8]]) -> Result<Request, Refusal> {
    match words {
        [no, kind, group, term, bid, node] => {
            let no = read_count(no)?;
            let key = read_key(group, term)?;
            let candidate = read_candidate(bid, node)?;
            Ok(Request::Take(no, read_message(kind, key, candidate)?))
        }
        _ => Err(Refusal::BadLine),
    }
}

fn ask_of_two(verb: &[u8], word: &[u8]) -> Result<Request, Refusal> {
    if verb == b"acked".as_slice() {
        Ok(Request::Acked(read_count(word)?))
    } else if verb == b"latest".as_slice() {
        Ok(Request::Latest(read_group(word)?))
    } else {
        Err(Refusal::BadLine)
    }
}

fn ask_of_three(verb: &[u8], group: &[u8], term: &[u8]) -> Result<Request, Refusal> {
    if verb == b"who".as_slice() {
        Ok(Request::Who(read_key(group, term)?))
    } else if verb == b"retire".as_slice() {
        let Key { group, term } = read_key(group, term)?;
        Ok(Request::Retire(group, term))
    } else {
        Err(Refusal::BadLine)
    }
}

fn read_stand(verb: &[u8], group: &[u8], term: &[u8], bid: &[u8]) -> Result<Request, Refusal> {
    if verb == b"stand".as_slice() {
        let key = read_key(group, term)?;
        Ok(Request::Stand(key, read_bid(bid)?))
    } else {
        Err(Refusal::BadLine)
    }
}

/// What a node is asked by a word and those behind it.
pub fn read_request(verb: &[u8], words: &[&[u8]]) -> Result<Request, Refusal> {
    match words {
        [word] => ask_of_two(verb, word),
        [group, term] => ask_of_three(verb, group, term),
        [group, term, bid] => read_stand(verb, group, term, bid),
        _ if verb == b"take".as_slice() => read_take(words),
        _ => Err(Refusal::BadLine),
    }
}

/// `I of N [CAP]`: the capacity is 4,096 where it is left out, and no more than a number of 10 digits else.
pub fn read_shape(words: &[&[u8]]) -> Result<Shape, Refusal> {
    match words {
        [me, of, n] if *of == b"of".as_slice() => Ok(Shape {
            me: read_node(me)?,
            n: read_nodes(n)?,
            capacity: LEAST_CAPACITY,
        }),
        [me, of, n, capacity] if *of == b"of".as_slice() => Ok(Shape {
            me: read_node(me)?,
            n: read_nodes(n)?,
            capacity: read_number(capacity, 0, u32::MAX as u64)? as u32,
        }),
        _ => Err(Refusal::BadLine),
    }
}

/// `old`, `new` or `fill B`; nothing where the device is left as it is.
pub fn read_tear(words: &[&[u8]]) -> Result<Option<Tear>, Refusal> {
    match words {
        [] => Ok(None),
        [word] if *word == b"old".as_slice() => Ok(Some(Tear::Old)),
        [word] if *word == b"new".as_slice() => Ok(Some(Tear::New)),
        [word, byte] if *word == b"fill".as_slice() => {
            Ok(Some(Tear::Fill(read_number(byte, 0, 255)? as u8)))
        }
        _ => Err(Refusal::BadLine),
    }
}

/// Two numbers from 1 on, of which the second is at least the first and below 10,000 more; the second is the first where it
/// is left out.
pub fn read_range(words: &[&[u8]]) -> Result<(u64, u64), Refusal> {
    match words {
        [first] => {
            let first = read_number(first, 1, 999_999_999)?;
            Ok((first, first))
        }
        [first, last] => {
            let first = read_number(first, 1, 999_999_999)?;
            Ok((first, read_number(last, first, first + 9_999)?))
        }
        _ => Err(Refusal::BadLine),
    }
}
