// A line to a command, or to its first fault.
ghost use Rattle.std.specs.Prelude.{ℕ, ◌≡◌, ◌∷◌, [], map, false, IfOk};
ghost use Rattle.line_words.specs.Forms.{form_says, line_says};
ghost use Rattle.ring_records.specs.Outside.{is_outside};
ghost use Rattle.sessions.specs.Commands.{commands, request_of};

use line_words::{read_bid, read_group, read_term, read_words};
use ring_records::{Bid, GroupName, Key, Refusal, Request, Term};
use std::alloc::{AllocError, Global};

/// What a client asks.
#[derive(Clone, Copy)]
pub enum Question {
    /// To stand for a key with a bid.
    Stand(Key, Bid),
    /// To retire the terms of a group below this floor.
    Retire(GroupName, Term),
    /// Who leads for a key.
    Who(Key),
    /// The greatest term of a group with a known leader, and that leader.
    Latest(GroupName),
}

impl Question {
    /// The request that it is. It brings nothing from a neighbour.
    pub fn request(self) -> Request
        ensures is { result ≡ request_of self }
        ensures inside { (n : ℕ) → is_outside n result ≡ false }
    {
        match self {
            Question::Stand(key, bid) => Request::Stand(key, bid),
            Question::Retire(group, floor) => Request::Retire(group, floor),
            Question::Who(key) => Request::Who(key),
            Question::Latest(group) => Request::Latest(group),
        }
    }
}

/// What a line says.
#[derive(Clone, Copy)]
pub enum Command {
    /// To ask the service.
    Ask(Question),
    /// To end the session.
    Bye,
}

// The command of one word.
#[tactic(auto, unfolding(line_words::specs::Forms::form_says, crate::specs::Commands::commands))]
fn of_one(verb: &[u8]) -> Result<Command, Refusal>
    ensures { result ≡ form_says commands (verb.now ∷ []) }
{
    if verb != b"bye".as_slice() {
        return Err(Refusal::BadLine);
    }
    Ok(Command::Bye)
}

// That of two.
#[tactic(auto, unfolding(line_words::specs::Forms::form_says, crate::specs::Commands::commands))]
fn of_two(verb: &[u8], g: &[u8]) -> Result<Command, Refusal>
    ensures { result ≡ form_says commands (verb.now ∷ g.now ∷ []) }
{
    if verb != b"latest".as_slice() {
        return Err(Refusal::BadLine);
    }
    let group = read_group(g)?;
    Ok(Command::Ask(Question::Latest(group)))
}

// Those of three.
#[tactic(auto, unfolding(line_words::specs::Forms::form_says, crate::specs::Commands::commands))]
fn of_three(verb: &[u8], g: &[u8], t: &[u8]) -> Result<Command, Refusal>
    ensures { result ≡ form_says commands (verb.now ∷ g.now ∷ t.now ∷ []) }
{
    if verb == b"retire".as_slice() {
        let group = read_group(g)?;
        let floor = read_term(t)?;
        Ok(Command::Ask(Question::Retire(group, floor)))
    } else if verb == b"who".as_slice() {
        let group = read_group(g)?;
        let term = read_term(t)?;
        Ok(Command::Ask(Question::Who(Key { group, term })))
    } else {
        Err(Refusal::BadLine)
    }
}

// That of four.
#[tactic(auto, unfolding(line_words::specs::Forms::form_says, crate::specs::Commands::commands))]
fn of_four(verb: &[u8], g: &[u8], t: &[u8], b: &[u8]) -> Result<Command, Refusal>
    ensures { result ≡ form_says commands (verb.now ∷ g.now ∷ t.now ∷ b.now ∷ []) }
{
    if verb != b"stand".as_slice() {
        return Err(Refusal::BadLine);
    }
    let group = read_group(g)?;
    let term = read_term(t)?;
    let bid = read_bid(b)?;
    Ok(Command::Ask(Question::Stand(Key { group, term }, bid)))
}

fn command_of(words: &[&[u8]]) -> Result<Command, Refusal>
    ensures { result ≡ form_says commands (map (λ x. x.now) words.now) }
{
    match words {
        [verb] => of_one(verb),
        [verb, g] => of_two(verb, g),
        [verb, g, t] => of_three(verb, g, t),
        [verb, g, t, b] => of_four(verb, g, t, b),
        _ => Err(Refusal::BadLine),
    }
}

/// What a line says, which is given without its end. Refused as 25 where it is no command, and else as 1 or 2 by its
/// first word that is no group or no number in its range.
pub fn read_command(alloc: Global, line: &[u8]) -> Result<Result<Command, Refusal>, AllocError>
    ensures { IfOk result (λ r. r ≡ line_says commands line.now) }
{
    match read_words(alloc, line)? {
        Ok(words) => Ok(command_of(&words)),
        Err(refusal) => Ok(Err(refusal)),
    }
}
