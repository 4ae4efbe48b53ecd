// Lines to commands.
ghost use Rattle.std.specs.Prelude.{◌≡◌, ◌==◌, ◌≤◌, ◌∷◌, [], map, true, IfOk};
ghost use Rattle.std.specs.List.{list_all};
ghost use Rattle.ring_world.specs.Worlds.{is_ring};
ghost use Rattle.line_words.specs.Forms.{form_says, line_says, number_word};
ghost use Rattle.fault_console.specs.Commands.{commands, shapes, is_silent};

use disk_model::Tear;
use line_words::{read_bid, read_group, read_number, read_term, read_words};
use ring_records::{GREATEST_CAPACITY, Key, LEAST_CAPACITY, NodeNo, Refusal, Request};
use ring_world::Event;
use std::alloc::{AllocError, Global};

/// The capacity of each node of a ring where none is named, in bytes.
const CAPACITY: u32 = 65_536;

/// How a ring is to be.
#[derive(Clone, Copy)]
pub struct RingShape {
    /// How many nodes, 2 to 16.
    pub nodes: u8,
    /// Whether each input is made durable as it is accepted.
    pub eager: bool,
    /// The capacity of each node, 4,096 to 1,048,576 bytes.
    pub capacity: u32,
}

/// What a line asks of a ring.
#[derive(Clone, Copy)]
pub enum ConsoleCommand {
    /// That this happens.
    Event(Event),
    /// To show a node.
    Show(NodeNo),
    /// To audit the histories of its nodes.
    Audit,
}

fn read_node(nodes: u8, word: &[u8]) -> Result<NodeNo, Refusal>
    requires { nodes ≤ 16 }
    ensures { result ≡ number_word 1 nodes word.now }
{
    NodeNo::new(read_number(word, 1, nodes as u64)? as u8)
}

fn read_count(word: &[u8]) -> Result<u64, Refusal>
    ensures { result ≡ number_word 0 9999999999 word.now }
{
    read_number(word, 0, 9_999_999_999)
}

fn read_nodes(word: &[u8]) -> Result<u8, Refusal>
    ensures value { result ≡ number_word 2 16 word.now }
    ensures range { IfOk result (λ n. (2 ≤ n) × (n ≤ 16)) }
{
    Ok(read_number(word, 2, 16)? as u8)
}

#[tactic(auto, unfolding(line_words::specs::Forms::form_says, crate::specs::Commands::shapes))]
fn ring_of_two(verb: &[u8], n: &[u8]) -> Result<RingShape, Refusal>
    ensures value { result ≡ form_says shapes (verb.now ∷ n.now ∷ []) }
    ensures range { IfOk result (λ shape. is_ring shape.nodes shape.capacity ≡ true) }
{
    if verb != b"ring".as_slice() {
        return Err(Refusal::BadLine);
    }
    let nodes = read_nodes(n)?;
    Ok(RingShape {
        nodes,
        eager: true,
        capacity: CAPACITY,
    })
}

#[tactic(auto, unfolding(line_words::specs::Forms::form_says, crate::specs::Commands::shapes))]
fn ring_of_three(verb: &[u8], n: &[u8], mode: &[u8]) -> Result<RingShape, Refusal>
    ensures value { result ≡ form_says shapes (verb.now ∷ n.now ∷ mode.now ∷ []) }
    ensures range { IfOk result (λ shape. is_ring shape.nodes shape.capacity ≡ true) }
{
    let eager = mode == b"eager".as_slice();
    if verb != b"ring".as_slice() || !(eager || mode == b"lazy".as_slice()) {
        return Err(Refusal::BadLine);
    }
    let nodes = read_nodes(n)?;
    Ok(RingShape {
        nodes,
        eager,
        capacity: CAPACITY,
    })
}

#[tactic(auto, unfolding(line_words::specs::Forms::form_says, crate::specs::Commands::shapes))]
fn ring_of_four(verb: &[u8], n: &[u8], mode: &[u8], capacity: &[u8]) -> Result<RingShape, Refusal>
    ensures value { result ≡ form_says shapes (verb.now ∷ n.now ∷ mode.now ∷ capacity.now ∷ []) }
    ensures range { IfOk result (λ shape. is_ring shape.nodes shape.capacity ≡ true) }
{
    let eager = mode == b"eager".as_slice();
    if verb != b"ring".as_slice() || !(eager || mode == b"lazy".as_slice()) {
        return Err(Refusal::BadLine);
    }
    let nodes = read_nodes(n)?;
    let capacity = read_number(capacity, LEAST_CAPACITY as u64, GREATEST_CAPACITY as u64)? as u32;
    Ok(RingShape {
        nodes,
        eager,
        capacity,
    })
}

fn shape_of(words: &[&[u8]]) -> Result<RingShape, Refusal>
    ensures value { result ≡ form_says shapes (map (λ x. x.now) words.now) }
    ensures range { IfOk result (λ shape. is_ring shape.nodes shape.capacity ≡ true) }
{
    match words {
        [verb, n] => ring_of_two(verb, n),
        [verb, n, mode] => ring_of_three(verb, n, mode),
        [verb, n, mode, capacity] => ring_of_four(verb, n, mode, capacity),
        _ => Err(Refusal::BadLine),
    }
}

fn read_call(word: &[u8]) -> Result<u64, Refusal>
    ensures { result ≡ number_word 1 4 word.now }
{
    read_number(word, 1, 4)
}

fn read_checkpoint_call(word: &[u8]) -> Result<u64, Refusal>
    ensures { result ≡ number_word 1 6 word.now }
{
    read_number(word, 1, 6)
}

// The command of one word.
#[tactic(auto, unfolding(line_words::specs::Forms::form_says, crate::specs::Commands::commands))]
fn of_one(nodes: u8, verb: &[u8]) -> Result<ConsoleCommand, Refusal>
    requires { nodes ≤ 16 }
    ensures { result ≡ form_says (commands nodes) (verb.now ∷ []) }
{
    if verb == b"audit".as_slice() {
        Ok(ConsoleCommand::Audit)
    } else {
        Err(Refusal::BadLine)
    }
}

// Those of two.
#[tactic(auto, unfolding(line_words::specs::Forms::form_says, crate::specs::Commands::commands))]
fn of_two(nodes: u8, verb: &[u8], i: &[u8]) -> Result<ConsoleCommand, Refusal>
    requires { nodes ≤ 16 }
    ensures { result ≡ form_says (commands nodes) (verb.now ∷ i.now ∷ []) }
{
    if verb == b"deliver".as_slice() && i == b"all".as_slice() {
        Ok(ConsoleCommand::Event(Event::DeliverAll))
    } else if verb == b"flush".as_slice() {
        Ok(ConsoleCommand::Event(Event::Flush(read_node(nodes, i)?)))
    } else if verb == b"checkpoint".as_slice() {
        Ok(ConsoleCommand::Event(Event::Checkpoint(read_node(nodes, i)?)))
    } else if verb == b"crash".as_slice() {
        Ok(ConsoleCommand::Event(Event::Crash(read_node(nodes, i)?)))
    } else if verb == b"show".as_slice() {
        Ok(ConsoleCommand::Show(read_node(nodes, i)?))
    } else {
        Err(Refusal::BadLine)
    }
}

// Those of three.
#[tactic(auto, unfolding(line_words::specs::Forms::form_says, crate::specs::Commands::commands))]
fn of_three(nodes: u8, verb: &[u8], i: &[u8], x: &[u8]) -> Result<ConsoleCommand, Refusal>
    requires { nodes ≤ 16 }
    ensures { result ≡ form_says (commands nodes) (verb.now ∷ i.now ∷ x.now ∷ []) }
{
    if verb == b"latest".as_slice() {
        let node = read_node(nodes, i)?;
        let group = read_group(x)?;
        Ok(ConsoleCommand::Event(Event::Submit(node, Request::Latest(group))))
    } else if verb == b"deliver".as_slice() {
        let from = read_node(nodes, i)?;
        let no = read_count(x)?;
        Ok(ConsoleCommand::Event(Event::Deliver { from, no }))
    } else if verb == b"credit".as_slice() {
        let from = read_node(nodes, i)?;
        let upto = read_count(x)?;
        Ok(ConsoleCommand::Event(Event::Credit { from, upto }))
    } else {
        Err(Refusal::BadLine)
    }
}

// Those of four.
#[tactic(auto, unfolding(line_words::specs::Forms::form_says, crate::specs::Commands::commands))]
fn of_four(nodes: u8, verb: &[u8], i: &[u8], x: &[u8], y: &[u8]) -> Result<ConsoleCommand, Refusal>
    requires { nodes ≤ 16 }
    ensures { result ≡ form_says (commands nodes) (verb.now ∷ i.now ∷ x.now ∷ y.now ∷ []) }
{
    if verb == b"retire".as_slice() {
        let node = read_node(nodes, i)?;
        let group = read_group(x)?;
        let floor = read_term(y)?;
        Ok(ConsoleCommand::Event(Event::Submit(node, Request::Retire(group, floor))))
    } else if verb == b"who".as_slice() {
        let node = read_node(nodes, i)?;
        let group = read_group(x)?;
        let term = read_term(y)?;
        Ok(ConsoleCommand::Event(Event::Submit(node, Request::Who(Key { group, term }))))
    } else if verb == b"stop".as_slice() && y == b"old".as_slice() {
        let node = read_node(nodes, i)?;
        let call = read_call(x)?;
        Ok(ConsoleCommand::Event(Event::Stop {
            node,
            call,
            tear: Tear::Old,
        }))
    } else if verb == b"stop".as_slice() && y == b"new".as_slice() {
        let node = read_node(nodes, i)?;
        let call = read_call(x)?;
        Ok(ConsoleCommand::Event(Event::Stop {
            node,
            call,
            tear: Tear::New,
        }))
    } else {
        Err(Refusal::BadLine)
    }
}

// Those of five.
#[tactic(auto, unfolding(line_words::specs::Forms::form_says, crate::specs::Commands::commands))]
fn of_five(
    nodes: u8,
    verb: &[u8],
    i: &[u8],
    x: &[u8],
    y: &[u8],
    z: &[u8],
) -> Result<ConsoleCommand, Refusal>
    requires { nodes ≤ 16 }
    ensures { result ≡ form_says (commands nodes) (verb.now ∷ i.now ∷ x.now ∷ y.now ∷ z.now ∷ []) }
{
    if verb == b"stand".as_slice() {
        let node = read_node(nodes, i)?;
        let group = read_group(x)?;
        let term = read_term(y)?;
        let bid = read_bid(z)?;
        Ok(ConsoleCommand::Event(Event::Submit(node, Request::Stand(Key { group, term }, bid))))
    } else if verb == b"stop".as_slice() && y == b"fill".as_slice() {
        let node = read_node(nodes, i)?;
        let call = read_call(x)?;
        let tear = Tear::Fill(read_number(z, 0, 255)? as u8);
        Ok(ConsoleCommand::Event(Event::Stop { node, call, tear }))
    } else if verb == b"stop".as_slice()
        && x == b"checkpoint".as_slice()
        && z == b"old".as_slice()
    {
        let node = read_node(nodes, i)?;
        let call = read_checkpoint_call(y)?;
        Ok(ConsoleCommand::Event(Event::StopCheckpoint {
            node,
            call,
            tear: Tear::Old,
        }))
    } else if verb == b"stop".as_slice()
        && x == b"checkpoint".as_slice()
        && z == b"new".as_slice()
    {
        let node = read_node(nodes, i)?;
        let call = read_checkpoint_call(y)?;
        Ok(ConsoleCommand::Event(Event::StopCheckpoint {
            node,
            call,
            tear: Tear::New,
        }))
    } else {
        Err(Refusal::BadLine)
    }
}

// Those of six.
#[tactic(auto, unfolding(line_words::specs::Forms::form_says, crate::specs::Commands::commands))]
fn of_six(
    nodes: u8,
    verb: &[u8],
    i: &[u8],
    what: &[u8],
    call: &[u8],
    tear: &[u8],
    byte: &[u8],
) -> Result<ConsoleCommand, Refusal>
    requires { nodes ≤ 16 }
    ensures { result ≡ form_says (commands nodes) (verb.now ∷ i.now ∷ what.now ∷ call.now ∷ tear.now ∷ byte.now ∷ []) }
{
    let stops = verb == b"stop".as_slice() && what == b"checkpoint".as_slice();
    if !stops || tear != b"fill".as_slice() {
        return Err(Refusal::BadLine);
    }
    let node = read_node(nodes, i)?;
    let call = read_checkpoint_call(call)?;
    let tear = Tear::Fill(read_number(byte, 0, 255)? as u8);
    Ok(ConsoleCommand::Event(Event::StopCheckpoint { node, call, tear }))
}

fn command_of(nodes: u8, words: &[&[u8]]) -> Result<ConsoleCommand, Refusal>
    requires { nodes ≤ 16 }
    ensures { result ≡ form_says (commands nodes) (map (λ x. x.now) words.now) }
{
    match words {
        [verb] => of_one(nodes, verb),
        [verb, i] => of_two(nodes, verb, i),
        [verb, i, x] => of_three(nodes, verb, i, x),
        [verb, i, x, y] => of_four(nodes, verb, i, x, y),
        [verb, i, x, y, z] => of_five(nodes, verb, i, x, y, z),
        [verb, i, what, call, tear, byte] => of_six(nodes, verb, i, what, call, tear, byte),
        _ => Err(Refusal::BadLine),
    }
}

/// How the ring is to be that a line which is not silent makes, where none is made yet. Refused as 25 where the line is
/// no command, and else as 2 where a number is none in its range.
pub fn read_shape(alloc: Global, line: &[u8]) -> Result<Result<RingShape, Refusal>, AllocError>
    ensures value { IfOk result (λ r. r ≡ line_says shapes line.now) }
    ensures range { IfOk result (λ r. IfOk r (λ shape. is_ring shape.nodes shape.capacity ≡ true)) }
{
    match read_words(alloc, line)? {
        Ok(words) => Ok(shape_of(&words)),
        Err(refusal) => Ok(Err(refusal)),
    }
}

/// What a line which is not silent asks for, in a ring of so many nodes. Refused as 25 where the line is no
/// command, and else as 1 or 2 by its first word that is no group or no number in its range.
pub fn read_command(
    alloc: Global,
    nodes: u8,
    line: &[u8],
) -> Result<Result<ConsoleCommand, Refusal>, AllocError>
    requires { nodes ≤ 16 }
    ensures { IfOk result (λ r. r ≡ line_says (commands nodes) line.now) }
{
    match read_words(alloc, line)? {
        Ok(words) => Ok(command_of(nodes, &words)),
        Err(refusal) => Ok(Err(refusal)),
    }
}

fn are_spaces(line: &[u8]) -> bool
    ensures { result ≡ list_all (λ b. b == 32) line.now }
{
    line.iter().all(|b| *b == b' ')
}

/// Whether a line prints nothing: it has no word, or `#` is its first byte.
pub fn line_is_silent(line: &[u8]) -> bool
    ensures { result ≡ is_silent line.now }
{
    (!line.is_empty() && line[0] == b'#') || are_spaces(line)
}
