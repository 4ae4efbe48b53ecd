// One line of the script after the other.
ghost use Rattle.std.specs.Prelude.{◌≡◌, ◌∷◌, [], ◌+◌, ◌≤◌, true, false, Ok, Some, None, IfErr, IfOk, OnErr, OnOk, string_bytes};
ghost use Rattle.ring_records.specs.Texts.{refusal_text};
ghost use Rattle.ring_world.specs.State.{opened};
ghost use Rattle.ring_world.specs.Worlds.{is_ring};
ghost use Rattle.ring_world.specs.Step.{refusal_of};
ghost use Rattle.line_words.specs.Forms.{line_says};
ghost use Rattle.fault_console.specs.Commands.{commands, is_silent};
ghost use Rattle.fault_console.specs.Progress.{Does, tickets_of};
ghost use Rattle.fault_console.specs.Script.{Happens, LinePrints, Obeys, Opens, Shows, ring_line, shown_at, unshown};

use crate::audits::tell_audit;
use crate::commands::{ConsoleCommand, RingShape, line_is_silent, read_command, read_shape};
use crate::print::{count_lines, print_outcome, print_ring, print_shown};
use line_words::print_refusal;
use ring_records::{NodeNo, Refusal, Shown};
use ring_world::{Event, World};
use std::alloc::{AllocError, Global};
use std::mem::replace;

/// Where the script stands: the ring, once it is made. It is not let go: `end` ends it.
pub struct Console {
    pub world: Option<World>,
}

/// Adds the line of a refusal: one line.
pub(crate) fn refuse(out: &mut String, refusal: Refusal) -> Result<u64, AllocError>
    ensures prints { IfOk result (λ n. Does (string_bytes out.old) (string_bytes out.new) n (λ lines. lines ≡ refusal_text refusal ∷ [])) }
    ensures few { IfOk result (λ n. n ≡ 1) }
{
    print_refusal(out, refusal)?;
    Ok(1)
}

// What the world tells of the event, or why it refuses it.
fn perform(world: &mut World, event: Event, out: &mut String) -> Result<u64, AllocError>
    requires small { world.old.tickets ≤ 1000000 }
    ensures prints { IfOk result (λ n. Does (string_bytes out.old) (string_bytes out.new) n
        (λ lines. Happens world.old event (refusal_of world.old event) lines (Some world.new))) }
    ensures tickets { OnOk result (world.new.tickets ≤ world.old.tickets + 1) }
    ensures few { IfOk result (λ n. n ≤ world.old.tickets + 2) }
{
    match world.step(event) {
        Ok(outcome) => {
            print_outcome(out, &event, &outcome)?;
            Ok(count_lines(&event, &outcome))
        }
        Err(Refusal::OutOfMemory) => Err(AllocError),
        Err(refusal) => refuse(out, refusal),
    }
}

fn shown(world: &World, node: NodeNo) -> Result<Shown, Refusal>
    ensures value { IfOk result (λ v. v ≡ shown_at world.now node) }
    ensures shown { OnOk result (unshown world.now node ≡ None) }
    ensures refused { IfErr result (λ refusal. unshown world.now node ≡ Some refusal) }
{
    match world.show(node) {
        Ok(shown) => Ok(shown),
        Err(refusal) => Err(refusal),
    }
}

// What the world shows of the node, or why it shows none.
fn show(world: &World, node: NodeNo, out: &mut String) -> Result<u64, AllocError>
    ensures prints { IfOk result (λ n. Does (string_bytes out.old) (string_bytes out.new) n
        (λ lines. Shows world.now node (unshown world.now node) lines (Some world.now))) }
    ensures few { IfOk result (λ n. n ≡ 1) }
{
    match shown(world, node) {
        Ok(shown) => {
            print_shown(out, node, shown)?;
            Ok(1)
        }
        Err(refusal) => refuse(out, refusal),
    }
}

fn follow(
    alloc: Global,
    world: &mut World,
    command: ConsoleCommand,
    out: &mut String,
) -> Result<u64, AllocError>
    requires small { world.old.tickets ≤ 1000000 }
    ensures prints { IfOk result (λ n. Does (string_bytes out.old) (string_bytes out.new) n
        (λ lines. Obeys world.old (Ok command) lines (Some world.new))) }
    ensures tickets { OnOk result (world.new.tickets ≤ world.old.tickets + 1) }
    ensures few { IfOk result (λ n. n ≤ world.old.tickets + 2) }
{
    match command {
        ConsoleCommand::Event(event) => perform(world, event, out),
        ConsoleCommand::Show(node) => show(world, node, out),
        ConsoleCommand::Audit => tell_audit(alloc, world, out),
    }
}

fn answer(
    alloc: Global,
    world: &mut World,
    said: Result<ConsoleCommand, Refusal>,
    out: &mut String,
) -> Result<u64, AllocError>
    requires small { world.old.tickets ≤ 1000000 }
    ensures prints { IfOk result (λ n. Does (string_bytes out.old) (string_bytes out.new) n
        (λ lines. Obeys world.old said lines (Some world.new))) }
    ensures tickets { OnOk result (world.new.tickets ≤ world.old.tickets + 1) }
    ensures few { IfOk result (λ n. n ≤ world.old.tickets + 2) }
{
    match said {
        Ok(command) => follow(alloc, world, command, out),
        Err(refusal) => refuse(out, refusal),
    }
}

fn speak(alloc: Global, world: &mut World, line: &[u8], out: &mut String) -> Result<u64, AllocError>
    requires small { world.old.tickets ≤ 1000000 }
    ensures prints { IfOk result (λ n. Does (string_bytes out.old) (string_bytes out.new) n
        (λ lines. Obeys world.old (line_says (commands world.old.ring.size) line.now) lines (Some world.new))) }
    ensures tickets { OnOk result (world.new.tickets ≤ world.old.tickets + 1) }
    ensures few { IfOk result (λ n. n ≤ world.old.tickets + 2) }
{
    match read_command(alloc, world.size(), line) {
        Ok(said) => answer(alloc, world, said, out),
        Err(_) => Err(AllocError),
    }
}

fn new_world(alloc: Global, shape: RingShape) -> Result<World, AllocError>
    requires { is_ring shape.nodes shape.capacity ≡ true }
    ensures { IfOk result (λ w. w ≡ opened shape.nodes shape.eager shape.capacity) }
{
    match World::new(alloc, shape.nodes, shape.eager, shape.capacity) {
        Ok(world) => Ok(world),
        Err(refusal) => {
            let is_memory = matches!(refusal, Refusal::OutOfMemory);
            prove!(is_memory);
            Err(AllocError)
        }
    }
}

fn make(alloc: Global, shape: RingShape, out: &mut String) -> Result<World, AllocError>
    requires { is_ring shape.nodes shape.capacity ≡ true }
    ensures world { IfOk result (λ w. w ≡ opened shape.nodes shape.eager shape.capacity) }
    ensures prints { OnOk result (Does (string_bytes out.old) (string_bytes out.new) 1 (λ lines. lines ≡ ring_line shape.nodes ∷ [])) }
{
    // so that want of memory leaves no ring that has to be ended
    print_ring(out, shape.nodes)?;
    new_world(alloc, shape)
}

fn open(
    alloc: Global,
    said: Result<RingShape, Refusal>,
    out: &mut String,
) -> Result<(Option<World>, u64), AllocError>
    requires { IfOk said (λ shape. is_ring shape.nodes shape.capacity ≡ true) }
    ensures prints { IfOk result (λ r. Does (string_bytes out.old) (string_bytes out.new) r.1
        (λ lines. Opens said lines r.0)) }
    ensures tickets { IfOk result (λ r. tickets_of r.0 ≡ 0) }
    ensures few { IfOk result (λ r. r.1 ≡ 1) }
{
    match said {
        Ok(shape) => Ok((Some(make(alloc, shape, out)?), 1)),
        Err(refusal) => {
            let count = refuse(out, refusal)?;
            Ok((None, count))
        }
    }
}

impl Console {
    /// A console before any line: no ring is made.
    pub fn new() -> Console
        ensures { result.world ≡ None }
    {
        Console { world: None }
    }

    /// Ends it, and gives up the open tickets of its ring.
    pub fn end(self) {
        let Console { world } = self;
        if let Some(world) = world {
            world.end();
        }
    }

    /// Obeys a line of the script: adds to `out` the lines that it prints, and gives their count, at most two more
    /// than the ticket numbers that are taken. After want of memory, the only refusal, `out` has no meaning and the
    /// console is of no more use than to be ended.
    #[tactic(auto, unfolding(crate::specs::Script::LinePrints))]
    pub fn obey(&mut self, alloc: Global, line: &[u8], out: &mut String) -> Result<u64, AllocError>
        requires small { tickets_of self.old.world ≤ 1000000 }
        ensures prints { IfOk result (λ n. Does (string_bytes out.old) (string_bytes out.new) n
            (λ lines. LinePrints self.old.world line.now lines self.new.world)) }
        ensures tickets { OnOk result (tickets_of self.new.world ≤ tickets_of self.old.world + 1) }
        ensures few { IfOk result (λ n. n ≤ tickets_of self.old.world + 2) }
        ensures speaks { OnErr result (is_silent line.now ≡ false) }
    {
        if line_is_silent(line) {
            return Ok(0);
        }
        match &mut self.world {
            Some(world) => speak(alloc, world, line, out),
            None => {
                let (world, count) = open(alloc, read_shape(alloc, line)?, out)?;
                if let Some(before) = replace(&mut self.world, world) {
                    before.end();
                }
                Ok(count)
            }
        }
    }
}
