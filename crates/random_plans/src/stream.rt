// The test's own reading of streams: each command is read from its bytes, judged on the own station and done there, up to the stream's end
// or the first that is refused.
ghost use Rattle.std.specs.Prelude.{◌≡◌, ℕ, ◌≤◌, ◌<◌};
ghost use Rattle.std.proofs.Math.Option.{some};
ghost use Rattle.refusals.specs.Meaning.{value_of};

use crate::edits;
use crate::station::{
    BELOW, COMMANDS, LEVELS, MACHINES, NODES, NONE, OWNER, ROOT, START, Station, depth, get,
    is_held, is_start, level,
};
use refusals::Refusal;

// A stream's bytes stand at the front; how many there are goes beside it.
pub type Bytes = [u8; 8192];

// A command with its operands; those that it does not have are 0. The opcode is the stream's byte, as unknown ones are made and judged too.
#[derive(Clone, Copy)]
pub struct Order {
    pub op: u32,
    pub machine: u32,
    pub node: u32,
    pub other: u32,
    pub command: u32,
    pub cost: u32,
    pub hold: u32,
}

// What a command took that was done: its bytes, and whether it holds a node, and whether it makes leaving a machine cost something.
#[derive(Clone, Copy)]
pub struct Taken {
    pub size: usize,
    pub holds: bool,
    pub charges: bool,
}

// Bytes taken, commands taken, those that hold a node, those that make leaving a machine cost something, and the refusal, where one is refused.
#[derive(Clone, Copy, Default)]
pub struct Counts {
    pub bytes: usize,
    pub commands: usize,
    pub holds: usize,
    pub charges: usize,
    pub refused: Option<Refusal>,
}

// The operand byte k of the command at a place.
fn one(stream: &Bytes, at: usize, k: usize) -> u32
    ensures { result < 256 }
{
    if at >= 8192 {
        return 0;
    }
    if k >= 8192 {
        return 0;
    }
    let i = at + k;
    if i < 8192 { u32::from(stream[i]) } else { 0 }
}

// The two bytes from k on, high byte first.
fn two(stream: &Bytes, at: usize, k: usize) -> u32 {
    if k >= 8192 {
        return 0;
    }
    256 * one(stream, at, k) + one(stream, at, k + 1)
}

// How many bytes of operands follow an opcode; nothing of an unknown one.
fn operands(op: u32) -> Option<usize>
    ensures { (size : ℕ) → value_of result ≡ some size → size ≤ 7 }
{
    match op {
        0x10 | 0x11 | 0x15 | 0x17 | 0x1A | 0x1B => Some(3),
        0x12 => Some(5),
        0x13 | 0x16 => Some(2),
        0x14 => Some(7),
        0x18 => Some(0),
        _ => None,
    }
}

// A command of a stream, with its operands.
pub fn new_order(
    op: u32,
    machine: u32,
    node: u32,
    other: u32,
    command: u32,
    cost: u32,
    hold: u32,
) -> Order {
    Order {
        op,
        machine,
        node,
        other,
        command,
        cost,
        hold,
    }
}

// The command that stands at a place.
fn decode(stream: &Bytes, at: usize) -> Order {
    let op = one(stream, at, 0);
    let first = two(stream, at, 1);
    let third = one(stream, at, 3);
    let fourth = two(stream, at, 4);
    match op {
        0x12 => new_order(op, third, first, fourth, 0, 0, 0),
        0x13 | 0x16 => new_order(op, 0, first, 0, 0, 0, 0),
        0x14 => new_order(op, 0, first, fourth, third, two(stream, at, 6), 0),
        0x15 => new_order(op, 0, first, 0, third, 0, 0),
        0x18 => new_order(op, 0, 0, 0, 0, 0, 0),
        0x1A => new_order(op, 0, first, 0, 0, 0, third),
        0x1B => new_order(op, one(stream, at, 1), 0, 0, 0, two(stream, at, 2), 0),
        _ => new_order(op, one(stream, at, 1), two(stream, at, 2), 0, 0, 0, 0),
    }
}

// 6: a number out of range, a hold that is neither 1 nor 0, or a leaving charge for the root.
fn out_of_range(s: &Station, o: Order) -> bool {
    if o.machine >= MACHINES {
        return true;
    }
    if o.op == 0x1B && o.machine == get(s, ROOT, 0) {
        return true;
    }
    if o.node >= NODES {
        return true;
    }
    if o.other >= NODES {
        return true;
    }
    if o.command >= COMMANDS {
        return true;
    }
    o.hold > 1
}

// 7: a machine or node not in use.
fn missing(s: &Station, o: Order) -> bool {
    let op = o.op;
    match op {
        0x11 | 0x1B => get(s, START, o.machine) == NONE,
        0x12 | 0x13 | 0x15 | 0x16 | 0x1A => get(s, OWNER, o.node) == NONE,
        0x14 => get(s, OWNER, o.node) == NONE || get(s, OWNER, o.other) == NONE,
        _ => false,
    }
}

// 8: a new number in use.
fn in_use(s: &Station, o: Order) -> bool {
    let op = o.op;
    match op {
        0x11 => get(s, OWNER, o.node) != NONE,
        0x12 => get(s, START, o.machine) != NONE || get(s, OWNER, o.other) != NONE,
        0x17 => get(s, START, o.machine) != NONE || get(s, OWNER, o.node) != NONE,
        _ => false,
    }
}

// 9: refine of a node that is refined already; 10: remove of a start node; 11: a transition into another machine; 21: a held node made
// the start node, or the start node held.
fn misplaced(s: &Station, o: Order) -> Option<Refusal> {
    let op = o.op;
    match op {
        0x12 => (get(s, BELOW, o.node) != NONE).then_some(Refusal::AlreadyRefined),
        0x13 => is_start(s, o.node).then_some(Refusal::IsStart),
        0x14 => (get(s, OWNER, o.node) != get(s, OWNER, o.other)).then_some(Refusal::OtherMachine),
        0x16 => is_held(s, o.node).then_some(Refusal::StartHeld),
        0x1A => (o.hold == 1 && is_start(s, o.node)).then_some(Refusal::StartHeld),
        _ => None,
    }
}

// 12: over 8 levels.
fn too_deep(s: &Station, o: Order) -> bool {
    let op = o.op;
    match op {
        0x12 => level(s, o.node) >= LEVELS,
        0x17 => depth(s) >= LEVELS,
        _ => false,
    }
}

// Why an order is refused on this station, where it is.
fn refusal(s: &Station, o: Order) -> Option<Refusal> {
    if out_of_range(s, o) {
        return Some(Refusal::OutOfRange);
    }
    if missing(s, o) {
        return Some(Refusal::NotInUse);
    }
    if in_use(s, o) {
        return Some(Refusal::InUse);
    }
    misplaced(s, o).or(too_deep(s, o).then_some(Refusal::TooDeep))
}

// Does an order that is not refused.
fn perform(s: &mut Station, o: Order) {
    let op = o.op;
    match op {
        0x10 => edits::begin(s, o.machine, o.node),
        0x11 => edits::add(s, o.machine, o.node),
        0x12 => edits::refine(s, o.node, o.machine, o.other),
        0x13 => edits::remove(s, o.node),
        0x14 => edits::arrow(s, o.node, o.command, o.other, o.cost),
        0x15 => edits::arrow(s, o.node, o.command, NONE, NONE),
        0x16 => edits::restart(s, o.node),
        0x17 => edits::crown(s, o.machine, o.node),
        0x1A => edits::set_hold(s, o.node, o.hold),
        0x1B => edits::set_leave(s, o.machine, o.cost),
        _ => edits::unmark(s),
    }
}

// Does the command at a place of a stream of this length; nothing is taken at the stream's end.
pub fn take(
    s: &mut Station,
    stream: &Bytes,
    length: usize,
    at: usize,
) -> Result<Option<Taken>, Refusal> {
    if at >= length {
        return Ok(None);
    }
    let size = operands(one(stream, at, 0)).ok_or(Refusal::UnknownOpcode)?;
    if length - at <= size {
        return Err(Refusal::CutShort);
    }
    let order = decode(stream, at);
    if let Some(refusal) = refusal(s, order) {
        return Err(refusal);
    }
    perform(s, order);
    Ok(Some(Taken {
        size: size + 1,
        holds: order.hold == 1,
        charges: order.op == 0x1B && order.cost != 0,
    }))
}

// Counts a command that was taken.
fn count(counts: &mut Counts, taken: Taken) {
    counts.commands = counts.commands.saturating_add(1);
    counts.bytes = counts.bytes.saturating_add(taken.size);
    counts.holds = counts.holds.saturating_add(usize::from(taken.holds));
    counts.charges = counts.charges.saturating_add(usize::from(taken.charges));
}

// Does a stream's commands up to its end or the first that is refused.
pub fn run(s: &mut Station, stream: &Bytes, length: usize) -> Counts {
    let mut counts = Counts::default();
    for _ in 0..8192 {
        match take(s, stream, length, counts.bytes) {
            Ok(Some(taken)) => count(&mut counts, taken),
            Ok(None) => return counts,
            Err(refusal) => {
                counts.refused = Some(refusal);
                return counts;
            }
        }
    }
    counts
}
