// Random streams. Each command is made for the station that the commands before it leave, so that most are taken; some are wrong on
// purpose, and what follows them is made all the same.
use crate::chance::Wanted::{
    Any, AnyMachine, Apart, Beside, Free, FreeMachine, Held, High, LowerMachine, Lowest,
    NotStarting, Refined, RootMachine, Same, Starting, Used, UsedMachine,
};
use crate::chance::{Wanted, pick};
use crate::shapes::{DEEP_BOOKS, Opening, Shape};
use crate::station::{NODES, Station, depth};
use crate::stream::{Bytes, Order, new_order, take};
use trying::{draw, once_in, put, put_pair};

// A kind of command: its opcode, and which machine, node and other node are picked for it.
#[derive(Clone, Copy)]
struct Kind(u32, Wanted, Wanted, Wanted);

const BEGIN: Kind = Kind(0x10, FreeMachine, Free, Used);

const ADD: Kind = Kind(0x11, UsedMachine, Free, Used);

const REFINE: Kind = Kind(0x12, FreeMachine, High, Free);

const DEEPEN: Kind = Kind(0x12, FreeMachine, Lowest, Free);

const REMOVE: Kind = Kind(0x13, UsedMachine, NotStarting, Used);

const ARROW: Kind = Kind(0x14, UsedMachine, Used, Beside);

const SELF: Kind = Kind(0x14, UsedMachine, Refined, Same);

const CLEAR: Kind = Kind(0x15, UsedMachine, Used, Used);

const RESTART: Kind = Kind(0x16, UsedMachine, Used, Used);

const CROWN: Kind = Kind(0x17, FreeMachine, Free, Used);

const REFRESH: Kind = Kind(0x18, UsedMachine, Used, Used);

const HOLD: Kind = Kind(0x1A, UsedMachine, NotStarting, Used);

const HOLD_AGAIN: Kind = Kind(0x1A, UsedMachine, Held, Used);

const LEAVE: Kind = Kind(0x1B, LowerMachine, Used, Used);

// Kinds that are refused: a node refined again, a start node removed, a transition into another machine, a start node held, a held node made
// the start node, a leaving charge for the root and for a machine not in use, unknown opcodes.
const REFINE_AGAIN: Kind = Kind(0x12, FreeMachine, Refined, Free);

const REMOVE_START: Kind = Kind(0x13, UsedMachine, Starting, Used);

const ARROW_APART: Kind = Kind(0x14, UsedMachine, Used, Apart);

const HOLD_START: Kind = Kind(0x1A, UsedMachine, Starting, Used);

const RESTART_HELD: Kind = Kind(0x16, UsedMachine, Held, Used);

const LEAVE_ROOT: Kind = Kind(0x1B, RootMachine, Used, Used);

const LEAVE_FREE: Kind = Kind(0x1B, FreeMachine, Used, Used);

const BELOW_KNOWN: Kind = Kind(0x0F, UsedMachine, Used, Used);

const BETWEEN_KNOWN: Kind = Kind(0x19, UsedMachine, Used, Used);

const ABOVE_KNOWN: Kind = Kind(0x1C, UsedMachine, Used, Used);

// Writes a node, and then a machine, a command or a hold.
fn put_both(stream: &mut Bytes, at: usize, n: u32, b: u32) -> usize {
    let next = put_pair(stream, at, n);
    put(stream, next, b)
}

// Writes a command; of an unknown one only the opcode.
fn write(stream: &mut Bytes, at: usize, o: Order) -> usize {
    let op = o.op;
    let a = put(stream, at, op);
    match op {
        0x10 | 0x11 | 0x17 => {
            let b = put(stream, a, o.machine);
            put_pair(stream, b, o.node)
        }
        0x12 => {
            let b = put_both(stream, a, o.node, o.machine);
            put_pair(stream, b, o.other)
        }
        0x13 | 0x16 => put_pair(stream, a, o.node),
        0x14 => {
            let b = put_both(stream, a, o.node, o.command);
            let c = put_pair(stream, b, o.other);
            put_pair(stream, c, o.cost)
        }
        0x15 => put_both(stream, a, o.node, o.command),
        0x1A => put_both(stream, a, o.node, o.hold),
        0x1B => {
            let b = put(stream, a, o.machine);
            put_pair(stream, b, o.cost)
        }
        _ => a,
    }
}

// Some costs are 0, some the shape's largest, the rest anything between.
fn random_cost(seed: &mut u64, shape: &Shape) -> u32 {
    let most = shape.largest;
    if draw(seed, 8) < shape.zeros {
        return 0;
    }
    if once_in(seed, 8) {
        return most;
    }
    draw(seed, most)
}

// Of eight leaving charges, in every shape two are the largest that there is and one is 0; the rest are below the shape's largest cost.
fn random_charge(seed: &mut u64, shape: &Shape) -> u32 {
    let k = draw(seed, 8);
    if k < 2 {
        return 65535;
    }
    if k == 2 {
        return 0;
    }
    draw(seed, shape.largest)
}

// The byte of a hold: 1 twice as often as 0, and now and then another; often another where some symbols are out of range too.
fn random_hold(seed: &mut u64, symbols: u32) -> u32 {
    let k = draw(seed, if symbols > 16 { 6 } else { 192 });
    if k == 0 {
        return 2;
    }
    if k == 1 {
        return draw(seed, 256);
    }
    if k % 3 == 0 { 0 } else { 1 }
}

// A command of a kind, with one of so many symbols where it has one.
fn make(s: &Station, seed: &mut u64, shape: &Shape, kind: Kind, symbols: u32) -> Order {
    let m = pick(s, seed, kind.1, 0);
    let n = pick(s, seed, kind.2, depth(s));
    let v = pick(s, seed, kind.3, n);
    let x = draw(seed, symbols);
    let b = random_hold(seed, symbols);
    let c = if kind.0 == 0x1B {
        random_charge(seed, shape)
    } else {
        random_cost(seed, shape)
    };
    new_order(kind.0, m, n, v, x, c, b)
}

// The opcode of any edit but begin.
fn any_edit(seed: &mut u64) -> u32 {
    let k = draw(seed, 9);
    if k >= 7 { 0x13 + k } else { 0x11 + k }
}

// A kind for a command that is refused, or would be in most stations; in the last several things may be wrong at once.
fn wrong_kind(seed: &mut u64) -> Kind {
    let k = draw(seed, 20);
    match k {
        0 => REFINE_AGAIN,
        1 => REMOVE_START,
        2 => ARROW_APART,
        3 => DEEPEN,
        4 => BELOW_KNOWN,
        5 => BETWEEN_KNOWN,
        6 => ABOVE_KNOWN,
        7 => HOLD_START,
        8 => RESTART_HELD,
        9 => LEAVE_ROOT,
        10 => LEAVE_FREE,
        _ => Kind(any_edit(seed), AnyMachine, Any, Any),
    }
}

// A leaving charge; where there is no machine that can be left, the command that makes one.
fn leave_kind(s: &Station) -> Kind {
    if depth(s) > 1 { LEAVE } else { REFINE }
}

// A kind for a random command; the numbers say how often each comes.
fn any_kind(s: &Station, seed: &mut u64, shape: &Shape) -> Kind {
    let k = draw(seed, 84);
    match k {
        0 => { if shape.churn { BEGIN } else { ARROW } }
        1..=8 => ADD,
        9..=12 => REFINE,
        13..=14 => DEEPEN,
        15..=18 => REMOVE,
        19..=22 => SELF,
        23..=28 => CLEAR,
        29..=32 => RESTART,
        33..=34 => CROWN,
        35..=36 => REFRESH,
        37..=38 => wrong_kind(seed),
        39..=48 => HOLD,
        49..=50 => HOLD_AGAIN,
        51..=58 => leave_kind(s),
        _ => ARROW,
    }
}

// Writes one command more, and does it on the station that the next one is made for.
fn extend(
    s: &mut Station,
    seed: &mut u64,
    shape: &Shape,
    kind: Kind,
    stream: &mut Bytes,
    at: usize,
) -> usize {
    if at >= 8184 {
        return at;
    }
    let made = make(s, seed, shape, kind, shape.symbols);
    let end = write(stream, at, made);
    let _ = take(s, stream, end, at);
    end
}

// Writes so many commands of a kind.
fn repeat(
    s: &mut Station,
    seed: &mut u64,
    shape: &Shape,
    kind: Kind,
    count: u32,
    stream: &mut Bytes,
    at: usize,
) -> usize {
    let mut end = at;
    for _ in 0..count {
        end = extend(s, seed, shape, kind, stream, end);
    }
    end
}

// Writes the stream that builds a book of a shape, and gives its length. The ladder and the tree of a table are built on.
fn build(s: &mut Station, seed: &mut u64, shape: &Shape, stream: &mut Bytes) -> usize {
    let a = if shape.opening == Opening::Fresh {
        extend(s, seed, shape, BEGIN, stream, 0)
    } else {
        0
    };
    let b = repeat(s, seed, shape, ADD, shape.wide, stream, a);
    let c = repeat(s, seed, shape, DEEPEN, shape.deep, stream, b);
    let d = repeat(s, seed, shape, REFINE, shape.refined, stream, c);
    let e = repeat(s, seed, shape, ADD, shape.more, stream, d);
    let f = repeat(s, seed, shape, ARROW, shape.arrows, stream, e);
    let g = repeat(s, seed, shape, SELF, shape.selves, stream, f);
    let h = if once_in(seed, 2) {
        g
    } else {
        repeat(s, seed, shape, HOLD, shape.holds, stream, g)
    };
    if once_in(seed, 2) {
        return h;
    }
    let kind = leave_kind(s);
    let i = extend(s, seed, shape, kind, stream, h);
    repeat(s, seed, shape, LEAVE, shape.holds, stream, i)
}

// The length of a stream that is now and then cut short by a byte.
fn cut(seed: &mut u64, length: usize) -> usize {
    if length < 2 {
        return length;
    }
    if once_in(seed, 10) {
        return length - 1;
    }
    length
}

// Writes a stream of random commands, and gives its length.
fn mix(s: &mut Station, seed: &mut u64, shape: &Shape, stream: &mut Bytes) -> usize {
    let mut end = 0usize;
    for _ in 0..shape.commands {
        let kind = any_kind(s, seed, shape);
        end = extend(s, seed, shape, kind, stream, end);
    }
    cut(seed, end)
}

// Writes a stream of one command, which is most likely refused, and gives its length.
pub fn single(s: &Station, seed: &mut u64, bytes: &mut Bytes) -> usize {
    let kind = wrong_kind(seed);
    let made = make(s, seed, &DEEP_BOOKS, kind, 18);
    let end = write(bytes, 0, made);
    cut(seed, end)
}

// Writes the first stream of a book, or a later one, and gives its length.
pub fn stream(
    s: &mut Station,
    seed: &mut u64,
    shape: &Shape,
    first: bool,
    bytes: &mut Bytes,
) -> usize {
    if first {
        build(s, seed, shape, bytes)
    } else {
        mix(s, seed, shape, bytes)
    }
}

// Writes the longest line that there can be, 256 nodes of one machine with a transition from each to the next at the largest cost, and gives
// its length.
pub fn line(bytes: &mut Bytes) -> usize {
    let mut at = write(bytes, 0, new_order(0x10, 0, 0, 0, 0, 0, 0));
    for n in 1..NODES {
        let next = write(bytes, at, new_order(0x11, 0, n, 0, 0, 0, 0));
        at = write(bytes, next, new_order(0x14, 0, n - 1, n, 0, 65535, 0));
    }
    at
}

// Writes the root with node 1 and seven machines below that, one in the other, with the largest leaving charges; machine m starts at node
// m + 1, and the lowest has node 0 too, which leads to itself by command 1.
fn nested(bytes: &mut Bytes) -> usize {
    let mut at = write(bytes, 0, new_order(0x10, 0, 1, 0, 0, 0, 0));
    for m in 1..8 {
        let next = write(bytes, at, new_order(0x12, m, m, m + 1, 0, 0, 0));
        at = write(bytes, next, new_order(0x1B, m, 0, 0, 0, 65535, 0));
    }
    let end = write(bytes, at, new_order(0x11, 7, 0, 0, 0, 0, 0));
    write(bytes, end, new_order(0x14, 0, 0, 0, 1, 0, 0))
}

// The transition into the root's node after n: from node n, but into 9 and 133 from node 1, which holds the machines, by two commands.
fn root_arrow(n: u32) -> Order {
    let v = n % NODES + 1;
    match n {
        8 => new_order(0x14, 0, 1, v, 0, 65535, 0),
        132 => new_order(0x14, 0, 1, v, 1, 65535, 0),
        _ => new_order(0x14, 0, n, v, 0, 65535, 0),
    }
}

// Writes the book of the dearest plan that there can be, and gives its length. A way that comes to no state twice enters no machine twice
// and leaves at most seven machines more than it enters, and each machine below the root takes a node from the states: so no plan costs more
// than 255 + 7 times the largest cost. Here the way from node 0 to 255 comes to every state, and leaves the seven machines twice.
pub fn dearest(bytes: &mut Bytes) -> usize {
    let mut at = nested(bytes);
    for n in 8..255 {
        let next = write(bytes, at, new_order(0x11, 0, n + 1, 0, 0, 0, 0));
        at = write(bytes, next, root_arrow(n));
    }
    write(bytes, at, new_order(0x14, 0, 132, 1, 0, 65535, 0))
}
