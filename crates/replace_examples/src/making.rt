// Random books, with holds and leaving charges.
use crate::chance::{Wanted, any_cost, find};
use crate::words::{
    BELOW, Book, HOLD, HOLDER, LEAVE, NODES, OWNER, START, clear_all, node, put_machine, put_node,
    set_transition,
};
use trying::{draw, once_in};

// What a book is given: a node, a transition, a hold, a cost of leaving.
#[derive(Clone, Copy)]
enum Thing {
    Node,
    Transition,
    Hold,
    Leaving,
}

// A command of the book: one of the lower eight, or of the upper eight where the root's number is odd.
fn used_command(list: &Book, seed: &mut u64) -> u32 {
    8 * (list[0] % 2) + draw(seed, 8) % 8
}

// A command of the other eight.
pub fn other_command(list: &Book, seed: &mut u64) -> u32 {
    8 * (1 - list[0] % 2) + draw(seed, 8) % 8
}

// Begins a book: a root with one node, whose numbers are random.
fn begin(list: &mut Book, seed: &mut u64) {
    clear_all(list);
    let m = draw(seed, 64);
    let n = draw(seed, NODES);
    list[0] = m;
    put_machine(list, m, START, n);
    put_node(list, n, OWNER, m);
}

// Puts machine m below node p, with start node k.
pub fn refine(list: &mut Book, p: u32, m: u32, k: u32) {
    put_node(list, p, BELOW, m);
    put_machine(list, m, HOLDER, p);
    put_machine(list, m, START, k);
    put_node(list, k, OWNER, m);
}

// One node more: in a machine that is there, or with a new machine below a state.
fn grow(list: &mut Book, seed: &mut u64) {
    let Some(k) = find(list, seed, Wanted::Free) else {
        return;
    };
    if once_in(seed, 5) {
        let p = find(list, seed, Wanted::High);
        let m = find(list, seed, Wanted::FreeMachine);
        if let (Some(p), Some(m)) = (p, m) {
            refine(list, p, m, k);
        }
    } else if let Some(p) = find(list, seed, Wanted::Used) {
        let m = node(list, p, OWNER);
        put_node(list, k, OWNER, m);
    }
}

// A transition of a node to one of its machine.
pub fn connect(list: &mut Book, seed: &mut u64, n: u32, most: u32) {
    let v = find(list, seed, Wanted::OfMachine(node(list, n, OWNER)));
    let x = used_command(list, seed);
    let c = any_cost(seed, most);
    if let Some(v) = v {
        set_transition(list, n, x, v, c);
    }
}

// Gives a book one thing more.
fn give(list: &mut Book, seed: &mut u64, what: Thing, most: u32) {
    match what {
        Thing::Node => grow(list, seed),
        Thing::Transition => {
            let kind = if once_in(seed, 4) {
                Wanted::Starting
            } else {
                Wanted::Used
            };
            if let Some(n) = find(list, seed, kind) {
                connect(list, seed, n, most);
            }
        }
        Thing::Hold => {
            if let Some(n) = find(list, seed, Wanted::NoStart) {
                put_node(list, n, HOLD, 1);
            }
        }
        Thing::Leaving => {
            let m = find(list, seed, Wanted::LowerMachine);
            let c = any_cost(seed, most);
            if let Some(m) = m {
                put_machine(list, m, LEAVE, c);
            }
        }
    }
}

// Gives a book so many things more.
fn repeat(list: &mut Book, seed: &mut u64, what: Thing, most: u32, count: u32) {
    for _ in 0..count {
        give(list, seed, what, most);
    }
}

// Cheap transitions to node n and from it, so that it lies on many a way.
fn lead(list: &mut Book, seed: &mut u64, n: u32) {
    let q = find(list, seed, Wanted::OfMachine(node(list, n, OWNER)));
    let x = used_command(list, seed);
    if let Some(q) = q {
        set_transition(list, q, x, n, 1);
    }
    connect(list, seed, n, 3);
}

// Makes node n one that a way may lead through; where it is held it stays so now and then.
pub fn favour(list: &mut Book, seed: &mut u64, n: u32) {
    if !once_in(seed, 9) {
        put_node(list, n, HOLD, 0);
    }
    for _ in 0..4 {
        lead(list, seed, n);
    }
}

// A random book whose costs are below a limit.
pub fn make(list: &mut Book, seed: &mut u64, most: u32) {
    begin(list, seed);
    let nodes = 9 + draw(seed, 22) % 22;
    repeat(list, seed, Thing::Node, most, nodes);
    repeat(list, seed, Thing::Transition, most, 5 * nodes);
    let holds = draw(seed, 4);
    repeat(list, seed, Thing::Hold, most, holds);
    let leavings = draw(seed, 6);
    repeat(list, seed, Thing::Leaving, most, leavings);
}
