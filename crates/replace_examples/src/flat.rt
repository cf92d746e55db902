// What a flat search on the words of a book needs and tells: a move for each state and command, which uses no exit costs and no sheet; what comes up
// to a node, and which cheapest lists pass one. Nothing here calls the planner.
use crate::words::{
    BELOW, BLANK, Book, HOLD, LEAVE, NODES, NONE, OWNER, START, above, is_state, machine, node,
    transition,
};
use trying::{Costs, FAR, Moves, cost_of, distances, plus};

// A flag for each node.
pub type Flags = [bool; 256];

// Where a command leads, and what it costs.
#[derive(Drop)]
struct Moved {
    node: u32,
    cost: u32,
}

// The state that is reached by entering node n.
pub fn enter(list: &Book, n: u32) -> u32 {
    let mut at = n;
    for _ in 0..8 {
        let m = node(list, at, BELOW);
        if m == NONE {
            return at;
        }
        at = machine(list, m, START);
    }
    at
}

// The word of node n's transition for x, where it counts: its target is not held.
fn counting(list: &Book, n: u32, x: u32) -> u32 {
    let w = transition(list, n, x);
    if node(list, w / 65536, HOLD) == 1 {
        BLANK
    } else {
        w
    }
}

// A command at a state, which climbs to `top` and no further: where it leads to, or `top`, or no node where the station stops.
fn step(list: &Book, n: u32, x: u32, top: u32) -> Moved {
    let mut at = n;
    let mut sum = 0u32;
    for _ in 0..8 {
        if at == top || at >= NODES {
            return Moved {
                node: at,
                cost: sum,
            };
        }
        let w = counting(list, at, x);
        if w != BLANK {
            return Moved {
                node: enter(list, w / 65536),
                cost: plus(sum, w % 65536),
            };
        }
        sum = plus(sum, machine(list, node(list, at, OWNER), LEAVE));
        at = above(list, at);
    }
    Moved {
        node: at,
        cost: sum,
    }
}

// The moves of all states, up to `top`.
pub fn all_moves(list: &Book, top: u32, moves: &mut Moves) {
    for i in 0..4096 {
        moves[i as usize] = NONE;
        if is_state(list, i / 16) {
            let moved = step(list, i / 16, i % 16, top);
            moves[i as usize] = moved.node;
            moves[4096 + i as usize] = moved.cost;
        }
    }
}

// Whether a node has its flag.
fn has(flags: &Flags, n: u32) -> bool {
    if n < NODES { flags[n as usize] } else { true }
}

// Whether move i is the last of a cheapest list and leads from a node that has its flag to one that has not.
fn hands_on(moves: &Moves, costs: &Costs, flags: &Flags, i: u32) -> bool {
    if i >= 4096 {
        return false;
    }
    let v = moves[i as usize];
    if has(flags, v) {
        return false;
    }
    if !has(flags, i / 16) {
        return false;
    }
    let c = plus(cost_of(costs, i / 16), moves[4096 + i as usize]);
    c != FAR && c == cost_of(costs, v)
}

// Gives a node its flag.
fn flag(flags: &mut Flags, n: u32) {
    if n < NODES {
        flags[n as usize] = true;
    }
}

// Hands flags on along every move once; whether some node got one.
fn hand_once(moves: &Moves, costs: &Costs, flags: &mut Flags) -> bool {
    let mut more = false;
    for i in 0..4096 {
        if hands_on(moves, costs, flags, i) {
            flag(flags, moves[i as usize]);
            more = true;
        }
    }
    more
}

// Hands flags on along the cheapest lists from a state, whose costs are given: a node then has its flag where one of them passes a node that had it.
pub fn hand_on(moves: &Moves, costs: &Costs, flags: &mut Flags) {
    for _ in 0..NODES {
        if !hand_once(moves, costs, flags) {
            return;
        }
    }
}

// What it costs to come up to node n by each command from where n is entered: the exit cost of the machine below n and its leaving charge.
pub fn exits(list: &Book, n: u32, out: &mut [u32; 16]) {
    let mut moves = [NONE; 8192];
    all_moves(list, n, &mut moves);
    let mut costs = [FAR; 256];
    distances(&moves, enter(list, n), &mut costs);
    lower_exits(&moves, &costs, n, out);
}

// The least cost of each command that comes up to node n.
fn lower_exits(moves: &Moves, costs: &Costs, n: u32, out: &mut [u32; 16]) {
    *out = [FAR; 16];
    for i in 0..4096 {
        if moves[i as usize] == n {
            let c = plus(cost_of(costs, i / 16), moves[4096 + i as usize]);
            if c < out[(i % 16) as usize] {
                out[(i % 16) as usize] = c;
            }
        }
    }
}
