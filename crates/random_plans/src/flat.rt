// The moves of the test's own station: one for each state and command. They know no machines but for the step, no exit costs and no sheet.
use crate::station::{
    BELOW, COMMANDS, COST, LEVELS, NODES, NONE, START, Station, TARGET, above, get, is_held,
    is_state, leaving, transition,
};
use trying::{Moves, plus};

// Where a command leads and what it costs.
#[derive(Clone, Copy)]
pub struct Moved {
    pub state: u32,
    pub cost: u32,
}

// The state that is reached by entering a node.
fn enter(s: &Station, n: u32) -> u32 {
    let mut at = n;
    for _ in 0..LEVELS {
        let m = get(s, BELOW, at);
        if m == NONE {
            return at;
        }
        at = get(s, START, m);
    }
    at
}

// The target of node n's transition for x; "none" where there is none, or where it is shut, as its target is held.
fn counting(s: &Station, n: u32, x: u32) -> u32 {
    let v = transition(s, TARGET, n, x);
    if is_held(s, v) { NONE } else { v }
}

// The lowest node from a state on up that has a transition for a command which is not shut.
fn lowest(s: &Station, n: u32, x: u32) -> Option<u32> {
    let mut at = n;
    for _ in 0..LEVELS {
        if counting(s, at, x) != NONE {
            return Some(at);
        }
        at = above(s, at);
    }
    None
}

// What leaving the machines costs that a command climbs past from a state on up, before it comes to the node that acts.
fn climbing(s: &Station, n: u32, acting: u32) -> u32 {
    let mut at = n;
    let mut sum = 0u32;
    for _ in 0..LEVELS {
        if at == acting {
            return sum;
        }
        sum = plus(sum, leaving(s, at));
        at = above(s, at);
    }
    sum
}

// One command at a state; nothing where the station stops.
pub fn step(s: &Station, n: u32, x: u32) -> Option<Moved> {
    let at = lowest(s, n, x)?;
    Some(Moved {
        state: enter(s, transition(s, TARGET, at, x)),
        cost: plus(climbing(s, n, at), transition(s, COST, at, x)),
    })
}

// The moves of all states.
pub fn all_moves(s: &Station, moves: &mut Moves) {
    *moves = [NONE; 8192];
    for n in 0..NODES {
        if is_state(s, n) {
            moves_of(s, n, moves);
        }
    }
}

// Stores what each command does at state n.
fn moves_of(s: &Station, n: u32, moves: &mut Moves) {
    for x in 0..COMMANDS {
        if let Some(moved) = step(s, n, x) {
            set_move(moves, n, x, moved);
        }
    }
}

// Stores where command x leads from state n, and its cost.
fn set_move(moves: &mut Moves, n: u32, x: u32, moved: Moved) {
    if n >= NODES {
        return;
    }
    if x >= COMMANDS {
        return;
    }
    moves[16 * (n as usize) + x as usize] = moved.state;
    moves[4096 + 16 * (n as usize) + x as usize] = moved.cost;
}
