// Random costs, and random numbers of a book.
use crate::words::{
    BELOW, Book, HOLDER, NODES, NONE, OWNER, START, above, held, is_state, machine, node, outside,
};
use trying::{draw, once_in};

// What is looked for: a node in use and one not in use; a node of the machine that is given; a state at level 5 or above; a refined node; a
// start node, and one in use that is none; a state outside the node that is given; a machine not in use, one below the root, one below the node.
#[derive(Clone, Copy)]
pub enum Wanted {
    Used,
    Free,
    OfMachine(u32),
    High,
    Refined,
    Starting,
    NoStart,
    Outside(u32),
    FreeMachine,
    LowerMachine,
    HeldMachine(u32),
}

// A cost: 0 now and then, else below a limit.
pub fn any_cost(seed: &mut u64, most: u32) -> u32 {
    if once_in(seed, 6) {
        return 0;
    }
    draw(seed, most)
}

// Whether node n has five levels above it.
fn is_low(list: &Book, n: u32) -> bool {
    let up = above(list, above(list, above(list, n)));
    above(list, above(list, up)) < NODES
}

// Whether number k is what is looked for.
fn fits(list: &Book, kind: Wanted, k: u32) -> bool {
    let owner = node(list, k, OWNER);
    match kind {
        Wanted::Used => owner != NONE,
        Wanted::Free => owner == NONE,
        Wanted::OfMachine(m) => owner != NONE && owner == m,
        Wanted::High => is_state(list, k) && !is_low(list, k),
        Wanted::Refined => node(list, k, BELOW) != NONE,
        Wanted::Starting => machine(list, owner, START) == k,
        Wanted::NoStart => owner != NONE && machine(list, owner, START) != k,
        Wanted::Outside(n) => outside(list, n, k),
        Wanted::FreeMachine => k < 64 && machine(list, k, START) == NONE,
        Wanted::LowerMachine => machine(list, k, HOLDER) != NONE,
        Wanted::HeldMachine(n) => held(list, n, k),
    }
}

// The next number of a kind from a random one on, the first after the last.
pub fn find(list: &Book, seed: &mut u64, kind: Wanted) -> Option<u32> {
    let from = draw(seed, NODES);
    for i in 0..NODES {
        let k = (from % NODES + i) % NODES;
        if fits(list, kind, k) {
            return Some(k);
        }
    }
    None
}
