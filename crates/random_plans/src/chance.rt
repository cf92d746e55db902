// Random places of the test's own station.
use crate::station::{
    LEVELS, MACHINES, NODES, NONE, OWNER, ROOT, START, Station, get, is_held, is_lower, is_start,
    is_state, level,
};
use trying::{draw, once_in};

// What is picked: nodes in use and not; in the machine of the node that is given, in another, and that node itself; refined ones; states
// at the level that is given, and above the lowest that may be; start nodes and others; held ones; machines in use and not, the root, and
// those in use below it; and with the last two one in use half of the time, else any number, some out of range.
#[derive(Clone, Copy, PartialEq, Eq)]
pub enum Wanted {
    Used,
    Free,
    Beside,
    Apart,
    Same,
    Refined,
    Lowest,
    High,
    Starting,
    NotStarting,
    Held,
    UsedMachine,
    FreeMachine,
    RootMachine,
    LowerMachine,
    Any,
    AnyMachine,
}

// Whether node n, which is in use, is what is looked for.
fn fits_node(s: &Station, kind: Wanted, arg: u32, n: u32) -> bool {
    let owner = get(s, OWNER, n);
    match kind {
        Wanted::Beside => owner == get(s, OWNER, arg),
        Wanted::Apart => owner != get(s, OWNER, arg),
        Wanted::Same => n == arg,
        Wanted::Refined => !is_state(s, n),
        Wanted::Lowest => is_state(s, n) && level(s, n) == arg,
        Wanted::High => is_state(s, n) && level(s, n) < LEVELS,
        Wanted::Starting => is_start(s, n),
        Wanted::NotStarting => !is_start(s, n),
        Wanted::Held => is_held(s, n),
        _ => true,
    }
}

// Whether number k is what is looked for.
fn fits(s: &Station, kind: Wanted, arg: u32, k: u32) -> bool {
    match kind {
        Wanted::UsedMachine | Wanted::AnyMachine => get(s, START, k) != NONE,
        Wanted::FreeMachine => k < MACHINES && get(s, START, k) == NONE,
        Wanted::RootMachine => k == get(s, ROOT, 0),
        Wanted::LowerMachine => is_lower(s, k),
        Wanted::Free => get(s, OWNER, k) == NONE,
        _ => get(s, OWNER, k) != NONE && fits_node(s, kind, arg, k),
    }
}

// The next number to try: random ones first, then all in turn.
fn next(seed: &mut u64, k: u32, tried: u32) -> u32 {
    if tried < 300 {
        return draw(seed, NODES);
    }
    (k % NODES + 1) % NODES
}

// A random number of a kind; any number where there is none.
pub fn pick(s: &Station, seed: &mut u64, kind: Wanted, arg: u32) -> u32 {
    if kind == Wanted::Any && once_in(seed, 2) {
        return draw(seed, 300);
    }
    if kind == Wanted::AnyMachine && once_in(seed, 2) {
        return draw(seed, 68);
    }
    let mut k = draw(seed, NODES);
    for tried in 0..600 {
        if fits(s, kind, arg, k) {
            return k;
        }
        k = next(seed, k, tried);
    }
    k
}
