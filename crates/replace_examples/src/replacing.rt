// What is below a node, replaced: in ways meant to keep what it costs to come up to the node, and by changes that may not. Which do is for the search to
// say.
use crate::chance::{Wanted, any_cost, find};
use crate::making::{connect, other_command, refine};
use crate::words::{
    BELOW, BLANK, Book, HOLDER, LEAVE, NODES, OWNER, START, beneath, clear_machine, clear_node,
    held, machine, node, put_machine, put_node, set_transition, transition,
};
use trying::{draw, once_in};

// The ways: other numbers; states added that are no cheaper; cost moved between exit and leaving; all three. And the changes: of a cost inside, of
// the leaving charge, and a transition inside that goes.
#[derive(Clone, Copy, PartialEq, Eq)]
pub enum Way {
    Renumbered,
    StatesAdded,
    CostMoved,
    AllThree,
    CostChanged,
    LeavingChanged,
    TransitionGone,
}

// Where a transition leads to node k, it then leads to node f.
fn retarget(list: &mut Book, k: u32, f: u32) {
    for n in 0..NODES {
        for x in 0..16 {
            let w = transition(list, n, x);
            if w / 65536 == k {
                set_transition(list, n, x, f, w % 65536);
            }
        }
    }
}

// Writes node k's words as node f's.
fn copy_node(list: &mut Book, k: u32, f: u32) {
    for i in 0..19 {
        let w = node(list, k, i);
        put_node(list, f, i, w);
    }
}

// Node k gets a number that is not in use.
fn move_node(list: &mut Book, seed: &mut u64, k: u32) {
    let Some(f) = find(list, seed, Wanted::Free) else {
        return;
    };
    copy_node(list, k, f);
    put_machine(list, node(list, k, BELOW), HOLDER, f);
    let m = node(list, k, OWNER);
    if machine(list, m, START) == k {
        put_machine(list, m, START, f);
    }
    clear_node(list, k);
    retarget(list, k, f);
}

// The nodes of machine m go to machine f.
fn move_nodes(list: &mut Book, m: u32, f: u32) {
    for k in 0..NODES {
        if node(list, k, OWNER) == m {
            put_node(list, k, OWNER, f);
        }
    }
}

// Machine m gets a number that is not in use.
fn move_machine(list: &mut Book, seed: &mut u64, m: u32) {
    let Some(f) = find(list, seed, Wanted::FreeMachine) else {
        return;
    };
    let h = machine(list, m, HOLDER);
    put_machine(list, f, HOLDER, h);
    put_machine(list, f, START, machine(list, m, START));
    put_machine(list, f, LEAVE, machine(list, m, LEAVE));
    put_node(list, h, BELOW, f);
    clear_machine(list, m);
    move_nodes(list, m, f);
}

// All nodes and machines below node n get other numbers.
fn renumber(list: &mut Book, seed: &mut u64, n: u32) {
    for k in 0..NODES {
        if beneath(list, n, k) {
            move_node(list, seed, k);
        }
        if held(list, n, k) {
            move_machine(list, seed, k);
        }
    }
}

// Gives node p transitions to node v for all commands, or for all but one.
fn fill_commands(list: &mut Book, p: u32, v: u32, c: u32, but: Option<u32>) {
    for x in 0..16 {
        if but != Some(x) {
            set_transition(list, p, x, v, c);
        }
    }
}

// Adds node p to machine m at no cost: node q, which has no transition for x, has one to it, and p has none for x alone, so that x may be given again.
fn add_free(list: &mut Book, m: u32, q: u32, x: u32, p: u32) {
    if transition(list, q, x) != BLANK {
        return;
    }
    put_node(list, p, OWNER, m);
    set_transition(list, q, x, p, 0);
    fill_commands(list, p, p, 3, Some(x));
}

// Adds node p to machine m at a high cost: node q has a transition to it for a command that is seldom in use. By every command p leads back into the
// machine, and it may have a machine below it.
fn add_dear(list: &mut Book, seed: &mut u64, m: u32, q: u32, p: u32) {
    let x = other_command(list, seed);
    put_node(list, p, OWNER, m);
    set_transition(list, q, x, p, 60000 + draw(seed, 999) % 999);
    fill_commands(list, p, q, 9, None);
    connect(list, seed, p, 9);
    if once_in(seed, 2) {
        let below = find(list, seed, Wanted::FreeMachine);
        let k = find(list, seed, Wanted::Free);
        if let (Some(below), Some(k)) = (below, k) {
            refine(list, p, below, k);
        }
    }
}

// Adds a state to machine m, reached from one of its nodes.
fn add_state(list: &mut Book, seed: &mut u64, m: u32) {
    let q = find(list, seed, Wanted::OfMachine(m));
    let p = find(list, seed, Wanted::Free);
    let (Some(q), Some(p)) = (q, p) else {
        return;
    };
    if q == machine(list, m, START) || once_in(seed, 2) {
        let x = draw(seed, 16);
        add_free(list, m, q, x, p);
    } else {
        add_dear(list, seed, m, q, p);
    }
}

// Adds states below node n.
fn add_states(list: &mut Book, seed: &mut u64, n: u32) {
    for _ in 0..3 {
        if let Some(m) = find(list, seed, Wanted::HeldMachine(n)) {
            add_state(list, seed, m);
        }
    }
}

// Gives a machine below node n a leaving charge, where it has none, and gives its number.
fn give_leaving(list: &mut Book, seed: &mut u64, n: u32) -> Option<u32> {
    let m = find(list, seed, Wanted::HeldMachine(n))?;
    if machine(list, m, LEAVE) == 0 {
        put_machine(list, m, LEAVE, 1 + draw(seed, 40) % 40);
    }
    Some(m)
}

// Takes some of machine m's leaving charge away, and adds as much to every exit: a new start node leads to the old one by every command, at this cost.
fn move_cost(list: &mut Book, seed: &mut u64, m: u32) {
    let s = find(list, seed, Wanted::Free);
    let leave = machine(list, m, LEAVE);
    let d = draw(seed, leave) % 65535 + 1;
    let Some(s) = s else {
        return;
    };
    if d > leave {
        return;
    }
    put_machine(list, m, LEAVE, leave - d);
    put_node(list, s, OWNER, m);
    fill_commands(list, s, machine(list, m, START), d, None);
    put_machine(list, m, START, s);
}

// Whether node n is the start node of its machine.
fn is_start(list: &Book, n: u32) -> bool {
    machine(list, node(list, n, OWNER), START) == n
}

// Another cost: a little more, or 0.
fn change_cost(seed: &mut u64, c: u32) -> u32 {
    if c == 0 || once_in(seed, 2) {
        return c % 65536 + 1 + draw(seed, 30) % 30;
    }
    0
}

// Changes a transition of a start node below node n: another cost, or it goes.
fn change_transition(list: &mut Book, seed: &mut u64, n: u32, gone: bool) {
    let from = draw(seed, 4096) % 4096;
    for i in 0..4096 {
        let at = (from + i) % 4096;
        let w = transition(list, at / 16, at % 16);
        if w != BLANK && is_start(list, at / 16) && beneath(list, n, at / 16) {
            let c = change_cost(seed, w % 65536);
            set_transition(list, at / 16, at % 16, w / 65536, c);
            if gone {
                put_node(list, at / 16, 2 + at % 16, BLANK);
            }
            return;
        }
    }
}

// Changes the leaving charge of the machine below node n.
fn change_leaving(list: &mut Book, seed: &mut u64, n: u32) {
    let m = node(list, n, BELOW);
    let c = any_cost(seed, 30) % 65536;
    put_machine(
        list,
        m,
        LEAVE,
        (machine(list, m, LEAVE) % 65536 + 1 + c) % 65536,
    );
}

// Makes the second book from the first: what is below node n, replaced in a way. Where cost is to be moved, the first gets a leaving charge if it has
// none.
pub fn replace(first: &mut Book, second: &mut Book, seed: &mut u64, n: u32, way: Way) {
    let charged = if way == Way::CostMoved || way == Way::AllThree {
        give_leaving(first, seed, n)
    } else {
        None
    };
    *second = *first;
    match way {
        Way::StatesAdded | Way::AllThree => add_states(second, seed, n),
        Way::CostChanged => change_transition(second, seed, n, false),
        Way::LeavingChanged => change_leaving(second, seed, n),
        Way::TransitionGone => change_transition(second, seed, n, true),
        Way::Renumbered | Way::CostMoved => {}
    }
    if let Some(m) = charged {
        move_cost(second, seed, m);
    }
    if way == Way::Renumbered || way == Way::AllThree || once_in(seed, 3) {
        renumber(second, seed, n);
    }
}
