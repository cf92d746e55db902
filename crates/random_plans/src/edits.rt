// What the commands of a stream do to the test's own station, as documents 01 and 02 say of the expected station, and what they mark.
use crate::station::{
    BELOW, COMMANDS, COST, HOLD, HOLDER, LEAVE, LEVELS, MACHINES, MARK, NODES, NONE, OWNER, ROOT,
    START, Station, TARGET, WORDS, get, put, transition, within, zero,
};

// Clears every mark.
pub fn unmark(s: &mut Station) {
    zero(s, MARK);
}

// Releases every node.
fn release(s: &mut Station) {
    zero(s, HOLD);
}

// Takes away every leaving charge.
fn waive(s: &mut Station) {
    zero(s, LEAVE);
}

// Marks machine m and all above it.
fn mark_up(s: &mut Station, m: u32) {
    let mut at = m;
    for _ in 0..LEVELS {
        put(s, MARK, at, 1);
        at = get(s, OWNER, get(s, HOLDER, at));
    }
}

// Empties the station.
pub fn empty(s: &mut Station) {
    *s = [NONE; WORDS];
    unmark(s);
    release(s);
    waive(s);
}

// Empties the station, and leaves only machine m, as root, with its start node.
pub fn begin(s: &mut Station, m: u32, n: u32) {
    empty(s);
    put(s, ROOT, 0, m);
    put(s, START, m, n);
    add(s, m, n);
}

// Gives machine m the node n.
pub fn add(s: &mut Station, m: u32, n: u32) {
    put(s, OWNER, n, m);
    mark_up(s, m);
}

// Puts machine m, with its start node, below node n.
pub fn refine(s: &mut Station, n: u32, m: u32, first: u32) {
    put(s, BELOW, n, m);
    put(s, HOLDER, m, n);
    put(s, START, m, first);
    add(s, m, first);
}

// Gives node n a transition for x, or with "none" twice takes it away.
pub fn set_transition(s: &mut Station, n: u32, x: u32, v: u32, c: u32) {
    if x < COMMANDS {
        put(s, TARGET + x, n, v);
        put(s, COST + x, n, c);
    }
}

// Gives node n a transition for x.
pub fn arrow(s: &mut Station, n: u32, x: u32, v: u32, c: u32) {
    set_transition(s, n, x, v, c);
    let m = get(s, OWNER, n);
    mark_up(s, m);
}

// Makes b the hold of node n.
pub fn set_hold(s: &mut Station, n: u32, b: u32) {
    put(s, HOLD, n, b);
    let m = get(s, OWNER, n);
    mark_up(s, m);
}

// Makes c the leaving charge of machine m.
pub fn set_leave(s: &mut Station, m: u32, c: u32) {
    put(s, LEAVE, m, c);
    mark_up(s, m);
}

// Makes node n the start node of its machine.
pub fn restart(s: &mut Station, n: u32) {
    let m = get(s, OWNER, n);
    put(s, START, m, n);
    mark_up(s, m);
}

// Makes machine m the root; its one node n holds the old root.
pub fn crown(s: &mut Station, m: u32, n: u32) {
    let old = get(s, ROOT, 0);
    put(s, BELOW, n, old);
    put(s, HOLDER, old, n);
    put(s, ROOT, 0, m);
    put(s, START, m, n);
    add(s, m, n);
}

// Removes node n, all below it, and the transitions into it. What goes is found before anything is changed.
pub fn remove(s: &mut Station, n: u32) {
    let m = get(s, OWNER, n);
    mark_up(s, m);
    let mut gone = [false; 256];
    find_gone(s, n, &mut gone);
    drop_machines(s, &gone);
    drop_nodes(s, n, &gone);
}

// Whether node n is one of those that go; no number over 255 is.
fn is_gone(gone: &[bool; 256], n: u32) -> bool {
    if n < NODES { gone[n as usize] } else { false }
}

// Finds node n and the nodes below it.
fn find_gone(s: &Station, n: u32, gone: &mut [bool; 256]) {
    for k in 0..NODES {
        gone[k as usize] = within(s, n, k);
    }
}

// Drops the machines that a node which goes holds.
fn drop_machines(s: &mut Station, gone: &[bool; 256]) {
    for m in 0..MACHINES {
        if is_gone(gone, get(s, HOLDER, m)) {
            put(s, HOLDER, m, NONE);
            put(s, START, m, NONE);
            put(s, MARK, m, 0);
            put(s, LEAVE, m, 0);
        }
    }
}

// Drops the nodes that go, and the transitions of the others into node n.
fn drop_nodes(s: &mut Station, n: u32, gone: &[bool; 256]) {
    for k in 0..NODES {
        if is_gone(gone, k) {
            put(s, OWNER, k, NONE);
            put(s, BELOW, k, NONE);
            put(s, HOLD, k, 0);
            drop_transitions(s, k, None);
        } else {
            drop_transitions(s, k, Some(n));
        }
    }
}

// Takes away the transitions of node k into a node, or all of them.
fn drop_transitions(s: &mut Station, k: u32, into: Option<u32>) {
    for x in 0..COMMANDS {
        if into.is_none() || into == Some(transition(s, TARGET, k, x)) {
            set_transition(s, k, x, NONE, NONE);
        }
    }
}

// The station of Open ladder, made by edits: machine m with the nodes 3m, 3m + 1 and 3m + 2, one after the other.
pub fn open_ladder(s: &mut Station) {
    begin(s, 0, 1);
    rung(s, 0);
    for m in 1..63 {
        refine(s, ladder_holder(m), m, 3 * m + 1);
        rung(s, m);
    }
}

// The node that holds machine m of the ladder: node 3k holds machine 2k + 1, node 3k + 2 machine 2k + 2.
fn ladder_holder(m: u32) -> u32 {
    if m == 0 {
        return NONE;
    }
    if m >= 63 {
        return NONE;
    }
    if m % 2 == 1 {
        return (m - 1) / 2 * 3;
    }
    (m - 2) / 2 * 3 + 2
}

// The two other nodes of a machine of the ladder, and the transitions of all three.
fn rung(s: &mut Station, m: u32) {
    if m >= 63 {
        return;
    }
    let n = 3 * m;
    add(s, m, n);
    add(s, m, n + 2);
    arrow(s, n, 1, n + 1, 1);
    arrow(s, n + 1, 1, n + 2, 1);
    arrow(s, n + 1, 0, n, 1);
    arrow(s, n + 2, 0, n + 1, 1);
}
