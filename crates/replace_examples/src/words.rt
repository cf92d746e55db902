// A book's words, read and written by the program's own code, place by place as documents 01 and 02 have them. Numbers out of range read as "none",
// and nothing is written there.

pub type Book = [u32; book::BOOK];

pub type Sheet = [u32; sheet::SHEET];

pub const NODES: u32 = 256;

pub const NONE: u32 = 65535;

pub const BLANK: u32 = 4294967295;

// The words of a machine: the node that holds it, its start node, its leaving charge.
pub const HOLDER: u32 = 0;

pub const START: u32 = 1;

pub const LEAVE: u32 = 2;

// The words of a node: its machine, the machine below it, from 2 on a transition for each command, its hold. They are numbers, and no enum, since
// places are reckoned with them: 2 + x.
pub const OWNER: u32 = 0;

pub const BELOW: u32 = 1;

pub const HOLD: u32 = 18;

// Where word k of machine m stands; behind the book where there is none.
fn machine_place(m: u32, k: u32) -> usize {
    if m >= 64 {
        return book::BOOK;
    }
    if k < LEAVE {
        return 1 + 2 * (m as usize) + k as usize;
    }
    4993 + m as usize
}

// Where word k of node n stands; behind the book where there is none.
fn node_place(n: u32, k: u32) -> usize {
    if n >= NODES {
        return book::BOOK;
    }
    if k < HOLD {
        return 129 + 18 * (n as usize) + k as usize;
    }
    4737 + n as usize
}

// Writes the word at a place; behind the book, nothing.
fn put(list: &mut Book, i: usize, w: u32) {
    if i < book::BOOK {
        list[i] = w;
    }
}

// Word k of machine m.
pub fn machine(list: &Book, m: u32, k: u32) -> u32 {
    let i = machine_place(m, k);
    if i < book::BOOK { list[i] } else { NONE }
}

// Word k of node n.
pub fn node(list: &Book, n: u32, k: u32) -> u32 {
    let i = node_place(n, k);
    if i < book::BOOK { list[i] } else { NONE }
}

// Writes word k of machine m.
pub fn put_machine(list: &mut Book, m: u32, k: u32, w: u32) {
    put(list, machine_place(m, k), w);
}

// Writes word k of node n.
pub fn put_node(list: &mut Book, n: u32, k: u32, w: u32) {
    put(list, node_place(n, k), w);
}

// The word of node n's transition for x.
pub fn transition(list: &Book, n: u32, x: u32) -> u32 {
    if n >= NODES {
        return BLANK;
    }
    node(list, n, 2 + x % 16)
}

// Gives node n a transition for x to node v at a cost.
pub fn set_transition(list: &mut Book, n: u32, x: u32, v: u32, c: u32) {
    if v < NODES {
        put_node(list, n, 2 + x % 16, 65536 * v + c % 65536);
    }
}

// The node that holds node n's machine; none at the root's nodes.
pub fn above(list: &Book, n: u32) -> u32 {
    machine(list, node(list, n, OWNER), HOLDER)
}

// Whether node k is n or below it.
pub fn within(list: &Book, n: u32, k: u32) -> bool {
    let mut at = k;
    for _ in 0..8 {
        if at == n {
            return true;
        }
        at = above(list, at);
    }
    false
}

// Whether node k is below n.
pub fn beneath(list: &Book, n: u32, k: u32) -> bool {
    k != n && within(list, n, k)
}

// Whether machine m is below node n.
pub fn held(list: &Book, n: u32, m: u32) -> bool {
    let h = machine(list, m, HOLDER);
    h < NODES && within(list, n, h)
}

// Whether node n is in use and plain.
pub fn is_state(list: &Book, n: u32) -> bool {
    node(list, n, OWNER) != NONE && node(list, n, BELOW) == NONE
}

// Whether node a is a state, and neither n nor below it.
pub fn outside(list: &Book, n: u32, a: u32) -> bool {
    is_state(list, a) && !within(list, n, a)
}

// What stands at word k of a node that is not in use.
fn unused(k: u32) -> u32 {
    if k < 2 {
        return NONE;
    }
    if k < HOLD { BLANK } else { 0 }
}

// Makes node n one that is not in use.
pub fn clear_node(list: &mut Book, n: u32) {
    for k in 0..19 {
        put_node(list, n, k, unused(k));
    }
}

// Makes machine m one that is not in use.
pub fn clear_machine(list: &mut Book, m: u32) {
    put_machine(list, m, HOLDER, NONE);
    put_machine(list, m, START, NONE);
    put_machine(list, m, LEAVE, 0);
}

// Makes all nodes and machines not in use.
pub fn clear_all(list: &mut Book) {
    for k in 0..NODES {
        clear_node(list, k);
        clear_machine(list, k);
    }
}

// Makes all below node n not in use, by what another list says of it.
pub fn clear_below(list: &mut Book, from: &Book, n: u32) {
    for k in 0..NODES {
        if beneath(from, n, k) {
            clear_node(list, k);
        }
        if held(from, n, k) {
            clear_machine(list, k);
        }
    }
    put_node(list, n, BELOW, NONE);
}
