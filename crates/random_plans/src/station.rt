// The test's own station: one tree in a list of words, laid out in a way of its own. Nothing here reads a word of a book or a sheet.
pub const NODES: u32 = 256;

pub const MACHINES: u32 = 64;

pub const COMMANDS: u32 = 16;

pub const LEVELS: u32 = 8;

pub const NONE: u32 = 65535;

// The fields, with a word for each node or machine: owner and machine below of a node, start, holder and mark of a machine; the root at 0 of
// its field; for each command a field of targets and one of costs; the hold of a node, 1 where it is held; and the leaving charge of a
// machine. They are numbers, and no enum, since places are reckoned with them: TARGET + x.
pub const OWNER: u32 = 0;

pub const BELOW: u32 = 1;

pub const START: u32 = 2;

pub const HOLDER: u32 = 3;

pub const MARK: u32 = 4;

pub const ROOT: u32 = 5;

pub const TARGET: u32 = 6;

pub const COST: u32 = 22;

pub const HOLD: u32 = 38;

pub const LEAVE: u32 = 39;

pub const FIELDS: u32 = 40;

// The words of all fields.
pub const WORDS: usize = 10240;

pub type Station = [u32; WORDS];

// What a field has at a number; "none" outside.
pub fn get(s: &Station, field: u32, i: u32) -> u32 {
    if field >= FIELDS {
        return NONE;
    }
    if i >= NODES {
        return NONE;
    }
    s[256 * (field as usize) + i as usize]
}

// Writes a field at a number; outside, nothing.
pub fn put(s: &mut Station, field: u32, i: u32, w: u32) {
    if field >= FIELDS {
        return;
    }
    if i < NODES {
        s[256 * (field as usize) + i as usize] = w;
    }
}

// The target, or with COST the cost, of node n's transition for x; "none" where there is none.
pub fn transition(s: &Station, field: u32, n: u32, x: u32) -> u32 {
    if x >= COMMANDS {
        return NONE;
    }
    get(s, field % 64 + x, n)
}

// Whether node n is in use and plain.
pub fn is_state(s: &Station, n: u32) -> bool {
    get(s, OWNER, n) != NONE && get(s, BELOW, n) == NONE
}

// Whether node n is the start node of its machine.
pub fn is_start(s: &Station, n: u32) -> bool {
    get(s, START, get(s, OWNER, n)) == n
}

// Whether node n is held.
pub fn is_held(s: &Station, n: u32) -> bool {
    get(s, HOLD, n) == 1
}

// Whether machine m is in use and not the root.
pub fn is_lower(s: &Station, m: u32) -> bool {
    get(s, START, m) != NONE && m != get(s, ROOT, 0)
}

// What leaving node n's machine costs.
pub fn leaving(s: &Station, n: u32) -> u32 {
    get(s, LEAVE, get(s, OWNER, n))
}

// The node that holds node n's machine; none at the root's nodes.
pub fn above(s: &Station, n: u32) -> u32 {
    get(s, HOLDER, get(s, OWNER, n))
}

// Whether node k is n or stands below it.
pub fn within(s: &Station, n: u32, k: u32) -> bool {
    let mut at = k;
    for _ in 0..LEVELS {
        if at == n {
            return true;
        }
        at = above(s, at);
    }
    false
}

// The level of a node, 1 in the root.
pub fn level(s: &Station, n: u32) -> u32 {
    let mut at = n;
    for k in 0..99 {
        if at >= NODES {
            return k;
        }
        at = above(s, at);
    }
    99
}

// The greatest level of a node.
pub fn depth(s: &Station) -> u32 {
    let mut most = 1u32;
    for n in 0..NODES {
        most = most.max(level(s, n));
    }
    most
}

// The number of states.
pub fn states(s: &Station) -> u32 {
    (0..NODES).filter(|n| is_state(s, *n)).count() as u32
}

// Whether a field has another number than 0.
fn any_set(s: &Station, field: u32) -> bool {
    (0..NODES).any(|i| get(s, field, i) != 0)
}

// Whether a machine is marked.
pub fn any_marked(s: &Station) -> bool {
    any_set(s, MARK)
}

// Whether a node is held.
pub fn any_held(s: &Station) -> bool {
    any_set(s, HOLD)
}

// Whether leaving a machine costs something.
pub fn any_charged(s: &Station) -> bool {
    any_set(s, LEAVE)
}

// Makes a field 0 at all numbers.
pub fn zero(s: &mut Station, field: u32) {
    for i in 0..NODES {
        put(s, field, i, 0);
    }
}
