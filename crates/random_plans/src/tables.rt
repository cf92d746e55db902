// Random tables (document 02, W-208), whether they open, by counts over their rows, and the test's own station of those that do.
use crate::chance::{Wanted, pick};
use crate::edits;
use crate::station::{
    BELOW, HOLDER, LEVELS, MACHINES, NONE, OWNER, ROOT, START, Station, WORDS, depth, get,
    is_start, put,
};
use trying::{draw, once_in};

// The most rows, and their words: owner, machine below and start of each.
pub const ROWS: u32 = 189;

pub type Rows = [u32; 567];

// Why a table does not open: a row by itself, the starts or holders of a machine, the roots, or the levels.
#[derive(Clone, Copy)]
pub enum Fault {
    Row,
    Starts,
    Roots,
    Levels,
}

// The number at place k of row n; "none" outside.
fn cell(rows: &Rows, n: u32, k: u32) -> u32 {
    if n >= ROWS {
        return NONE;
    }
    if k >= 3 {
        return NONE;
    }
    rows[3 * (n as usize) + k as usize]
}

// Writes the number at place k of row n; outside, nothing.
fn set_cell(rows: &mut Rows, n: u32, k: u32, w: u32) {
    if n >= ROWS {
        return;
    }
    if k < 3 {
        rows[3 * (n as usize) + k as usize] = w;
    }
}

// Gives the tree of a table one node more, below the limit: in a machine, or with a new machine below a state, now and then on a ninth level.
fn grow(s: &mut Station, seed: &mut u64, limit: u32) {
    let n = draw(seed, limit);
    if get(s, OWNER, n) != NONE {
        return;
    }
    if once_in(seed, 3) {
        let m = pick(s, seed, Wanted::FreeMachine, 0);
        let kind = if once_in(seed, 2) {
            Wanted::Lowest
        } else {
            Wanted::High
        };
        let p = pick(s, seed, kind, depth(s));
        edits::refine(s, p, m, n);
    } else {
        let m = pick(s, seed, Wanted::UsedMachine, 0);
        edits::add(s, m, n);
    }
}

// Writes the rows of a tree.
fn write_rows(s: &Station, rows: &mut Rows) {
    for n in 0..ROWS {
        set_cell(rows, n, 0, get(s, OWNER, n));
        set_cell(rows, n, 1, get(s, BELOW, n));
        set_cell(rows, n, 2, u32::from(is_start(s, n)));
    }
}

// A number that may be wrong at place k of a row.
fn any_number(s: &Station, seed: &mut u64, k: u32) -> u32 {
    if k == 2 {
        return draw(seed, 3);
    }
    let kind = draw(seed, 6);
    match kind {
        0 | 1 => NONE,
        2 => 64,
        3 => pick(s, seed, Wanted::FreeMachine, 0),
        _ => pick(s, seed, Wanted::UsedMachine, 0),
    }
}

// Changes one number of a table, most often in a row that is in use.
fn damage(s: &Station, seed: &mut u64, rows: &mut Rows) {
    let n = if once_in(seed, 4) {
        draw(seed, ROWS)
    } else {
        pick(s, seed, Wanted::Used, 0)
    };
    let k = draw(seed, 3);
    let w = any_number(s, seed, k);
    set_cell(rows, n, k, w);
}

// Makes a random table, damaged half of the time, and gives how many rows it has; now and then rows are cut off.
pub fn make(seed: &mut u64, rows: &mut Rows) -> u32 {
    let limit = draw(seed, ROWS) + 1;
    let nodes = draw(seed, 60);
    let mut s = [NONE; WORDS];
    let m = draw(seed, MACHINES);
    let n = draw(seed, limit);
    edits::begin(&mut s, m, n);
    for _ in 0..nodes {
        grow(&mut s, seed, limit);
    }
    write_rows(&s, rows);
    if once_in(seed, 2) {
        damage(&s, seed, rows);
        if once_in(seed, 3) {
            damage(&s, seed, rows);
        }
    }
    if once_in(seed, 12) {
        return draw(seed, limit);
    }
    limit
}

// How many of the first rows have m at place k, and a start of at least so much.
fn rows_with(rows: &Rows, count: u32, k: u32, m: u32, start: u32) -> usize {
    (0..count)
        .filter(|n| cell(rows, *n, k) == m && cell(rows, *n, 2) >= start)
        .count()
}

// Whether a row is wrong by itself.
fn wrong_row(rows: &Rows, n: u32) -> bool {
    let owner = cell(rows, n, 0);
    let below = cell(rows, n, 1);
    let start = cell(rows, n, 2);
    if owner == NONE {
        return below != NONE || start != 0;
    }
    owner >= MACHINES || below >= MACHINES && below != NONE || start > 1
}

// Whether a machine has rows but not one start, or more than one holder; or is held and has no rows.
fn wrong_machine(rows: &Rows, count: u32, m: u32) -> bool {
    let holders = rows_with(rows, count, 1, m, 0);
    if rows_with(rows, count, 0, m, 0) == 0 {
        return holders != 0;
    }
    holders > 1 || rows_with(rows, count, 0, m, 1) != 1
}

// Whether a machine has rows and no row holds it.
fn is_root(rows: &Rows, count: u32, m: u32) -> bool {
    rows_with(rows, count, 0, m, 0) != 0 && rows_with(rows, count, 1, m, 0) == 0
}

// Gives the own station the node of a row, and transitions to and from the node of its machine before it.
fn fill_row(s: &mut Station, last: &mut [Option<u32>; 64], rows: &Rows, n: u32) {
    let m = cell(rows, n, 0);
    if m >= MACHINES {
        return;
    }
    edits::add(s, m, n);
    let below = cell(rows, n, 1);
    put(s, BELOW, n, below);
    put(s, HOLDER, below, n);
    if cell(rows, n, 2) == 1 {
        put(s, START, m, n);
    }
    let before = last[m as usize];
    last[m as usize] = Some(n);
    if let Some(before) = before {
        edits::set_transition(s, n, 0, before, 1);
        edits::set_transition(s, before, 1, n, 1);
    }
}

// Makes the own station of a table.
fn fill(s: &mut Station, rows: &Rows, count: u32) {
    edits::empty(s);
    let mut last = [None; 64];
    for m in 0..MACHINES {
        if is_root(rows, count, m) {
            put(s, ROOT, 0, m);
        }
    }
    for n in 0..count {
        fill_row(s, &mut last, rows, n);
    }
}

// Makes the own station of a table that opens; else it stays, and the answer says why.
pub fn open(s: &mut Station, rows: &Rows, count: u32) -> Result<(), Fault> {
    if (0..count).any(|n| wrong_row(rows, n)) {
        return Err(Fault::Row);
    }
    if (0..MACHINES).any(|m| wrong_machine(rows, count, m)) {
        return Err(Fault::Starts);
    }
    if (0..MACHINES).filter(|m| is_root(rows, count, *m)).count() != 1 {
        return Err(Fault::Roots);
    }
    let mut next = [NONE; WORDS];
    fill(&mut next, rows, count);
    if depth(&next) > LEVELS {
        return Err(Fault::Levels);
    }
    *s = next;
    Ok(())
}
