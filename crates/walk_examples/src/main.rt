// Walkers, run (document 02, W-206): on the mast book, whose node 1 holds the states 10 and 11. A line says what a call answered, a refusal as `no`
// and its number, and then where the walkers stand.
#![tactic(auto)]

use stepping::Moved;
use trying::{MAST, number, numbers, say_no, status, text};

// A book and a sheet.
type Book = [u32; book::BOOK];

type Sheet = [u32; sheet::SHEET];

// Writes ` at` and every state of a list, and ends the line.
fn show_states(walkers: &[u32]) {
    text(b" at");
    numbers(walkers);
    text(b"\n");
}

// Opens walkers, and writes a text and the number of the refusal, or 0.
fn show_opening(t: &[u8], book: &[u32], node: u32, limit: u32, walkers: &[u32]) {
    text(t);
    let answer = walking::open_walkers(book, node, limit, walkers);
    number(status(answer.err()));
    show_states(walkers);
}

// Writes the state, the cost and the node whose transition was used.
fn show_moved(moved: Moved) {
    number(moved.state);
    number(moved.cost);
    number(moved.node);
}

// Gives a walker a command, and writes a text, the state, the cost and the node whose transition was used, or the refusal.
fn show_walk(
    t: &[u8],
    book: &[u32],
    node: u32,
    limit: u32,
    walkers: &mut [u32],
    walker: u32,
    command: u32,
) {
    text(t);
    match walking::walk(book, node, limit, walkers, walker, command) {
        Ok(moved) => show_moved(moved),
        Err(refusal) => say_no(refusal),
    }
    show_states(walkers);
}

// At most one inside node 1, which is refined.
fn show_refined(book: &[u32]) {
    let mut w = [0u32, 0, 2];
    show_opening(b"node 1, limit 1:", book, 1, 1, &w);
    show_walk(b"0 goes in:", book, 1, 1, &mut w, 0, 0);
    show_walk(b"1 may not:", book, 1, 1, &mut w, 1, 0);
    show_walk(b"0 inside at the limit:", book, 1, 1, &mut w, 0, 2);
    show_walk(b"1 stays outside by 2:", book, 1, 1, &mut w, 1, 2);
    show_walk(b"0 goes out:", book, 1, 1, &mut w, 0, 1);
    show_walk(b"2 goes on outside:", book, 1, 1, &mut w, 2, 0);
    show_walk(b"2 goes in:", book, 1, 1, &mut w, 2, 0);
    show_walk(b"2 stops:", book, 1, 1, &mut w, 2, 0);
    show_walk(b"2 to where it is:", book, 1, 1, &mut w, 2, 1);
}

// Inside a plain node, and the state that a step leads to, not the target of its transition: from 0 by command 0 the target is node 1, the
// state 10.
fn show_plain(book: &[u32]) {
    let mut w = [11u32, 0];
    show_walk(b"node 2, limit 1, 0 goes in:", book, 2, 1, &mut w, 0, 1);
    show_walk(b"1 may not:", book, 2, 1, &mut w, 1, 2);
    let mut v = [0u32, 0];
    show_walk(b"node 10, limit 0, 0 may not:", book, 10, 0, &mut v, 0, 0);
    show_walk(b"node 11, limit 0, 0 may:", book, 11, 0, &mut v, 0, 0);
    show_walk(b"and no further:", book, 11, 0, &mut v, 0, 2);
}

// No walker, eight and nine; limits of 0, 8 and 9; two at one state.
fn show_bounds(book: &[u32]) {
    let none = [0u32; 0];
    show_opening(b"no walker:", book, 1, 0, &none);
    let eight = [10u32; 8];
    show_opening(b"eight inside, limit 8:", book, 1, 8, &eight);
    show_opening(b"eight inside, limit 7:", book, 1, 7, &eight);
    show_opening(b"eight outside, limit 0:", book, 11, 0, &eight);
    let nine = [0u32; 9];
    show_opening(b"nine:", book, 1, 8, &nine);
    show_opening(b"limit 9:", book, 1, 9, &none);
    let mut w = [10u32; 8];
    show_walk(b"the last of eight:", book, 1, 8, &mut w, 7, 2);
    show_walk(b"a ninth:", book, 1, 8, &mut w, 8, 2);
}

// What the opening refuses, and a walker command in the same order.
fn show_refusals(book: &[u32]) {
    let mut w = [0u32, 10];
    show_opening(b"node 256:", book, 256, 1, &w);
    show_opening(b"node 3, which is not in use:", book, 3, 1, &w);
    show_opening(b"too many inside:", book, 0, 0, &w);
    show_walk(b"limit 9 before node 256:", book, 256, 9, &mut w, 0, 0);
    show_walk(b"node 3 before walker 2:", book, 3, 1, &mut w, 2, 0);
    show_walk(b"too many before walker 2:", book, 1, 0, &mut w, 2, 0);
    show_walk(b"walker 2:", book, 1, 1, &mut w, 2, 0);
    show_walk(b"command 16:", book, 1, 1, &mut w, 0, 16);
    show_walk(b"command 1, which stops:", book, 1, 1, &mut w, 0, 1);
    w[1] = 256;
    show_walk(b"a state of 256:", book, 1, 1, &mut w, 0, 0);
    w[1] = 3;
    show_walk(b"a state that is not in use:", book, 1, 1, &mut w, 0, 0);
    w[1] = 1;
    show_walk(b"a node that is no state:", book, 1, 1, &mut w, 0, 0);
    w[0] = 256;
    show_walk(b"a state of 256 before it:", book, 1, 1, &mut w, 0, 0);
}

// A book that is not well formed, and one of a wrong length.
fn show_books() {
    let mut w = [0u32];
    let torn = [0u32; book::BOOK];
    show_walk(b"a torn book, limit 9:", &torn, 1, 9, &mut w, 0, 0);
    let short = [0u32; book::BOOK - 1];
    show_walk(b"a word short:", &short, 1, 9, &mut w, 0, 0);
}

fn main() {
    let mut book = [0u32; book::BOOK];
    let mut sheet = [0u32; sheet::SHEET];
    let _ = opening::open_fresh(&mut book, &mut sheet);
    loading::load(&mut book, &mut sheet, &MAST);
    show_refined(&book);
    show_plain(&book);
    show_bounds(&book);
    show_refusals(&book);
    show_books();
}
