// Books by command, run (document 02, W-209): the mast book's words at their places by command; turning there and back, and what it refuses; each
// call on both layouts with document 01's numbers and each refusal; and every call on random, torn and short books. `same` says that answer and
// every word left are the same on either layout.
#![tactic(auto)]

mod both;
mod calls;
mod chance;
mod layout;
mod random;
mod tally;
mod turns;

use calls::{
    show_exits, show_lists, show_loads, show_merges, show_openings, show_plans, show_refused,
    show_steps, show_walkers,
};
use layout::{Book, Sheet, turn};
use tally::{NOTHING, Tally, line, show};
use trying::{MAST, text};

// The mast book, loaded on both layouts; by command it is then the program's own turn of the book by node.
fn load_mast(book: &mut Book, other: &mut Book, sheet: &mut Sheet, second: &mut Sheet) {
    show(b"open fresh:", both::open_fresh(book, other, sheet, second));
    show(
        b"load the mast book:",
        both::load(book, other, sheet, second, &MAST),
    );
    turn(book, other);
}

// Refreshes a book by node.
fn refresh(book: &mut Book, sheet: &mut Sheet) {
    loading::load(book, sheet, b"\x18");
}

// The calls on the mast book, as it is loaded and refreshed.
fn examples(mast: &Book, turned: &Book, marked: &Sheet) {
    let mut book = *mast;
    let mut sheet = *marked;
    refresh(&mut book, &mut sheet);
    show_openings();
    show_loads(mast, turned, marked);
    show_exits(mast, turned, &sheet, marked);
    show_steps(mast, turned);
    show_plans(mast, turned, &sheet, marked);
    show_lists(mast, turned);
    show_merges(mast, turned);
    show_walkers(mast, turned);
    show_refused(mast, turned, &sheet);
}

// A line for each call: how often it answered each number, and how much was different by command.
fn show_tally(tally: &Tally) {
    text(b"random, torn and short books, how often each number was answered:\n");
    line(b"open fresh", &tally.fresh);
    line(b"open ladder", &tally.ladder);
    line(b"open from a table", &tally.table);
    line(b"load", &tally.load);
    line(b"exit", &tally.exit);
    line(b"step", &tally.step);
    line(b"plan", &tally.plan);
    line(b"write", &tally.write);
    line(b"choice", &tally.choice);
    line(b"choose", &tally.choose);
    line(b"merge", &tally.merge);
    line(b"open walkers", &tally.open_walkers);
    line(b"walk", &tally.walk);
}

// Random books, torn ones, and lists of other lengths.
fn compare_random(mast: &Book, turned: &Book) {
    let mut seed = 20250209u64;
    let mut tally = NOTHING;
    for i in 0..40 {
        random::run_book(i % 4 == 3, mast, turned, &mut seed, &mut tally);
    }
    random::run_wrong(mast, turned, &mut seed, &mut tally);
    show_tally(&tally);
}

fn main() {
    let mut book = [7u32; book::BOOK];
    let mut other = [7u32; book::BOOK];
    let mut sheet = [7u32; sheet::SHEET];
    let mut second = [7u32; sheet::SHEET];
    load_mast(&mut book, &mut other, &mut sheet, &mut second);
    turns::show_places(&book);
    turns::show_turns(&book);
    turns::refuse_turns();
    examples(&book, &other, &sheet);
    compare_random(&book, &other);
}
