// What is below a node, replaced (document 02, W-210). The worked pairs: the mast book with a leaving charge and the same with other machines below
// node 1; the mast book and the same with one transition less, which misses the hypothesis by one command. Then random pairs of books, alike but for
// what is below a node: whether they meet the hypothesis, every least cost between states outside the node by a flat search of the program's own, and
// from one of these states by Plan too.
#![tactic(auto)]

mod chance;
mod compare;
mod flat;
mod making;
mod replacing;
mod tally;
mod words;

use chance::{Wanted, find};
use compare::plan_cost;
use replacing::{Way, replace};
use tally::{Tally, lines};
use trying::{MAST, number, once_in, say, say_no, text};
use words::{Book, Sheet};

// So many pairs of books are made in each way.
const PAIRS: u32 = 120;

// After the mast book, leaving machine 1 costs 3.
const CHARGED: &[u8] = b"\x1B\x01\x00\x03\x18";

// After it, machine 5 is in the place of machine 1, with machine 6 below it, as in the worked pair.
const SWAPPED: &[u8] =
    b"\x13\x00\x01\x11\x00\x00\x01\x12\x00\x01\x05\x00\x17\x11\x05\x00\x14\x11\x05\x00\x15\x11\x05\x00\x16\x12\x00\x16\x06\x00\x1E\x11\x06\x00\x1F\x14\x00\x00\x00\x00\x01\x00\x05\x14\x00\x01\x01\x00\x02\x00\x03\x14\x00\x14\x01\x00\x14\x00\x09\x14\x00\x14\x02\x00\x15\x00\x04\x14\x00\x15\x05\x00\x16\x00\x07\x14\x00\x1E\x03\x00\x1F\x00\x06\x1A\x00\x1F\x01\x1B\x05\x00\x01\x1B\x06\x00\x02\x14\x00\x17\x00\x00\x14\x00\x02\x14\x00\x17\x01\x00\x14\x00\x02\x14\x00\x17\x02\x00\x14\x00\x02\x14\x00\x17\x03\x00\x14\x00\x02\x14\x00\x17\x04\x00\x14\x00\x02\x14\x00\x17\x05\x00\x14\x00\x02\x14\x00\x17\x06\x00\x14\x00\x02\x14\x00\x17\x07\x00\x14\x00\x02\x14\x00\x17\x08\x00\x14\x00\x02\x14\x00\x17\x09\x00\x14\x00\x02\x14\x00\x17\x0A\x00\x14\x00\x02\x14\x00\x17\x0B\x00\x14\x00\x02\x14\x00\x17\x0C\x00\x14\x00\x02\x14\x00\x17\x0D\x00\x14\x00\x02\x14\x00\x17\x0E\x00\x14\x00\x02\x14\x00\x17\x0F\x00\x14\x00\x02\x18";

// After it, node 10's transition for command 1 is cleared.
const MISSED: &[u8] = b"\x15\x00\x0A\x01\x18";

// Opens a book and its sheet and loads the mast book, and more after it.
fn load(list: &mut Book, sheet: &mut Sheet, more: &[u8]) {
    let _ = opening::open_fresh(list, sheet);
    loading::load(list, sheet, &MAST);
    loading::load(list, sheet, b"\x18");
    loading::load(list, sheet, more);
}

// Writes Exit's answer: the cost, or `no` and the refusal.
fn show_exit(list: &Book, sheet: &Sheet, m: u32, x: u32) {
    match exiting::exit(list, sheet, m, x) {
        Ok(cost) => number(cost),
        Err(refusal) => say_no(refusal),
    }
}

// Writes a text and the exit costs of machine m for all commands.
fn show_exits(t: &[u8], list: &Book, sheet: &Sheet, m: u32) {
    text(t);
    for x in 0..16 {
        show_exit(list, sheet, m, x);
    }
    text(b"\n");
}

// Writes a text and what the plans between the mast book's states outside node 1 cost.
fn show_plans(t: &[u8], list: &Book, sheet: &Sheet) {
    text(t);
    say(b" plan 0 to 0:", plan_cost(list, sheet, 0, 0));
    say(b", 0 to 2:", plan_cost(list, sheet, 0, 2));
    say(b", 2 to 0:", plan_cost(list, sheet, 2, 0));
    say(b", 2 to 2:", plan_cost(list, sheet, 2, 2));
    text(b"\n");
}

// Writes what is counted of one pair of books.
fn show_pair(t: &[u8], first: &Book, second: &Book, n: u32) {
    let mut tally = Tally::default();
    let mut seed = 1u64;
    compare::compare(first, second, n, &mut seed, &mut tally);
    text(t);
    lines(&tally);
}

// The mast book with more after it, the exits of its machine m, and its plans.
fn show_book(list: &mut Book, more: &[u8], exits: &[u8], m: u32, plans: &[u8]) {
    let mut sheet = [7u32; sheet::SHEET];
    load(list, &mut sheet, more);
    show_exits(exits, list, &sheet, m);
    show_plans(plans, list, &sheet);
}

// The worked pair.
fn show_charged() {
    let mut charged = [7u32; book::BOOK];
    let mut swapped = [7u32; book::BOOK];
    show_book(
        &mut charged,
        CHARGED,
        b"mast book, machine 1, leaving 3, exits:",
        1,
        b"mast book, leaving 3:",
    );
    show_book(
        &mut swapped,
        SWAPPED,
        b"machine 5 in its place, leaving 1, exits:",
        5,
        b"machine 5 in its place:",
    );
    show_pair(b"these two:\n", &charged, &swapped, 1);
}

// The pair that misses the hypothesis by command 1.
fn show_missed() {
    let mut mast = [7u32; book::BOOK];
    let mut missed = [7u32; book::BOOK];
    show_book(
        &mut mast,
        b"",
        b"mast book, machine 1, exits:",
        1,
        b"mast book:",
    );
    show_book(
        &mut missed,
        MISSED,
        b"10's 1 cleared, machine 1, exits:",
        1,
        b"10's 1 cleared:",
    );
    show_pair(b"these two:\n", &mast, &missed, 1);
}

// A random pair of books, replaced in a way.
fn run_pair(seed: &mut u64, way: Way, most: u32, tally: &mut Tally) {
    let mut first = [0u32; book::BOOK];
    making::make(&mut first, seed, most);
    let Some(n) = find(&first, seed, Wanted::Refined) else {
        return;
    };
    making::favour(&mut first, seed, n);
    let mut second = [0u32; book::BOOK];
    replace(&mut first, &mut second, seed, n, way);
    if first == second {
        return;
    }
    if once_in(seed, 2) {
        compare::compare(&first, &second, n, seed, tally);
    } else {
        compare::compare(&second, &first, n, seed, tally);
    }
}

// Random pairs of books, replaced in a way.
fn run_way(t: &[u8], mut seed: u64, way: Way) {
    let mut tally = Tally::default();
    for i in 0..PAIRS {
        let most = if i % 3 == 0 { 65536 } else { 12 };
        run_pair(&mut seed, way, most, &mut tally);
    }
    text(t);
    lines(&tally);
}

fn main() {
    show_charged();
    show_missed();
    run_way(b"renumbered:\n", 20261117, Way::Renumbered);
    run_way(b"states added:\n", 20261118, Way::StatesAdded);
    run_way(
        b"cost moved between exit and leaving:\n",
        20261119,
        Way::CostMoved,
    );
    run_way(b"all three:\n", 20261120, Way::AllThree);
    run_way(b"a cost inside changed:\n", 20261121, Way::CostChanged);
    run_way(
        b"the leaving charge changed:\n",
        20261122,
        Way::LeavingChanged,
    );
    run_way(
        b"a transition inside gone:\n",
        20261123,
        Way::TransitionGone,
    );
}
