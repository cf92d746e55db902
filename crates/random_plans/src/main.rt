// Random books, with nodes held and with none, with leaving charges and with none, edited by random streams and planned for pairs of states;
// some are opened from random tables, and damaged tables are refused. All that Open, Load and Plan answer and leave is compared with a station
// of the test's own, kept from the tables' rows and the streams' bytes alone, and with a flat search on it. Then document 01's examples of
// plan buffers and numbers of nodes on the mast book, the longest plan that there can be, and the dearest.
#![tactic(auto)]

mod chance;
mod compare;
mod edits;
mod flat;
mod making;
mod shapes;
mod station;
mod stream;
mod tables;
mod tally;

use chance::{Wanted, pick};
use compare::{
    Book, Sheet, ask, changed, compare_no, compare_plan, compare_words, load_both, longest,
    open_both,
};
use shapes::{Opening, Shape};
use station::{
    HOLD, LEAVE, NODES, Station, any_charged, any_held, any_marked, is_state, states, zero,
};
use stream::Bytes;
use tally::{Tally, count, differs, line};
use trying::{MAST, Moves, distances, draw, number, once_in, say_no, status, text};

// Opens the holding and the own station, and compares them.
fn open(book: &mut Book, sheet: &mut Sheet, s: &mut Station, ladder: bool, tally: &mut Tally) {
    let opened = if ladder {
        edits::open_ladder(s);
        opening::open_ladder(book, sheet)
    } else {
        edits::begin(s, 0, 0);
        opening::open_fresh(book, sheet)
    };
    if opened != Ok(()) {
        differs(tally, b"opening", 0, status(opened.err()));
    }
    compare_words(book, sheet, s, tally);
}

// Plans from a state to all states.
fn plan_from(
    book: &Book,
    sheet: &Sheet,
    s: &Station,
    moves: &Moves,
    a: u32,
    room: u32,
    tally: &mut Tally,
) {
    let mut costs = [0u32; 256];
    distances(moves, a, &mut costs);
    for b in 0..NODES {
        if is_state(s, b) {
            let lent = if b % 2 == 0 { 255 } else { room };
            compare_plan(book, sheet, s, &costs, a, b, lent, tally);
        }
    }
}

// The moves where a field, that of the holds or of the leaving charges, is 0 at all numbers.
fn moves_without(s: &Station, field: u32, moves: &mut Moves) {
    let mut next = *s;
    zero(&mut next, field);
    flat::all_moves(&next, moves);
}

// Counts the plans from a state among holds and among leaving charges.
fn count_from(
    s: &Station,
    moves: &Moves,
    released: &Moves,
    waived: &Moves,
    a: u32,
    tally: &mut Tally,
) {
    if any_held(s) {
        count(&mut tally.among_holds, states(s) as usize);
        count(&mut tally.changed_by_holds, changed(s, moves, released, a));
    }
    if any_charged(s) {
        count(&mut tally.among_charges, states(s) as usize);
        count(&mut tally.changed_by_charges, changed(s, moves, waived, a));
    }
}

// Plans from all states, or of many states from some, to all states.
fn plan_all(
    book: &Book,
    sheet: &Sheet,
    s: &Station,
    seed: &mut u64,
    sources: u32,
    tally: &mut Tally,
) {
    let mut moves = [0u32; 8192];
    flat::all_moves(s, &mut moves);
    let mut released = [0u32; 8192];
    moves_without(s, HOLD, &mut released);
    let mut waived = [0u32; 8192];
    moves_without(s, LEAVE, &mut waived);
    let all = states(s);
    let room = longest(all);
    for a in 0..NODES {
        if is_state(s, a) {
            if draw(seed, all) < sources {
                count_from(s, &moves, &released, &waived, a, tally);
                plan_from(book, sheet, s, &moves, a, room, tally);
            }
        }
    }
}

// A buffer that is too short by a byte half of the time.
fn odd_room(s: &Station, seed: &mut u64) -> u32 {
    let least = longest(states(s));
    if least != 0 && once_in(seed, 2) {
        return least - 1;
    }
    255
}

// Plans between any numbers with such buffers, where the own station says that they are refused.
fn plan_odd(book: &Book, sheet: &Sheet, s: &Station, seed: &mut u64, tally: &mut Tally) {
    for _ in 0..6 {
        let a = pick(s, seed, Wanted::Any, 0);
        let b = pick(s, seed, Wanted::Any, 0);
        let room = odd_room(s, seed);
        compare_no(book, sheet, s, a, b, room, tally);
    }
}

// Plans in the holding that a stream leaves: while machines are marked, and after a refresh.
fn plan_after(
    book: &mut Book,
    sheet: &mut Sheet,
    s: &mut Station,
    seed: &mut u64,
    sources: u32,
    tally: &mut Tally,
) {
    plan_odd(book, sheet, s, seed, tally);
    if any_marked(s) {
        load_both(book, sheet, s, &[0x18u8; 8192], 1, tally);
        plan_odd(book, sheet, s, seed, tally);
    }
    plan_all(book, sheet, s, seed, sources, tally);
}

// Loads single commands that are most likely refused.
fn run_singles(
    book: &mut Book,
    sheet: &mut Sheet,
    s: &mut Station,
    seed: &mut u64,
    tally: &mut Tally,
) {
    let mut bytes = [0u8; 8192];
    for _ in 0..18 {
        let length = making::single(s, seed, &mut bytes);
        load_both(book, sheet, s, &bytes, length, tally);
    }
}

// Loads a stream that is made for the own station, refreshes, and plans; then single commands.
fn run_stream(
    book: &mut Book,
    sheet: &mut Sheet,
    s: &mut Station,
    seed: &mut u64,
    shape: &Shape,
    first: bool,
    tally: &mut Tally,
) {
    let mut next = *s;
    let mut bytes = [0u8; 8192];
    let length = making::stream(&mut next, seed, shape, first, &mut bytes);
    load_both(book, sheet, s, &bytes, length, tally);
    plan_after(book, sheet, s, seed, shape.sources, tally);
    run_singles(book, sheet, s, seed, tally);
}

// Counts a book, and whether it has a leaving charge at its end.
fn count_book(s: &Station, tally: &mut Tally) {
    count(&mut tally.books, 1);
    if any_charged(s) {
        count(&mut tally.charged_books, 1);
    }
}

// Opens a random table, where the shape is opened so; a table that does not open leaves the holding as it is.
fn open_table(
    book: &mut Book,
    sheet: &mut Sheet,
    s: &mut Station,
    seed: &mut u64,
    opening: Opening,
    tally: &mut Tally,
) {
    if opening != Opening::Table {
        return;
    }
    let mut rows = [0u32; 567];
    let lent = tables::make(seed, &mut rows);
    open_both(book, sheet, s, &rows, lent, tally);
}

// Builds a book, in a holding opened anew or on what the last book left, and edits it.
fn run_book(
    book: &mut Book,
    sheet: &mut Sheet,
    s: &mut Station,
    seed: &mut u64,
    shape: &Shape,
    tally: &mut Tally,
) {
    let ladder = shape.opening == Opening::Ladder;
    if ladder || once_in(seed, 2) {
        open(book, sheet, s, ladder, tally);
    }
    open_table(book, sheet, s, seed, shape.opening, tally);
    run_stream(book, sheet, s, seed, shape, true, tally);
    for _ in 0..shape.streams {
        run_stream(book, sheet, s, seed, shape, false, tally);
    }
    count_book(s, tally);
}

// All books of a shape, and its line.
fn run_shape(name: &[u8], mut seed: u64, shape: &Shape) {
    let mut book = [0u32; compare::WORDS];
    let mut sheet = [0u32; 2880];
    let mut s = [0u32; station::WORDS];
    let mut tally = Tally::default();
    open(&mut book, &mut sheet, &mut s, false, &mut tally);
    for _ in 0..shape.books {
        run_book(&mut book, &mut sheet, &mut s, &mut seed, shape, &mut tally);
    }
    line(name, &tally);
}

// Writes a plan's answer with so many bytes of buffer: cost and count, or `no` and the refusal.
fn show_plan(name: &[u8], book: &Book, sheet: &Sheet, b: u32, room: u32) {
    let mut buffer = [255u8; 255];
    let answer = ask(book, sheet, 0, b, &mut buffer, room);
    text(name);
    match answer {
        Ok(planned) => {
            number(planned.cost);
            number(planned.count);
        }
        Err(refusal) => say_no(refusal),
    }
    text(b"\n");
}

// Loads a stream into a holding opened fresh, plans from about so many states to all states, and writes its line.
fn run_given(
    name: &[u8],
    stream: &Bytes,
    length: usize,
    sources: u32,
    book: &mut Book,
    sheet: &mut Sheet,
) {
    let mut tally = Tally::default();
    let mut s = [0u32; station::WORDS];
    let mut seed = 1u64;
    open(book, sheet, &mut s, false, &mut tally);
    load_both(book, sheet, &mut s, stream, length, &mut tally);
    plan_after(book, sheet, &mut s, &mut seed, sources, &mut tally);
    count_book(&s, &mut tally);
    line(name, &tally);
}

// The longest line: its plan fills the buffer.
fn line_book() {
    let mut book = [0u32; compare::WORDS];
    let mut sheet = [0u32; 2880];
    let mut stream = [0u8; 8192];
    let length = making::line(&mut stream);
    run_given(b"line", &stream, length, 4, &mut book, &mut sheet);
    show_plan(b"0 to 255 with 255 bytes:", &book, &sheet, 255, 255);
    show_plan(b"0 to 255 with 254 bytes:", &book, &sheet, 255, 254);
}

// The dearest plan that there can be, a buffer that is too short for it, and the dearest command that there can be.
fn dearest_book() {
    let mut book = [0u32; compare::WORDS];
    let mut sheet = [0u32; 2880];
    let mut stream = [0u8; 8192];
    let length = making::dearest(&mut stream);
    run_given(b"dearest", &stream, length, 4, &mut book, &mut sheet);
    show_plan(b"0 to 255 with 248 bytes:", &book, &sheet, 255, 248);
    show_plan(b"0 to 255 with 247 bytes:", &book, &sheet, 255, 247);
    show_plan(b"0 to 9:", &book, &sheet, 9, 255);
}

// Document 01's mast book: every pair of states, the shortest buffer and one that is too short, and nodes in range and out of it.
fn mast() {
    let mut book = [0u32; compare::WORDS];
    let mut sheet = [0u32; 2880];
    let mut stream = [0u8; 8192];
    stream[..70].copy_from_slice(&MAST);
    run_given(b"mast", &stream, 70, NODES, &mut book, &mut sheet);
    show_plan(b"0 to 2 with 3 bytes:", &book, &sheet, 2, 3);
    show_plan(b"0 to 2 with 2 bytes:", &book, &sheet, 2, 2);
    show_plan(b"0 to 255:", &book, &sheet, 255, 3);
    show_plan(b"0 to 256:", &book, &sheet, 256, 3);
}

fn main() {
    run_shape(b"deep", 20250101, &shapes::DEEP_BOOKS);
    run_shape(b"wide", 20250102, &shapes::WIDE_BOOKS);
    run_shape(b"zeros", 20250103, &shapes::ZERO_BOOKS);
    run_shape(b"sparse", 20250104, &shapes::SPARSE_BOOKS);
    run_shape(b"selves", 20250105, &shapes::SELF_BOOKS);
    run_shape(b"ladder", 20250106, &shapes::LADDER_BOOKS);
    run_shape(b"crowded", 20250107, &shapes::CROWDED_BOOKS);
    run_shape(b"edited", 20250108, &shapes::EDITED_BOOKS);
    run_shape(b"tables", 20250109, &shapes::TABLE_BOOKS);
    mast();
    line_book();
    dearest_book();
}
