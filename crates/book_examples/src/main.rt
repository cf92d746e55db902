// Document 01's examples of calls on books, run: the mast book's words are stored by hand, and each line says what a call answered.
#![tactic(auto)]

use refusals::Refusal;
use stepping::Moved;
use trying::{decimal, front, front_mut, number, status, text};

// The descriptor of standard output.
const STDOUT_FILENO: i32 = 1;

// A book and a sheet.
type Book = [u32; book::BOOK];

type Sheet = [u32; sheet::SHEET];

// Writes a text, then a number, then a newline.
fn line(t: &[u8], n: u32) {
    text(t);
    decimal(n);
    text(b"\n");
}

// Writes a text, then two numbers with a space between, then a newline.
fn pair(t: &[u8], a: u32, b: u32) {
    text(t);
    decimal(a);
    number(b);
    text(b"\n");
}

// Writes a text, then the number of a refusal, or 0 where there is none.
fn refusal_line(t: &[u8], refusal: Option<Refusal>) {
    line(t, status(refusal));
}

// Writes a text, then 1 where something holds, else 0.
fn whether(t: &[u8], holds: bool) {
    line(t, holds as u32);
}

// Copies a book by its stream into the ladder's holding, and writes the stream's length, or the refusal, and whether the words are the same.
fn show_copy(t: &[u8], book: &Book, out: &mut [u8; 80]) {
    let mut other = [0u32; book::BOOK];
    let mut sheet = [0u32; sheet::SHEET];
    let _ = open_ladder(&mut other, &mut sheet);
    let copied = copying::copy(book, out, &mut other, &mut sheet);
    pair(t, length_of(copied), (*book == other) as u32);
}

// The length that is written, or the number of the refusal.
fn length_of(written: Result<u32, Refusal>) -> u32 {
    match written {
        Ok(n) => n,
        Err(refusal) => refusal.number(),
    }
}

// The mast book's words, over those of a book that was opened fresh.
fn store_mast(book: &mut Book) {
    book[3] = 1;
    book[4] = 10;
    book[131] = 65541;
    book[133] = 131092;
    book[147] = 0;
    book[148] = 1;
    book[150] = 131075;
    book[165] = 0;
    book[167] = 7;
    book[309] = 1;
    book[312] = 655361;
    book[313] = 720900;
    book[327] = 1;
}

// Writes the state and the cost of a step and the node whose transition was used, or the refusal.
fn show_step(t: &[u8], book: &Book, state: u32, command: u32) {
    match stepping::step(book, state, command) {
        Ok(Moved { state, cost, node }) => {
            text(t);
            decimal(state);
            pair(b" ", cost, node);
        }
        Err(refusal) => line(t, refusal.number()),
    }
}

// Writes the length that Write answers for the front of a list, or the refusal.
fn write_front(t: &[u8], book: &[u32], out: &mut [u8], room: usize) {
    line(t, length_of(writing::write(book, front_mut(out, room))));
}

// The same for a list of 80 bytes.
fn show_write(t: &[u8], book: &Book, out: &mut [u8; 80], room: usize) {
    write_front(t, book, out, room);
}

// Writes the number that Choose leaves in its word, and the length of the part.
fn show_choice<'a>(t: &[u8], book: &Book, a: u32, b: u32, first: &'a [u8], second: &'a [u8]) {
    let mut word = 9999u32;
    let part = choosing::choose(book, a, b, first, second, &mut word);
    pair(t, word, (part.len() % 65536) as u32);
}

// Puts a word that tears the book, asks for a step, and puts the old word back.
fn tear(t: &[u8], book: &mut Book, at: usize, word: u32) {
    if at < book::BOOK {
        let kept = book[at];
        book[at] = word;
        show_step(t, book, 0, 0);
        book[at] = kept;
    }
}

// The book torn in each way.
fn show_torn(book: &mut Book) {
    tear(b"owner out of range: ", book, 129, 65536);
    tear(b"owner not in use: ", book, 147, 5);
    tear(b"target out of range: ", book, 131, 16777217);
    tear(b"target in another machine: ", book, 131, 655361);
    tear(b"start of another machine: ", book, 2, 10);
    tear(b"root held by its own node: ", book, 148, 0);
    tear(b"holder that holds nothing: ", book, 3, 2);
    tear(b"two roots: ", book, 3, 65535);
    tear(b"root with a holder: ", book, 1, 11);
    tear(b"root out of range: ", book, 0, 64);
    tear(b"transition of an unused node: ", book, 185, 65541);
    tear(b"hold of two: ", book, 4739, 2);
    tear(b"hold that is not a byte: ", book, 4739, 4294967295);
    tear(b"hold of an unused node: ", book, 4740, 1);
    tear(b"hold of the last node, which is unused: ", book, 4992, 1);
    tear(b"held start: ", book, 4747, 1);
    tear(b"held start of the root: ", book, 4737, 1);
    tear(b"charge out of range: ", book, 4994, 65536);
    tear(b"charge of the root: ", book, 4993, 1);
    tear(b"charge of an unused machine: ", book, 4995, 1);
    tear(
        b"charge of the last machine, which is unused: ",
        book,
        5056,
        1,
    );
}

// Writes bytes in hexadecimal.
fn dump(bytes: &[u8; 80]) {
    for b in bytes {
        io::print_hex(STDOUT_FILENO, *b as u64, 2);
    }
}

// Open fresh with the book's first words lent.
fn open_short(book: &mut [u32], sheet: &mut [u32], words: usize) -> Result<(), Refusal> {
    opening::open_fresh(front_mut(book, words), sheet)
}

// Opens fresh, first with a book that is a word too short, which must stay as it is.
fn show_open(book: &mut Book, sheet: &mut Sheet) {
    let short = open_short(book, sheet, book::BOOK - 1);
    refusal_line(b"open short: ", short.err());
    whether(b"untouched: ", *book == [7u32; book::BOOK]);
    refusal_line(b"open fresh: ", opening::open_fresh(book, sheet).err());
}

// Opens the ladder.
fn open_ladder(book: &mut Book, sheet: &mut Sheet) -> Result<(), Refusal> {
    opening::open_ladder(book, sheet)
}

// A step with the book's first words lent.
fn step_short(book: &[u32], words: usize) {
    match stepping::step(front(book, words), 0, 0) {
        Ok(moved) => pair(b"short book: ", moved.state, moved.cost),
        Err(refusal) => line(b"short book: ", refusal.number()),
    }
}

// A step with a book that is a word too short.
fn show_short(book: &Book) {
    step_short(book, book::BOOK - 1);
}

// Node 11 held, by its word: the transition into it is shut for a step and for Choose, and the stream ends with the hold. Where node 1 has a
// transition for command 2 the command climbs there from node 10.
fn show_hold(book: &mut Book) {
    let mut out = [255u8; 80];
    show_step(b"step 10 by 2: ", book, 10, 2);
    book[4748] = 1;
    show_step(b"step 10 by 2, 11 held: ", book, 10, 2);
    show_step(b"step 11 by 1, 11 held: ", book, 11, 1);
    show_choice(b"choose past it: ", book, 0, 2, b"\x02", b"\x00\x02\x01");
    show_write(b"write the hold: ", book, &mut out, 80);
    dump(&out);
    show_write(b"\nwrite it into 73: ", book, &mut out, 73);
    show_copy(b"copied with the hold: ", book, &mut out);
    book[151] = 131078;
    show_step(b"climb past node 11: ", book, 10, 2);
    book[151] = 4294967295;
    book[4748] = 0;
}

// A machine 2 below node 11, which enters at node 20. Leaving machine 1 costs 9 and machine 2 4: a step pays for each machine that the command
// climbs past, not for the one whose node acts, nor for one that it enters. Write puts the charges after the holds.
fn show_leaving(book: &mut Book) {
    let mut out = [255u8; 80];
    book[5] = 11;
    book[6] = 20;
    book[328] = 2;
    book[489] = 2;
    book[4994] = 9;
    book[4995] = 4;
    show_step(b"step 20 by 1 leaves two: ", book, 20, 1);
    show_step(b"step 10 by 1 leaves none: ", book, 10, 1);
    show_step(b"step 10 by 2 enters: ", book, 10, 2);
    show_step(b"step 20 by 0 stops: ", book, 20, 0);
    show_choice(
        b"choose the dearer end: ",
        book,
        0,
        2,
        b"\x02",
        b"\x00\x02\x01",
    );
    book[328] = 65535;
    book[489] = 65535;
    book[5] = 65535;
    book[6] = 65535;
    book[4995] = 0;
    book[4748] = 1;
    show_write(b"write hold and charge: ", book, &mut out, 80);
    dump(&out);
    show_write(b"\nwrite them into 77: ", book, &mut out, 77);
    show_copy(b"copied with both: ", book, &mut out);
    book[4748] = 0;
    book[4994] = 0;
}

fn main() {
    let mut book = [7u32; book::BOOK];
    let mut sheet = [7u32; sheet::SHEET];
    show_open(&mut book, &mut sheet);
    store_mast(&mut book);
    let before = book;
    show_step(b"step 11 by 1: ", &book, 11, 1);
    show_step(b"step 10 by 1: ", &book, 10, 1);
    show_step(b"step 11 by 0: ", &book, 11, 0);
    show_step(b"step 1 by 0: ", &book, 1, 0);
    show_step(b"step 255: ", &book, 255, 0);
    show_step(b"step 256: ", &book, 256, 0);
    show_step(b"step 65536: ", &book, 65536, 0);
    show_step(b"command 16: ", &book, 0, 16);
    show_short(&book);
    let mut out = [255u8; 80];
    show_write(b"write: ", &book, &mut out, 80);
    dump(&out);
    show_write(b"\nwrite into 70: ", &book, &mut out, 70);
    show_write(b"write into 69: ", &book, &mut out, 69);
    show_copy(b"copied into the ladder: ", &book, &mut out);
    show_choice(b"choose cheaper: ", &book, 0, 2, b"\x02", b"\x00\x02\x01");
    show_choice(b"choose tie: ", &book, 0, 2, b"\x02\x00", b"\x02\x01");
    show_choice(b"choose none: ", &book, 0, 2, b"\x07", b"\x10\x02");
    show_choice(b"choose here: ", &book, 2, 2, b"\x00", b"");
    show_hold(&mut book);
    show_leaving(&mut book);
    show_torn(&mut book);
    whether(b"same book: ", book == before);
    refusal_line(b"open ladder: ", open_ladder(&mut book, &mut sheet).err());
    show_step(b"ladder 1 by 1: ", &book, 1, 1);
    show_step(b"ladder 140 by 1: ", &book, 140, 1);
    show_step(b"ladder 0 by 1: ", &book, 0, 1);
}
