// Streams loaded, run: the mast book is loaded and refreshed, its exit costs are read, also with holds and leaving charges (document 02, W-205,
// W-207), each refusal of a command is provoked, and sheets with one false word are refused.
#![tactic(auto)]

use trying::{MAST, number, say_no, status, text};

// A book and a sheet.
type Book = [u32; book::BOOK];

type Sheet = [u32; sheet::SHEET];

// Loads a stream and writes the bytes taken, the commands taken and the number of the refusal, or 0.
fn show_load(t: &[u8], book: &mut Book, sheet: &mut Sheet, stream: &[u8]) {
    let answer = loading::load(book, sheet, stream);
    text(t);
    number(answer.bytes as u64);
    number(answer.commands as u64);
    number(status(answer.refusal));
    text(b"\n");
}

// Writes an exit cost, or `no` and the refusal.
fn show_exit(t: &[u8], book: &Book, sheet: &Sheet, machine: u32, command: u32) {
    text(t);
    match exiting::exit(book, sheet, machine, command) {
        Ok(cost) => number(cost),
        Err(refusal) => say_no(refusal),
    }
    text(b"\n");
}

// Puts a false word into the sheet, asks for an exit cost, and puts the old word back.
fn falsify(t: &[u8], book: &Book, sheet: &mut Sheet, at: usize, word: u32) {
    if at < sheet::SHEET {
        let kept = sheet[at];
        sheet[at] = word;
        show_exit(t, book, sheet, 0, 0);
        sheet[at] = kept;
    }
}

// Opens fresh.
fn open(book: &mut Book, sheet: &mut Sheet) {
    let _ = opening::open_fresh(book, sheet);
}

// A name in another machine whose cost and transition give the right sum, and a circle of names that costs nothing.
fn false_names(book: &mut Book, sheet: &mut Sheet) {
    show_load(
        b"two machines alike:",
        book,
        sheet,
        b"\x10\x00\x00\x00\x11\x00\x00\x01\x11\x00\x00\x02\x12\x00\x02\x01\x00\x0A\x11\x01\x00\x0B\x14\x00\x00\x00\x00\x01\x00\x05\x14\x00\x0A\x00\x00\x0B\x00\x05\x18",
    );
    show_exit(b"its exit:", book, sheet, 0, 1);
    falsify(
        b"name in another machine, right sum:",
        book,
        sheet,
        2116,
        10,
    );
    show_load(
        b"transitions that cost nothing:",
        book,
        sheet,
        b"\x10\x00\x00\x00\x11\x00\x00\x01\x11\x00\x00\x02\x14\x00\x00\x00\x00\x01\x00\x00\x14\x00\x01\x00\x00\x02\x00\x00\x14\x00\x02\x00\x00\x01\x00\x00\x18",
    );
    show_exit(b"its exit:", book, sheet, 0, 1);
    falsify(b"circle of names at no cost:", book, sheet, 2116, 2);
}

// Eight levels, then a ninth below them and a ninth above them.
fn nine_levels(book: &mut Book, sheet: &mut Sheet) {
    show_load(
        b"level 8:",
        book,
        sheet,
        b"\x10\x00\x00\x00\x12\x00\x00\x01\x00\x01\x12\x00\x01\x02\x00\x02\x12\x00\x02\x03\x00\x03\x12\x00\x03\x04\x00\x04\x12\x00\x04\x05\x00\x05\x12\x00\x05\x06\x00\x06\x12\x00\x06\x07\x00\x07",
    );
    show_load(
        b"level 9 by refine:",
        book,
        sheet,
        b"\x18\x12\x00\x07\x08\x00\x08",
    );
    show_load(b"level 9 by crown:", book, sheet, b"\x17\x08\x00\x08");
}

// The mast book loaded, refreshed, and asked for its exit costs.
fn mast_book(book: &mut Book, sheet: &mut Sheet) {
    show_load(b"mast book:", book, sheet, &MAST);
    show_exit(b"exit while marked:", book, sheet, 1, 0);
    show_load(b"refresh:", book, sheet, b"\x18");
    show_exit(b"exit of 1 by 0:", book, sheet, 1, 0);
    show_exit(b"exit of 1 by 1:", book, sheet, 1, 1);
    show_exit(b"exit of 1 by 2:", book, sheet, 1, 2);
    show_exit(b"exit of 0 by 0:", book, sheet, 0, 0);
    show_exit(b"exit of 0 by 1:", book, sheet, 0, 1);
    show_exit(b"exit of 0 by 2:", book, sheet, 0, 2);
}

// Each refusal of a command, 4 to 11, but for holds and leaving charges.
fn refusals(book: &mut Book, sheet: &mut Sheet) {
    show_load(b"unknown opcode:", book, sheet, b"\x19\x00\x00\x00\x02");
    show_load(b"cut short:", book, sheet, b"\x14\x00\x00\x00");
    show_load(b"node 256:", book, sheet, b"\x11\x00\x01\x00");
    show_load(b"machine not in use:", book, sheet, b"\x11\x05\x00\x20");
    show_load(b"node in use:", book, sheet, b"\x11\x00\x00\x0B");
    show_load(
        b"already refined:",
        book,
        sheet,
        b"\x12\x00\x01\x02\x00\x14",
    );
    show_load(b"remove node 10:", book, sheet, b"\x13\x00\x0A");
    show_load(
        b"target elsewhere:",
        book,
        sheet,
        b"\x14\x00\x00\x03\x00\x0A\x00\x01",
    );
}

// Sheets with one false word, one for each kind of word.
fn false_words(book: &mut Book, sheet: &mut Sheet) {
    falsify(b"mark of two:", book, sheet, 0, 2);
    falsify(b"exit cost one off:", book, sheet, 1, 6);
    falsify(b"last node that has a transition:", book, sheet, 17, 0);
    falsify(b"cost one off:", book, sheet, 2115, 6);
    falsify(b"name in another machine:", book, sheet, 2116, 10);
    falsify(b"command out of range:", book, sheet, 2117, 16);
    falsify(b"unused row not blank:", book, sheet, 2112 + 60, 0);
    falsify(b"mark of an unused machine:", book, sheet, 33 * 5, 1);
    falsify(b"stale below one that is not:", book, sheet, 33, 1);
    falsify(b"name at a start node:", book, sheet, 2113, 1);
}

// Holds of node 11 in machine 1 and of node 2 in the root: which rows are marked, the exit costs past transitions that are shut, and the release.
fn holds(book: &mut Book, sheet: &mut Sheet) {
    show_load(b"hold of node 11:", book, sheet, b"\x1A\x00\x0B\x01");
    show_exit(b"its machine is marked:", book, sheet, 1, 2);
    show_exit(b"and the one above:", book, sheet, 0, 2);
    show_load(b"refresh:", book, sheet, b"\x18");
    show_exit(b"exit of 1 by 1:", book, sheet, 1, 1);
    show_exit(b"exit of 1 by 2:", book, sheet, 1, 2);
    show_exit(b"exit of 0 by 2:", book, sheet, 0, 2);
    show_load(b"hold of node 2:", book, sheet, b"\x1A\x00\x02\x01");
    show_exit(b"the machine below is not marked:", book, sheet, 1, 2);
    show_exit(b"its own is:", book, sheet, 0, 2);
    show_load(
        b"both released:",
        book,
        sheet,
        b"\x1A\x00\x02\x00\x1A\x00\x0B\x00\x18",
    );
    show_exit(b"exit of 1 by 2:", book, sheet, 1, 2);
    show_exit(b"exit of 0 by 2:", book, sheet, 0, 2);
}

// Each refusal of a hold, and holds that are taken without a change.
fn hold_refusals(book: &mut Book, sheet: &mut Sheet) {
    show_load(b"hold cut short:", book, sheet, b"\x1A\x00\x02");
    show_load(b"hold of node 256:", book, sheet, b"\x1A\x01\x00\x01");
    show_load(b"hold of two:", book, sheet, b"\x1A\x00\x02\x02");
    show_load(
        b"hold of two, node not in use:",
        book,
        sheet,
        b"\x1A\x00\x05\x02",
    );
    show_load(b"node not in use:", book, sheet, b"\x1A\x00\x05\x00");
    show_load(b"hold of a start node:", book, sheet, b"\x1A\x00\x0A\x01");
    show_load(b"its release:", book, sheet, b"\x1A\x00\x0A\x00");
    show_load(
        b"held twice, released twice:",
        book,
        sheet,
        b"\x1A\x00\x02\x01\x1A\x00\x02\x01\x1A\x00\x02\x00\x1A\x00\x02\x00\x18",
    );
    show_load(
        b"held node made a start:",
        book,
        sheet,
        b"\x1A\x00\x02\x01\x16\x00\x02",
    );
    show_load(
        b"start not in use:",
        book,
        sheet,
        b"\x1A\x00\x02\x00\x16\x00\x05",
    );
}

// A hold goes with its node and with all at a begin, and stays when its node is refined: whether 0x16 is taken then tells.
fn holds_gone(book: &mut Book, sheet: &mut Sheet) {
    show_load(
        b"held node removed and added again:",
        book,
        sheet,
        b"\x10\x00\x00\x00\x11\x00\x00\x02\x1A\x00\x02\x01\x13\x00\x02\x11\x00\x00\x02\x16\x00\x02",
    );
    show_load(
        b"held node below a removed one:",
        book,
        sheet,
        b"\x10\x00\x00\x00\x11\x00\x00\x01\x12\x00\x01\x01\x00\x0A\x11\x01\x00\x0B\x1A\x00\x0B\x01\x13\x00\x01\x11\x00\x00\x0B\x16\x00\x0B",
    );
    show_load(
        b"held node before a begin:",
        book,
        sheet,
        b"\x10\x00\x00\x00\x11\x00\x00\x02\x1A\x00\x02\x01\x10\x00\x00\x00\x11\x00\x00\x02\x16\x00\x02",
    );
    show_load(
        b"held node refined:",
        book,
        sheet,
        b"\x10\x00\x00\x00\x11\x00\x00\x02\x1A\x00\x02\x01\x12\x00\x02\x01\x00\x0A\x16\x00\x02",
    );
}

// Leaving machine 1 is charged: which rows are marked, and the exit costs, in which a machine's own leaving does not count; then the largest charge.
fn leaving(book: &mut Book, sheet: &mut Sheet) {
    show_load(b"leaving 1 costs 9:", book, sheet, b"\x1B\x01\x00\x09");
    show_exit(b"its row is marked:", book, sheet, 1, 0);
    show_exit(b"and the one above:", book, sheet, 0, 0);
    show_load(b"refresh:", book, sheet, b"\x18");
    show_exit(b"exit of 1 by 0:", book, sheet, 1, 0);
    show_exit(b"exit of 1 by 2:", book, sheet, 1, 2);
    show_exit(b"exit of 0 by 0:", book, sheet, 0, 0);
    show_exit(b"exit of 0 by 2:", book, sheet, 0, 2);
    show_load(b"the largest:", book, sheet, b"\x1B\x01\xFF\xFF\x18");
    show_exit(b"exit of 0 by 0:", book, sheet, 0, 0);
    show_exit(b"exit of 0 by 2:", book, sheet, 0, 2);
    falsify(b"exit cost cut to 16 bits:", book, sheet, 1, 4);
    show_load(b"free again:", book, sheet, b"\x1B\x01\x00\x00\x18");
    show_exit(b"exit of 0 by 0:", book, sheet, 0, 0);
}

// Each refusal of a leaving charge.
fn leaving_refusals(book: &mut Book, sheet: &mut Sheet) {
    show_load(b"charge cut short:", book, sheet, b"\x1B\x01\x00");
    show_load(b"charge of machine 64:", book, sheet, b"\x1B\x40\x00\x01");
    show_load(b"charge of the root:", book, sheet, b"\x1B\x00\x00\x01");
    show_load(b"charge 0 of the root:", book, sheet, b"\x1B\x00\x00\x00");
    show_load(
        b"charge of a machine not in use:",
        book,
        sheet,
        b"\x1B\x05\x00\x01",
    );
    show_load(b"an opcode above it:", book, sheet, b"\x1C\x01\x00\x01");
}

// A charge goes with its machine and with all at a begin; a new root leaves the old one's at 0, and then it may have one.
fn charges_gone(book: &mut Book, sheet: &mut Sheet) {
    show_load(
        b"charged machine removed, refined again:",
        book,
        sheet,
        b"\x10\x00\x00\x00\x12\x00\x00\x01\x00\x0A\x11\x00\x00\x01\x16\x00\x01\x1B\x01\x00\x09\x13\x00\x00\x12\x00\x01\x01\x00\x0A\x18",
    );
    show_exit(b"exit of 0 by 0:", book, sheet, 0, 0);
    show_load(
        b"charged machine before a begin:",
        book,
        sheet,
        b"\x1B\x01\x00\x09\x10\x00\x00\x00\x12\x00\x00\x01\x00\x0A\x18",
    );
    show_exit(b"exit of 0 by 0:", book, sheet, 0, 0);
    show_load(
        b"a new root above:",
        book,
        sheet,
        b"\x1B\x01\x00\x09\x17\x02\x00\x14\x18",
    );
    show_exit(b"exit of 2 by 0:", book, sheet, 2, 0);
    show_load(
        b"the old root charged:",
        book,
        sheet,
        b"\x1B\x00\x00\x07\x18",
    );
    show_exit(b"exit of 2 by 0:", book, sheet, 2, 0);
    show_exit(b"exit of 0 by 0:", book, sheet, 0, 0);
}

// A stream that is refused on its way: what stands before the refused command is done.
fn stopped(book: &mut Book, sheet: &mut Sheet) {
    show_load(
        b"two taken, one refused, one not reached:",
        book,
        sheet,
        b"\x15\x00\x0A\x01\x16\x00\x02\x13\x00\x02\x18",
    );
    show_exit(b"exit after it:", book, sheet, 0, 1);
    falsify(b"stale row not blank:", book, sheet, 1, 0);
    show_load(b"refresh again:", book, sheet, b"\x18");
    show_exit(b"exit of 1 by 1 now:", book, sheet, 1, 1);
}

fn main() {
    let mut book = [0u32; book::BOOK];
    let mut sheet = [0u32; sheet::SHEET];
    open(&mut book, &mut sheet);
    mast_book(&mut book, &mut sheet);
    refusals(&mut book, &mut sheet);
    false_words(&mut book, &mut sheet);
    holds(&mut book, &mut sheet);
    hold_refusals(&mut book, &mut sheet);
    leaving(&mut book, &mut sheet);
    leaving_refusals(&mut book, &mut sheet);
    stopped(&mut book, &mut sheet);
    false_names(&mut book, &mut sheet);
    nine_levels(&mut book, &mut sheet);
    holds_gone(&mut book, &mut sheet);
    charges_gone(&mut book, &mut sheet);
}
