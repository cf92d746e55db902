// Merges, run (document 02, W-201): the mast book with itself, with the numbers that its machines and nodes get and plans on both halves; the same
// with holds (W-205) and with leaving charges (W-207); books full to the last number; each refusal, with the words lent for the third book and sheet untouched.
#![tactic(auto)]

use planning::Planned;
use trying::{MAST, front, front_mut, number, say_no, show_words, status, text};

// A book and a sheet.
type Book = [u32; book::BOOK];

type Sheet = [u32; sheet::SHEET];

// A list with a word more than a book has.
type Longer = [u32; book::BOOK + 1];

// How many words are lent for the two books, and for the third book and its sheet.
#[derive(Drop)]
struct Words {
    first: usize,
    second: usize,
    book: usize,
    sheet: usize,
}

// Opens fresh and loads a stream.
fn make(book: &mut Book, sheet: &mut Sheet, stream: &[u8]) {
    let _ = opening::open_fresh(book, sheet);
    loading::load(book, sheet, stream);
}

// Loads a stream, and writes a text and the number that it is refused with, or 0.
fn show_load(t: &[u8], book: &mut Book, sheet: &mut Sheet, stream: &[u8]) {
    let answer = loading::load(book, sheet, stream);
    text(t);
    number(status(answer.refusal));
    text(b"\n");
}

// Merges two books, and writes a text and the number of the refusal, or 0.
fn show_merge(t: &[u8], first: &Book, second: &Book, book: &mut Book, sheet: &mut Sheet) {
    text(t);
    number(status(merging::merge(first, second, book, sheet).err()));
    text(b"\n");
}

// Writes the cost of a plan, or `no` and the refusal.
fn show_plan(t: &[u8], book: &Book, sheet: &Sheet, from: u32, to: u32) {
    let mut plan = [0u8; 255];
    text(t);
    match planning::plan(book, sheet, from, to, &mut plan) {
        Ok(Planned { cost, count: _ }) => number(cost),
        Err(refusal) => say_no(refusal),
    }
    text(b"\n");
}

// Whether every word of a list is 7.
fn sevens(list: &[u32]) -> bool {
    list.iter().all(|word| *word == 7)
}

// Merges the fronts of two lists into those of two others, each of so many words, and writes the number and whether the others are 7 everywhere.
fn merge_fronts(
    t: &[u8],
    first: &[u32],
    second: &[u32],
    book: &mut [u32],
    sheet: &mut [u32],
    words: Words,
) {
    text(t);
    let answer = merging::merge(
        front(first, words.first),
        front(second, words.second),
        front_mut(book, words.book),
        front_mut(sheet, words.sheet),
    );
    number(status(answer.err()));
    number(sevens(book) as u32);
    number(sevens(sheet) as u32);
    text(b"\n");
}

// The same with lists that hold 7 everywhere.
fn show_refused(t: &[u8], first: &[u32], second: &[u32], words: Words) {
    let mut book = [7u32; book::BOOK + 1];
    let mut sheet = [7u32; sheet::SHEET + 1];
    merge_fronts(t, first, second, &mut book, &mut sheet, words);
}

// The same with all lists at their right lengths.
fn show_whole(t: &[u8], first: &Book, second: &Book) {
    show_refused(
        t,
        first,
        second,
        Words {
            first: book::BOOK,
            second: book::BOOK,
            book: book::BOOK,
            sheet: sheet::SHEET,
        },
    );
}

// Each list a word too short and a word too long; the two books are lent with a word more than they have.
fn show_lengths(first: &Longer, second: &Longer) {
    let n = book::BOOK;
    let rows = sheet::SHEET;
    show_length(b"first short:", first, second, n - 1, n, n, rows);
    show_length(b"first long:", first, second, n + 1, n, n, rows);
    show_length(b"second short:", first, second, n, n - 1, n, rows);
    show_length(b"second long:", first, second, n, n + 1, n, rows);
    show_length(b"book short:", first, second, n, n, n - 1, rows);
    show_length(b"book long:", first, second, n, n, n + 1, rows);
    show_length(b"sheet short:", first, second, n, n, n, rows - 1);
    show_length(b"sheet long:", first, second, n, n, n, rows + 1);
}

// The same with so many words of each.
fn show_length(
    t: &[u8],
    first: &Longer,
    second: &Longer,
    one: usize,
    two: usize,
    three: usize,
    rows: usize,
) {
    show_refused(
        t,
        first,
        second,
        Words {
            first: one,
            second: two,
            book: three,
            sheet: rows,
        },
    );
}

// The mast book merged with itself: the root and its nodes, the second's records at their new numbers, and plans on both halves.
fn merge_mast(mast: &Book, other: &Book) {
    let mut book = [7u32; book::BOOK];
    let mut sheet = [7u32; sheet::SHEET];
    show_merge(b"mast and mast:", mast, other, &mut book, &mut sheet);
    show_words(b"root:", &book, 0, 1);
    show_words(b"holders and starts:", &book, 1, 13);
    show_words(b"node 8:", &book, 273, 278);
    show_words(b"node 9:", &book, 291, 296);
    show_words(b"node 3:", &book, 183, 188);
    show_words(b"node 4:", &book, 201, 206);
    show_words(b"node 6:", &book, 237, 242);
    show_load(b"refresh:", &mut book, &mut sheet, b"\x18");
    show_plan(b"0 to 2:", &book, &sheet, 0, 2);
    show_plan(b"3 to 5:", &book, &sheet, 3, 5);
    show_plan(b"11 to 10:", &book, &sheet, 11, 10);
    show_plan(b"7 to 6:", &book, &sheet, 7, 6);
    show_plan(b"0 to 5:", &book, &sheet, 0, 5);
}

// The mast book with node 2 held, merged with one where nodes 1 and 11 are: their holds are at nodes 2, 4 and 7.
fn merge_holds(mast: &Book) {
    let mut first = *mast;
    let mut second = *mast;
    let mut book = [7u32; book::BOOK];
    let mut sheet = [7u32; sheet::SHEET];
    first[4739] = 1;
    second[4738] = 1;
    second[4748] = 1;
    show_merge(b"both with holds:", &first, &second, &mut book, &mut sheet);
    show_words(b"holds:", &book, 4737, 4749);
    show_load(b"refresh:", &mut book, &mut sheet, b"\x18");
    show_plan(b"0 to 2:", &book, &sheet, 0, 2);
    show_plan(b"3 to 5:", &book, &sheet, 3, 5);
    show_plan(b"7 to 5:", &book, &sheet, 7, 5);
}

// The mast book where leaving machine 1 costs 9, merged with one where it costs 4: the charges are at machines 1 and 3.
fn merge_leaves(mast: &Book) {
    let mut first = *mast;
    let mut second = *mast;
    let mut book = [7u32; book::BOOK];
    let mut sheet = [7u32; sheet::SHEET];
    first[4994] = 9;
    second[4994] = 4;
    show_merge(
        b"both with charges:",
        &first,
        &second,
        &mut book,
        &mut sheet,
    );
    show_words(b"charges:", &book, 4993, 4998);
    show_load(b"refresh:", &mut book, &mut sheet, b"\x18");
    show_plan(b"0 to 2:", &book, &sheet, 0, 2);
    show_plan(b"3 to 5:", &book, &sheet, 3, 5);
    show_plan(b"7 to 5:", &book, &sheet, 7, 5);
}

// Torn books, eight levels, and eight levels with too few numbers.
fn refusals(mast: &Book, deep: &Book, ladder: &Book) {
    let mut torn = [0u32; book::BOOK];
    let mut sheet = [0u32; sheet::SHEET];
    make(&mut torn, &mut sheet, b"");
    torn[0] = 64;
    show_whole(b"first torn:", &torn, mast);
    show_whole(b"second torn:", mast, &torn);
    show_whole(b"torn before level 8:", deep, &torn);
    show_whole(b"first at level 8:", deep, mast);
    show_whole(b"second at level 8:", mast, deep);
    show_whole(b"level 8 before too few:", ladder, deep);
    show_whole(b"too few:", ladder, mast);
}

// Books that are full to the last machine, and a machine too few.
fn last_machine(fresh: &Book) {
    let mut ladder = [0u32; book::BOOK];
    let mut sheet = [0u32; sheet::SHEET];
    let mut book = [7u32; book::BOOK];
    let mut rows = [7u32; sheet::SHEET];
    open_ladder(&mut ladder, &mut sheet);
    show_whole(b"a machine too few:", &ladder, fresh);
    show_load(b"a machine less:", &mut ladder, &mut sheet, b"\x13\x00\x5C");
    show_merge(
        b"full to the last machine:",
        &ladder,
        fresh,
        &mut book,
        &mut rows,
    );
    show_words(b"root:", &book, 0, 1);
    show_words(b"machines 62 and 63:", &book, 125, 129);
}

// Opens fresh and adds nodes 1 to 61.
fn add_nodes(book: &mut Book, sheet: &mut Sheet) {
    make(book, sheet, b"");
    for n in 1..62u8 {
        loading::load(book, sheet, &[17, 0, 0, n]);
    }
}

// Books that are full to the last node, and a node too few.
fn last_node() {
    let mut half = [0u32; book::BOOK];
    let mut sheet = [0u32; sheet::SHEET];
    let mut first = [7u32; book::BOOK];
    let mut rows = [7u32; sheet::SHEET];
    let mut book = [7u32; book::BOOK];
    add_nodes(&mut half, &mut sheet);
    let other = half;
    show_merge(
        b"two books of 62 nodes:",
        &half,
        &other,
        &mut first,
        &mut rows,
    );
    show_load(b"a node more:", &mut first, &mut rows, b"\x11\x00\x00\x7E");
    let second = first;
    show_merge(
        b"full to the last node:",
        &first,
        &second,
        &mut book,
        &mut sheet,
    );
    show_words(b"root:", &book, 0, 1);
    show_words(b"node 255:", &book, 4719, 4721);
    show_load(b"a node more:", &mut first, &mut rows, b"\x11\x00\x00\x7F");
    show_whole(b"a node too few:", &first, &second);
}

// Opens the ladder.
fn open_ladder(book: &mut Book, sheet: &mut Sheet) {
    let _ = opening::open_ladder(book, sheet);
}

// Lends lists that are a word too short or too long.
fn lengths(mast: &Book) {
    let mut long = [65535u32; book::BOOK + 1];
    long[..book::BOOK].copy_from_slice(mast);
    let other = long;
    show_lengths(&long, &other);
}

fn main() {
    let mut fresh = [0u32; book::BOOK];
    let mut mast = [0u32; book::BOOK];
    let mut deep = [0u32; book::BOOK];
    let mut ladder = [0u32; book::BOOK];
    let mut sheet = [0u32; sheet::SHEET];
    make(&mut fresh, &mut sheet, b"");
    open_ladder(&mut ladder, &mut sheet);
    make(&mut mast, &mut sheet, &MAST);
    make(
        &mut deep,
        &mut sheet,
        b"\x12\x00\x00\x01\x00\x01\x12\x00\x01\x02\x00\x02\x12\x00\x02\x03\x00\x03\x12\x00\x03\x04\x00\x04\x12\x00\x04\x05\x00\x05\x12\x00\x05\x06\x00\x06\x12\x00\x06\x07\x00\x07",
    );
    let other = mast;
    merge_mast(&mast, &other);
    merge_holds(&mast);
    merge_leaves(&mast);
    lengths(&mast);
    refusals(&mast, &deep, &ladder);
    last_machine(&fresh);
    last_node();
}
