// Tables opened, run (document 02, W-208): the generator's tables for every depth, with plans on what they open, and that of depth 6 against
// Open ladder; a table with gaps, its book and a plan; each kind of table that does not open, and each length that is wrong. A row is owner,
// machine below and 1 for a start; 65535 is "none".
#![tactic(auto)]

use planning::Planned;
use trying::{front, front_mut, number, say_no, show_words, status, text};

// A book and a sheet.
type Book = [u32; book::BOOK];

type Sheet = [u32; sheet::SHEET];

// The rows of the longest table, 189, and a row more.
type Rows = [u32; 570];

// What stands in a list before a call: no call here writes it.
const BEFORE: u32 = 77777;

// How many words of a list, from a place on, are not as before the call.
fn changed(list: &[u32], from: usize) -> u64 {
    list.iter()
        .skip(from)
        .filter(|word| **word != BEFORE)
        .count() as u64
}

// How many words two lists have different, as far as both go.
fn different(one: &[u32], other: &[u32]) -> u64 {
    one.iter().zip(other).filter(|(a, b)| a != b).count() as u64
}

// Has the generator write into the front of a list, and gives where its words end; 0 where it refuses. It says how many there are, or the refusal.
fn write_front(depth: u32, out: &mut [u32], room: usize) -> usize {
    match ladders::ladder(depth, front_mut(out, room)) {
        Ok(n) => {
            number(n);
            n as usize
        }
        Err(refusal) => {
            say_no(refusal);
            0
        }
    }
}

// The generator with so much room in a longer list, and how many words of the list changed after those that it wrote.
fn show_ladder(t: &[u8], depth: u32, room: usize) {
    let mut out = [BEFORE; 570];
    text(t);
    let end = write_front(depth, &mut out, room);
    text(b", changed after");
    number(changed(&out, end));
    text(b"\n");
}

// Each depth, with room to spare; depths out of range; too little room.
fn show_ladders() {
    show_ladder(b"depth 1:", 1, 570);
    show_ladder(b"depth 2:", 2, 570);
    show_ladder(b"depth 3:", 3, 570);
    show_ladder(b"depth 4:", 4, 570);
    show_ladder(b"depth 5:", 5, 570);
    show_ladder(b"depth 6:", 6, 570);
    show_ladder(b"depth 0:", 0, 570);
    show_ladder(b"depth 7:", 7, 570);
    show_ladder(b"depth 1 in 9 words:", 1, 9);
    show_ladder(b"depth 1 in 8 words:", 1, 8);
    show_ladder(b"depth 6 in 567 words:", 6, 567);
    show_ladder(b"depth 6 in 566 words:", 6, 566);
    show_ladder(b"depth 0 in no words:", 0, 0);
    show_ladder(b"depth 7 in no words:", 7, 0);
}

// Writes cost and count of a plan, or the refusal.
fn show_plan(t: &[u8], book: &Book, sheet: &Sheet, from: u32, to: u32) {
    let mut plan = [0u8; 255];
    text(t);
    match planning::plan(book, sheet, from, to, &mut plan) {
        Ok(Planned { cost, count }) => {
            number(cost);
            number(count);
        }
        Err(refusal) => say_no(refusal),
    }
    text(b"\n");
}

// Refreshes a book.
fn refresh(book: &mut Book, sheet: &mut Sheet) {
    loading::load(book, sheet, b"\x18");
}

// Opens the ladder of a depth, refreshes it, and plans between its outermost states, there and back.
fn plan_depth(depth: u32, from: u32, to: u32) {
    let mut rows = [BEFORE; 570];
    let mut book = [BEFORE; book::BOOK];
    let mut sheet = [BEFORE; sheet::SHEET];
    text(b"ladder of");
    let end = write_front(depth, &mut rows, 570);
    text(b" words, opened:");
    let answer = ladders::open_table(front(&rows, end), &mut book, &mut sheet);
    number(status(answer.err()));
    refresh(&mut book, &mut sheet);
    show_plan(b", there:", &book, &sheet, from, to);
    show_plan(b"and back:", &book, &sheet, to, from);
}

// Every depth.
fn plan_depths() {
    plan_depth(1, 0, 2);
    plan_depth(2, 3, 8);
    plan_depth(3, 9, 20);
    plan_depth(4, 21, 44);
    plan_depth(5, 45, 92);
    plan_depth(6, 93, 188);
}

// How many words of a table are not those of Open ladder's constant table.
fn not_constant(rows: &Rows) -> u64 {
    let mut count = 0u64;
    for i in 0..567 {
        if rows[i as usize] != opening::ladder_number(i / 3, i % 3) {
            count = count.saturating_add(1);
        }
    }
    count
}

// The table of depth 6 and what it opens, against Open ladder.
fn against_ladder() {
    let mut rows = [BEFORE; 570];
    let mut book = [BEFORE; book::BOOK];
    let mut sheet = [BEFORE; sheet::SHEET];
    let mut other = [0u32; book::BOOK];
    let mut marks = [0u32; sheet::SHEET];
    let _ = ladders::ladder(6, &mut rows);
    let _ = ladders::open_table(front(&rows, 567), &mut book, &mut sheet);
    let _ = opening::open_ladder(&mut other, &mut marks);
    text(b"depth 6 against Open ladder, different words:");
    number(not_constant(&rows));
    number(different(&book, &other));
    number(different(&sheet, &marks));
    text(b"\n");
}

// The table of Open fresh's one row, against Open fresh.
fn against_fresh() {
    let mut book = [BEFORE; book::BOOK];
    let mut sheet = [BEFORE; sheet::SHEET];
    let mut other = [0u32; book::BOOK];
    let mut marks = [0u32; sheet::SHEET];
    let _ = ladders::open_table(&[0, 65535, 1], &mut book, &mut sheet);
    let _ = opening::open_fresh(&mut other, &mut marks);
    text(b"one row against Open fresh, different words:");
    number(different(&book, &other));
    number(different(&sheet, &marks));
    text(b"\n");
}

// Opens the front of a table into the first words of two lists, so many of each, and writes the number of the refusal, or 0, and how many words
// of the lists changed.
fn open_fronts(
    rows: &[u32],
    count: usize,
    book: &mut [u32],
    one: usize,
    sheet: &mut [u32],
    two: usize,
) {
    let answer = ladders::open_table(
        front(rows, count),
        front_mut(book, one),
        front_mut(sheet, two),
    );
    number(status(answer.err()));
    text(b", changed");
    number(changed(book, 0));
    number(changed(sheet, 0));
    text(b"\n");
}

// Writes a text, and opens the front of a table into lists that are a word longer than a book and a sheet, so many words of each.
fn show_lengths(t: &[u8], rows: &[u32], count: usize, one: usize, two: usize) {
    let mut book = [BEFORE; book::BOOK + 1];
    let mut sheet = [BEFORE; sheet::SHEET + 1];
    text(t);
    open_fronts(rows, count, &mut book, one, &mut sheet, two);
}

// The same with a book and a sheet of their right lengths.
fn show_open(t: &[u8], rows: &[u32], count: usize) {
    show_lengths(t, rows, count, book::BOOK, sheet::SHEET);
}

// The same with the whole table.
fn show_table(t: &[u8], rows: &[u32]) {
    show_open(t, rows, rows.len());
}

// A table with gaps: machine 40, the root, has the nodes 1, 3 and 8 and starts at 3, which holds machine 7; that has 2, 6 and 9 and starts at 9;
// 6 holds machine 63, which has 4 and 7 and starts at 4.
const GAPS: [u32; 30] = [
    65535, // node 0
    65535, 0, 40, // node 1
    65535, 0, 7, // node 2
    65535, 0, 40, // node 3
    7, 1, 63, // node 4
    65535, 1, 65535, // node 5
    65535, 0, 7, // node 6
    63, 0, 63, // node 7
    65535, 0, 40, // node 8
    65535, 0, 7, // node 9
    65535, 1,
];

// The words of the nodes of the table with gaps: owner, machine below, and the transitions for the commands 0, 1 and 2.
fn show_nodes(book: &Book) {
    show_words(b"node 0:", book, 129, 134);
    show_words(b"node 1:", book, 147, 152);
    show_words(b"node 2:", book, 165, 170);
    show_words(b"node 3:", book, 183, 188);
    show_words(b"node 4:", book, 201, 206);
    show_words(b"node 5:", book, 219, 224);
    show_words(b"node 6:", book, 237, 242);
    show_words(b"node 7:", book, 255, 260);
    show_words(b"node 8:", book, 273, 278);
    show_words(b"node 9:", book, 291, 296);
    show_words(b"node 10:", book, 309, 314);
}

// The table with gaps: its machines and nodes, and plans.
fn show_gaps() {
    let mut book = [BEFORE; book::BOOK];
    let mut sheet = [BEFORE; sheet::SHEET];
    let _ = ladders::open_table(&GAPS, &mut book, &mut sheet);
    show_words(b"root:", &book, 0, 1);
    show_words(b"holder and start of machine 0:", &book, 1, 3);
    show_words(b"of machine 7:", &book, 15, 17);
    show_words(b"of machine 40:", &book, 81, 83);
    show_words(b"of machine 63:", &book, 127, 129);
    show_nodes(&book);
    show_plan(b"1 to 7, not refreshed:", &book, &sheet, 1, 7);
    refresh(&mut book, &mut sheet);
    show_plan(b"1 to 7:", &book, &sheet, 1, 7);
    show_plan(b"7 to 8:", &book, &sheet, 7, 8);
    show_plan(b"2 to 9:", &book, &sheet, 2, 9);
    show_plan(b"8 to 2:", &book, &sheet, 8, 2);
}

// Tables whose starts are wrong, or whose numbers are.
fn wrong_rows() {
    show_table(b"no rows:", &[]);
    show_table(b"an unused row alone:", &[65535, 65535, 0]);
    show_table(b"a start of 2:", &[0, 65535, 1, 0, 65535, 2]);
    show_table(b"a second start:", &[0, 65535, 1, 0, 65535, 1]);
    show_table(b"a machine without a start:", &[0, 1, 1, 1, 65535, 0]);
    show_table(b"a root without a start:", &[0, 65535, 0]);
    show_table(b"an owner of 64:", &[0, 65535, 1, 64, 65535, 0]);
    show_table(b"a machine below of 64:", &[0, 64, 1]);
    show_table(b"an owner of 65536:", &[0, 65535, 1, 65536, 65535, 0]);
    show_table(
        b"no owner, and a machine below:",
        &[0, 65535, 1, 65535, 1, 0, 1, 65535, 1],
    );
    show_table(
        b"no owner, and a start of 1:",
        &[0, 65535, 1, 65535, 65535, 1],
    );
}

// Tables whose machines make no tree.
fn wrong_trees() {
    show_table(b"two holders:", &[0, 1, 1, 0, 1, 0, 1, 65535, 1]);
    show_table(b"a held machine without rows:", &[0, 1, 1]);
    show_table(b"two roots:", &[0, 65535, 1, 1, 65535, 1]);
    show_table(b"two machines that hold each other:", &[0, 1, 1, 1, 0, 1]);
    show_table(b"a machine that holds itself:", &[0, 0, 1]);
    show_table(
        b"a root and two that hold each other:",
        &[0, 65535, 1, 1, 2, 1, 2, 1, 1],
    );
}

// The number at a place of a table with one machine on each of so many levels, of one node each.
fn chain_number(levels: u32, i: u32) -> u32 {
    let n = i / 3;
    if i % 3 == 0 {
        return n;
    }
    if i % 3 == 2 {
        return 1;
    }
    if n + 1 < levels { n + 1 } else { 65535 }
}

// The number at a place of a table whose rows are all in machine 63, which starts at node 0.
fn line_number(i: u32) -> u32 {
    if i == 2 {
        return 1;
    }
    if i % 3 == 0 {
        return 63;
    }
    if i % 3 == 1 { 65535 } else { 0 }
}

// Fills a table with so many levels; with 0 the table of one machine.
fn fill(rows: &mut Rows, levels: u32) {
    for i in 0..570 {
        rows[i as usize] = if levels == 0 {
            line_number(i)
        } else {
            chain_number(levels, i)
        };
    }
}

// Tables of eight and nine levels.
fn deep_tables(rows: &mut Rows) {
    fill(rows, 8);
    show_open(b"eight levels:", rows, 24);
    fill(rows, 9);
    show_open(b"nine levels:", rows, 27);
}

// Tables of 189 rows and more, and parts of rows.
fn long_tables(rows: &Rows) {
    show_open(b"189 rows:", rows, 567);
    show_open(b"190 rows:", rows, 570);
    show_open(b"189 rows and a word:", rows, 568);
    show_open(b"a word less:", rows, 566);
    show_open(b"a row:", rows, 3);
    show_open(b"two words:", rows, 2);
    show_open(b"a row and a word:", rows, 4);
}

// A book and a sheet of a word more or less.
fn wrong_lengths(rows: &Rows) {
    let n = book::BOOK;
    let k = sheet::SHEET;
    show_lengths(b"book short:", rows, 3, n - 1, k);
    show_lengths(b"book long:", rows, 3, n + 1, k);
    show_lengths(b"sheet short:", rows, 3, n, k - 1);
    show_lengths(b"sheet long:", rows, 3, n, k + 1);
    show_lengths(b"book short before no rows:", rows, 0, n - 1, k);
    show_lengths(b"sheet long before no rows:", rows, 0, n, k + 1);
}

fn main() {
    show_ladders();
    plan_depths();
    against_ladder();
    against_fresh();
    show_gaps();
    wrong_rows();
    wrong_trees();
    let mut rows = [0u32; 570];
    deep_tables(&mut rows);
    fill(&mut rows, 0);
    long_tables(&rows);
    wrong_lengths(&rows);
    show_open(
        b"a word less before a second start:",
        &[0, 65535, 1, 0, 65535, 1],
        5,
    );
}
