// Each call on both layouts of the mast book: document 01's numbers, and a refusal of each kind.
ghost use Rattle.std.specs.Prelude.{◌<◌};

use crate::both;
use crate::both::{Both, Values};
use crate::layout::{Book, Sheet, turn};
use crate::tally::show;
use trying::{front, numbers, say, status, text};

// Writes a text and what a load answers on copies of a book and a sheet.
fn show_load(t: &[u8], book: &Book, other: &Book, sheet: &Sheet, stream: &[u8]) {
    let mut one = *book;
    let mut two = *other;
    let mut rows = *sheet;
    let mut second = *sheet;
    show(
        t,
        both::load(&mut one, &mut two, &mut rows, &mut second, stream),
    );
}

// Writes a text and what the opening from a table answers over lists of sevens.
fn show_table(t: &[u8], table: &[u32]) {
    let mut one = [7u32; book::BOOK];
    let mut two = [7u32; book::BOOK];
    let mut rows = [7u32; sheet::SHEET];
    let mut second = [7u32; sheet::SHEET];
    show(
        t,
        both::open_table(table, &mut one, &mut two, &mut rows, &mut second),
    );
}

// The openings; Open fresh of a book that is a word short, and over the ladder.
pub fn show_openings() {
    show_table(b"open from a table of one row:", &[0, 65535, 1]);
    show_table(b"from one of two starts:", &[0, 65535, 1, 0, 65535, 1]);
    show_table(b"from one of two words:", &[0, 65535]);
    let mut one = [7u32; book::BOOK];
    let mut two = [7u32; book::BOOK];
    let mut rows = [7u32; sheet::SHEET];
    let mut second = [7u32; sheet::SHEET];
    let mut short = [7u32; book::BOOK - 1];
    let mut less = [7u32; book::BOOK - 1];
    show(
        b"open fresh, a word less:",
        both::open_fresh(&mut short, &mut less, &mut rows, &mut second),
    );
    show(
        b"open ladder:",
        both::open_ladder(&mut one, &mut two, &mut rows, &mut second),
    );
    show(
        b"open fresh:",
        both::open_fresh(&mut one, &mut two, &mut rows, &mut second),
    );
}

// Loads into the mast book.
pub fn show_loads(book: &Book, other: &Book, sheet: &Sheet) {
    show_load(b"load refresh:", book, other, sheet, b"\x18");
    show_load(b"load nothing:", book, other, sheet, b"");
    show_load(
        b"hold node 11, leaving machine 1 costs 9:",
        book,
        other,
        sheet,
        b"\x1A\x00\x0B\x01\x1B\x01\x00\x09",
    );
    show_load(
        b"refine to level 9:",
        book,
        other,
        sheet,
        b"\x12\x00\x0A\x02\x00\x14\x12\x00\x14\x03\x00\x15\x12\x00\x15\x04\x00\x16\x12\x00\x16\x05\x00\x17\x12\x00\x17\x06\x00\x18\x12\x00\x18\x07\x00\x19\x12\x00\x19\x08\x00\x1A",
    );
    refuse_loads(book, other, sheet);
}

// A refusal of each kind by Load.
fn refuse_loads(b: &Book, c: &Book, sheet: &Sheet) {
    show_load(b"a cut stream:", b, c, sheet, b"\x18\x11\x00\x00");
    show_load(b"an unknown opcode:", b, c, sheet, b"\x18\x19");
    show_load(b"add to machine 64:", b, c, sheet, b"\x11\x40\x00\x03");
    show_load(b"add to machine 2:", b, c, sheet, b"\x11\x02\x00\x03");
    show_load(b"add node 2 again:", b, c, sheet, b"\x11\x00\x00\x02");
    show_load(b"refine 1 again:", b, c, sheet, b"\x12\x00\x01\x02\x00\x03");
    show_load(b"remove node 10:", b, c, sheet, b"\x13\x00\x0A");
    show_load(
        b"from 0 to 10:",
        b,
        c,
        sheet,
        b"\x14\x00\x00\x00\x00\x0A\x00\x01",
    );
    show_load(b"hold node 0:", b, c, sheet, b"\x1A\x00\x00\x01");
    show_load(b"leaving the root:", b, c, sheet, b"\x1B\x00\x00\x01");
}

// Writes a text and what a step answers.
fn show_step(t: &[u8], book: &Book, other: &Book, state: u32, command: u32) {
    show(t, both::step(book, other, state, command));
}

// Steps.
pub fn show_steps(book: &Book, other: &Book) {
    show_step(b"step 11 by 1:", book, other, 11, 1);
    show_step(b"step 10 by 1:", book, other, 10, 1);
    show_step(b"step 11 by 0:", book, other, 11, 0);
    show_step(b"step 1 by 0:", book, other, 1, 0);
    show_step(b"step 255 by 0:", book, other, 255, 0);
    show_step(b"step 256 by 0:", book, other, 256, 0);
    show_step(b"step 0 by 16:", book, other, 0, 16);
}

// Writes a text and what an exit answers.
fn show_exit(t: &[u8], book: &Book, other: &Book, sheet: &Sheet, m: u32, x: u32) {
    show(t, both::exit(book, other, sheet, m, x));
}

// Exits of both machines.
fn show_costs(book: &Book, other: &Book, sheet: &Sheet) {
    show_exit(b"exit 1 by 0:", book, other, sheet, 1, 0);
    show_exit(b"exit 1 by 1:", book, other, sheet, 1, 1);
    show_exit(b"exit 1 by 2:", book, other, sheet, 1, 2);
    show_exit(b"exit 0 by 0:", book, other, sheet, 0, 0);
    show_exit(b"exit 0 by 1:", book, other, sheet, 0, 1);
    show_exit(b"exit 0 by 2:", book, other, sheet, 0, 2);
}

// Exits, also of machines that are none, and while machine 1 and the root are marked.
pub fn show_exits(book: &Book, other: &Book, sheet: &Sheet, marked: &Sheet) {
    show_costs(book, other, sheet);
    show_exit(b"exit 64 by 0:", book, other, sheet, 64, 0);
    show_exit(b"exit 2 by 0:", book, other, sheet, 2, 0);
    show_exit(b"exit 1 by 0, marked:", book, other, marked, 1, 0);
    show_no_exit(book, other, sheet);
}

// Machine 1 has no exit by 1 where node 11 has a transition for it too.
fn show_no_exit(book: &Book, other: &Book, sheet: &Sheet) {
    let mut one = *book;
    let mut two = *other;
    let mut rows = *sheet;
    let mut second = *sheet;
    both::load(
        &mut one,
        &mut two,
        &mut rows,
        &mut second,
        b"\x14\x00\x0B\x01\x00\x0A\x00\x01\x18",
    );
    show_exit(b"exit 1 by 1, 11 has it too:", &one, &two, &rows, 1, 1);
}

// Writes the commands of a plan.
fn show_commands(buffer: &[u8; 3], count: u64) {
    text(b" by");
    numbers(front(buffer, count as usize));
}

// Writes a text, the commands of a plan, and its cost and count, or the refusal.
fn show_plan(t: &[u8], book: &Book, other: &Book, sheet: &Sheet, a: u32, b: u32) {
    let mut buffer = [255u8; 3];
    let mut second = [255u8; 3];
    let plan = both::plan(book, other, sheet, a, b, &mut buffer, &mut second);
    text(t);
    if let Values::Two(_, count) = plan.values {
        show_commands(&buffer, count);
    }
    show(b":", plan);
}

// A plan from 0 to 2 after an edit.
fn show_changed(t: &[u8], book: &Book, other: &Book, sheet: &Sheet, stream: &[u8]) {
    let mut one = *book;
    let mut two = *other;
    let mut rows = *sheet;
    let mut second = *sheet;
    both::load(&mut one, &mut two, &mut rows, &mut second, stream);
    text(t);
    show_plan(b" plan 0 to 2", &one, &two, &rows, 0, 2);
}

// Plans, also after edits, with a buffer that is too short, and while machines are marked.
pub fn show_plans(book: &Book, other: &Book, sheet: &Sheet, marked: &Sheet) {
    show_plan(b"plan 0 to 2", book, other, sheet, 0, 2);
    show_plan(b"plan 2 to 11", book, other, sheet, 2, 11);
    show_plan(b"plan 11 to 10", book, other, sheet, 11, 10);
    show_plan(b"plan 0 to 0", book, other, sheet, 0, 0);
    show_plan(b"plan 0 to 256", book, other, sheet, 0, 256);
    show_plan(b"plan 0 to 255", book, other, sheet, 0, 255);
    show_plan(b"plan 0 to 1", book, other, sheet, 0, 1);
    show_plan(b"plan 0 to 2, marked", book, other, marked, 0, 2);
    show(
        b"plan 0 to 2 with 2 bytes:",
        both::plan(book, other, sheet, 0, 2, &mut [7u8; 2], &mut [7u8; 2]),
    );
    show_changes(book, other, sheet);
}

// Plans from 0 to 2 after edits.
fn show_changes(b: &Book, c: &Book, sheet: &Sheet) {
    show_changed(b"10's 1 cleared,", b, c, sheet, b"\x15\x00\x0A\x01\x18");
    show_changed(b"1's 1 cleared,", b, c, sheet, b"\x15\x00\x01\x01\x18");
    show_changed(
        b"and 0's 2,",
        b,
        c,
        sheet,
        b"\x15\x00\x01\x01\x15\x00\x00\x02\x18",
    );
    show_changed(b"11 held,", b, c, sheet, b"\x1A\x00\x0B\x01\x18");
    show_changed(b"leaving 1 costs 9,", b, c, sheet, b"\x1B\x01\x00\x09\x18");
}

// Writes a text and what Write answers for outputs of so many bytes.
fn show_write<const N: usize>(t: &[u8], book: &Book, other: &Book)
    requires { N < 65536 }
{
    show(t, both::write(book, other, &mut [7u8; N], &mut [7u8; N]));
}

// Writes a text and what both calls of Choose answer from 0 to a state.
fn show_choice<'a>(t: &[u8], book: &Book, other: &Book, b: u32, first: &'a [u8], second: &'a [u8]) {
    text(t);
    show(b" choice:", both::choice(book, other, 0, b, first, second));
    text(t);
    show(b" choose:", both::choose(book, other, 0, b, first, second));
}

// Write and Choose; in the second case both lists cost 20.
pub fn show_lists(b: &Book, c: &Book) {
    show_write::<70>(b"write into 70 bytes:", b, c);
    show_write::<69>(b"write into 69 bytes:", b, c);
    show_choice(b"0 to 2,", b, c, 2, b"\x02", b"\x00\x02\x01\x00");
    show_choice(
        b"equal cost,",
        b,
        c,
        2,
        b"\x02",
        b"\x00\x01\x01\x01\x01\x01\x01\x01\x01\x02\x01",
    );
    show_choice(b"none arrives,", b, c, 2, b"\x07", b"\x10\x02");
    show_choice(b"0 to 1,", b, c, 1, b"\x00", b"");
    show_choice(b"0 to 255,", b, c, 255, b"\x00", b"");
}

// Merges two books into lists of sevens.
fn show_merge(t: &[u8], first: &Book, first_other: &Book, second: &Book, second_other: &Book) {
    let mut one = [7u32; book::BOOK];
    let mut two = one;
    let mut rows = [7u32; sheet::SHEET];
    let mut again = rows;
    show(
        t,
        both::merge(
            first,
            first_other,
            second,
            second_other,
            &mut one,
            &mut two,
            &mut rows,
            &mut again,
        ),
    );
}

// The mast book merged with itself, with the ladder, with a fresh book, and with one of eight levels.
pub fn show_merges(book: &Book, other: &Book) {
    let mut one = [0u32; book::BOOK];
    let mut two = [0u32; book::BOOK];
    let mut sheet = [0u32; sheet::SHEET];
    show_merge(
        b"merge the mast book with itself:",
        book,
        other,
        book,
        other,
    );
    let _ = opening::open_ladder(&mut one, &mut sheet);
    turn(&one, &mut two);
    show_merge(b"merge the ladder with it:", &one, &two, book, other);
    let _ = opening::open_fresh(&mut one, &mut sheet);
    turn(&one, &mut two);
    show_merge(b"merge it with a fresh one:", book, other, &one, &two);
    loading::load(
        &mut one,
        &mut sheet,
        b"\x12\x00\x00\x01\x00\x01\x12\x00\x01\x02\x00\x02\x12\x00\x02\x03\x00\x03\x12\x00\x03\x04\x00\x04\x12\x00\x04\x05\x00\x05\x12\x00\x05\x06\x00\x06\x12\x00\x06\x07\x00\x07",
    );
    turn(&one, &mut two);
    show_merge(b"merge it with eight levels:", book, other, &one, &two);
}

// Writes a text and what a walker command answers.
fn show_walk(
    t: &[u8],
    book: &Book,
    other: &Book,
    limit: u32,
    walkers: &mut [u32; 3],
    w: u32,
    x: u32,
) {
    let mut second = *walkers;
    show(
        t,
        both::walk(book, other, 1, limit, walkers, &mut second, w, x),
    );
}

// Walkers, at most one of them inside node 1.
pub fn show_walkers(book: &Book, other: &Book) {
    let mut w = [0u32, 0, 2];
    show_open(b"open walkers:", book, other, 1, 1, &[0, 0, 2]);
    show_walk(b"walker 0 goes in:", book, other, 1, &mut w, 0, 0);
    show_walk(b"walker 1 may not:", book, other, 1, &mut w, 1, 0);
    show_walk(b"walker 0 inside:", book, other, 1, &mut w, 0, 2);
    show_walk(b"walker 0 stops:", book, other, 1, &mut w, 0, 0);
    show_walk(b"walker 0 goes out:", book, other, 1, &mut w, 0, 1);
    show_walk(b"walker 3:", book, other, 1, &mut w, 3, 1);
    show_walk(b"a limit of 9:", book, other, 9, &mut w, 0, 1);
    refuse_walkers(book, other);
}

// Writes a text and what an opening of walkers answers.
fn show_open(t: &[u8], book: &Book, other: &Book, node: u32, limit: u32, walkers: &[u32]) {
    show(t, both::open_walkers(book, other, node, limit, walkers));
}

// What the opening of walkers refuses.
fn refuse_walkers(b: &Book, c: &Book) {
    show_open(b"open walkers, too many inside:", b, c, 0, 0, &[0, 10]);
    show_open(b"open walkers, node 256:", b, c, 256, 1, &[0]);
    show_open(b"open walkers, node 3:", b, c, 3, 1, &[0]);
    show_open(b"open walkers, one at node 1:", b, c, 0, 1, &[1]);
    show_open(b"open nine walkers:", b, c, 0, 1, &[0; 9]);
}

// Writes a text and the number of the refusal, or 0, and counts how much is different.
fn brief(t: &[u8], both: Both, different: &mut u64) {
    say(t, status(both.refusal));
    *different = different.saturating_add(both.different);
}

// The calls with a sheet, on lists that may be no book or sheet.
fn with_sheet(book: &[u32], other: &[u32], sheet: &[u32], different: &mut u64) {
    brief(b" exit", both::exit(book, other, sheet, 1, 0), different);
    brief(
        b", plan",
        both::plan(book, other, sheet, 0, 2, &mut [7u8; 9], &mut [7u8; 9]),
        different,
    );
}

// The calls with a book alone.
fn with_book(book: &[u32], other: &[u32], different: &mut u64) {
    let mut w = [0u32; 3];
    let mut v = w;
    brief(b", step", both::step(book, other, 0, 0), different);
    brief(
        b", write",
        both::write(book, other, &mut [7u8; 99], &mut [7u8; 99]),
        different,
    );
    brief(
        b", choice",
        both::choice(book, other, 0, 2, b"\x02", b""),
        different,
    );
    brief(
        b", choose",
        both::choose(book, other, 0, 2, b"\x02", b""),
        different,
    );
    brief(
        b", open walkers",
        both::open_walkers(book, other, 1, 3, &w),
        different,
    );
    brief(
        b", walk",
        both::walk(book, other, 1, 3, &mut w, &mut v, 0, 0),
        different,
    );
}

// A line of what each call that writes no book answers, and how much is different by command.
fn show_every(t: &[u8], book: &[u32], other: &[u32], sheet: &[u32]) {
    let mut different = 0u64;
    text(t);
    with_sheet(book, other, sheet, &mut different);
    with_book(book, other, &mut different);
    say(b", different", different);
    text(b"\n");
}

// The same on a book, and a load.
fn show_book(t: &[u8], book: &Book, other: &Book, sheet: &Sheet) {
    show_every(t, book, other, sheet);
    show_load(b"and load:", book, other, sheet, b"\x18");
}

// Every call on the mast book, with a sheet that is not true, and on a torn book.
pub fn show_refused(mast: &Book, turned: &Book, sheet: &Sheet) {
    let mut one = *mast;
    let mut two = *turned;
    let mut rows = *sheet;
    show_book(b"numbers on the mast book:", &one, &two, &rows);
    rows[1] = 3;
    show_book(b"with a false sheet:", &one, &two, &rows);
    one[0] = 64;
    two[4096] = 64;
    show_book(b"on a torn book:", &one, &two, &rows);
    show_merge(b"merge, the first torn:", &one, &two, mast, turned);
    show_merge(b"merge, the second torn:", mast, turned, &one, &two);
    show_short(sheet);
}

// Every call on lists that are a word less than a book.
fn show_short(sheet: &Sheet) {
    let mut one = [0u32; book::BOOK - 1];
    let mut two = [0u32; book::BOOK - 1];
    let mut rows = [7u32; sheet::SHEET];
    let mut second = [7u32; sheet::SHEET];
    show_every(b"on a word less:", &one, &two, sheet);
    show(
        b"and load:",
        both::load(&mut one, &mut two, &mut rows, &mut second, b"\x18"),
    );
}
