// Every call on random books, on torn ones and on lists of other lengths, by node and by command.
ghost use Rattle.std.specs.Prelude.{◌<◌};

use crate::both;
use crate::chance::{Stream, any_word, fill, make, near};
use crate::layout::{Book, Sheet, turn};
use crate::tally::{Tally, count};
use trying::{draw, once_in};

// The lengths of a book and of a sheet, and of those that are a word short.
const WHOLE_BOOK: usize = book::BOOK;

const SHORT_BOOK: usize = book::BOOK - 1;

const WHOLE_SHEET: usize = sheet::SHEET;

const SHORT_SHEET: usize = sheet::SHEET - 1;

// A random stream.
fn load_any(
    book: &mut Book,
    other: &mut Book,
    sheet: &mut Sheet,
    second: &mut Sheet,
    seed: &mut u64,
    tally: &mut Tally,
) {
    let mut stream = [0u8; 32];
    let length = make(seed, &mut stream).min(32);
    count(
        &mut tally.load,
        both::load(book, other, sheet, second, &stream[..length]),
    );
}

// A node of a book by node that is in use, or a state; where none is found, and now and then, any number.
fn pick(book: &[u32], seed: &mut u64, plain: bool) -> u32 {
    if once_in(seed, 12) {
        return draw(seed, 300);
    }
    for _ in 0..90 {
        let n = draw(seed, 64) % 64;
        let at = 129 + 18 * (n as usize);
        if at + 1 < book.len() {
            if book[at] != 65535 && (!plain || book[at + 1] == 65535) {
                return n;
            }
        }
    }
    draw(seed, 64)
}

// A state.
fn state(book: &[u32], seed: &mut u64) -> u32 {
    pick(book, seed, true)
}

// Exit, Step and Choose.
fn ask(book: &[u32], other: &[u32], sheet: &[u32], seed: &mut u64, tally: &mut Tally) {
    let m = near(seed, 4);
    let x = near(seed, 5);
    let a = state(book, seed);
    let b = state(book, seed);
    let mut first = [0u8; 32];
    let mut second = [0u8; 32];
    fill(seed, &mut first);
    fill(seed, &mut second);
    count(&mut tally.exit, both::exit(book, other, sheet, m, x));
    count(&mut tally.step, both::step(book, other, a, x));
    choose(book, other, a, b, &first, &second, tally);
}

// Choose, by both its calls.
fn choose<'a>(
    book: &[u32],
    other: &[u32],
    a: u32,
    b: u32,
    first: &'a Stream,
    second: &'a Stream,
    tally: &mut Tally,
) {
    count(
        &mut tally.choice,
        both::choice(book, other, a, b, first, second),
    );
    count(
        &mut tally.choose,
        both::choose(book, other, a, b, first, second),
    );
}

// Plan and Write, with outputs that are long enough and with some that may not be.
fn put(book: &[u32], other: &[u32], sheet: &[u32], seed: &mut u64, tally: &mut Tally) {
    let a = state(book, seed);
    let b = state(book, seed);
    put_into::<255, 4000>(book, other, sheet, a, b, tally);
    if once_in(seed, 4) {
        put_into::<6, 60>(book, other, sheet, a, b, tally);
    }
}

// Plan from a to b, and Write, with outputs of so many bytes.
fn put_into<const PLAN: usize, const STREAM: usize>(
    book: &[u32],
    other: &[u32],
    sheet: &[u32],
    a: u32,
    b: u32,
    tally: &mut Tally,
)
    requires plan { PLAN < 65536 }
    requires stream { STREAM < 65536 }
{
    let mut buffer = [255u8; PLAN];
    let mut second = [255u8; PLAN];
    count(
        &mut tally.plan,
        both::plan(book, other, sheet, a, b, &mut buffer, &mut second),
    );
    let mut out = [255u8; STREAM];
    let mut again = [255u8; STREAM];
    count(
        &mut tally.write,
        both::write(book, other, &mut out, &mut again),
    );
}

// Three walkers.
fn walk(book: &[u32], other: &[u32], seed: &mut u64, tally: &mut Tally) {
    let n = pick(book, seed, false);
    let k = near(seed, 4);
    let mut walkers = [state(book, seed), state(book, seed), state(book, seed)];
    let mut second = walkers;
    count(
        &mut tally.open_walkers,
        both::open_walkers(book, other, n, k, &walkers),
    );
    let w = near(seed, 3);
    let x = near(seed, 5);
    count(
        &mut tally.walk,
        both::walk(book, other, n, k, &mut walkers, &mut second, w, x),
    );
}

// The calls that write no book.
fn read_calls(book: &[u32], other: &[u32], sheet: &[u32], seed: &mut u64, tally: &mut Tally) {
    ask(book, other, sheet, seed, tally);
    put(book, other, sheet, seed, tally);
    walk(book, other, seed, tally);
}

// Merge with the mast book, before it and behind it.
fn merge(book: &[u32], other: &[u32], mast: &Book, turned: &Book, tally: &mut Tally) {
    let mut third = [7u32; book::BOOK];
    let mut third_other = [7u32; book::BOOK];
    let mut sheet = [7u32; sheet::SHEET];
    let mut second = [7u32; sheet::SHEET];
    count(
        &mut tally.merge,
        both::merge(
            book,
            other,
            mast,
            turned,
            &mut third,
            &mut third_other,
            &mut sheet,
            &mut second,
        ),
    );
    count(
        &mut tally.merge,
        both::merge(
            mast,
            turned,
            book,
            other,
            &mut third,
            &mut third_other,
            &mut sheet,
            &mut second,
        ),
    );
}

// The ladder's table of depth 2, most often with a number changed.
fn open_any(
    book: &mut [u32],
    other: &mut [u32],
    sheet: &mut [u32],
    second: &mut [u32],
    seed: &mut u64,
    tally: &mut Tally,
) {
    let mut rows = [0u32; 27];
    let _ = ladders::ladder(2, &mut rows);
    let i = (draw(seed, 27) % 27) as usize;
    rows[i] = near(seed, 3);
    count(
        &mut tally.table,
        both::open_table(&rows, book, other, sheet, second),
    );
}

// Open fresh and Open ladder.
fn open_both(
    book: &mut [u32],
    other: &mut [u32],
    sheet: &mut [u32],
    second: &mut [u32],
    tally: &mut Tally,
) {
    count(
        &mut tally.fresh,
        both::open_fresh(book, other, sheet, second),
    );
    count(
        &mut tally.ladder,
        both::open_ladder(book, other, sheet, second),
    );
}

// Merge of the mast book with itself.
fn merge_into(
    mast: &Book,
    turned: &Book,
    book: &mut [u32],
    other: &mut [u32],
    sheet: &mut [u32],
    second: &mut [u32],
    tally: &mut Tally,
) {
    count(
        &mut tally.merge,
        both::merge(mast, turned, mast, turned, book, other, sheet, second),
    );
}

// The calls that write a book and read none before.
fn write_calls(
    book: &mut [u32],
    other: &mut [u32],
    sheet: &mut [u32],
    second: &mut [u32],
    mast: &Book,
    turned: &Book,
    seed: &mut u64,
    tally: &mut Tally,
) {
    open_both(book, other, sheet, second, tally);
    open_any(book, other, sheet, second, seed, tally);
    merge_into(mast, turned, book, other, sheet, second, tally);
}

// Every call. Those that write a book write over the words that the last one left.
fn every_call(
    book: &mut Book,
    other: &mut Book,
    sheet: &mut Sheet,
    second: &mut Sheet,
    mast: &Book,
    turned: &Book,
    seed: &mut u64,
    tally: &mut Tally,
) {
    read_calls(book, other, sheet, seed, tally);
    merge(book, other, mast, turned, tally);
    load_any(book, other, sheet, second, seed, tally);
    write_calls(book, other, sheet, second, mast, turned, seed, tally);
}

// Changes a word of a book, or now and then of its sheet.
fn tear(book: &mut Book, sheet: &mut Sheet, seed: &mut u64) {
    let w = any_word(seed);
    if once_in(seed, 4) {
        sheet[(draw(seed, 400) % 400) as usize] = w;
    } else if once_in(seed, 2) {
        book[(draw(seed, 5057) % 5057) as usize] = w;
    } else {
        book[(draw(seed, 700) % 700) as usize] = w;
    }
}

// Every call on a copy of a book and a sheet, as they are or torn.
fn on_copy(
    book: &Book,
    sheet: &Sheet,
    torn: bool,
    mast: &Book,
    turned: &Book,
    seed: &mut u64,
    tally: &mut Tally,
) {
    let mut one = *book;
    let mut rows = *sheet;
    if torn {
        tear(&mut one, &mut rows, seed);
    }
    let mut other = [7u32; book::BOOK];
    turn(&one, &mut other);
    let mut second = rows;
    every_call(
        &mut one,
        &mut other,
        &mut rows,
        &mut second,
        mast,
        turned,
        seed,
        tally,
    );
}

// Opens a book by node: the ladder, or fresh and with the machines 1, 2 and 3 one below the other.
fn open(book: &mut Book, sheet: &mut Sheet, ladder: bool) {
    if ladder {
        let _ = opening::open_ladder(book, sheet);
    } else {
        let _ = opening::open_fresh(book, sheet);
        loading::load(
            book,
            sheet,
            b"\x11\x00\x00\x04\x12\x00\x04\x01\x00\x01\x11\x01\x00\x05\x12\x00\x05\x02\x00\x02\x12\x00\x02\x03\x00\x03",
        );
    }
}

// Refreshes a book in both layouts.
fn refresh(
    book: &mut [u32],
    other: &mut [u32],
    sheet: &mut [u32],
    second: &mut [u32],
    tally: &mut Tally,
) {
    count(
        &mut tally.load,
        both::load(book, other, sheet, second, b"\x18"),
    );
}

// Refreshes a book, most often.
fn load_last(
    book: &mut Book,
    other: &mut Book,
    sheet: &mut Sheet,
    second: &mut Sheet,
    seed: &mut u64,
    tally: &mut Tally,
) {
    if !once_in(seed, 6) {
        refresh(book, other, sheet, second, tally);
    }
}

// A book that random streams build, in both layouts. After every fourth it is most often refreshed, and every call is made on a copy of it and on
// one that is torn.
pub fn run_book(ladder: bool, mast: &Book, turned: &Book, seed: &mut u64, tally: &mut Tally) {
    let mut book = [0u32; book::BOOK];
    let mut other = [0u32; book::BOOK];
    let mut sheet = [0u32; sheet::SHEET];
    open(&mut book, &mut sheet, ladder);
    turn(&book, &mut other);
    let mut second = sheet;
    for i in 0..64 {
        load_any(&mut book, &mut other, &mut sheet, &mut second, seed, tally);
        if i % 4 == 3 {
            load_last(&mut book, &mut other, &mut sheet, &mut second, seed, tally);
            on_copy(&book, &sheet, false, mast, turned, seed, tally);
            on_copy(&book, &sheet, true, mast, turned, seed, tally);
        }
    }
}

// Every call on a book and a sheet of these lengths, in both layouts, whose words are all the same.
fn run_lengths<const BOOK: usize, const SHEET: usize>(
    word: u32,
    mast: &Book,
    turned: &Book,
    seed: &mut u64,
    tally: &mut Tally,
)
    requires book { BOOK < 65536 }
    requires sheet { SHEET < 65536 }
{
    let mut book = [word; BOOK];
    let mut other = [word; BOOK];
    let mut sheet = [0u32; SHEET];
    let mut second = [0u32; SHEET];
    read_calls(&book, &other, &sheet, seed, tally);
    merge(&book, &other, mast, turned, tally);
    refresh(&mut book, &mut other, &mut sheet, &mut second, tally);
    write_calls(
        &mut book,
        &mut other,
        &mut sheet,
        &mut second,
        mast,
        turned,
        seed,
        tally,
    );
}

// Every call on books without words, on books that are a word short, and with sheets that are a word short.
pub fn run_wrong(mast: &Book, turned: &Book, seed: &mut u64, tally: &mut Tally) {
    run_lengths::<0, WHOLE_SHEET>(0, mast, turned, seed, tally);
    run_lengths::<SHORT_BOOK, WHOLE_SHEET>(65535, mast, turned, seed, tally);
    run_lengths::<WHOLE_BOOK, SHORT_SHEET>(0, mast, turned, seed, tally);
}
