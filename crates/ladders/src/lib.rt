// Ladders of a caller's own (document 02, W-208): Open from a lent table of rows, and the generator, which writes the ladder's rows for a depth.
#![tactic(auto)]

ghost use Rattle.std.specs.Prelude.{◌≡◌, ℕ, ◌+◌, ◌*◌, ◌-◌, ◌^◌, ◌≤◌, ◌<◌};
ghost use Rattle.definitions.specs.Limits.{nodes};
ghost use Rattle.definitions.specs.Tree.{Tree};
ghost use Rattle.definitions.specs.Book.{word, tree_of, WellFormed};
ghost use Rattle.definitions.specs.Edit.{is_start};
ghost use Rattle.definitions.specs.Open.{ladder_machines, ladder_below, row_count, TableLength, table, ComesOf};
ghost use Rattle.definitions.specs.Calls.{OpenSays};
ghost use Rattle.definitions.specs.Ladder.{ladder_row, ladder_rows, LadderSays};
ghost use Rattle.book.specs.Decides.{Decides};
ghost use Rattle.storing.specs.Stored.{Stored};
ghost use Rattle.refusals.specs.Meaning.{status_of};
ghost use Rattle.ladders.specs.Meaning.{StartRight, answer_of};

use refusals::Refusal;
use storing::{put, put_each};

// The most numbers that a table has: 189 rows of 3.
const LONGEST: usize = 567;

// Whether a table has whole rows, 189 at most.
fn right_length(rows: &[u32]) -> bool
    ensures { Decides result (TableLength rows.now) }
{
    rows.len() % 3 == 0 && rows.len() <= LONGEST
}

// Whether node n of a book is the start node of its machine.
fn is_start_node(book: &[u32], n: u32) -> bool
    requires { WellFormed book.now × (n < nodes) }
    ensures { result ≡ is_start (tree_of book.now) n }
{
    let m = book::owner(book, n);
    m != book::ABSENT && book::start(book, m) == n
}

// Whether row n has 1 for a start exactly where the book has one there, else 0.
fn start_right(book: &[u32], rows: &[u32], n: u32) -> bool
    requires { WellFormed book.now × (n < row_count rows.now) × (n < nodes) }
    ensures { Decides result (StartRight (tree_of book.now) rows.now n) }
{
    opening::row(rows, n, 2) == u32::from(is_start_node(book, n))
}

// Whether every row has the start that the book has.
fn starts_right(book: &[u32], rows: &[u32]) -> bool
    requires { WellFormed book.now × (row_count rows.now ≤ nodes) }
    ensures { Decides result ((n : ℕ) → n < row_count rows.now → StartRight (tree_of book.now) rows.now n) }
{
    let count = rows.len() / 3;
    for n in 0..count as u32 {
        if !start_right(book, rows, n) {
            return false;
        }
    }
    true
}

// Whether a book comes of the rows that is well formed. It is filled in a place of its own.
fn opens(rows: &[u32]) -> bool
    requires { row_count rows.now ≤ nodes }
    ensures { Decides result ((t : Tree) × ComesOf (table rows.now) t) }
{
    let mut book = [0u32; book::BOOK];
    opening::open_book(&mut book, rows);
    wellformed::well_formed(&book) && starts_right(&book, rows)
}

// Open from a table: makes the tree of the rows, all its machines marked, in the book and the sheet. It refuses 1 (a wrong length of any of the
// three lists) and 2 (no book comes of the rows, or none that is well formed), and then writes nothing.
pub fn open_table(rows: &[u32], book: &mut [u32], sheet: &mut [u32]) -> Result<(), Refusal>
    ensures { OpenSays (table rows.now) book.old sheet.old (status_of result) book.new sheet.new }
{
    if book.len() != book::BOOK || sheet.len() != sheet::SHEET || !right_length(rows) {
        return Err(Refusal::WrongLength);
    }
    if !opens(rows) {
        return Err(Refusal::NotWellFormed);
    }
    opening::open_rows(book, sheet, rows);
    Ok(())
}

// How many machines the ladder of a depth has: 2 to the depth, less 1.
fn machine_count(depth: u32) -> u32
    requires { depth ≤ 6 }
    ensures { result ≡ 2 ^ depth - 1 }
{
    2u32.pow(depth) - 1
}

// The machine below node n in the ladder of c machines; ABSENT where there is none.
fn below(c: u32, n: u32) -> u32
    requires { (c ≤ ladder_machines) × (n < 3 * c) }
    ensures { result ≡ word (ladder_below c n) }
{
    let k = n % 3;
    if k == 1 {
        return book::ABSENT;
    }
    let m = 2 * (n / 3) + 1 + k / 2;
    if m < c { m } else { book::ABSENT }
}

// Stores row n of the ladder of c machines at a place, as far as the list goes; the next place.
fn put_row(out: &mut [u32], at: usize, c: u32, n: u32) -> usize
    requires { (at + 3 < 2 ^ 64) × (c ≤ ladder_machines) × (n < 3 * c) }
    ensures { Stored out.old at (ladder_row c n) result out.new }
{
    let second = put(out, at, n / 3);
    let third = put(out, second, below(c, n));
    put(out, third, u32::from(n % 3 == 1))
}

// Stores the rows of the ladder of c machines at the front of a list, as far as it goes; how many numbers they have.
fn put_rows(out: &mut [u32], c: u32) -> usize
    requires { c ≤ ladder_machines }
    ensures { Stored out.old 0 (ladder_rows c) result out.new }
{
    put_each(3 * c, out, 0, |n, list, at| put_row(list, at, c, n))
}

// The generator: the rows of the ladder of a depth at the front of out, the rest of out untouched, and how many numbers they have. It refuses 24
// (a depth outside 1 to 6), then 15 (out too short), with nothing written.
pub fn ladder(depth: u32, out: &mut [u32]) -> Result<u32, Refusal>
    ensures { LadderSays depth out.old (answer_of result) out.new }
{
    if depth == 0 || 6 < depth {
        return Err(Refusal::BadDepth);
    }
    let c = machine_count(depth);
    if out.len() < 9 * (c as usize) {
        return Err(Refusal::NoRoom);
    }
    let n = put_rows(out, c);
    Ok(n as u32)
}
