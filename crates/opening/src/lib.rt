// Opening (document 01): a book and a sheet written whole from a table of rows. Both openings are 'open these rows', and differ in
// their table alone.
#![tactic(auto)]

ghost use Rattle.std.specs.Prelude.{◌≡◌, List, ℕ, ◌+◌, ◌*◌, ◌-◌, ◌^◌, ◌≤◌, ◌<◌, eqb, length};
ghost use Rattle.definitions.specs.Limits.{machines, nodes, book_length, sheet_length, absent};
ghost use Rattle.definitions.specs.Tree.{used_machine};
ghost use Rattle.definitions.specs.Book.{word, encode, tree_of};
ghost use Rattle.definitions.specs.Sheet.{encode_rows};
ghost use Rattle.definitions.specs.Open.{fresh, ladder, ladder_machines, open_rows};
ghost use Rattle.definitions.specs.Ladder.{ladder_rows};
ghost use Rattle.definitions.specs.Open.{row_length, row_count, cell};
ghost use Rattle.opening.specs.Rows.{next_lower, grown, free, root_of, row_tree};
ghost use Rattle.definitions.specs.Calls.{OpenSays};
ghost use Rattle.book.specs.Fields.{Holds};
ghost use Rattle.refusals.specs.Meaning.{status_of};
ghost use Rattle.opening.specs.Writes.{OpenedAs, with_held, with_started, with_links};

use refusals::Refusal;

mod table;

// How many numbers a row of a table has.
const ROW: usize = 3;

// Leaves no machine and no node in a book, as it is with none of a table's rows.
fn clear(book: &mut [u32])
    requires { length book.old ≡ book_length }
    ensures { (rows : List ℕ) → Holds book.new (grown rows 0 absent) }
{
    book::set_root(book, book::ABSENT);
    for m in 0..book::MACHINES {
        book::clear_machine(book, m);
    }
    for n in 0..book::NODES {
        book::clear_node(book, n);
    }
}

// The number at place k of row n.
pub fn row(rows: &[u32], n: u32, k: u32) -> u32
    requires { (n < row_count rows.now) × (n < nodes) × (k < row_length) }
    ensures { result ≡ cell rows.now n k }
{
    let i = ROW * (n as usize) + (k as usize);
    rows[i]
}

// The next lower node of node n's machine.
fn lower(rows: &[u32], n: u32) -> u32
    requires { (n < row_count rows.now) × (n < nodes) }
    ensures { result ≡ word (next_lower rows.now n) }
{
    let owner = row(rows, n, 0);
    if owner == book::ABSENT {
        return book::ABSENT;
    }
    for i in (0..n).rev() {
        if row(rows, i, 0) == owner {
            return i;
        }
    }
    book::ABSENT
}

// Writes node n as the holder of the machine below it, where there is one.
fn set_holder(book: &mut [u32], n: u32, below: u32)
    requires { (length book.old ≡ book_length) × (n < nodes) }
    ensures { Holds book.new (with_held (tree_of book.old) n below) }
{
    if below < book::MACHINES {
        book::set_holder(book, below, n);
    }
}

// Writes node n as the start of its machine, where its row says so.
fn set_start(book: &mut [u32], n: u32, owner: u32, start: u32)
    requires { (length book.old ≡ book_length) × (n < nodes) }
    ensures { Holds book.new (with_started (tree_of book.old) n owner start) }
{
    if start != 1 {
        return;
    }
    if owner < book::MACHINES {
        book::set_start(book, owner, n);
    }
}

// Writes the transitions between node n and its next lower node, where there is one.
fn set_link(book: &mut [u32], n: u32, lower: u32)
    requires { (length book.old ≡ book_length) × (n < nodes) }
    ensures { Holds book.new (with_links (tree_of book.old) n lower) }
{
    if lower < book::NODES {
        book::set_transition(book, n, 0, lower * 65536 + 1);
        book::set_transition(book, lower, 1, n * 65536 + 1);
    }
}

// Writes row n into a book that has the rows before it.
fn set_row(book: &mut [u32], rows: &[u32], n: u32)
    requires { (n < row_count rows.now) × (n < nodes) × Holds book.old (grown rows.now n absent) }
    ensures { Holds book.new (grown rows.now (n + 1) absent) }
{
    let owner = row(rows, n, 0);
    let below = row(rows, n, 1);
    book::set_owner(book, n, owner);
    book::set_below(book, n, below);
    set_holder(book, n, below);
    set_start(book, n, owner, row(rows, n, 2));
    set_link(book, n, lower(rows, n));
}

// Writes the rows of a table into a book that has none.
fn set_rows(book: &mut [u32], rows: &[u32])
    requires { (row_count rows.now ≤ nodes) × Holds book.old (grown rows.now 0 absent) }
    ensures { Holds book.new (grown rows.now (row_count rows.now) absent) }
{
    let count = rows.len() / ROW;
    for n in 0..count as u32 {
        set_row(book, rows, n);
    }
}

// Whether machine m is in use and no node holds it.
fn is_free(book: &[u32], m: u32) -> bool
    requires { (length book.now ≡ book_length) × (m < machines) }
    ensures { result ≡ free (tree_of book.now) m }
{
    if book::start(book, m) == book::ABSENT {
        return false;
    }
    book::holder(book, m) == book::ABSENT
}

// The machine of a book that no node holds.
fn root(book: &[u32]) -> u32
    requires { length book.now ≡ book_length }
    ensures { result ≡ root_of (tree_of book.now) }
{
    let mut r = book::ABSENT;
    for m in 0..book::MACHINES {
        if is_free(book, m) {
            r = m;
        }
    }
    r
}

// Writes the book of a table's rows.
pub fn open_book(book: &mut [u32], rows: &[u32])
    requires { (length book.old ≡ book_length) × (row_count rows.now ≤ nodes) }
    ensures { Holds book.new (row_tree rows.now) }
{
    clear(book);
    set_rows(book, rows);
    let r = root(book);
    book::set_root(book, r);
}

// The mark of machine m where every machine in use is stale.
fn mark(book: &[u32], m: u32) -> u32
    requires { (length book.now ≡ book_length) × (m < machines) }
    ensures { (result < 2) × (eqb result 1 ≡ used_machine (tree_of book.now) m) }
{
    if book::start(book, m) == book::ABSENT {
        return 0;
    }
    1
}

// Marks every machine of a book, and leaves all else in the sheet blank.
pub fn open_sheet(book: &[u32], sheet: &mut [u32])
    requires { (length book.now ≡ book_length) × (length sheet.old ≡ sheet_length) }
    ensures { sheet.new ≡ encode_rows (open_rows (tree_of book.now)) }
{
    sheet::clear_marks(sheet);
    for m in 0..book::MACHINES {
        sheet::set_stale(sheet, m, mark(book, m));
        sheet::blank_machine_row(sheet, m);
    }
    for n in 0..book::NODES {
        sheet::blank_node_row(sheet, n);
    }
}

// Opens the tree of a table's rows: writes every word of both lists.
pub fn open_rows(book: &mut [u32], sheet: &mut [u32], rows: &[u32])
    requires { (length book.old ≡ book_length) × (length sheet.old ≡ sheet_length) × (row_count rows.now ≤ nodes) }
    ensures book { book.new ≡ encode (row_tree rows.now) }
    ensures sheet { sheet.new ≡ encode_rows (open_rows (row_tree rows.now)) }
{
    open_book(book, rows);
    open_sheet(book, sheet);
}

// Opens the tree of a table's rows where both lists have their lengths; else it refuses 1, and nothing is written.
fn open_checked(book: &mut [u32], sheet: &mut [u32], rows: &[u32]) -> Result<(), Refusal>
    requires { row_count rows.now ≤ nodes }
    ensures { OpenedAs (row_tree rows.now) book.old sheet.old (status_of result) book.new sheet.new }
{
    if book.len() != book::BOOK || sheet.len() != sheet::SHEET {
        return Err(Refusal::WrongLength);
    }
    open_rows(book, sheet, rows);
    Ok(())
}

// Open fresh: makes root 0 with start node 0, marked, in the book and the sheet. It refuses a wrong length of either list with 1 and then
// writes nothing.
pub fn open_fresh(book: &mut [u32], sheet: &mut [u32]) -> Result<(), Refusal>
    ensures { OpenSays fresh book.old sheet.old (status_of result) book.new sheet.new }
{
    open_checked(book, sheet, &table::FRESH)
}

// Open ladder: makes the ladder's 63 machines, all marked, in the book and the sheet. It refuses a wrong length of either list with 1 and
// then writes nothing.
pub fn open_ladder(book: &mut [u32], sheet: &mut [u32]) -> Result<(), Refusal>
    ensures { OpenSays ladder book.old sheet.old (status_of result) book.new sheet.new }
{
    open_checked(book, sheet, &table::LADDER)
}

// The number at place k of row n of Open ladder's constant table: its rows are those that the generator writes for depth 6 (document 02, W-208).
pub fn ladder_number(n: u32, k: u32) -> u32
    requires { (n < 3 * ladder_machines) × (k < row_length) }
    ensures { result ≡ cell (ladder_rows (2 ^ 6 - 1)) n k }
{
    row(&table::LADDER, n, k)
}
