// A session on standard output (document 01, "Writing, choosing, the session"): turns from a book opened fresh to the end of the input, the
// line of each written. That the turns are the session's, and how many lines they make, is promised; that each line's bytes reach standard
// output, once and in this order, no promise can say, and is seen by running.
#![tactic(auto)]

ghost use Rattle.definitions.specs.Book.{tree_of, WellFormed};
ghost use Rattle.definitions.specs.Sheet.{rows_of};
ghost use Rattle.definitions.specs.Truth.{TrueSheet};
ghost use Rattle.definitions.specs.Open.{fresh_tree, open_rows};
ghost use Rattle.printing.specs.Meaning.{OpenedFresh, LinesMade, SessionMade};

use lines::Line;

// The descriptor of standard output.
const STDOUT_FILENO: i32 = 1;

// How many bytes of its input a session reads.
pub const INPUT: usize = 65536;

// Opens fresh. Both lengths are right, so Open refuses nothing.
fn open_book(book: &mut [u32; book::BOOK], sheet: &mut [u32; sheet::SHEET])
    ensures { OpenedFresh book.new sheet.new }
{
    let _ = opening::open_fresh(book, sheet);
}

// Makes the turns on an input and writes the line of each; how many lines there are.
fn print_lines(book: &mut [u32], sheet: &mut [u32], input: &[u8]) -> usize
    requires { WellFormed book.old × TrueSheet (tree_of book.old) sheet.old }
    ensures { LinesMade input.now (tree_of book.old) (rows_of sheet.old) result book.new sheet.new }
{
    let mut line = [0u8; lines::LINE];
    let mut at = 0usize;
    let mut count = 0usize;
    while let Some(Line { size, next }) = lines::next_line(book, sheet, input, at, &mut line) {
        io::write_all(STDOUT_FILENO, &line[..size]);
        at = next;
        count += 1;
    }
    count
}

// Opens fresh and prints the lines for the whole of an input.
fn print_input(book: &mut [u32; book::BOOK], sheet: &mut [u32; sheet::SHEET], input: &[u8]) -> usize
    ensures { LinesMade input.now fresh_tree (open_rows fresh_tree) result book.new sheet.new }
{
    open_book(book, sheet);
    print_lines(book, sheet, input)
}

// A whole session: opens fresh and prints the lines for an input, of which 65,536 bytes are read; how many lines there are. Book and sheet
// are left as the last turn leaves them.
pub fn print_session(
    book: &mut [u32; book::BOOK],
    sheet: &mut [u32; sheet::SHEET],
    input: &[u8],
) -> usize
    ensures { SessionMade input.now result book.new sheet.new }
{
    if INPUT < input.len() {
        return print_input(book, sheet, &input[..INPUT]);
    }
    print_input(book, sheet, input)
}
