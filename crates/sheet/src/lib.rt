// The words of a sheet (document 01, "Book and sheet in memory"), read and written one at a time. A sheet here has its 2,880 words, and
// numbers are in range; what a word says is then what the sheet's rows say, and a store changes one field of those rows. BLANK and ABSENT
// are the book's. From book and sheet together: what leaving a node costs.
#![tactic(auto)]

ghost use Rattle.std.specs.Prelude.{◌≡◌, cond, ◌+◌, ◌*◌, ◌%◌, ◌<◌, eqb, length, set};
ghost use Rattle.definitions.specs.Limits.{machines, nodes, commands, book_length, sheet_length, absent};
ghost use Rattle.definitions.specs.Book.{word, number, tree_of};
ghost use Rattle.definitions.specs.Sheet.{machine_row_length, node_row_length, cost_word, cost_of, node_row, machine_row_word, rows_of};
ghost use Rattle.definitions.specs.Truth.{node_exit};
ghost use Rattle.sheet.specs.Exits.{Readable, Exits};
ghost use Rattle.sheet.specs.Fields.{Mark, Marks, Leaves, with_mark, with_exit, with_last, with_cost, with_before, with_by, with_node_row};
ghost use Rattle.sheet.specs.Fields.{with_blank_machine, with_blank_node};

// The words of a sheet.
pub const SHEET: usize = 2880;

// The word at place k of machine m's row.
fn machine_row_word(sheet: &[u32], m: u32, k: u32) -> u32
    requires { (length sheet.now ≡ sheet_length) × (m < machines) × (k < machine_row_length) }
    ensures { result ≡ machine_row_word sheet.now m k }
{
    let i = (m as usize) * 33 + (k as usize);
    sheet[i]
}

// The word at place k of node n's row.
fn node_row_word(sheet: &[u32], n: u32, k: u32) -> u32
    requires { (length sheet.now ≡ sheet_length) × (n < nodes) × (k < node_row_length) }
    ensures { result ≡ node_row (rows_of sheet.now) n k }
{
    let i = 2112 + (n as usize) * 3 + (k as usize);
    sheet[i]
}

// The mark of machine m, whatever word it is: 1 where m is stale.
pub fn stale(sheet: &[u32], m: u32) -> u32
    requires { (length sheet.now ≡ sheet_length) × (m < machines) }
    ensures { Mark sheet.now m result }
{
    machine_row_word(sheet, m, 0)
}

// The exit cost of machine m for command x; BLANK where none is written.
pub fn exit(sheet: &[u32], m: u32, x: u32) -> u32
    requires { (length sheet.now ≡ sheet_length) × (m < machines) × (x < commands) }
    ensures { result ≡ cost_word ((rows_of sheet.now).exit m x) }
{
    machine_row_word(sheet, m, 1 + x)
}

// The node where machine m's exit for command x ends; ABSENT where none is written.
pub fn last(sheet: &[u32], m: u32, x: u32) -> u32
    requires { (length sheet.now ≡ sheet_length) × (m < machines) × (x < commands) }
    ensures { result ≡ word ((rows_of sheet.now).last m x) }
{
    machine_row_word(sheet, m, 17 + x)
}

// The cost of node n from its machine's start; BLANK where none is written.
pub fn cost(sheet: &[u32], n: u32) -> u32
    requires { (length sheet.now ≡ sheet_length) × (n < nodes) }
    ensures { result ≡ cost_word ((rows_of sheet.now).cost n) }
{
    node_row_word(sheet, n, 0)
}

// The node before node n; ABSENT where none is written.
pub fn before(sheet: &[u32], n: u32) -> u32
    requires { (length sheet.now ≡ sheet_length) × (n < nodes) }
    ensures { result ≡ word ((rows_of sheet.now).before n) }
{
    node_row_word(sheet, n, 1)
}

// The command before node n; ABSENT where none is written.
pub fn by(sheet: &[u32], n: u32) -> u32
    requires { (length sheet.now ≡ sheet_length) × (n < nodes) }
    ensures { result ≡ word ((rows_of sheet.now).by n) }
{
    node_row_word(sheet, n, 2)
}

// What leaving machine b costs; 0 where b is ABSENT. A word is read in either case, so that no jump is needed.
fn left_at(book: &[u32], b: u32) -> u32
    requires { length book.now ≡ book_length }
    ensures { result ≡ cond (eqb b absent) 0 ((tree_of book.now).leave (b % machines)) }
{
    let c = book::leave(book, b % book::MACHINES);
    if b == book::ABSENT { 0 } else { c }
}

// The own exit cost of node n for command x, none where no list leaves it by x: 0 for a plain node, and for a refined one what the sheet says of the
// machine below it and what leaving that machine costs. Whether n is plain cannot be foreseen: a word is read in either case, so that no jump is needed.
pub fn own_exit(book: &[u32], sheet: &[u32], n: u32, x: u32) -> Option<u64>
    requires { Readable book.now sheet.now × (n < nodes) × (x < commands) }
    ensures { Exits (node_exit (tree_of book.now) (rows_of sheet.now) n x) result }
{
    let b = book::below(book, n);
    let e = exit(sheet, b % book::MACHINES, x);
    let left = left_at(book, b);
    let own = if b == book::ABSENT { 0 } else { e };
    if own == book::BLANK {
        return None;
    }
    let cost = u64::from(own) + u64::from(left);
    Some(cost)
}

// Makes v the word at place k of machine m's row; every other word stays.
fn set_machine_row_word(sheet: &mut [u32], m: u32, k: u32, v: u32)
    requires { (length sheet.old ≡ sheet_length) × (m < machines) × (k < machine_row_length) }
    ensures { sheet.new ≡ set sheet.old (m * machine_row_length + k) v }
{
    let i = (m as usize) * 33 + (k as usize);
    sheet[i] = v;
}

// Makes v the word at place k of node n's row; every other word stays.
fn set_node_row_word(sheet: &mut [u32], n: u32, k: u32, v: u32)
    requires { (length sheet.old ≡ sheet_length) × (n < nodes) × (k < node_row_length) }
    ensures { Leaves sheet.old sheet.new (with_node_row (rows_of sheet.old) n k v) }
{
    let i = 2112 + (n as usize) * 3 + (k as usize);
    sheet[i] = v;
}

// Makes b, 0 or 1, the mark of machine m; its row stays.
pub fn set_stale(sheet: &mut [u32], m: u32, b: u32)
    requires { (length sheet.old ≡ sheet_length) × (m < machines) × (b < 2) }
    ensures { Leaves sheet.old sheet.new (with_mark (rows_of sheet.old) m (eqb b 1)) }
{
    set_machine_row_word(sheet, m, 0, b);
}

// Makes every mark 0, whatever words stood there.
pub fn clear_marks(sheet: &mut [u32])
    requires { length sheet.old ≡ sheet_length }
    ensures { Marks sheet.new }
{
    for m in 0..book::MACHINES {
        set_machine_row_word(sheet, m, 0, 0);
    }
}

// Makes v the exit cost of machine m for command x; BLANK for none.
pub fn set_exit(sheet: &mut [u32], m: u32, x: u32, v: u32)
    requires { (length sheet.old ≡ sheet_length) × (m < machines) × (x < commands) }
    ensures { Leaves sheet.old sheet.new (with_exit (rows_of sheet.old) m x (cost_of v)) }
{
    set_machine_row_word(sheet, m, 1 + x, v);
}

// Makes v the last node of machine m for command x; ABSENT for none.
pub fn set_last(sheet: &mut [u32], m: u32, x: u32, v: u32)
    requires { (length sheet.old ≡ sheet_length) × (m < machines) × (x < commands) }
    ensures { Leaves sheet.old sheet.new (with_last (rows_of sheet.old) m x (number v)) }
{
    set_machine_row_word(sheet, m, 17 + x, v);
}

// Makes v the cost of node n; BLANK for none.
pub fn set_cost(sheet: &mut [u32], n: u32, v: u32)
    requires { (length sheet.old ≡ sheet_length) × (n < nodes) }
    ensures { Leaves sheet.old sheet.new (with_cost (rows_of sheet.old) n (cost_of v)) }
{
    set_node_row_word(sheet, n, 0, v);
}

// Makes v the node before node n; ABSENT for none.
pub fn set_before(sheet: &mut [u32], n: u32, v: u32)
    requires { (length sheet.old ≡ sheet_length) × (n < nodes) }
    ensures { Leaves sheet.old sheet.new (with_before (rows_of sheet.old) n (number v)) }
{
    set_node_row_word(sheet, n, 1, v);
}

// Makes v the command before node n; ABSENT for none.
pub fn set_by(sheet: &mut [u32], n: u32, v: u32)
    requires { (length sheet.old ≡ sheet_length) × (n < nodes) }
    ensures { Leaves sheet.old sheet.new (with_by (rows_of sheet.old) n (number v)) }
{
    set_node_row_word(sheet, n, 2, v);
}

// Makes the row of machine m blank; its mark stays.
pub fn blank_machine_row(sheet: &mut [u32], m: u32)
    requires { (length sheet.old ≡ sheet_length) × (m < machines) }
    ensures { Leaves sheet.old sheet.new (with_blank_machine (rows_of sheet.old) m) }
{
    for x in 0..book::COMMANDS {
        set_exit(sheet, m, x, book::BLANK);
        set_last(sheet, m, x, book::ABSENT);
    }
}

// Makes the row of node n blank.
pub fn blank_node_row(sheet: &mut [u32], n: u32)
    requires { (length sheet.old ≡ sheet_length) × (n < nodes) }
    ensures { Leaves sheet.old sheet.new (with_blank_node (rows_of sheet.old) n) }
{
    set_cost(sheet, n, book::BLANK);
    set_before(sheet, n, book::ABSENT);
    set_by(sheet, n, book::ABSENT);
}
