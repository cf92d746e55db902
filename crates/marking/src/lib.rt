// Marking (document 01, "Loading a stream"): the machine edited and all above it are marked and blanked. The climb stops at the first
// machine that is marked already: in a true sheet its row is blank, and every machine above it is marked and blank too. The nodes are
// looked at once, after the climb, and only where it marked a machine.
#![tactic(auto)]

ghost use Rattle.std.specs.Prelude.{◌≡◌, true, ◌<◌, length};
ghost use Rattle.definitions.specs.Limits.{machines, nodes, sheet_length};
ghost use Rattle.definitions.specs.Tree.{UsedNode};
ghost use Rattle.definitions.specs.Book.{tree_of, WellFormed};
ghost use Rattle.definitions.specs.Sheet.{rows_of};
ghost use Rattle.definitions.specs.Truth.{TrueSheet};
ghost use Rattle.sheet.specs.Fields.{Leaves, with_mark, with_blank_machine};
ghost use Rattle.book.specs.Chosen.{chosen, only};
ghost use Rattle.marking.specs.Stale.{owned_by, LeavesBlank, MarkedOver, LeavesStaleOver};

// Marks machine m and makes its own row blank.
fn mark(sheet: &mut [u32], m: u32)
    requires { (length sheet.old ≡ sheet_length) × (m < machines) }
    ensures { Leaves sheet.old sheet.new (with_blank_machine (with_mark (rows_of sheet.old) m true) m) }
{
    sheet::set_stale(sheet, m, 1);
    sheet::blank_machine_row(sheet, m);
}

// Marks the machine of node n and those above it that are not marked yet, and makes their own rows blank. Gives a list with 1 at each of
// them.
fn mark_over(book: &[u32], sheet: &mut [u32], n: u32) -> [u32; 64]
    requires { WellFormed book.now × TrueSheet (tree_of book.now) sheet.old × UsedNode (tree_of book.now) n }
    ensures { MarkedOver (tree_of book.now) n sheet.old sheet.new result }
{
    let mut list = [0u32; 64];
    let mut k = n;
    loop {
        let m = book::owner(book, k);
        if sheet::stale(sheet, m) == 1 {
            return list;
        }
        mark(sheet, m);
        list[m as usize] = 1;
        let h = book::holder(book, m);
        if h == book::ABSENT {
            return list;
        }
        k = h;
    }
}

// Makes the row of node n blank where the list has 1 at its machine.
fn blank_if_owned(book: &[u32], sheet: &mut [u32], list: &[u32; 64], n: u32)
    requires { WellFormed book.now × (length sheet.old ≡ sheet_length) × (n < nodes) }
    ensures { LeavesBlank sheet.old sheet.new (only (owned_by (tree_of book.now) (chosen list.now)) n) }
{
    let m = book::owner(book, n);
    if m == book::ABSENT {
        return;
    }
    if list[m as usize] != 1 {
        return;
    }
    sheet::blank_node_row(sheet, n);
}

// Makes the rows of the nodes blank whose machine the list has 1 at.
fn blank_nodes(book: &[u32], sheet: &mut [u32], list: &[u32; 64])
    requires { WellFormed book.now × (length sheet.old ≡ sheet_length) }
    ensures { LeavesBlank sheet.old sheet.new (owned_by (tree_of book.now) (chosen list.now)) }
{
    for n in 0..book::NODES {
        blank_if_owned(book, sheet, list, n);
    }
}

// Marks and blanks the machine of node n and all above it; every other row stays.
pub fn touch(book: &[u32], sheet: &mut [u32], n: u32)
    requires { WellFormed book.now × TrueSheet (tree_of book.now) sheet.old × UsedNode (tree_of book.now) n }
    ensures { LeavesStaleOver (tree_of book.now) n sheet.old sheet.new }
{
    let m = book::owner(book, n);
    if sheet::stale(sheet, m) == 1 {
        return;
    }
    let list = mark_over(book, sheet, n);
    blank_nodes(book, sheet, &list);
}
