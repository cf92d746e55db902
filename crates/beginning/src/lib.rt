// Begin (document 01, "Loading a stream"): the old tree is emptied, and one machine, as root, is left with its start node.
#![tactic(auto)]

ghost use Rattle.std.specs.Prelude.{◌<◌};
ghost use Rattle.definitions.specs.Limits.{machines, nodes};
ghost use Rattle.definitions.specs.Book.{tree_of};
ghost use Rattle.definitions.specs.Stream.{Edit};
ghost use Rattle.sheet.specs.Fields.{Marks};
ghost use Rattle.clearing.specs.Gone.{Sized};
ghost use Rattle.editing.specs.Edited.{Edited};
ghost use Rattle.beginning.specs.Empty.{Emptied};

// Leaves every record, every hold, every row and every mark as those of unused numbers are; the root's word stays.
fn empty(book: &mut [u32], sheet: &mut [u32])
    requires { Sized book.old sheet.old × Marks sheet.old }
    ensures { Emptied (tree_of book.old).root book.new sheet.new }
{
    let every_node = [1u32; 256];
    clearing::clear_nodes(book, sheet, &every_node);
    let every_machine = [1u32; 64];
    clearing::clear_machines(book, sheet, &every_machine);
}

// Begin: makes the book machine m alone, as root, with its start node n, and the sheet blank with m marked.
pub fn do_begin(book: &mut [u32], sheet: &mut [u32], m: u32, n: u32)
    requires { Sized book.old sheet.old × Marks sheet.old × (m < machines) × (n < nodes) }
    ensures { Edited book.old sheet.old (Edit.begin m n) book.new sheet.new }
{
    empty(book, sheet);
    book::set_root(book, m);
    book::set_start(book, m, n);
    book::set_owner(book, n, m);
    sheet::set_stale(sheet, m, 1);
}
