// Numbers that fall out of use (document 01, "Loading a stream"): their words in book and sheet are left as an unused one has them, the
// mark of a machine 0. A list has 1 at each number that falls out of use.
#![tactic(auto)]

ghost use Rattle.std.specs.Prelude.{◌<◌};
ghost use Rattle.definitions.specs.Limits.{machines, nodes};
ghost use Rattle.book.specs.Chosen.{chosen, only, up_to};
ghost use Rattle.clearing.specs.Gone.{Sized, NodeDropped, MachineDropped, NodesGone, MachinesGone};

// Leaves the record, the hold and the row of node n as an unused node has them.
pub fn drop_node(book: &mut [u32], sheet: &mut [u32], n: u32)
    requires { Sized book.old sheet.old × (n < nodes) }
    ensures { NodeDropped book.old sheet.old book.new sheet.new n }
{
    book::clear_node(book, n);
    sheet::blank_node_row(sheet, n);
}

// Leaves the record, the leaving cost, the row and the mark of machine m as an unused machine has them.
fn drop_machine(book: &mut [u32], sheet: &mut [u32], m: u32)
    requires { Sized book.old sheet.old × (m < machines) }
    ensures { MachineDropped book.old sheet.old book.new sheet.new m }
{
    book::clear_machine(book, m);
    sheet::blank_machine_row(sheet, m);
    sheet::set_stale(sheet, m, 0);
}

// Drops node n where the list has 1 at it.
fn drop_node_if(book: &mut [u32], sheet: &mut [u32], gone: &[u32; 256], n: u32)
    requires { Sized book.old sheet.old × (n < nodes) }
    ensures { NodesGone book.old sheet.old book.new sheet.new (only (chosen gone.now) n) }
{
    let here = gone[n as usize];
    if here != 1 {
        return;
    }
    drop_node(book, sheet, n);
}

// Drops machine m where the list has 1 at it.
fn drop_machine_if(book: &mut [u32], sheet: &mut [u32], gone: &[u32; 64], m: u32)
    requires { Sized book.old sheet.old × (m < machines) }
    ensures { MachinesGone book.old sheet.old book.new sheet.new (only (chosen gone.now) m) }
{
    let here = gone[m as usize];
    if here != 1 {
        return;
    }
    drop_machine(book, sheet, m);
}

// Drops every node where the list has 1 at it.
pub fn clear_nodes(book: &mut [u32], sheet: &mut [u32], gone: &[u32; 256])
    requires { Sized book.old sheet.old }
    ensures { NodesGone book.old sheet.old book.new sheet.new (up_to (chosen gone.now) nodes) }
{
    for n in 0..book::NODES {
        drop_node_if(book, sheet, gone, n);
    }
}

// Drops every machine where the list has 1 at it.
pub fn clear_machines(book: &mut [u32], sheet: &mut [u32], gone: &[u32; 64])
    requires { Sized book.old sheet.old }
    ensures { MachinesGone book.old sheet.old book.new sheet.new (up_to (chosen gone.now) machines) }
{
    for m in 0..book::MACHINES {
        drop_machine_if(book, sheet, gone, m);
    }
}
