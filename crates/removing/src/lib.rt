// Remove (document 01, "Loading a stream"): a node, all below it and the transitions into it. The machines that go are found first, by a
// climb from each machine; then every node is looked at once.
#![tactic(auto)]

ghost use Rattle.std.specs.Prelude.{◌≡◌, ◌<◌, eqb, length};
ghost use Rattle.definitions.specs.Limits.{machines, nodes, commands, book_length, sheet_length};
ghost use Rattle.definitions.specs.Tree.{UsedNode};
ghost use Rattle.definitions.specs.Book.{tree_of, WellFormed};
ghost use Rattle.definitions.specs.Stream.{Edit};
ghost use Rattle.definitions.specs.Edit.{held_within, with_transition};
ghost use Rattle.book.specs.Fields.{Holds};
ghost use Rattle.book.specs.Chosen.{chosen};
ghost use Rattle.clearing.specs.Gone.{Sized};
ghost use Rattle.editing.specs.Edited.{Ready, Edited};
ghost use Rattle.removing.specs.Within.{Listed, not_into, without_into_at, goes_with, OwnerInRange, Linked, RemovedAt, NodesRemoved};

// 1 where node n or a node below it holds machine m, else 0.
fn held_within(book: &[u32], n: u32, m: u32) -> u32
    requires { WellFormed book.now × (m < machines) }
    ensures { eqb result 1 ≡ held_within (tree_of book.now) n m }
{
    let h = book::holder(book, m);
    if h == book::ABSENT {
        return 0;
    }
    u32::from(stepping::within(book, n, h))
}

// A list with 1 at each machine that node n or a node below it holds.
fn machines_within(book: &[u32], n: u32) -> [u32; 64]
    requires { WellFormed book.now }
    ensures { Listed machines (held_within (tree_of book.now) n) result }
{
    let mut list = [0u32; 64];
    for m in 0..book::MACHINES {
        list[m as usize] = held_within(book, n, m);
    }
    list
}

// Clears the transition of node k for command x where its target is n.
fn clear_into_at(book: &mut [u32], k: u32, x: u32, n: u32)
    requires { (length book.old ≡ book_length) × (k < nodes) × (x < commands) × (n < nodes) }
    ensures { Holds book.new (with_transition (tree_of book.old) k x (not_into n ((tree_of book.old).transition k x))) }
{
    let w = book::transition(book, k, x);
    if w / 65536 != n {
        return;
    }
    book::set_transition(book, k, x, book::BLANK);
}

// Clears every transition of node k whose target is n.
fn clear_into_from(book: &mut [u32], k: u32, n: u32)
    requires { (length book.old ≡ book_length) × (k < nodes) × (n < nodes) }
    ensures { Holds book.new (without_into_at (tree_of book.old) n k) }
{
    for x in 0..book::COMMANDS {
        clear_into_at(book, k, x, n);
    }
}

// 1 where node k is node n or the list has 1 at its machine, else another number.
fn goes_with(book: &[u32], gone: &[u32; 64], n: u32, k: u32) -> u32
    requires { (length book.now ≡ book_length) × (k < nodes) × OwnerInRange (tree_of book.now) k }
    ensures { eqb result 1 ≡ goes_with (tree_of book.now) (chosen gone.now) n k }
{
    if n == k {
        return 1;
    }
    let m = book::owner(book, k);
    if m == book::ABSENT {
        return 0;
    }
    gone[m as usize]
}

// Drops node k where it is node n or the list has 1 at its machine. Else clears its transitions into n, which it has none of where its
// machine is not p.
fn remove_at(book: &mut [u32], sheet: &mut [u32], gone: &[u32; 64], p: u32, n: u32, k: u32)
    requires { Sized book.old sheet.old × (n < nodes) × (k < nodes) × Linked (tree_of book.old) p n k }
    ensures { RemovedAt book.old sheet.old book.new sheet.new (goes_with (tree_of book.old) (chosen gone.now) n) n k }
{
    if goes_with(book, gone, n, k) == 1 {
        clearing::drop_node(book, sheet, k);
        return;
    }
    if book::owner(book, k) != p {
        return;
    }
    clear_into_from(book, k, n);
}

// Drops node n and the nodes below it, and clears the transitions into n. The list has 1 at each machine that n or a node below it holds. Every node
// is looked at once; its machine is read before its record is emptied.
fn remove_nodes(book: &mut [u32], sheet: &mut [u32], gone: &[u32; 64], n: u32)
    requires { WellFormed book.old × (length sheet.old ≡ sheet_length) × UsedNode (tree_of book.old) n × Listed machines (held_within (tree_of book.old) n) gone.now }
    ensures { NodesRemoved book.old sheet.old book.new sheet.new n }
{
    let p = book::owner(book, n);
    for k in 0..book::NODES {
        remove_at(book, sheet, gone, p, n, k);
    }
}

// Remove: drops node n, all below it and the transitions into it. It marks the machine of n and all above it; all else stays.
pub fn do_remove(book: &mut [u32], sheet: &mut [u32], n: u32)
    requires { Ready book.old sheet.old (Edit.remove n) }
    ensures { Edited book.old sheet.old (Edit.remove n) book.new sheet.new }
{
    marking::touch(book, sheet, n);
    let gone = machines_within(book, n);
    remove_nodes(book, sheet, &gone, n);
    clearing::clear_machines(book, sheet, &gone);
}
