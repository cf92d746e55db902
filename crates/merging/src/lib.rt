// Merge (document 02, W-201): a third book and its sheet from two books. Lists say where the second book's machines and nodes move and which
// came to a number; then the third book is written word by word, each from the first book, from the second or from the new root.
#![tactic(auto)]

ghost use Rattle.std.specs.Prelude.{◌≡◌, cond, ◌||◌, ℕ, ◌+◌, ◌<◌, eqb, length, get_or};
ghost use Rattle.definitions.specs.Limits.{machines, nodes, commands, book_length, absent};
ghost use Rattle.definitions.specs.Book.{transition_word, machine_fields, node_fields, machine_field, node_field, number};
ghost use Rattle.definitions.specs.Book.{encode, tree_of, WellFormed};
ghost use Rattle.definitions.specs.Edit.{any_lowest};
ghost use Rattle.definitions.specs.Answer.{InOrder};
ghost use Rattle.definitions.specs.Calls.{RightLengths};
ghost use Rattle.definitions.specs.Merge.{ranked, tree_refusals, MergeDone, MergeSays};
ghost use Rattle.book.specs.Recorded.{Recorded};
ghost use Rattle.refusals.specs.Meaning.{status_of, value_of};
ghost use Rattle.merging.specs.Merging.{size_of, used_of, unused_of, count_of, named_by, field_of, charge_of};
ghost use Rattle.merging.specs.Merging.{Flags, To, From, NodesMove, MoveLists, beside_tree, rooted_tree};

use refusals::Refusal;

// What is numbered: machines or nodes.
#[derive(Clone, Copy)]
enum Kind {
    Machines,
    Nodes,
}

// Where the second book's machines or nodes move and which moved to a number, by words as numbering writes them, and the two lowest numbers that are
// left after those, where there are any.
#[derive(Drop)]
struct Moves<const N: usize> {
    to: [u32; N],
    from: [u32; N],
    next: Option<u32>,
    after: Option<u32>,
}

// The new root, its node above the first book's root, its node above the second's, and the number that the second's root moved to.
#[derive(Clone, Copy)]
struct NewRoot {
    root: u32,
    first: u32,
    second: u32,
    top: u32,
}

// Whether a book uses a number.
fn used(book: &[u32], kind: Kind, k: u32) -> bool
    requires { WellFormed book.now × (k < size_of kind) }
    ensures { result ≡ used_of kind (tree_of book.now) k }
{
    match kind {
        Kind::Machines => book::start(book, k) != book::ABSENT,
        Kind::Nodes => book::owner(book, k) != book::ABSENT,
    }
}

// 1 for each number that a book uses, and 0 for the others; no flags, since numbering::moves, whose contract stays, goes by the words of lists.
fn marks<const N: usize>(book: &[u32], kind: Kind) -> [u32; N]
    requires { WellFormed book.now × (N ≡ size_of kind) }
    ensures { Flags (size_of kind) (used_of kind (tree_of book.now)) result }
{
    let mut marks = [0u32; N];
    for k in 0..N {
        marks[k] = u32::from(used(book, kind, k as u32));
    }
    marks
}

// The number of a word, which is none for ABSENT.
fn number(w: u32) -> Option<u32>
    ensures { value_of result ≡ number w }
{
    if w == book::ABSENT { None } else { Some(w) }
}

// Where the second book's machines or nodes move beside the first's.
fn renumber<const N: usize>(first: &[u32], second: &[u32], kind: Kind) -> Moves<N>
    requires { WellFormed first.now × WellFormed second.now × (N ≡ size_of kind) }
    ensures there { To kind first.now second.now result.to }
    ensures back { From kind first.now second.now result.from }
    ensures next { value_of result.next ≡ ranked (size_of kind) (unused_of kind (tree_of first.now)) (count_of kind (tree_of second.now)) }
    ensures last { value_of result.after ≡ ranked (size_of kind) (unused_of kind (tree_of first.now)) (count_of kind (tree_of second.now) + 1) }
{
    let kept: [u32; N] = marks(first, kind);
    let moving: [u32; N] = marks(second, kind);
    let mut to = [0u32; N];
    let mut from = [0u32; N];
    numbering::moves(&kept, 0, &moving, 1, &mut from);
    let next = numbering::moves(&moving, 1, &kept, 0, &mut to);
    let after = numbering::after(&kept, 0, next);
    Moves {
        to,
        from,
        next: number(next),
        after: number(after),
    }
}

// Word k of a machine's record, its holder or its start; the owner of a node (k = 0) or the machine below it (k = 1).
fn field(book: &[u32], kind: Kind, i: u32, k: u32) -> u32
    requires { WellFormed book.now × (i < size_of kind) × (k < 2) }
    ensures { result ≡ field_of kind (tree_of book.now) i k }
{
    match kind {
        Kind::Machines => book::machine_word(book, i, k),
        Kind::Nodes => book::node_word(book, i, k),
    }
}

// What leaving a machine costs; a node's hold.
fn charge(book: &[u32], kind: Kind, i: u32) -> u32
    requires { WellFormed book.now × (i < size_of kind) }
    ensures { result ≡ charge_of kind (tree_of book.now) i }
{
    match kind {
        Kind::Machines => book::leave(book, i),
        Kind::Nodes => book::hold(book, i),
    }
}

// Where the number of word w moved; ABSENT for ABSENT.
fn moved_word(to: &[u32], w: u32) -> u32
    requires { (w ≡ absent → ⊥) → w < length to.now }
    ensures { result ≡ cond (eqb w absent) absent (get_or to.now w 0) }
{
    if w == book::ABSENT {
        return book::ABSENT;
    }
    to[w as usize]
}

// Word k of a machine's or a node's record, with the second book's at their new numbers beside the first's.
fn beside_field(
    first: &[u32],
    second: &[u32],
    kind: Kind,
    from: &[u32],
    to: &[u32],
    i: u32,
    k: u32,
) -> u32
    requires { WellFormed first.now × WellFormed second.now × From kind first.now second.now from.now
        × To (named_by kind) first.now second.now to.now × (i < size_of kind) × (k < 2) }
    ensures { (s : ℕ) → result ≡ field_of kind (beside_tree first.now second.now s) i k }
{
    let own = field(first, kind, i, k);
    if own != book::ABSENT {
        return own;
    }
    let d = from[i as usize];
    if d == book::ABSENT {
        return book::ABSENT;
    }
    moved_word(to, field(second, kind, d, k))
}

// What leaving a machine costs, or a node's hold, with those of the second book at their new numbers beside the first's.
fn beside_charge(first: &[u32], second: &[u32], kind: Kind, from: &[u32], i: u32) -> u32
    requires { WellFormed first.now × WellFormed second.now × From kind first.now second.now from.now × (i < size_of kind) }
    ensures { (s : ℕ) → result ≡ charge_of kind (beside_tree first.now second.now s) i }
{
    let own = charge(first, kind, i);
    let d = from[i as usize];
    if d == book::ABSENT {
        return own;
    }
    own + charge(second, kind, d)
}

// The transition of node n for command x, with the second book's nodes at their new numbers beside the first's.
fn beside_transition(first: &[u32], second: &[u32], from: &[u32], to: &[u32], n: u32, x: u32) -> u32
    requires { WellFormed first.now × WellFormed second.now × From Kind.Nodes first.now second.now from.now
        × To Kind.Nodes first.now second.now to.now × NodesMove first.now second.now × (n < nodes) × (x < commands) }
    ensures { (s : ℕ) → result ≡ transition_word ((beside_tree first.now second.now s).transition n x) }
{
    let own = book::transition(first, n, x);
    if own != book::BLANK {
        return own;
    }
    let d = from[n as usize];
    if d == book::ABSENT {
        return book::BLANK;
    }
    let w = book::transition(second, d, x);
    if w == book::BLANK {
        return book::BLANK;
    }
    to[(w / 65536) as usize] * 65536 + w % 65536
}

// The node that holds machine m in the merged book.
fn merged_holder(first: &[u32], second: &[u32], from: &[u32], to: &[u32], h: NewRoot, m: u32) -> u32
    requires { WellFormed first.now × WellFormed second.now × From Kind.Machines first.now second.now from.now
        × To Kind.Nodes first.now second.now to.now × (m < machines) }
    ensures { result ≡ machine_field (rooted_tree first.now second.now h.root h.first h.second h.top) m 0 }
{
    if m == h.top {
        return h.second;
    }
    if m == book::root(first) {
        return h.first;
    }
    beside_field(first, second, Kind::Machines, from, to, m, 0)
}

// The start node of machine m in the merged book.
fn merged_start(first: &[u32], second: &[u32], from: &[u32], to: &[u32], h: NewRoot, m: u32) -> u32
    requires { WellFormed first.now × WellFormed second.now × From Kind.Machines first.now second.now from.now
        × To Kind.Nodes first.now second.now to.now × (m < machines) }
    ensures { result ≡ machine_field (rooted_tree first.now second.now h.root h.first h.second h.top) m 1 }
{
    if m == h.root {
        return h.first;
    }
    beside_field(first, second, Kind::Machines, from, to, m, 1)
}

// The machine that node n belongs to in the merged book.
fn merged_owner(first: &[u32], second: &[u32], from: &[u32], to: &[u32], h: NewRoot, n: u32) -> u32
    requires { WellFormed first.now × WellFormed second.now × From Kind.Nodes first.now second.now from.now
        × To Kind.Machines first.now second.now to.now × (n < nodes) }
    ensures { result ≡ node_field (rooted_tree first.now second.now h.root h.first h.second h.top) n 0 }
{
    if n == h.second {
        return h.root;
    }
    if n == h.first {
        return h.root;
    }
    beside_field(first, second, Kind::Nodes, from, to, n, 0)
}

// The machine that node n holds in the merged book.
fn merged_below(first: &[u32], second: &[u32], from: &[u32], to: &[u32], h: NewRoot, n: u32) -> u32
    requires { WellFormed first.now × WellFormed second.now × From Kind.Nodes first.now second.now from.now
        × To Kind.Machines first.now second.now to.now × (n < nodes) }
    ensures { result ≡ node_field (rooted_tree first.now second.now h.root h.first h.second h.top) n 1 }
{
    if n == h.second {
        return h.top;
    }
    if n == h.first {
        return book::root(first);
    }
    beside_field(first, second, Kind::Nodes, from, to, n, 1)
}

// Writes the merged book's machines, its root being there.
fn write_machines(
    first: &[u32],
    second: &[u32],
    from: &[u32],
    to: &[u32],
    h: NewRoot,
    book: &mut [u32],
)
    requires { WellFormed first.now × WellFormed second.now × From Kind.Machines first.now second.now from.now
        × To Kind.Nodes first.now second.now to.now
        × Recorded book.old (rooted_tree first.now second.now h.root h.first h.second h.top) 0 0 0 }
    ensures { Recorded book.new
        (rooted_tree first.now second.now h.root h.first h.second h.top) machines 0 0 }
{
    for m in 0..book::MACHINES {
        let holder = merged_holder(first, second, from, to, h, m);
        let start = merged_start(first, second, from, to, h, m);
        let leave = beside_charge(first, second, Kind::Machines, from, m);
        book::set_holder(book, m, holder);
        book::set_start(book, m, start);
        book::set_leave(book, m, leave);
    }
}

// Writes the transitions of node n. Where its owner and the machine below it are there, its record then is, whichever numbers the new root and its
// nodes have; its hold is not yet.
fn write_transitions(
    first: &[u32],
    second: &[u32],
    from: &[u32],
    to: &[u32],
    n: u32,
    book: &mut [u32],
)
    requires { WellFormed first.now × WellFormed second.now × From Kind.Nodes first.now second.now from.now
        × To Kind.Nodes first.now second.now to.now × NodesMove first.now second.now × (n < nodes) × (length book.old ≡ book_length) }
    ensures { (r a b s : ℕ) → Recorded book.old (rooted_tree first.now second.now r a b s) machines n 2
        → Recorded book.new (rooted_tree first.now second.now r a b s) machines n node_fields }
{
    for x in 0..book::COMMANDS {
        let w = beside_transition(first, second, from, to, n, x);
        book::set_transition(book, n, x, w);
    }
}

// Writes the merged book's node n, its root, its machines and the nodes under n being there.
fn write_node(
    first: &[u32],
    second: &[u32],
    machine_to: &[u32],
    node_to: &[u32],
    node_from: &[u32],
    h: NewRoot,
    n: u32,
    book: &mut [u32],
)
    requires { WellFormed first.now × WellFormed second.now × To Kind.Machines first.now second.now machine_to.now
        × To Kind.Nodes first.now second.now node_to.now × From Kind.Nodes first.now second.now node_from.now × NodesMove first.now second.now
        × (n < nodes) × Recorded book.old (rooted_tree first.now second.now h.root h.first h.second h.top) machines n 0 }
    ensures { Recorded book.new
        (rooted_tree first.now second.now h.root h.first h.second h.top) machines (n + 1) 0 }
{
    let owner = merged_owner(first, second, node_from, machine_to, h, n);
    let below = merged_below(first, second, node_from, machine_to, h, n);
    book::set_owner(book, n, owner);
    book::set_below(book, n, below);
    write_transitions(first, second, node_from, node_to, n, book);
    let hold = beside_charge(first, second, Kind::Nodes, node_from, n);
    book::set_hold(book, n, hold);
}

// Writes the merged book.
fn write_book(
    first: &[u32],
    second: &[u32],
    machines: &Moves<64>,
    nodes: &Moves<256>,
    h: NewRoot,
    book: &mut [u32],
)
    requires { MoveLists first.now second.now machines.now.to machines.now.from nodes.now.to nodes.now.from
        × NodesMove first.now second.now × (length book.old ≡ book_length) }
    ensures { book.new ≡ encode (rooted_tree first.now second.now h.root h.first h.second h.top) }
{
    book::set_root(book, h.root);
    write_machines(first, second, &machines.from, &nodes.to, h, book);
    for n in 0..book::NODES {
        write_node(
            first,
            second,
            &machines.to,
            &nodes.to,
            &nodes.from,
            h,
            n,
            book,
        );
    }
}

// Whether one of two books has a machine at the lowest level.
fn too_deep(first: &[u32], second: &[u32]) -> bool
    requires { WellFormed first.now × WellFormed second.now }
    ensures { result ≡ (any_lowest (tree_of first.now) || any_lowest (tree_of second.now)) }
{
    judging::any_lowest(first) || judging::any_lowest(second)
}

// Merges two well-formed books and writes both lists; or refuses, and then writes nothing.
fn merge_sound(
    first: &[u32],
    second: &[u32],
    book: &mut [u32],
    sheet: &mut [u32],
) -> Result<(), Refusal>
    requires { WellFormed first.now × WellFormed second.now × RightLengths book.old sheet.old }
    ensures { InOrder (tree_refusals (tree_of first.now) (tree_of second.now))
        (λ k. (status_of result ≡ k) × (book.new ≡ book.old) × (sheet.new ≡ sheet.old))
        (MergeDone (tree_of first.now) (tree_of second.now) (status_of result) book.new sheet.new) }
{
    if too_deep(first, second) {
        return Err(Refusal::TooDeep);
    }
    let machines: Moves<64> = renumber(first, second, Kind::Machines);
    let nodes: Moves<256> = renumber(first, second, Kind::Nodes);
    let above = NewRoot {
        root: machines.next.ok_or(Refusal::TooFewLeft)?,
        first: nodes.next.ok_or(Refusal::TooFewLeft)?,
        second: nodes.after.ok_or(Refusal::TooFewLeft)?,
        top: machines.to[book::root(second) as usize],
    };
    write_book(first, second, &machines, &nodes, above, book);
    opening::open_sheet(book, sheet);
    Ok(())
}

// Merge: writes a third book and its sheet from two books. The first keeps its numbers; the second's machines and nodes move, in
// rising order, to the lowest that the first does not use. A new root takes the next lowest, with two nodes: the lower is its start and holds the
// first's root, the other the second's. Every machine in use is marked. It refuses 1 (a wrong length of any list), 2 (a book not well formed), 12 (over 8
// levels), 19 (too few numbers) and then writes nothing.
pub fn merge(
    first: &[u32],
    second: &[u32],
    book: &mut [u32],
    sheet: &mut [u32],
) -> Result<(), Refusal>
    ensures { MergeSays first.now second.now book.old sheet.old (status_of result)
        book.new sheet.new }
{
    if first.len() != book::BOOK {
        return Err(Refusal::WrongLength);
    }
    if second.len() != book::BOOK {
        return Err(Refusal::WrongLength);
    }
    if book.len() != book::BOOK {
        return Err(Refusal::WrongLength);
    }
    if sheet.len() != sheet::SHEET {
        return Err(Refusal::WrongLength);
    }
    wellformed::judge(first)?;
    wellformed::judge(second)?;
    merge_sound(first, second, book, sheet)
}
