// Whether a book is well formed (document 01, "Book and sheet in memory"; document 02, W-205, W-207; refusal 2). The words of a book may say anything
// here, so a number is looked at before it is an index.
#![tactic(auto)]

ghost use Rattle.std.specs.Prelude.{◌≡◌, [], ◌<◌, length};
ghost use Rattle.definitions.specs.Limits.{machines, nodes, commands, levels, book_length};
ghost use Rattle.definitions.specs.Tree.{parent};
ghost use Rattle.definitions.specs.Book.{word, tree_of, WellFormed};
ghost use Rattle.definitions.specs.Calls.{book_refusals};
ghost use Rattle.book.specs.Decides.{Decides};
ghost use Rattle.refusals.specs.Meaning.{Judged};
ghost use Rattle.wellformed.specs.Fits.{Climbs, RootFits, StartFits, HolderFits, LeaveFits, MachineFits, MachinesFit};
ghost use Rattle.wellformed.specs.Fits.{OwnerFits, BelowFits, HoldFits, TransitionFits, TransitionsFit, NodeFits, NodesFit};

use refusals::Refusal;

// The most steps from a machine to the root: one less than there are levels.
const STEPS: u32 = 7;

// The machine that node n belongs to; absent where n is no node.
fn owner_of(book: &[u32], n: u32) -> u32
    requires { length book.now ≡ book_length }
    ensures { result ≡ word ((tree_of book.now).owner n) }
{
    if n < book::NODES {
        book::owner(book, n)
    } else {
        book::ABSENT
    }
}

// The machine that node n holds; absent where n is no node.
fn below_of(book: &[u32], n: u32) -> u32
    requires { length book.now ≡ book_length }
    ensures { result ≡ word ((tree_of book.now).below n) }
{
    if n < book::NODES {
        book::below(book, n)
    } else {
        book::ABSENT
    }
}

// The start node of machine m; absent where m is no machine.
fn start_of(book: &[u32], m: u32) -> u32
    requires { length book.now ≡ book_length }
    ensures { result ≡ word ((tree_of book.now).start m) }
{
    if m < book::MACHINES {
        book::start(book, m)
    } else {
        book::ABSENT
    }
}

// The node that holds machine m; absent where m is no machine.
fn holder_of(book: &[u32], m: u32) -> u32
    requires { length book.now ≡ book_length }
    ensures { result ≡ word ((tree_of book.now).holder m) }
{
    if m < book::MACHINES {
        book::holder(book, m)
    } else {
        book::ABSENT
    }
}

// The machine just above machine m.
fn parent_of(book: &[u32], m: u32) -> u32
    requires { length book.now ≡ book_length }
    ensures { result ≡ word (parent (tree_of book.now) m) }
{
    owner_of(book, holder_of(book, m))
}

// Whether the root is a machine in use that no node holds.
fn root_fits(book: &[u32]) -> bool
    requires { length book.now ≡ book_length }
    ensures { Decides result (RootFits (tree_of book.now)) }
{
    let root = book::root(book);
    if start_of(book, root) == book::ABSENT {
        return false;
    }
    holder_of(book, root) == book::ABSENT
}

// Whether machine m climbs to the root. A climb that comes back to where it was takes too many steps.
fn climbs(book: &[u32], m: u32) -> bool
    requires { length book.now ≡ book_length }
    ensures { Decides result (Climbs (tree_of book.now) levels m) }
{
    let root = book::root(book);
    let mut at = m;
    let mut left = STEPS;
    while at != root {
        if left == 0 {
            return false;
        }
        at = parent_of(book, at);
        if at == book::ABSENT {
            return false;
        }
        left -= 1;
    }
    true
}

// Whether the start node of machine m, where there is one, is its own, and m climbs to the root.
fn start_fits(book: &[u32], m: u32) -> bool
    requires { (length book.now ≡ book_length) × (m < machines) }
    ensures { Decides result (StartFits (tree_of book.now) m) }
{
    let s = book::start(book, m);
    if s == book::ABSENT {
        return true;
    }
    if owner_of(book, s) != m {
        return false;
    }
    climbs(book, m)
}

// Whether the node that holds machine m, where there is one, holds m, and both are in use.
fn holder_fits(book: &[u32], m: u32) -> bool
    requires { (length book.now ≡ book_length) × (m < machines) }
    ensures { Decides result (HolderFits (tree_of book.now) m) }
{
    let h = book::holder(book, m);
    if h == book::ABSENT {
        return true;
    }
    if below_of(book, h) != m {
        return false;
    }
    if owner_of(book, h) == book::ABSENT {
        return false;
    }
    book::start(book, m) != book::ABSENT
}

// Whether what leaving machine m costs is 0, or less than 65,536 where m is in use and not the root.
fn leave_fits(book: &[u32], m: u32) -> bool
    requires { (length book.now ≡ book_length) × (m < machines) }
    ensures { Decides result (LeaveFits (tree_of book.now) m) }
{
    let c = book::leave(book, m);
    if c == 0 {
        return true;
    }
    if 65536 <= c {
        return false;
    }
    if book::start(book, m) == book::ABSENT {
        return false;
    }
    book::root(book) != m
}

// Whether what machine m says fits.
fn machine_fits(book: &[u32], m: u32) -> bool
    requires { (length book.now ≡ book_length) × (m < machines) }
    ensures { Decides result (MachineFits (tree_of book.now) m) }
{
    if !start_fits(book, m) {
        return false;
    }
    if !holder_fits(book, m) {
        return false;
    }
    leave_fits(book, m)
}

// Whether every machine fits.
fn machines_fit(book: &[u32]) -> bool
    requires { length book.now ≡ book_length }
    ensures { Decides result (MachinesFit (tree_of book.now)) }
{
    for m in 0..book::MACHINES {
        if !machine_fits(book, m) {
            return false;
        }
    }
    true
}

// Whether node n, where it is in use, belongs to a machine in use.
fn owner_fits(book: &[u32], n: u32) -> bool
    requires { (length book.now ≡ book_length) × (n < nodes) }
    ensures { Decides result (OwnerFits (tree_of book.now) n) }
{
    let m = book::owner(book, n);
    if m == book::ABSENT {
        return true;
    }
    start_of(book, m) != book::ABSENT
}

// Whether the machine below node n, where there is one, is held by n.
fn below_fits(book: &[u32], n: u32) -> bool
    requires { (length book.now ≡ book_length) × (n < nodes) }
    ensures { Decides result (BelowFits (tree_of book.now) n) }
{
    let b = book::below(book, n);
    if b == book::ABSENT {
        return true;
    }
    holder_of(book, b) == n
}

// Whether the hold of node n is 0, or 1 where n is in use and not the start of its machine.
fn hold_fits(book: &[u32], n: u32) -> bool
    requires { (length book.now ≡ book_length) × (n < nodes) }
    ensures { Decides result (HoldFits (tree_of book.now) n) }
{
    let h = book::hold(book, n);
    if h == 0 {
        return true;
    }
    if h != 1 {
        return false;
    }
    let m = book::owner(book, n);
    if m == book::ABSENT {
        return false;
    }
    start_of(book, m) != n
}

// Whether the transition of node n for command x, where there is one, stays in n's machine, whose word is m. Whether there is
// one cannot be foreseen: none is taken as one to n itself, so that no jump is needed.
fn transition_fits(book: &[u32], n: u32, m: u32, x: u32) -> bool
    requires { (length book.now ≡ book_length) × (n < nodes) × (x < commands) × (m ≡ word ((tree_of book.now).owner n)) }
    ensures { Decides result (TransitionFits (tree_of book.now) n x) }
{
    let w = book::transition(book, n, x);
    if m == book::ABSENT {
        return w == book::BLANK;
    }
    let v = if w == book::BLANK { n } else { w / 65536 };
    owner_of(book, v) == m
}

// Whether every transition of node n stays in n's machine.
fn transitions_fit(book: &[u32], n: u32) -> bool
    requires { (length book.now ≡ book_length) × (n < nodes) }
    ensures { Decides result (TransitionsFit (tree_of book.now) n) }
{
    let m = book::owner(book, n);
    for x in 0..book::COMMANDS {
        if !transition_fits(book, n, m, x) {
            return false;
        }
    }
    true
}

// Whether what node n says fits.
fn node_fits(book: &[u32], n: u32) -> bool
    requires { (length book.now ≡ book_length) × (n < nodes) }
    ensures { Decides result (NodeFits (tree_of book.now) n) }
{
    if !owner_fits(book, n) {
        return false;
    }
    if !below_fits(book, n) {
        return false;
    }
    if !hold_fits(book, n) {
        return false;
    }
    transitions_fit(book, n)
}

// Whether every node fits.
fn nodes_fit(book: &[u32]) -> bool
    requires { length book.now ≡ book_length }
    ensures { Decides result (NodesFit (tree_of book.now)) }
{
    for n in 0..book::NODES {
        if !node_fits(book, n) {
            return false;
        }
    }
    true
}

// Whether the list is a well-formed book: true exactly where it is, for a list of any length and with any words.
pub fn well_formed(book: &[u32]) -> bool
    ensures { Decides result (WellFormed book.now) }
{
    if book.len() != book::BOOK {
        return false;
    }
    if !root_fits(book) {
        return false;
    }
    if !machines_fit(book) {
        return false;
    }
    nodes_fit(book)
}

// The refusals that a call on a book begins with: 1 (a wrong length), 2 (not well formed).
pub fn judge(book: &[u32]) -> Result<(), Refusal>
    ensures { Judged (book_refusals book.now []) result }
{
    if book.len() != book::BOOK {
        return Err(Refusal::WrongLength);
    }
    if !well_formed(book) {
        return Err(Refusal::NotWellFormed);
    }
    Ok(())
}
