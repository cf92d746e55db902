// The refusals 6 to 12 and 21 of a command on a well-formed book, in the documents' order (document 01, "Loading a stream"; document 02, W-205,
// W-207). Each test of a refusal is a function of its own, and a command goes through its tests in turn.
#![tactic(auto, unfolding(definitions::specs::Edit::refusal, definitions::specs::Edit::refusals, definitions::specs::Edit::first_holding))]

ghost use Rattle.std.specs.Prelude.{◌≡◌, false, not, ◌&&◌, ◌||◌, ℕ, ◌<◌, eqb};
ghost use Rattle.definitions.specs.Limits.{machines, nodes};
ghost use Rattle.definitions.specs.Basics.{is_some, option};
ghost use Rattle.definitions.specs.Tree.{Tree, UsedNode, used_machine, used_node, on_hold};
ghost use Rattle.definitions.specs.Book.{tree_of, WellFormed};
ghost use Rattle.definitions.specs.Stream.{edit, begin, add, refine, remove, arrow, clear, start, crown, hold, leave};
ghost use Rattle.definitions.specs.Edit.{bad_machine, bad_node, bad_command, bad_hold, is_start, apart, lowest, any_lowest, refusal};
ghost use Rattle.refusals.specs.Meaning.{status_of};
ghost use Rattle.reading.specs.Meaning.{command_of};

use reading::Command;
use refusals::Refusal;

// Whether a machine is out of range.
fn bad_machine(m: u32) -> bool
    ensures { result ≡ bad_machine m }
{
    !(m < book::MACHINES)
}

// Whether a node is.
fn bad_node(n: u32) -> bool
    ensures { result ≡ bad_node n }
{
    !(n < book::NODES)
}

// Whether a command is.
fn bad_command(x: u32) -> bool
    ensures { result ≡ bad_command x }
{
    !(x < book::COMMANDS)
}

// Whether one of the numbers that begin, add or crown names is out of range.
fn place_out_of_range(m: u32, n: u32) -> bool
    ensures { result ≡ (bad_machine m || bad_node n) }
{
    bad_machine(m) || bad_node(n)
}

// The same for clear.
fn clear_out_of_range(n: u32, x: u32) -> bool
    ensures { result ≡ (bad_node n || bad_command x) }
{
    bad_node(n) || bad_command(x)
}

// The same for hold, whose byte is 1 or 0.
fn hold_out_of_range(n: u32, b: u32) -> bool
    ensures { result ≡ (bad_node n || bad_hold b) }
{
    bad_node(n) || !(b < 2)
}

// Whether machine m is out of range, or the root, which nothing leaves.
fn leave_out_of_range(book: &[u32], m: u32) -> bool
    requires { WellFormed book.now }
    ensures { result ≡ (bad_machine m || eqb m (tree_of book.now).root) }
{
    bad_machine(m) || m == book::root(book)
}

// Whether one of the numbers that refine names is out of range.
fn refine_out_of_range(n: u32, m: u32, s: u32) -> bool
    ensures { result ≡ (bad_node n || bad_machine m || bad_node s) }
{
    bad_node(n) || place_out_of_range(m, s)
}

// The same for arrow.
fn arrow_out_of_range(n: u32, x: u32, v: u32) -> bool
    ensures { result ≡ (bad_node n || bad_command x || bad_node v) }
{
    clear_out_of_range(n, x) || bad_node(v)
}

// Whether machine m is in use.
fn used_machine(book: &[u32], m: u32) -> bool
    requires { WellFormed book.now × (m < machines) }
    ensures { result ≡ used_machine (tree_of book.now) m }
{
    book::start(book, m) != book::ABSENT
}

// Whether node n is in use.
fn used_node(book: &[u32], n: u32) -> bool
    requires { WellFormed book.now × (n < nodes) }
    ensures { result ≡ used_node (tree_of book.now) n }
{
    book::owner(book, n) != book::ABSENT
}

// Whether a new machine or a new node is in use already.
fn used_place(book: &[u32], m: u32, n: u32) -> bool
    requires { WellFormed book.now × (m < machines) × (n < nodes) }
    ensures { result ≡ (used_machine (tree_of book.now) m || used_node (tree_of book.now) n) }
{
    used_machine(book, m) || used_node(book, n)
}

// Whether one of two nodes is not in use.
fn unused_end(book: &[u32], n: u32, v: u32) -> bool
    requires { WellFormed book.now × (n < nodes) × (v < nodes) }
    ensures { result ≡ (not (used_node (tree_of book.now) n) || not (used_node (tree_of book.now) v)) }
{
    !used_node(book, n) || !used_node(book, v)
}

// Whether node n holds a machine.
fn refined(book: &[u32], n: u32) -> bool
    requires { WellFormed book.now × (n < nodes) }
    ensures { result ≡ is_some ((tree_of book.now).below n) }
{
    book::below(book, n) != book::ABSENT
}

// Whether node n is the start node of its machine.
fn is_start(book: &[u32], n: u32) -> bool
    requires { WellFormed book.now × UsedNode (tree_of book.now) n }
    ensures { result ≡ is_start (tree_of book.now) n }
{
    book::start(book, book::owner(book, n)) == n
}

// Whether node n is held.
fn on_hold(book: &[u32], n: u32) -> bool
    requires { WellFormed book.now × (n < nodes) }
    ensures { result ≡ on_hold (tree_of book.now) n }
{
    book::hold(book, n) == 1
}

// Whether b is a hold of 1 and node n the start node of its machine.
fn holds_start(book: &[u32], n: u32, b: u32) -> bool
    requires { WellFormed book.now × UsedNode (tree_of book.now) n }
    ensures { result ≡ (eqb b 1 && is_start (tree_of book.now) n) }
{
    b == 1 && is_start(book, n)
}

// Whether two nodes belong to different machines.
fn apart(book: &[u32], n: u32, v: u32) -> bool
    requires { WellFormed book.now × UsedNode (tree_of book.now) n × UsedNode (tree_of book.now) v }
    ensures { result ≡ apart (tree_of book.now) n v }
{
    book::owner(book, v) != book::owner(book, n)
}

// Whether node n stands at the lowest level.
fn lowest(book: &[u32], n: u32) -> bool
    requires { WellFormed book.now × UsedNode (tree_of book.now) n }
    ensures { result ≡ lowest (tree_of book.now) n }
{
    stepping::level(book, n) == book::LEVELS
}

// Whether machine m is in use and stands at the lowest level.
fn lowest_machine(book: &[u32], m: u32) -> bool
    requires { WellFormed book.now × (m < machines) }
    ensures { result ≡ option false (lowest (tree_of book.now)) ((tree_of book.now).start m) }
{
    let s = book::start(book, m);
    if s == book::ABSENT {
        return false;
    }
    lowest(book, s)
}

// Whether any node stands at the lowest level. All nodes of a machine stand at one level, so the start nodes are looked at.
pub fn any_lowest(book: &[u32]) -> bool
    requires { WellFormed book.now }
    ensures { result ≡ any_lowest (tree_of book.now) }
{
    for m in 0..book::MACHINES {
        if lowest_machine(book, m) {
            return true;
        }
    }
    false
}

// The refusal of begin, if it is refused. Of this and the commands below: 6 (number out of range), 7 (machine or node not in use),
// 8 (new number in use), 9 (already refined), 10 (a start node), 11 (target in another machine), 12 (over 8 levels), 21 (a held start node).
fn judge_begin(m: u32, n: u32) -> Result<(), Refusal>
    ensures { (t : Tree) → status_of result ≡ refusal t (edit (begin m n)) }
{
    if place_out_of_range(m, n) {
        return Err(Refusal::OutOfRange);
    }
    Ok(())
}

// The refusal of add.
fn judge_add(book: &[u32], m: u32, n: u32) -> Result<(), Refusal>
    requires { WellFormed book.now }
    ensures { status_of result ≡ refusal (tree_of book.now) (edit (add m n)) }
{
    if place_out_of_range(m, n) {
        return Err(Refusal::OutOfRange);
    }
    if !used_machine(book, m) {
        return Err(Refusal::NotInUse);
    }
    if used_node(book, n) {
        return Err(Refusal::InUse);
    }
    Ok(())
}

// The refusal of refine.
fn judge_refine(book: &[u32], n: u32, m: u32, s: u32) -> Result<(), Refusal>
    requires { WellFormed book.now }
    ensures { status_of result ≡ refusal (tree_of book.now) (edit (refine n m s)) }
{
    if refine_out_of_range(n, m, s) {
        return Err(Refusal::OutOfRange);
    }
    if !used_node(book, n) {
        return Err(Refusal::NotInUse);
    }
    if used_place(book, m, s) {
        return Err(Refusal::InUse);
    }
    if refined(book, n) {
        return Err(Refusal::AlreadyRefined);
    }
    if lowest(book, n) {
        return Err(Refusal::TooDeep);
    }
    Ok(())
}

// The refusal of remove.
fn judge_remove(book: &[u32], n: u32) -> Result<(), Refusal>
    requires { WellFormed book.now }
    ensures { status_of result ≡ refusal (tree_of book.now) (edit (remove n)) }
{
    if bad_node(n) {
        return Err(Refusal::OutOfRange);
    }
    if !used_node(book, n) {
        return Err(Refusal::NotInUse);
    }
    if is_start(book, n) {
        return Err(Refusal::IsStart);
    }
    Ok(())
}

// The refusal of arrow.
fn judge_arrow(book: &[u32], n: u32, x: u32, v: u32) -> Result<(), Refusal>
    requires { WellFormed book.now }
    ensures { (c : ℕ) → status_of result ≡ refusal (tree_of book.now) (edit (arrow n x v c)) }
{
    if arrow_out_of_range(n, x, v) {
        return Err(Refusal::OutOfRange);
    }
    if unused_end(book, n, v) {
        return Err(Refusal::NotInUse);
    }
    if apart(book, n, v) {
        return Err(Refusal::OtherMachine);
    }
    Ok(())
}

// The refusal of clear.
fn judge_clear(book: &[u32], n: u32, x: u32) -> Result<(), Refusal>
    requires { WellFormed book.now }
    ensures { status_of result ≡ refusal (tree_of book.now) (edit (clear n x)) }
{
    if clear_out_of_range(n, x) {
        return Err(Refusal::OutOfRange);
    }
    if !used_node(book, n) {
        return Err(Refusal::NotInUse);
    }
    Ok(())
}

// The refusal of start.
fn judge_start(book: &[u32], n: u32) -> Result<(), Refusal>
    requires { WellFormed book.now }
    ensures { status_of result ≡ refusal (tree_of book.now) (edit (start n)) }
{
    if bad_node(n) {
        return Err(Refusal::OutOfRange);
    }
    if !used_node(book, n) {
        return Err(Refusal::NotInUse);
    }
    if on_hold(book, n) {
        return Err(Refusal::StartHeld);
    }
    Ok(())
}

// The refusal of hold.
fn judge_hold(book: &[u32], n: u32, b: u32) -> Result<(), Refusal>
    requires { WellFormed book.now }
    ensures { status_of result ≡ refusal (tree_of book.now) (edit (hold n b)) }
{
    if hold_out_of_range(n, b) {
        return Err(Refusal::OutOfRange);
    }
    if !used_node(book, n) {
        return Err(Refusal::NotInUse);
    }
    if holds_start(book, n, b) {
        return Err(Refusal::StartHeld);
    }
    Ok(())
}

// The refusal of leave.
fn judge_leave(book: &[u32], m: u32) -> Result<(), Refusal>
    requires { WellFormed book.now }
    ensures { (c : ℕ) → status_of result ≡ refusal (tree_of book.now) (edit (leave m c)) }
{
    if leave_out_of_range(book, m) {
        return Err(Refusal::OutOfRange);
    }
    if !used_machine(book, m) {
        return Err(Refusal::NotInUse);
    }
    Ok(())
}

// The refusal of crown.
fn judge_crown(book: &[u32], m: u32, n: u32) -> Result<(), Refusal>
    requires { WellFormed book.now }
    ensures { status_of result ≡ refusal (tree_of book.now) (edit (crown m n)) }
{
    if place_out_of_range(m, n) {
        return Err(Refusal::OutOfRange);
    }
    if used_place(book, m, n) {
        return Err(Refusal::InUse);
    }
    if any_lowest(book) {
        return Err(Refusal::TooDeep);
    }
    Ok(())
}

// Whether a command is taken on the book's tree; else why it is refused.
pub fn judge(book: &[u32], command: Command) -> Result<(), Refusal>
    requires { WellFormed book.now }
    ensures { status_of result ≡ refusal (tree_of book.now) (command_of command) }
{
    match command {
        Command::Begin { machine, node } => judge_begin(machine, node),
        Command::Add { machine, node } => judge_add(book, machine, node),
        Command::Refine {
            node,
            machine,
            first,
        } => judge_refine(book, node, machine, first),
        Command::Remove { node } => judge_remove(book, node),
        Command::Arrow {
            node,
            command,
            target,
            cost: _,
        } => judge_arrow(book, node, command, target),
        Command::Clear { node, command } => judge_clear(book, node, command),
        Command::Start { node } => judge_start(book, node),
        Command::Crown { machine, node } => judge_crown(book, machine, node),
        Command::Refresh => Ok(()),
        Command::Hold { node, hold } => judge_hold(book, node, hold),
        Command::Leave { machine, cost: _ } => judge_leave(book, machine),
    }
}
