// The stream that Write gives for the tree of a well-formed book (document 01, "Writing, choosing, the session"; document 02, W-205, W-207).
#![tactic(auto)]

ghost use Rattle.std.specs.Prelude.{◌≡◌, ◌∷◌, ◌++◌, ◌+◌, ◌*◌, ◌/◌, ◌%◌, ◌^◌, ◌≤◌, ◌<◌, length, drop};
ghost use Rattle.definitions.specs.Basics.{joined};
ghost use Rattle.definitions.specs.Limits.{machines, nodes, commands, levels};
ghost use Rattle.definitions.specs.Tree.{UsedNode, level};
ghost use Rattle.definitions.specs.Book.{tree_of, WellFormed};
ghost use Rattle.definitions.specs.Write.{pair, written_add, written_refine, written_arrow, written_hold, written_leave, written, WriteSays};
ghost use Rattle.book.specs.Decides.{Decides};
ghost use Rattle.storing.specs.Stored.{Stored};
ghost use Rattle.writing.specs.Meaning.{Levels, written_level, written_arrows, answer_of};

use refusals::Refusal;
use storing::{put, put_arrow, put_each, put_node_byte, put_pair};

// The most bytes that a stream of Write has.
const LONGEST: usize = 34938;

// The level of node n's machine, if n is in use.
fn node_level(book: &[u32], n: u32) -> u32
    requires { WellFormed book.now × (n < nodes) }
    ensures { UsedNode (tree_of book.now) n → result ≡ level (tree_of book.now) n }
{
    if book::owner(book, n) == book::ABSENT {
        return 0;
    }
    stepping::level(book, n)
}

// The level of every node that is in use.
fn node_levels(book: &[u32]) -> [u32; 256]
    requires { WellFormed book.now }
    ensures { Levels (tree_of book.now) nodes result }
{
    let mut list = [0u32; 256];
    for n in 0..book::NODES {
        list[n as usize] = node_level(book, n);
    }
    list
}

// Stores begin, add or leave at a place, as far as the list goes; the next place. Opcode, machine, and a node or a cost.
fn put_machine_pair(out: &mut [u8], at: usize, op: u8, m: u32, v: u32) -> usize
    requires { (at + 4 < 2 ^ 64) × (m < machines) × (v < 65536) }
    ensures { Stored out.old at (op ∷ m ∷ pair v) result out.new }
{
    let machine = put(out, at, op);
    let value = put(out, machine, m as u8);
    put_pair(out, value, v)
}

// The same for refine: node, machine, its start node.
fn put_refine(out: &mut [u8], at: usize, n: u32, m: u32, s: u32) -> usize
    requires { (at + 6 < 2 ^ 64) × (n < nodes) × (m < machines) × (s < nodes) }
    ensures { Stored out.old at (0x12 ∷ (pair n ++ m ∷ pair s)) result out.new }
{
    let node = put(out, at, 0x12);
    let machine = put_pair(out, node, n);
    let start = put(out, machine, m as u8);
    put_pair(out, start, s)
}

// Add, if n is in use and at level l and not its machine's start node.
fn node_add(book: &[u32], list: &[u32; 256], l: u32, n: u32, out: &mut [u8], at: usize) -> usize
    requires { WellFormed book.now × Levels (tree_of book.now) nodes list.now × (n < nodes) × (at + 4 < 2 ^ 64) }
    ensures { Stored out.old at (written_add (tree_of book.now) l n) result out.new }
{
    let m = book::owner(book, n);
    if m == book::ABSENT {
        return at;
    }
    let here = list[n as usize];
    if here != l {
        return at;
    }
    let s = book::start(book, m);
    if s == n {
        return at;
    }
    put_machine_pair(out, at, 0x11, m, n)
}

// Refine, if n is refined and at level l.
fn node_refine(book: &[u32], list: &[u32; 256], l: u32, n: u32, out: &mut [u8], at: usize) -> usize
    requires { WellFormed book.now × Levels (tree_of book.now) nodes list.now × (n < nodes) × (at + 6 < 2 ^ 64) }
    ensures { Stored out.old at (written_refine (tree_of book.now) l n) result out.new }
{
    let m = book::below(book, n);
    if m == book::ABSENT {
        return at;
    }
    let here = list[n as usize];
    if here != l {
        return at;
    }
    let s = book::start(book, m);
    put_refine(out, at, n, m, s)
}

// Arrow, if n has a transition for command x.
fn node_arrow(book: &[u32], n: u32, x: u32, out: &mut [u8], at: usize) -> usize
    requires { WellFormed book.now × (n < nodes) × (x < commands) × (at + 8 < 2 ^ 64) }
    ensures { Stored out.old at (written_arrow (tree_of book.now) n x) result out.new }
{
    let w = book::transition(book, n, x);
    if w == book::BLANK {
        return at;
    }
    put_arrow(out, at, n, x, w / 65536, w % 65536)
}

// Hold, if n is held.
fn node_hold(book: &[u32], n: u32, out: &mut [u8], at: usize) -> usize
    requires { WellFormed book.now × (n < nodes) × (at + 4 < 2 ^ 64) }
    ensures { Stored out.old at (written_hold (tree_of book.now) n) result out.new }
{
    if book::hold(book, n) != 1 {
        return at;
    }
    put_node_byte(out, at, 0x1A, n, 1)
}

// Leave, if leaving m costs something.
fn machine_leave(book: &[u32], m: u32, out: &mut [u8], at: usize) -> usize
    requires { WellFormed book.now × (m < machines) × (at + 4 < 2 ^ 64) }
    ensures { Stored out.old at (written_leave (tree_of book.now) m) result out.new }
{
    let v = book::leave(book, m);
    if v == 0 {
        return at;
    }
    put_machine_pair(out, at, 0x1B, m, v)
}

// The adds of level l, by rising node.
fn adds(book: &[u32], list: &[u32; 256], l: u32, out: &mut [u8], at: usize) -> usize
    requires { WellFormed book.now × Levels (tree_of book.now) nodes list.now × (at + nodes * 4 < 2 ^ 64) }
    ensures { Stored out.old at (joined nodes (written_add (tree_of book.now) l)) result out.new }
{
    put_each(
        book::NODES,
        out,
        at,
        |n, out, p| node_add(book, list, l, n, out, p),
    )
}

// The refines of level l, by rising node.
fn refines(book: &[u32], list: &[u32; 256], l: u32, out: &mut [u8], at: usize) -> usize
    requires { WellFormed book.now × Levels (tree_of book.now) nodes list.now × (at + nodes * 6 < 2 ^ 64) }
    ensures { Stored out.old at (joined nodes (written_refine (tree_of book.now) l)) result out.new }
{
    put_each(
        book::NODES,
        out,
        at,
        |n, out, p| node_refine(book, list, l, n, out, p),
    )
}

// What is written of level l + 1: first add, then refine.
fn put_level(book: &[u32], list: &[u32; 256], l: u32, out: &mut [u8], at: usize) -> usize
    requires { WellFormed book.now × Levels (tree_of book.now) nodes list.now × (l < levels) × (at + 2560 < 2 ^ 64) }
    ensures { Stored out.old at (written_level (tree_of book.now) l) result out.new }
{
    let q = adds(book, list, l + 1, out, at);
    refines(book, list, l + 1, out, q)
}

// What is written of every level.
fn all_levels(book: &[u32], out: &mut [u8], at: usize) -> usize
    requires { WellFormed book.now × (at + levels * 2560 < 2 ^ 64) }
    ensures { Stored out.old at (joined levels (written_level (tree_of book.now))) result out.new }
{
    let list = node_levels(book);
    put_each(
        book::LEVELS,
        out,
        at,
        |l, out, p| put_level(book, &list, l, out, p),
    )
}

// The transitions of node n, by command.
fn node_arrows(book: &[u32], n: u32, out: &mut [u8], at: usize) -> usize
    requires { WellFormed book.now × (n < nodes) × (at + commands * 8 < 2 ^ 64) }
    ensures { Stored out.old at (written_arrows (tree_of book.now) n) result out.new }
{
    put_each(
        book::COMMANDS,
        out,
        at,
        |x, out, p| node_arrow(book, n, x, out, p),
    )
}

// All transitions, by node, then command.
fn all_arrows(book: &[u32], out: &mut [u8], at: usize) -> usize
    requires { WellFormed book.now × (at + nodes * 128 < 2 ^ 64) }
    ensures { Stored out.old at (joined nodes (written_arrows (tree_of book.now))) result out.new }
{
    put_each(
        book::NODES,
        out,
        at,
        |n, out, p| node_arrows(book, n, out, p),
    )
}

// The holds of 1, by node.
fn all_holds(book: &[u32], out: &mut [u8], at: usize) -> usize
    requires { WellFormed book.now × (at + nodes * 4 < 2 ^ 64) }
    ensures { Stored out.old at (joined nodes (written_hold (tree_of book.now))) result out.new }
{
    put_each(book::NODES, out, at, |n, out, p| node_hold(book, n, out, p))
}

// What leaving costs where that is not 0, by machine.
fn all_leaves(book: &[u32], out: &mut [u8], at: usize) -> usize
    requires { WellFormed book.now × (at + machines * 4 < 2 ^ 64) }
    ensures { Stored out.old at (joined machines (written_leave (tree_of book.now))) result out.new }
{
    put_each(
        book::MACHINES,
        out,
        at,
        |m, out, p| machine_leave(book, m, out, p),
    )
}

// Stores the stream at the front of a list, as far as the list goes; the stream's length.
fn put_stream(book: &[u32], out: &mut [u8]) -> usize
    requires { WellFormed book.now }
    ensures { Stored out.old 0 (written (tree_of book.now)) result out.new }
{
    let m = book::root(book);
    let s = book::start(book, m);
    let p = put_machine_pair(out, 0, 0x10, m, s);
    let q = all_levels(book, out, p);
    let r = all_arrows(book, out, q);
    let h = all_holds(book, out, r);
    all_leaves(book, out, h)
}

// The length of the stream.
fn stream_length(book: &[u32]) -> usize
    requires { WellFormed book.now }
    ensures { result ≡ length (written (tree_of book.now)) }
{
    let mut nowhere = [0u8; 0];
    put_stream(book, &mut nowhere)
}

// Whether a list of this length has room for the stream.
fn has_room(book: &[u32], len: usize) -> bool
    requires { WellFormed book.now }
    ensures { Decides result (length (written (tree_of book.now)) ≤ len) }
{
    LONGEST <= len || stream_length(book) <= len
}

// Stores the stream at the front of a list that has room for it; the stream's length. The rest of the list is untouched.
fn write_stream(book: &[u32], out: &mut [u8]) -> usize
    requires { WellFormed book.now × (length (written (tree_of book.now)) ≤ length out.old) }
    ensures { (result ≡ length (written (tree_of book.now)))
        × (out.new ≡ written (tree_of book.now) ++ drop (length (written (tree_of book.now))) out.old) }
{
    put_stream(book, out)
}

// Write: the stream at the front of out, the rest of out untouched, and its length. Refuses 1 (a book of a wrong length), 2 (not well formed)
// and 15 (out shorter than the stream), with nothing written.
pub fn write(book: &[u32], out: &mut [u8]) -> Result<u32, Refusal>
    ensures { WriteSays book.now out.old (answer_of result) out.new }
{
    wellformed::judge(book)?;
    if !has_room(book, out.len()) {
        return Err(Refusal::NoRoom);
    }
    let n = write_stream(book, out);
    Ok(n as u32)
}
