// The words of a book (document 01, "Book and sheet in memory"; document 02, W-205, W-207), read and written one at a time. A book here has its 5,057
// words, and numbers are in range; what a word says is then what the book's tree says, and a store changes one field of that tree.
#![tactic(auto)]

ghost use Rattle.std.specs.Prelude.{◌≡◌, ◌/◌, ◌%◌, ◌<◌, length, get_or};
ghost use Rattle.definitions.specs.Limits.{machines, nodes, commands, costs, book_length};
ghost use Rattle.definitions.specs.Tree.{with_root, with_holder, with_start_of, with_owner, with_below, with_node_hold, with_leave, on_hold};
ghost use Rattle.definitions.specs.Book.{word, transition_word, machine_fields, node_fields, machine_field, node_field, tree_of};
ghost use Rattle.definitions.specs.Book.{number, transition_of, WellFormed};
ghost use Rattle.definitions.specs.Step.{counting};
ghost use Rattle.definitions.specs.Edit.{with_transition};
ghost use Rattle.book.specs.Fields.{Holds, without_transitions};
ghost use Rattle.book.specs.Fields.{with_machine_field, with_node_field, without_machine, without_node};

// The words of a book.
pub const BOOK: usize = 5057;

// Where the holds and the leaving costs begin.
const HOLDS: usize = 4737;

const LEAVES: usize = 4993;

// How many machines, nodes and commands there are.
pub const MACHINES: u32 = 64;

pub const NODES: u32 = 256;

pub const COMMANDS: u32 = 16;

// How many levels there are: the root is at level 1.
pub const LEVELS: u32 = 8;

// The word for a number that is not there, and the one for a transition or a cost that is not there.
pub const ABSENT: u32 = 65535;

pub const BLANK: u32 = 4294967295;

// The number at place i of a list.
pub fn word(list: &[u32], i: u32) -> u32
    requires { i < length list.now }
    ensures { result ≡ get_or list.now i 0 }
{
    list[i as usize]
}

// The word at place k of machine m's record.
pub fn machine_word(book: &[u32], m: u32, k: u32) -> u32
    requires { (length book.now ≡ book_length) × (m < machines) × (k < machine_fields) }
    ensures { result ≡ machine_field (tree_of book.now) m k }
{
    let i = 1 + 2 * (m as usize) + (k as usize);
    book[i]
}

// The word at place k of node n's record.
pub fn node_word(book: &[u32], n: u32, k: u32) -> u32
    requires { (length book.now ≡ book_length) × (n < nodes) × (k < node_fields) }
    ensures { result ≡ node_field (tree_of book.now) n k }
{
    let i = 129 + 18 * (n as usize) + (k as usize);
    book[i]
}

// The root machine.
pub fn root(book: &[u32]) -> u32
    requires { length book.now ≡ book_length }
    ensures { result ≡ (tree_of book.now).root }
{
    book[0]
}

// The node that holds machine m.
pub fn holder(book: &[u32], m: u32) -> u32
    requires { (length book.now ≡ book_length) × (m < machines) }
    ensures { result ≡ word ((tree_of book.now).holder m) }
{
    machine_word(book, m, 0)
}

// The start node of machine m.
pub fn start(book: &[u32], m: u32) -> u32
    requires { (length book.now ≡ book_length) × (m < machines) }
    ensures { result ≡ word ((tree_of book.now).start m) }
{
    machine_word(book, m, 1)
}

// The machine that node n belongs to.
pub fn owner(book: &[u32], n: u32) -> u32
    requires { (length book.now ≡ book_length) × (n < nodes) }
    ensures { result ≡ word ((tree_of book.now).owner n) }
{
    node_word(book, n, 0)
}

// The machine that node n holds.
pub fn below(book: &[u32], n: u32) -> u32
    requires { (length book.now ≡ book_length) × (n < nodes) }
    ensures { result ≡ word ((tree_of book.now).below n) }
{
    node_word(book, n, 1)
}

// The transition of node n for command x: target and cost in one word.
pub fn transition(book: &[u32], n: u32, x: u32) -> u32
    requires { (length book.now ≡ book_length) × (n < nodes) × (x < commands) }
    ensures { result ≡ transition_word ((tree_of book.now).transition n x) }
{
    node_word(book, n, 2 + x)
}

// The hold of node n: 1 where it is held, else 0.
pub fn hold(book: &[u32], n: u32) -> u32
    requires { (length book.now ≡ book_length) × (n < nodes) }
    ensures { result ≡ (tree_of book.now).hold n }
{
    let i = HOLDS + (n as usize);
    book[i]
}

// What leaving machine m costs.
pub fn leave(book: &[u32], m: u32) -> u32
    requires { (length book.now ≡ book_length) × (m < machines) }
    ensures { result ≡ (tree_of book.now).leave m }
{
    let i = LEAVES + (m as usize);
    book[i]
}

// Whether a hold shuts the transition of a word: its target is held. Of BLANK, too, that is some node; whether it is held makes no difference,
// since BLANK counts for none either way.
pub fn shut(book: &[u32], w: u32) -> bool
    requires { length book.now ≡ book_length }
    ensures { result ≡ on_hold (tree_of book.now) (w / costs % nodes) }
{
    hold(book, w / 65536 % NODES) == 1
}

// The transition of node n that counts for command x, as a step and every sheet mean it: target and cost in one word, BLANK for none.
pub fn counting(book: &[u32], n: u32, x: u32) -> u32
    requires { WellFormed book.now × (n < nodes) × (x < commands) }
    ensures { result ≡ transition_word (counting (tree_of book.now) n x) }
{
    let w = transition(book, n, x);
    if shut(book, w) { BLANK } else { w }
}

// Makes v the word at place k of machine m's record; every other word stays.
fn set_machine_word(book: &mut [u32], m: u32, k: u32, v: u32)
    requires { (length book.old ≡ book_length) × (m < machines) × (k < machine_fields) }
    ensures { Holds book.new (with_machine_field (tree_of book.old) m k v) }
{
    let i = 1 + 2 * (m as usize) + (k as usize);
    book[i] = v;
}

// Makes v the word at place k of node n's record; every other word stays.
fn set_node_word(book: &mut [u32], n: u32, k: u32, v: u32)
    requires { (length book.old ≡ book_length) × (n < nodes) × (k < node_fields) }
    ensures { Holds book.new (with_node_field (tree_of book.old) n k v) }
{
    let i = 129 + 18 * (n as usize) + (k as usize);
    book[i] = v;
}

// Makes m the root machine.
pub fn set_root(book: &mut [u32], m: u32)
    requires { length book.old ≡ book_length }
    ensures { Holds book.new (with_root (tree_of book.old) m) }
{
    book[0] = m;
}

// Makes v the node that holds machine m; ABSENT for none.
pub fn set_holder(book: &mut [u32], m: u32, v: u32)
    requires { (length book.old ≡ book_length) × (m < machines) }
    ensures { Holds book.new (with_holder (tree_of book.old) m (number v)) }
{
    set_machine_word(book, m, 0, v);
}

// Makes v the start node of machine m; ABSENT for none.
pub fn set_start(book: &mut [u32], m: u32, v: u32)
    requires { (length book.old ≡ book_length) × (m < machines) }
    ensures { Holds book.new (with_start_of (tree_of book.old) m (number v)) }
{
    set_machine_word(book, m, 1, v);
}

// Makes v the machine that node n belongs to; ABSENT for none.
pub fn set_owner(book: &mut [u32], n: u32, v: u32)
    requires { (length book.old ≡ book_length) × (n < nodes) }
    ensures { Holds book.new (with_owner (tree_of book.old) n (number v)) }
{
    set_node_word(book, n, 0, v);
}

// Makes v the machine that node n holds; ABSENT for none.
pub fn set_below(book: &mut [u32], n: u32, v: u32)
    requires { (length book.old ≡ book_length) × (n < nodes) }
    ensures { Holds book.new (with_below (tree_of book.old) n (number v)) }
{
    set_node_word(book, n, 1, v);
}

// Makes w the transition of node n for command x, target and cost in one word; BLANK for none.
pub fn set_transition(book: &mut [u32], n: u32, x: u32, w: u32)
    requires { (length book.old ≡ book_length) × (n < nodes) × (x < commands) }
    ensures { Holds book.new (with_transition (tree_of book.old) n x (transition_of w)) }
{
    set_node_word(book, n, 2 + x, w);
}

// Makes v the hold of node n.
pub fn set_hold(book: &mut [u32], n: u32, v: u32)
    requires { (length book.old ≡ book_length) × (n < nodes) }
    ensures { Holds book.new (with_node_hold (tree_of book.old) n v) }
{
    let i = HOLDS + (n as usize);
    book[i] = v;
}

// Makes v what leaving machine m costs.
pub fn set_leave(book: &mut [u32], m: u32, v: u32)
    requires { (length book.old ≡ book_length) × (m < machines) }
    ensures { Holds book.new (with_leave (tree_of book.old) m v) }
{
    let i = LEAVES + (m as usize);
    book[i] = v;
}

// Leaves machine m's record and its leaving cost as an unused one has them.
pub fn clear_machine(book: &mut [u32], m: u32)
    requires { (length book.old ≡ book_length) × (m < machines) }
    ensures { Holds book.new (without_machine (tree_of book.old) m) }
{
    set_holder(book, m, ABSENT);
    set_start(book, m, ABSENT);
    set_leave(book, m, 0);
}

// Leaves node n no transition.
fn clear_transitions(book: &mut [u32], n: u32)
    requires { (length book.old ≡ book_length) × (n < nodes) }
    ensures { Holds book.new (without_transitions (tree_of book.old) n) }
{
    for x in 0..COMMANDS {
        set_transition(book, n, x, BLANK);
    }
}

// Leaves node n's record and its hold as an unused one has them.
pub fn clear_node(book: &mut [u32], n: u32)
    requires { (length book.old ≡ book_length) × (n < nodes) }
    ensures { Holds book.new (without_node (tree_of book.old) n) }
{
    set_owner(book, n, ABSENT);
    set_below(book, n, ABSENT);
    clear_transitions(book, n);
    set_hold(book, n, 0);
}
