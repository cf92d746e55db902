// What every machine inherits from the nodes above it, command by command, handed down from the root: a row of words for each machine.
#![tactic(auto)]

ghost use Rattle.std.specs.Prelude.{◌≡◌, cond, ◌+◌, ◌*◌, ◌<◌, eqb};
ghost use Rattle.std.proofs.Math.Option.{some};
ghost use Rattle.definitions.specs.Limits.{nodes, commands, blank};
ghost use Rattle.definitions.specs.Book.{tree_of, WellFormed};
ghost use Rattle.inheriting.specs.Inheriting.{way_costs, way_of, WayFits, after, NodeList, finds, UpRoom, MachineRow, OwnerRow, HandedTo};

// What a command finds, as one word: the node where it lands times WAY, and what it costs; or NOTHING, which has ABSENT for its node.
pub const WAY: u64 = 281474976710656;

pub const NOTHING: u64 = 18446744073709551615;

// The word of what leads to node v at cost c.
fn way(v: u32, c: u32) -> u64
    requires { v < nodes }
    ensures { result ≡ v * way_costs + c }
{
    u64::from(v) * WAY + u64::from(c)
}

// `own`, but `inherited` where w is the word for no transition. Both are at hand, so that the choice needs no branch.
fn unless_none(w: u32, own: u64, inherited: u64) -> u64
    ensures { result ≡ cond (eqb w blank) inherited own }
{
    if w == book::BLANK { inherited } else { own }
}

// What command x finds from node n of machine m: the transition of n that counts, or else what m inherits. The list `up` has the words of what is
// inherited taken from NOTHING, so 0 for nothing.
pub fn find(book: &[u32], lands: &[u32], up: &[u64], m: u32, n: u32, x: u32) -> u64
    requires { WellFormed book.now × NodeList lands.now × UpRoom up.now × ((tree_of book.now).owner n ≡ some m) × (x < commands)
        × MachineRow (tree_of book.now) lands.now up.now m }
    ensures { way_of result ≡ finds (tree_of book.now) lands.now n x }
{
    let w = book::counting(book, n, x);
    let own = way(lands[(w / 65536 % 256) as usize], w % 65536);
    let inherited = NOTHING - up[(book::COMMANDS * m + x) as usize];
    unless_none(w, own, inherited)
}

// The word w after a machine was left at cost l.
fn after(w: u64, l: u32) -> u64
    requires { WayFits w }
    ensures { way_of result ≡ after l (way_of w) }
{
    if w == NOTHING {
        return w;
    }
    w + u64::from(l)
}

// Writes what machine m, held by node h, inherits: what every command y finds from h, after m was left. The row of the machine above is written
// already.
pub fn inherit(book: &[u32], lands: &[u32], m: u32, h: u32, up: &mut [u64])
    requires { WellFormed book.now × NodeList lands.now × UpRoom up.old × ((tree_of book.now).holder m ≡ some h)
        × OwnerRow (tree_of book.now) lands.now up.old h }
    ensures { HandedTo (tree_of book.now) lands.now m up.old up.new }
{
    let p = book::owner(book, h);
    let l = book::leave(book, m);
    for y in 0..book::COMMANDS {
        let w = after(find(book, lands, up, p, h, y), l);
        up[(book::COMMANDS * m + y) as usize] = NOTHING - w;
    }
}
