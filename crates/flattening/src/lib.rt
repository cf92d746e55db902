// The step of every state at once (document 01: the step and its charge), as tables of moves; and the least costs from a state by one search over them.
#![tactic(auto)]

ghost use Rattle.std.specs.Prelude.{◌≡◌, ℕ, ◌+◌, ◌≤◌, ◌<◌, length};
ghost use Rattle.std.proofs.Math.Option.{some};
ghost use Rattle.definitions.specs.Limits.{machines, nodes, commands, levels};
ghost use Rattle.definitions.specs.Tree.{UsedNode};
ghost use Rattle.definitions.specs.Step.{step};
ghost use Rattle.definitions.specs.Book.{tree_of, WellFormed};
ghost use Rattle.search.specs.Tables.{TableRoom, BlankRow, EntryFilled, RowFilled, Tabled};
ghost use Rattle.inheriting.specs.Inheriting.{NodeList, UpRoom, MachineRow, OwnerRow, RootRow};
ghost use Rattle.flattening.specs.Flattening.{EnteredAt, Entered, LevelRows, HandedAt, flat_move, Searchable, Spread};

// The state where node n is entered; n itself where it is not in use.
fn entered_at(book: &[u32], n: u32) -> u32
    requires { WellFormed book.now × (n < nodes) }
    ensures { EnteredAt (tree_of book.now) n result }
{
    if book::owner(book, n) == book::ABSENT {
        return n;
    }
    stepping::enter(book, n)
}

// Writes for every node the state where it is entered.
fn entered(book: &[u32], lands: &mut [u32])
    requires { WellFormed book.now × (length lands.old ≡ nodes) }
    ensures { Entered (tree_of book.now) lands.new }
{
    for n in 0..book::NODES {
        lands[n as usize] = entered_at(book, n);
    }
}

// Writes what machine m inherits, if the node that holds it stands at level l. The rows down to this level are written already.
fn inherit_at(book: &[u32], lands: &[u32], l: u32, m: u32, up: &mut [u64])
    requires { WellFormed book.now × NodeList lands.now × UpRoom up.old × (m < machines)
        × LevelRows (tree_of book.now) lands.now up.old l }
    ensures { HandedAt (tree_of book.now) lands.now l (λ p. p ≡ m) up.old up.new }
{
    let h = book::holder(book, m);
    if h == book::ABSENT {
        return;
    }
    if stepping::level(book, h) != l {
        return;
    }
    inheriting::inherit(book, lands, m, h, up);
}

// Writes what the machines just below level l inherit.
fn inherit_level(book: &[u32], lands: &[u32], l: u32, up: &mut [u64])
    requires { WellFormed book.now × NodeList lands.now × UpRoom up.old × (1 ≤ l) × LevelRows (tree_of book.now) lands.now up.old l }
    ensures { LevelRows (tree_of book.now) lands.now up.new (l + 1) }
{
    for m in 0..book::MACHINES {
        inherit_at(book, lands, l, m, up);
    }
}

// Writes what all machines inherit, from the root down. The root's row is written already.
fn inherit_all(book: &[u32], lands: &[u32], up: &mut [u64])
    requires { WellFormed book.now × NodeList lands.now × UpRoom up.old × RootRow (tree_of book.now) lands.now up.old }
    ensures { LevelRows (tree_of book.now) lands.now up.new levels }
{
    for l in 1..book::LEVELS {
        inherit_level(book, lands, l, up);
    }
}

// Fills the entry of node n of machine m for command x.
fn entry(
    book: &[u32],
    lands: &[u32],
    up: &[u64],
    m: u32,
    n: u32,
    x: u32,
    target: &mut [u32],
    price: &mut [u64],
)
    requires { WellFormed book.now × Entered (tree_of book.now) lands.now × UpRoom up.now × ((tree_of book.now).owner n ≡ some m)
        × (x < commands) × MachineRow (tree_of book.now) lands.now up.now m × TableRoom target.old price.old }
    ensures { EntryFilled (step (tree_of book.now) n x) n x
        target.old price.old target.new price.new }
{
    let w = inheriting::find(book, lands, up, m, n, x);
    let i = (book::COMMANDS * n + x) as usize;
    target[i] = (w / inheriting::WAY) as u32;
    price[i] = w % inheriting::WAY;
}

// Fills the row of node n.
fn row(book: &[u32], lands: &[u32], up: &[u64], n: u32, target: &mut [u32], price: &mut [u64])
    requires { WellFormed book.now × Entered (tree_of book.now) lands.now × UpRoom up.now × UsedNode (tree_of book.now) n
        × OwnerRow (tree_of book.now) lands.now up.now n × TableRoom target.old price.old }
    ensures { RowFilled (step (tree_of book.now) n) n
        target.old price.old target.new price.new }
{
    let m = book::owner(book, n);
    for x in 0..book::COMMANDS {
        entry(book, lands, up, m, n, x, target, price);
    }
}

// Fills the row of node n, which has no move yet, if it is a state.
fn row_if_state(
    book: &[u32],
    lands: &[u32],
    up: &[u64],
    n: u32,
    target: &mut [u32],
    price: &mut [u64],
)
    requires { WellFormed book.now × Entered (tree_of book.now) lands.now × UpRoom up.now
        × LevelRows (tree_of book.now) lands.now up.now levels × (n < nodes)
        × TableRoom target.old price.old × BlankRow n target.old price.old }
    ensures { RowFilled (flat_move (tree_of book.now) n) n
        target.old price.old target.new price.new }
{
    if !stepping::is_state(book, n) {
        return;
    }
    row(book, lands, up, n, target, price);
}

// Fills the tables, which have no move yet, from where the nodes are entered and what the machines inherit.
fn rows(book: &[u32], lands: &[u32], up: &[u64], target: &mut [u32], price: &mut [u64])
    requires { WellFormed book.now × Entered (tree_of book.now) lands.now × UpRoom up.now
        × LevelRows (tree_of book.now) lands.now up.now levels
        × TableRoom target.old price.old × ((n : ℕ) → n < nodes → BlankRow n target.old price.old) }
    ensures { Tabled (flat_move (tree_of book.now)) nodes target.new price.new }
{
    for n in 0..book::NODES {
        row_if_state(book, lands, up, n, target, price);
    }
}

// Fills the tables, which have no move yet, with the steps of all states: where each command leads and what it costs; no move where the station
// stops, and for nodes that are no states.
pub fn flatten(book: &[u32], target: &mut [u32], price: &mut [u64])
    requires { WellFormed book.now × TableRoom target.old price.old
        × ((n : ℕ) → n < nodes → BlankRow n target.old price.old) }
    ensures { Tabled (flat_move (tree_of book.now)) nodes target.new price.new }
{
    let mut lands = [0u32; 256];
    entered(book, &mut lands);
    let mut up = [0u64; 1024];
    inherit_all(book, &lands, &mut up);
    rows(book, &lands, &up, target, price);
}

// Searches from state a over all states, up to b: leaves the least cost to b and, where there is no way to b, to every node; UNREACHED where there is
// no way. It reads the book alone.
pub fn spread(book: &[u32], a: u32, b: u32, dist: &mut [u64])
    requires { Searchable book.now a × (length dist.old ≡ nodes) }
    ensures { Spread (tree_of book.now) a b dist.new }
{
    let mut target = [book::ABSENT; 4096];
    let mut price = [0u64; 4096];
    flatten(book, &mut target, &mut price);
    let mut before = [0u32; 256];
    let mut by = [0u32; 256];
    search::search(
        book::NODES as usize,
        a as usize,
        b as usize,
        &target,
        &price,
        dist,
        &mut before,
        &mut by,
    );
}
