// The search of a plan (document 01, "Exit, step and plan"): the machines above two nodes are opened, the tables take the moves between
// their nodes, with exit costs for what lies below, and the least costs over them are one search's. A node's place is its number.
#![tactic(auto)]

ghost use Rattle.std.specs.Prelude.{◌≡◌, ℕ, ◌<◌, length};
ghost use Rattle.std.proofs.Math.Option.{some};
ghost use Rattle.definitions.specs.Limits.{machines, nodes, commands};
ghost use Rattle.definitions.specs.Tree.{UsedNode};
ghost use Rattle.definitions.specs.Book.{tree_of, WellFormed};
ghost use Rattle.definitions.specs.Sheet.{rows_of};
ghost use Rattle.plantheory.specs.Search.{opened_for, land};
ghost use Rattle.search.specs.Search.{entry_move};
ghost use Rattle.search.specs.Tables.{TableRoom, FoundRoom, BlankRow, EntryFilled, RowFilled, Tabled};
ghost use Rattle.refusals.specs.Meaning.{value_of};
ghost use Rattle.sheet.specs.Exits.{Readable, Exits};
ghost use Rattle.inheriting.specs.Inheriting.{way_of, WayFits, NodeList, UpRoom, OwnerRow, MachineRow, RootRow};
ghost use Rattle.crossing.specs.Crossing.{Crossable, Crossed};
ghost use Rattle.crossing.specs.Parts.{is_open, MachinesOpened, in_opened, OpenedFor, Itself, LandedAbove, Landings};
ghost use Rattle.crossing.specs.Parts.{leaves, land_move, open_move, HandedAbove, Prepared};

// A move: the node where it leads, ABSENT where there is none, and what it costs.
#[derive(Clone, Copy)]
struct Move {
    target: u32,
    price: u64,
}

// Opens the machine of node s and all above it: their words become 1, the others stay.
fn open_above(book: &[u32], s: u32, opened: &mut [u32])
    requires { WellFormed book.now × UsedNode (tree_of book.now) s × (length opened.old ≡ machines) }
    ensures { MachinesOpened (tree_of book.now) s opened.old opened.new }
{
    let mut n = s;
    loop {
        let m = book::owner(book, n);
        opened[m as usize] = 1;
        let h = book::holder(book, m);
        if h == book::ABSENT {
            return;
        }
        n = h;
    }
}

// Whether node n belongs to an opened machine.
fn in_opened(book: &[u32], opened: &[u32], n: u32) -> bool
    requires { WellFormed book.now × (length opened.now ≡ machines) × (n < nodes) }
    ensures { result ≡ in_opened (tree_of book.now) (is_open opened.now) n }
{
    let m = book::owner(book, n);
    if m == book::ABSENT {
        return false;
    }
    opened[m as usize] == 1
}

// From node v down through the start nodes of opened machines to the first node that holds no opened machine.
fn land(book: &[u32], opened: &[u32], v: u32) -> u32
    requires { WellFormed book.now × (length opened.now ≡ machines) × UsedNode (tree_of book.now) v }
    ensures { (land (tree_of book.now) (is_open opened.now) v ≡ some result) × (result < nodes) }
{
    let mut w = v;
    loop {
        let b = book::below(book, w);
        if b == book::ABSENT {
            return w;
        }
        if opened[b as usize] != 1 {
            return w;
        }
        w = book::start(book, b);
    }
}

// Writes for every node the node itself.
fn itself(lands: &mut [u32])
    requires { length lands.old ≡ nodes }
    ensures { Itself lands.new }
{
    for v in 0..book::NODES {
        lands[v as usize] = v;
    }
}

// Writes where the nodes land that hold the machine of node s and those above it.
fn land_above(book: &[u32], opened: &[u32], s: u32, lands: &mut [u32])
    requires { WellFormed book.now × (length opened.now ≡ machines) × UsedNode (tree_of book.now) s × (length lands.old ≡ nodes) }
    ensures { LandedAbove (tree_of book.now) (is_open opened.now) s lands.old lands.new }
{
    let mut n = s;
    loop {
        let v = book::holder(book, book::owner(book, n));
        if v == book::ABSENT {
            return;
        }
        lands[v as usize] = land(book, opened, v);
        n = v;
    }
}

// Writes for every node where it lands, the machines above a and b being opened: only the nodes that hold these do not land where they are.
fn landings(book: &[u32], opened: &[u32], a: u32, b: u32, lands: &mut [u32])
    requires { WellFormed book.now × (length opened.now ≡ machines) × UsedNode (tree_of book.now) a × UsedNode (tree_of book.now) b
        × OpenedFor (tree_of book.now) a b opened.now × (length lands.old ≡ nodes) }
    ensures { Landings (tree_of book.now) (is_open opened.now) lands.new }
{
    itself(lands);
    land_above(book, opened, a, lands);
    land_above(book, opened, b, lands);
}

// Writes what the machine of node n and all above it inherit, from the root down. The root's row is written already.
fn inherit_above(book: &[u32], lands: &[u32], n: u32, up: &mut [u64])
    requires { WellFormed book.now × NodeList lands.now × UpRoom up.old × UsedNode (tree_of book.now) n
        × RootRow (tree_of book.now) lands.now up.old }
    ensures { HandedAbove (tree_of book.now) lands.now n up.old up.new }
{
    let m = book::owner(book, n);
    let above = book::holder(book, m);
    if above == book::ABSENT {
        return;
    }
    inherit_above(book, lands, above, up);
    inheriting::inherit(book, lands, m, above, up);
}

// The move of a node with this exit cost from which w is found.
fn priced(exit: Option<u64>, w: u64) -> Move
    requires { Exits (value_of exit) exit × WayFits w }
    ensures { entry_move result.target result.price ≡ leaves (value_of exit) (way_of w) }
{
    match exit {
        Some(e) => {
            let price = e + w % inheriting::WAY;
            Move {
                target: (w / inheriting::WAY) as u32,
                price,
            }
        }
        None => Move {
            target: book::ABSENT,
            price: 0,
        },
    }
}

// Fills the entry of node n of machine m for command x.
fn entry(
    book: &[u32],
    sheet: &[u32],
    lands: &[u32],
    up: &[u64],
    m: u32,
    n: u32,
    x: u32,
    target: &mut [u32],
    price: &mut [u64],
)
    requires { Readable book.now sheet.now × NodeList lands.now × UpRoom up.now × ((tree_of book.now).owner n ≡ some m) × (x < commands)
        × MachineRow (tree_of book.now) lands.now up.now m × TableRoom target.old price.old }
    ensures { EntryFilled (land_move (tree_of book.now) (rows_of sheet.now) lands.now n x) n x
        target.old price.old target.new price.new }
{
    let w = inheriting::find(book, lands, up, m, n, x);
    let found = priced(sheet::own_exit(book, sheet, n, x), w);
    let i = (book::COMMANDS * n + x) as usize;
    target[i] = found.target;
    price[i] = found.price;
}

// Fills the row of node n.
fn row(
    book: &[u32],
    sheet: &[u32],
    lands: &[u32],
    up: &[u64],
    n: u32,
    target: &mut [u32],
    price: &mut [u64],
)
    requires { Readable book.now sheet.now × NodeList lands.now × UpRoom up.now × UsedNode (tree_of book.now) n
        × OwnerRow (tree_of book.now) lands.now up.now n × TableRoom target.old price.old }
    ensures { RowFilled (land_move (tree_of book.now) (rows_of sheet.now) lands.now n) n
        target.old price.old target.new price.new }
{
    let m = book::owner(book, n);
    for x in 0..book::COMMANDS {
        entry(book, sheet, lands, up, m, n, x, target, price);
    }
}

// Fills the row of node n, which has no move yet, if it belongs to an opened machine.
fn row_if_opened(
    book: &[u32],
    sheet: &[u32],
    opened: &[u32],
    lands: &[u32],
    up: &[u64],
    n: u32,
    target: &mut [u32],
    price: &mut [u64],
)
    requires { Readable book.now sheet.now × (length opened.now ≡ machines)
        × Prepared (tree_of book.now) (is_open opened.now) lands.now up.now × (n < nodes)
        × TableRoom target.old price.old × BlankRow n target.old price.old }
    ensures { RowFilled (open_move (tree_of book.now) (rows_of sheet.now) (is_open opened.now) n) n
        target.old price.old target.new price.new }
{
    if !in_opened(book, opened, n) {
        return;
    }
    row(book, sheet, lands, up, n, target, price);
}

// Fills the tables, which have no move yet, with the moves of the nodes in opened machines.
fn rows(
    book: &[u32],
    sheet: &[u32],
    opened: &[u32],
    lands: &[u32],
    up: &[u64],
    target: &mut [u32],
    price: &mut [u64],
)
    requires { Readable book.now sheet.now × (length opened.now ≡ machines)
        × Prepared (tree_of book.now) (is_open opened.now) lands.now up.now
        × TableRoom target.old price.old × ((n : ℕ) → n < nodes → BlankRow n target.old price.old) }
    ensures { Tabled (open_move (tree_of book.now) (rows_of sheet.now) (is_open opened.now)) nodes
        target.new price.new }
{
    for n in 0..book::NODES {
        row_if_opened(book, sheet, opened, lands, up, n, target, price);
    }
}

// Fills the tables, which have no move yet, with the moves of the nodes in the machines above a and b.
fn tables(book: &[u32], sheet: &[u32], a: u32, b: u32, target: &mut [u32], price: &mut [u64])
    requires { Readable book.now sheet.now × UsedNode (tree_of book.now) a × UsedNode (tree_of book.now) b
        × TableRoom target.old price.old × ((n : ℕ) → n < nodes → BlankRow n target.old price.old) }
    ensures { Tabled (open_move (tree_of book.now) (rows_of sheet.now) (opened_for (tree_of book.now) a b)) nodes
        target.new price.new }
{
    let mut opened = [0u32; 64];
    open_above(book, a, &mut opened);
    open_above(book, b, &mut opened);
    let mut lands = [0u32; 256];
    landings(book, &opened, a, b, &mut lands);
    let mut up = [0u64; 1024];
    inherit_above(book, &lands, a, &mut up);
    inherit_above(book, &lands, b, &mut up);
    rows(book, sheet, &opened, &lands, &up, target, price);
}

// Searches from state a over the machines above a and b, up to b: leaves the distances and names of the nodes. The book is well formed, its sheet
// true and no machine in it stale.
pub fn cross(
    book: &[u32],
    sheet: &[u32],
    a: u32,
    b: u32,
    dist: &mut [u64],
    before: &mut [u32],
    by: &mut [u32],
)
    requires { Crossable book.now sheet.now a b × FoundRoom dist.old before.old by.old }
    ensures { Crossed (tree_of book.now) (rows_of sheet.now) a b
        dist.new before.new by.new }
{
    let mut target = [book::ABSENT; 4096];
    let mut price = [0u64; 4096];
    tables(book, sheet, a, b, &mut target, &mut price);
    search::search(
        book::NODES as usize,
        a as usize,
        b as usize,
        &target,
        &price,
        dist,
        before,
        by,
    );
}
