// Refresh (document 01, "Loading a stream"): every stale row is filled and is stale no more, the lowest machines first. The nodes of one
// machine stand at places 0 to k - 1, and the least costs over them are one search's.
#![tactic(auto)]

ghost use Rattle.std.specs.Prelude.{◌≡◌, ℕ, ◌+◌, ◌-◌, ◌≤◌, ◌<◌, length};
ghost use Rattle.definitions.specs.Limits.{machines, nodes, commands, sheet_length, largest_plan_cost};
ghost use Rattle.definitions.specs.Book.{number, tree_of, WellFormed};
ghost use Rattle.definitions.specs.Sheet.{cost_of, rows_of};
ghost use Rattle.definitions.specs.Truth.{node_exit, move, TrueSheet};
ghost use Rattle.search.specs.Search.{reached, entry_move};
ghost use Rattle.search.specs.Parts.{at};
ghost use Rattle.search.specs.Tables.{TableRoom, FoundRoom, Tabled};
ghost use Rattle.sheet.specs.Exits.{Readable};
ghost use Rattle.sheet.specs.Fields.{Leaves};
ghost use Rattle.refreshing.specs.Parts.{Gathered, placed, member_move, Placing, Searches};
ghost use Rattle.refreshing.specs.Parts.{member_of, with_node, CostFits, PlaceFits, Writable, NodesWritten};
ghost use Rattle.refreshing.specs.Parts.{distances, LeavesAt, WayCosts, Cheapest, IsNear, Near, NearOut};
ghost use Rattle.refreshing.specs.Parts.{ExitWritten, ExitsWritten};
ghost use Rattle.refreshing.specs.Refresh.{machine_level, MachineLevels, Fillable, Filled, FreshBelow, StepFilled, FilledBelow};
ghost use Rattle.refreshing.specs.Refresh.{Refreshes};

// An entry of the tables: the place where a move leads, ABSENT where there is no move, and what it costs.
#[derive(Drop)]
struct Entry {
    target: u32,
    price: u64,
}

// A way out of a machine: what it costs, UNREACHED where there is none, and the node where it ends.
#[derive(Drop)]
struct WayOut {
    cost: u64,
    node: u32,
}

// Node n gets place k where it belongs to machine m; how many nodes have a place then.
fn gather_node(book: &[u32], m: u32, n: u32, k: u32, members: &mut [u32], places: &mut [u32]) -> u32
    requires { WellFormed book.now × (m < machines) × (n < nodes) × Gathered (tree_of book.now) m n k members.old places.old }
    ensures { Gathered (tree_of book.now) m (n + 1) result members.new places.new }
{
    if book::owner(book, n) != m {
        return k;
    }
    members[k as usize] = n;
    places[n as usize] = k;
    k + 1
}

// Gives the nodes of machine m their places; how many there are.
fn gather(book: &[u32], m: u32, members: &mut [u32], places: &mut [u32]) -> u32
    requires { WellFormed book.now × (m < machines) × (length members.old ≡ nodes) × (length places.old ≡ nodes) }
    ensures { Gathered (tree_of book.now) m nodes result members.new places.new }
{
    let mut k = 0u32;
    for n in 0..book::NODES {
        k = gather_node(book, m, n, k, members, places);
    }
    k
}

// What it costs to come to node n at cost d, leave it by command x and go on at cost w; UNREACHED where n is never left by x.
fn leave(book: &[u32], sheet: &[u32], n: u32, x: u32, d: u64, w: u32) -> u64
    requires { Readable book.now sheet.now × (n < nodes) × (x < commands) × (d ≤ largest_plan_cost) }
    ensures { LeavesAt (node_exit (tree_of book.now) (rows_of sheet.now) n x) d w result }
{
    let Some(e) = sheet::own_exit(book, sheet, n, x) else {
        return search::UNREACHED;
    };
    d + e + u64::from(w)
}

// The move of node n for command x, as an entry of the tables. What it may need is read first, so that the tests only pick.
fn table_entry(book: &[u32], sheet: &[u32], places: &[u32], n: u32, x: u32) -> Entry
    requires { Readable book.now sheet.now × Placing (tree_of book.now) places.now n × (x < commands) }
    ensures { entry_move result.target result.price
        ≡ placed (at places.now) (move (tree_of book.now) (rows_of sheet.now) n x) }
{
    let w = book::counting(book, n, x);
    let price = leave(book, sheet, n, x, 0, w % 65536);
    let v = book::word(places, w / 65536 % book::NODES);
    if w == book::BLANK {
        return Entry {
            target: book::ABSENT,
            price: 0,
        };
    }
    if price == search::UNREACHED {
        return Entry {
            target: book::ABSENT,
            price: 0,
        };
    }
    Entry { target: v, price }
}

// Fills the tables with the moves of the k nodes.
fn tables(
    book: &[u32],
    sheet: &[u32],
    k: u32,
    members: &[u32],
    places: &[u32],
    target: &mut [u32],
    price: &mut [u64],
)
    requires { Readable book.now sheet.now × ((m : ℕ) × Gathered (tree_of book.now) m nodes k members.now places.now)
        × TableRoom target.old price.old }
    ensures { Tabled (member_move (tree_of book.now) (rows_of sheet.now) (at members.now)
        (at places.now)) k target.new price.new }
{
    for j in 0..16 * k {
        let e = table_entry(book, sheet, places, book::word(members, j / 16), j % 16);
        target[j as usize] = e.target;
        price[j as usize] = e.price;
    }
}

// Gathers the nodes of machine m and searches from its start node, with no goal; how many there are.
fn find(
    book: &[u32],
    sheet: &[u32],
    m: u32,
    members: &mut [u32],
    places: &mut [u32],
    target: &mut [u32],
    price: &mut [u64],
    dist: &mut [u64],
    before: &mut [u32],
    by: &mut [u32],
) -> u32
    requires { WellFormed book.now × TrueSheet (tree_of book.now) sheet.now × (m < machines)
        × Fillable (tree_of book.now) m (rows_of sheet.now) × (length members.old ≡ nodes) × (length places.old ≡ nodes)
        × TableRoom target.old price.old × FoundRoom dist.old before.old by.old }
    ensures { Searches (tree_of book.now) (rows_of sheet.now) m result members.new places.new
        target.new price.new dist.new before.new by.new }
{
    let k = gather(book, m, members, places);
    tables(book, sheet, k, members, places, target, price);
    let source = book::word(places, book::start(book, m));
    search::search(
        k as usize,
        source as usize,
        k as usize,
        target,
        price,
        dist,
        before,
        by,
    );
    k
}

// The word of a distance.
fn cost_word(d: u64) -> u32
    requires { CostFits d }
    ensures { cost_of result ≡ reached d }
{
    if d == search::UNREACHED {
        return book::BLANK;
    }
    d as u32
}

// The node at place v; ABSENT for no place.
fn name_word(members: &[u32], v: u32) -> u32
    requires { PlaceFits members.now v }
    ensures { number result ≡ member_of members.now (number v) }
{
    if v == book::ABSENT {
        return book::ABSENT;
    }
    members[v as usize]
}

// Writes the row of node n: at distance d, reached from the node at place v by command x.
fn write_node(sheet: &mut [u32], members: &[u32], n: u32, d: u64, v: u32, x: u32)
    requires { (length sheet.old ≡ sheet_length) × (n < nodes) × CostFits d × PlaceFits members.now v }
    ensures { Leaves sheet.old sheet.new
        (with_node (rows_of sheet.old) n (reached d) (member_of members.now (number v)) (number x)) }
{
    sheet::set_cost(sheet, n, cost_word(d));
    sheet::set_before(sheet, n, name_word(members, v));
    sheet::set_by(sheet, n, x);
}

// Writes the rows of the k nodes.
fn write_nodes(sheet: &mut [u32], k: u32, members: &[u32], dist: &[u64], before: &[u32], by: &[u32])
    requires { (length sheet.old ≡ sheet_length) × Writable k members.now dist.now before.now by.now }
    ensures { NodesWritten k members.now dist.now before.now by.now
        sheet.old sheet.new }
{
    for (i, n) in members[..k as usize].iter().enumerate() {
        write_node(sheet, members, *n, dist[i], before[i], by[i]);
    }
}

// What it costs to leave a machine by command x from its node n at distance d; UNREACHED where that is no way out. The sum is made first,
// so that the last test only picks.
fn way_cost(book: &[u32], sheet: &[u32], n: u32, d: u64, x: u32) -> u64
    requires { Readable book.now sheet.now × (n < nodes) × IsNear d × (x < commands) }
    ensures { WayCosts (tree_of book.now) (rows_of sheet.now) n (reached d) x result }
{
    if d == search::UNREACHED {
        return search::UNREACHED;
    }
    let way = leave(book, sheet, n, x, d, 0);
    if book::counting(book, n, x) != book::BLANK {
        return search::UNREACHED;
    }
    way
}

// The cheapest way out by command x from the k nodes.
fn cheapest(book: &[u32], sheet: &[u32], k: u32, members: &[u32], dist: &[u64], x: u32) -> WayOut
    requires { Readable book.now sheet.now × Near k members.now dist.now × (x < commands) }
    ensures { Cheapest (tree_of book.now) (rows_of sheet.now) (at members.now)
        (distances dist.now) x k result.cost result.node }
{
    let mut cost = search::UNREACHED;
    let mut node = book::ABSENT;
    for (j, n) in members[..k as usize].iter().enumerate() {
        let c = way_cost(book, sheet, *n, dist[j], x);
        if c < cost {
            cost = c;
            node = *n;
        }
    }
    WayOut { cost, node }
}

// Writes the exit of machine m for command x.
fn write_exit(
    book: &[u32],
    sheet: &mut [u32],
    m: u32,
    k: u32,
    members: &[u32],
    dist: &[u64],
    x: u32,
)
    requires { Readable book.now sheet.old × (m < machines)
        × NearOut (tree_of book.now) (rows_of sheet.old) m k members.now dist.now × (x < commands) }
    ensures { ExitWritten (tree_of book.now) m k x members.now dist.now
        sheet.old sheet.new }
{
    let way = cheapest(book, sheet, k, members, dist, x);
    sheet::set_exit(sheet, m, x, cost_word(way.cost));
    sheet::set_last(sheet, m, x, way.node);
}

// Writes the exits of machine m.
fn write_exits(book: &[u32], sheet: &mut [u32], m: u32, k: u32, members: &[u32], dist: &[u64])
    requires { Readable book.now sheet.old × (m < machines)
        × NearOut (tree_of book.now) (rows_of sheet.old) m k members.now dist.now }
    ensures { ExitsWritten (tree_of book.now) m k commands members.now dist.now
        sheet.old sheet.new }
{
    for x in 0..book::COMMANDS {
        write_exit(book, sheet, m, k, members, dist, x);
    }
}

// Fills the row of machine m, which is stale, and those of its nodes; nothing just below it is stale.
fn fill_machine(book: &[u32], sheet: &mut [u32], m: u32, target: &mut [u32], price: &mut [u64])
    requires { WellFormed book.now × TrueSheet (tree_of book.now) sheet.old × (m < machines)
        × Fillable (tree_of book.now) m (rows_of sheet.old) × TableRoom target.old price.old }
    ensures { Filled (tree_of book.now) m sheet.old sheet.new }
{
    let mut members = [0u32; 256];
    let mut places = [0u32; 256];
    let mut dist = [0u64; 256];
    let mut before = [0u32; 256];
    let mut by = [0u32; 256];
    let k = find(
        book,
        sheet,
        m,
        &mut members,
        &mut places,
        target,
        price,
        &mut dist,
        &mut before,
        &mut by,
    );
    write_nodes(sheet, k, &members, &dist, &before, &by);
    write_exits(book, sheet, m, k, &members, &dist);
    sheet::set_stale(sheet, m, 0);
}

// The level of machine m, 1 for the root; 0 where it is not in use.
fn machine_level(book: &[u32], m: u32) -> u32
    requires { WellFormed book.now × (m < machines) }
    ensures { result ≡ machine_level (tree_of book.now) m }
{
    if book::start(book, m) == book::ABSENT {
        return 0;
    }
    let mut p = m;
    let mut count = 1u32;
    loop {
        let h = book::holder(book, p);
        if h == book::ABSENT {
            return count;
        }
        p = book::owner(book, h);
        count += 1;
    }
}

// The level of every machine.
fn machine_levels(book: &[u32]) -> [u32; 64]
    requires { WellFormed book.now }
    ensures { MachineLevels (tree_of book.now) machines result }
{
    let mut list = [0u32; 64];
    for m in 0..book::MACHINES {
        list[m as usize] = machine_level(book, m);
    }
    list
}

// Fills machine m if it is stale and of level l.
fn fill_if_stale(
    book: &[u32],
    sheet: &mut [u32],
    list: &[u32],
    l: u32,
    m: u32,
    target: &mut [u32],
    price: &mut [u64],
)
    requires { WellFormed book.now × TrueSheet (tree_of book.now) sheet.old × MachineLevels (tree_of book.now) machines list.now
        × FreshBelow (tree_of book.now) l (rows_of sheet.old) × (m < machines) × TableRoom target.old price.old }
    ensures { StepFilled (tree_of book.now) l m sheet.old sheet.new }
{
    if book::word(list, m) != l {
        return;
    }
    if sheet::stale(sheet, m) != 1 {
        return;
    }
    fill_machine(book, sheet, m, target, price);
}

// Fills the stale machines of level l; nothing below that level is stale.
fn fill_level(
    book: &[u32],
    sheet: &mut [u32],
    list: &[u32],
    l: u32,
    target: &mut [u32],
    price: &mut [u64],
)
    requires { WellFormed book.now × TrueSheet (tree_of book.now) sheet.old × MachineLevels (tree_of book.now) machines list.now
        × FreshBelow (tree_of book.now) l (rows_of sheet.old) × (0 < l) × TableRoom target.old price.old }
    ensures { FilledBelow (tree_of book.now) (l - 1) sheet.old sheet.new }
{
    for m in 0..book::MACHINES {
        fill_if_stale(book, sheet, list, l, m, target, price);
    }
}

// Refresh: fills every stale row of a true sheet and unmarks it, and leaves every word of the other rows as it was. The book is well formed.
pub fn refresh(book: &[u32], sheet: &mut [u32])
    requires { WellFormed book.now × TrueSheet (tree_of book.now) sheet.old }
    ensures { Refreshes (tree_of book.now) sheet.old sheet.new }
{
    let list = machine_levels(book);
    let mut target = [0u32; 4096];
    let mut price = [0u64; 4096];
    for l in (1..=book::LEVELS).rev() {
        fill_level(book, sheet, &list, l, &mut target, &mut price);
    }
}
