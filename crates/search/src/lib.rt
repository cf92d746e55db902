// Least costs from one source over at most 256 nodes with 16 moves each, given as two tables (Dijkstra's search). Nodes are settled one after
// the other, the nearest first. The reached nodes stand in a list, each once: the first n are settled, in their order, and the others wait.
#![tactic(auto)]

ghost use Rattle.std.specs.Prelude.{◌≡◌, ◌+◌, ◌*◌, ◌≤◌, ◌<◌, cond, ltb, leb, length, get_or};
ghost use Rattle.definitions.specs.Limits.{nodes, commands};
ghost use Rattle.search.specs.Search.{largest_move, unreached, row_move, Tables, Room, Searched};
ghost use Rattle.search.specs.Parts.{at, labels, stored_if, Blank, BlankedTo, Relaxed, Row, Listing, Grown, Nearest, Brought, Places};

// The word for a node or a command that is not there, and for a distance that is not there.
pub const ABSENT: u32 = 65535;

pub const UNREACHED: u64 = 18446744073709551615;

// The largest cost of a move.
pub const LARGEST: u64 = 135264240;

// The word at place i of a table.
fn word(table: &[u32], i: usize) -> u32
    requires { i < length table.now }
    ensures { result ≡ get_or table.now i 0 }
{
    table[i]
}

// The cost at place i of the table of costs, or the largest of a move where the table says more, as it may where there is no move.
fn price_at(price: &[u64], i: usize) -> u64
    requires { i < length price.now }
    ensures { (result ≤ largest_move) × (get_or price.now i 0 ≤ largest_move → result ≡ get_or price.now i 0) }
{
    let p = price[i];
    if p < LARGEST { p } else { LARGEST }
}

// Blanks the first k nodes; the source has distance 0.
fn fill(k: usize, source: usize, dist: &mut [u64], before: &mut [u32], by: &mut [u32])
    requires { (source < k) × Room k dist.old before.old by.old }
    ensures { BlankedTo k source (labels dist.old before.old by.old)
        (labels dist.new before.new by.new) }
{
    for v in 0..k {
        dist[v] = UNREACHED;
        before[v] = ABSENT;
        by[v] = ABSENT;
    }
    dist[source] = 0;
}

// The distance of the node at place i of the list.
fn distance(order: &[u32], dist: &[u64], i: usize) -> u64
    requires { (i < length order.now) × (get_or order.now i 0 < length dist.now) }
    ensures { result ≡ at dist.now (at order.now i) }
{
    dist[order[i] as usize]
}

// The place of a nearest node among places n to count - 1 of the list.
fn pick(order: &[u32], n: usize, count: usize, dist: &[u64]) -> usize
    requires { Places n count order.now dist.now }
    ensures { Nearest (at dist.now) (at order.now) n count result }
{
    let mut best = n;
    let mut least = distance(order, dist, n);
    for i in n + 1..count {
        let d = distance(order, dist, i);
        if d < least {
            best = i;
            least = d;
        }
    }
    best
}

// Brings a nearest node of places n to count - 1 to place n, and gives it.
fn bring(order: &mut [u32], n: usize, count: usize, dist: &[u64]) -> usize
    requires { Places n count order.old dist.now }
    ensures { Brought (at dist.now) (at order.old) (at order.new) n count result }
{
    let i = pick(order, n, count, dist);
    let u = word(order, i);
    order[i] = order[n];
    order[n] = u;
    u as usize
}

// Lists node v, which has distance d, where it was not reached; gives how many nodes are listed.
fn list(order: &mut [u32], count: usize, v: u32, d: u64) -> usize
    requires { (nodes ≤ length order.old) × (unreached ≤ d → count < nodes) }
    ensures { (order.new ≡ stored_if (leb unreached d) order.old count v) × (result ≡ cond (leb unreached d) (count + 1) count) }
{
    if d < UNREACHED {
        return count;
    }
    order[count] = v;
    count + 1
}

// Names command x of node u for node v where that is nearer.
fn relax(u: u32, x: u32, v: usize, d: u64, dist: &mut [u64], before: &mut [u32], by: &mut [u32])
    requires { (v < length dist.old) × (v < length before.old) × (v < length by.old) }
    ensures { (dist.new ≡ stored_if (ltb d (get_or dist.old v 0)) dist.old v d)
        × (before.new ≡ stored_if (ltb d (get_or dist.old v 0)) before.old v u)
        × (by.new ≡ stored_if (ltb d (get_or dist.old v 0)) by.old v x) }
{
    if d < dist[v] {
        dist[v] = d;
        before[v] = u;
        by[v] = x;
    }
}

// Relaxes the moves of node u and lists the nodes that are reached by them; gives how many nodes are listed. Whether there is a move cannot be
// foreseen: none is taken as one from u to itself, which is never nearer, so that no jump is needed.
fn relax_all(
    u: usize,
    target: &[u32],
    price: &[u64],
    dist: &mut [u64],
    before: &mut [u32],
    by: &mut [u32],
    order: &mut [u32],
    count: usize,
) -> usize
    requires { Row u target.now price.now dist.old before.old by.old
        × Listing (at dist.old) (at order.old) count
        × (nodes ≤ length order.old) }
    ensures { Relaxed (row_move target.now price.now u) u commands
        (labels dist.old before.old by.old)
        (labels dist.new before.new by.new)
        × Listing (at dist.new) (at order.new) result
        × Grown (at dist.old) (at dist.new) (at order.old) (at order.new) count result }
{
    let here = dist[u];
    let mut listed = count;
    for x in 0..16 {
        let i = 16 * u + x;
        let t = word(target, i);
        let v = if t == ABSENT { u as u32 } else { t };
        listed = list(order, listed, v, dist[v as usize]);
        relax(
            u as u32,
            x as u32,
            v as usize,
            here + price_at(price, i),
            dist,
            before,
            by,
        );
    }
    listed
}

// Finds the least costs in blank lists, up to the goal. The list of the reached nodes begins with the source.
fn settle(
    k: usize,
    source: usize,
    goal: usize,
    target: &[u32],
    price: &[u64],
    dist: &mut [u64],
    before: &mut [u32],
    by: &mut [u32],
)
    requires { Tables k source target.now price.now
        × Room k dist.old before.old by.old
        × Blank k source (labels dist.old before.old by.old) }
    ensures { Searched k source goal target.now price.now dist.old before.old by.old
        dist.new before.new by.new }
{
    let mut order = [source as u32; 256];
    let mut count = 1usize;
    let mut n = 0usize;
    // No `for`: each turn may list more nodes, so that count grows while they are settled.
    while n < count {
        let u = bring(&mut order, n, count, dist);
        if u == goal {
            return;
        }
        count = relax_all(u, target, price, dist, before, by, &mut order, count);
        n += 1;
    }
}

// Finds the least costs from the source over k nodes, at most 256, up to the goal, a node; all of them where the goal is none of the k. Row u of the
// tables, the 16 entries from 16 * u on, has the moves of node u: where each leads, ABSENT where there is none, and what it costs, at most
// LARGEST. For each node it leaves the distance and the names of the move by which it is reached, UNREACHED and ABSENT where it is not; entries
// from k on are untouched. Nodes that are no nearer than the goal may have been left at a distance that is not the least, or at none.
pub fn search(
    k: usize,
    source: usize,
    goal: usize,
    target: &[u32],
    price: &[u64],
    dist: &mut [u64],
    before: &mut [u32],
    by: &mut [u32],
)
    requires { Tables k source target.now price.now × Room k dist.old before.old by.old }
    ensures { Searched k source goal target.now price.now dist.old before.old by.old
        dist.new before.new by.new }
{
    fill(k, source, dist, before, by);
    settle(k, source, goal, target, price, dist, before, by);
}
