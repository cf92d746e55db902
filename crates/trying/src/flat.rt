// Dijkstra's search from a state, over a move for each state and command. It knows no machines, no exit costs and no sheet.
ghost use Rattle.std.specs.Prelude.{◌≡◌, ◌+◌, ◌<◌, get_or, set};

const NODES: u32 = 256;

const COMMANDS: u32 = 16;

// The cost of a node that is not reached.
pub const FAR: u32 = 4294967295;

// For each state and command the node that it leads to, and from 4096 on what that costs.
pub type Moves = [u32; 8192];

// A cost for each node.
pub type Costs = [u32; 256];

// A sum that stays within the numbers; sums of costs are far below its limits.
pub fn plus(a: u32, b: u32) -> u32
    ensures { (a < 2000000000) × (b < 2000000000) → result ≡ a + b }
{
    if a >= 2000000000 {
        return FAR;
    }
    if b >= 2000000000 {
        return FAR;
    }
    a + b
}

// The cost of a node; outside, that of one that is not reached.
pub fn cost_of(costs: &Costs, n: u32) -> u32
    ensures { n < 256 → result ≡ get_or costs.now n 0 }
{
    if n < NODES { costs[n as usize] } else { FAR }
}

// Stores the cost of a node; outside, nothing.
pub fn set_cost(costs: &mut Costs, n: u32, c: u32)
    ensures { n < 256 → costs.new ≡ set costs.old n c }
{
    if n < NODES {
        costs[n as usize] = c;
    }
}

// The least costs from state a to all states.
pub fn distances(moves: &Moves, a: u32, costs: &mut Costs) {
    *costs = [FAR; 256];
    set_cost(costs, a, 0);
    let mut open = [true; 256];
    for _ in 0..NODES {
        let Some(n) = nearest(costs, &open) else {
            return;
        };
        close(&mut open, n);
        relax(moves, n, costs);
    }
}

// The cheapest node that is reached and still open.
fn nearest(costs: &Costs, open: &[bool; 256]) -> Option<u32> {
    let mut best = None;
    let mut least = FAR;
    for n in 0..NODES {
        if open[n as usize] {
            if costs[n as usize] < least {
                best = Some(n);
                least = costs[n as usize];
            }
        }
    }
    best
}

// A node is open no more.
fn close(open: &mut [bool; 256], n: u32) {
    if n < NODES {
        open[n as usize] = false;
    }
}

// Lowers the costs of the nodes that node n's commands lead to.
fn relax(moves: &Moves, n: u32, costs: &mut Costs) {
    for x in 0..COMMANDS {
        lower(moves, COMMANDS * (n % NODES) + x, costs);
    }
}

// Lowers the cost of the node that a move leads to.
fn lower(moves: &Moves, i: u32, costs: &mut Costs) {
    if i >= 4096 {
        return;
    }
    let v = moves[i as usize];
    let c = plus(cost_of(costs, i / COMMANDS), moves[4096 + i as usize]);
    if c < cost_of(costs, v) {
        set_cost(costs, v, c);
    }
}
