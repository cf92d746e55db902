// Two books held against each other: the hypothesis, the least costs between states outside the node, and what Exit and Plan answer.
use crate::chance::{Wanted, find};
use crate::flat::{Flags, all_moves, exits, hand_on};
use crate::tally::{Exits, Pairs, Tally, count};
use crate::words::{
    BELOW, BLANK, Book, LEAVE, NODES, NONE, START, Sheet, clear_below, machine, node, outside,
    within,
};
use refusals::Refusal;
use trying::{Costs, FAR, Moves, cost_of, distances, plus, set_cost};

// What is no cost: the answer of a call that ought not to refuse.
const WRONG: u32 = 4294967294;

// Whether two books are the same once all below node n is cleared.
fn alike(first: &Book, second: &Book, n: u32) -> bool {
    let mut one = *first;
    let mut two = *second;
    clear_below(&mut one, first, n);
    clear_below(&mut two, second, n);
    one == two
}

// The cost that a call answers: that of what is not reached where there is no way.
fn cost_or_far(answer: Result<u32, Refusal>) -> u32 {
    match answer {
        Ok(cost) => cost,
        Err(Refusal::NoWay) => FAR,
        Err(_) => WRONG,
    }
}

// What exiting machine m by x costs, with its leaving charge, as Exit says.
fn exit_cost(list: &Book, sheet: &Sheet, m: u32, x: u32) -> u32 {
    let leaving = machine(list, m, LEAVE);
    cost_or_far(exiting::exit(list, sheet, m, x).map(|cost| plus(cost, leaving)))
}

// What a plan from a to b costs, as Plan says.
pub fn plan_cost(list: &Book, sheet: &Sheet, a: u32, b: u32) -> u32 {
    let mut buffer = [0u8; 255];
    cost_or_far(planning::plan(list, sheet, a, b, &mut buffer).map(|plan| plan.cost))
}

// The word at a place of a sheet in which every machine of a book is marked.
fn marked_word(list: &Book, i: u32) -> u32 {
    if i >= 2112 {
        return if i % 3 == 0 { BLANK } else { NONE };
    }
    let k = i % 33;
    if k == 0 {
        return if machine(list, i / 33, START) == NONE {
            0
        } else {
            1
        };
    }
    if k < 17 { BLANK } else { NONE }
}

// Marks every machine of a book.
fn mark_all(list: &Book, sheet: &mut Sheet) {
    for i in 0..2880 {
        sheet[i as usize] = marked_word(list, i);
    }
}

// Fills the rows of all marked machines; Load refuses where the book is not well formed or the sheet not true, and all stays marked.
fn refresh(list: &mut Book, sheet: &mut Sheet) {
    loading::load(list, sheet, b"\x18");
}

// A book's sheet.
fn fill_sheet(list: &Book, sheet: &mut Sheet) {
    let mut copy = *list;
    mark_all(list, sheet);
    refresh(&mut copy, sheet);
}

// Counts an exit cost, with the leaving charge, and what Exit says of it.
fn count_exit(own: u32, said: u32, exits: &mut Exits) {
    count(&mut exits.compared, true);
    count(&mut exits.wrong, own != said);
    count(&mut exits.no_exit, own == FAR);
    count(&mut exits.dear, own != FAR && own != 0);
}

// Compares the exit costs of the machine below node n with Exit's.
fn compare_exits(list: &Book, n: u32, own: &[u32; 16], exits: &mut Exits) {
    let mut sheet = [0u32; sheet::SHEET];
    fill_sheet(list, &mut sheet);
    let m = node(list, n, BELOW);
    for x in 0..16 {
        let c = exit_cost(list, &sheet, m, x);
        count_exit(own[x as usize], c, exits);
    }
}

// Whether the hypothesis is met: what it costs to come up to node n is the same for all 16 commands.
fn meets(first: &Book, second: &Book, n: u32, compared: &mut Exits) -> bool {
    let mut one = [0u32; 16];
    let mut two = [0u32; 16];
    exits(first, n, &mut one);
    exits(second, n, &mut two);
    compare_exits(first, n, &one, compared);
    compare_exits(second, n, &two, compared);
    one == two
}

// Counts a pair of states: its least costs in both books, and whether a cheapest list of the first leads through the node.
fn count_states(one: u32, two: u32, through: bool, pairs: &mut Pairs) {
    count(&mut pairs.states, true);
    count(&mut pairs.no_way, one == FAR);
    count(&mut pairs.through, through);
    count(&mut pairs.changed, one != two);
}

// Counts the pairs from a state to all states outside the node.
fn count_all(states: &Flags, one: &Costs, two: &Costs, through: &Flags, pairs: &mut Pairs) {
    for b in 0..NODES {
        if states[b as usize] {
            count_states(one[b as usize], two[b as usize], through[b as usize], pairs);
        }
    }
}

// Compares the least costs from a state.
fn compare_from(
    first: &Moves,
    second: &Moves,
    states: &Flags,
    inside: &Flags,
    a: u32,
    pairs: &mut Pairs,
) {
    let mut one = [FAR; 256];
    let mut two = [FAR; 256];
    distances(first, a, &mut one);
    distances(second, a, &mut two);
    let mut through = *inside;
    hand_on(first, &one, &mut through);
    count_all(states, &one, &two, &through, pairs);
}

// Which nodes are states outside node n, and which are n or below it.
fn part(list: &Book, n: u32, states: &mut Flags, inside: &mut Flags) {
    for k in 0..NODES {
        states[k as usize] = outside(list, n, k);
        inside[k as usize] = within(list, n, k);
    }
}

// Compares the least costs between all states outside the node.
fn compare_all(list: &Book, first: &Moves, second: &Moves, n: u32, pairs: &mut Pairs) {
    let mut states = [true; 256];
    let mut inside = [true; 256];
    part(list, n, &mut states, &mut inside);
    for a in 0..NODES {
        if states[a as usize] {
            compare_from(first, second, &states, &inside, a, pairs);
        }
    }
}

// What plans from a to all states outside node n cost.
fn plan_costs(list: &Book, n: u32, a: u32, costs: &mut Costs) {
    let mut sheet = [0u32; sheet::SHEET];
    fill_sheet(list, &mut sheet);
    for b in 0..NODES {
        if outside(list, n, b) {
            let c = plan_cost(list, &sheet, a, b);
            set_cost(costs, b, c);
        }
    }
}

// Counts the plans of a book that differ from the flat search on it.
fn count_wrong(list: &Book, moves: &Moves, n: u32, a: u32, plans: &Costs, wrong: &mut u32) {
    let mut costs = [FAR; 256];
    distances(moves, a, &mut costs);
    for b in 0..NODES {
        if outside(list, n, b) {
            count(wrong, cost_of(&costs, b) != cost_of(plans, b));
        }
    }
}

// Counts the plans, and those that differ between the books.
fn count_plans(list: &Book, n: u32, one: &Costs, two: &Costs, pairs: &mut Pairs) {
    for b in 0..NODES {
        if outside(list, n, b) {
            count(&mut pairs.plans, true);
            count(&mut pairs.changed_plans, cost_of(one, b) != cost_of(two, b));
        }
    }
}

// Plans from state a to all states outside the node in both books, and compares.
fn compare_plans(
    first: &Book,
    second: &Book,
    moves: &Moves,
    other: &Moves,
    n: u32,
    a: u32,
    pairs: &mut Pairs,
) {
    let mut one = [FAR; 256];
    let mut two = [FAR; 256];
    plan_costs(first, n, a, &mut one);
    plan_costs(second, n, a, &mut two);
    count_wrong(first, moves, n, a, &one, &mut pairs.wrong_plans);
    count_wrong(second, other, n, a, &two, &mut pairs.wrong_plans);
    count_plans(first, n, &one, &two, pairs);
}

// Compares two books in all that is asked of them: the flat search from every state outside the node, Plan from one of them.
fn compare_costs(first: &Book, second: &Book, n: u32, seed: &mut u64, pairs: &mut Pairs) {
    let mut moves = [NONE; 8192];
    let mut other = [NONE; 8192];
    all_moves(first, NONE, &mut moves);
    all_moves(second, NONE, &mut other);
    compare_all(first, &moves, &other, n, pairs);
    if let Some(a) = find(first, seed, Wanted::Outside(n)) {
        compare_plans(first, second, &moves, &other, n, a, pairs);
    }
}

// Compares two books that meet the hypothesis, or miss it, and counts what there was among their least costs.
fn compare_as(first: &Book, second: &Book, n: u32, seed: &mut u64, pairs: &mut Pairs) {
    let before = *pairs;
    compare_costs(first, second, n, seed, pairs);
    let more = pairs.through != before.through;
    let others = pairs.changed != before.changed;
    count(&mut pairs.books, true);
    count(&mut pairs.through_books, more);
    count(&mut pairs.changed_books, others);
}

// Compares two books that are alike but for what is below node n.
pub fn compare(first: &Book, second: &Book, n: u32, seed: &mut u64, tally: &mut Tally) {
    count(&mut tally.unlike, !alike(first, second, n));
    if meets(first, second, n, &mut tally.exits) {
        compare_as(first, second, n, seed, &mut tally.met);
    } else {
        compare_as(first, second, n, seed, &mut tally.missed);
    }
}
