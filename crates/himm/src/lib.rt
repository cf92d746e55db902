// The public calls for C. Each returns a refusal's number, 0 for none; what a call gives is stored through pointers, and a refusal stores
// nothing (Load's two counts are always stored). A list passes as a pointer and its length.
#![tactic(auto)]

ghost use Rattle.std.specs.Prelude.{◌≡◌};
ghost use Rattle.definitions.specs.Open.{fresh, ladder, table};
ghost use Rattle.definitions.specs.Calls.{OpenSays};
ghost use Rattle.definitions.specs.Merge.{MergeSays};
ghost use Rattle.definitions.specs.Walk.{OpenWalkersSay};
ghost use Rattle.himm.specs.Exports.{reading_as, given_reading};
ghost use Rattle.himm.specs.Exports.{LoadReturns, LadderReturns, ExitReturns, StepReturns, PlanReturns, WriteReturns, ChooseReturns, ImportReturns, WalkReturns};

use importing::{Reading, Timing};
use refusals::Refusal;

mod by_command;
mod store;

// Open fresh: root 0 with start node 0. Refuses 1.
#[unsafe(no_mangle)]
pub extern "C" fn himm_open_fresh(book: &mut [u32], sheet: &mut [u32]) -> u32
    ensures { OpenSays fresh book.old sheet.old result book.new sheet.new }
{
    store::number(opening::open_fresh(book, sheet))
}

// Open ladder: the 63 machines of the ladder. Refuses 1.
#[unsafe(no_mangle)]
pub extern "C" fn himm_open_ladder(book: &mut [u32], sheet: &mut [u32]) -> u32
    ensures { OpenSays ladder book.old sheet.old result book.new sheet.new }
{
    store::number(opening::open_ladder(book, sheet))
}

// Open from a table: the tree of a lent table's rows (owner, machine below, start) in place of the ladder's. Refuses 1, 2.
#[unsafe(no_mangle)]
pub extern "C" fn himm_open_table(rows: &[u32], book: &mut [u32], sheet: &mut [u32]) -> u32
    ensures { OpenSays (table rows.now) book.old sheet.old result book.new sheet.new }
{
    store::number(ladders::open_table(rows, book, sheet))
}

// The rows of the ladder of a depth at the front of out, and how many numbers they have. Refuses 24, 15.
#[unsafe(no_mangle)]
pub extern "C" fn himm_ladder(depth: u32, out: &mut [u32], length: &mut u32) -> u32
    ensures { LadderReturns depth out.old length.old result out.new length.new }
{
    store::word(ladders::ladder(depth, out), length)
}

// Merge: a third book and its sheet from two books, a new root above both. Refuses 1, 2 (the first book), 2 (the second), 12, 19.
#[unsafe(no_mangle)]
pub extern "C" fn himm_merge(
    first: &[u32],
    second: &[u32],
    book: &mut [u32],
    sheet: &mut [u32],
) -> u32
    ensures { MergeSays first.now second.now book.old sheet.old result
        book.new sheet.new }
{
    store::number(merging::merge(first, second, book, sheet))
}

// Load: does the commands of a stream up to its end or the first that is refused. Refuses 1, 2, 3, then at a command 4 to 12 or 21.
#[unsafe(no_mangle)]
pub extern "C" fn himm_load(
    book: &mut [u32],
    sheet: &mut [u32],
    stream: &[u8],
    bytes: &mut u64,
    commands: &mut u64,
) -> u32
    ensures { LoadReturns book.old sheet.old stream.now result
        bytes.new commands.new book.new sheet.new }
{
    store::loaded(loading::load(book, sheet, stream), bytes, commands)
}

// Exit: the exit cost of a machine for a command. Refuses 1, 2, 3, 6, 7, 13, 16.
#[unsafe(no_mangle)]
pub extern "C" fn himm_exit(
    book: &[u32],
    sheet: &[u32],
    machine: u32,
    command: u32,
    cost: &mut u32,
) -> u32
    ensures { ExitReturns book.now sheet.now machine command cost.old result cost.new }
{
    store::word(exiting::exit(book, sheet, machine, command), cost)
}

// Step: the state that a command leads to, its cost, and the node whose transition was used. Refuses 1, 2, 6, 7, 14, 17.
#[unsafe(no_mangle)]
pub extern "C" fn himm_step(
    book: &[u32],
    state: u32,
    command: u32,
    next: &mut u32,
    cost: &mut u32,
    node: &mut u32,
) -> u32
    ensures { StepReturns book.now state command next.old cost.old node.old result
        next.new cost.new node.new }
{
    store::step(stepping::step(book, state, command), next, cost, node)
}

// Plan: a cheapest list of commands from a state to another at the front of the buffer, its cost and how many commands it has. Refuses 1, 2, 3,
// 13, 6, 7, 14, 15, 16.
#[unsafe(no_mangle)]
pub extern "C" fn himm_plan(
    book: &[u32],
    sheet: &[u32],
    from: u32,
    to: u32,
    plan: &mut [u8],
    cost: &mut u32,
    count: &mut u32,
) -> u32
    ensures { PlanReturns book.now sheet.now from to plan.old cost.old count.old result
        plan.new cost.new count.new }
{
    store::plan(planning::plan(book, sheet, from, to, plan), cost, count)
}

// Write: the stream of a book at the front of out, and its length. Refuses 1, 2, 15.
#[unsafe(no_mangle)]
pub extern "C" fn himm_write(book: &[u32], out: &mut [u8], length: &mut u32) -> u32
    ensures { WriteReturns book.now out.old length.old result out.new length.new }
{
    store::word(writing::write(book, out), length)
}

// Choose: which of two lists is the cheaper one from a state to another (0 the first, 1 the second), and how many of its commands are
// used. Refuses 1, 2, 6, 7, 14, 18.
#[unsafe(no_mangle)]
pub extern "C" fn himm_choose(
    book: &[u32],
    from: u32,
    to: u32,
    first: &[u8],
    second: &[u8],
    which: &mut u32,
    used: &mut u32,
) -> u32
    ensures { ChooseReturns book.now from to first.now second.now which.old used.old result
        which.new used.new }
{
    store::chosen(choosing::choice(book, from, to, first, second), which, used)
}

// The reading of a kind: 0 seconds taken, 1 seconds waited without an end.
fn reading(kind: u32, seconds: f32) -> Option<Reading>
    ensures { given_reading result ≡ reading_as kind seconds }
{
    match kind {
        0 => Some(Reading::Taken(seconds)),
        1 => Some(Reading::Waited(seconds)),
        _ => None,
    }
}

// Import: the bytes of the stream command that a timing stands for at the front of out, and their length. The reading is seconds taken (kind 0)
// or seconds waited without an end (kind 1). Refuses 6 (also for another kind), 20, 15.
#[unsafe(no_mangle)]
pub extern "C" fn himm_import(
    node: u32,
    command: u32,
    target: u32,
    kind: u32,
    seconds: f32,
    dead_time: f32,
    out: &mut [u8],
    length: &mut u32,
) -> u32
    ensures { ImportReturns node command target kind seconds dead_time out.old length.old result
        out.new length.new }
{
    let Some(reading) = reading(kind, seconds) else {
        return Refusal::OutOfRange.number();
    };
    let timing = Timing { reading, dead_time };
    store::word(
        importing::import(node, command, target, timing, out),
        length,
    )
}

// The opening of walkers, each at its state: at most limit of them may be inside the node. Nothing is written. Refuses 1, 2, 23, 6, 7, 14, 23.
#[unsafe(no_mangle)]
pub extern "C" fn himm_walkers(book: &[u32], node: u32, limit: u32, walkers: &[u32]) -> u32
    ensures { OpenWalkersSay book.now node limit «walkers».now result }
{
    store::number(walking::open_walkers(book, node, limit, walkers))
}

// A walker command: the walker's state becomes the one that the command leads to; its cost, and the node whose transition was used. Refuses as
// the opening does, then 6 (a number with no walker, a command out of range), 17, 22.
#[unsafe(no_mangle)]
pub extern "C" fn himm_walk(
    book: &[u32],
    node: u32,
    limit: u32,
    walkers: &mut [u32],
    walker: u32,
    command: u32,
    cost: &mut u32,
    acted: &mut u32,
) -> u32
    ensures { WalkReturns book.now node limit «walkers».old walker command cost.old acted.old result
        «walkers».new cost.new acted.new }
{
    store::walked(
        walking::walk(book, node, limit, walkers, walker, command),
        cost,
        acted,
    )
}
