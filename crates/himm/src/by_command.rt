// The public calls for C on books by command (document 02, W-209), and the two turns. Each call that is lent a book stands here once more, its name
// ending in _by_command: it takes and leaves books by command, refuses what the call by node refuses, in the same order, and returns and stores
// what that gives for the same book; where document 01 leaves a choice free, one that it allows.
ghost use Rattle.definitions.specs.Open.{fresh, ladder, table};
ghost use Rattle.definitions.specs.Calls.{OpenSays};
ghost use Rattle.definitions.specs.Merge.{MergeSays};
ghost use Rattle.definitions.specs.Walk.{OpenWalkersSay};
ghost use Rattle.definitions.specs.ByCommand.{by_command, by_node, TurnSays};
ghost use Rattle.himm.specs.Exports.{LoadReturns, ExitReturns, StepReturns, PlanReturns, WriteReturns, ChooseReturns, WalkReturns};

use crate::store;

// Turns a book by node into one by command. Refuses 1.
#[unsafe(no_mangle)]
pub extern "C" fn himm_by_command(book: &[u32], out: &mut [u32]) -> u32
    ensures { TurnSays by_command book.now out.old result out.new }
{
    store::number(turning::by_command(book, out))
}

// Turns a book by command into one by node. Refuses 1.
#[unsafe(no_mangle)]
pub extern "C" fn himm_by_node(book: &[u32], out: &mut [u32]) -> u32
    ensures { TurnSays by_node book.now out.old result out.new }
{
    store::number(turning::by_node(book, out))
}

// Open fresh.
#[unsafe(no_mangle)]
pub extern "C" fn himm_open_fresh_by_command(book: &mut [u32], sheet: &mut [u32]) -> u32
    ensures { OpenSays fresh (by_node book.old) sheet.old result (by_node book.new) sheet.new }
{
    store::number(bycommand::open_fresh(book, sheet))
}

// Open ladder.
#[unsafe(no_mangle)]
pub extern "C" fn himm_open_ladder_by_command(book: &mut [u32], sheet: &mut [u32]) -> u32
    ensures { OpenSays ladder (by_node book.old) sheet.old result (by_node book.new) sheet.new }
{
    store::number(bycommand::open_ladder(book, sheet))
}

// Open from a table.
#[unsafe(no_mangle)]
pub extern "C" fn himm_open_table_by_command(
    rows: &[u32],
    book: &mut [u32],
    sheet: &mut [u32],
) -> u32
    ensures { OpenSays (table rows.now) (by_node book.old) sheet.old result
        (by_node book.new) sheet.new }
{
    store::number(bycommand::open_table(rows, book, sheet))
}

// Merge: all three books are by command.
#[unsafe(no_mangle)]
pub extern "C" fn himm_merge_by_command(
    first: &[u32],
    second: &[u32],
    book: &mut [u32],
    sheet: &mut [u32],
) -> u32
    ensures { MergeSays (by_node first.now) (by_node second.now) (by_node book.old) sheet.old result
        (by_node book.new) sheet.new }
{
    store::number(bycommand::merge(first, second, book, sheet))
}

// Load.
#[unsafe(no_mangle)]
pub extern "C" fn himm_load_by_command(
    book: &mut [u32],
    sheet: &mut [u32],
    stream: &[u8],
    bytes: &mut u64,
    commands: &mut u64,
) -> u32
    ensures { LoadReturns (by_node book.old) sheet.old stream.now result
        bytes.new commands.new (by_node book.new) sheet.new }
{
    store::loaded(bycommand::load(book, sheet, stream), bytes, commands)
}

// Exit.
#[unsafe(no_mangle)]
pub extern "C" fn himm_exit_by_command(
    book: &[u32],
    sheet: &[u32],
    machine: u32,
    command: u32,
    cost: &mut u32,
) -> u32
    ensures { ExitReturns (by_node book.now) sheet.now machine command cost.old result cost.new }
{
    store::word(bycommand::exit(book, sheet, machine, command), cost)
}

// Step.
#[unsafe(no_mangle)]
pub extern "C" fn himm_step_by_command(
    book: &[u32],
    state: u32,
    command: u32,
    next: &mut u32,
    cost: &mut u32,
    node: &mut u32,
) -> u32
    ensures { StepReturns (by_node book.now) state command next.old cost.old node.old result
        next.new cost.new node.new }
{
    store::step(bycommand::step(book, state, command), next, cost, node)
}

// Plan.
#[unsafe(no_mangle)]
pub extern "C" fn himm_plan_by_command(
    book: &[u32],
    sheet: &[u32],
    from: u32,
    to: u32,
    plan: &mut [u8],
    cost: &mut u32,
    count: &mut u32,
) -> u32
    ensures { PlanReturns (by_node book.now) sheet.now from to plan.old cost.old count.old result
        plan.new cost.new count.new }
{
    store::plan(bycommand::plan(book, sheet, from, to, plan), cost, count)
}

// Write.
#[unsafe(no_mangle)]
pub extern "C" fn himm_write_by_command(book: &[u32], out: &mut [u8], length: &mut u32) -> u32
    ensures { WriteReturns (by_node book.now) out.old length.old result out.new length.new }
{
    store::word(bycommand::write(book, out), length)
}

// Choose.
#[unsafe(no_mangle)]
pub extern "C" fn himm_choose_by_command(
    book: &[u32],
    from: u32,
    to: u32,
    first: &[u8],
    second: &[u8],
    which: &mut u32,
    used: &mut u32,
) -> u32
    ensures { ChooseReturns (by_node book.now) from to first.now second.now which.old used.old result
        which.new used.new }
{
    store::chosen(
        bycommand::choice(book, from, to, first, second),
        which,
        used,
    )
}

// The opening of walkers.
#[unsafe(no_mangle)]
pub extern "C" fn himm_walkers_by_command(
    book: &[u32],
    node: u32,
    limit: u32,
    walkers: &[u32],
) -> u32
    ensures { OpenWalkersSay (by_node book.now) node limit «walkers».now result }
{
    store::number(bycommand::open_walkers(book, node, limit, walkers))
}

// A walker command.
#[unsafe(no_mangle)]
pub extern "C" fn himm_walk_by_command(
    book: &[u32],
    node: u32,
    limit: u32,
    walkers: &mut [u32],
    walker: u32,
    command: u32,
    cost: &mut u32,
    acted: &mut u32,
) -> u32
    ensures { WalkReturns (by_node book.now) node limit «walkers».old walker command cost.old acted.old result
        «walkers».new cost.new acted.new }
{
    store::walked(
        bycommand::walk(book, node, limit, walkers, walker, command),
        cost,
        acted,
    )
}
