// The calls on a book by command (document 02, W-209): each turns the lent book, makes the call on it by node, and turns back what it writes. A
// list of another length is handed on as it is (Merge returns 1), so each call refuses what it refuses by node, in the same order.
#![tactic(auto)]

ghost use Rattle.std.specs.Prelude.{◌≡◌};
ghost use Rattle.definitions.specs.Open.{fresh, ladder, table};
ghost use Rattle.definitions.specs.Calls.{OpenSays, LoadSays, ExitSays, StepSays, PlanSays};
ghost use Rattle.definitions.specs.Write.{WriteSays};
ghost use Rattle.definitions.specs.Choose.{ChoiceSays, ChooseSays};
ghost use Rattle.definitions.specs.Merge.{MergeSays};
ghost use Rattle.definitions.specs.Walk.{OpenWalkersSay, WalkSays};
ghost use Rattle.definitions.specs.ByCommand.{by_node};
ghost use Rattle.bycommand.specs.Turning.{Called};
ghost use Rattle.refusals.specs.Meaning.{status_of};
ghost use Rattle.choosing.specs.Meaning.{choice_of};
ghost use Rattle.exiting.specs.Meaning.{answer_of as exit_of};
ghost use Rattle.loading.specs.Loading.{answer_of as loadedOf};
ghost use Rattle.planning.specs.Meaning.{answer_of as plan_of};
ghost use Rattle.stepping.specs.Meaning.{answer_of};
ghost use Rattle.writing.specs.Meaning.{answer_of as written_of};

use choosing::Chosen;
use loading::Loaded;
use planning::Planned;
use refusals::Refusal;
use stepping::Moved;

// The length of a list that is turned.
const TURNED: usize = book::BOOK;

// The book by node, turned into a place of its own; a list of another length as it is.
fn seen_by_node<'a>(book: &'a [u32], place: &'a mut [u32; book::BOOK]) -> &'a [u32]
    ensures { result.now ≡ by_node book.entry.now }
{
    if book.len() != TURNED {
        return book;
    }
    turning::turn_by_node(book, place);
    place
}

// Makes a call on a lent book by node, turned into a place of its own, and turns back what the call leaves there; a list of another length is handed
// on as it is.
fn on_turned<R, F: Fn(&mut [u32], &mut [u32]) -> R>(
    book: &mut [u32],
    sheet: &mut [u32],
    call: F,
) -> R
    requires { F.IsAlwaysCallable call }
    ensures { Called F.Fn call (by_node book.old) sheet.old result (by_node book.new) sheet.new }
{
    if book.len() != TURNED {
        return call(book, sheet);
    }
    let mut place = [0u32; book::BOOK];
    turning::turn_by_node(book, &mut place);
    let answer = call(&mut place, sheet);
    turning::turn_by_command(&place, book);
    answer
}

// Open fresh.
pub fn open_fresh(book: &mut [u32], sheet: &mut [u32]) -> Result<(), Refusal>
    ensures { OpenSays fresh (by_node book.old) sheet.old (status_of result) (by_node book.new) sheet.new }
{
    on_turned(book, sheet, |b, s| opening::open_fresh(b, s))
}

// Open ladder.
pub fn open_ladder(book: &mut [u32], sheet: &mut [u32]) -> Result<(), Refusal>
    ensures { OpenSays ladder (by_node book.old) sheet.old (status_of result) (by_node book.new) sheet.new }
{
    on_turned(book, sheet, |b, s| opening::open_ladder(b, s))
}

// Open from a table.
pub fn open_table(rows: &[u32], book: &mut [u32], sheet: &mut [u32]) -> Result<(), Refusal>
    ensures { OpenSays (table rows.now) (by_node book.old) sheet.old (status_of result) (by_node book.new) sheet.new }
{
    on_turned(book, sheet, |b, s| ladders::open_table(rows, b, s))
}

// Load.
pub fn load(book: &mut [u32], sheet: &mut [u32], stream: &[u8]) -> Loaded
    ensures { LoadSays (by_node book.old) sheet.old stream.now (loadedOf result) (by_node book.new) sheet.new }
{
    on_turned(book, sheet, |b, s| loading::load(b, s, stream))
}

// Exit.
pub fn exit(book: &[u32], sheet: &[u32], machine: u32, command: u32) -> Result<u32, Refusal>
    ensures { ExitSays (by_node book.now) sheet.now machine command (exit_of result) }
{
    let mut place = [0u32; book::BOOK];
    exiting::exit(seen_by_node(book, &mut place), sheet, machine, command)
}

// Step.
pub fn step(book: &[u32], state: u32, command: u32) -> Result<Moved, Refusal>
    ensures { StepSays (by_node book.now) state command (answer_of result) }
{
    let mut place = [0u32; book::BOOK];
    stepping::step(seen_by_node(book, &mut place), state, command)
}

// Plan.
pub fn plan(
    book: &[u32],
    sheet: &[u32],
    a: u32,
    b: u32,
    buffer: &mut [u8],
) -> Result<Planned, Refusal>
    ensures { PlanSays (by_node book.now) sheet.now a b buffer.old (plan_of result) buffer.new }
{
    let mut place = [0u32; book::BOOK];
    planning::plan(seen_by_node(book, &mut place), sheet, a, b, buffer)
}

// Write.
pub fn write(book: &[u32], out: &mut [u8]) -> Result<u32, Refusal>
    ensures { WriteSays (by_node book.now) out.old (written_of result) out.new }
{
    let mut place = [0u32; book::BOOK];
    writing::write(seen_by_node(book, &mut place), out)
}

// Choose, told by which list and how many of its commands.
pub fn choice(book: &[u32], a: u32, b: u32, first: &[u8], second: &[u8]) -> Result<Chosen, Refusal>
    ensures { ChoiceSays (by_node book.now) a b first.now second.now (choice_of result) (status_of result) }
{
    let mut place = [0u32; book::BOOK];
    choosing::choice(seen_by_node(book, &mut place), a, b, first, second)
}

// Choose.
pub fn choose<'a>(
    book: &[u32],
    a: u32,
    b: u32,
    first: &'a [u8],
    second: &'a [u8],
    word: &mut u32,
) -> &'a [u8]
    ensures { ChooseSays (by_node book.now) a b first.now second.now result.now word.new
        first.entry.ref_ptr second.entry.ref_ptr result.ref_ptr }
{
    let mut place = [0u32; book::BOOK];
    choosing::choose(seen_by_node(book, &mut place), a, b, first, second, word)
}

// Merge: all three books are by command.
pub fn merge(
    first: &[u32],
    second: &[u32],
    book: &mut [u32],
    sheet: &mut [u32],
) -> Result<(), Refusal>
    ensures { MergeSays (by_node first.now) (by_node second.now) (by_node book.old) sheet.old (status_of result)
        (by_node book.new) sheet.new }
{
    if first.len() != TURNED {
        return Err(Refusal::WrongLength);
    }
    if second.len() != TURNED {
        return Err(Refusal::WrongLength);
    }
    if book.len() != TURNED {
        return Err(Refusal::WrongLength);
    }
    let mut one = [0u32; book::BOOK];
    let mut two = [0u32; book::BOOK];
    let first = seen_by_node(first, &mut one);
    let second = seen_by_node(second, &mut two);
    on_turned(book, sheet, |b, s| merging::merge(first, second, b, s))
}

// The opening of walkers.
pub fn open_walkers(book: &[u32], node: u32, limit: u32, walkers: &[u32]) -> Result<(), Refusal>
    ensures { OpenWalkersSay (by_node book.now) node limit «walkers».now (status_of result) }
{
    let mut place = [0u32; book::BOOK];
    walking::open_walkers(seen_by_node(book, &mut place), node, limit, walkers)
}

// A walker command.
pub fn walk(
    book: &[u32],
    node: u32,
    limit: u32,
    walkers: &mut [u32],
    walker: u32,
    command: u32,
) -> Result<Moved, Refusal>
    ensures { WalkSays (by_node book.now) node limit «walkers».old walker command (answer_of result) «walkers».new }
{
    let mut place = [0u32; book::BOOK];
    walking::walk(
        seen_by_node(book, &mut place),
        node,
        limit,
        walkers,
        walker,
        command,
    )
}
