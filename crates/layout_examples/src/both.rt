// Each call made on both layouts: by node on one list, by command on the other. What it answers and every word that it leaves are compared.
use crate::layout::{apart, different};
use choosing::Chosen;
use planning::Planned;
use refusals::Refusal;
use stepping::Moved;
use trying::status;

// The values that a call gives.
#[derive(Clone, Copy, PartialEq, Eq)]
pub enum Values {
    Zero,
    One(u64),
    Two(u64, u64),
    Three(u64, u64, u64),
}

// What a call by node answers, the refusal, where it refuses, and the values; and how many answers and words are different by command. A load
// gives its counts also where it refuses.
#[derive(Clone, Copy)]
pub struct Both {
    pub refusal: Option<Refusal>,
    pub values: Values,
    pub different: u64,
}

// So many words that are different, and one more where the answers are not the same.
fn counted(same: bool, words: u64) -> u64 {
    if same { words } else { words.saturating_add(1) }
}

// An answer, whether it is the same by command, and the words that are different.
fn held(answer: Result<Values, Refusal>, same: bool, words: u64) -> Both {
    Both {
        refusal: answer.err(),
        values: answer.unwrap_or(Values::Zero),
        different: counted(same, words),
    }
}

// The same of an answer that gives no values.
fn alone(one: Result<(), Refusal>, two: Result<(), Refusal>, words: u64) -> Both {
    held(one.map(|()| Values::Zero), one == two, words)
}

// How many words of a book and of a sheet are different.
fn words(book: &[u32], other: &[u32], sheet: &[u32], second: &[u32]) -> u64 {
    apart(book, other).saturating_add(different(sheet, second))
}

// Open fresh.
pub fn open_fresh(
    book: &mut [u32],
    other: &mut [u32],
    sheet: &mut [u32],
    second: &mut [u32],
) -> Both {
    let one = opening::open_fresh(book, sheet);
    let two = bycommand::open_fresh(other, second);
    alone(one, two, words(book, other, sheet, second))
}

// Open ladder.
pub fn open_ladder(
    book: &mut [u32],
    other: &mut [u32],
    sheet: &mut [u32],
    second: &mut [u32],
) -> Both {
    let one = opening::open_ladder(book, sheet);
    let two = bycommand::open_ladder(other, second);
    alone(one, two, words(book, other, sheet, second))
}

// Open from a table.
pub fn open_table(
    rows: &[u32],
    book: &mut [u32],
    other: &mut [u32],
    sheet: &mut [u32],
    second: &mut [u32],
) -> Both {
    let one = ladders::open_table(rows, book, sheet);
    let two = bycommand::open_table(rows, other, second);
    alone(one, two, words(book, other, sheet, second))
}

// Load.
pub fn load(
    book: &mut [u32],
    other: &mut [u32],
    sheet: &mut [u32],
    second: &mut [u32],
    stream: &[u8],
) -> Both {
    let one = loading::load(book, sheet, stream);
    let two = bycommand::load(other, second, stream);
    Both {
        refusal: one.refusal,
        values: Values::Two(one.bytes as u64, one.commands as u64),
        different: counted(one == two, words(book, other, sheet, second)),
    }
}

// Exit.
pub fn exit(book: &[u32], other: &[u32], sheet: &[u32], machine: u32, command: u32) -> Both {
    let one = exiting::exit(book, sheet, machine, command);
    let two = bycommand::exit(other, sheet, machine, command);
    held(one.map(|cost| Values::One(cost as u64)), one == two, 0)
}

// State, cost and node of a step.
fn moved(m: Moved) -> Values {
    Values::Three(m.state as u64, m.cost as u64, m.node as u64)
}

// Step.
pub fn step(book: &[u32], other: &[u32], state: u32, command: u32) -> Both {
    let one = stepping::step(book, state, command);
    let two = bycommand::step(other, state, command);
    held(one.map(moved), one == two, 0)
}

// Cost and count of a plan.
fn planned(p: Planned) -> Values {
    Values::Two(p.cost as u64, p.count as u64)
}

// Plan, with a buffer for each layout.
pub fn plan(
    book: &[u32],
    other: &[u32],
    sheet: &[u32],
    a: u32,
    b: u32,
    buffer: &mut [u8],
    second: &mut [u8],
) -> Both {
    let one = planning::plan(book, sheet, a, b, buffer);
    let two = bycommand::plan(other, sheet, a, b, second);
    held(one.map(planned), one == two, different(buffer, second))
}

// Write, with an output for each layout.
pub fn write(book: &[u32], other: &[u32], out: &mut [u8], second: &mut [u8]) -> Both {
    let one = writing::write(book, out);
    let two = bycommand::write(other, second);
    held(
        one.map(|length| Values::One(length as u64)),
        one == two,
        different(out, second),
    )
}

// Which list is chosen, 1 or 2, and how many of its commands.
fn chosen(c: Chosen) -> Values {
    match c {
        Chosen::First(n) => Values::Two(1, n as u64),
        Chosen::Second(n) => Values::Two(2, n as u64),
    }
}

// Choose, told by list and count.
pub fn choice(book: &[u32], other: &[u32], a: u32, b: u32, first: &[u8], second: &[u8]) -> Both {
    let one = choosing::choice(book, a, b, first, second);
    let two = bycommand::choice(other, a, b, first, second);
    held(one.map(chosen), one == two, 0)
}

// Choose: the length of the part, whose bytes are compared. Its word is a number alone, so the refusal is that of `choice`; words that are not its
// number are different.
pub fn choose<'a>(
    book: &[u32],
    other: &[u32],
    a: u32,
    b: u32,
    first: &'a [u8],
    second: &'a [u8],
) -> Both {
    let mut word = 7u32;
    let mut another = 77u32;
    let part = choosing::choose(book, a, b, first, second, &mut word);
    let again = bycommand::choose(other, a, b, first, second, &mut another);
    let refusal = choosing::choice(book, a, b, first, second).err();
    let right = status(refusal);
    let same = word == right && another == right && part.len() == again.len();
    Both {
        refusal,
        values: Values::One(part.len() as u64),
        different: counted(same, different(part, again)),
    }
}

// Merge; all books are lent in both layouts.
pub fn merge(
    first: &[u32],
    first_other: &[u32],
    second: &[u32],
    second_other: &[u32],
    book: &mut [u32],
    other: &mut [u32],
    sheet: &mut [u32],
    rows: &mut [u32],
) -> Both {
    let one = merging::merge(first, second, book, sheet);
    let two = bycommand::merge(first_other, second_other, other, rows);
    alone(one, two, words(book, other, sheet, rows))
}

// The opening of walkers.
pub fn open_walkers(book: &[u32], other: &[u32], node: u32, limit: u32, walkers: &[u32]) -> Both {
    let one = walking::open_walkers(book, node, limit, walkers);
    let two = bycommand::open_walkers(other, node, limit, walkers);
    alone(one, two, 0)
}

// A walker command, with records for each layout.
pub fn walk(
    book: &[u32],
    other: &[u32],
    node: u32,
    limit: u32,
    walkers: &mut [u32],
    second: &mut [u32],
    walker: u32,
    command: u32,
) -> Both {
    let one = walking::walk(book, node, limit, walkers, walker, command);
    let two = bycommand::walk(other, node, limit, second, walker, command);
    held(one.map(moved), one == two, different(walkers, second))
}
