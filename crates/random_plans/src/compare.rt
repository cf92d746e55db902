// The book, the sheet's marks and the answers of Load and Plan, held against the test's own station.
use crate::flat::step;
use crate::station::{
    BELOW, COST, HOLD, HOLDER, LEAVE, MACHINES, MARK, NODES, NONE, OWNER, ROOT, START, Station,
    TARGET, any_marked, get, is_state, states, transition,
};
use crate::stream::Bytes;
use crate::tables::{Fault, Rows};
use crate::tally::{Tables, Tally, count, count_refusal, differs};
use crate::{stream, tables};
use planning::Planned;
use refusals::Refusal;
use trying::{Costs, FAR, Moves, cost_of, distances, front, front_mut, plus, status};

pub const WORDS: usize = 5057;

pub type Book = [u32; WORDS];

pub type Sheet = [u32; 2880];

pub type Buffer = [u8; 255];

// Where a list of commands ends, what it costs, and the cost of its dearest command.
#[derive(Clone, Copy)]
struct Way {
    state: u32,
    cost: u32,
    dearest: u32,
}

// Plan's answer.
pub type Answer = Result<Planned, Refusal>;

// The word that document 01 gives a transition of the own station.
fn transition_word(s: &Station, n: u32, x: u32) -> u32 {
    let v = transition(s, TARGET, n, x);
    let c = transition(s, COST, n, x);
    if v >= NODES {
        return 4294967295;
    }
    if c >= 65536 {
        return 4294967295;
    }
    65536 * v + c
}

// The word that documents 01 and 02 have at a place of the own station's book.
fn word(s: &Station, i: u32) -> u32 {
    if i == 0 {
        return get(s, ROOT, 0);
    }
    if i < 129 {
        let field = if i % 2 == 1 { HOLDER } else { START };
        return get(s, field, (i - 1) / 2);
    }
    if i >= 4993 {
        return get(s, LEAVE, i - 4993);
    }
    if i >= 4737 {
        return get(s, HOLD, i - 4737);
    }
    let n = (i - 129) / 18;
    let k = (i - 129) % 18;
    if k >= 2 {
        return transition_word(s, n, k - 2);
    }
    get(s, if k == 0 { OWNER } else { BELOW }, n)
}

// Compares every word of the book with the station.
fn compare_book(book: &Book, s: &Station, tally: &mut Tally) {
    for i in 0..5057 {
        if book[i as usize] != word(s, i) {
            differs(tally, b"book", i, book[i as usize]);
        }
    }
}

// Compares every mark with the station.
fn compare_marks(sheet: &Sheet, s: &Station, tally: &mut Tally) {
    for m in 0..MACHINES {
        let i = 33 * (m as usize);
        if sheet[i] != get(s, MARK, m) {
            differs(tally, b"mark", m, sheet[i]);
        }
    }
}

// The book and the marks.
pub fn compare_words(book: &Book, sheet: &Sheet, s: &Station, tally: &mut Tally) {
    compare_book(book, s, tally);
    compare_marks(sheet, s, tally);
}

// Counts a table that opens, or does not for this reason.
fn count_table(opened: Result<(), Fault>, tables: &mut Tables) {
    match opened {
        Ok(()) => count(&mut tables.opened, 1),
        Err(Fault::Row) => count(&mut tables.rows, 1),
        Err(Fault::Starts) => count(&mut tables.starts, 1),
        Err(Fault::Roots) => count(&mut tables.roots, 1),
        Err(Fault::Levels) => count(&mut tables.levels, 1),
    }
}

// Opens so many rows of a table in the own station and in the holding; where they do not open, the table is to be refused with 2, and all stays.
pub fn open_both(
    book: &mut Book,
    sheet: &mut Sheet,
    s: &mut Station,
    rows: &Rows,
    lent: u32,
    tally: &mut Tally,
) {
    let opened = tables::open(s, rows, lent);
    count_table(opened, &mut tally.tables);
    let got = ladders::open_table(front(rows, 3 * (lent as usize)), book, sheet);
    let right = opened.map_err(|_| Refusal::NotWellFormed);
    if got != right {
        differs(tally, b"table", status(right.err()), status(got.err()));
    }
    compare_words(book, sheet, s, tally);
}

// Loads a stream into the book and into the own station, and compares what they answer and what they leave.
pub fn load_both(
    book: &mut Book,
    sheet: &mut Sheet,
    s: &mut Station,
    stream: &Bytes,
    length: usize,
    tally: &mut Tally,
) {
    count(&mut tally.streams, 1);
    let own = stream::run(s, stream, length);
    count(&mut tally.commands, own.commands);
    count(&mut tally.holds, own.holds);
    count(&mut tally.charges, own.charges);
    if let Some(refusal) = own.refused {
        count_refusal(&mut tally.load, refusal);
    }
    let got = loading::load(book, sheet, front(stream, length));
    if own.bytes != got.bytes || own.commands != got.commands || own.refused != got.refusal {
        differs(tally, b"counts", status(own.refused), status(got.refusal));
    }
    compare_words(book, sheet, s, tally);
}

// The answer of a plan with the first bytes of the buffer lent.
pub fn ask(book: &Book, sheet: &Sheet, a: u32, b: u32, buffer: &mut Buffer, room: u32) -> Answer {
    planning::plan(book, sheet, a, b, front_mut(buffer, room as usize))
}

// The greatest number of commands of a plan among so many states.
pub fn longest(states: u32) -> u32 {
    states.saturating_sub(1)
}

// Why Plan is to refuse before it searches; none where it searches.
fn plan_refusal(s: &Station, a: u32, b: u32, room: u32) -> Option<Refusal> {
    if any_marked(s) {
        return Some(Refusal::Stale);
    }
    if a >= NODES || b >= NODES {
        return Some(Refusal::OutOfRange);
    }
    if get(s, OWNER, a) == NONE || get(s, OWNER, b) == NONE {
        return Some(Refusal::NotInUse);
    }
    if !is_state(s, a) || !is_state(s, b) {
        return Some(Refusal::NotPlain);
    }
    (room < longest(states(s))).then_some(Refusal::NoRoom)
}

// Whether the buffer's bytes from a place on are as they were.
fn untouched(buffer: &Buffer, from: u32) -> bool {
    buffer.iter().skip(from as usize).all(|b| *b == 255)
}

// Goes to a state, and says whether it was not there before.
fn visit(seen: &mut [bool; 256], n: u32) -> bool {
    if n >= NODES {
        return false;
    }
    if seen[n as usize] {
        return false;
    }
    seen[n as usize] = true;
    true
}

// Steps through so many commands from a state; nothing where the station stops or comes to a state again.
fn walk(s: &Station, buffer: &Buffer, a: u32, count: u32) -> Option<Way> {
    let mut seen = [false; 256];
    visit(&mut seen, a);
    let mut at = a;
    let mut sum = 0u32;
    let mut dearest = 0u32;
    for b in buffer.iter().take(count as usize) {
        let moved = step(s, at, u32::from(*b))?;
        at = moved.state;
        sum = plus(sum, moved.cost);
        dearest = dearest.max(moved.cost);
        if !visit(&mut seen, at) {
            return None;
        }
    }
    Some(Way {
        state: at,
        cost: sum,
        dearest,
    })
}

// Plan is to answer this refusal and leave the buffer alone.
fn compare_refusal(
    answer: Answer,
    refusal: Refusal,
    buffer: &Buffer,
    a: u32,
    b: u32,
    tally: &mut Tally,
) {
    if refusal == Refusal::NoWay {
        count(&mut tally.no_way, 1);
    } else {
        count_refusal(&mut tally.plan, refusal);
    }
    if answer != Err(refusal) || !untouched(buffer, 0) {
        differs(tally, b"refusal of a plan", a, b);
    }
}

// Plan is to answer this cost and a list of commands that goes from a to b at it, and to leave the bytes after it alone.
fn compare_way(
    s: &Station,
    answer: Answer,
    least: u32,
    buffer: &Buffer,
    a: u32,
    b: u32,
    tally: &mut Tally,
) {
    let Ok(planned) = answer else {
        differs(tally, b"answer of a plan", a, b);
        return;
    };
    let Some(way) = walk(s, buffer, a, planned.count) else {
        differs(tally, b"way", a, b);
        return;
    };
    tally.dearest = tally.dearest.max(way.dearest as u64);
    if planned.cost != least {
        differs(tally, b"cost", a, b);
    } else if way.state != b || way.cost != least {
        differs(tally, b"way", a, b);
    } else if !untouched(buffer, planned.count) {
        differs(tally, b"buffer after the way", a, b);
    }
}

// How many plans from state a would have another cost with the other moves.
pub fn changed(s: &Station, moves: &Moves, others: &Moves, a: u32) -> usize {
    let mut costs = [0u32; 256];
    distances(moves, a, &mut costs);
    let mut other = [0u32; 256];
    distances(others, a, &mut other);
    (0..NODES)
        .filter(|b| is_state(s, *b) && cost_of(&costs, *b) != cost_of(&other, *b))
        .count()
}

// Plans from a to b and compares with the least cost of the flat search.
pub fn compare_plan(
    book: &Book,
    sheet: &Sheet,
    s: &Station,
    costs: &Costs,
    a: u32,
    b: u32,
    room: u32,
    tally: &mut Tally,
) {
    count(&mut tally.plans, 1);
    let mut buffer = [255u8; 255];
    let answer = ask(book, sheet, a, b, &mut buffer, room);
    let least = cost_of(costs, b);
    if least == FAR {
        compare_refusal(answer, Refusal::NoWay, &buffer, a, b, tally);
    } else {
        compare_way(s, answer, least, &buffer, a, b, tally);
    }
}

// Plans from a to b, where that is to be refused before any search.
pub fn compare_no(
    book: &Book,
    sheet: &Sheet,
    s: &Station,
    a: u32,
    b: u32,
    room: u32,
    tally: &mut Tally,
) {
    let Some(refusal) = plan_refusal(s, a, b, room) else {
        return;
    };
    let mut buffer = [255u8; 255];
    let answer = ask(book, sheet, a, b, &mut buffer, room);
    compare_refusal(answer, refusal, &buffer, a, b, tally);
}
