// What was counted for a shape, and the lines that are written.
use refusals::Refusal;
use trying::{number, say, say_counts, text};

// Tables that opened, and those that were refused: for a row by itself, for the starts and holders of a machine, for the roots, for the levels.
#[derive(Clone, Copy, Default)]
pub struct Tables {
    pub opened: u64,
    pub rows: u64,
    pub starts: u64,
    pub roots: u64,
    pub levels: u64,
}

// What is counted.
#[derive(Clone, Copy, Default)]
pub struct Tally {
    // Refusals of Load and of Plan, each at its number; 'no way' is counted by itself.
    pub load: [u64; 32],
    pub plan: [u64; 32],
    pub no_way: u64,
    // The books, and those that have a leaving charge at their end.
    pub books: u64,
    pub charged_books: u64,
    pub streams: u64,
    pub commands: u64,
    pub plans: u64,
    pub differences: u64,
    // Holds that were taken, plans with a node held, and those of them that would have another cost with none held.
    pub holds: u64,
    pub among_holds: u64,
    pub changed_by_holds: u64,
    // Leaving charges other than 0 that were taken, plans in books that have one, and those of them that would have another cost with none.
    pub charges: u64,
    pub among_charges: u64,
    pub changed_by_charges: u64,
    // The cost of the dearest command of a plan.
    pub dearest: u64,
    pub tables: Tables,
}

// Counts so many more.
pub fn count(sum: &mut u64, more: usize) {
    *sum = sum.saturating_add(more as u64);
}

// Counts a refusal at its number.
pub fn count_refusal(sums: &mut [u64; 32], refusal: Refusal) {
    let number = refusal.number();
    if number < 32 {
        count(&mut sums[number as usize], 1);
    }
}

// The line of a shape: what was compared, the refusals that were met, and how many differences there were; and the line of its tables.
pub fn line(name: &[u8], tally: &Tally) {
    text(name);
    say(b": books", tally.books);
    say(b" (with charges", tally.charged_books);
    say(b"), streams", tally.streams);
    say(b", commands taken", tally.commands);
    say(b", holds", tally.holds);
    say(b", charges", tally.charges);
    text(b", refused");
    say_counts(&tally.load);
    say(b"; plans", tally.plans);
    say(b", among holds", tally.among_holds);
    say(b", changed by them", tally.changed_by_holds);
    say(b", among charges", tally.among_charges);
    say(b", changed by them", tally.changed_by_charges);
    say(b", dearest command", tally.dearest);
    say(b", no way", tally.no_way);
    text(b", refused");
    say_counts(&tally.plan);
    say(b";", tally.differences);
    text(b" differences\n");
    if tally.tables.opened != 0 {
        table_line(&tally.tables);
    }
}

// The line of the tables.
fn table_line(tables: &Tables) {
    say(b"tables opened", tables.opened);
    say(b", refused for a row", tables.rows);
    say(b", for starts or holders", tables.starts);
    say(b", for roots", tables.roots);
    say(b", for levels", tables.levels);
    text(b"\n");
}

// Counts a difference, and says of the first few what differs, in which stream of the shape, and at which two numbers.
pub fn differs(tally: &mut Tally, what: &[u8], a: u32, b: u32) {
    count(&mut tally.differences, 1);
    if tally.differences > 20 {
        return;
    }
    text(b"differs: ");
    text(what);
    say(b", stream", tally.streams);
    say(b", at", a);
    number(b);
    text(b"\n");
}
