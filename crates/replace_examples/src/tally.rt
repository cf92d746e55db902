// What was counted, and what is written.
use trying::{say, text};

// Of pairs of books: the pairs, those with a cheapest list through the node, and those with a least cost that differs; the pairs of states, those
// with no way, those with a cheapest list through the node, and those whose least cost differs; the plans, those that differ between the books, and
// those that differ from the flat search on their own book.
#[derive(Clone, Copy, Default)]
pub struct Pairs {
    pub books: u32,
    pub through_books: u32,
    pub changed_books: u32,
    pub states: u32,
    pub no_way: u32,
    pub through: u32,
    pub changed: u32,
    pub plans: u32,
    pub changed_plans: u32,
    pub wrong_plans: u32,
}

// Exit costs plus leaving that are compared with Exit's: those that are not 0 among them and those that are none, and those that differ.
#[derive(Clone, Copy, Default)]
pub struct Exits {
    pub compared: u32,
    pub dear: u32,
    pub no_exit: u32,
    pub wrong: u32,
}

// The pairs of books that meet the hypothesis, and those that miss it; of both, those that are not alike but for what is below the node, and
// the exit costs.
#[derive(Clone, Copy, Default)]
pub struct Tally {
    pub met: Pairs,
    pub missed: Pairs,
    pub unlike: u32,
    pub exits: Exits,
}

// Counts one more where it holds.
pub fn count(sum: &mut u32, b: bool) {
    if b {
        *sum = sum.saturating_add(1);
    }
}

// The line of the pairs of books that meet the hypothesis, or of those that miss it.
fn line(t: &[u8], pairs: &Pairs) {
    say(t, pairs.books);
    say(b", through the node in", pairs.through_books);
    say(b", different in", pairs.changed_books);
    say(b"; pairs of states", pairs.states);
    say(b", through the node", pairs.through);
    say(b", no way", pairs.no_way);
    say(b", different", pairs.changed);
    say(b"; plans", pairs.plans);
    say(b", different", pairs.changed_plans);
    text(b"\n");
}

// The line of what must never differ.
fn checks(tally: &Tally) {
    say(b"  not alike outside the node", tally.unlike);
    say(b"; exits plus leaving", tally.exits.compared);
    say(b", not 0", tally.exits.dear);
    say(b", none", tally.exits.no_exit);
    say(b", other than Exit's", tally.exits.wrong);
    let wrong = tally
        .met
        .wrong_plans
        .saturating_add(tally.missed.wrong_plans);
    say(b"; plans other than the flat search", wrong);
    text(b"\n");
}

// The lines of a way to replace; of pairs that meet or miss the hypothesis only where there are some.
pub fn lines(tally: &Tally) {
    if tally.met.books != 0 {
        line(b"  met: books", &tally.met);
    }
    if tally.missed.books != 0 {
        line(b"  missed: books", &tally.missed);
    }
    checks(tally);
}
