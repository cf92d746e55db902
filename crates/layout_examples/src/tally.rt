// What was counted of each call, and what is written.
use crate::both::{Both, Values};
use trying::{number, say, say_counts, say_no, status, text};

// How often a call answered 0 and each refusal, and how much was different by command.
#[derive(Clone, Copy)]
pub struct Counts {
    answered: [u64; 31],
    different: u64,
}

// Nothing counted.
pub const NONE: Counts = Counts {
    answered: [0; 31],
    different: 0,
};

// The counts of the calls.
#[derive(Clone, Copy)]
pub struct Tally {
    pub fresh: Counts,
    pub ladder: Counts,
    pub table: Counts,
    pub load: Counts,
    pub exit: Counts,
    pub step: Counts,
    pub plan: Counts,
    pub write: Counts,
    pub choice: Counts,
    pub choose: Counts,
    pub merge: Counts,
    pub open_walkers: Counts,
    pub walk: Counts,
}

// No call counted.
pub const NOTHING: Tally = Tally {
    fresh: NONE,
    ladder: NONE,
    table: NONE,
    load: NONE,
    exit: NONE,
    step: NONE,
    plan: NONE,
    write: NONE,
    choice: NONE,
    choose: NONE,
    merge: NONE,
    open_walkers: NONE,
    walk: NONE,
};

// Counts a call that was made on both layouts.
pub fn count(count: &mut Counts, both: Both) {
    let k = (status(both.refusal) % 31) as usize;
    count.answered[k] = count.answered[k].saturating_add(1);
    count.different = count.different.saturating_add(both.different);
}

// Writes the values of an answer.
fn show_values(values: Values) {
    match values {
        Values::Zero => {}
        Values::One(a) => number(a),
        Values::Two(a, b) => {
            number(a);
            number(b);
        }
        Values::Three(a, b, c) => {
            number(a);
            number(b);
            number(c);
        }
    }
}

// Writes a text and what a call answered: `no` and the refusal, its values, or 0 where it has none; and whether it is the same by command.
pub fn show(t: &[u8], both: Both) {
    text(t);
    match both.refusal {
        Some(refusal) => say_no(refusal),
        None => {
            if both.values == Values::Zero {
                number(0u32);
            }
        }
    }
    show_values(both.values);
    if both.different == 0 {
        text(b", same\n");
    } else {
        say(b", different", both.different);
        text(b"\n");
    }
}

// The line of a call: how often it answered 0 and each refusal, and the differences.
pub fn line(name: &[u8], count: &Counts) {
    text(name);
    text(b":");
    say_counts(&count.answered);
    say(b", different", count.different);
    text(b"\n");
}
