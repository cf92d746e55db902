// Walkers (document 02, W-206): up to 8, each at a state of one book, of which at most so many may be inside one node. What a call is handed is
// judged anew each time.
#![tactic(auto)]

ghost use Rattle.std.specs.Prelude.{◌≡◌, not, [], ◌∷◌, ◌&&◌, ◌≤◌, ◌<◌, length};
ghost use Rattle.definitions.specs.Basics.{All};
ghost use Rattle.definitions.specs.Limits.{nodes, commands, most_walkers};
ghost use Rattle.definitions.specs.Tree.{within};
ghost use Rattle.definitions.specs.Book.{tree_of, WellFormed};
ghost use Rattle.definitions.specs.Answer.{asks};
ghost use Rattle.definitions.specs.Walk.{inside, OpenWalkersSay, WalkSays};
ghost use Rattle.book.specs.Decides.{Decides};
ghost use Rattle.refusals.specs.Meaning.{number_of, status_of, Judged};
ghost use Rattle.stepping.specs.Meaning.{answer_of};
ghost use Rattle.walking.specs.Meaning.{asked_number, Meets, Standing, state_after, OneWalkerSays};

use refusals::Refusal;
use stepping::Moved;

// The most walkers, and their highest limit.
const WALKERS: u32 = 8;

// What is asked of a number: that it is a node's, that the node is in use, that it is plain.
#[derive(Clone, Copy)]
enum Asked {
    InRange,
    Used,
    Plain,
}

// A walker: its record is its state.
#[derive(Clone, Copy)]
struct Walker {
    state: u32,
}

// The refusal of a number that has not what is asked.
fn refusal(asked: Asked) -> Refusal
    ensures { number_of result ≡ asked_number asked }
{
    match asked {
        Asked::InRange => Refusal::OutOfRange,
        Asked::Used => Refusal::NotInUse,
        Asked::Plain => Refusal::NotPlain,
    }
}

// Whether a number has what is asked. What is no node's is not in use; it is not refined either.
fn meets(book: &[u32], asked: Asked, s: u32) -> bool
    requires { WellFormed book.now }
    ensures { Decides result (Meets asked (tree_of book.now) s) }
{
    match asked {
        Asked::InRange => s < book::NODES,
        Asked::Used => s < book::NODES && book::owner(book, s) != book::ABSENT,
        Asked::Plain => book::NODES <= s || book::below(book, s) == book::ABSENT,
    }
}

// The refusal of a list of numbers, each of which is to have what is asked.
fn judge(book: &[u32], asked: Asked, states: &[u32]) -> Result<(), Refusal>
    requires { WellFormed book.now }
    ensures { Judged (asks (asked_number asked) (All (Meets asked (tree_of book.now)) states.now) ∷ []) result }
{
    for s in states {
        if !meets(book, asked, *s) {
            return Err(refusal(asked));
        }
    }
    Ok(())
}

// How many of at most 8 states are inside node n.
fn count_inside(book: &[u32], n: u32, states: &[u32]) -> u32
    requires { WellFormed book.now × All (λ s. s < nodes) states.now × (length states.now ≤ most_walkers) }
    ensures { result ≡ inside (tree_of book.now) n states.now }
{
    let mut count = 0u32;
    for s in states {
        if stepping::within(book, n, *s) {
            count += 1;
        }
    }
    count
}

// The opening of walkers: judges a node, a limit and the walkers' states. It refuses 1 (a wrong length), 2 (book not well formed), 23 (the limit or
// the number of walkers over 8), 6 (a number out of range), 7 (a node not in use), 14 (a walker at a node that is not plain), 23 (more than the
// limit inside).
pub fn open_walkers(book: &[u32], node: u32, limit: u32, walkers: &[u32]) -> Result<(), Refusal>
    ensures { OpenWalkersSay book.now node limit «walkers».now (status_of result) }
{
    wellformed::judge(book)?;
    if WALKERS < limit {
        return Err(Refusal::LimitTooLarge);
    }
    if (WALKERS as usize) < walkers.len() {
        return Err(Refusal::LimitTooLarge);
    }
    judge(book, Asked::InRange, &[node])?;
    judge(book, Asked::InRange, walkers)?;
    judge(book, Asked::Used, &[node])?;
    judge(book, Asked::Used, walkers)?;
    judge(book, Asked::Plain, walkers)?;
    if limit < count_inside(book, node, walkers) {
        return Err(Refusal::LimitTooLarge);
    }
    Ok(())
}

// Whether a walker that goes from state s to state v would pass the limit: it comes from outside node n to inside, where no more may be (full).
fn exceeds(book: &[u32], n: u32, full: bool, s: u32, v: u32) -> bool
    requires { WellFormed book.now × (s < nodes) × (v < nodes) }
    ensures { result ≡ ((not (within (tree_of book.now) n s) && within (tree_of book.now) n v) && full) }
{
    if !full {
        return false;
    }
    if stepping::within(book, n, s) {
        return false;
    }
    stepping::within(book, n, v)
}

// The command of a walker by value, where as many as may be are inside node n (full) or fewer: what Step gives, or a refusal, 17 or 22.
fn step_walker(w: Walker, book: &[u32], n: u32, full: bool, x: u32) -> Result<Moved, Refusal>
    requires { Standing (tree_of book.now) w.state × WellFormed book.now × (x < commands) }
    ensures { OneWalkerSays (tree_of book.now) n full w.state x (state_after w.state result) (answer_of result) }
{
    let moved = stepping::step_from(book, w.state, x)?;
    if exceeds(book, n, full, w.state, moved.state) {
        return Err(Refusal::PastLimit);
    }
    Ok(moved)
}

// The command of a walker whose record is lent: the record takes the state after it, and stays the old one where it is refused.
fn advance(w: &mut Walker, book: &[u32], n: u32, full: bool, x: u32) -> Result<Moved, Refusal>
    requires { Standing (tree_of book.now) w.old.state × WellFormed book.now × (x < commands) }
    ensures { OneWalkerSays (tree_of book.now) n full w.old.state x w.new.state (answer_of result) }
{
    let moved = step_walker(*w, book, n, full, x)?;
    w.state = moved.state;
    Ok(moved)
}

// A walker command: the walker's step, and its record with the state that the step gives. It refuses as the opening does, then 6 (a number with no
// walker), what Step refuses, and 22 (the walker is outside the node, its step leads inside, and as many as may be are there); refused, no
// record changes.
pub fn walk(
    book: &[u32],
    node: u32,
    limit: u32,
    walkers: &mut [u32],
    walker: u32,
    command: u32,
) -> Result<Moved, Refusal>
    ensures { WalkSays book.now node limit «walkers».old walker command (answer_of result) «walkers».new }
{
    open_walkers(book, node, limit, walkers)?;
    let at = walker as usize;
    if walkers.len() <= at {
        return Err(Refusal::OutOfRange);
    }
    if book::COMMANDS <= command {
        return Err(Refusal::OutOfRange);
    }
    let full = limit <= count_inside(book, node, walkers);
    let mut going = Walker { state: walkers[at] };
    let answer = advance(&mut going, book, node, full, command);
    walkers[at] = going.state;
    answer
}
