// One command at a state of a well-formed book (document 01, "The tree and its step").
#![tactic(auto)]

ghost use Rattle.std.specs.Prelude.{◌≡◌, [], ◌<◌};
ghost use Rattle.std.proofs.Math.Option.{none, some};
ghost use Rattle.definitions.specs.Limits.{nodes, commands};
ghost use Rattle.definitions.specs.Tree.{UsedNode, is_state, level, within};
ghost use Rattle.definitions.specs.Book.{tree_of, WellFormed};
ghost use Rattle.definitions.specs.Step.{enter, climb};
ghost use Rattle.definitions.specs.Calls.{StepSays, state_refusals};
ghost use Rattle.refusals.specs.Meaning.{Judged};
ghost use Rattle.stepping.specs.Meaning.{ClimbSays, answer_of};

use refusals::Refusal;

// Where a command finds a transition: the node that has it, its target and its cost, with that of leaving the machines below.
#[derive(Clone, Copy)]
struct Found {
    node: u32,
    target: u32,
    cost: u32,
}

// What a step gives: the state, the cost and the node whose transition was used.
#[derive(Clone, Copy, Debug, PartialEq, Eq)]
pub struct Moved {
    pub state: u32,
    pub cost: u32,
    pub node: u32,
}

// The lowest node, s itself first and then the nodes that hold it, that has a transition for x which counts, if there is one.
fn climb(book: &[u32], s: u32, x: u32) -> Option<Found>
    requires { WellFormed book.now × UsedNode (tree_of book.now) s × (x < commands) }
    ensures { ClimbSays result (climb (tree_of book.now) (tree_of book.now).root s x) }
{
    let mut n = s;
    let mut left = 0u32;
    loop {
        let w = book::counting(book, n, x);
        let m = book::owner(book, n);
        let h = book::holder(book, m);
        if w != book::BLANK {
            let cost = left + w % 65536;
            return Some(Found {
                node: n,
                target: w / 65536,
                cost,
            });
        }
        if h == book::ABSENT {
            return None;
        }
        left += book::leave(book, m);
        n = h;
    }
}

// The state where node n is entered.
pub fn enter(book: &[u32], n: u32) -> u32
    requires { WellFormed book.now × UsedNode (tree_of book.now) n }
    ensures { enter (tree_of book.now) n ≡ some result }
{
    let mut v = n;
    loop {
        let b = book::below(book, v);
        if b == book::ABSENT {
            return v;
        }
        v = book::start(book, b);
    }
}

// The level of node n's machine.
pub fn level(book: &[u32], n: u32) -> u32
    requires { WellFormed book.now × UsedNode (tree_of book.now) n }
    ensures { result ≡ level (tree_of book.now) n }
{
    let mut at = n;
    let mut count: u32 = 1;
    loop {
        let h = book::holder(book, book::owner(book, at));
        if h == book::ABSENT {
            return count;
        }
        at = h;
        count += 1;
    }
}

// Whether node d is node n or below it.
pub fn within(book: &[u32], n: u32, d: u32) -> bool
    requires { WellFormed book.now × (d < nodes) }
    ensures { result ≡ within (tree_of book.now) n d }
{
    let mut k = d;
    loop {
        if k == n {
            return true;
        }
        let m = book::owner(book, k);
        if m == book::ABSENT {
            return false;
        }
        let h = book::holder(book, m);
        if h == book::ABSENT {
            return false;
        }
        k = h;
    }
}

// Step at a state of a book that is known to be well formed, where 17 alone is left to refuse. Step ends in it, and Choose and a walker call it
// for each command.
pub fn step_from(book: &[u32], s: u32, x: u32) -> Result<Moved, Refusal>
    requires { WellFormed book.now × UsedNode (tree_of book.now) s × ((tree_of book.now).below s ≡ none) × (x < commands) }
    ensures { StepSays book.now s x (answer_of result) }
{
    let Some(Found { node, target, cost }) = climb(book, s, x) else {
        return Err(Refusal::Stops);
    };
    Ok(Moved {
        state: enter(book, target),
        cost,
        node,
    })
}

// Whether node n is a state.
pub fn is_state(book: &[u32], n: u32) -> bool
    requires { WellFormed book.now × (n < nodes) }
    ensures { result ≡ is_state (tree_of book.now) n }
{
    if book::owner(book, n) == book::ABSENT {
        return false;
    }
    book::below(book, n) == book::ABSENT
}

// The refusals of two numbers that are to be states: 6 (out of range), 7 (not in use), 14 (not plain).
pub fn judge_states(book: &[u32], a: u32, b: u32) -> Result<(), Refusal>
    requires { WellFormed book.now }
    ensures { Judged (state_refusals (tree_of book.now) a b []) result }
{
    if book::NODES <= a {
        return Err(Refusal::OutOfRange);
    }
    if book::NODES <= b {
        return Err(Refusal::OutOfRange);
    }
    if book::owner(book, a) == book::ABSENT {
        return Err(Refusal::NotInUse);
    }
    if book::owner(book, b) == book::ABSENT {
        return Err(Refusal::NotInUse);
    }
    if book::below(book, a) != book::ABSENT {
        return Err(Refusal::NotPlain);
    }
    if book::below(book, b) != book::ABSENT {
        return Err(Refusal::NotPlain);
    }
    Ok(())
}

// Step: the state that a command leads to from a state, its cost, and the node whose transition was used. It reads only the book. It refuses
// 1 (a wrong length), 2 (book not well formed), 6 (number out of range), 7 (node not in use), 14 (node not plain), 17 (the station stops).
pub fn step(book: &[u32], state: u32, command: u32) -> Result<Moved, Refusal>
    ensures { StepSays book.now state command (answer_of result) }
{
    wellformed::judge(book)?;
    if book::NODES <= state {
        return Err(Refusal::OutOfRange);
    }
    if book::COMMANDS <= command {
        return Err(Refusal::OutOfRange);
    }
    if book::owner(book, state) == book::ABSENT {
        return Err(Refusal::NotInUse);
    }
    if book::below(book, state) != book::ABSENT {
        return Err(Refusal::NotPlain);
    }
    step_from(book, state, command)
}
