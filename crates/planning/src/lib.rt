// Plan (document 01, "Exit, step and plan"): a cheapest list of commands from one state to another.
#![tactic(auto)]

ghost use Rattle.std.specs.Prelude.{ℕ, ◌-◌, ◌≤◌, length};
ghost use Rattle.definitions.specs.Tree.{states};
ghost use Rattle.definitions.specs.Book.{tree_of};
ghost use Rattle.definitions.specs.Calls.{PlanSays};
ghost use Rattle.readiness.specs.Judged.{Ready};
ghost use Rattle.planning.specs.Meaning.{answer_of, Answers};

use refusals::Refusal;

// What Plan gives: the cost and the number of commands.
#[derive(Clone, Copy, Debug, PartialEq, Eq)]
pub struct Planned {
    pub cost: u32,
    pub count: u32,
}

// Searches from state a, and writes the plan to state b where there is one.
fn make_plan(
    book: &[u32],
    sheet: &[u32],
    a: u32,
    b: u32,
    buffer: &mut [u8],
) -> Result<Planned, Refusal>
    requires { Ready book.now sheet.now a b × (states (tree_of book.now) - 1 ≤ length buffer.old) }
    ensures { Answers (tree_of book.now) a b buffer.old (answer_of result) buffer.new }
{
    let mut dist = [0u64; 256];
    let mut before = [0u32; 256];
    let mut by = [0u32; 256];
    crossing::cross(book, sheet, a, b, &mut dist, &mut before, &mut by);
    let cost = dist[b as usize];
    if cost == search::UNREACHED {
        return Err(Refusal::NoWay);
    }
    let count = expanding::expand(book, sheet, &before, &by, b, buffer);
    Ok(Planned {
        cost: cost as u32,
        count,
    })
}

// Plan: a cheapest list of commands that moves the station from state a to state b and passes no state twice, at the front of the buffer, a
// byte each; its cost and how many commands it has. Later bytes of the buffer are untouched, and book and sheet are only read. It trusts no
// earlier call. It refuses 1 (a wrong length), 2 (book not well formed), 3 (sheet not true), 13 (any machine stale), 6 (number out of
// range), 7 (node not in use), 14 (node not plain), 15 (buffer shorter than states less 1), 16 (no way), the buffer untouched.
pub fn plan(
    book: &[u32],
    sheet: &[u32],
    a: u32,
    b: u32,
    buffer: &mut [u8],
) -> Result<Planned, Refusal>
    ensures { PlanSays book.now sheet.now a b buffer.old (answer_of result) buffer.new }
{
    readiness::judge_between(book, sheet, a, b)?;
    if buffer.len() + 1 < readiness::count_states(book) {
        return Err(Refusal::NoRoom);
    }
    make_plan(book, sheet, a, b, buffer)
}
