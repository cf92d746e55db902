// What calls between two states of a whole holding begin with: a book that is well formed, a sheet that is true and has no stale machine, two
// states; and how many states there are.
#![tactic(auto)]

ghost use Rattle.std.specs.Prelude.{◌≡◌, [], true, ℕ, ◌<◌, length};
ghost use Rattle.definitions.specs.Limits.{machines, nodes, sheet_length};
ghost use Rattle.definitions.specs.Tree.{is_state, states};
ghost use Rattle.definitions.specs.Book.{tree_of, WellFormed};
ghost use Rattle.definitions.specs.Sheet.{rows_of};
ghost use Rattle.book.specs.Decides.{Decides};
ghost use Rattle.refusals.specs.Meaning.{Judged};
ghost use Rattle.readiness.specs.Judged.{fresh_refusals, between_refusals};

use refusals::Refusal;

// How many states there are.
pub fn count_states(book: &[u32]) -> usize
    requires { WellFormed book.now }
    ensures { result ≡ states (tree_of book.now) }
{
    (0..book::NODES)
        .filter(|n| stepping::is_state(book, *n))
        .count()
}

// Whether any machine is stale.
fn any_stale(sheet: &[u32]) -> bool
    requires { length sheet.now ≡ sheet_length }
    ensures { Decides result ((m : ℕ) × ((rows_of sheet.now).stale m ≡ true)) }
{
    (0..book::MACHINES).any(|m| sheet::stale(sheet, m) == 1)
}

// The refusals 1 (a wrong length), 2 (book not well formed), 3 (sheet not true), 13 (any machine stale).
pub fn judge_fresh(book: &[u32], sheet: &[u32]) -> Result<(), Refusal>
    ensures { Judged (fresh_refusals book.now sheet.now []) result }
{
    truesheet::judge(book, sheet)?;
    if any_stale(sheet) {
        return Err(Refusal::Stale);
    }
    Ok(())
}

// The same, and then those of two states: 6 (number out of range), 7 (node not in use), 14 (node not plain).
pub fn judge_between(book: &[u32], sheet: &[u32], a: u32, b: u32) -> Result<(), Refusal>
    ensures { Judged (between_refusals book.now sheet.now a b []) result }
{
    judge_fresh(book, sheet)?;
    stepping::judge_states(book, a, b)
}
