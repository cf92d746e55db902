// Choose: the used part of the cheaper of two lists of commands (document 01, "Writing, choosing, the session").
#![tactic(auto)]

ghost use Rattle.std.specs.Prelude.{◌≡◌, take};
ghost use Rattle.std.proofs.Math.Option.{none};
ghost use Rattle.definitions.specs.Limits.{longest_list};
ghost use Rattle.definitions.specs.Tree.{UsedNode};
ghost use Rattle.definitions.specs.Book.{tree_of, WellFormed};
ghost use Rattle.definitions.specs.Choose.{used_of, cheaper, ChoiceSays, ChooseSays};
ghost use Rattle.refusals.specs.Meaning.{status_of};
ghost use Rattle.choosing.specs.Meaning.{used_in, chosen_by, choice_of};

use refusals::Refusal;

// How many commands of a list are used up to its first arrival, and their cost.
#[derive(Clone, Copy)]
struct Used {
    count: usize,
    cost: u64,
}

// A front part of the first or of the second list, by the number of its commands.
#[derive(Clone, Copy, Debug, PartialEq, Eq)]
pub enum Chosen {
    First(usize),
    Second(usize),
}

// The commands of a list that are looked at.
fn looked_at(list: &[u8]) -> &[u8]
    ensures { result.now ≡ take longest_list list.now }
{
    &list[..list.len().min(65536)]
}

// The used part of a list from state a up to its first arrival at b, if it arrives.
fn used_part(book: &[u32], a: u32, b: u32, list: &[u8]) -> Option<Used>
    requires { WellFormed book.now × UsedNode (tree_of book.now) a × ((tree_of book.now).below a ≡ none) }
    ensures { used_in result ≡ used_of (tree_of book.now) a b list.now }
{
    let looked = looked_at(list);
    let mut s = a;
    let mut cost = 0u64;
    for (i, x) in looked.iter().enumerate() {
        if s == b {
            return Some(Used { count: i, cost });
        }
        let command = u32::from(*x);
        if book::COMMANDS <= command {
            return None; // a byte over 15
        }
        let Ok(moved) = stepping::step_from(book, s, command) else {
            return None; // a stop
        };
        s = moved.state;
        cost += u64::from(moved.cost);
    }
    if s != b {
        return None; // nothing more is looked at
    }
    Some(Used {
        count: looked.len(),
        cost,
    })
}

// The cheaper of two used parts, on equal cost the first; 18 where neither list arrives.
fn cheaper(first: Option<Used>, second: Option<Used>) -> Result<Chosen, Refusal>
    ensures { result ≡ chosen_by (cheaper (used_in first) (used_in second)) }
{
    match (first, second) {
        (None, None) => Err(Refusal::NoArrival),
        (Some(one), None) => Ok(Chosen::First(one.count)),
        (None, Some(two)) => Ok(Chosen::Second(two.count)),
        (Some(one), Some(two)) => {
            if two.cost < one.cost {
                Ok(Chosen::Second(two.count))
            } else {
                Ok(Chosen::First(one.count))
            }
        }
    }
}

// Which front part of which list Choose gives back. It refuses 1 (a wrong length), 2 (book not well formed), 6 (number out of range),
// 7 (node not in use), 14 (node not plain), 18 (neither arrives).
pub fn choice(book: &[u32], a: u32, b: u32, first: &[u8], second: &[u8]) -> Result<Chosen, Refusal>
    ensures { ChoiceSays book.now a b first.now second.now (choice_of result) (status_of result) }
{
    wellformed::judge(book)?;
    stepping::judge_states(book, a, b)?;
    let one = used_part(book, a, b, first);
    let two = used_part(book, a, b, second);
    cheaper(one, two)
}

// Choose: the used part of the cheaper of two lists from state a to state b, up to its first arrival at b; on equal cost of the first. The
// lent word takes 0 or the refusal of `choice`; refused, the part is the empty front of the first list.
pub fn choose<'a>(
    book: &[u32],
    a: u32,
    b: u32,
    first: &'a [u8],
    second: &'a [u8],
    word: &mut u32,
) -> &'a [u8]
    ensures { ChooseSays book.now a b first.now second.now result.now word.new
        first.entry.ref_ptr second.entry.ref_ptr result.ref_ptr }
{
    match choice(book, a, b, first, second) {
        Ok(Chosen::First(n)) => {
            *word = 0;
            &first[..n]
        }
        Ok(Chosen::Second(n)) => {
            *word = 0;
            &second[..n]
        }
        Err(refusal) => {
            *word = refusal.number();
            &first[..0]
        }
    }
}
