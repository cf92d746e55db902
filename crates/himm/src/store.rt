// Answers as C takes them: the number is returned, 0 for none, and what is given goes through pointers; a refusal stores nothing.
ghost use Rattle.std.specs.Prelude.{◌≡◌, [], ◌∷◌, ◌≤◌};
ghost use Rattle.definitions.specs.Limits.{longest_list};
ghost use Rattle.choosing.specs.Meaning.{choice_of};
ghost use Rattle.loading.specs.Loading.{answer_of as loaded_of};
ghost use Rattle.planning.specs.Meaning.{answer_of as plan_of};
ghost use Rattle.refusals.specs.Meaning.{status_of, answered};
ghost use Rattle.stepping.specs.Meaning.{answer_of};
ghost use Rattle.himm.specs.Exports.{Stored, choice_gives, count_of, behind_state};

use choosing::Chosen;
use loading::Loaded;
use planning::Planned;
use refusals::Refusal;
use stepping::Moved;

// The number alone.
pub fn number(answer: Result<(), Refusal>) -> u32
    ensures { result ≡ status_of answer }
{
    match answer {
        Ok(()) => 0,
        Err(refusal) => refusal.number(),
    }
}

// One number that is given: a cost, or a length.
pub fn word(answer: Result<u32, Refusal>, word: &mut u32) -> u32
    ensures { Stored (answered (λ n. n ∷ []) answer) (word.old ∷ []) result (word.new ∷ []) }
{
    match answer {
        Ok(n) => {
            *word = n;
            0
        }
        Err(refusal) => refusal.number(), // the word stays
    }
}

// Load's two counts, which are always stored, and its number.
pub fn loaded(answer: Loaded, bytes: &mut u64, commands: &mut u64) -> u32
    ensures { loaded_of answer ≡ record { bytes = bytes.new; commands = commands.new; number = result } }
{
    *bytes = answer.bytes as u64;
    *commands = answer.commands as u64;
    match answer.refusal {
        None => 0,
        Some(refusal) => refusal.number(),
    }
}

// Step's state, cost and acting node.
pub fn step(answer: Result<Moved, Refusal>, next: &mut u32, cost: &mut u32, node: &mut u32) -> u32
    ensures { Stored (answer_of answer) (next.old ∷ cost.old ∷ node.old ∷ []) result
        (next.new ∷ cost.new ∷ node.new ∷ []) }
{
    match answer {
        Ok(moved) => {
            *next = moved.state;
            *cost = moved.cost;
            *node = moved.node;
            0
        }
        Err(refusal) => refusal.number(), // all three stay
    }
}

// Plan's cost and count.
pub fn plan(answer: Result<Planned, Refusal>, cost: &mut u32, count: &mut u32) -> u32
    ensures { Stored (plan_of answer) (cost.old ∷ count.old ∷ []) result (cost.new ∷ count.new ∷ []) }
{
    match answer {
        Ok(plan) => {
            *cost = plan.cost;
            *count = plan.count;
            0
        }
        Err(refusal) => refusal.number(), // both stay
    }
}

// Which list is chosen, and how many of its commands are used.
pub fn chosen(answer: Result<Chosen, Refusal>, which: &mut u32, used: &mut u32) -> u32
    requires { count_of (choice_of answer) ≤ longest_list }
    ensures { Stored (choice_gives (choice_of answer) (status_of answer)) (which.old ∷ used.old ∷ []) result (which.new ∷ used.new ∷ []) }
{
    let choice = match answer {
        Ok(choice) => choice,
        Err(refusal) => return refusal.number(),
    };
    let (list, count) = match choice {
        Chosen::First(n) => (0, n),
        Chosen::Second(n) => (1, n),
    };
    *which = list;
    *used = count as u32;
    0
}

// The cost and the acting node of a walker's step; its state stands in the walker's record.
pub fn walked(answer: Result<Moved, Refusal>, cost: &mut u32, acted: &mut u32) -> u32
    ensures { Stored (behind_state (answer_of answer)) (cost.old ∷ acted.old ∷ []) result
        (cost.new ∷ acted.new ∷ []) }
{
    match answer {
        Ok(moved) => {
            *cost = moved.cost;
            *acted = moved.node;
            0
        }
        Err(refusal) => refusal.number(),
    }
}
