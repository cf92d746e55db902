// What the example programs share, that is, the programs that the gate runs: random numbers, a flat search, parts of lists, and writing on
// standard output. Nothing here calls the planner.
#![tactic(auto)]

mod chance;
mod flat;
mod lists;
mod saying;

pub use chance::{draw, once_in};
pub use flat::{Costs, FAR, Moves, cost_of, distances, plus, set_cost};
pub use lists::{MAST, front, front_mut, put, put_pair};
pub use saying::{decimal, number, numbers, say, say_counts, say_no, show_words, status, text};
