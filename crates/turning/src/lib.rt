// Turning a book from one layout into the other (document 02, W-209): its transitions by node, as document 01 has them, or by command.
#![tactic(auto)]

ghost use Rattle.std.specs.Prelude.{◌≡◌, [], ◌∷◌, List, ℕ, ◌+◌, ◌*◌, ◌≤◌, ◌<◌, length, get_or};
ghost use Rattle.definitions.specs.Limits.{nodes, commands, book_length};
ghost use Rattle.definitions.specs.Book.{node_fields, node_base, hold_base};
ghost use Rattle.definitions.specs.ByCommand.{by_command, by_node, TurnSays};
ghost use Rattle.definitions.specs.Answer.{asks};
ghost use Rattle.refusals.specs.Meaning.{status_of, Judged};
ghost use Rattle.turning.specs.Fronts.{Front};

use refusals::Refusal;

// The first word of a node's record by node, and behind the records; the first owner by command.
const RECORDS: usize = 129;

const BEHIND: usize = 4737;

const OWNERS: usize = 4225;

// How many transition words there are.
const TRANSITIONS: usize = 4096;

// Copies so many words from a place of one list to a place of another.
fn copy(from: &[u32], at: usize, out: &mut [u32], to: usize, count: usize)
    requires { (at + count ≤ length from.now) × (to + count ≤ length out.old) }
    ensures { (f : List ℕ) → Front to f out.old → ((i : ℕ) → i < count → get_or from.now (at + i) 0 ≡ get_or f (to + i) 0)
        → Front (to + count) f out.new }
{
    for i in 0..count {
        out[to + i] = from[at + i];
    }
}

// Writes the transition words of command x.
fn one_command(from: &[u32], out: &mut [u32], x: usize)
    requires { (length from.now ≡ book_length) × (x < commands) × Front (x * nodes) (by_command from.now) out.old }
    ensures { Front ((x + 1) * nodes) (by_command from.now) out.new }
{
    for n in 0..book::NODES as usize {
        out[256 * x + n] = from[RECORDS + 18 * n + 2 + x];
    }
}

// Writes those of every command.
fn all_commands(from: &[u32], out: &mut [u32])
    requires { (length from.now ≡ book_length) × (length out.old ≡ book_length) }
    ensures { Front (commands * nodes) (by_command from.now) out.new }
{
    for x in 0..16 {
        one_command(from, out, x);
    }
}

// Writes owner and machine below of every node.
fn owners(from: &[u32], out: &mut [u32])
    requires { (length from.now ≡ book_length) × Front (commands * nodes + node_base) (by_command from.now) out.old }
    ensures { Front hold_base (by_command from.now) out.new }
{
    for n in 0..book::NODES as usize {
        copy(from, RECORDS + 18 * n, out, OWNERS + 2 * n, 2);
    }
}

// Turns a book by node into one by command.
pub fn turn_by_command(from: &[u32], out: &mut [u32])
    requires { (length from.now ≡ book_length) × (length out.old ≡ book_length) }
    ensures { out.new ≡ by_command from.now }
{
    all_commands(from, out);
    copy(from, 0, out, TRANSITIONS, RECORDS);
    owners(from, out);
    copy(from, BEHIND, out, BEHIND, book::BOOK - BEHIND);
}

// Writes node n's record: owner, machine below, then its transition words.
fn one_record(from: &[u32], out: &mut [u32], n: usize)
    requires { (length from.now ≡ book_length) × (n < nodes) × Front (node_base + n * node_fields) (by_node from.now) out.old }
    ensures { Front (node_base + (n + 1) * node_fields) (by_node from.now) out.new }
{
    copy(from, OWNERS + 2 * n, out, RECORDS + 18 * n, 2);
    for x in 0..16 {
        out[RECORDS + 18 * n + 2 + x] = from[256 * x + n];
    }
}

// Writes the records of all nodes.
fn all_records(from: &[u32], out: &mut [u32])
    requires { (length from.now ≡ book_length) × Front node_base (by_node from.now) out.old }
    ensures { Front hold_base (by_node from.now) out.new }
{
    for n in 0..book::NODES as usize {
        one_record(from, out, n);
    }
}

// Turns a book by command into one by node.
pub fn turn_by_node(from: &[u32], out: &mut [u32])
    requires { (length from.now ≡ book_length) × (length out.old ≡ book_length) }
    ensures { out.new ≡ by_node from.now }
{
    copy(from, TRANSITIONS, out, 0, RECORDS);
    all_records(from, out);
    copy(from, BEHIND, out, BEHIND, book::BOOK - BEHIND);
}

// The one refusal of a turn: 1 (a wrong length of either list).
fn judge_lengths(from: &[u32], out: &[u32]) -> Result<(), Refusal>
    ensures { Judged (asks 1 ((length from.now ≡ book_length) × (length out.now ≡ book_length)) ∷ []) result }
{
    if from.len() != book::BOOK {
        return Err(Refusal::WrongLength);
    }
    if out.len() != book::BOOK {
        return Err(Refusal::WrongLength);
    }
    Ok(())
}

// Writes a book by node into another list by command. It refuses a wrong length of either list with 1 and then writes nothing.
pub fn by_command(from: &[u32], out: &mut [u32]) -> Result<(), Refusal>
    ensures { TurnSays by_command from.now out.old (status_of result) out.new }
{
    judge_lengths(from, out)?;
    turn_by_command(from, out);
    Ok(())
}

// Writes a book by command into another list by node. It refuses a wrong length of either list with 1 and then writes nothing.
pub fn by_node(from: &[u32], out: &mut [u32]) -> Result<(), Refusal>
    ensures { TurnSays by_node from.now out.old (status_of result) out.new }
{
    judge_lengths(from, out)?;
    turn_by_node(from, out);
    Ok(())
}
