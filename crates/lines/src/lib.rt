// The session's input a turn at a time (document 01, "Writing, choosing, the session"): commands are done up to a plan, a refused command or
// the end of the input, and the line that is printed there is written into a lent list.
#![tactic(auto)]

ghost use Rattle.std.specs.Prelude.{◌≡◌, [], ◌∷◌, ◌+◌, ◌^◌, ◌≤◌, ◌<◌, length, take};
ghost use Rattle.definitions.specs.Limits.{plan_buffer};
ghost use Rattle.definitions.specs.Book.{tree_of, WellFormed};
ghost use Rattle.definitions.specs.Truth.{TrueSheet};
ghost use Rattle.definitions.specs.Stream.{byte_at};
ghost use Rattle.definitions.specs.Session.{decimal, plan_line, no_line, stop_line};
ghost use Rattle.storing.specs.Stored.{Stored};
ghost use Rattle.refusals.specs.Meaning.{number_of};
ghost use Rattle.loading.specs.Loading.{number_in};
ghost use Rattle.lines.specs.Meaning.{longest_line, numbers, LineWritten, PlanWritten};
ghost use Rattle.lines.specs.Meaning.{Halted, Stopped, AnsweredAt, TurnSays};

use planning::Planned;
use refusals::Refusal;

// The opcode of a plan, and how many bytes a plan takes.
const PLAN: u8 = 0x19;

const PLAN_SIZE: usize = 5;

// Room for every line.
pub const LINE: usize = 1035;

// Where commands are no longer taken: the offset, and the refusal there, or none at the end of the input.
#[derive(Clone, Copy, Debug, PartialEq, Eq)]
pub struct Halt {
    pub at: usize,
    pub refusal: Option<Refusal>,
}

// The line that a turn gives: its length, and the offset to go on from.
#[derive(Clone, Copy, Debug, PartialEq, Eq)]
pub struct Line {
    pub size: usize,
    pub next: usize,
}

// Writes a number in decimal at a place of a list; the next place.
fn put_decimal(list: &mut [u8], at: usize, n: u64) -> usize
    requires { at + 20 < 2 ^ 64 }
    ensures { Stored list.old at (decimal n) result list.new }
{
    if n < 10 {
        return storing::put(list, at, 48 + (n as u8));
    }
    let last = put_decimal(list, at, n / 10);
    storing::put(list, last, 48 + (n % 10) as u8)
}

// The same after a space.
fn put_number(list: &mut [u8], at: usize, n: u64) -> usize
    requires { at + 21 < 2 ^ 64 }
    ensures { Stored list.old at (32 ∷ decimal n) result list.new }
{
    let first = storing::put(list, at, b' ');
    put_decimal(list, first, n)
}

// The same for each of the first count of some bytes.
fn put_numbers(list: &mut [u8], at: usize, bytes: &[u8], count: usize) -> usize
    requires { (at < 64) × (count ≤ plan_buffer) × (count ≤ length bytes.now) }
    ensures { Stored list.old at (numbers (take count bytes.now)) result list.new }
{
    let mut p = at;
    for i in 0..count {
        p = put_number(list, p, u64::from(bytes[i]));
    }
    p
}

// Writes the line of a plan whose commands are the first count of some bytes; its length.
fn put_plan(list: &mut [u8], cost: u32, commands: &[u8], count: usize) -> usize
    requires { (longest_line ≤ length list.old) × (count ≤ plan_buffer) × (count ≤ length commands.now) }
    ensures { LineWritten list.old (plan_line cost (take count commands.now)) result list.new }
{
    let counted = put_decimal(list, 0, cost as u64);
    let listed = put_number(list, counted, count as u64);
    let last = put_numbers(list, listed, commands, count);
    storing::put(list, last, b'\n')
}

// Writes the line of a plan that is refused; its length.
fn put_no(list: &mut [u8], why: Refusal) -> usize
    requires { longest_line ≤ length list.old }
    ensures { LineWritten list.old (no_line (number_of why)) result list.new }
{
    let second = storing::put(list, 0, b'n');
    let refusal = storing::put(list, second, b'o');
    let last = put_number(list, refusal, u64::from(why.number()));
    storing::put(list, last, b'\n')
}

// Writes the word `stop`; the next place.
fn put_stop_word(list: &mut [u8]) -> usize
    ensures { Stored list.old 0 (115 ∷ 116 ∷ 111 ∷ 112 ∷ []) result list.new }
{
    let second = storing::put(list, 0, b's');
    let third = storing::put(list, second, b't');
    let fourth = storing::put(list, third, b'o');
    storing::put(list, fourth, b'p')
}

// Writes the line of a refused command whose opcode byte stands at an offset; its length.
fn put_stop(list: &mut [u8], why: Refusal, at: usize) -> usize
    requires { longest_line ≤ length list.old }
    ensures { LineWritten list.old (stop_line (number_of why) at) result list.new }
{
    let refusal = put_stop_word(list);
    let offset = put_number(list, refusal, u64::from(why.number()));
    let last = put_number(list, offset, at as u64);
    storing::put(list, last, b'\n')
}

// Asks for a plan from a to b and writes its line; the line's length.
fn plan_line(book: &[u32], sheet: &[u32], a: u32, b: u32, list: &mut [u8]) -> usize
    requires { WellFormed book.now × TrueSheet (tree_of book.now) sheet.now × (longest_line ≤ length list.old) }
    ensures { PlanWritten book.now sheet.now a b list.old result list.new }
{
    let mut commands = [0u8; 255];
    match planning::plan(book, sheet, a, b, &mut commands) {
        Ok(Planned { cost, count }) => put_plan(list, cost, &commands, count as usize),
        Err(why) => put_no(list, why),
    }
}

// The turn's end at a refused command whose opcode byte stands at an offset: its line, and nothing of the input is left.
fn stop_turn(input: &[u8], at: usize, why: Refusal, list: &mut [u8]) -> Line
    requires { (at < length input.now) × (longest_line ≤ length list.old) }
    ensures { Stopped input.now at (number_of why) list.old (Some result) list.new }
{
    let size = put_stop(list, why, at);
    Line {
        size,
        next: input.len(),
    }
}

// The turn's end at a plan: its line, and the input goes on behind it; or 4 where the input ends in it.
fn plan_turn(book: &[u32], sheet: &[u32], input: &[u8], at: usize, list: &mut [u8]) -> Line
    requires { WellFormed book.now × TrueSheet (tree_of book.now) sheet.now × (at < length input.now)
        × (byte_at input.now at ≡ 0x19) × (longest_line ≤ length list.old) }
    ensures { AnsweredAt input.now book.now sheet.now at list.old (Some result) list.new }
{
    if input.len() - at < PLAN_SIZE {
        return stop_turn(input, at, Refusal::CutShort, list);
    }
    let a = reading::operand_pair(input, at, 0);
    let b = reading::operand_pair(input, at, 2);
    let size = plan_line(book, sheet, a, b, list);
    let next = at + PLAN_SIZE;
    Line { size, next }
}

// Does the commands from an offset of the input on, up to a plan, a refused command or the end.
fn take_commands(book: &mut [u32], sheet: &mut [u32], input: &[u8], at: usize) -> Halt
    requires { WellFormed book.old × TrueSheet (tree_of book.old) sheet.old × (at ≤ length input.now) }
    ensures { Halted input.now book.old sheet.old at result.at (number_in result.refusal) book.new sheet.new }
{
    let mut to = at;
    // No index is counted: each turn goes on by what its command takes.
    loop {
        match loading::take_next(book, sheet, input, to) {
            Ok(Some(size)) => to += size,
            Ok(None) => {
                return Halt {
                    at: to,
                    refusal: None,
                };
            }
            Err(refusal) => {
                return Halt {
                    at: to,
                    refusal: Some(refusal),
                };
            }
        }
    }
}

// One turn of the session: does the commands from an offset of the input on and writes the line of the plan or of the refused command that
// comes after them at the front of a list, the rest of which is untouched. It gives the line's length and the offset to go on from, or none where
// the input is at its end. On a book that is well formed and a sheet that is true of it, it leaves such again.
pub fn next_line(
    book: &mut [u32],
    sheet: &mut [u32],
    input: &[u8],
    at: usize,
    list: &mut [u8],
) -> Option<Line>
    requires { WellFormed book.old × TrueSheet (tree_of book.old) sheet.old × (at ≤ length input.now)
        × (longest_line ≤ length list.old) }
    ensures { TurnSays input.now book.old sheet.old at list.old result
        book.new sheet.new list.new }
{
    let Halt { at: to, refusal } = take_commands(book, sheet, input, at);
    let why = refusal?;
    if input[to] == PLAN {
        return Some(plan_turn(book, sheet, input, to, list));
    }
    Some(stop_turn(input, to, why, list))
}
