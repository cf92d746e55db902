// The import (document 02, W-203): a node, a command, a target and a timing become the bytes of one stream command.
#![tactic(auto)]

ghost use Rattle.std.specs.Prelude.{◌≡◌, ℕ, ◌-◌, ◌<◌};
ghost use Rattle.std.proofs.Math.Option.{none, some};
ghost use Rattle.definitions.specs.Basics.{Least};
ghost use Rattle.definitions.specs.Limits.{nodes, commands, costs};
ghost use Rattle.definitions.specs.Write.{arrow_bytes};
ghost use Rattle.definitions.specs.Import.{took, AtLeastZero, NotBelow, difference, Admitted, setting_bytes, ImportSays};
ghost use Rattle.book.specs.Decides.{Decides};
ghost use Rattle.storing.specs.Stored.{Stored};
ghost use Rattle.importing.specs.Meaning.{reading_of, answer_of};

use refusals::Refusal;
use storing::{put_arrow, put_node_byte};

// What a probe logged: seconds taken, or seconds waited without an end.
#[derive(Clone, Copy)]
pub enum Reading {
    Taken(f32),
    Waited(f32),
}

// A reading, and the probe's own dead time in seconds.
#[derive(Clone, Copy)]
pub struct Timing {
    pub reading: Reading,
    pub dead_time: f32,
}

// How many bytes arrow has.
const ARROW_BYTES: usize = 8;

// Whether node, command and target are in range.
fn in_range(node: u32, command: u32, target: u32) -> bool
    ensures { Decides result ((node < nodes) × (command < commands) × (target < nodes)) }
{
    node < book::NODES && command < book::COMMANDS && target < book::NODES
}

// Seconds less a dead time, rounded once to a 32-bit float. What is made of it is worked out in 64 bits, which hold it exactly.
fn less(seconds: f32, dead: f32) -> f64
    ensures { result ≡ difference seconds dead }
{
    std::num::f32_to_f64_with_nan(seconds - dead)
}

// Whether seconds taken, a dead time and their difference are finite and not below zero, and the difference is at most the largest cost. No
// test for what is not finite is needed: one of the comparisons is false there.
fn admitted(seconds: f32, dead: f32, rest: f64) -> bool
    requires { rest ≡ difference seconds dead }
    ensures { Decides result (Admitted (took seconds) dead) }
{
    seconds >= 0.0 && dead >= 0.0 && rest >= 0.0 && rest <= 65535.0
}

// The least whole number that is not below x.
fn round_up(x: f64) -> u32
    requires { AtLeastZero x × NotBelow x (costs - 1) }
    ensures { Least (NotBelow x) (some result) }
{
    let whole = std::num::truncating_f64_to_u64(x) as u16;
    let back = whole as f64;
    if back < x {
        return whole as u32 + 1;
    }
    whole as u32
}

// Stores arrow at the front of a list, as far as the list goes: its cost is the least whole number not below a difference. The next place.
fn put_taken(out: &mut [u8], n: u32, x: u32, v: u32, rest: f64) -> usize
    requires { (n < nodes) × (x < commands) × (v < nodes) × AtLeastZero rest × NotBelow rest (costs - 1) }
    ensures { (c : ℕ) × Least (NotBelow rest) (some c) × Stored out.old 0 (arrow_bytes n x v c) result out.new }
{
    let cost = round_up(rest);
    put_arrow(out, 0, n, x, v, cost)
}

// Stores clear at the front of a list, as far as the list goes; the next place.
fn put_clear(out: &mut [u8], n: u32, x: u32) -> usize
    requires { (n < nodes) × (x < commands) }
    ensures { Stored out.old 0 (setting_bytes n x none) result out.new }
{
    put_node_byte(out, 0, 0x15, n, x as u8)
}

// The import: arrow with the cost of seconds taken, or clear for a wait without an end, at the front of out, the rest of out untouched, and
// how many bytes that is. The cost is the least whole number not below the reading less the dead time, a difference rounded once. Refuses 6
// (node, command or target out of range), 20 (seconds taken: a value that is not finite or is below zero, or a difference below zero or above
// 65,535) and 15 (out shorter than the bytes), with nothing written.
pub fn import(
    node: u32,
    command: u32,
    target: u32,
    timing: Timing,
    out: &mut [u8],
) -> Result<u32, Refusal>
    ensures { ImportSays node command target (reading_of timing.reading) timing.dead_time
        out.old (answer_of result) out.new }
{
    if !in_range(node, command, target) {
        return Err(Refusal::OutOfRange);
    }
    match timing.reading {
        Reading::Taken(seconds) => {
            let rest = less(seconds, timing.dead_time);
            if !admitted(seconds, timing.dead_time, rest) {
                return Err(Refusal::BadTiming);
            }
            if out.len() < ARROW_BYTES {
                return Err(Refusal::NoRoom);
            }
            Ok(put_taken(out, node, command, target, rest) as u32)
        }
        Reading::Waited(_) => {
            if out.len() < 4 {
                return Err(Refusal::NoRoom);
            }
            Ok(put_clear(out, node, command) as u32)
        }
    }
}
