// Bytes, numbers of 16 bits and words stored one after the other in a lent list. A store goes as far as the list does and gives the next place, so
// that what is too long is measured and not written.
#![tactic(auto)]

ghost use Rattle.std.specs.Prelude.{List, ℕ, [], ◌∷◌, ◌++◌, ◌+◌, ◌<◌, ◌^◌};
ghost use Rattle.definitions.specs.Basics.{joined};
ghost use Rattle.definitions.specs.Limits.{nodes, commands};
ghost use Rattle.definitions.specs.Write.{pair, arrow_bytes};
ghost use Rattle.storing.specs.Stored.{Stored, TakesEach, StoresEach};

// Stores an element at a place, if the list goes so far; the next place.
pub fn put<T: Copy>(out: &mut [T], at: usize, x: T) -> usize
    requires { at + 1 < 2 ^ 64 }
    ensures { Stored out.old at (x ∷ []) result out.new }
{
    if at < out.len() {
        out[at] = x;
    }
    at + 1
}

// The same for a number's two bytes, high byte first.
pub fn put_pair(out: &mut [u8], at: usize, n: u32) -> usize
    requires { (at + 2 < 2 ^ 64) × (n < 65536) }
    ensures { Stored out.old at (pair n) result out.new }
{
    let low = put(out, at, (n / 256) as u8);
    put(out, low, (n % 256) as u8)
}

// The same for an opcode, a node and a byte.
pub fn put_node_byte(out: &mut [u8], at: usize, op: u8, n: u32, b: u8) -> usize
    requires { (at + 4 < 2 ^ 64) × (n < 65536) }
    ensures { Stored out.old at (op ∷ (pair n ++ b ∷ [])) result out.new }
{
    let node = put(out, at, op);
    let last = put_pair(out, node, n);
    put(out, last, b)
}

// The same for arrow: opcode, node, command, target, cost.
pub fn put_arrow(out: &mut [u8], at: usize, n: u32, x: u32, v: u32, c: u32) -> usize
    requires { (at + 8 < 2 ^ 64) × (n < nodes) × (x < commands) × (v < 65536) × (c < 65536) }
    ensures { Stored out.old at (arrow_bytes n x v c) result out.new }
{
    let node = put(out, at, 0x14);
    let command = put_pair(out, node, n);
    let target = put(out, command, x as u8);
    let cost = put_pair(out, target, v);
    put_pair(out, cost, c)
}

// Stores pieces one after the other: a step stores the piece of a number at a place, as far as the list goes, and gives the next place.
pub fn put_each<T, F: Fn(u32, &mut [T], usize) -> usize>(
    count: u32,
    out: &mut [T],
    at: usize,
    step: F,
) -> usize
    requires { (piece : ℕ → List T) × TakesEach F.Fn step piece count at × StoresEach F.Fn step piece count at }
    ensures { (piece : ℕ → List T) → StoresEach F.Fn step piece count at → Stored out.old at (joined count piece) result out.new }
{
    let mut p = at;
    for i in 0..count {
        p = step(i, out, p);
    }
    p
}
