// Numbers that move in rising order to the lowest that are free (document 02, W-201). A list has a word for each number, and the numbers that have a
// given word move to those that have another in a second list.
#![tactic(auto)]

ghost use Rattle.std.specs.Prelude.{◌≡◌, ℕ, suc, ◌≤◌, ◌<◌, length};
ghost use Rattle.definitions.specs.Basics.{count_below};
ghost use Rattle.definitions.specs.Limits.{absent};
ghost use Rattle.definitions.specs.Book.{word};
ghost use Rattle.definitions.specs.Merge.{ranked, moved};
ghost use Rattle.numbering.specs.Tests.{has, Tells};

// The lowest number from i on whose word is v; ABSENT where there is none.
fn next_from(list: &[u32], v: u32, i: u32) -> u32
    requires { (i ≤ length list.now) × (length list.now < absent) }
    ensures { result ≡ word (ranked (length list.now) (has list.now v) (count_below i (has list.now v))) }
{
    for k in i..list.len() as u32 {
        if list[k as usize] == v {
            return k;
        }
    }
    book::ABSENT
}

// The number of the next rank after number k, which has the word v itself; ABSENT after the last, and after ABSENT.
pub fn after(list: &[u32], v: u32, k: u32) -> u32
    requires { length list.now < absent }
    ensures { (j : ℕ) → k ≡ word (ranked (length list.now) (has list.now v) j)
        → result ≡ word (ranked (length list.now) (has list.now v) (suc j)) }
{
    if (k as usize) < list.len() {
        return next_from(list, v, k + 1);
    }
    book::ABSENT
}

// Writes where each number moves if those whose word is v move, in rising order, to the lowest whose word in the other list is w; ABSENT for
// the others, and where none is left. Gives the next lowest number of the other list after those, ABSENT where there is none.
pub fn moves(list: &[u32], v: u32, other: &[u32], w: u32, out: &mut [u32]) -> u32
    requires { (length list.now < absent) × (length other.now ≡ length list.now) × (length out.old ≡ length list.now) }
    ensures told { Tells (length list.now) (moved (length list.now) (has list.now v) (has other.now w))
        out.new }
    ensures next { result ≡ word (ranked (length list.now) (has other.now w)
        (count_below (length list.now) (has list.now v))) }
{
    let mut next = next_from(other, w, 0);
    for (d, word) in list.iter().enumerate() {
        if *word == v {
            out[d] = next;
            next = after(other, w, next);
        } else {
            out[d] = book::ABSENT;
        }
    }
    next
}
