// The two layouts in words of the program's own, from document 02's sentence, place by place; and the lists held against each other. Nothing here
// calls `turning` or `bycommand`.

pub type Book = [u32; book::BOOK];

pub type Sheet = [u32; sheet::SHEET];

// Where the word at place i of a book by node stands by command. The words before the nodes' records, owner and machine below of each node, and
// the words behind the records follow the 16 times 256 transition words.
pub fn place(i: usize) -> usize {
    if i < 129 {
        return 4096 + i;
    }
    if i >= 4737 {
        return i;
    }
    let n = (i - 129) / 18;
    let k = (i - 129) % 18;
    if k < 2 {
        return 4096 + 129 + 2 * n + k;
    }
    256 * (k - 2) + n
}

// Writes a book by node into another list by command.
pub fn turn(from: &Book, out: &mut Book) {
    for (i, word) in from.iter().enumerate() {
        let p = place(i);
        if p < book::BOOK {
            out[p] = *word;
        }
    }
}

// How many items two lists have different.
pub fn different<T: PartialEq>(one: &[T], other: &[T]) -> u64 {
    if one.len() != other.len() {
        return 99999;
    }
    one.iter().zip(other).filter(|(a, b)| a != b).count() as u64
}

// How many words of a book by node are not where they stand by command in another list. Lists of another length are to be the same.
pub fn apart(one: &[u32], other: &[u32]) -> u64 {
    if one.len() != book::BOOK || other.len() != book::BOOK {
        return different(one, other);
    }
    let mut count = 0u64;
    for (i, word) in one.iter().enumerate() {
        if other.get(place(i)) != Some(word) {
            count = count.saturating_add(1);
        }
    }
    count
}
