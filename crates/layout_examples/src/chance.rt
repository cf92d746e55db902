// Random numbers, always the same ones, and random streams. Streams are drawn blindly; Load says what it takes.
use crate::layout::Book;
use trying::{draw, once_in, put, put_pair};

// A stream's bytes stand at the front; how many there are goes beside it.
pub type Stream = [u8; 32];

// A number below n, or now and then one that may be out of range.
pub fn near(seed: &mut u64, n: u32) -> u32 {
    if once_in(seed, 12) {
        return draw(seed, 300);
    }
    draw(seed, n)
}

// A word for a torn list: a small number, "none", no transition, or a transition.
pub fn any_word(seed: &mut u64) -> u32 {
    let k = draw(seed, 5);
    match k {
        0 => draw(seed, 3),
        1 => draw(seed, 70),
        2 => 65535,
        3 => 4294967295,
        _ => 65536 * (draw(seed, 32) % 256) + draw(seed, 99) % 65536,
    }
}

// An opcode: most often one that adds, refines or sets a transition; now and then any number to 0x1C.
fn any_opcode(seed: &mut u64) -> u32 {
    let k = draw(seed, 64);
    match k {
        0..=18 => 0x11,
        19..=24 => 0x12,
        25..=26 => 0x13,
        27..=46 => 0x14,
        47..=48 => 0x15,
        49..=50 => 0x16,
        51 => 0x17,
        52 => 0x18,
        53..=57 => 0x1A,
        58..=61 => 0x1B,
        _ => draw(seed, 29),
    }
}

// Writes a random command. Node n goes into machine n % 4, so that many of them are taken.
fn put_command(seed: &mut u64, stream: &mut Stream, at: usize) -> usize {
    let op = any_opcode(seed);
    let n = near(seed, 24);
    let other = draw(seed, 24);
    let x = near(seed, 5);
    let cost = draw(seed, 400);
    let a = put(stream, at, op);
    match op {
        0x10 | 0x11 | 0x17 => {
            let b = put(stream, a, n % 4);
            put_pair(stream, b, n)
        }
        0x12 => {
            let b = put_pair(stream, a, n);
            let c = put(stream, b, other % 4);
            put_pair(stream, c, other)
        }
        0x13 | 0x16 => put_pair(stream, a, n),
        0x14 => {
            let b = put_pair(stream, a, n);
            let c = put(stream, b, x);
            let d = put_pair(stream, c, n % 4 + other / 4 * 4 % 256);
            put_pair(stream, d, cost)
        }
        0x15 => {
            let b = put_pair(stream, a, n);
            put(stream, b, x)
        }
        0x1A => {
            let b = put_pair(stream, a, n);
            put(stream, b, x % 2)
        }
        0x1B => {
            let b = put(stream, a, n % 4);
            put_pair(stream, b, cost)
        }
        _ => a,
    }
}

// Writes a stream of up to three commands, and gives its length; now and then it is a byte short.
pub fn make(seed: &mut u64, stream: &mut Stream) -> usize {
    let a = put_command(seed, stream, 0);
    if once_in(seed, 12) && a > 0 {
        return a - 1;
    }
    if once_in(seed, 2) {
        return a;
    }
    let b = put_command(seed, stream, a);
    put_command(seed, stream, b)
}

// Fills a list with random commands, some of them none.
pub fn fill(seed: &mut u64, list: &mut Stream) {
    for command in list.iter_mut() {
        *command = (near(seed, 5) % 256) as u8;
    }
}

// Writes its place into each word of a list.
pub fn number_words(list: &mut Book) {
    for i in 0..5057 {
        list[i as usize] = i;
    }
}

// Fills a list with random words.
pub fn fill_words(seed: &mut u64, list: &mut Book) {
    for word in list.iter_mut() {
        *word = any_word(seed);
    }
}
