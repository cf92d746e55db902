// What is written on standard output.
ghost use Rattle.std.specs.Prelude.{◌≡◌, MatchOption};
ghost use Rattle.refusals.specs.Meaning.{number_of};

use refusals::Refusal;

// The descriptor of standard output.
const STDOUT_FILENO: i32 = 1;

// Writes a text.
pub fn text(t: &[u8]) {
    io::write_all(STDOUT_FILENO, t);
}

// Writes a number.
pub fn decimal<N: Into<u64>>(n: N) {
    io::print_decimal(STDOUT_FILENO, n.into());
}

// Writes a space and a number.
pub fn number<N: Into<u64>>(n: N) {
    text(b" ");
    decimal(n);
}

// Writes a text, a space and a number.
pub fn say<N: Into<u64>>(t: &[u8], n: N) {
    text(t);
    number(n);
}

// Writes how often each number came, where it came at all; the counts are at their numbers.
pub fn say_counts(counts: &[u64]) {
    for (n, count) in counts.iter().enumerate() {
        if *count != 0 {
            number(n as u64);
            text(b":");
            decimal(*count);
        }
    }
}

// Writes `no` and the number of a refusal.
pub fn say_no(refusal: Refusal) {
    say(b" no", refusal.number());
}

// The number of a refusal; 0 where there is none.
pub fn status(refusal: Option<Refusal>) -> u32
    ensures { MatchOption refusal (result ≡ 0) (λ r. result ≡ number_of r) }
{
    refusal.map_or(0, |refusal| refusal.number())
}

// Writes the numbers of a list, each after a space.
pub fn numbers<N: Copy + Into<u64>>(list: &[N]) {
    for n in list {
        number(*n);
    }
}

// Writes a text and the words of a list from one place up to another, and ends the line.
pub fn show_words(t: &[u8], list: &[u32], at: usize, end: usize) {
    text(t);
    for word in list.iter().take(end).skip(at) {
        number(*word);
    }
    text(b"\n");
}
