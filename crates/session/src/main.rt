// The session program (document 01, "Writing, choosing, the session"): up to 65,536 bytes of standard input, and their lines on standard output.
#![tactic(auto)]

// The descriptor of standard input.
const STDIN_FILENO: i32 = 0;

fn main() {
    let mut input = io::large_buffer();
    let n = io::read_full(STDIN_FILENO, &mut input);
    let mut book = [0u32; book::BOOK];
    let mut sheet = [0u32; sheet::SHEET];
    printing::print_session(&mut book, &mut sheet, &input[..n]);
}
