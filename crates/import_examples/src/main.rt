// Imports, run (document 02, W-203): timings around each place where the cost changes, both zeros, what is not finite, room to the byte, each
// refusal with the bytes lent for the output; and the bytes loaded into a book, where a step tells the transition.
#![tactic(auto)]

use importing::{Reading, Timing};
use refusals::Refusal;
use stepping::Moved;
use trying::{front, front_mut, number, numbers, say_no, status, text};

// A book and a sheet.
type Book = [u32; book::BOOK];

type Sheet = [u32; sheet::SHEET];

// Writes a text and a colon.
fn label(t: &[u8]) {
    text(t);
    text(b":");
}

// Writes every byte of a list, and ends the line.
fn show_bytes(list: &[u8]) {
    numbers(list);
    text(b"\n");
}

// Writes what the import answered: how many bytes it wrote, or `no` and the refusal.
fn show_answer(answer: Result<u32, Refusal>) {
    match answer {
        Ok(n) => number(n),
        Err(refusal) => say_no(refusal),
    }
}

// Imports a timing for node 1, command 1 and target 2 into so many bytes of a list, and writes the answer and the whole list.
fn import_front(t: &[u8], timing: Timing, out: &mut [u8], room: usize) {
    label(t);
    show_answer(importing::import(1, 1, 2, timing, front_mut(out, room)));
    show_bytes(out);
}

// The same for a reading and a dead time, with nine bytes that hold 7.
fn show(t: &[u8], reading: Reading, dead_time: f32, room: usize) {
    let mut out = [7u8; 9];
    import_front(t, Timing { reading, dead_time }, &mut out, room);
}

// Seconds taken and a dead time, with room for all bytes.
fn took(t: &[u8], seconds: f32, dead_time: f32) {
    show(t, Reading::Taken(seconds), dead_time, 9);
}

// A reading and a dead time of zero, with room for one byte, for a node, a command and a target.
fn show_for(t: &[u8], node: u32, command: u32, target: u32, reading: Reading) {
    let mut out = [7u8; 1];
    let timing = Timing {
        reading,
        dead_time: 0.0,
    };
    label(t);
    show_answer(importing::import(node, command, target, timing, &mut out));
    show_bytes(&out);
}

// The least whole number not below a difference that is rounded once.
fn costs() {
    took(b"5", 5.0, 0.0);
    took(b"5 and 1/2 less 1/4", 5.5, 0.25);
    took(b"5 less 1/4", 5.0, 0.25);
    took(
        b"the float after 5, less half of that step",
        5.00000047683716,
        0.00000023841858,
    );
    took(
        b"the float after 5, less a quarter of it",
        5.00000047683716,
        0.00000011920929,
    );
    took(b"5 less the smallest float", 5.0, 1.0e-45);
    took(b"equal", 0.25, 0.25);
    took(b"the smallest float", 1.0e-45, 0.0);
    took(b"minus zero", -0.0, 0.0);
    took(b"zero less minus zero", 0.0, -0.0);
    took(b"65535", 65535.0, 0.0);
    took(b"65535 and 1/256 less 1/512", 65535.00390625, 0.001953125);
    took(b"65536 less 1", 65536.0, 1.0);
}

// Timings that give no cost. What is not finite is made by dividing by the zero that is lent.
fn refused(zero: f32) {
    took(b"65535 and 1/256", 65535.00390625, 0.0);
    took(b"1/4 less 1/2", 0.25, 0.5);
    took(b"below zero by the smallest float", -1.0e-45, 0.0);
    took(b"a dead time below zero", 5.0, -0.25);
    took(b"infinite", 1.0 / zero, 0.0);
    took(b"an infinite dead time", 5.0, 1.0 / zero);
    took(b"infinite less infinite", 1.0 / zero, 1.0 / zero);
    took(b"no number", zero / zero, 0.0);
    took(b"a dead time that is no number", 5.0, zero / zero);
}

// Waits are not judged; room to the byte; 6 before 20 before 15, also for a wait.
fn rooms(zero: f32) {
    let none = zero / zero;
    show(b"a wait", Reading::Waited(60.0), 0.25, 9);
    show(
        b"a wait of no number",
        Reading::Waited(none),
        -1.0 / zero,
        9,
    );
    show(b"4 bytes for a wait", Reading::Waited(60.0), 0.25, 4);
    show(b"3 bytes for a wait", Reading::Waited(60.0), 0.25, 3);
    show(b"8 bytes", Reading::Taken(5.0), 0.0, 8);
    show(b"7 bytes", Reading::Taken(5.0), 0.0, 7);
    show_for(b"numbers in range", 255, 15, 255, Reading::Taken(none));
    show_for(b"node 256", 256, 15, 255, Reading::Taken(none));
    show_for(b"command 16", 255, 16, 255, Reading::Taken(none));
    show_for(b"target 256", 255, 15, 256, Reading::Taken(none));
    show_for(
        b"target 256 for a wait",
        255,
        15,
        256,
        Reading::Waited(none),
    );
}

// Imports a reading for node 1, command 1 and target 2, loads the bytes, and writes what the load took and the step of 11 by 1.
fn load_timing(t: &[u8], book: &mut Book, sheet: &mut Sheet, reading: Reading) {
    let mut out = [0u8; 8];
    let timing = Timing {
        reading,
        dead_time: 0.25,
    };
    label(t);
    match importing::import(1, 1, 2, timing, &mut out) {
        Ok(n) => show_loaded(book, sheet, &out, n as usize),
        Err(refusal) => number(refusal.number()),
    }
    show_step(stepping::step(book, 11, 1));
    text(b"\n");
}

// Writes what a step answered: state, cost and node, or `no` and the refusal.
fn show_step(answer: Result<Moved, Refusal>) {
    match answer {
        Ok(Moved { state, cost, node }) => {
            number(state);
            number(cost);
            number(node);
        }
        Err(refusal) => say_no(refusal),
    }
}

// Loads the front of a stream and writes the bytes taken, the commands taken and the number of the refusal, or 0.
fn show_loaded(book: &mut Book, sheet: &mut Sheet, stream: &[u8], count: usize) {
    let answer = loading::load(book, sheet, front(stream, count));
    number(answer.bytes as u64);
    number(answer.commands as u64);
    number(status(answer.refusal));
}

// The mast book's machines and nodes, with the transition of 1 for 1 imported, imported anew, and waited for without an end.
fn loads() {
    let mut book = [0u32; book::BOOK];
    let mut sheet = [0u32; sheet::SHEET];
    let _ = opening::open_fresh(&mut book, &mut sheet);
    loading::load(
        &mut book,
        &mut sheet,
        b"\x11\x00\x00\x01\x11\x00\x00\x02\x12\x00\x01\x01\x00\x0A\x11\x01\x00\x0B",
    );
    load_timing(
        b"8 and 1/2 seconds loaded",
        &mut book,
        &mut sheet,
        Reading::Taken(8.5),
    );
    load_timing(
        b"3 and 1/4 seconds loaded",
        &mut book,
        &mut sheet,
        Reading::Taken(3.25),
    );
    load_timing(
        b"a wait loaded",
        &mut book,
        &mut sheet,
        Reading::Waited(60.0),
    );
}

fn main() {
    costs();
    refused(0.0);
    rooms(0.0);
    loads();
}
