// Sessions on stored inputs, run: each kind of line that a session prints, and whether it goes on after it.
#![tactic(auto)]

use trying::{MAST, text};

// Writes a text, then the lines of a session on an input.
fn show(t: &[u8], input: &[u8]) {
    text(t);
    text(b"\n");
    let mut book = [0u32; book::BOOK];
    let mut sheet = [0u32; sheet::SHEET];
    printing::print_session(&mut book, &mut sheet, input);
}

// Stores bytes from a place on, as far as there is room; the next place.
fn put(list: &mut [u8], at: usize, bytes: &[u8]) -> usize {
    for (place, byte) in list.iter_mut().skip(at).zip(bytes) {
        *place = *byte;
    }
    list.len().min(at.saturating_add(bytes.len()))
}

// The same as show, for the mast book and bytes after it.
fn show_mast(t: &[u8], list: &mut [u8], bytes: &[u8]) {
    let mast = put(list, 0, &MAST);
    let end = put(list, mast, bytes);
    if end <= list.len() {
        show(t, &list[..end]);
    }
}

// Arrows to the place 65,528. Their operands are all 0.
fn fill_long(list: &mut [u8]) {
    for opcode in list.iter_mut().take(65528).step_by(8) {
        *opcode = 0x14;
    }
}

// The session for an input over the limit: arrows, and behind them the last bytes that are read.
fn show_long(t: &[u8], last: &[u8; 8]) {
    let mut list = [0u8; 65600];
    fill_long(&mut list);
    put(&mut list, 65528, last);
    show(t, &list);
}

fn main() {
    let mut list = [0u8; 128];
    show(b"an empty input:", b"");
    show_mast(
        b"three plans:",
        &mut list,
        b"\x18\x19\x00\x00\x00\x02\x19\x00\x0B\x00\x0A\x19\x00\x00\x00\x00",
    );
    show_mast(
        b"a plan before the refresh, and one after it:",
        &mut list,
        b"\x19\x00\x00\x00\x02\x18\x19\x00\x00\x00\x02",
    );
    show_mast(
        b"node 256, a node not in use, a node not plain, and a plan:",
        &mut list,
        b"\x18\x19\x00\x00\x01\x00\x19\x00\x00\x00\x05\x19\x00\x01\x00\x00\x19\x00\x02\x00\x0B",
    );
    show_mast(
        b"no way:",
        &mut list,
        b"\x15\x00\x01\x01\x15\x00\x00\x02\x18\x19\x00\x00\x00\x02",
    );
    show(b"an unknown opcode at once:", b"\x00");
    show_mast(
        b"an opcode above a leaving charge's:",
        &mut list,
        b"\x18\x19\x00\x00\x00\x02\x1C\x00\x00\x00\x02",
    );
    show_mast(
        b"a hold, a plan round it, its release, and a hold on a start node:",
        &mut list,
        b"\x1A\x00\x0B\x01\x18\x19\x00\x00\x00\x02\x1A\x00\x0B\x00\x18\x19\x00\x00\x00\x02\x1A\x00\x00\x01",
    );
    show_mast(
        b"a charge, a plan round it, its end, and a charge of the root:",
        &mut list,
        b"\x1B\x01\x00\x09\x18\x19\x00\x00\x00\x02\x1B\x01\x00\x00\x18\x19\x00\x00\x00\x02\x1B\x00\x00\x01",
    );
    show_mast(b"a plan cut short:", &mut list, b"\x19\x00\x00\x00");
    show_mast(
        b"a plan, a refused command, and a plan not reached:",
        &mut list,
        b"\x18\x19\x00\x00\x00\x02\x13\x00\x0A\x19\x00\x00\x00\x02",
    );
    // A refresh, a plan, and at 65,534 a plan that the end of what is read cuts short.
    show_long(
        b"more than 65,536 bytes:",
        b"\x18\x19\x00\x00\x00\x00\x19\x00",
    );
    // The last byte that is read ends a plan, and the next would be an unknown opcode.
    show_long(
        b"a plan that ends with the 65,536th byte:",
        b"\x18\x18\x18\x19\x00\x00\x00\x00",
    );
}
