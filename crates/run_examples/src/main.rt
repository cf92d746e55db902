// The whole run of demand 3, run: openings and lists of streams, refused commands among them, with the plan after them; and each refusal. The
// rows of a table (document 02, W-208) are three words each: owner, machine below, and 1 for a start.
#![tactic(auto)]

ghost use Rattle.std.specs.Prelude.{◌<◌};

use planning::Planned;
use refusals::Refusal;
use trying::{front, number, numbers, say, say_no, text};
use wholerun::{Opening, RunError};

// Writes Plan's answer: cost, count and commands, or `no` and the refusal.
fn show_plan(answer: Result<Planned, Refusal>, buffer: &[u8]) {
    match answer {
        Ok(Planned { cost, count }) => {
            number(cost);
            number(count);
            numbers(front(buffer, count as usize));
        }
        Err(refusal) => say_no(refusal),
    }
}

// The number of what keeps a run from Plan: a refusal's, or 99 for malformed ends, which no refusal has.
fn error_number(error: RunError) -> u32 {
    match error {
        RunError::Refused(refusal) => refusal.number(),
        RunError::MalformedEnds => 99,
    }
}

// Writes the whole run's answer: Plan's, or `refused` and the number.
fn show(t: &[u8], answer: Result<Result<Planned, Refusal>, RunError>, buffer: &[u8]) {
    text(t);
    match answer {
        Ok(plan) => show_plan(plan, buffer),
        Err(error) => say(b" refused", error_number(error)),
    }
    text(b"\n");
}

// Runs streams on an opening, which looks at the rows where it is from a table, and writes the answer.
fn run_rows(
    t: &[u8],
    opening: Opening,
    rows: &[u32],
    bytes: &[u8],
    ends: &[usize],
    a: u32,
    b: u32,
) {
    let mut book = [0u32; book::BOOK];
    let mut sheet = [0u32; sheet::SHEET];
    let mut buffer = [0u8; 255];
    let answer = wholerun::whole_run(
        opening,
        rows,
        &mut book,
        &mut sheet,
        bytes,
        ends,
        a,
        b,
        &mut buffer,
    );
    show(t, answer, &buffer);
}

// The same on an opening without a table.
fn run(t: &[u8], opening: Opening, bytes: &[u8], ends: &[usize], a: u32, b: u32) {
    run_rows(t, opening, &[], bytes, ends, a, b);
}

// A table with gaps: machine 5, the root, has the nodes 1, 3 and 6 and starts at 1; node 3 holds machine 9, with 2 and 5, which starts at 5.
const GAPS: [u32; 21] = [
    65535, // node 0
    65535, 0, 5, // node 1
    65535, 1, 9, // node 2
    65535, 0, 5, // node 3
    9, 0, 65535, // node 4
    65535, 0, 9, // node 5
    65535, 1, 5, // node 6
    65535, 0,
];

// Streams on that table.
fn run_gaps(t: &[u8], bytes: &[u8], ends: &[usize], a: u32, b: u32) {
    run_rows(t, Opening::Table, &GAPS, bytes, ends, a, b);
}

// The mast book in one stream, then one in which a command is refused and the rest is skipped, then one that is taken.
fn mast(t: &[u8], a: u32, b: u32) {
    run(
        t,
        Opening::Fresh,
        b"\x10\x00\x00\x00\x11\x00\x00\x01\x11\x00\x00\x02\x12\x00\x01\x01\x00\x0A\x11\x01\x00\x0B\x14\x00\x00\x00\x00\x01\x00\x05\x14\x00\x00\x02\x00\x02\x00\x14\x14\x00\x01\x01\x00\x02\x00\x03\x14\x00\x02\x00\x00\x00\x00\x07\x14\x00\x0A\x01\x00\x0A\x00\x01\x14\x00\x0A\x02\x00\x0B\x00\x04\x13\x00\x0A\x15\x00\x01\x01\x15\x00\x0A\x01",
        &[70, 77, 81],
        a,
        b,
    );
}

// Writes the first words of the three lists of a run that was refused.
fn show_lists(book: u32, sheet: u32, buffer: u8) {
    text(b"untouched:");
    number(book);
    number(sheet);
    number(buffer);
    text(b"\n");
}

// Runs that are refused before the plan's states are looked at, on a sheet and a plan buffer of these lengths; the three lists stay as they were.
fn run_refused<const SHEET: usize, const BUFFER: usize>(
    t: &[u8],
    opening: Opening,
    rows: &[u32],
    bytes: &[u8],
    ends: &[usize],
    a: u32,
)
    requires sheet { (0 < SHEET) × (SHEET < 65536) }
    requires buffer { (0 < BUFFER) × (BUFFER < 65536) }
{
    let mut book = [7u32; book::BOOK];
    let mut sheet = [7u32; SHEET];
    let mut buffer = [7u8; BUFFER];
    let answer = wholerun::whole_run(
        opening,
        rows,
        &mut book,
        &mut sheet,
        bytes,
        ends,
        a,
        0,
        &mut buffer,
    );
    show(t, answer, &buffer);
    show_lists(book[0], sheet[0], buffer[0]);
}

// The lengths of a sheet, of one with a word too many, and of a plan buffer.
const SHEET: usize = sheet::SHEET;

const LONG: usize = sheet::SHEET + 1;

const BUFFER: usize = 255;

// A table that is refused.
fn refused_table(t: &[u8], rows: &[u32], bytes: &[u8], ends: &[usize]) {
    run_refused::<SHEET, BUFFER>(t, Opening::Table, rows, bytes, ends, 300);
}

// Runs on a table with gaps, and tables that do not open.
fn tables() {
    run_gaps(b"a table with gaps, 1 to 6:", b"", &[], 1, 6);
    run_gaps(b"6 to 2:", b"", &[], 6, 2);
    run_gaps(
        b"1 to 6 by a transition set, one into another machine being refused, and node 3's cleared:",
        b"\x14\x00\x01\x02\x00\x06\x00\x0A\x14\x00\x01\x01\x00\x02\x00\x01\x15\x00\x01\x02\x15\x00\x03\x01",
        &[20, 24],
        1,
        6,
    );
    run_gaps(b"an unused row:", b"", &[], 1, 4);
    refused_table(
        b"a machine with two starts:",
        &[0, 65535, 1, 0, 65535, 1],
        b"\x18",
        &[1],
    );
    refused_table(b"a row and a word:", &[0, 65535, 1, 0], b"\x18", &[1]);
    refused_table(
        b"malformed ends before it:",
        &[0, 65535, 1, 0],
        b"\x18",
        &[],
    );
}

fn main() {
    run(b"no stream:", Opening::Fresh, b"", &[], 0, 0);
    mast(b"0 to 2:", 0, 2);
    mast(b"2 to 11:", 2, 11);
    mast(b"a node that is out of range:", 300, 2);
    mast(b"a node that is not in use:", 0, 5);
    mast(b"a node that is not plain:", 1, 0);
    run(
        b"0 to 2 with node 11 held, a hold on a start node being refused:",
        Opening::Fresh,
        b"\x10\x00\x00\x00\x11\x00\x00\x01\x11\x00\x00\x02\x12\x00\x01\x01\x00\x0A\x11\x01\x00\x0B\x14\x00\x00\x00\x00\x01\x00\x05\x14\x00\x00\x02\x00\x02\x00\x14\x14\x00\x01\x01\x00\x02\x00\x03\x14\x00\x02\x00\x00\x00\x00\x07\x14\x00\x0A\x01\x00\x0A\x00\x01\x14\x00\x0A\x02\x00\x0B\x00\x04\x1A\x00\x0B\x01\x1A\x00\x00\x01\x1A\x00\x0B\x00",
        &[74, 82],
        0,
        2,
    );
    run(
        b"0 to 2 where leaving 1 costs 9, a charge of the root being refused:",
        Opening::Fresh,
        b"\x10\x00\x00\x00\x11\x00\x00\x01\x11\x00\x00\x02\x12\x00\x01\x01\x00\x0A\x11\x01\x00\x0B\x14\x00\x00\x00\x00\x01\x00\x05\x14\x00\x00\x02\x00\x02\x00\x14\x14\x00\x01\x01\x00\x02\x00\x03\x14\x00\x02\x00\x00\x00\x00\x07\x14\x00\x0A\x01\x00\x0A\x00\x01\x14\x00\x0A\x02\x00\x0B\x00\x04\x1B\x01\x00\x09\x1B\x00\x00\x01\x1B\x01\x00\x00",
        &[74, 82],
        0,
        2,
    );
    run(b"the ladder:", Opening::Ladder, b"", &[], 94, 187);
    run(
        b"the ladder with command 1 of its start cleared:",
        Opening::Ladder,
        b"\x15\x00\x01\x01",
        &[4],
        1,
        7,
    );
    run(
        b"ends that fall:",
        Opening::Fresh,
        b"\x18\x18",
        &[2, 1],
        0,
        0,
    );
    run(
        b"a last end before the last byte:",
        Opening::Fresh,
        b"\x18\x18",
        &[1],
        0,
        0,
    );
    run_refused::<LONG, BUFFER>(b"a long sheet:", Opening::Fresh, &[], b"", &[], 0);
    run_refused::<SHEET, 254>(b"a short buffer:", Opening::Fresh, &[], b"", &[], 0);
    tables();
}
