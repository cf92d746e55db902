// The whole of demand 3 as one call: a holding is opened, loaded stream by stream, refreshed, and asked for a plan.
#![tactic(auto)]

ghost use Rattle.std.specs.Prelude.{◌≡◌, [], ◌∷◌, length};
ghost use Rattle.definitions.specs.Calls.{OpenSays};
ghost use Rattle.definitions.specs.Basics.{as_it_is};
ghost use Rattle.definitions.specs.Demand.{Loads, refresh_alone};
ghost use Rattle.book.specs.Decides.{Decides};
ghost use Rattle.refusals.specs.Meaning.{status_of};
ghost use Rattle.wholerun.specs.Ends.{Rising, streams_of};
ghost use Rattle.wholerun.specs.Meaning.{opening_of, run_of};
ghost use Rattle.wholerun.specs.WholeRun.{PreparedSays, RunSays};

use planning::Planned;
use refusals::Refusal;

// The ways to open a holding; the rows of a table are lent beside it.
#[derive(Drop)]
pub enum Opening {
    Fresh,
    Ladder,
    Table,
}

// Why a whole run does not come to Plan: the plan buffer has a wrong length, the ends are malformed, or the opening is refused.
#[derive(Clone, Copy, Debug, PartialEq, Eq)]
pub enum RunError {
    Refused(Refusal),
    MalformedEnds,
}

// The bytes that Plan is lent.
pub const BUFFER: usize = 255;

// Whether the ends of streams rise from 0 to the number of their bytes.
fn well_ended(ends: &[usize], total: usize) -> bool
    ensures { Decides result (Rising 0 ends.now total) }
{
    let mut last = 0usize;
    for &end in ends {
        if end < last {
            return false;
        }
        last = end;
    }
    last == total
}

// Opens a holding.
fn open(opening: Opening, rows: &[u32], book: &mut [u32], sheet: &mut [u32]) -> Result<(), Refusal>
    ensures { OpenSays (opening_of opening rows.now) book.old sheet.old (status_of result) book.new sheet.new }
{
    match opening {
        Opening::Fresh => opening::open_fresh(book, sheet),
        Opening::Ladder => opening::open_ladder(book, sheet),
        Opening::Table => ladders::open_table(rows, book, sheet),
    }
}

// Does a Load for each stream, each on what the one before left.
fn load_all(book: &mut [u32], sheet: &mut [u32], bytes: &[u8], ends: &[usize])
    requires { Rising 0 ends.now (length bytes.now) }
    ensures { Loads as_it_is book.old sheet.old (streams_of 0 ends.now bytes.now) book.new sheet.new }
{
    let mut from = 0usize;
    for &to in ends {
        loading::load(book, sheet, &bytes[from..to]);
        from = to;
    }
}

// Does a Load of a refresh alone.
fn refresh(book: &mut [u32], sheet: &mut [u32])
    ensures { Loads as_it_is book.old sheet.old (refresh_alone ∷ []) book.new sheet.new }
{
    loading::load(book, sheet, &[0x18]);
}

// Opens a holding, loads it stream by stream and refreshes it; or refuses what the opening does, with nothing written.
fn prepare(
    opening: Opening,
    rows: &[u32],
    book: &mut [u32],
    sheet: &mut [u32],
    bytes: &[u8],
    ends: &[usize],
) -> Result<(), Refusal>
    requires { Rising 0 ends.now (length bytes.now) }
    ensures { PreparedSays (opening_of opening rows.now) (streams_of 0 ends.now bytes.now)
        book.old sheet.old (status_of result) book.new sheet.new }
{
    open(opening, rows, book, sheet)?;
    load_all(book, sheet, bytes, ends);
    refresh(book, sheet);
    Ok(())
}

// The whole run: opens a holding, does a Load for each of the streams that the ends cut the bytes into and one for a refresh alone, and asks
// Plan from a to b, with 255 bytes. It refuses 1 (a buffer of another length), 99 (malformed ends) and then what the opening refuses, with nothing
// changed; else it ran, and answers what Plan answers, a refusal of Plan's included. Only an opening from a table looks at the rows.
pub fn whole_run(
    opening: Opening,
    rows: &[u32],
    book: &mut [u32],
    sheet: &mut [u32],
    bytes: &[u8],
    ends: &[usize],
    a: u32,
    b: u32,
    buffer: &mut [u8],
) -> Result<Result<Planned, Refusal>, RunError>
    ensures { RunSays (opening_of opening rows.now) book.old sheet.old bytes.now ends.now a b buffer.old
        (run_of result) book.new sheet.new buffer.new }
{
    if buffer.len() != BUFFER {
        return Err(RunError::Refused(Refusal::WrongLength));
    }
    if !well_ended(ends, bytes.len()) {
        return Err(RunError::MalformedEnds);
    }
    if let Err(why) = prepare(opening, rows, book, sheet, bytes, ends) {
        return Err(RunError::Refused(why));
    }
    Ok(planning::plan(book, sheet, a, b, buffer))
}
