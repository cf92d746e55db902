// Load (document 01, "Loading a stream"): a stream's commands are read, judged and done one after another, up to its end or the first that is
// refused.
#![tactic(auto)]

ghost use Rattle.std.specs.Prelude.{◌≡◌, drop};
ghost use Rattle.definitions.specs.Book.{tree_of, WellFormed};
ghost use Rattle.definitions.specs.Sheet.{rows_of};
ghost use Rattle.definitions.specs.Truth.{TrueSheet};
ghost use Rattle.definitions.specs.Load.{load};
ghost use Rattle.definitions.specs.Calls.{LoadDone, LoadSays};
ghost use Rattle.reading.specs.Meaning.{command_of};
ghost use Rattle.loading.specs.Loading.{Asked, Done, Turned, answer_of};

use reading::{Command, Taken};
use refusals::Refusal;

// Load's answer: bytes taken, commands taken, and the refusal, if there is one.
#[derive(Clone, Copy, Debug, PartialEq, Eq)]
pub struct Loaded {
    pub bytes: usize,
    pub commands: usize,
    pub refusal: Option<Refusal>,
}

// Does a command that is not refused.
fn do_command(book: &mut [u32], sheet: &mut [u32], command: Command)
    requires { Asked book.old sheet.old command }
    ensures { Done book.old sheet.old (command_of command) book.new sheet.new }
{
    match command {
        Command::Begin { machine, node } => beginning::do_begin(book, sheet, machine, node),
        Command::Add { machine, node } => editing::do_add(book, sheet, machine, node),
        Command::Refine {
            node,
            machine,
            first,
        } => editing::do_refine(book, sheet, node, machine, first),
        Command::Remove { node } => removing::do_remove(book, sheet, node),
        Command::Arrow {
            node,
            command,
            target,
            cost,
        } => editing::do_arrow(book, sheet, node, command, target, cost),
        Command::Clear { node, command } => editing::do_clear(book, sheet, node, command),
        Command::Start { node } => editing::do_start(book, sheet, node),
        Command::Crown { machine, node } => editing::do_crown(book, sheet, machine, node),
        Command::Refresh => refreshing::refresh(book, sheet),
        Command::Hold { node, hold } => editing::do_hold(book, sheet, node, hold),
        Command::Leave { machine, cost } => editing::do_leave(book, sheet, machine, cost),
    }
}

// Does the next command of a stream of which so many bytes are taken, and gives how many bytes it took. Where there is none, or it is refused,
// nothing changes.
pub fn take_next(
    book: &mut [u32],
    sheet: &mut [u32],
    stream: &[u8],
    taken: usize,
) -> Result<Option<usize>, Refusal>
    requires { WellFormed book.old × TrueSheet (tree_of book.old) sheet.old }
    ensures { Turned book.old sheet.old (drop taken stream.now) result book.new sheet.new }
{
    let Some(Taken { command, size }) = reader::command_at(stream, taken)? else {
        return Ok(None);
    };
    judging::judge(book, command)?;
    do_command(book, sheet, command);
    Ok(Some(size))
}

// Does a stream's commands up to its end or the first that is refused.
fn run_stream(book: &mut [u32], sheet: &mut [u32], stream: &[u8]) -> Loaded
    requires { WellFormed book.old × TrueSheet (tree_of book.old) sheet.old }
    ensures { LoadDone (tree_of book.old) (rows_of sheet.old) (load (tree_of book.old) stream.now)
        (answer_of result) book.new sheet.new }
{
    let mut taken = 0usize;
    let mut count = 0usize;
    // No index is counted: each turn goes on by what its command takes.
    loop {
        match take_next(book, sheet, stream, taken) {
            Ok(Some(size)) => {
                taken += size;
                count += 1;
            }
            Ok(None) => {
                return Loaded {
                    bytes: taken,
                    commands: count,
                    refusal: None,
                };
            }
            Err(refusal) => {
                return Loaded {
                    bytes: taken,
                    commands: count,
                    refusal: Some(refusal),
                };
            }
        }
    }
}

// Load: does the commands of a stream on a book and its sheet, up to the stream's end or the first command that is refused, and answers how
// many bytes and commands were taken, and the refusal, if there is one. It refuses 1 (a wrong length), 2 (book not well formed) and 3 (sheet
// not true) with nothing done; then at a command 4 to 12 or 21, with the commands before it done and nothing of it.
pub fn load(book: &mut [u32], sheet: &mut [u32], stream: &[u8]) -> Loaded
    ensures { LoadSays book.old sheet.old stream.now (answer_of result) book.new sheet.new }
{
    match truesheet::judge(book, sheet) {
        Ok(()) => run_stream(book, sheet, stream),
        Err(refusal) => Loaded {
            bytes: 0,
            commands: 0,
            refusal: Some(refusal),
        },
    }
}
