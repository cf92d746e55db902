// Exit (document 01, "Exit, step and plan"): the exit cost of a machine for a command, read off a true sheet.
#![tactic(auto)]

ghost use Rattle.definitions.specs.Calls.{ExitSays};
ghost use Rattle.exiting.specs.Meaning.{answer_of};

use refusals::Refusal;

// Exit: the exit cost of a machine for a command. It reads book and sheet, changes neither, and trusts no earlier call. It refuses
// 1 (a wrong length), 2 (book not well formed), 3 (sheet not true), 6 (number out of range), 7 (machine not in use), 13 (that
// machine stale, whatever others are), 16 (no way).
pub fn exit(book: &[u32], sheet: &[u32], machine: u32, command: u32) -> Result<u32, Refusal>
    ensures { ExitSays book.now sheet.now machine command (answer_of result) }
{
    truesheet::judge(book, sheet)?;
    if book::MACHINES <= machine {
        return Err(Refusal::OutOfRange);
    }
    if book::COMMANDS <= command {
        return Err(Refusal::OutOfRange);
    }
    if book::start(book, machine) == book::ABSENT {
        return Err(Refusal::NotInUse);
    }
    if sheet::stale(sheet, machine) == 1 {
        return Err(Refusal::Stale);
    }
    let cost = sheet::exit(sheet, machine, command);
    if cost == book::BLANK {
        return Err(Refusal::NoWay);
    }
    Ok(cost)
}
