// A reading of a stream (document 01, "Loading a stream"): its bytes and how many of them are taken. The struct is made and taken apart here;
// every other caller uses `command_at`, whose parameters are plain.
#![tactic(auto)]

ghost use Rattle.std.specs.Prelude.{◌≡◌};
ghost use Rattle.reading.specs.Meaning.{NextRead};

use reading::Taken;
use refusals::Refusal;

// A stream's bytes, and how many of them are taken.
#[derive(Drop)]
pub struct Reader<'a> {
    pub bytes: &'a [u8],
    pub taken: usize,
}

// The reading of a stream of which so many bytes are taken.
pub fn new<'a>(bytes: &'a [u8], taken: usize) -> Reader<'a>
    ensures { (result.bytes ≡ bytes.entry) × (result.taken ≡ taken) }
{
    Reader { bytes, taken }
}

// The next command of a reading.
pub fn next<'a>(r: Reader<'a>) -> Result<Option<Taken>, Refusal>
    ensures { NextRead r.entry.bytes.now r.entry.taken result }
{
    reading::command_at(r.bytes, r.taken)
}

// The next command of a stream of which so many bytes are taken, as it is written: its end, a command and its size, or the refusal
// 5 (unknown opcode) or 4 (cut short).
pub fn command_at(stream: &[u8], taken: usize) -> Result<Option<Taken>, Refusal>
    ensures { NextRead stream.now taken result }
{
    next(new(stream, taken))
}
