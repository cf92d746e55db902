// The next command of a stream (document 01, "Loading a stream"). A stream is its bytes and how many of them are taken.
#![tactic(auto)]

ghost use Rattle.std.specs.Prelude.{◌≡◌, ◌+◌, ◌<◌, length, drop};
ghost use Rattle.definitions.specs.Stream.{operand_length, byte_at, pair_at, decode};
ghost use Rattle.reading.specs.Column.{place, entry};
ghost use Rattle.refusals.specs.Meaning.{value_of};
ghost use Rattle.reading.specs.Meaning.{decoded_of, NarrowDecoded, Whole, NextRead};

use refusals::Refusal;

// The eleven commands of a stream, with their operands.
#[derive(Clone, Copy, Debug, PartialEq, Eq)]
pub enum Command {
    Begin {
        machine: u32,
        node: u32,
    },
    Add {
        machine: u32,
        node: u32,
    },
    Refine {
        node: u32,
        machine: u32,
        first: u32,
    },
    Remove {
        node: u32,
    },
    Arrow {
        node: u32,
        command: u32,
        target: u32,
        cost: u32,
    },
    Clear {
        node: u32,
        command: u32,
    },
    Start {
        node: u32,
    },
    Crown {
        machine: u32,
        node: u32,
    },
    Refresh,
    Hold {
        node: u32,
        hold: u32,
    },
    Leave {
        machine: u32,
        cost: u32,
    },
}

// The column of operand lengths: how many bytes of operands each opcode of document 01's list has, in the order of that list, and then those
// of document 02. Nodes and costs take two bytes, machines, commands and holds one.
const LENGTHS: [u8; 11] = [
    3, // 0x10 begin: machine, start node
    3, // 0x11 add: machine, new node
    5, // 0x12 refine: node, new machine, its new start node
    2, // 0x13 remove: node
    7, // 0x14 arrow: node, command, target, cost
    3, // 0x15 clear: node, command
    2, // 0x16 start: node
    3, // 0x17 crown: new root machine, its one node
    0, // 0x18 refresh
    3, // 0x1A hold: node, 1 or 0
    3, // 0x1B leave: machine, cost
];

// A command that stands next in a stream, and how many bytes it takes.
#[derive(Clone, Copy, Debug, PartialEq, Eq)]
pub struct Taken {
    pub command: Command,
    pub size: usize,
}

// The byte at place i of a stream.
fn byte(stream: &[u8], i: usize) -> u32
    requires { i < length stream.now }
    ensures { (result ≡ byte_at stream.now i) × (result < 256) }
{
    let x = stream[i];
    x as u32
}

// The operand of one byte at place k of the operands of the command at a place of a stream.
fn operand(stream: &[u8], at: usize, k: usize) -> u32
    requires { at + 1 + k < length stream.now }
    ensures { (result ≡ byte_at (drop (at + 1) stream.now) k) × (result < 256) }
{
    byte(stream, at + 1 + k)
}

// The operand of two bytes, high byte first, from place k.
pub fn operand_pair(stream: &[u8], at: usize, k: usize) -> u32
    requires { at + 2 + k < length stream.now }
    ensures { (result ≡ pair_at (drop (at + 1) stream.now) k) × (result < 65536) }
{
    let high = operand(stream, at, k);
    let low = operand(stream, at, k + 1);
    high * 256 + low
}

// The place of an opcode in a column, which may end before it: 0x10 has the first. 0x19, the session's plan, is no command of a stream and has
// none.
fn locate(op: u32) -> Option<usize>
    ensures { value_of result ≡ place op }
{
    match op {
        0x10..=0x18 => Some((op - 0x10) as usize),
        0x1A..=0xFFFFFFFF => Some((op - 0x11) as usize),
        0x00..=0x0F | 0x19 => None,
    }
}

// The number that a column has for an opcode. An opcode that has no place in the column is unknown.
fn look_up(column: &[u8], op: u32) -> Option<usize>
    ensures { value_of result ≡ entry column.now op }
{
    let size = *column.get(locate(op)?)?; // none behind the column's end
    Some(size as usize)
}

// How many bytes of operands follow an opcode, where it is that of a command.
fn operand_length(op: u32) -> Option<usize>
    ensures { value_of result ≡ operand_length op }
{
    look_up(&LENGTHS, op)
}

// The command whose opcode, at a place of a stream, is op, if there is one. Where the opcode is known its operands are all there.
fn decode(stream: &[u8], at: usize, op: u32) -> Option<Command>
    requires { Whole stream.now at op }
    ensures { (decoded_of result ≡ decode op (drop (at + 1) stream.now)) × NarrowDecoded result }
{
    match op {
        0x10 => Some(Command::Begin {
            machine: operand(stream, at, 0),
            node: operand_pair(stream, at, 1),
        }),
        0x11 => Some(Command::Add {
            machine: operand(stream, at, 0),
            node: operand_pair(stream, at, 1),
        }),
        0x12 => Some(Command::Refine {
            node: operand_pair(stream, at, 0),
            machine: operand(stream, at, 2),
            first: operand_pair(stream, at, 3),
        }),
        0x13 => Some(Command::Remove {
            node: operand_pair(stream, at, 0),
        }),
        0x14 => Some(Command::Arrow {
            node: operand_pair(stream, at, 0),
            command: operand(stream, at, 2),
            target: operand_pair(stream, at, 3),
            cost: operand_pair(stream, at, 5),
        }),
        0x15 => Some(Command::Clear {
            node: operand_pair(stream, at, 0),
            command: operand(stream, at, 2),
        }),
        0x16 => Some(Command::Start {
            node: operand_pair(stream, at, 0),
        }),
        0x17 => Some(Command::Crown {
            machine: operand(stream, at, 0),
            node: operand_pair(stream, at, 1),
        }),
        0x18 => Some(Command::Refresh),
        0x1A => Some(Command::Hold {
            node: operand_pair(stream, at, 0),
            hold: operand(stream, at, 2),
        }),
        0x1B => Some(Command::Leave {
            machine: operand(stream, at, 0),
            cost: operand_pair(stream, at, 1),
        }),
        0x00..=0x0F | 0x19 | 0x1C..=0xFFFFFFFF => None,
    }
}

// The next command of a stream of which so many bytes are taken, as it is written: its end, a command and its size, or the refusal
// 5 (unknown opcode) or 4 (cut short).
pub fn command_at(stream: &[u8], taken: usize) -> Result<Option<Taken>, Refusal>
    ensures { NextRead stream.now taken result }
{
    if stream.len() <= taken {
        return Ok(None);
    }
    let op = byte(stream, taken);
    let size = operand_length(op).ok_or(Refusal::UnknownOpcode)?;
    if stream.len() - taken <= size {
        return Err(Refusal::CutShort);
    }
    // An opcode that has operands has a command, so this refuses none.
    let command = decode(stream, taken, op).ok_or(Refusal::UnknownOpcode)?;
    let size = 1 + size;
    Ok(Some(Taken { command, size }))
}
