// Refusals (documents 01 and 02): why a call is refused, by the documents' number.
#![tactic(auto)]

ghost use Rattle.std.specs.Prelude.{◌≡◌};
ghost use Rattle.refusals.specs.Meaning.{number_of};

// Why a call is refused, with the number that the documents give it.
#[derive(Clone, Copy, Debug, PartialEq, Eq)]
pub enum Refusal {
    WrongLength = 1,
    NotWellFormed = 2, // a book; or a table that no well-formed book comes of
    NotTrue = 3, // a sheet
    CutShort = 4,
    UnknownOpcode = 5,
    OutOfRange = 6,
    NotInUse = 7,
    InUse = 8,
    AlreadyRefined = 9,
    IsStart = 10,
    OtherMachine = 11,
    TooDeep = 12,
    Stale = 13,
    NotPlain = 14,
    NoRoom = 15,
    NoWay = 16,
    Stops = 17, // the station
    NoArrival = 18, // of either list
    TooFewLeft = 19, // unused numbers, for a merge
    BadTiming = 20,
    StartHeld = 21,
    PastLimit = 22,
    LimitTooLarge = 23, // or too many walkers, or too many inside
    BadDepth = 24,
}

impl Refusal {
    // The documents' number.
    pub fn number(self) -> u32
        ensures { result ≡ number_of self }
    {
        self as u32
    }
}
