// The shapes of the random books.

// How a book is opened: fresh, as the ladder, or from a random table.
#[derive(Clone, Copy, PartialEq, Eq)]
pub enum Opening {
    Fresh,
    Ladder,
    Table,
}

// What the books of a shape are like.
#[derive(Clone, Copy)]
pub struct Shape {
    // A book is opened so, and built on that.
    pub opening: Opening,
    // The largest cost.
    pub largest: u32,
    // Of eight costs, so many are 0.
    pub zeros: u32,
    // So many commands are in use.
    pub symbols: u32,
    // So many books, each built by a stream and edited by so many others of so many commands.
    pub books: u32,
    pub streams: u32,
    pub commands: u32,
    // About so many states are planned from after each stream; all where there are no more.
    pub sources: u32,
    // A book is built by so many nodes in the root,
    pub wide: u32,
    // so many nodes refined at the lowest level,
    pub deep: u32,
    // so many refined anywhere,
    pub refined: u32,
    // so many nodes anywhere,
    pub more: u32,
    // so many transitions,
    pub arrows: u32,
    // so many from refined nodes to themselves,
    pub selves: u32,
    // half of the time, so many holds, and, half of the time, as many leaving charges.
    pub holds: u32,
    // Whether begin is among the random commands.
    pub churn: bool,
}

// Eight levels.
pub const DEEP_BOOKS: Shape = Shape {
    opening: Opening::Fresh,
    largest: 65535,
    zeros: 2,
    symbols: 8,
    books: 10,
    streams: 2,
    commands: 14,
    sources: 64,
    wide: 1,
    deep: 7,
    refined: 0,
    more: 14,
    arrows: 80,
    selves: 8,
    holds: 8,
    churn: false,
};

// Nearly all nodes in one machine.
pub const WIDE_BOOKS: Shape = Shape {
    opening: Opening::Fresh,
    largest: 65535,
    zeros: 0,
    symbols: 16,
    books: 4,
    streams: 2,
    commands: 12,
    sources: 2,
    wide: 253,
    deep: 0,
    refined: 0,
    more: 0,
    arrows: 700,
    selves: 0,
    holds: 24,
    churn: false,
};

// Most costs 0.
pub const ZERO_BOOKS: Shape = Shape {
    opening: Opening::Fresh,
    largest: 3,
    zeros: 7,
    symbols: 8,
    books: 9,
    streams: 2,
    commands: 14,
    sources: 64,
    wide: 4,
    deep: 3,
    refined: 3,
    more: 12,
    arrows: 90,
    selves: 6,
    holds: 9,
    churn: false,
};

// Few transitions, so that much is not reached.
pub const SPARSE_BOOKS: Shape = Shape {
    opening: Opening::Fresh,
    largest: 99,
    zeros: 1,
    symbols: 16,
    books: 6,
    streams: 2,
    commands: 14,
    sources: 64,
    wide: 6,
    deep: 2,
    refined: 4,
    more: 14,
    arrows: 34,
    selves: 3,
    holds: 8,
    churn: false,
};

// Many transitions of refined nodes to themselves.
pub const SELF_BOOKS: Shape = Shape {
    opening: Opening::Fresh,
    largest: 20,
    zeros: 2,
    symbols: 9,
    books: 10,
    streams: 2,
    commands: 14,
    sources: 64,
    wide: 3,
    deep: 2,
    refined: 6,
    more: 12,
    arrows: 66,
    selves: 24,
    holds: 9,
    churn: false,
};

// The ladder.
pub const LADDER_BOOKS: Shape = Shape {
    opening: Opening::Ladder,
    largest: 65535,
    zeros: 1,
    symbols: 5,
    books: 6,
    streams: 2,
    commands: 20,
    sources: 4,
    wide: 0,
    deep: 0,
    refined: 0,
    more: 0,
    arrows: 20,
    selves: 10,
    holds: 18,
    churn: false,
};

// Nearly all machines and nodes in use.
pub const CROWDED_BOOKS: Shape = Shape {
    opening: Opening::Fresh,
    largest: 500,
    zeros: 2,
    symbols: 16,
    books: 4,
    streams: 2,
    commands: 20,
    sources: 3,
    wide: 20,
    deep: 5,
    refined: 54,
    more: 160,
    arrows: 750,
    selves: 40,
    holds: 36,
    churn: false,
};

// Small books, with many streams each.
pub const EDITED_BOOKS: Shape = Shape {
    opening: Opening::Fresh,
    largest: 50,
    zeros: 2,
    symbols: 8,
    books: 18,
    streams: 8,
    commands: 30,
    sources: 40,
    wide: 2,
    deep: 1,
    refined: 1,
    more: 4,
    arrows: 30,
    selves: 3,
    holds: 5,
    churn: true,
};

// Random tables: planned as they are, then edited.
pub const TABLE_BOOKS: Shape = Shape {
    opening: Opening::Table,
    largest: 99,
    zeros: 1,
    symbols: 5,
    books: 120,
    streams: 1,
    commands: 16,
    sources: 4,
    wide: 0,
    deep: 0,
    refined: 0,
    more: 0,
    arrows: 0,
    selves: 0,
    holds: 0,
    churn: false,
};
