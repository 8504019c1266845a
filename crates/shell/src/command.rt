//! What a line asks for.

/// A command of the shell with what it was given, each number as wide as the call that takes it.
#[derive(PartialEq, Eq, Debug, Drop)]
pub enum Command {
    /// A flat store of 0 to 5 bands, in place of the pile that was there.
    Flat {
        bands: u8,
    },
    /// A sparse store, whose bands and capacity are taken to the nearest that there is.
    Sparse {
        bands: u8,
        capacity: u16,
    },
    /// One hold-back layer more on the pile.
    Layer,
    /// Writes a cell of the pile.
    Write {
        cell: u32,
        value: i64,
    },
    /// Reads a cell of the pile.
    Read {
        cell: u32,
    },
    /// Bands, room and cleanness of the pile.
    Store,
    /// What follows speaks of the first pile.
    First,
    /// What follows speaks of the second pile.
    Second,
    /// Compares the two piles.
    Compare,
    /// Whether a warehouse of this size can be founded.
    Survey {
        size: u8,
    },
    /// Surveys, and takes over.
    Found {
        size: u8,
    },
    /// Takes over whatever the pile holds.
    Take {
        size: u8,
        mark: u32,
    },
    /// Whether the pile's cells are those of some data at this size.
    Audit {
        size: u8,
    },
    /// Settles, and sets the pile free.
    Close,
    /// The size of the warehouse.
    Size,
    /// One past the highest minute that additions covered.
    Mark,
    /// The figure of free cells.
    Free,
    /// Adds a value to a minute.
    Add {
        minute: u32,
        value: i64,
    },
    /// A whole load: begun, given its values, and finished.
    Load {
        level: u8,
        index: u32,
        values: Vec<i64>,
    },
    /// One level more.
    Grow,
    /// Settles the warehouse.
    Settle,
    /// The value of a minute.
    Point {
        minute: u32,
    },
    /// The sum of the minutes from `from` to `to - 1`.
    Sum {
        from: u32,
        to: u32,
    },
    /// Their mean.
    Mean {
        from: u32,
        to: u32,
    },
    /// The largest of them.
    Busiest {
        from: u32,
        to: u32,
    },
    /// How the halves of an interval compare.
    Trend {
        level: u8,
        index: u32,
    },
    /// Each nonzero cell of the pile.
    Cells,
    /// A captured line of these bytes.
    Line {
        bytes: Vec<u8>,
    },
    /// An empty ring as the line.
    Ring,
    /// Puts bytes into the ring.
    Put {
        bytes: Vec<u8>,
    },
    /// Polls once as a Welcome.
    Welcome,
    /// Begins feeding.
    Begin,
    /// The next byte of the line.
    Next,
    /// Ends feeding.
    End,
    /// The latest byte replied.
    Replied,
    /// The commands.
    Help,
}

/// A command, and the column of its word, counted in bytes from 1: a command that is not allowed now is wrong there.
#[derive(PartialEq, Eq, Debug, Drop)]
pub struct Spoken {
    pub column: usize,
    pub command: Command,
}
