// The calls that change or ask a warehouse, as values.

#[derive(Clone, Copy)]
pub enum Call {
    // a load of this level and index, with the numbers from a place on as its values: as many as it takes, then its finish
    Load { level: u8, index: u32, from: usize },
    Add { minute: u32, value: i64 },
    Grow,
    Settle,
    Point { minute: u32 },
    // minutes
    Sum { from: u32, to: u32 },
    Mean { from: u32, to: u32 },
    Trend { level: u8, index: u32 },
}
