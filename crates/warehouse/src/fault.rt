// Why a warehouse refuses a call, with what was asked for.
use store::fault::CellFault;

#[derive(Clone, Copy, PartialEq, Eq, Debug)]
pub enum Fault {
    // the store refuses the cell
    Cell(CellFault),
    // the chunk's level is over 12
    Level,
    // the value at this place is outside its limits
    Value(u32),
    // the buffer is too short for the next value or the chunk
    Buffer,
    // the range runs backward, or is empty for a mean
    Range,
    // the trend's level is 0 or over 20
    Interval,
    // the store cannot have this size
    Size,
    // what was asked for does not lie inside the size
    Domain,
    // this cell would pass the limit
    Large(u32),
    // more cells would become nonzero than there is room for
    Full,
    // the store cannot grow further
    Top,
    // not all values of the load have come
    Short,
    // the load has all its values
    Over,
    // this cell cannot belong to a sum
    Torn(u32),
    // this cell is not zero; the cell count where room is below zero
    Dirty(u32),
    // this cell's trend has no exact amount
    Fine(u32),
}

#[derive(Clone, Copy, PartialEq, Eq, Debug)]
pub enum Asked {
    // level, index
    Interval(u8, u32),
    Minute(u32),
    // from, to
    Minutes(u32, u32),
    Size(u8),
}

#[derive(Clone, Copy, PartialEq, Eq, Debug)]
pub struct Refusal {
    pub fault: Fault,
    pub asked: Asked,
}
