// One cell and its number, as a table keeps them.
#[derive(Clone, Copy, PartialEq, Eq, Debug)]
pub struct Entry {
    pub cell: u32,
    pub value: i64,
}

// what stands in a place that is not in use
pub const EMPTY: Entry = Entry { cell: 0, value: 0 };
