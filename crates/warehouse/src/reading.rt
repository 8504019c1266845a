// What a question answers.
#[derive(Clone, Copy, PartialEq, Eq, Debug)]
pub struct Reading {
    // the value, the sum or the mean
    pub value: i64,
    // how many cells were read for it
    pub cells: u32,
}
