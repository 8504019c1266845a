/// How the two halves of an interval compare: the left half larger, the right half larger, or alike; or that the
/// interval has not passed yet.
#[derive(Clone, Copy)]
pub enum Trend {
    Falling(f64),
    Rising(f64),
    Level,
    Unfinished,
}
