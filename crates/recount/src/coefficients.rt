// Every difference and tile sum of minutes in a row, counted from the minutes alone, and what they have to keep to.
use crate::refusals::{FULL, Fault, LARGE};
use std::alloc::{AllocError, Global};

// The room of gymfeed's store and the limit of a cell. Numbers of its own: the recount owes nothing to the code it checks.
const ROOM: usize = 1024;

pub(crate) const LIMIT: i64 = 1 << 56;

// The sums of neighbours; their differences go to `found`.
fn level_up(heap: Global, sums: &[i64], found: &mut Vec<i64>) -> Result<Vec<i64>, AllocError> {
    let mut halved = Vec::with_capacity(heap, sums.len() / 2)?;
    let (pairs, _) = sums.as_chunks::<2>();
    for [left, right] in pairs {
        found.push(left.wrapping_sub(*right))?;
        halved.push(left.wrapping_add(*right))?;
    }
    Ok(halved)
}

// The coefficients of 2^size minutes, level by level. A tile ends at every fourth level, and at the top.
pub(crate) fn coefficients(
    heap: Global,
    minutes: &[i64],
    size: u8,
) -> Result<Vec<i64>, AllocError> {
    let mut found = Vec::new(heap);
    let mut sums = Vec::from_slice(heap, minutes)?;
    for level in 1..=size {
        sums = level_up(heap, &sums, &mut found)?;
        if level % 4 == 0 || level == size {
            found.extend_from_slice(&sums)?;
        }
    }
    Ok(found)
}

fn count_nonzero(numbers: &[i64]) -> usize {
    numbers.iter().filter(|number| **number != 0).count()
}

// How many go from zero to nonzero.
fn count_started(before: &[i64], after: &[i64]) -> usize {
    before
        .iter()
        .zip(after.iter())
        .filter(|(old, new)| **old == 0 && **new != 0)
        .count()
}

// Whether coefficients may become these others of the same size.
pub(crate) fn check_change(before: &[i64], after: &[i64]) -> Result<(), Fault> {
    if after
        .iter()
        .any(|number| number.unsigned_abs() > LIMIT.unsigned_abs())
    {
        return Err(Fault::Refused(LARGE));
    }
    if count_started(before, after) > ROOM.saturating_sub(count_nonzero(before)) {
        return Err(Fault::Refused(FULL));
    }
    Ok(())
}

// Whether the coefficients after a growth may be these.
pub(crate) fn check_growth(after: &[i64]) -> Result<(), Fault> {
    if count_nonzero(after) > ROOM {
        return Err(Fault::Refused(FULL));
    }
    Ok(())
}
