// A plain warehouse: minutes in a row, and their coefficients, counted anew after every change.
use crate::coefficients::{check_change, check_growth, coefficients};
use crate::refusals::{Fault, TOP};
use std::alloc::{AllocError, Global};

// The size at which gymfeed founds its warehouse, and the largest that three bands can have.
const FIRST: u8 = 4;

const LAST: u8 = 12;

#[derive(Drop)]
pub(crate) struct Model {
    heap: Global,
    pub(crate) size: u8,
    // 2^size of them
    pub(crate) minutes: Vec<i64>,
    coefficients: Vec<i64>,
}

// Adds each value to its minute, from the first of them on.
fn add_values(minutes: &mut [i64], first: usize, values: &[i64]) {
    for (minute, value) in minutes.iter_mut().skip(first).zip(values) {
        *minute = minute.wrapping_add(*value);
    }
}

impl Model {
    pub(crate) fn new(heap: Global) -> Result<Model, AllocError> {
        let minutes = vec![in heap; 0i64; 16]?;
        Ok(Model {
            heap,
            size: FIRST,
            coefficients: coefficients(heap, &minutes, FIRST)?,
            minutes,
        })
    }

    // How many minutes there are.
    pub(crate) fn span(&self) -> u64 {
        self.minutes.len() as u64
    }

    pub(crate) fn minute(&self, minute: u32) -> i64 {
        self.minutes.get(minute as usize).copied().unwrap_or(0)
    }

    // The sum of the minutes from `from` to `to - 1`.
    pub(crate) fn sum(&self, from: u32, to: u32) -> i64 {
        self.minutes
            .iter()
            .take(to as usize)
            .skip(from as usize)
            .fold(0i64, |sum, value| sum.wrapping_add(*value))
    }

    // Adds the values from a minute on, or refuses and stays as it was.
    pub(crate) fn add(&mut self, first: usize, values: &[i64]) -> Result<(), Fault> {
        let mut minutes = Vec::from_slice(self.heap, &self.minutes)?;
        add_values(&mut minutes, first, values);
        let after = coefficients(self.heap, &minutes, self.size)?;
        check_change(&self.coefficients, &after)?;
        self.minutes = minutes;
        self.coefficients = after;
        Ok(())
    }

    // Twice as many minutes, or refuses and stays as it was.
    pub(crate) fn grow(&mut self) -> Result<u8, Fault> {
        if self.size >= LAST {
            return Err(Fault::Refused(TOP));
        }
        let size = self.size + 1;
        let mut minutes = Vec::from_slice(self.heap, &self.minutes)?;
        minutes.resize(2 * self.minutes.len(), 0)?;
        let after = coefficients(self.heap, &minutes, size)?;
        check_growth(&after)?;
        self.size = size;
        self.minutes = minutes;
        self.coefficients = after;
        Ok(size)
    }
}

// The whole number nearest to the sum's share of so many minutes; the even one, where two are as near.
pub(crate) fn nearest(sum: i64, minutes: u32) -> i64 {
    let twice = 2 * i64::from(minutes.max(1));
    // half a share more: the upper one, where two are as near
    let more = sum.wrapping_mul(2).wrapping_add(twice / 2);
    let upper = more.div_euclid(twice);
    let two = more.rem_euclid(twice) == 0;
    if two && upper % 2 != 0 {
        return upper.wrapping_sub(1);
    }
    upper
}
