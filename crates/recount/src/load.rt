// An open load, with the values that it has taken.
use crate::refusals::{DOMAIN, Fault, LEVEL, OVER, SHORT};
use std::alloc::Global;

#[derive(Drop)]
pub(crate) struct Load {
    pub(crate) level: u8,
    // its first minute
    pub(crate) first: usize,
    pub(crate) values: Vec<i64>,
}

impl Load {
    // A load of 2^level minutes, if they lie inside the span.
    pub(crate) fn begin(heap: Global, level: u8, index: u32, span: u64) -> Result<Load, Fault> {
        if level > 12 {
            return Err(Fault::Refused(LEVEL));
        }
        if (u64::from(index) + 1) << level > span {
            return Err(Fault::Refused(DOMAIN));
        }
        Ok(Load {
            level,
            first: (index as usize) << level,
            values: Vec::new(heap),
        })
    }

    fn is_full(&self) -> bool {
        self.values.len() >= 1usize << self.level.min(12)
    }

    pub(crate) fn take(&mut self, value: i32) -> Result<(), Fault> {
        if self.is_full() {
            return Err(Fault::Refused(OVER));
        }
        self.values.push(i64::from(value))?;
        Ok(())
    }

    // Whether all values have come.
    pub(crate) fn check_full(&self) -> Result<(), Fault> {
        if self.is_full() {
            Ok(())
        } else {
            Err(Fault::Refused(SHORT))
        }
    }

    pub(crate) fn taken(&self) -> u32 {
        u32::try_from(self.values.len()).unwrap_or(u32::MAX)
    }
}
