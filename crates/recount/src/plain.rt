// What a command does to plain minutes, and the line that it should print.
use crate::counts::{cells_read, cells_read_between, cells_written};
use crate::load::Load;
use crate::model::{Model, nearest};
use crate::refusals::{DOMAIN, Fault, RANGE, SEQUENCE};
use std::alloc::{AllocError, Global};
use wire::command::Command;
use wire::line::Line;

// What was accepted, in its order; a load is as many points, its last minute first.
#[derive(Clone, Copy, PartialEq, Eq, Debug)]
pub(crate) enum Deed {
    Point { minute: usize, value: i64 },
    Growth,
}

#[derive(Drop)]
pub(crate) struct Plain {
    heap: Global,
    model: Model,
    load: Option<Load>,
    pub(crate) deeds: Vec<Deed>,
}

impl Plain {
    pub(crate) fn new(heap: Global) -> Result<Plain, AllocError> {
        Ok(Plain {
            heap,
            model: Model::new(heap)?,
            load: None,
            deeds: Vec::new(heap),
        })
    }

    pub(crate) fn obey(&mut self, command: Command) -> Result<Option<Line>, Fault> {
        let line = match command {
            Command::Grow => self.grow()?,
            Command::Begin { level, index } => self.begin(level, index)?,
            Command::Value { value } => return self.take(value),
            Command::Finish => self.finish()?,
            Command::GiveUp => self.end().ok_or(Fault::Refused(SEQUENCE))?,
            Command::Add { minute, value } => self.add(minute, value)?,
            Command::Point { minute } => self.point(minute)?,
            Command::Sum { from, to } => self.sum(from, to)?,
            Command::Mean { from, to } => self.mean(from, to)?,
        };
        Ok(Some(line))
    }

    fn grow(&mut self) -> Result<Line, Fault> {
        let size = self.model.grow()?;
        self.deeds.push(Deed::Growth)?;
        Ok(Line::Grown { size })
    }

    fn begin(&mut self, level: u8, index: u32) -> Result<Line, Fault> {
        if self.load.is_some() {
            return Err(Fault::Refused(SEQUENCE));
        }
        self.load = Some(Load::begin(self.heap, level, index, self.model.span())?);
        Ok(Line::Begun)
    }

    fn take(&mut self, value: i32) -> Result<Option<Line>, Fault> {
        let Some(load) = &mut self.load else {
            return Err(Fault::Refused(SEQUENCE));
        };
        load.take(value)?;
        Ok(None)
    }

    // An addition that the model accepts, as points.
    fn add_values(&mut self, first: usize, values: &[i64]) -> Result<(), Fault> {
        self.model.add(first, values)?;
        for (place, value) in values.iter().enumerate().rev() {
            self.deeds.push(Deed::Point {
                minute: first.saturating_add(place),
                value: *value,
            })?;
        }
        Ok(())
    }

    // A load that has all its values.
    fn add_load(&mut self, load: &Load) -> Result<Line, Fault> {
        load.check_full()?;
        self.add_values(load.first, &load.values)?;
        Ok(Line::Finished {
            cells: cells_written(load.level, self.model.size),
        })
    }

    // A refused finish leaves the load open.
    fn finish(&mut self) -> Result<Line, Fault> {
        let load = self.load.take().ok_or(Fault::Refused(SEQUENCE))?;
        let answer = self.add_load(&load);
        if answer.is_err() {
            self.load = Some(load);
        }
        answer
    }

    // An open load is given up.
    pub(crate) fn end(&mut self) -> Option<Line> {
        let load = self.load.take()?;
        Some(Line::GivenUp {
            values: load.taken(),
        })
    }

    fn add(&mut self, minute: u32, value: i32) -> Result<Line, Fault> {
        self.check_minute(minute)?;
        self.add_values(minute as usize, &[i64::from(value)])?;
        Ok(Line::Added {
            cells: cells_written(0, self.model.size),
        })
    }

    fn check_minute(&self, minute: u32) -> Result<(), Fault> {
        if u64::from(minute) >= self.model.span() {
            return Err(Fault::Refused(DOMAIN));
        }
        Ok(())
    }

    fn point(&self, minute: u32) -> Result<Line, Fault> {
        self.check_minute(minute)?;
        Ok(Line::Point {
            value: self.model.minute(minute),
            cells: cells_read(0, self.model.size),
        })
    }

    fn check_range(&self, from: u32, to: u32) -> Result<(), Fault> {
        if from > to {
            return Err(Fault::Refused(RANGE));
        }
        if u64::from(to) > self.model.span() {
            return Err(Fault::Refused(DOMAIN));
        }
        Ok(())
    }

    fn sum(&self, from: u32, to: u32) -> Result<Line, Fault> {
        self.check_range(from, to)?;
        Ok(Line::Sum {
            sum: self.model.sum(from, to),
            cells: cells_read_between(from, to, self.model.size),
        })
    }

    fn mean(&self, from: u32, to: u32) -> Result<Line, Fault> {
        if from >= to {
            return Err(Fault::Refused(RANGE));
        }
        self.check_range(from, to)?;
        Ok(Line::Mean {
            mean: nearest(self.model.sum(from, to), to - from),
            cells: cells_read_between(from, to, self.model.size),
        })
    }
}
