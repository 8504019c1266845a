// A feed that is being made up, command by command, of numbers that look like chance and are the same in every run.
ghost use Rattle.std.specs.Prelude.{◌<◌};

use std::alloc::{AllocError, Global};

// Marsaglia's xorshift of 64 bits: three shifts lead from each state but 0 to the next, through all of them.
// By hand: a generator of `rand_xoshiro` would draw other feeds than those that `stdout` counts.
#[derive(Drop)]
pub(crate) struct Chance {
    state: u64,
}

impl Chance {
    pub(crate) fn new(seed: u64) -> Chance {
        Chance { state: seed.max(1) }
    }

    fn next(&mut self) -> u64 {
        self.state ^= self.state << 13;
        self.state ^= self.state >> 7;
        self.state ^= self.state << 17;
        self.state
    }

    // A number below `end`, or 0 where `end` is. The high half of a state looks the most like chance.
    pub(crate) fn below(&mut self, end: u32) -> u32
        ensures { 0 < end → result < end }
    {
        // 32 bits are left after the shift
        let high = (self.next() >> 32) as u32;
        high % end.max(1)
    }
}

#[derive(Drop)]
pub(crate) struct Draft {
    pub(crate) chance: Chance,
    pub(crate) bytes: Vec<u8>,
    // the size of the warehouse, where no growth was refused
    pub(crate) size: u8,
}

impl Draft {
    pub(crate) fn new(heap: Global, seed: u64) -> Draft {
        Draft {
            chance: Chance::new(seed),
            bytes: Vec::new(heap),
            size: 4,
        }
    }

    // An empty feed for a warehouse of size 4.
    pub(crate) fn clear(&mut self) {
        self.bytes.clear();
        self.size = 4;
    }

    // A command's letter, or another single byte.
    pub(crate) fn byte(&mut self, byte: u8) -> Result<(), AllocError> {
        self.bytes.push(byte)?;
        Ok(())
    }

    pub(crate) fn number(&mut self, number: u32) -> Result<(), AllocError> {
        self.bytes.extend_from_slice(&number.to_be_bytes())
    }

    // Takes the last bytes away again.
    pub(crate) fn cut(&mut self, many: usize) {
        let left = self.bytes.len().saturating_sub(many);
        self.bytes.truncate(left);
    }

    // A minute, as a rule inside the size, now and then beyond it, seldom anywhere.
    pub(crate) fn minute(&mut self) -> u32 {
        let span = 1u32 << self.size.min(12);
        match self.chance.below(24) {
            0 => self.chance.below(u32::MAX),
            1 => self.chance.below(2 * span),
            _ => self.chance.below(span),
        }
    }

    // A value in two's complement: 0, the largest, the least, or one between -50 and 49.
    pub(crate) fn value(&mut self) -> u32 {
        match self.chance.below(8) {
            0 => 0,
            1 => 0x7fff_ffff - self.chance.below(4),
            2 => 0x8000_0000 + self.chance.below(4),
            _ => self.chance.below(100).wrapping_sub(50),
        }
    }

    pub(crate) fn grow(&mut self) -> Result<(), AllocError> {
        self.size = self.size.saturating_add(1).min(12);
        self.byte(b'G')
    }

    pub(crate) fn begin(&mut self, level: u8, index: u32) -> Result<(), AllocError> {
        self.byte(b'L')?;
        self.byte(level)?;
        self.number(index)
    }

    pub(crate) fn give(&mut self, value: u32) -> Result<(), AllocError> {
        self.byte(b'V')?;
        self.number(value)
    }

    pub(crate) fn add(&mut self, minute: u32, value: u32) -> Result<(), AllocError> {
        self.byte(b'P')?;
        self.number(minute)?;
        self.number(value)
    }

    // A range: as a rule forward, now and then empty, or either way round.
    pub(crate) fn range(&mut self, letter: u8) -> Result<(), AllocError> {
        let (first, second) = (self.minute(), self.minute());
        let (from, to) = match self.chance.below(8) {
            0 => (first, second),
            1 => (first, first),
            _ => (first.min(second), first.max(second).saturating_add(1)),
        };
        self.byte(letter)?;
        self.number(from)?;
        self.number(to)
    }
}
