// The numbers in which cell numbers are worked out: each is below 2^21, at every step.
ghost use Rattle.std.specs.Prelude.{◌≡◌, ℕ, ◌+◌, ◌-◌, ◌*◌, ◌/◌, ◌^◌, ◌<◌, ◌≤◌, ◌↔◌, bit_and};
ghost use Rattle.haar.specs.declared.narrow.TheConstants.{LIMIT};

use std::ops::{Add, BitAnd, Shl, Shr, Sub};

/// One past the largest number: the least power of two over the 1,118,480 cells of five bands.
pub const LIMIT: u32 = 1 << 21;

/// A number on the way to a cell number.
#[derive(Clone, Copy)]
pub struct Narrow {
    pub number: u32,
    pub ghost below: { number < LIMIT },
}

impl Narrow {
    pub const ONE: Narrow = Narrow { number: 1 };

    /// How many bits a number of 32 bits has. It is below 2 to that many, and to no fewer.
    pub fn bits_of(number: u32) -> Narrow
        ensures { (places : ℕ) → (result.number ≤ places) ↔ (number < 2 ^ places) }
    {
        Narrow {
            number: u32::BITS - number.leading_zeros(),
        }
    }
}

impl Add for Narrow {
    type Output = Narrow;

    ghost can_add = { λ a b. a.number + b.number < LIMIT };

    ghost add_gives = { λ a b r. r.number ≡ a.number + b.number };

    fn add(self, rhs: Narrow) -> Narrow {
        Narrow {
            number: self.number + rhs.number,
        }
    }
}

impl Sub for Narrow {
    type Output = Narrow;

    ghost can_sub = { λ a b. b.number ≤ a.number };

    ghost sub_gives = { λ a b r. r.number ≡ a.number - b.number };

    fn sub(self, rhs: Narrow) -> Narrow {
        Narrow {
            number: self.number - rhs.number,
        }
    }
}

impl Shl<u8> for Narrow {
    type Output = Narrow;

    ghost can_shl = { λ a places. (places < 32) × (a.number * 2 ^ places < LIMIT) };

    ghost shl_gives = { λ a places r. r.number ≡ a.number * 2 ^ places };

    fn shl(self, places: u8) -> Narrow {
        Narrow {
            number: self.number << places,
        }
    }
}

impl Shr<u8> for Narrow {
    type Output = Narrow;

    ghost can_shr = { λ _ places. places < 32 };

    ghost shr_gives = { λ a places r. r.number ≡ a.number / 2 ^ places };

    fn shr(self, places: u8) -> Narrow {
        Narrow {
            number: self.number >> places,
        }
    }
}

impl BitAnd for Narrow {
    type Output = Narrow;

    ghost bitand_gives = { λ a b r. r.number ≡ bit_and a.number b.number };

    fn bitand(self, rhs: Narrow) -> Narrow {
        Narrow {
            number: self.number & rhs.number,
        }
    }
}
