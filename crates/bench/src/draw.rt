// What the benchmark draws, the same as the reference in C, and the checksum of what it is answered.
#[derive(Drop)]
pub struct Draw {
    state: u64,
    check: u64,
}

impl Draw {
    pub(crate) fn new() -> Draw {
        Draw { state: 1, check: 0 }
    }

    fn next(&mut self) -> u32 {
        self.state = self
            .state
            .wrapping_mul(6_364_136_223_846_793_005)
            .wrapping_add(1_442_695_040_888_963_407);
        // 32 bits are left after the shift
        (self.state >> 32) as u32
    }

    // A number below the bound; 0 where there is none.
    pub(crate) fn below(&mut self, bound: u32) -> u32 {
        self.next().checked_rem(bound).unwrap_or(0)
    }

    // The running seconds of a minute.
    pub(crate) fn seconds(&mut self) -> i64 {
        i64::from(self.below(61))
    }

    // Takes an answer into the checksum.
    pub(crate) fn note(&mut self, answer: i64) {
        self.check = self
            .check
            .wrapping_mul(31)
            .wrapping_add(answer.cast_unsigned());
    }

    pub(crate) fn check(&self) -> u64 {
        self.check
    }
}
