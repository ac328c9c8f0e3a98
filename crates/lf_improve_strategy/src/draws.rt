//! Random numbers, the same on each run.

use crate::limits::clipped;

/// A sequence of random numbers: a linear congruential generator, of whose 64 bits the upper half is
/// used.
#[derive(Clone, Copy)]
pub(crate) struct Draws {
    state: u64,
}

impl Draws {
    /// The sequence from its beginning on.
    pub(crate) fn new() -> Draws {
        Draws { state: 1 }
    }

    /// The next number of 32 bits.
    fn next(&mut self) -> u32 {
        self.state = self
            .state
            .wrapping_mul(6_364_136_223_846_793_005)
            .wrapping_add(1_442_695_040_888_963_407);
        clipped(self.state >> 32)
    }

    /// A number below `count`, each with the same chance. 0 if `count` is 0.
    pub(crate) fn below(&mut self, count: u32) -> u32 {
        let product = (self.next() as u64).saturating_mul(count as u64);
        clipped(product >> 32)
    }

    /// A number below 256.
    pub(crate) fn byte(&mut self) -> u8 {
        self.below(256).min(255) as u8
    }

    /// Whether an event of a chance of this number of percent happens.
    pub(crate) fn happens(&mut self, percent: u32) -> bool {
        self.below(100) < percent
    }

    /// A number that is no farther from `middle` than `reach`.
    pub(crate) fn around(&mut self, middle: i64, reach: u32) -> i64 {
        let shift = self.below(reach.saturating_mul(2).saturating_add(1));
        middle
            .saturating_sub(reach as i64)
            .saturating_add(shift as i64)
    }

    /// A number from 0 on, whose chance to be greater is halved at each step of this length.
    pub(crate) fn exponential(&mut self, step: u32) -> i64 {
        let steps = self.next().leading_zeros();
        let whole = (step as i64).saturating_mul(steps as i64);
        whole.saturating_add(self.below(step) as i64)
    }
}
