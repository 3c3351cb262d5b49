//! Draws of the tests' own.

/// A linear congruence, of which the upper bits count.
#[derive(Drop)]
pub struct Draws {
    pub state: u64,
}

impl Draws {
    /// A number below a bound, and 0 where that is 0.
    pub fn below(&mut self, bound: u32) -> u32 {
        self.state = self
            .state
            .wrapping_mul(6364136223846793005)
            .wrapping_add(1442695040888963407);
        let drawn = (self.state >> 33) as u32;
        drawn.checked_rem(bound).unwrap_or(0)
    }
}
