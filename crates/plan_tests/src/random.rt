//! Numbers that look random and are always the same.

/// A linear congruential generator (Knuth, The Art of Computer Programming, section 3.3.4).
#[derive(Clone, Copy, Debug)]
pub struct Random {
    state: u64,
}

impl Random {
    /// The generator that starts at this seed.
    pub fn new(seed: u64) -> Self {
        Random { state: seed }
    }

    /// The next number below a limit, or 0 where there is none.
    pub fn below(&mut self, limit: u64) -> u64 {
        self.state = self
            .state
            .wrapping_mul(6_364_136_223_846_793_005)
            .wrapping_add(1_442_695_040_888_963_407);
        (self.state >> 33u32).checked_rem(limit).unwrap_or(0)
    }

    /// True about once in so many times.
    pub fn once_in(&mut self, times: u64) -> bool {
        self.below(times) == 0
    }

    /// One of a table, which has some.
    pub fn one_of<T: Copy + Default>(&mut self, table: &[T]) -> T {
        let place = self.below(table.len() as u64) as usize;
        table.get(place).copied().unwrap_or_default()
    }
}
