//! Numbers that a seed gives.

/// SplitMix64, by Steele, Lea and Flood, "Fast splittable pseudorandom number generators".
#[derive(Drop)]
pub struct Random {
    state: u64,
}

impl Random {
    pub fn new(seed: u64) -> Self {
        Random { state: seed }
    }

    pub fn next(&mut self) -> u64 {
        self.state = self.state.wrapping_add(0x9e37_79b9_7f4a_7c15);
        let first = (self.state ^ (self.state >> 30)).wrapping_mul(0xbf58_476d_1ce4_e5b9);
        let second = (first ^ (first >> 27)).wrapping_mul(0x94d0_49bb_1331_11eb);
        second ^ (second >> 31)
    }

    /// A number from the least to the most, both among them.
    pub fn within(&mut self, least: u32, most: u32) -> u32 {
        let count = u64::from(most.saturating_sub(least)) + 1;
        let more = (self.next() % count) % (1 << 32);
        least.saturating_add(more as u32)
    }

    /// A letter from d to s.
    pub fn letter(&mut self) -> u8 {
        b'd' + (self.next() % 16) as u8
    }

    /// Whether one of so many cases comes.
    pub fn one_in(&mut self, cases: u32) -> bool {
        self.within(1, cases) == 1
    }
}
