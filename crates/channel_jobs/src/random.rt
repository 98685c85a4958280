//! Numbers that look random, and are the same for each seed.

ghost use Rattle.std.specs.Prelude.{◌≤◌, ◌<◌};

/// Numbers that look random (SplitMix64, by Steele, Lea and Flood).
#[derive(Drop)]
pub struct Random {
    state: u64,
}

impl Random {
    /// Begins with a seed.
    pub fn new(seed: u64) -> Random {
        Random { state: seed }
    }

    // Gives the next number.
    fn next(&mut self) -> u64 {
        self.state = self.state.wrapping_add(0x9e37_79b9_7f4a_7c15);
        let mut mixed = self.state;
        mixed = (mixed ^ (mixed >> 30)).wrapping_mul(0xbf58_476d_1ce4_e5b9);
        mixed = (mixed ^ (mixed >> 27)).wrapping_mul(0x94d0_49bb_1331_11eb);
        mixed ^ (mixed >> 31)
    }

    /// Gives a number below another.
    pub fn below(&mut self, bound: usize) -> usize
        requires { 1 ≤ bound }
        ensures { result < bound }
    {
        (self.next() % bound as u64) as usize
    }

    /// Tells whether something happens that does so many times in a thousand.
    pub fn happens(&mut self, in_a_thousand: usize) -> bool {
        self.below(1000) < in_a_thousand
    }
}
