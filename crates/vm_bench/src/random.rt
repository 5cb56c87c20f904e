//! Random numbers that a seed determines.
ghost use Rattle.std.specs.Prelude.{◌<◌};

use rand_core::utils::NextWord;
use rand_pcg::Lcg64Xsh32;

/// A generator of random numbers (PCG32).
#[derive(Drop)]
pub struct Random {
    generator: Lcg64Xsh32,
}

impl Random {
    /// The numbers of a seed and a stream, from the first one.
    pub fn new(seed: u64, stream: u64) -> Self {
        Random {
            generator: Lcg64Xsh32::new(seed, stream),
        }
    }

    /// A number below `count`, each about as likely.
    pub fn below(&mut self, count: u32) -> u32
        requires { 0 < count }
        ensures { result < count }
    {
        self.generator.next_word() % count
    }

    /// A number below `count`, the smaller the likelier: about half of them are below a fifth of it.
    pub fn skewed(&mut self, count: u32) -> u32
        requires { 0 < count }
        ensures { result < count }
    {
        let limit = self.below(count) + 1;
        self.below(limit)
    }

    /// A byte.
    pub fn byte(&mut self) -> u8 {
        (self.generator.next_word() % 256) as u8
    }
}
