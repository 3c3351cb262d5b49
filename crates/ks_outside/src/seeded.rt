//! Entropy in memory that a seed fixes.

ghost use Rattle.std.specs.Prelude.{◌≡◌, ◌<◌, Some, IsOk, drop};
ghost use Rattle.rand_chacha.specs.ChaCha.{of_seed};
ghost use Rattle.ks_outside.specs.Draws.{DrawGives, followed};
ghost use Rattle.ks_outside.specs.Faults.{HasCause};
ghost use Rattle.ks_outside.specs.Seeded.{bytes_from};

use crate::endless;
use crate::endless::Endless;
use crate::entropy::Entropy;
use crate::faults::Failed;
use rand_chacha::ChaCha20Rng;
use rand_core::SeedableRng;
use rand_core::utils::NextWord;

/// The bytes of the 32-bit words of `ChaCha20Rng`, the lowest byte of each first, whose draws never fail. A draw that
/// ends inside a word leaves the rest of the word to the next draw.
#[derive(Drop)]
pub struct SeededEntropy {
    generator: ChaCha20Rng,
    word: [u8; 4],
    used: usize,
}

impl SeededEntropy {
    /// The generator at the start of the seed's stream 0.
    pub fn new(seed: [u8; 32]) -> SeededEntropy
        ensures generator { result.generator ≡ of_seed seed }
        ensures coming { followed (drop result.used result.word) (bytes_from result.generator) ≡ bytes_from (of_seed seed) }
    {
        SeededEntropy {
            generator: ChaCha20Rng::from_seed(seed),
            word: [0; 4],
            used: 4,
        }
    }

    /// Makes a byte of the word ready.
    fn refill(&mut self)
        ensures coming { followed (drop self.new.used self.new.word) (bytes_from self.new.generator) ≡ followed (drop self.old.used self.old.word) (bytes_from self.old.generator) }
        ensures ready { self.new.used < 4 }
    {
        if self.used >= 4 {
            self.word = self.generator.next_word().to_le_bytes();
            self.used = 0;
        }
    }
}

impl Endless for SeededEntropy {
    ghost coming = { λ s. followed (drop s.used s.word) (bytes_from s.generator) };

    fn next_byte(&mut self) -> u8 {
        self.refill();
        let byte = self.word[self.used];
        self.used += 1;
        byte
    }
}

impl Entropy for SeededEntropy {
    ghost content = { λ s. Some (followed (drop s.used s.word) (bytes_from s.generator)) };

    ghost fault_count = { λ _. 0 };

    fn draw(&mut self, out: &mut [u8]) -> Result<(), Failed>
        ensures bytes { DrawGives (Some (followed (drop self.old.used self.old.word) (bytes_from self.old.generator))) (Some (followed (drop self.new.used self.new.word) (bytes_from self.new.generator))) result out.new }
        ensures cause { HasCause 0 0 result }
        ensures ok { IsOk result }
    {
        endless::fill(self, out);
        Ok(())
    }

    fn faults(&self) -> u64 {
        0
    }
}
