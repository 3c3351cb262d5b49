//! The hash of a string of bytes in any pieces.

ghost use Rattle.std.specs.Prelude.{◌≡◌, ℕ, ◌<◌, ◌*◌, ◌/◌, ◌%◌, ◌++◌, ◌∷◌, [], List, length, take};
ghost use Rattle.ghash.specs.Hash.{ghash};
ghost use Rattle.gcm_mode.specs.Blocks.{blocks_of, first_blocks, padded};
ghost use Rattle.gcm_mode.specs.Parts.{Feeds};

use ghash::Ghash;

/// The hash of the whole blocks so far, and the bytes behind them.
#[derive(Drop)]
pub(crate) struct Feed {
    hash: Ghash,
    block: [u8; 16],
    filled: usize,
}

impl Feed {
    /// The hash of the empty string under a subkey.
    #[tactic(auto, unfolding(crate::specs::Blocks::first_blocks))]
    pub(crate) fn new(h: [u8; 16]) -> Feed
        ensures { Feeds result h [] }
    {
        Feed {
            hash: Ghash::new(h),
            block: [0; 16],
            filled: 0,
        }
    }

    fn push(&mut self, byte: u8)
        ensures { (h bytes : List ℕ) → Feeds self.old h bytes → Feeds self.new h (bytes ++ byte ∷ []) }
    {
        let at = self.filled % 16;
        self.block[at] = byte;
        self.filled = (at + 1) % 16;
        if at < 15 {
            return;
        }
        self.hash.absorb(self.block);
    }

    /// Takes a few bytes, one by one.
    fn take_each(&mut self, input: &[u8])
        ensures { (h bytes : List ℕ) → Feeds self.old h bytes → Feeds self.new h (bytes ++ input.now) }
    {
        'bytes: for byte in input {
            self.push(*byte);
        }
    }

    /// Takes the whole blocks of an input, where no byte waits.
    fn take_blocks(&mut self, blocks: &[[u8; 16]])
        ensures { (h bytes input : List ℕ) → Feeds self.old h bytes → length bytes % 16 ≡ 0 → blocks.now ≡ first_blocks (length input / 16) input
            → Feeds self.new h (bytes ++ take (length input / 16 * 16) input) }
    {
        self.hash.absorb_all(blocks);
    }

    /// Takes bytes where none waits.
    fn take_whole(&mut self, input: &[u8])
        ensures { (h bytes : List ℕ) → Feeds self.old h bytes → length bytes % 16 ≡ 0 → Feeds self.new h (bytes ++ input.now) }
    {
        let (blocks, rest) = input.as_chunks::<16>();
        self.take_blocks(blocks);
        self.take_each(rest);
    }

    /// Takes the next bytes of the string.
    pub(crate) fn take(&mut self, input: &[u8])
        ensures { (h bytes : List ℕ) → Feeds self.old h bytes → Feeds self.new h (bytes ++ input.now) }
    {
        let room = (16 - self.filled % 16) % 16;
        if input.len() < room {
            self.take_each(input);
            return;
        }
        let (first, rest) = input.split_at(room);
        self.take_each(first);
        self.take_whole(rest);
    }

    /// Takes zeros up to a whole block.
    pub(crate) fn pad(&mut self)
        ensures { (h bytes : List ℕ) → Feeds self.old h bytes → Feeds self.new h (padded bytes) }
    {
        let zeros = [0; 16];
        self.take(&zeros[..(16 - self.filled % 16) % 16]);
    }

    /// The hash of a string of whole blocks.
    pub(crate) fn value(&self) -> [u8; 16]
        ensures { (h bytes : List ℕ) → Feeds self.now h bytes → length bytes % 16 ≡ 0 → result ≡ ghash h (blocks_of bytes) }
    {
        self.hash.value()
    }
}
