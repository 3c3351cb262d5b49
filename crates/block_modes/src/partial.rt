//! The bytes of a block that is not whole yet.

ghost use Rattle.std.specs.Prelude.{◌≡◌, ◌-◌, ◌<◌, ◌≤◌, [], ◌++◌, length, take, min};
ghost use Rattle.block_modes.specs.Padding.{pad};

use std::marker::Model;

/// At most 16 bytes. Contracts see their list.
#[derive(Drop)]
pub(crate) struct Partial {
    bytes: [u8; 16],
    len: usize,
}

impl Model for Partial {
    ghost use Rattle.std.specs.Prelude.{ℕ, ◌≤◌, List, take};

    ghost Value = { List ℕ };

    ghost view = { λ s. take s.len s.bytes };

    ghost invariant = { λ s. s.len ≤ 16 };
}

impl Partial {
    pub(crate) fn new() -> Partial
        ensures { result ≡ [] }
    {
        Partial {
            bytes: [0; 16],
            len: 0,
        }
    }

    pub(crate) fn len(&self) -> usize
        ensures len { result ≡ length self.now }
        ensures room { result ≤ 16 }
    {
        self.len
    }

    /// Takes as many bytes of the input as there is room for, and says how many.
    pub(crate) fn fill(&mut self, input: &[u8]) -> usize
        ensures bytes { self.new ≡ self.old ++ take result input.now }
        ensures count { result ≡ min (16 - length self.old) (length input.now) }
        ensures room { length self.new ≤ 16 }
    {
        let count = (16 - self.len).min(input.len());
        self.bytes[self.len..self.len + count].copy_from_slice(&input[..count]);
        self.len += count;
        count
    }

    /// A block that begins with the bytes.
    pub(crate) fn block(&self) -> [u8; 16]
        ensures { take (length self.now) result ≡ self.now }
    {
        self.bytes
    }

    /// The block that the padding makes of fewer than 16 bytes.
    pub(crate) fn padded(&self) -> [u8; 16]
        ensures { length self.now < 16 → result ≡ pad self.now }
    {
        let size = 16 - self.len % 16;
        let mut block = self.bytes;
        block[16 - size..].fill(size as u8);
        block
    }

    pub(crate) fn clear(&mut self)
        ensures { self.new ≡ [] }
    {
        self.len = 0;
    }
}
