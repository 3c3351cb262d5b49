//! The bytes of a block that is not whole yet.

ghost use Rattle.std.specs.Prelude.{◌≡◌, ◌-◌, ◌≤◌, [], ◌++◌, length, take, min};

use std::marker::Model;

/// At most 16 bytes, the first of a block. Contracts see their list.
#[derive(Drop)]
pub(crate) struct Part {
    block: [u8; 16],
    len: usize,
}

impl Model for Part {
    ghost use Rattle.std.specs.Prelude.{ℕ, ◌≤◌, List, take};

    ghost Value = { List ℕ };

    ghost view = { λ s. take s.len s.block };

    ghost invariant = { λ s. s.len ≤ 16 };
}

impl Part {
    pub(crate) fn new() -> Part
        ensures { result ≡ [] }
    {
        Part {
            block: [0; 16],
            len: 0,
        }
    }

    /// How many bytes they are.
    pub(crate) fn len(&self) -> usize
        ensures len { result ≡ length self.now }
        ensures most { result ≤ 16 }
    {
        self.len
    }

    /// Takes as many of some bytes as there is room for, and says how many.
    pub(crate) fn fill(&mut self, bytes: &[u8]) -> usize
        ensures part { self.new ≡ self.old ++ take result bytes.now }
        ensures count { result ≡ min (16 - length self.old) (length bytes.now) }
    {
        let count = (16 - self.len).min(bytes.len());
        self.block[self.len..self.len + count].copy_from_slice(&bytes[..count]);
        self.len += count;
        count
    }

    /// The block that begins with the bytes.
    pub(crate) fn block(&self) -> [u8; 16]
        ensures { take (length self.now) result ≡ self.now }
    {
        self.block
    }

    pub(crate) fn clear(&mut self)
        ensures { self.new ≡ [] }
    {
        self.len = 0;
    }
}
