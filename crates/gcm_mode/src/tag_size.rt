//! The size of a tag.

ghost use Rattle.std.specs.Prelude.{◌≡◌, ◌≤◌};

use std::marker::Model;

/// A number of bytes of at most 16. Contracts see the number.
#[derive(Drop)]
pub(crate) struct TagSize {
    bytes: usize,
}

impl Model for TagSize {
    ghost use Rattle.std.specs.Prelude.{ℕ, ◌≤◌};

    ghost Value = { ℕ };

    ghost view = { λ s. s.bytes };

    ghost invariant = { λ s. s.bytes ≤ 16 };
}

impl TagSize {
    pub(crate) fn new(bytes: usize) -> TagSize
        requires { bytes ≤ 16 }
        ensures { result ≡ bytes }
    {
        TagSize { bytes }
    }

    pub(crate) fn bytes(&self) -> usize
        ensures value { result ≡ self.now }
        ensures most { result ≤ 16 }
    {
        self.bytes
    }
}
