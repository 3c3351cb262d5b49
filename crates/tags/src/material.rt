//! The material of a key.

ghost use Rattle.std.specs.Prelude.{◌≡◌, length};

use crate::Bytes;
use std::fmt;
use std::fmt::{Debug, Formatter};
use std::marker::Model;

/// The bytes of a key, owned, and seen as a list of bytes. No text of it has them.
#[derive(Drop)]
pub struct Material {
    bytes: Bytes,
}

impl Model for Material {
    ghost use Rattle.std.specs.Prelude.{List, ℕ};

    ghost Value = { List ℕ };

    ghost view = { λ m. m.bytes };
}

impl Material {
    /// The material of these bytes. It takes no memory.
    pub fn of(bytes: Bytes) -> Material
        ensures { result ≡ bytes }
    {
        Material { bytes }
    }

    /// The bytes, lent. It takes no memory.
    pub fn as_slice(&self) -> &[u8]
        ensures { result.now ≡ self.now }
    {
        self.bytes.as_slice()
    }

    /// The bytes, lent as they are owned. It takes no memory.
    pub fn as_bytes(&self) -> &Bytes
        ensures { result.now ≡ self.now }
    {
        &self.bytes
    }

    /// How many bytes.
    pub fn len(&self) -> usize
        ensures { result ≡ length self.now }
    {
        self.bytes.len()
    }
}

/// The name of the type alone.
impl Debug for Material {
    fn fmt<W: fmt::Write>(&self, f: &mut Formatter<W>) -> fmt::Result {
        f.write_str("Material")
    }
}
