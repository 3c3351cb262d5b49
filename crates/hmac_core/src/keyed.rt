//! The two keyed hashers of one hash function.

ghost use Rattle.std.specs.Prelude.{◌≡◌, ℕ, ◌≤◌, List, [], ◌++◌, take, drop, map, length, bit_xor};
ghost use Rattle.hmac_core.specs.Hmac.{block_key, hmac_with};

use crate::hash::{Hash, put_front};
use std::alloc::AllocError;

/// Two hashers that took the inner and the outer key.
#[derive(Drop)]
pub struct Keyed<D> {
    pub inner: D,
    pub outer: D,
}

/// Each byte of `block` with the bits of `mask` turned.
fn masked(block: &[u8; 128], mask: u8) -> [u8; 128]
    ensures { result ≡ map (λ b. bit_xor b mask) block.now }
{
    let mut bytes = *block;
    'bytes: for i in 0..128 {
        bytes[i] ^= mask;
    }
    bytes
}

/// The key as one block of zeros behind the key, or behind the digest of a key that is longer.
fn key_as_block<D: Hash>(key: &[u8]) -> [u8; 128]
    ensures { take D.block result ≡ block_key D.hash D.block key.now }
{
    let mut block = [0u8; 128];
    if key.len() <= D::block_bytes() {
        put_front(&mut block, key);
    } else {
        let mut hasher = D::new();
        hasher.update(key);
        let mut digest = [0u8; 64];
        let size = hasher.finish_into(&mut digest);
        put_front(&mut block, &digest[..size]);
    }
    block
}

/// A hasher of the first block of `bytes`.
fn hasher_of<D: Hash>(bytes: &[u8; 128]) -> D
    ensures { D.holds result (take D.block bytes.now) }
{
    let mut hasher = D::new();
    hasher.update(&bytes[..D::block_bytes()]);
    hasher
}

impl<D: Hash> Keyed<D> {
    ghost use Rattle.hmac_core.specs.State.{IsKeyed};

    /// The two hashers of a key.
    pub fn new(key: &[u8]) -> Self
        ensures { IsKeyed D.holds D.hash D.block result key.now [] }
    {
        let block = key_as_block::<D>(key);
        Keyed {
            inner: hasher_of::<D>(&masked(&block, 0x36)),
            outer: hasher_of::<D>(&masked(&block, 0x5c)),
        }
    }

    /// Adds `input` to the text.
    pub fn update(&mut self, input: &[u8])
        ensures { (key text : List ℕ) → IsKeyed D.holds D.hash D.block self.old key text → IsKeyed D.holds D.hash D.block self.new key (text ++ input.now) }
    {
        self.inner.update(input);
    }

    /// Writes the mac of the text at the front of `out`, and returns its length in bytes.
    pub fn finish(self, out: &mut [u8; 64]) -> usize
        ensures size { result ≡ D.size }
        ensures within { result ≤ 64 }
        ensures mac { (key text : List ℕ) → IsKeyed D.holds D.hash D.block self key text → take result out.new ≡ hmac_with D.hash D.block key text }
        ensures rest { drop result out.new ≡ drop result out.old }
    {
        let Keyed { inner, mut outer } = self;
        let mut digest = [0u8; 64];
        let size = inner.finish_into(&mut digest);
        outer.update(&digest[..size]);
        outer.finish_into(out)
    }
}

impl<D: Hash + Clone> Clone for Keyed<D> {
    ghost is_clone = { λ x y. D.Clone.is_clone x.inner y.inner × D.Clone.is_clone x.outer y.outer };

    ghost is_infallible = { λ x. D.Clone.is_infallible x.inner × D.Clone.is_infallible x.outer };

    fn clone(&self) -> Result<Self, AllocError> {
        Ok(Keyed {
            inner: self.inner.clone()?,
            outer: self.outer.clone()?,
        })
    }
}
