//! The four hash functions as one trait.

ghost use Rattle.std.specs.Prelude.{◌≡◌, ℕ, ◌+◌, ◌≤◌, List, ◌++◌, length, take, drop};
ghost use Rattle.sha2.specs.Sha256.{sha224, sha256};
ghost use Rattle.sha2.specs.Sha512.{sha384, sha512};

use sha2::{Digest, Sha224, Sha256, Sha384, Sha512};

/// A hash function whose digest fits 64 bytes and whose block fits 128.
pub trait Hash: Digest {
    /// The digest of a message.
    ghost hash: { List ℕ → List ℕ };

    /// The block size in bytes.
    ghost block: { ℕ };

    /// The block size in bytes.
    fn block_bytes() -> usize
        ensures block { result ≡ block }
        ensures room { 64 ≤ result }
        ensures within { result ≤ 128 };

    /// Writes the digest of the message at the front of `out`, and returns its length in bytes.
    fn finish_into(self, out: &mut [u8; 64]) -> usize
        ensures size { result ≡ Self.size }
        ensures within { result ≤ 64 }
        ensures digest { (m : List ℕ) → Self.holds self m → take result out.new ≡ hash m }
        ensures rest { drop result out.new ≡ drop result out.old };
}

/// Writes `bytes` at the front of `out`.
pub(crate) fn put_front(out: &mut [u8], bytes: &[u8])
    requires { length bytes.now ≤ length out.old }
    ensures { out.new ≡ bytes.now ++ drop (length bytes.now) out.old }
{
    out[..bytes.len()].copy_from_slice(bytes);
}

/// Writes a digest at the front of `out`, and returns its length.
fn put_digest<const N: usize>(out: &mut [u8; 64], digest: &[u8; N]) -> usize
    requires { N ≤ 64 }
    ensures size { result ≡ N }
    ensures front { take N out.new ≡ digest.now }
    ensures rest { drop N out.new ≡ drop N out.old }
{
    put_front(out, digest);
    N
}

impl Hash for Sha224 {
    ghost hash = { λ m. sha224 m };

    ghost block = { 64 };

    fn block_bytes() -> usize {
        64
    }

    fn finish_into(self, out: &mut [u8; 64]) -> usize {
        put_digest(out, &self.finalize())
    }
}

impl Hash for Sha256 {
    ghost hash = { λ m. sha256 m };

    ghost block = { 64 };

    fn block_bytes() -> usize {
        64
    }

    fn finish_into(self, out: &mut [u8; 64]) -> usize {
        put_digest(out, &self.finalize())
    }
}

impl Hash for Sha384 {
    ghost hash = { λ m. sha384 m };

    ghost block = { 128 };

    fn block_bytes() -> usize {
        128
    }

    fn finish_into(self, out: &mut [u8; 64]) -> usize {
        put_digest(out, &self.finalize())
    }
}

impl Hash for Sha512 {
    ghost hash = { λ m. sha512 m };

    ghost block = { 128 };

    fn block_bytes() -> usize {
        128
    }

    fn finish_into(self, out: &mut [u8; 64]) -> usize {
        put_digest(out, &self.finalize())
    }
}
