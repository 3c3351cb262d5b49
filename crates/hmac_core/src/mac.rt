//! The mac by its digest number.

ghost use Rattle.std.specs.Prelude.{◌≡◌, ℕ, ◌≤◌, List, [], ◌++◌, take, drop, ⊤};
ghost use Rattle.hmac_core.specs.Hmac as spec;

use crate::keyed::Keyed;
use sha2::{Sha224, Sha256, Sha384, Sha512};
use std::alloc::AllocError;

/// A message authentication code on its way: a key, and the text taken so far. It can be cloned,
/// which takes no memory, so one that was made from a key serves many texts.
#[derive(Drop)]
pub struct Hmac {
    state: State,
}

/// The keyed hashers of one of the four hash functions.
#[derive(Drop)]
enum State {
    Sha224(Keyed<Sha224>),
    Sha256(Keyed<Sha256>),
    Sha384(Keyed<Sha384>),
    Sha512(Keyed<Sha512>),
}

/// The length of a mac in bytes, by its digest number.
pub fn digest_size(digest: u8) -> usize
    requires known { 3 ≤ digest }
    requires within { digest ≤ 6 }
    ensures { result ≡ spec.digest_size digest }
{
    match digest {
        3 => 28,
        4 => 32,
        5 => 48,
        _ => 64,
    }
}

impl Hmac {
    ghost use Rattle.hmac_core.specs.State.{Holds};

    /// The code of the empty text under a key of any length. `digest` names the hash function: 3
    /// SHA-224, 4 SHA-256, 5 SHA-384, 6 SHA-512 (FIPS 198-1 section 4).
    pub fn new(digest: u8, key: &[u8]) -> Hmac
        requires known { 3 ≤ digest }
        requires within { digest ≤ 6 }
        ensures { Holds result digest key.now [] }
    {
        let state = match digest {
            3 => State::Sha224(Keyed::new(key)),
            4 => State::Sha256(Keyed::new(key)),
            5 => State::Sha384(Keyed::new(key)),
            _ => State::Sha512(Keyed::new(key)),
        };
        Hmac { state }
    }

    /// Adds `input` to the text.
    pub fn update(&mut self, input: &[u8])
        ensures { (digest : ℕ) (key text : List ℕ) → Holds self.old digest key text → Holds self.new digest key (text ++ input.now) }
    {
        match &mut self.state {
            State::Sha224(keyed) => keyed.update(input),
            State::Sha256(keyed) => keyed.update(input),
            State::Sha384(keyed) => keyed.update(input),
            State::Sha512(keyed) => keyed.update(input),
        }
    }

    /// Writes the mac of the text at the front of `out`, and returns its length in bytes (28, 32, 48
    /// or 64). A shorter mac is its leftmost bytes.
    pub fn finish(self, out: &mut [u8; 64]) -> usize
        ensures within { result ≤ 64 }
        ensures size { (digest : ℕ) (key text : List ℕ) → Holds self digest key text → result ≡ spec.digest_size digest }
        ensures mac { (digest : ℕ) (key text : List ℕ) → Holds self digest key text → take result out.new ≡ spec.hmac digest key text }
        ensures rest { drop result out.new ≡ drop result out.old }
    {
        match self.state {
            State::Sha224(keyed) => keyed.finish(out),
            State::Sha256(keyed) => keyed.finish(out),
            State::Sha384(keyed) => keyed.finish(out),
            State::Sha512(keyed) => keyed.finish(out),
        }
    }
}

impl Clone for Hmac {
    ghost is_clone = { λ x y. y ≡ x };

    ghost is_infallible = { λ _. ⊤ };

    fn clone(&self) -> Result<Hmac, AllocError> {
        let state = match &self.state {
            State::Sha224(keyed) => State::Sha224(keyed.clone()?),
            State::Sha256(keyed) => State::Sha256(keyed.clone()?),
            State::Sha384(keyed) => State::Sha384(keyed.clone()?),
            State::Sha512(keyed) => State::Sha512(keyed.clone()?),
        };
        Ok(Hmac { state })
    }
}
