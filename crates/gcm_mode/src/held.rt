//! The bytes at the end of what an opening has taken, which may be the tag.

ghost use Rattle.std.specs.Prelude.{◌≡◌, ◌+◌, ◌≤◌, ◌++◌, [], drop, length, min, take};

use crate::bytes::put_joined;
use std::marker::Model;

/// The last bytes of a string, held back: as many as a tag has, or all where they are fewer. Contracts see the list
/// and the tag's size.
#[derive(Drop)]
pub(crate) struct HeldBack {
    bytes: [u8; 16],
    len: usize,
    most: usize,
}

impl Model for HeldBack {
    ghost use Rattle.std.specs.Prelude.{ℕ, ◌≤◌, take};
    ghost use Rattle.gcm_mode.specs.HeldBytes.{HeldBytes};

    ghost Value = { HeldBytes };

    ghost view = { λ s. record { bytes = take s.len s.bytes; most = s.most } };

    ghost invariant = { λ s. (s.len ≤ s.most) × (s.most ≤ 16) };
}

impl HeldBack {
    pub(crate) fn new(most: usize) -> HeldBack
        requires { most ≤ 16 }
        ensures bytes { result.bytes ≡ [] }
        ensures most { result.most ≡ most }
    {
        HeldBack {
            bytes: [0; 16],
            len: 0,
            most,
        }
    }

    /// The bytes.
    pub(crate) fn bytes(&self) -> &[u8]
        ensures value { result.now ≡ self.now.bytes }
        ensures most { length result.now ≤ self.now.most }
        ensures fits { self.now.most ≤ 16 }
    {
        &self.bytes[..self.len]
    }

    /// Takes `input` behind what is held, and puts all but the last bytes, which it holds back, at the front of `out`.
    /// Tells how many it put.
    pub(crate) fn pass(&mut self, input: &[u8], out: &mut [u8]) -> usize
        requires { length input.now ≤ length out.old }
        ensures joined { take result out.new ++ self.new.bytes ≡ self.old.bytes ++ input.now }
        ensures kept { length self.new.bytes ≡ min self.old.most (length self.old.bytes + length input.now) }
        ensures most { self.new.most ≡ self.old.most }
        ensures rest { drop result out.new ≡ drop result out.old }
        ensures within { result ≤ length input.now }
    {
        let given = (self.len + input.len()).saturating_sub(self.most);
        let from_held = given.min(self.len);
        let from_input = given - from_held;
        put_joined(out, &self.bytes[..from_held], &input[..from_input]);
        let mut bytes = [0; 16];
        put_joined(
            &mut bytes,
            &self.bytes[from_held..self.len],
            &input[from_input..],
        );
        self.len = self.len - from_held + (input.len() - from_input);
        self.bytes = bytes;
        given
    }
}
