//! The one call of a real reader or writer. What the adapters make of its answer is proved for every object, and an adapter
//! cannot say what an object answered but by that call.

ghost use Rattle.std.specs.Prelude.{◌≡◌, ℕ, ◌≤◌, List, Option, Some, None, ⊤, length, IfSome};
ghost use Rattle.ks_outside.specs.Adapters.{AskConsumes, GiveAppends};

use std::io::{Read, Write};

/// A real object that gives bytes.
pub trait RealReader {
    /// The bytes left, where they are known.
    ghost left: { Self → Option (List ℕ) };

    /// One call led from the first state to the second, left `out` so, and gave this answer.
    ghost answered: { Self → Self → List ℕ → Option ℕ → Type 0 };

    /// Its one call: how many bytes it put at the front of `out`, or None where it failed.
    fn ask(&mut self, out: &mut [u8]) -> Option<usize>
        ensures within { IfSome result (λ n. n ≤ length out.new) }
        ensures bytes { AskConsumes (left self.old) (left self.new) result out.new }
        ensures answered { answered self.old self.new out.new result };
}

impl<R: Read> RealReader for R {
    ghost left = { λ r. R.Read.remaining r };

    ghost answered = { λ _ _ _ _. ⊤ };

    fn ask(&mut self, out: &mut [u8]) -> Option<usize> {
        self.read(out).ok()
    }
}

/// A real object that takes bytes.
pub trait RealWriter {
    /// The bytes held, where they are known.
    ghost held: { Self → Option (List ℕ) };

    /// One call for this piece led from the first state to the second, and gave this answer.
    ghost answered: { Self → Self → List ℕ → Option ℕ → Type 0 };

    /// Its one call: how many bytes it took of the front of `piece`, or None where it failed.
    fn give(&mut self, piece: &[u8]) -> Option<usize>
        ensures within { IfSome result (λ n. n ≤ length piece.now) }
        ensures bytes { GiveAppends (held self.old) (held self.new) result piece.now }
        ensures answered { answered self.old self.new piece.now result };
}

impl<W: Write> RealWriter for W {
    ghost held = { λ w. W.Write.contents w };

    ghost answered = { λ _ _ _ _. ⊤ };

    fn give(&mut self, piece: &[u8]) -> Option<usize> {
        self.write(piece).ok()
    }
}
