//! Bytes without an end, one at a time, for the forms of entropy in memory.

ghost use Rattle.std.specs.Prelude.{◌≡◌, ℕ};
ghost use Rattle.ks_outside.specs.Draws.{led_by, followed};

/// Bytes without an end.
pub(crate) trait Endless {
    ghost coming: { Self → ℕ → ℕ };

    /// The next byte.
    fn next_byte(&mut self) -> u8
        ensures { coming self.old ≡ led_by result (coming self.new) };
}

/// Fills `out` with the next bytes.
pub(crate) fn fill<B: Endless>(bytes: &mut B, out: &mut [u8])
    ensures { B.coming bytes.old ≡ followed out.new (B.coming bytes.new) }
{
    'bytes: for i in 0..out.len() {
        out[i] = bytes.next_byte();
    }
}
