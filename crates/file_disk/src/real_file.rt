//! The edge: the calls of a real file. What the adapter above makes of their answers is proved for every such file.

ghost use Rattle.std.specs.Prelude.{◌≤◌, ℕ, List, Bool, Option, length, is_some, IfSome};

/// A real file that is read and written at places. Each answer is None where the file failed.
pub trait RealFile {
    /// One read at the place led from the first state to the second, left `out` so, and gave this answer.
    ghost did_read: { Self → Self → ℕ → List ℕ → Option ℕ → Type 0 };

    /// One write of this piece at the place led from the first state to the second, and succeeded or not.
    ghost did_write: { Self → Self → ℕ → List ℕ → Bool → Type 0 };

    /// One question for the length led from the first state to the second, and gave this answer.
    ghost did_measure: { Self → Self → Option ℕ → Type 0 };

    /// One sync led from the first state to the second, and succeeded or not.
    ghost did_sync: { Self → Self → Bool → Type 0 };

    /// Its one read: how many bytes it put at the front of `out`.
    fn read_at(&mut self, at: u64, out: &mut [u8]) -> Option<usize>
        ensures within { IfSome result (λ n. n ≤ length out.new) }
        ensures did { did_read self.old self.new at out.new result };

    /// Its one write of the whole piece.
    fn write_all_at(&mut self, at: u64, piece: &[u8]) -> Option<()>
        ensures { did_write self.old self.new at piece.now (is_some result) };

    /// Its length in bytes.
    fn length(&mut self) -> Option<u64>
        ensures { did_measure self.old self.new result };

    /// Makes what was written last.
    fn sync(&mut self) -> Option<()>
        ensures { did_sync self.old self.new (is_some result) };
}
