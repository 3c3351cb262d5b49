//! What one pass tells another.
ghost use Rattle.std.specs.Prelude.{◌≡◌, ◌⊎◌, ◌≤◌};
ghost use mathlib.Core.List.{IsPrefix};
ghost use Rattle.turn_lock.specs.Passes.{front, note_front, number_of, IsPassOf, IsNoteOf};
ghost use Rattle.turn_lock.specs.Fronts.{IsFrontOf};

use super::turns::LEVEL;
use super::{LockPass, Note, TurnLock};
use crate::history::History;
use crate::plays::{CatchUp, Compare, CopySeen, Gather};

impl<T: History<E, K>, E, K> TurnLock<T, E, K> {
    /// A copy of what a pass has seen.
    pub fn note(&self, pass: &mut LockPass<T, E, K>) -> Note<T, E, K>
        requires ours { IsPassOf self.now pass.old }
        ensures pass { IsPassOf self.now pass.new }
        ensures same { (number_of pass.new ≡ number_of pass.old) × (front pass.new ≡ front pass.old) }
        ensures note { IsNoteOf self.now result × (note_front result ≡ front pass.old) }
    {
        Note {
            seat: self.table.shared.split_seat::<CopySeen>(&mut pass.seat),
        }
    }

    /// The pass with the longer of both fronts, which has both at its beginning, and no more of the pass's own.
    pub fn meet(&self, pass: LockPass<T, E, K>, note: Note<T, E, K>) -> LockPass<T, E, K>
        requires ours { IsPassOf self.now pass }
        requires note { IsNoteOf self.now note }
        ensures pass { IsPassOf self.now result }
        ensures number { number_of result ≡ number_of pass }
        ensures one { (front result ≡ front pass) ⊎ (front result ≡ note_front note) }
        ensures this { IsFrontOf T.maker (number_of pass) (front pass) (front result) }
        ensures that { IsPrefix (note_front note) (front result) }
    {
        let LockPass { mut seat, number } = pass;
        let Note { seat: other } = note;
        let shared = &self.table.shared;
        shared.join_seat::<Gather>(&mut seat, other);
        shared.load::<Compare>(&mut seat, 0);
        LockPass { seat, number }
    }

    /// The pass, which has then seen the whole history, and a level that was told of it. No turn is taken.
    pub fn catch_up(&self, pass: LockPass<T, E, K>) -> (LockPass<T, E, K>, u64)
        requires ours { IsPassOf self.now pass }
        ensures pass { IsPassOf self.now result.0 }
        ensures number { number_of result.0 ≡ number_of pass }
        ensures level { result.1 ≤ T.level (front result.0) }
        ensures own { IsFrontOf T.maker (number_of pass) (front pass) (front result.0) }
    {
        let LockPass { mut seat, number } = pass;
        let level = self.table.shared.load::<CatchUp>(&mut seat, LEVEL);
        (LockPass { seat, number }, level)
    }
}
