//! Passes, notes and makers at rest, in types that do not name the value behind the lock.
ghost use Rattle.std.specs.Prelude.{◌≡◌};
ghost use Rattle.turn_lock.specs.Passes.{front, note_front, number_of, made_of, IsPassOf, IsNoteOf, IsMakerOf};
ghost use Rattle.turn_lock.specs.Resting.{resting_front, resting_note_front, resting_number, resting_made, IsRestingPassOf, IsRestingNoteOf, IsRestingMakerOf};

use super::{LockPass, Maker, Note, RestingMaker, RestingNote, RestingPass, TurnLock};
use crate::history::History;

impl<T: History<E, K>, E, K> TurnLock<T, E, K> {
    /// The same pass, at rest.
    pub fn rest(&self, pass: LockPass<T, E, K>) -> RestingPass<E, K>
        requires ours { IsPassOf self.now pass }
        ensures ours { IsRestingPassOf self.now result }
        ensures same { (resting_number result ≡ number_of pass) × (resting_front result ≡ front pass) }
    {
        let LockPass { seat, number } = pass;
        RestingPass {
            badge: seat.into_badge(),
            number,
        }
    }

    /// The same pass, for a turn.
    pub fn wake(&self, pass: RestingPass<E, K>) -> LockPass<T, E, K>
        requires ours { IsRestingPassOf self.now pass }
        ensures ours { IsPassOf self.now result }
        ensures same { (number_of result ≡ resting_number pass) × (front result ≡ resting_front pass) }
    {
        let RestingPass { badge, number } = pass;
        LockPass {
            seat: badge.into_seat(),
            number,
        }
    }

    /// The same note, at rest.
    pub fn rest_note(&self, note: Note<T, E, K>) -> RestingNote<E, K>
        requires ours { IsNoteOf self.now note }
        ensures ours { IsRestingNoteOf self.now result }
        ensures same { resting_note_front result ≡ note_front note }
    {
        let Note { seat } = note;
        RestingNote {
            badge: seat.into_badge(),
        }
    }

    /// The same note, for a meeting.
    pub fn wake_note(&self, note: RestingNote<E, K>) -> Note<T, E, K>
        requires ours { IsRestingNoteOf self.now note }
        ensures ours { IsNoteOf self.now result }
        ensures same { note_front result ≡ resting_note_front note }
    {
        let RestingNote { badge } = note;
        Note {
            seat: badge.into_seat(),
        }
    }

    /// The same maker, at rest.
    pub fn rest_maker(&self, maker: Maker<T, E, K>) -> RestingMaker<E, K>
        requires ours { IsMakerOf self.now maker }
        ensures ours { IsRestingMakerOf self.now result }
        ensures same { resting_made result ≡ made_of maker }
    {
        let Maker { seat, made } = maker;
        RestingMaker {
            badge: seat.into_badge(),
            made,
        }
    }

    /// The same maker, for the last turn.
    pub fn wake_maker(&self, maker: RestingMaker<E, K>) -> Maker<T, E, K>
        requires ours { IsRestingMakerOf self.now maker }
        ensures ours { IsMakerOf self.now result }
        ensures same { made_of result ≡ resting_made maker }
    {
        let RestingMaker { badge, made } = maker;
        Maker {
            seat: badge.into_seat(),
            made,
        }
    }
}

impl<E, K> RestingPass<E, K> {
    /// Its number: no other pass of its lock has the same.
    pub fn number(&self) -> u64
        ensures { result ≡ resting_number self.now }
    {
        self.number
    }
}
