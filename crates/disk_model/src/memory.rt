//! A disk in memory.

ghost use Rattle.std.specs.Prelude.{◌≡◌, ◌↔◌, [], ◌∷◌, ◌++◌, ◌+◌, ◌-◌, ◌^◌, ◌<◌, ◌≤◌, ℕ, List, Contains, IsOk, IsErr, length, take, drop, reverse, Some, IfOk, OnOk, OnErr, min};
ghost use Rattle.ks_outside.specs.Faults.{HasCause, one_more};
ghost use Rattle.ks_outside.specs.Ranges.{Holds, Torn, Gives, Becomes};
ghost use Rattle.ks_outside.specs.Moments.{Follows, Elapses};
ghost use Rattle.disk_model.specs.CrashImages.{overwritten, content_of, IsImage, WasImage};
ghost use Rattle.disk_model.specs.Laws.{content_is_image, counts_now, only_now};
ghost use Rattle.disk_model.specs.Chosen.{chosen, image_of};
ghost use Rattle.disk_model.specs.Limits.{IsWithin};
ghost use Rattle.disk_model.specs.Pages.{AreBytes, pages_over};
ghost use Rattle.disk_model.specs.DiskCalls.{Wrote, Synced};

use crate::calls::CallList;
use crate::image::{Choice, replayed};
use crate::pages::Pages;
use ks_outside::{Disk, Failed, FailingCalls, FaultCount};
use std::alloc::{AllocError, Global};

/// Room that a disk in memory takes when it is made.
#[derive(Clone, Copy, Debug)]
pub struct DiskRoom {
    /// for so many writes and syncs
    pub calls: usize,
    /// for so many bytes, in all pieces that are written
    pub bytes: usize,
    /// for so many pages of 4,096 bytes that are written to
    pub pages: usize,
}

/// A disk in memory, empty at first. It keeps each write and sync that it made, in order, and the pages of 4,096
/// bytes that were written; a place that was never written reads 00. It carries the numbers of the calls that are
/// to fail. A write or sync for which there is room fails only where it is to fail; where the room is used up and
/// no more memory is found, or a write would pass the place 2^64 - 1, it fails too. A call that fails changes
/// nothing but the count of faults.
#[derive(Drop)]
pub struct MemoryDisk<'a> {
    alloc: Global,
    pages: Pages,
    size: u64,
    calls: CallList,
    plan: FailingCalls<'a>,
    faults: FaultCount,
    ghost sized: { size ≡ length (content_of (reverse calls.made)) },
    ghost kept: { AreBytes pages.rows (content_of (reverse calls.made)) },
}

impl<'a> MemoryDisk<'a> {
    ghost use Rattle.disk_model.specs.Words.{made_by, first_made_by, count_of, reads, SameCalls};
    ghost use Rattle.disk_model.specs.Words.{failing, asked_of, WasToFail, faults_of, HasRoom, HasRoomToWrite, TakesRoom};

    /// An empty disk with this room. The calls with the numbers `to_fail`, counted from 1, are to fail.
    pub fn with_room(
        alloc: Global,
        room: DiskRoom,
        to_fail: &'a [u64],
    ) -> Result<MemoryDisk<'a>, AllocError>
        ensures empty { IfOk result (λ d. made_by d ≡ []) }
        ensures room { IfOk result (λ d. HasRoom d room.calls room.bytes room.pages) }
        ensures failing { IfOk result (λ d. failing d ≡ to_fail.now) }
        ensures none { IfOk result (λ d. asked_of d ≡ 0) }
        ensures faults { IfOk result (λ d. faults_of d ≡ 0) }
    {
        Ok(MemoryDisk {
            alloc,
            pages: Pages::with_room(alloc, room.pages)?,
            size: 0,
            calls: CallList::with_room(alloc, room.calls, room.bytes)?,
            plan: FailingCalls::new(to_fail),
            faults: FaultCount::new(),
        })
    }

    /// How many writes and syncs were made.
    pub fn count(&self) -> usize
        ensures { result ≡ count_of self.now }
    {
        self.calls.len()
    }

    /// What no crash can do: each image of each moment has every byte that no write since the newest sync before it
    /// touched, and ends where that sync ended, or at most where those writes end.
    pub fn images_keep(&self)
        ensures { (calls : ℕ) (c : List ℕ) → IsImage (first_made_by calls self.now) c
            → IsWithin (first_made_by calls self.now) c }
    {}

    /// The disk as a crash after the first `calls` of its writes and syncs may leave it, opened again. The choice
    /// with a write's number among them, counted from 0, says what its range holds, where no sync came behind it;
    /// where there is no such choice it holds what was written. No call of the new disk is to fail.
    pub fn image_after(
        &self,
        calls: usize,
        choices: &[Choice],
    ) -> Result<MemoryDisk<'static>, AllocError>
        requires { calls ≤ count_of self.now }
        ensures image { IfOk result (λ d. reads d ≡ image_of choices.now (first_made_by calls self.now)) }
        ensures possible { IfOk result (λ d. IsImage (first_made_by calls self.now) (reads d)) }
        ensures settled { IfOk result (λ d. (c : List ℕ) → IsImage (made_by d) c → c ≡ reads d) }
    {
        let disk = replayed(self.alloc, &self.calls, calls, choices)?;
        Ok(disk)
    }

    /// Whether the next call goes on. One that is to fail is counted as a fault.
    fn goes_on(&mut self) -> Result<(), Failed>
        ensures planned { IsErr result ↔ WasToFail self.new }
        ensures failing { failing self.new ≡ failing self.old }
        ensures asked { asked_of self.new ≡ one_more (asked_of self.old) }
        ensures cause { HasCause (faults_of self.old) (faults_of self.new) result }
        ensures pages { self.new.pages ≡ self.old.pages }
        ensures size { self.new.size ≡ self.old.size }
        ensures calls { self.new.calls ≡ self.old.calls }
    {
        if self.plan.next_fails() {
            self.faults.rise();
            return Err(Failed);
        }
        Ok(())
    }

    /// Makes a write, and keeps it as a call.
    fn make_write(&mut self, at: u64, piece: &[u8]) -> Result<(), AllocError>
        ensures calls { OnOk result (made_by self.new ≡ Wrote at piece.now ∷ made_by self.old) }
        ensures content { OnOk result (reads self.new ≡ overwritten at piece.now (reads self.old)) }
        ensures count { OnOk result (count_of self.new ≡ count_of self.old + 1) }
        ensures same { OnErr result (SameCalls self.old self.new) }
        ensures succeeds { HasRoomToWrite self.old at (length piece.now) → IsOk result }
        ensures room { TakesRoom self.old self.new 1 (length piece.now) (pages_over at (length piece.now)) }
        ensures plan { self.new.plan ≡ self.old.plan }
        ensures faults { self.new.faults ≡ self.old.faults }
    {
        let Some(end) = at.checked_add(piece.len() as u64) else {
            return Err(AllocError);
        };
        self.calls.reserve(piece.len())?;
        self.pages.hold(at, piece.len())?;
        self.pages.write(at, piece);
        self.size = self.size.max(end);
        self.calls.push_write(at, piece);
        Ok(())
    }

    /// Makes a write as it is chosen.
    pub(crate) fn replay(&mut self, at: u64, piece: &[u8], choice: Choice) -> Result<(), AllocError>
        ensures { OnOk result (reads self.new ≡ chosen choice at piece.now (reads self.old)) }
    {
        match choice {
            Choice::New => self.make_write(at, piece),
            Choice::Old => Ok(()),
            Choice::Filled(byte) => {
                let bytes = vec![in self.alloc; byte; piece.len()]?;
                self.make_write(at, bytes.as_slice())
            }
        }
    }

    /// Keeps a sync as a call.
    pub(crate) fn make_sync(&mut self) -> Result<(), AllocError>
        ensures calls { OnOk result (made_by self.new ≡ Synced ∷ made_by self.old) }
        ensures succeeds { HasRoom self.old 1 0 0 → IsOk result }
        ensures count { OnOk result (count_of self.new ≡ count_of self.old + 1) }
        ensures same { OnErr result (SameCalls self.old self.new) }
        ensures room { TakesRoom self.old self.new 1 0 0 }
        ensures plan { self.new.plan ≡ self.old.plan }
        ensures faults { self.new.faults ≡ self.old.faults }
    {
        self.calls.push_sync()
    }

    /// Fills `out` with the bytes from a place on.
    fn fill(&self, at: u64, out: &mut [u8])
        requires there { 0 < length out.old → at + length out.old ≤ length (reads self.now) }
        requires few { at + length out.old < 2 ^ 64 }
        ensures { out.new ≡ take (length out.old) (drop at (reads self.now)) }
    {
        self.pages.read(at, out);
    }

    /// Puts the bytes from a place on, as many as there are and fit, at the front of `out`.
    fn copy_to(&self, at: u64, out: &mut [u8]) -> usize
        ensures count { result ≡ min (length out.old) (length (reads self.now) - at) }
        ensures front { take result out.new ≡ take result (drop at (reads self.now)) }
        ensures rest { drop result out.new ≡ drop result out.old }
        ensures within { length out.new ≡ length out.old }
    {
        let left = self.size.saturating_sub(at);
        let count = left.min(out.len() as u64) as usize;
        let (front, _) = out.split_at_mut(count);
        self.fill(at, front);
        count
    }
}

impl Disk for MemoryDisk<'_> {
    ghost use Rattle.disk_model.specs.Words.{made_by, count_of, reads, SameCalls};
    ghost use Rattle.disk_model.specs.Words.{failing, asked_of, WasToFail, faults_of, HasRoom, HasRoomToWrite, TakesRoom};

    ghost content = { λ d. Some (reads d) };

    ghost images = { λ d. IsImage (made_by d) };

    ghost moment = { λ d. count_of d };

    ghost images_since = { λ d. WasImage (made_by d) };

    ghost fault_count = { λ d. faults_of d };

    ghost content_is_image = { λ d c told. content_is_image (made_by d) c told };

    ghost counts_now = { λ d t c before now. counts_now d.calls.made t c before now };

    ghost only_now = { λ d c was. only_now d.calls.made c was };

    fn read(&mut self, at: u64, out: &mut [u8]) -> Result<usize, Failed>
        ensures within { IfOk result (λ n. n ≤ length out.new) }
        ensures bytes { IfOk result (λ n. Gives (Some (reads self.old)) at n (length out.old) out.new) }
        ensures content { Some (reads self.new) ≡ Some (reads self.old) }
        ensures images { (c : List ℕ) → IsImage (made_by self.new) c → IsImage (made_by self.old) c }
        ensures time { Elapses (count_of self.old) (count_of self.new) (WasImage (made_by self.old))
            (WasImage (made_by self.new)) (IsImage (made_by self.new)) }
        ensures cause { HasCause (faults_of self.old) (faults_of self.new) result }
        ensures planned { IsErr result ↔ WasToFail self.new }
        ensures whole { IfOk result (λ n. n ≡ min (length out.old) (length (reads self.old) - at)) }
        ensures same { SameCalls self.old self.new }
        ensures room { TakesRoom self.old self.new 0 0 0 }
        ensures failing { failing self.new ≡ failing self.old }
        ensures asked { asked_of self.new ≡ one_more (asked_of self.old) }
    {
        let Ok(()) = self.goes_on() else {
            return Err(Failed);
        };
        Ok(self.copy_to(at, out))
    }

    fn write_at(&mut self, at: u64, piece: &[u8]) -> Result<(), Failed>
        ensures written { OnOk result (Becomes (Holds at piece.now) (Some (reads self.old)) (Some (reads self.new))) }
        ensures torn { OnErr result (Becomes (Torn at (length piece.now)) (Some (reads self.old)) (Some (reads self.new))) }
        ensures images { Follows (Torn at (length piece.now)) (IsImage (made_by self.old)) (IsImage (made_by self.new)) }
        ensures nothing { OnErr result ((Some (reads self.new) ≡ Some (reads self.old))
            × ((c : List ℕ) → IsImage (made_by self.new) c → IsImage (made_by self.old) c)) }
        ensures time { Elapses (count_of self.old) (count_of self.new) (WasImage (made_by self.old))
            (WasImage (made_by self.new)) (IsImage (made_by self.new)) }
        ensures cause { HasCause (faults_of self.old) (faults_of self.new) result }
        ensures planned { WasToFail self.new → IsErr result }
        ensures made { OnOk result (made_by self.new ≡ Wrote at piece.now ∷ made_by self.old) }
        ensures same { OnErr result (SameCalls self.old self.new) }
        ensures succeeds { ¬ WasToFail self.new → HasRoomToWrite self.old at (length piece.now) → IsOk result }
        ensures room { TakesRoom self.old self.new 1 (length piece.now) (pages_over at (length piece.now)) }
        ensures failing { failing self.new ≡ failing self.old }
        ensures asked { asked_of self.new ≡ one_more (asked_of self.old) }
    {
        let Ok(()) = self.goes_on() else {
            return Err(Failed);
        };
        let Ok(()) = self.make_write(at, piece) else {
            self.faults.rise();
            return Err(Failed);
        };
        Ok(())
    }

    fn len(&mut self) -> Result<u64, Failed>
        ensures bytes { IfOk result (λ n. (c : List ℕ) → Some (reads self.old) ≡ Some c → n ≡ length c) }
        ensures content { Some (reads self.new) ≡ Some (reads self.old) }
        ensures images { (c : List ℕ) → IsImage (made_by self.new) c → IsImage (made_by self.old) c }
        ensures time { Elapses (count_of self.old) (count_of self.new) (WasImage (made_by self.old))
            (WasImage (made_by self.new)) (IsImage (made_by self.new)) }
        ensures cause { HasCause (faults_of self.old) (faults_of self.new) result }
        ensures planned { IsErr result ↔ WasToFail self.new }
        ensures same { SameCalls self.old self.new }
        ensures room { TakesRoom self.old self.new 0 0 0 }
        ensures failing { failing self.new ≡ failing self.old }
        ensures asked { asked_of self.new ≡ one_more (asked_of self.old) }
    {
        let Ok(()) = self.goes_on() else {
            return Err(Failed);
        };
        Ok(self.size)
    }

    fn sync(&mut self) -> Result<(), Failed>
        ensures synced { OnOk result ((c : List ℕ) → IsImage (made_by self.new) c → Some (reads self.new) ≡ Some c) }
        ensures content { Some (reads self.new) ≡ Some (reads self.old) }
        ensures images { (c : List ℕ) → IsImage (made_by self.new) c → IsImage (made_by self.old) c }
        ensures never { ⊥ → IsOk result }
        ensures time { Elapses (count_of self.old) (count_of self.new) (WasImage (made_by self.old))
            (WasImage (made_by self.new)) (IsImage (made_by self.new)) }
        ensures cause { HasCause (faults_of self.old) (faults_of self.new) result }
        ensures planned { WasToFail self.new → IsErr result }
        ensures made { OnOk result (made_by self.new ≡ Synced ∷ made_by self.old) }
        ensures same { OnErr result (SameCalls self.old self.new) }
        ensures succeeds { ¬ WasToFail self.new → HasRoom self.old 1 0 0 → IsOk result }
        ensures room { TakesRoom self.old self.new 1 0 0 }
        ensures failing { failing self.new ≡ failing self.old }
        ensures asked { asked_of self.new ≡ one_more (asked_of self.old) }
    {
        let Ok(()) = self.goes_on() else {
            return Err(Failed);
        };
        let Ok(()) = self.make_sync() else {
            self.faults.rise();
            return Err(Failed);
        };
        Ok(())
    }

    fn faults(&self) -> u64 {
        self.faults.count()
    }
}
