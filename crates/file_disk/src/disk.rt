//! A real file as a disk. It tells nothing of its content, and so has no image. Each call of the disk but a sync is one call of the file; a
//! sync behind one that failed writes again what was written since the last good one, before it syncs. So a disk on a file keeps the
//! sentence of every disk, that after a sync which answers Ok what a read gives lasts, also where the system tells a failed sync once and
//! then holds what was to be written for written. Its count of faults is a function of the answer.

ghost use Rattle.std.specs.Prelude.{◌≡◌, ◌≤◌, ℕ, List, Bool, Option, None, length, is_ok, IfOk};
ghost use Rattle.std.specs.Result.{result_ok};
ghost use Rattle.ks_outside.specs.Faults.{HasCause, count_after};
ghost use Rattle.file_disk.specs.Rewriting.{Syncs};
ghost use Rattle.ks_outside.specs.Telling.{none_is_some};
ghost use Rattle.file_disk.specs.Unsynced.{none, with, after_sync};

use crate::real_file::RealFile;
use crate::rewriting::make_last;
use crate::unsynced::Unsynced;
use ks_outside::{Disk, Failed, FaultCount};

/// A file as a disk. Each call that fails is one fault, whichever call of the file it failed in.
#[derive(Drop)]
pub struct FileDisk<F> {
    pub(crate) file: F,
    unsynced: Unsynced,
    faults: FaultCount,
}

impl<F> FileDisk<F> {
    /// Takes the file, to which nothing was written yet; no fault so far.
    pub fn new(file: F) -> FileDisk<F>
        ensures file { result.file ≡ file }
        ensures range { result.unsynced ≡ none }
        ensures faults { result.faults.count ≡ 0 }
    {
        FileDisk {
            file,
            unsynced: Unsynced::NONE,
            faults: FaultCount::new(),
        }
    }

    /// The file.
    pub fn file(&self) -> &F
        ensures { result.now ≡ self.now.file }
    {
        &self.file
    }

    /// What was written since the last sync that answered Ok.
    pub fn unsynced(&self) -> Unsynced
        ensures { result ≡ self.now.unsynced }
    {
        self.unsynced
    }
}

impl<F: RealFile> Disk for FileDisk<F> {
    ghost content = { λ _. None };

    ghost images = { λ _ _. ⊥ };

    ghost moment = { λ _. 0 };

    ghost images_since = { λ _ _ _. ⊥ };

    ghost fault_count = { λ d. d.faults.count };

    ghost content_is_image = { λ d c told. none_is_some c told };

    ghost counts_now = { λ d t c before now. now };

    ghost only_now = { λ d c was. was };

    fn read(&mut self, at: u64, out: &mut [u8]) -> Result<usize, Failed>
        ensures within { IfOk result (λ n. n ≤ length out.new) }
        ensures cause { HasCause self.old.faults.count self.new.faults.count result }
        ensures did { F.did_read self.old.file self.new.file at out.new (result_ok result) }
        ensures range { self.new.unsynced ≡ self.old.unsynced }
        ensures counts { self.new.faults.count ≡ count_after result self.old.faults.count }
    {
        let answer = self.file.read_at(at, out).ok_or(Failed);
        self.faults = self.faults.after(&answer);
        answer
    }

    fn write_at(&mut self, at: u64, piece: &[u8]) -> Result<(), Failed>
        ensures cause { HasCause self.old.faults.count self.new.faults.count result }
        ensures did { F.did_write self.old.file self.new.file at piece.now (is_ok result) }
        ensures range { self.new.unsynced ≡ with self.old.unsynced at (length piece.now) }
        ensures counts { self.new.faults.count ≡ count_after result self.old.faults.count }
    {
        let answer = self.file.write_all_at(at, piece).ok_or(Failed);
        self.unsynced = self.unsynced.with(at, piece.len());
        self.faults = self.faults.after(&answer);
        answer
    }

    fn len(&mut self) -> Result<u64, Failed>
        ensures cause { HasCause self.old.faults.count self.new.faults.count result }
        ensures did { F.did_measure self.old.file self.new.file (result_ok result) }
        ensures range { self.new.unsynced ≡ self.old.unsynced }
        ensures counts { self.new.faults.count ≡ count_after result self.old.faults.count }
    {
        let answer = self.file.length().ok_or(Failed);
        self.faults = self.faults.after(&answer);
        answer
    }

    fn sync(&mut self) -> Result<(), Failed>
        ensures cause { HasCause self.old.faults.count self.new.faults.count result }
        ensures did { Syncs F.RealFile self.old.unsynced self.old.file self.new.file (is_ok result) }
        ensures range { self.new.unsynced ≡ after_sync self.old.unsynced (is_ok result) }
        ensures counts { self.new.faults.count ≡ count_after result self.old.faults.count }
    {
        let answer = make_last(&mut self.file, self.unsynced).ok_or(Failed);
        self.unsynced = self.unsynced.after_sync(answer.is_ok());
        self.faults = self.faults.after(&answer);
        answer
    }

    fn faults(&self) -> u64 {
        self.faults.count()
    }
}
