//! The edge: the file of a store, by its path. No clause says what the system does with it; its tests do.

ghost use Rattle.std.specs.Prelude.{◌≡◌, ◌≤◌, ℕ, List, Bool, Option, length, IfOk, ⊤};
ghost use Rattle.std.specs.Result.{result_ok};
ghost use Rattle.file_disk.specs.Unsynced.{none};

use crate::disk::FileDisk;
use crate::real_file::RealFile;
use crate::trouble::Trouble;
use std::fs;
use std::fs::{Metadata, OpenOptions, TryLockError};
use std::io::{Error, ErrorKind};
use std::os::fd::AsRawFd;
use std::os::unix::fs::{FileExt, MetadataExt, OpenOptionsExt};
use std::rt::Files;

/// The greatest place of a file.
const LAST_PLACE: u64 = (1 << 63) - 1;

/// The greatest descriptor of a standard stream.
pub const LAST_STREAM: i32 = 2;

/// The file of a store. It is looked for, and locked, at its first call; as long as another holds its lock, each call fails and touches
/// nothing of it. Where there is none it reads as no bytes, and the first write makes it, for its owner alone (mode 0600). Once its path
/// leads to nothing, or to another file, each sync fails. The lock ends where this is dropped.
#[derive(Drop)]
pub struct StoreFile<'a, R> {
    rt: &'a R,
    path: &'a str,
    found: FoundFile,
    trouble: Option<Trouble>,
}

/// What stands at the path.
#[derive(Drop)]
enum FoundFile {
    /// it was not looked for yet
    Unknown,
    /// no file
    Nothing,
    /// this one
    File(LockedFile),
}

/// A file that is open and locked.
#[derive(Drop)]
struct LockedFile {
    file: fs::File,
    identity: Identity,
    /// Whether what a read gives is what the disk has, or was written through this file.
    is_fresh: bool,
    /// Whether its path led elsewhere at a sync.
    is_moved: bool,
}

/// Which file it is, whatever its path.
#[derive(Clone, Copy, PartialEq, Eq)]
struct Identity {
    device: u64,
    number: u64,
}

impl Identity {
    fn of(data: &Metadata) -> Identity {
        Identity {
            device: data.dev(),
            number: data.ino(),
        }
    }
}

/// The store in a file, as a disk.
pub fn open_store<'a, R: Files<File = fs::File>>(
    rt: &'a R,
    path: &'a str,
) -> FileDisk<StoreFile<'a, R>>
    ensures faults { result.faults.count ≡ 0 }
    ensures range { result.unsynced ≡ none }
{
    FileDisk::new(StoreFile {
        rt,
        path,
        found: FoundFile::Unknown,
        trouble: None,
    })
}

impl<R: Files<File = fs::File>> FileDisk<StoreFile<'_, R>> {
    /// Cuts the file to no bytes, where it is there and no other holds its lock; whether that was done. It is no call of the disk: whoever makes
    /// a store anew calls it first, so that the file holds nothing of the one that was there.
    pub fn cut(&mut self) -> bool {
        let answer = self.file.try_cut();
        self.file.noted(answer).is_some()
    }
}

impl LockedFile {
    /// Locks a regular file that was opened at no standard stream's descriptor.
    fn of(file: fs::File, is_fresh: bool) -> Result<LockedFile, Trouble> {
        if file.as_raw_fd() <= LAST_STREAM {
            return Err(Trouble::Stream);
        }
        let data = file.metadata()?;
        if !data.is_file() {
            return Err(Trouble::NoFile);
        }
        match file.try_lock() {
            Ok(()) => Ok(LockedFile {
                file,
                identity: Identity::of(&data),
                is_fresh,
                is_moved: false,
            }),
            Err(TryLockError::WouldBlock) => Err(Trouble::InUse),
            Err(TryLockError::Error(error)) => Err(Trouble::System(error)),
        }
    }

    /// Fails where the path leads to nothing, or to another file, now or at an earlier sync.
    fn look<R: Files>(&mut self, rt: &R, path: &str) -> Result<(), Trouble> {
        if self.is_moved {
            return Err(Trouble::Moved);
        }
        match fs::metadata(rt, path) {
            Ok(data) if Identity::of(&data) == self.identity => Ok(()),
            Err(error) if error.kind() != ErrorKind::NotFound => Err(Trouble::System(error)),
            _ => {
                self.is_moved = true;
                Err(Trouble::Moved)
            }
        }
    }

    /// Syncs. Behind the first sync of a file that was there the system may drop its pages, so that what is read from then on is what the
    /// disk has: a sync that failed in an earlier process may have left pages that the disk has not.
    fn sync(&mut self) -> Result<(), Trouble> {
        self.file.sync_data()?;
        if !self.is_fresh {
            let advised = libc::posix_fadvise(
                self.file.as_raw_fd(),
                0,
                0,
                libc::POSIX_FADV_DONTNEED,
            );
            if advised != 0 {
                return Err(Trouble::System(Error::from_raw_os_error(advised)));
            }
            self.is_fresh = true;
        }
        Ok(())
    }
}

impl<R: Files<File = fs::File>> StoreFile<'_, R> {
    /// Why the last call that failed did so.
    pub fn trouble(&self) -> Option<&Trouble> {
        self.trouble.as_ref()
    }

    /// Whether it was looked for, and there is no file.
    pub fn is_absent(&self) -> bool {
        matches!(self.found, FoundFile::Nothing)
    }

    /// The file at the path, where there is one.
    fn look_for(&self) -> Result<FoundFile, Trouble> {
        match OpenOptions::new()
            .read(true)
            .write(true)
            .open(self.rt, self.path)
        {
            Ok(file) => Ok(FoundFile::File(LockedFile::of(file, false)?)),
            Err(error) if error.kind() != ErrorKind::NotFound => Err(Trouble::System(error)),
            Err(_) => match fs::symlink_metadata(self.rt, self.path) {
                Ok(_) => Err(Trouble::NoFile),
                Err(_) => Ok(FoundFile::Nothing),
            },
        }
    }

    /// The file, where there is one; the first call looks for it.
    fn file(&mut self) -> Result<Option<&mut LockedFile>, Trouble> {
        if matches!(self.found, FoundFile::Unknown) {
            self.found = self.look_for()?;
        }
        match &mut self.found {
            FoundFile::File(locked) => Ok(Some(locked)),
            _ => Ok(None),
        }
    }

    /// Makes what the path's folder says last.
    fn sync_folder(&self) -> Result<(), Trouble> {
        let folder = match self.path.rsplit_once('/') {
            Some((folder, _)) => folder,
            None => ".",
        };
        let folder = fs::open(self.rt, folder)?;
        Ok(folder.sync_all()?)
    }

    /// Makes the file, empty, where there is none; its folder names it from then on, also behind a power cut.
    fn make(&mut self) -> Result<(), Trouble> {
        if self.file()?.is_some() {
            return Ok(());
        }
        let file = OpenOptions::new()
            .read(true)
            .write(true)
            .create_new(true)
            .mode(0o600)
            .open(self.rt, self.path)?;
        let locked = LockedFile::of(file, true)?;
        self.sync_folder()?;
        self.found = FoundFile::File(locked);
        Ok(())
    }

    fn try_cut(&mut self) -> Result<(), Trouble> {
        match self.file()? {
            Some(locked) => Ok(locked.file.set_len(0)?),
            None => Ok(()),
        }
    }

    fn try_read(&mut self, at: u64, out: &mut [u8]) -> Result<usize, Trouble>
        ensures within { IfOk result (λ n. n ≤ length out.new) }
    {
        match self.file()? {
            Some(locked) if at <= LAST_PLACE => Ok(locked.file.read_at(out, at)?),
            _ => Ok(0),
        }
    }

    fn try_write(&mut self, at: u64, piece: &[u8]) -> Result<(), Trouble> {
        if at > LAST_PLACE || piece.len() as u64 > LAST_PLACE - at {
            return Err(Trouble::TooFar);
        }
        self.make()?;
        match self.file()? {
            Some(locked) => Ok(locked.file.write_all_at(piece, at)?),
            None => Err(Trouble::Moved),
        }
    }

    fn try_length(&mut self) -> Result<u64, Trouble> {
        match self.file()? {
            Some(locked) => Ok(locked.file.metadata()?.len()),
            None => Ok(0),
        }
    }

    fn try_sync(&mut self) -> Result<(), Trouble> {
        let (rt, path) = (self.rt, self.path);
        match self.file()? {
            Some(locked) => {
                locked.look(rt, path)?;
                locked.sync()
            }
            None => Ok(()),
        }
    }

    /// What a call gives, where it did not fail; its trouble is kept.
    fn noted<T>(&mut self, answer: Result<T, Trouble>) -> Option<T>
        ensures { result ≡ result_ok answer }
    {
        match answer {
            Ok(given) => Some(given),
            Err(trouble) => {
                self.trouble = Some(trouble);
                None
            }
        }
    }
}

impl<R: Files<File = fs::File>> RealFile for StoreFile<'_, R> {
    ghost did_read = { λ _ _ _ _ _. ⊤ };

    ghost did_write = { λ _ _ _ _ _. ⊤ };

    ghost did_measure = { λ _ _ _. ⊤ };

    ghost did_sync = { λ _ _ _. ⊤ };

    fn read_at(&mut self, at: u64, out: &mut [u8]) -> Option<usize> {
        let answer = self.try_read(at, out);
        self.noted(answer)
    }

    fn write_all_at(&mut self, at: u64, piece: &[u8]) -> Option<()> {
        let answer = self.try_write(at, piece);
        self.noted(answer)
    }

    fn length(&mut self) -> Option<u64> {
        let answer = self.try_length();
        self.noted(answer)
    }

    fn sync(&mut self) -> Option<()> {
        let answer = self.try_sync();
        self.noted(answer)
    }
}
