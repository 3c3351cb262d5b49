//! The bytes of a disk that are still to be looked at, read a piece at a time.

ghost use Rattle.std.specs.Prelude.{◌≡◌, ◌≤◌, ◌<◌, ◌+◌, ◌-◌, ◌^◌, ◌++◌, ℕ, List, length, take, drop, min, IfOk, IfErr, OnOk, OnErr};
ghost use Rattle.ks_outside.specs.Images.{AllImages, Reads};
ghost use Rattle.disk_calls.specs.Still.{IsStill};
ghost use Rattle.disk_calls.specs.declared.ahead.TheConstants.{PIECE};
ghost use Rattle.journal_records.specs.Commits.{open_failed};
ghost use Rattle.record_areas.specs.Windows.{TellsNoPlace};

use disk_calls::{PIECE, read_still};
use journal_records::StoreFault;
use ks_outside::Disk;
use std::alloc::Global;
use tags::NoMemory;

/// Bytes from a place on, as far as they were read, and the limit before which they end. The first `done` of `bytes` were looked at.
#[derive(Drop)]
pub(crate) struct Window {
    place: u64,
    limit: u64,
    bytes: Vec<u8>,
    done: usize,
}

/// Reads at most so many bytes of a still disk from a place on, puts them behind others, and answers how many they are.
fn read_piece<D: Disk>(
    disk: &mut D,
    at: u64,
    most: usize,
    bytes: &mut Vec<u8>,
) -> Result<usize, StoreFault>
    requires still { IsStill D.Disk disk.old }
    requires few { most ≤ PIECE }
    requires fits { at + most ≤ 2 ^ 64 }
    ensures still { IsStill D.Disk disk.new }
    ensures more { IfOk result (λ n. (n ≤ most) × (length bytes.new.items ≡ length bytes.old.items + n)) }
    ensures front { take (length bytes.old.items) bytes.new.items ≡ bytes.old.items }
    ensures kept { OnErr result (bytes.new.items ≡ bytes.old.items) }
    ensures fault { IfErr result TellsNoPlace }
    ensures bytes { IfOk result (λ n. AllImages D.Disk disk.new (λ image.
        (bytes.new.items ≡ bytes.old.items ++ take n (drop at image)) × (n ≡ min most (length image - at)))) }
    ensures goes { Reads D.Disk disk.old disk.new (open_failed result) }
{
    let mut piece = [0; PIECE];
    let out = &mut piece[..most];
    let Ok(count) = read_still(disk, at, out) else {
        return Err(StoreFault::Device);
    };
    let Ok(()) = bytes.extend_from_slice(&out[..count]) else {
        return Err(StoreFault::Memory);
    };
    Ok(count)
}

impl Window {
    ghost use Rattle.record_areas.specs.Windows.{place_of, limit_of, held_by, IsWindow, IsSeen, HasSeen};

    /// Nothing was read yet.
    pub(crate) fn at(alloc: Global, place: u64, limit: u64) -> Window
        requires { place ≤ limit }
        ensures window { IsWindow result }
        ensures place { place_of result ≡ place }
        ensures limit { limit_of result ≡ limit }
        ensures seen { (image : List ℕ) → IsSeen result image }
    {
        Window {
            place,
            limit,
            bytes: Vec::new(alloc),
            done: 0,
        }
    }

    /// The place of the first byte.
    pub(crate) fn place(&self) -> u64
        ensures { result ≡ place_of self.now }
    {
        self.place
    }

    /// Before which place they end.
    pub(crate) fn limit(&self) -> u64
        ensures { result ≡ limit_of self.now }
    {
        self.limit
    }

    /// How many bytes there may be up to the limit.
    pub(crate) fn most(&self) -> u64
        requires { IsWindow self.now }
        ensures { result ≡ limit_of self.now - place_of self.now }
    {
        self.limit - self.place
    }

    /// The bytes.
    pub(crate) fn held(&self) -> &[u8]
        requires { IsWindow self.now }
        ensures { result.now ≡ held_by self.now }
    {
        &self.bytes[self.done..]
    }

    /// Goes on behind the first bytes.
    pub(crate) fn pass(&mut self, count: usize)
        requires window { IsWindow self.old }
        requires there { count ≤ length (held_by self.old) }
        ensures window { IsWindow self.new }
        ensures place { place_of self.new ≡ place_of self.old + count }
        ensures limit { limit_of self.new ≡ limit_of self.old }
        ensures held { held_by self.new ≡ drop count (held_by self.old) }
    {
        self.place += count as u64;
        self.done += count;
    }

    /// Lets the bytes go that were looked at.
    fn to_front(&mut self, alloc: Global) -> Result<(), NoMemory>
        requires { IsWindow self.old }
        ensures place { place_of self.new ≡ place_of self.old }
        ensures limit { limit_of self.new ≡ limit_of self.old }
        ensures held { held_by self.new ≡ held_by self.old }
        ensures window { IsWindow self.new }
        ensures front { OnOk result (self.new.done ≡ 0) }
    {
        self.bytes = Vec::from_slice(alloc, &self.bytes[self.done..])?;
        self.done = 0;
        Ok(())
    }

    /// Reads on until so many bytes are there, or all up to the limit.
    fn read_on<D: Disk>(&mut self, disk: &mut D, count: usize) -> Result<(), StoreFault>
        requires window { IsWindow self.old }
        requires front { self.old.done ≡ 0 }
        requires still { IsStill D.Disk disk.old }
        ensures window { IsWindow self.new }
        ensures still { IsStill D.Disk disk.new }
        ensures place { place_of self.new ≡ place_of self.old }
        ensures limit { limit_of self.new ≡ limit_of self.old }
        ensures front { take (length (held_by self.old)) (held_by self.new) ≡ held_by self.old }
        ensures seen { AllImages D.Disk disk.old (IsSeen self.old) → AllImages D.Disk disk.new (IsSeen self.new) }
        ensures enough { AllImages D.Disk disk.old (IsSeen self.old) → OnOk result (AllImages D.Disk disk.new (HasSeen count self.new)) }
        ensures fault { IfErr result TellsNoPlace }
        ensures goes { Reads D.Disk disk.old disk.new (open_failed result) }
    {
        'pieces: while self.bytes.len() < count {
            let from = self.place + self.bytes.len() as u64;
            let most = (self.limit - from).min(PIECE as u64) as usize;
            let read = read_piece(disk, from, most, &mut self.bytes)?;
            if read == 0 {
                return Ok(());
            }
        }
        Ok(())
    }

    /// Reads until so many bytes are there, or all up to the limit; nothing where they are.
    pub(crate) fn fill<D: Disk>(
        &mut self,
        alloc: Global,
        disk: &mut D,
        count: usize,
    ) -> Result<(), StoreFault>
        requires window { IsWindow self.old }
        requires still { IsStill D.Disk disk.old }
        ensures window { IsWindow self.new }
        ensures still { IsStill D.Disk disk.new }
        ensures place { place_of self.new ≡ place_of self.old }
        ensures limit { limit_of self.new ≡ limit_of self.old }
        ensures front { take (length (held_by self.old)) (held_by self.new) ≡ held_by self.old }
        ensures seen { AllImages D.Disk disk.old (IsSeen self.old) → AllImages D.Disk disk.new (IsSeen self.new) }
        ensures enough { AllImages D.Disk disk.old (IsSeen self.old) → OnOk result (AllImages D.Disk disk.new (HasSeen count self.new)) }
        ensures fault { IfErr result TellsNoPlace }
        ensures goes { Reads D.Disk disk.old disk.new (open_failed result) }
    {
        if count <= self.held().len() {
            return Ok(());
        }
        let Ok(()) = self.to_front(alloc) else {
            return Err(StoreFault::Memory);
        };
        self.read_on(disk, count)
    }
}
