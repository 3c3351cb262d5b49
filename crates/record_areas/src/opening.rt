//! Reading the next record of an area.

ghost use Rattle.std.specs.Prelude.{◌≡◌, ◌<◌, ◌≤◌, ◌+◌, ◌++◌, ℕ, List, length, take, drop, true, is_some, IfOk, IfErr, IfSome, IsErrOf, OnOk, OnErr, Some, None};
ghost use Rattle.ks_outside.specs.Images.{AllImages, Reads};
ghost use Rattle.disk_calls.specs.Still.{IsStill};
ghost use Rattle.byte_strings.specs.Codecs.{IsBytes};
ghost use Rattle.journal_records.specs.declared.record.Record.{Record};
ghost use Rattle.journal_records.specs.Commits.{open_failed};
ghost use Rattle.journal_records.specs.Reading.{record_at};
ghost use Rattle.journal_records.specs.Spelling.{IsRecord, record_framed, record_tail};
ghost use Rattle.record_areas.specs.declared.opening.Head.TheVariants.{Opened};
ghost use Rattle.record_areas.specs.Windows as spec;
ghost use Rattle.record_areas.specs.Windows.{HasSeen, IsSeen, IsWindow, ReadsNext, Refuses, ahead_of, held_by, limit_of, next_length, place_of};

use crate::body_length::may_begin;
use crate::window::Window;
use byte_strings::u32_at;
use disk_calls::PIECE;
use gated_records::OPEN;
use journal_records::{Record, RecordFault, StoreFault, read_record};
use ks_outside::Disk;
use std::alloc::Global;

/// How many bytes a gate and the length of a body have.
const HEAD: usize = 5;

/// What stands first where a record may.
#[derive(Clone, Copy)]
pub(crate) enum Head {
    /// No byte, or an open gate without a length.
    Broken,
    /// A gate that is shut.
    Shut,
    /// An open gate, and the length of a body.
    Opened { size: u32 },
}

/// What stands first of these bytes.
fn head_of(held: &[u8]) -> Head
    ensures head { result ≡ spec.head_of held.now }
    ensures bytes { IsBytes held.now }
{
    let [gate, after @ ..] = held else {
        return Head::Broken;
    };
    if *gate != OPEN {
        return Head::Shut;
    }
    match u32_at(after) {
        Ok((size, _)) => Head::Opened { size },
        Err(_) => Head::Broken,
    }
}

/// Whether a body of so many bytes may stand where a gate and a length are read, and these bytes from that gate on.
fn may_stand(size: u32, held: &[u8]) -> bool
    requires long { 18 ≤ size }
    requires head { 5 ≤ length held.now }
    ensures stands { result ≡ spec.may_stand size held.now }
    ensures bytes { IsBytes held.now }
{
    let end = (HEAD + size as usize).min(held.len());
    may_begin(u64::from(size), &held[HEAD..end])
}

/// Reads the body of the next record, whose gate is open, whole or up to the limit. One that is longer than a piece is looked at first: where
/// its first bytes show that no body of its length begins so, no more is read.
fn read_body<D: Disk>(
    alloc: Global,
    disk: &mut D,
    window: &mut Window,
    size: u32,
) -> Result<(), StoreFault>
    requires window { IsWindow window.old }
    requires still { IsStill D.Disk disk.old }
    requires bytes { IsBytes (held_by window.old) }
    requires opened { spec.head_of (held_by window.old) ≡ Opened size }
    ensures window { IsWindow window.new }
    ensures still { IsStill D.Disk disk.new }
    ensures place { place_of window.new ≡ place_of window.old }
    ensures limit { limit_of window.new ≡ limit_of window.old }
    ensures front { take (length (held_by window.old)) (held_by window.new) ≡ held_by window.old }
    ensures seen { AllImages D.Disk disk.old (IsSeen window.old) → AllImages D.Disk disk.new (IsSeen window.new) }
    ensures enough { AllImages D.Disk disk.old (IsSeen window.old) → OnOk result (AllImages D.Disk disk.new (HasSeen (5 + size) window.new)) }
    ensures refused { (kinds : ℕ) → AllImages D.Disk disk.old (IsSeen window.old) → IfErr result (λ fault. AllImages D.Disk disk.new (λ image.
        Refuses kinds (place_of window.old) (ahead_of window.old image) fault)) }
    ensures goes { Reads D.Disk disk.old disk.new (open_failed result) }
{
    let count = HEAD + size as usize;
    if count <= PIECE {
        return window.fill(alloc, disk, count);
    }
    window.fill(alloc, disk, PIECE)?;
    if !may_stand(size, window.held()) {
        return Err(StoreFault::Corrupted {
            offset: window.place(),
        });
    }
    window.fill(alloc, disk, count)
}

/// The record that stands first of the bytes that were read, and goes on behind it.
fn take_record(alloc: Global, window: &mut Window, kinds: u8) -> Result<Record, RecordFault>
    requires window { IsWindow window.old }
    requires some { 1 ≤ length (held_by window.old) }
    ensures window { IsWindow window.new }
    ensures limit { limit_of window.new ≡ limit_of window.old }
    ensures taken { IfOk result (λ it. IsRecord kinds it × (place_of window.new ≡ place_of window.old + length (record_framed it))
        × (drop 1 (held_by window.old) ≡ record_tail it ++ held_by window.new)) }
    ensures bad { IsErrOf result RecordFault.Bad → record_at kinds (drop 1 (held_by window.old)) ≡ None }
    ensures same { OnErr result (window.new ≡ window.old) }
    ensures bytes { IsBytes (held_by window.old) }
{
    let held = window.held();
    let (it, left) = read_record(alloc, kinds, &held[1..])?;
    let count = held.len() - left.len();
    window.pass(count);
    Ok(it)
}

/// Reads the next record, whose gate is open and whose body has so many bytes, and goes on behind it.
fn read_sized<D: Disk>(
    alloc: Global,
    disk: &mut D,
    window: &mut Window,
    kinds: u8,
    size: u32,
) -> Result<Option<Record>, StoreFault>
    requires window { IsWindow window.old }
    requires still { IsStill D.Disk disk.old }
    requires bytes { IsBytes (held_by window.old) }
    requires opened { spec.head_of (held_by window.old) ≡ Opened size }
    ensures window { IsWindow window.new }
    ensures still { IsStill D.Disk disk.new }
    ensures limit { limit_of window.new ≡ limit_of window.old }
    ensures place { IfOk result (λ next. place_of window.new ≡ place_of window.old + next_length next) }
    ensures some { IfOk result (λ next. IfSome next (IsRecord kinds) × (is_some next ≡ true)) }
    ensures seen { AllImages D.Disk disk.old (IsSeen window.old) → AllImages D.Disk disk.new (IsSeen window.new) }
    ensures reads { AllImages D.Disk disk.old (IsSeen window.old) → AllImages D.Disk disk.new (λ image.
        ReadsNext kinds (place_of window.old) (ahead_of window.old image) (ahead_of window.new image) result) }
    ensures goes { Reads D.Disk disk.old disk.new (open_failed result) }
{
    let at = window.place();
    if u64::from(size) > window.most() - HEAD as u64 {
        return Err(StoreFault::Corrupted { offset: at });
    }
    read_body(alloc, disk, window, size)?;
    match take_record(alloc, window, kinds) {
        Ok(it) => Ok(Some(it)),
        Err(RecordFault::Bad) => Err(StoreFault::Corrupted { offset: at }),
        Err(RecordFault::Memory) => Err(StoreFault::Memory),
    }
}

/// Reads the next record, and goes on behind it. None comes where a gate that is shut stands there, and Corrupted where neither does.
pub(crate) fn next_record<D: Disk>(
    alloc: Global,
    disk: &mut D,
    window: &mut Window,
    kinds: u8,
) -> Result<Option<Record>, StoreFault>
    requires window { IsWindow window.old }
    requires still { IsStill D.Disk disk.old }
    ensures window { IsWindow window.new }
    ensures still { IsStill D.Disk disk.new }
    ensures limit { limit_of window.new ≡ limit_of window.old }
    ensures place { IfOk result (λ next. place_of window.new ≡ place_of window.old + next_length next) }
    ensures some { IfOk result (λ next. IfSome next (IsRecord kinds)) }
    ensures before { IfOk result (λ next. place_of window.old < limit_of window.old) }
    ensures seen { AllImages D.Disk disk.old (IsSeen window.old) → AllImages D.Disk disk.new (IsSeen window.new) }
    ensures reads { AllImages D.Disk disk.old (IsSeen window.old) → AllImages D.Disk disk.new (λ image.
        ReadsNext kinds (place_of window.old) (ahead_of window.old image) (ahead_of window.new image) result) }
    ensures goes { Reads D.Disk disk.old disk.new (open_failed result) }
{
    window.fill(alloc, disk, HEAD)?;
    match head_of(window.held()) {
        Head::Broken => Err(StoreFault::Corrupted {
            offset: window.place(),
        }),
        Head::Shut => Ok(None),
        Head::Opened { size } => read_sized(alloc, disk, window, kinds, size),
    }
}
