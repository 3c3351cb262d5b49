//! One image that a crash may leave, as a disk that can be opened again.

ghost use Rattle.std.specs.Prelude.{◌≡◌, ℕ, ◌+◌, ◌<◌, ◌≤◌, List, length, take, reverse, get_or, IfOk, OnOk};
ghost use Rattle.disk_model.specs.DiskCalls.{Synced};
ghost use Rattle.disk_model.specs.Chosen.{laid, image_of, IsSettled, IsWrite};
ghost use Rattle.disk_model.specs.Words.{made_by, reads};
ghost use Rattle.disk_model.specs.declared.image.Choice.TheVariants.{New};

use crate::calls::CallList;
use crate::memory::{DiskRoom, MemoryDisk};
use std::alloc::{AllocError, Global};

/// What the range of a write that no sync followed holds after a crash.
#[derive(Clone, Copy, Debug, PartialEq, Eq)]
pub enum Choice {
    /// What was written.
    New,
    /// What stood there before.
    Old,
    /// This byte in each place.
    Filled(u8),
}

/// The choice for the call with this number, counted from 0.
fn choice_at(choices: &[Choice], number: usize) -> Choice
    ensures { result ≡ get_or choices.now number New }
{
    match choices.get(number) {
        Some(choice) => *choice,
        None => Choice::New,
    }
}

/// How many of the first `end` calls there are up to the newest sync, and with it.
fn settled(calls: &CallList, end: usize) -> usize
    requires { end ≤ length calls.now.made }
    ensures within { result ≤ end }
    ensures last { IsSettled (reverse (take result calls.now.made)) }
    ensures pending { (i : ℕ) → result ≤ i → i < end → IsWrite (get_or calls.now.made i Synced) }
{
    let mut count = 0;
    'calls: for i in 0..end {
        match calls.piece_at(i) {
            None => count = i + 1,
            Some(_) => {}
        }
    }
    count
}

/// The choice for a call: before the newest sync all is as it was written.
fn choice_for(choices: &[Choice], start: usize, number: usize) -> Choice
    ensures before { number < start → result ≡ New }
    ensures after { start ≤ number → result ≡ get_or choices.now number New }
{
    if number < start {
        Choice::New
    } else {
        choice_at(choices, number)
    }
}

/// Makes the call with this number again, as it is chosen.
fn replay(
    disk: &mut MemoryDisk,
    calls: &CallList,
    number: usize,
    choice: Choice,
) -> Result<(), AllocError>
    requires { number < length calls.now.made }
    ensures { OnOk result (reads disk.new ≡ laid choice (get_or calls.now.made number Synced) (reads disk.old)) }
{
    match calls.piece_at(number) {
        Some((at, piece)) => disk.replay(at, piece, choice),
        None => Ok(()),
    }
}

/// A disk whose bytes are those of one image that a crash after the first `end` of these calls may leave, and synced.
pub fn replayed(
    alloc: Global,
    calls: &CallList,
    end: usize,
    choices: &[Choice],
) -> Result<MemoryDisk<'static>, AllocError>
    requires { end ≤ length calls.now.made }
    ensures image { IfOk result (λ d. reads d ≡ image_of choices.now (reverse (take end calls.now.made))) }
    ensures settled { IfOk result (λ d. IsSettled (made_by d)) }
{
    let start = settled(calls, end);
    let room = DiskRoom {
        calls: end,
        bytes: 0,
        pages: 0,
    };
    let mut disk = MemoryDisk::with_room(alloc, room, &[])?;
    'calls: for i in 0..end {
        replay(&mut disk, calls, i, choice_for(choices, start, i))?;
    }
    disk.make_sync()?;
    Ok(disk)
}
