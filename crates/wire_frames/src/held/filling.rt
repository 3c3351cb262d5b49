//! Taking the bytes of a frame from pieces.

ghost use Rattle.std.specs.Prelude.{◌≡◌, ◌⊎◌, ◌↔◌, ◌==◌, ◌+◌, ◌<◌, ◌≤◌, nat_le, IsTrue, ℕ, List, [], ◌++◌, length, take, slice_index, IfOk, OnOk, OnErr};
ghost use Rattle.wire_frames.specs.Streams as spec;
ghost use Rattle.wire_frames.specs.Apart as apart;
ghost use Rattle.wire_frames.specs.Apart.{HasInput};
ghost use Rattle.wire_frames.specs.PartialFrames.{bytes_in};

use super::PartialFrame;
use crate::front::needed;
use rule_model::ActKind;
use std::alloc::Global;
use tags::NoMemory;

/// How many bytes a frame has before those of its input: its length, its act, the operation and the input's length.
const BEFORE_INPUT: usize = 17;

/// Whether an act has an input: of additional data, of an update and of a finish.
fn has_input(number: u8) -> bool
    ensures { result ≡ apart.has_input number }
{
    match ActKind::of_number(number) {
        Some(kind) => kind.row().enters,
        None => false,
    }
}

/// Whether what comes next lies apart.
fn is_before_input(head: &[u8]) -> bool
    ensures { IsTrue result ↔ HasInput head.now }
{
    head.len() == BEFORE_INPUT && has_input(head[4])
}

/// How many of the bytes that a frame lacks go where the next one goes: up to the act's number, up to an input, or all.
fn room_behind(head: &[u8], lacking: usize) -> usize
    ensures within { result ≤ lacking }
    ensures none { result ≡ 0 → lacking ≡ 0 }
{
    let size = head.len();
    if size < 5 {
        return lacking.min(5 - size);
    }
    if size < BEFORE_INPUT && has_input(head[4]) {
        return lacking.min(BEFORE_INPUT - size);
    }
    lacking
}

impl PartialFrame {
    /// Nothing. It takes no memory.
    pub(crate) fn new(alloc: Global) -> PartialFrame
        ensures { bytes_in result ≡ [] }
    {
        PartialFrame {
            head: Vec::new(alloc),
            input: Vec::new(alloc),
        }
    }

    pub(crate) fn is_empty(&self) -> bool
        ensures { result ≡ (length (bytes_in self.now) == 0) }
    {
        self.head.is_empty() && self.input.is_empty()
    }

    pub(crate) fn len(&self) -> usize
        ensures { result ≡ length (bytes_in self.now) }
    {
        self.head.len() + self.input.len()
    }

    /// How many bytes more go where the next one goes; none where the frame is whole, or has a length that no frame has.
    fn room(&self) -> usize
        requires { length (bytes_in self.now) ≤ spec.needed (bytes_in self.now) }
        ensures within { length (bytes_in self.now) + result ≤ spec.needed (bytes_in self.now) }
        ensures none { result ≡ 0 → length (bytes_in self.now) ≡ spec.needed (bytes_in self.now) }
    {
        let lacking = needed(self.head.as_slice()) - self.len();
        room_behind(self.head.as_slice(), lacking)
    }

    /// Whether the frame is whole, or has a length that no frame has.
    pub(crate) fn is_whole(&self) -> bool
        ensures { result ≡ nat_le (spec.needed (bytes_in self.now)) (length (bytes_in self.now)) }
    {
        needed(self.head.as_slice()) <= self.len()
    }

    /// Takes these bytes, in room for so many.
    fn put(&mut self, bytes: &[u8], room: usize) -> Result<(), NoMemory>
        ensures items { OnOk result (bytes_in self.new ≡ bytes_in self.old ++ bytes.now) }
        ensures same { OnErr result (bytes_in self.new ≡ bytes_in self.old) }
    {
        if is_before_input(self.head.as_slice()) {
            self.input.reserve_exact(room)?;
            self.input.extend_from_slice(bytes)?;
        } else {
            self.head.reserve_exact(room)?;
            self.head.extend_from_slice(bytes)?;
        }
        Ok(())
    }

    /// Keeps the first bytes.
    pub(crate) fn truncate(&mut self, size: usize)
        ensures { bytes_in self.new ≡ take size (bytes_in self.old) }
    {
        let first = self.head.len();
        if size < first {
            self.input.truncate(0);
            self.head.truncate(size);
        } else {
            self.input.truncate(size - first);
        }
    }

    /// Takes bytes of a piece until one frame is held, or a length that no frame has, and answers how many.
    pub(crate) fn complete(&mut self, piece: &[u8]) -> Result<usize, NoMemory>
        requires { length (bytes_in self.old) ≤ spec.needed (bytes_in self.old) }
        ensures within { IfOk result (λ n. n ≤ length piece.now) }
        ensures taken { IfOk result (λ n. bytes_in self.new ≡ bytes_in self.old ++ take n piece.now) }
        ensures enough { IfOk result (λ _. length (bytes_in self.new) ≤ spec.needed (bytes_in self.new)) }
        ensures all { IfOk result (λ n. (n ≡ length piece.now) ⊎ (length (bytes_in self.new) ≡ spec.needed (bytes_in self.new))) }
        ensures same { OnErr result (bytes_in self.new ≡ bytes_in self.old) }
    {
        let before = self.len();
        let mut taken = 0;
        'parts: while taken < piece.len() {
            let room = self.room();
            if room == 0 {
                return Ok(taken);
            }
            let count = room.min(piece.len() - taken);
            let Ok(()) = self.put(&piece[taken..taken + count], room) else {
                self.truncate(before);
                return Err(NoMemory);
            };
            taken += count;
        }
        Ok(taken)
    }
}
