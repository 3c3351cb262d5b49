//! The writes and syncs that a disk made, in order.

ghost use Rattle.std.specs.Prelude.{◌≡◌, ℕ, ◌+◌, ◌<◌, ◌≤◌, List, [], ◌∷◌, ◌++◌, length, take, drop, get_or, IfOk, IsOk, OnOk, OnErr};
ghost use Rattle.std.specs.Option.{MatchOption};
ghost use Rattle.disk_model.specs.DiskCalls.{DiskCall, Wrote, Synced};

use std::alloc::{AllocError, Global};
use std::marker::Model;

/// A write, whose piece stands in the text of its list, or a sync.
#[derive(Clone, Copy, Drop)]
enum KeptCall {
    Wrote { at: u64, start: usize, size: usize },
    Synced,
}

/// Writes and syncs in the order in which they were made. Their pieces stand one behind the other in one text, so
/// that room for a number of calls and of bytes is taken at once.
#[derive(Drop)]
pub struct CallList {
    made: Vec<KeptCall>,
    text: Vec<u8>,
}

impl Model for CallList {
    ghost use Rattle.std.specs.Prelude.{◌-◌, length, map, vec_len, vec_capacity};
    ghost use Rattle.std.specs.List.{AllByRecursion};
    ghost use Rattle.disk_model.specs.DiskCalls.{Calls};
    ghost use Rattle.disk_model.specs.Texts.{call_in, IsInFirst};

    ghost Value = { Calls };

    ghost view = { λ list. record {
      made = map (call_in list.text.items) list.made.items;
      calls_left = vec_capacity list.made - vec_len list.made;
      bytes_left = vec_capacity list.text - vec_len list.text;
    } };

    ghost invariant = { λ list. AllByRecursion (IsInFirst (length list.text.items)) list.made.items };
}

impl CallList {
    /// No calls, with room for so many calls, and so many bytes of pieces.
    pub fn with_room(alloc: Global, calls: usize, bytes: usize) -> Result<CallList, AllocError>
        ensures empty { IfOk result (λ list. list.made ≡ []) }
        ensures calls { IfOk result (λ list. calls ≤ list.calls_left) }
        ensures bytes { IfOk result (λ list. bytes ≤ list.bytes_left) }
    {
        Ok(CallList {
            made: Vec::with_capacity(alloc, calls)?,
            text: Vec::with_capacity(alloc, bytes)?,
        })
    }

    /// How many calls there are.
    pub fn len(&self) -> usize
        ensures { result ≡ length self.now.made }
    {
        self.made.len()
    }

    /// Makes room for one more call, with a piece of so many bytes.
    pub fn reserve(&mut self, bytes: usize) -> Result<(), AllocError>
        ensures made { self.new.made ≡ self.old.made }
        ensures room { OnOk result ((0 < self.new.calls_left) × (bytes ≤ self.new.bytes_left)) }
        ensures succeeds { 0 < self.old.calls_left → bytes ≤ self.old.bytes_left → IsOk result }
        ensures calls { self.old.calls_left ≤ self.new.calls_left }
        ensures bytes { self.old.bytes_left ≤ self.new.bytes_left }
    {
        self.made.reserve(1)?;
        self.text.reserve(bytes)?;
        Ok(())
    }

    /// Adds a write, for which there is room.
    pub fn push_write(&mut self, at: u64, piece: &[u8])
        requires call { 0 < self.old.calls_left }
        requires bytes { length piece.now ≤ self.old.bytes_left }
        ensures made { self.new.made ≡ self.old.made ++ Wrote at piece.now ∷ [] }
        ensures calls { self.old.calls_left ≤ self.new.calls_left + 1 }
        ensures left { self.old.bytes_left ≤ self.new.bytes_left + length piece.now }
    {
        let start = self.text.len();
        let Ok(()) = self.text.extend_from_slice(piece) else {
            unreachable!()
        };
        let write = KeptCall::Wrote {
            at,
            start,
            size: piece.len(),
        };
        let Ok(()) = self.made.push(write) else {
            unreachable!()
        };
    }

    /// Adds a sync.
    pub fn push_sync(&mut self) -> Result<(), AllocError>
        ensures made { OnOk result (self.new.made ≡ self.old.made ++ Synced ∷ []) }
        ensures same { OnErr result (self.new.made ≡ self.old.made) }
        ensures succeeds { 0 < self.old.calls_left → IsOk result }
        ensures calls { self.old.calls_left ≤ self.new.calls_left + 1 }
        ensures bytes { self.old.bytes_left ≤ self.new.bytes_left }
    {
        self.made.push(KeptCall::Synced)?;
        Ok(())
    }

    /// The place and the piece of a write; None for a sync.
    pub fn piece_at(&self, number: usize) -> Option<(u64, &[u8])>
        requires { number < length self.now.made }
        ensures { MatchOption result (get_or self.now.made number Synced ≡ Synced)
            (λ write. get_or self.now.made number Synced ≡ Wrote write.0 write.1.now) }
    {
        match self.made[number] {
            KeptCall::Wrote { at, start, size } => Some((at, &self.text[start..start + size])),
            KeptCall::Synced => None,
        }
    }
}
