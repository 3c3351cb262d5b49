//! A part of a frame, in room that is had before.

ghost use Rattle.std.specs.Prelude.{◌≡◌, ◌-◌, ◌<◌, ◌^◌, [], ◌++◌, length, take, drop};
ghost use Rattle.wire_frames.specs.declared.window.TheConstants.{WINDOW_BYTES};
ghost use Rattle.wire_frames.specs.Replies.{reply_body, reply_of};
ghost use Rattle.wire_frames.specs.Windows.{window_after};

use crate::writing::put_reply_frame;
use rule_model::Reply;
use std::marker::Model;

/// How many bytes a window shows at most.
pub const WINDOW_BYTES: usize = 8192;

/// Shows bytes of a frame from a place of it on, as many as there are and go in. It takes no memory.
#[derive(Drop)]
pub struct FrameWindow {
    bytes: [u8; WINDOW_BYTES],
    /// how many of the bytes are shown
    filled: usize,
    /// how many bytes go by before one is shown
    skip: usize,
}

impl Model for FrameWindow {
    ghost use Rattle.std.specs.Prelude.{◌-◌, ◌≤◌, take};
    ghost use Rattle.wire_frames.specs.Windows.{Window};
    ghost use Rattle.wire_frames.specs.declared.window.TheConstants.{WINDOW_BYTES};

    ghost Value = { Window };

    ghost view = { λ w. record { skip = w.skip; room = WINDOW_BYTES - w.filled; bytes = take w.filled w.bytes } };

    ghost invariant = { λ w. w.filled ≤ WINDOW_BYTES };
}

impl FrameWindow {
    /// It shows nothing.
    pub fn new() -> FrameWindow
        ensures { result.bytes ≡ [] }
    {
        FrameWindow {
            bytes: [0; WINDOW_BYTES],
            filled: 0,
            skip: 0,
        }
    }

    /// The bytes that it shows.
    pub fn bytes(&self) -> &[u8]
        ensures { result.now ≡ self.now.bytes }
    {
        &self.bytes[..self.filled]
    }

    /// Shows the frame of a reply from this place on: 8,192 bytes, or as many as there are. The body has fewer than 2^32 bytes.
    pub fn show(&mut self, reply: &Reply, place: usize)
        requires short { length (reply_body reply.now) < 2 ^ 32 }
        ensures { self.new.bytes ≡ take WINDOW_BYTES (drop place (reply_of reply.now)) }
    {
        self.start(place);
        put_reply_frame(self, reply);
    }

    /// A text begins, of which so many bytes go by.
    fn start(&mut self, place: usize)
        ensures skip { self.new.skip ≡ place }
        ensures room { self.new.room ≡ WINDOW_BYTES }
        ensures bytes { self.new.bytes ≡ [] }
    {
        self.filled = 0;
        self.skip = place;
    }

    /// Takes as many of the bytes as there is room for.
    fn fill(&mut self, bytes: &[u8])
        ensures skip { self.new.skip ≡ self.old.skip }
        ensures room { self.new.room ≡ self.old.room - length (take self.old.room bytes.now) }
        ensures bytes { self.new.bytes ≡ self.old.bytes ++ take self.old.room bytes.now }
    {
        let count = bytes.len().min(WINDOW_BYTES - self.filled);
        self.bytes[self.filled..self.filled + count].copy_from_slice(&bytes[..count]);
        self.filled += count;
    }

    /// The next piece of the text goes by.
    pub(crate) fn put(&mut self, piece: &[u8])
        ensures { self.new ≡ window_after self.old piece.now }
    {
        let passing = self.skip.min(piece.len());
        self.skip -= passing;
        self.fill(&piece[passing..]);
    }
}
