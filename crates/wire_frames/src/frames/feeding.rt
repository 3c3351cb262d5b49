//! Taking pieces of a stream.

ghost use Rattle.std.specs.Prelude.{◌≡◌, ◌↔◌, ℕ, ◌+◌, ◌^◌, ◌<◌, ◌≤◌, false, true, List, [], ◌++◌, length, IfOk, IfErr, IsTrue, Err, Some, None, if◌then◌else◌};
ghost use Rattle.rule_model.specs.declared.event.Act.{Act};
ghost use Rattle.wire_frames.specs.declared.fault.FrameFault.TheVariants.{Bad};
ghost use Rattle.wire_frames.specs.Streams.{stream_of};
ghost use Rattle.wire_frames.specs.Standing.{start_of, held_in, is_shut, reach, Stands, SameFrames, Faults};
ghost use Rattle.tags.specs.declared.limits.TheConstants.{FRAME_BYTES};

use super::Frames;
use crate::fault::FrameFault;
use crate::held::PartialFrame;
use crate::held::giving::read_more;
use crate::outcome::FrameOutcome;
use rule_model::Request;
use std::alloc::Global;

impl Frames {
    /// The reader of a stream of which nothing has come. It takes no memory.
    pub fn new(alloc: Global) -> Frames
        ensures stands { Stands [] [] result }
        ensures reach { reach result ≡ 0 }
    {
        Frames {
            start: 0,
            held: PartialFrame::new(alloc),
            shut: false,
        }
    }

    /// Takes the next piece of the stream, and gives the requests, not given before, of the frames that are whole now and
    /// stand before the first bad one. Bad, with the offset of the bad frame's first byte, comes exactly where the
    /// stream so far has one and no request before it is left to give; from then on it comes at each call. At want of
    /// memory nothing of the piece was taken. The stream has fewer than 2^62 bytes.
    pub fn feed(&mut self, alloc: Global, piece: &[u8]) -> Result<Vec<Request>, FrameFault>
        requires room { reach self.old + length piece.now < 2 ^ 62 }
        ensures given { IfOk result (λ requests. (stream : List ℕ) (given : List Act) → Stands stream given self.old
            → Stands (stream ++ piece.now) (given ++ requests.items) self.new) }
        ensures some { IfOk result (λ requests. requests.items ≡ [] → is_shut self.new ≡ false) }
        ensures fault { IfErr result (Faults self.old piece.now self.new) }
        ensures shut { is_shut self.old ≡ true → (result ≡ Err (Bad (start_of self.old))) × SameFrames self.old self.new }
        ensures reach { reach self.new ≤ reach self.old + length piece.now }
        ensures held { length (held_in self.new) ≤ 4 + FRAME_BYTES }
    {
        if self.shut {
            return Err(FrameFault::Bad { offset: self.start });
        }
        let read = read_more(alloc, &mut self.held, piece);
        let Ok(read) = read else {
            return Err(FrameFault::Memory);
        };
        let Some(outcome) = read else {
            return Ok(Vec::new(alloc));
        };
        let FrameOutcome {
            requests,
            used,
            tail,
            shut,
        } = outcome;
        self.held = tail;
        self.start += used as u64;
        self.shut = shut;
        if shut && requests.is_empty() {
            return Err(FrameFault::Bad { offset: self.start });
        }
        Ok(requests)
    }

    /// The offset of the bad frame's first byte, where the stream so far has one.
    pub fn bad_offset(&self) -> Option<u64>
        ensures { result ≡ (if is_shut self.now then Some (start_of self.now) else None) }
    {
        if self.shut { Some(self.start) } else { None }
    }

    /// Whether the stream so far ends with a frame's end.
    pub fn at_edge(&self) -> bool
        ensures { (stream : List ℕ) (given : List Act) → Stands stream given self.now
            → IsTrue result ↔ (stream ≡ stream_of given []) }
    {
        !self.shut && self.held.is_empty()
    }
}
