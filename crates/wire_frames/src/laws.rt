//! What follows from the grammar alone.

ghost use Rattle.std.specs.Prelude.{◌≡◌, ℕ, ◌<◌, List, [], ◌∷◌, ◌++◌, slice_index};
ghost use Rattle.rule_model.specs.declared.event.Act.{Act};
ghost use Rattle.wire_frames.specs.Spelling.{frame_of, IsRequest};
ghost use Rattle.std.specs.List.{AllByRecursion};
ghost use Rattle.wire_frames.specs.Streams.{HasRequests, IsBad, IsBehind, IsPart, stream_of};
ghost use Rattle.wire_frames.specs.Standing.{Stands};
ghost use Rattle.wire_frames.specs.declared.frames.Frames.{Frames};

/// A stream of bytes has its requests in one way: so a reader gives the same ones however the stream is cut.
pub fn one_reading()
    ensures { (stream : List ℕ) → ((i : ℕ) → slice_index stream i < 256)
        → (acts others : List Act) (rest left : List ℕ) → HasRequests stream acts rest → HasRequests stream others left
        → (acts ≡ others) × (rest ≡ left) }
{}

/// Two readers of one stream have given the same requests, however the stream was cut for each.
pub fn same_requests()
    ensures { (stream : List ℕ) → ((i : ℕ) → slice_index stream i < 256)
        → (given others : List Act) (one two : Frames) → Stands stream given one → Stands stream others two
        → given ≡ others }
{}

/// What is spelled is read again: the frame of an act is a stream with that request alone.
pub fn spelled_again()
    ensures { (act : Act) → IsRequest act → HasRequests (frame_of act) (act ∷ []) [] }
{}

/// A stream of whole frames begins with the requests that were read of it, and what is left of it are whole frames; no front of it is
/// bad, and it ends in no part of a frame.
pub fn whole_frames()
    ensures begins { (acts others : List Act) (left : List ℕ) → AllByRecursion IsRequest acts → AllByRecursion IsRequest others
        → stream_of acts [] ≡ stream_of others left → IsBehind acts others left }
    ensures sound { (acts : List Act) (bytes left : List ℕ) → AllByRecursion IsRequest acts → bytes ++ left ≡ stream_of acts [] → IsBad bytes → ⊥ }
    ensures whole { (acts : List Act) → AllByRecursion IsRequest acts → IsPart (stream_of acts []) → acts ≡ [] }
{}
