//! Writing frames.

ghost use Rattle.std.specs.Prelude.{◌≡◌, ◌↔◌, true, ◌≤◌, ◌<◌, ◌^◌, length, IfOk, IfSome, IsSome};
ghost use Rattle.rule_model.specs.Acts.{is_framed};
ghost use Rattle.wire_frames.specs.Spelling.{body_of, frame_of};
ghost use Rattle.wire_frames.specs.Replies.{reply_body, reply_of};

use crate::window::FrameWindow;
use byteorder::{BigEndian, ByteOrder};
use rule_model::{Reply, Request};
use std::alloc::Global;
use tags::{Bytes, FRAME_BYTES, NoMemory};

mod acts;
mod fields;
mod replies;
mod reply_sizes;
pub(crate) mod sizes;

pub(crate) use replies::put_reply_frame;

/// The frame of a request. `None` says that it has none: a disconnect, and what a body of 262,144 bytes cannot hold.
#[tactic(auto, unfolding(crate::specs::Spelling::frame_of))]
pub fn request_frame(alloc: Global, request: &Request) -> Result<Option<Bytes>, NoMemory>
    ensures frame { IfOk result (λ o. IfSome o (λ bytes. bytes ≡ frame_of request.now)) }
    ensures some { IfOk result (λ o. IsSome o ↔ ((is_framed request.now ≡ true) × (length (body_of request.now) ≤ FRAME_BYTES))) }
{
    let act = request.act();
    let size = sizes::body_size(act);
    if size == 0 || size > FRAME_BYTES {
        return Ok(None);
    }
    let mut out = Vec::from_slice(alloc, &[0; 4])?;
    out.reserve(size)?;
    acts::put_body(&mut out, act)?;
    BigEndian::write_u32(&mut out, size as u32);
    Ok(Some(Bytes::of(out)))
}

/// The length in bytes of a reply's whole frame. Its body has fewer than 2^32 bytes. It takes no memory.
pub fn reply_length(reply: &Reply) -> u64
    requires short { length (reply_body reply.now) < 2 ^ 32 }
    ensures length { result ≡ length (reply_of reply.now) }
{
    4 + reply_sizes::reply_size(reply) as u64
}

/// The frame of a reply. Its body has fewer than 2^32 bytes.
pub fn reply_frame(alloc: Global, reply: &Reply) -> Result<Bytes, NoMemory>
    requires short { length (reply_body reply.now) < 2 ^ 32 }
    ensures frame { IfOk result (λ bytes. bytes ≡ reply_of reply.now) }
{
    let size = reply_length(reply) as usize;
    let mut out = Vec::new(alloc);
    let mut window = FrameWindow::new();
    let mut place = 0;
    'windows: while place < size {
        window.show(reply, place);
        let piece = window.bytes();
        out.extend_from_slice(piece)?;
        place += piece.len();
    }
    Ok(Bytes::of(out))
}
