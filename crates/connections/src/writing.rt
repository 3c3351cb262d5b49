//! A reply into a link.

ghost use Rattle.std.specs.Prelude.{◌≡◌, ◌<◌, ◌^◌, ℕ, true, false, List, [], ◌++◌, length, OnOk, OnErr};
ghost use Rattle.ks_outside.specs.Carried.{Carried};
ghost use Rattle.wire_frames.specs.Replies.{reply_body, reply_of};

use ks_outside::{Failed, Link};
use rule_model::Reply;
use wire_frames::{FrameWindow, reply_length};

/// Writes all of the bytes. After a failure a front of them is written, and not all, and no call is made after the one that failed.
fn write_all<L: Link>(link: &mut L, bytes: &[u8]) -> Result<(), Failed>
    ensures ok { OnOk result (Carried L.Link link.old link.new [] bytes.now false) }
    ensures err { OnErr result ((part : List ℕ) × (missing : List ℕ) × Carried L.Link link.old link.new [] part true × (bytes.now ≡ part ++ missing) × (0 < length missing)) }
{
    let mut rest = bytes;
    'pieces: while !rest.is_empty() {
        let count = link.write(rest)?;
        rest = &rest[count..];
    }
    Ok(())
}

/// Writes the frame of a reply, as much at once as the window shows. It takes no memory. After a failure a front of the frame is written, and
/// not all, and no call is made after the one that failed.
pub(crate) fn write_reply<L: Link>(
    link: &mut L,
    window: &mut FrameWindow,
    reply: &Reply,
) -> Result<(), Failed>
    requires short { length (reply_body reply.now) < 2 ^ 32 }
    ensures ok { OnOk result (Carried L.Link link.old link.new [] (reply_of reply.now) false) }
    ensures err { OnErr result ((part : List ℕ) × (missing : List ℕ) × Carried L.Link link.old link.new [] part true × (reply_of reply.now ≡ part ++ missing) × (0 < length missing)) }
{
    let size = reply_length(reply) as usize;
    let mut place = 0;
    'windows: while place < size {
        window.show(reply, place);
        let piece = window.bytes();
        write_all(link, piece)?;
        place += piece.len();
    }
    Ok(())
}
