//! The bytes that an event draws.

ghost use Rattle.std.specs.Prelude.{◌≡◌, ◌+◌, ◌<◌, ◌≤◌, ◌^◌, [], ◌++◌, length, take, nat_lt, is_err, IfOk, IfErr, false, true};
ghost use Rattle.ks_outside.specs.Shown.{Drew};
ghost use Rattle.rule_model.specs.Drawn.{size_of};
ghost use Rattle.keystore_core.specs.Drawn.{bytes_of, pieces_in};
ghost use Rattle.keystore_core.specs.Room.{room_in};

use crate::draw_room::DrawRoom;
use crate::room::Room;
use ks_outside::{Entropy, Failed};
use rule_model::Pieces;
use std::alloc::Global;
use tags::{Bytes, NoMemory};

/// The rooms of an event that draws: for all its pieces, and for a copy of the first.
pub struct DrawnRooms {
    pub draws: DrawRoom,
    pub copy: Room,
}

/// Fills a piece by one draw; a piece of no bytes is not drawn.
fn draw_piece<N: Entropy>(entropy: &mut N, piece: &mut [u8]) -> Result<(), Failed>
    ensures ok { IfOk result (λ _. Drew N.Entropy entropy.old entropy.new piece.new false) }
    ensures err { IfErr result (λ _. Drew N.Entropy entropy.old entropy.new [] true) }
    ensures some { is_err result ≡ true → 0 < length piece.old }
    ensures len { length piece.new ≡ length piece.old }
{
    if piece.is_empty() {
        return Ok(());
    }
    entropy.draw(piece)
}

/// Fills two pieces, each by one draw, and answers how many bytes at the front of both were drawn: all, or those of the
/// pieces before the draw that failed.
fn draw_pieces<N: Entropy>(entropy: &mut N, first: &mut [u8], second: &mut [u8]) -> usize
    ensures draws { Drew N.Entropy entropy.old entropy.new (take result (first.new ++ second.new)) (nat_lt result (length first.old + length second.old)) }
    ensures within { result ≤ length first.old + length second.old }
    ensures first { length first.new ≡ length first.old }
    ensures second { length second.new ≡ length second.old }
{
    let Ok(()) = draw_piece(entropy, first) else {
        return 0;
    };
    let Ok(()) = draw_piece(entropy, second) else {
        return first.len();
    };
    first.len() + second.len()
}

impl DrawRoom {
    /// Room for these pieces.
    pub fn of(alloc: Global, pieces: Pieces) -> Result<DrawRoom, NoMemory>
        requires { size_of pieces < 2 ^ 62 }
        ensures { IfOk result (λ room. pieces_in room ≡ size_of pieces) }
    {
        Ok(DrawRoom {
            first: pieces.first,
            bytes: vec![in alloc; 0; pieces.first + pieces.second]?,
        })
    }

    /// Fills the room by a draw of each piece, and answers all its bytes, or as `Err` those that were drawn before a draw
    /// failed. A piece of no bytes is not drawn. It takes no memory.
    pub fn draw<N: Entropy>(self, entropy: &mut N) -> Result<Bytes, Bytes>
        ensures draws { Drew N.Entropy entropy.old entropy.new (bytes_of result) (is_err result) }
        ensures whole { IfOk result (λ bytes. length bytes ≡ pieces_in self) }
        ensures part { IfErr result (λ bytes. length bytes < pieces_in self) }
    {
        let DrawRoom { first, mut bytes } = self;
        let size = bytes.len();
        let (front, back) = bytes.split_at_mut(first);
        let drawn = draw_pieces(entropy, front, back);
        bytes.truncate(drawn);
        let bytes = Bytes::of(bytes);
        if drawn < size { Err(bytes) } else { Ok(bytes) }
    }
}

impl DrawnRooms {
    /// The rooms for these pieces.
    pub fn of(alloc: Global, pieces: Pieces) -> Result<DrawnRooms, NoMemory>
        requires { size_of pieces < 2 ^ 62 }
        ensures draws { IfOk result (λ rooms. pieces_in rooms.draws ≡ size_of pieces) }
        ensures copy { IfOk result (λ rooms. room_in rooms.copy ≡ pieces.first) }
    {
        let draws = DrawRoom::of(alloc, pieces)?;
        let copy = Room::of(alloc, pieces.first)?;
        Ok(DrawnRooms { draws, copy })
    }
}
