//! Reading what is held, and what comes behind it.

ghost use Rattle.std.specs.Prelude.{◌≡◌, ◌⊎◌, ◌+◌, ◌<◌, ◌≤◌, ℕ, ◌∷◌, ◌++◌, length, take, drop, slice_index, vec_len, vec_capacity, IfOk, IfSome, IfNone, OnErr};
ghost use Rattle.wire_frames.specs.Reading.{Says, act_in};
ghost use Rattle.wire_frames.specs.Streams as spec;
ghost use Rattle.wire_frames.specs.Streams.{IsPart};
ghost use Rattle.wire_frames.specs.Apart as apart;
ghost use Rattle.wire_frames.specs.Apart.{HasInput, IsApart};
ghost use Rattle.wire_frames.specs.PartialFrames.{bytes_in, kept_act};
ghost use Rattle.wire_frames.specs.Outcomes.{IsRead};

use super::PartialFrame;
use crate::fault::BodyFault;
use crate::outcome::FrameOutcome;
use crate::reading::{act_in, ended, optional_at};
use crate::texts::read_on;
use byteorder::{BigEndian, ByteOrder};
use rule_model::{Act, ActKind, Request};
use std::alloc::Global;
use std::mem;
use tags::{Bytes, NoMemory};

/// A whole frame that is held, as far as it is read before its input is given away.
#[derive(Debug, Drop)]
pub enum HeldRequest {
    /// The act.
    Whole(Act),
    /// The act with an empty input, and how many bytes its input has.
    Around(Act, usize),
}

/// The act of a number on an operation with an empty input, where these bytes stand behind the input.
fn around(alloc: Global, number: u8, op: u64, behind: &[u8]) -> Result<Act, BodyFault>
    ensures { Says (λ x. x) result (apart.around number op behind.now) }
{
    let input = Bytes::empty(alloc);
    match ActKind::of_number(number) {
        Some(ActKind::UpdateAad) => ended(Act::EnterAad { op, input }, behind),
        Some(ActKind::Update) => ended(Act::EnterUpdate { op, input }, behind),
        _ => {
            let (signature, rest) = optional_at(alloc, behind)?;
            let act = Act::EnterFinish {
                op,
                input,
                signature,
            };
            ended(act, rest)
        }
    }
}

/// An act with this input.
fn filled(act: Act, input: Bytes) -> Act
    ensures { result ≡ apart.with_input input act }
{
    match act {
        Act::EnterAad { op, .. } => Act::EnterAad { op, input },
        Act::EnterUpdate { op, .. } => Act::EnterUpdate { op, input },
        Act::EnterFinish { op, signature, .. } => Act::EnterFinish {
            op,
            input,
            signature,
        },
        act => act,
    }
}

/// The act of a frame whose input lies apart.
fn around_input(alloc: Global, head: &[u8], input: &[u8]) -> Result<HeldRequest, BodyFault>
    requires { HasInput head.now }
    ensures { Says (λ kept. kept_act kept input.now) result (act_in (drop 4 (head.now ++ input.now))) }
{
    let op = BigEndian::read_u64(&head[5..]);
    let size = BigEndian::read_u32(&head[13..]) as usize;
    if input.len() < size {
        return Err(BodyFault::Bad);
    }
    match around(alloc, head[4], op, &input[size..]) {
        Ok(act) => Ok(HeldRequest::Around(act, size)),
        Err(fault) => Err(fault),
    }
}

/// The act of a frame, of which nothing or all behind the input's length lies apart.
fn kept_in(alloc: Global, head: &[u8], input: &[u8]) -> Result<HeldRequest, BodyFault>
    requires apart { IsApart head.now input.now }
    requires long { 4 ≤ length (head.now ++ input.now) }
    ensures read { Says (λ kept. kept_act kept input.now) result (act_in (drop 4 (head.now ++ input.now))) }
    ensures fits { (i : ℕ) → slice_index (head.now ++ input.now) i < 256 }
{
    if !input.is_empty() {
        return around_input(alloc, head, input);
    }
    match act_in(alloc, &head[4..]) {
        Ok(act) => Ok(HeldRequest::Whole(act)),
        Err(fault) => Err(fault),
    }
}

impl PartialFrame {
    ghost use Rattle.wire_frames.specs.Reading.{act_in};
    ghost use Rattle.wire_frames.specs.PartialFrames.{kept_act};

    /// The act of the frame.
    fn kept(&self, alloc: Global) -> Result<HeldRequest, BodyFault>
        requires { 4 ≤ length (bytes_in self.now) }
        ensures read { Says (λ kept. kept_act kept self.now.input.items) result (act_in (drop 4 (bytes_in self.now))) }
        ensures fits { (i : ℕ) → slice_index (bytes_in self.now) i < 256 }
    {
        kept_in(alloc, self.head.as_slice(), self.input.as_slice())
    }

    /// The act with its input, which is given away.
    fn give(&mut self, alloc: Global, kept: HeldRequest) -> Act
        ensures { result ≡ kept_act kept self.old.input.items }
    {
        match kept {
            HeldRequest::Whole(act) => act,
            HeldRequest::Around(act, size) => {
                let mut input = mem::replace(&mut self.input, Vec::new(alloc));
                input.truncate(size);
                filled(act, Bytes::of(input))
            }
        }
    }
}

/// Puts a request before others, in room that is there.
fn put_first(requests: &mut Vec<Request>, request: Request)
    requires { vec_len requests.old < vec_capacity requests.old }
    ensures { requests.new.items ≡ request ∷ requests.old.items }
{
    let Ok(()) = requests.insert(0, request) else {
        unreachable!()
    };
}

/// Reads the frame that is held, and what comes behind it. At want of memory the same bytes are held as before.
fn read_both(alloc: Global, held: &mut PartialFrame, more: &[u8]) -> Result<FrameOutcome, NoMemory>
    requires { length (bytes_in held.old) ≡ spec.needed (bytes_in held.old) }
    ensures read { IfOk result (IsRead (bytes_in held.old ++ more.now)) }
    ensures same { OnErr result (bytes_in held.new ≡ bytes_in held.old) }
{
    let used = held.len();
    // all that can fail comes before the input is given away, and the act last, which is large to let go
    let mut outcome = read_on(alloc, more)?;
    outcome.requests.reserve(1)?;
    let kept = match held.kept(alloc) {
        Ok(kept) => kept,
        Err(BodyFault::Bad) => return Ok(FrameOutcome::bad(alloc)),
        Err(BodyFault::Memory) => return Err(NoMemory),
    };
    let Some(request) = Request::of(held.give(alloc, kept)) else {
        unreachable!()
    };
    put_first(&mut outcome.requests, request);
    outcome.used += used;
    Ok(outcome)
}

/// Reads what is held and the next piece. `None` says that the piece is held too, and all of it is the part of a frame.
/// At want of memory the same bytes are held as before.
pub(crate) fn read_more(
    alloc: Global,
    held: &mut PartialFrame,
    piece: &[u8],
) -> Result<Option<FrameOutcome>, NoMemory>
    requires part { IsPart (bytes_in held.old) }
    ensures read { IfOk result (λ o. IfSome o (IsRead (bytes_in held.old ++ piece.now))) }
    ensures waits { IfOk result (λ o. IfNone o (IsPart (bytes_in held.new) × (bytes_in held.new ≡ bytes_in held.old ++ piece.now))) }
    ensures same { OnErr result (bytes_in held.new ≡ bytes_in held.old) }
{
    if held.is_empty() {
        let outcome = read_on(alloc, piece)?;
        return Ok(Some(outcome));
    }
    let before = held.len();
    let taken = held.complete(piece)?;
    if !held.is_whole() {
        return Ok(None);
    }
    let Ok(outcome) = read_both(alloc, held, &piece[taken..]) else {
        held.truncate(before);
        return Err(NoMemory);
    };
    Ok(Some(outcome))
}
