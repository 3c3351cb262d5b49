//! A request on its way to the desk, with the memory that was taken for it before the turn.

ghost use Rattle.std.specs.Prelude.{◌≡◌, ◌<◌, ◌^◌, ◌&&◌, length, true, false, IfOk};
ghost use Rattle.rule_model.specs.Acts.{is_disconnect};
ghost use Rattle.rule_model.specs.ReplyRooms.{sizes_of};
ghost use Rattle.wire_frames.specs.Spelling.{body_of};
ghost use Rattle.shared_service.specs.Prepared.{Prepares};
ghost use Rattle.shared_service.specs.Going.{disconnect_by};
ghost use Rattle.shared_service.specs.Owning as owning;
ghost use Rattle.shared_service.specs.Owning.{event_by};

use rule_model::{Act, Event, Reading, ReplyRoom, Request};
use std::alloc::Global;
use tags::NoMemory;
use wire_frames::frame_length;

/// An event that comes to the desk, with the memory that its entry in the book takes.
#[derive(Drop)]
pub(crate) struct Prepared {
    pub(crate) event: Event,
    /// the book's copy of the event
    pub(crate) copy: Event,
    /// the length in bytes of the request's frame, where it has one
    pub(crate) frame: u64,
    /// room for the book's copy of the reply
    pub(crate) room: ReplyRoom,
    /// it is the disconnect of a connected client, which no limit stops and which takes no memory
    pub(crate) parting: bool,
}

/// Whether it is the disconnect of a connected client.
fn is_parting(connected: bool, act: &Act) -> bool
    ensures { result ≡ (is_disconnect act.now && connected) }
{
    if connected {
        act.is_disconnect()
    } else {
        false
    }
}

/// The client of an act: 0 for a connect.
fn client_by(client: u64, act: &Act) -> u64
    ensures { result ≡ owning.client_by client act.now }
{
    match act {
        Act::Connect { .. } => 0,
        _ => client,
    }
}

/// The event of an act that a client makes.
fn client_event(reading: Reading, client: u64, act: Act) -> Event
    ensures { result ≡ event_by reading client act }
{
    Event {
        reading,
        client: client_by(client, &act),
        act,
    }
}

/// The disconnect of a client.
fn disconnect_of(reading: Reading, client: u64) -> Event
    ensures { result ≡ disconnect_by reading client }
{
    Event {
        reading,
        client,
        act: Act::Disconnect,
    }
}

/// A copy of the event of a client's act, and room for that of its reply.
fn copies_of(
    alloc: Global,
    reading: Reading,
    client: u64,
    act: &Act,
) -> Result<(Event, ReplyRoom), NoMemory>
    ensures copy { IfOk result (λ copies. copies.0 ≡ event_by reading client act.now) }
    ensures room { IfOk result (λ copies. copies.1 ≡ sizes_of act.now 0) }
{
    let room = ReplyRoom::of(alloc, act, 0)?;
    let copy = client_event(reading, client, act.copy(alloc)?);
    Ok((copy, room))
}

impl Prepared {
    /// What comes of a request of a client, by whether it is connected. `Err` gives the request back, for whose copies memory
    /// was wanting: it is still to be looked at, since a limit that it passes is told first.
    pub(crate) fn of(
        alloc: Global,
        reading: Reading,
        client: u64,
        connected: bool,
        request: Request,
    ) -> Result<Prepared, Request>
        requires short { length (body_of request) < 2 ^ 32 }
        ensures { Prepares reading client connected request result }
    {
        if is_parting(connected, request.act()) {
            drop(request);
            return Ok(Prepared {
                event: disconnect_of(reading, client),
                copy: disconnect_of(reading, client),
                frame: 0,
                room: ReplyRoom::empty(alloc),
                parting: true,
            });
        }
        let frame = frame_length(&request);
        let Ok((copy, room)) = copies_of(alloc, reading, client, request.act()) else {
            return Err(request);
        };
        Ok(Prepared {
            event: client_event(reading, client, request.into_act()),
            copy,
            frame,
            room,
            parting: false,
        })
    }
}
