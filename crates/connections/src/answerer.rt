//! Who answers requests.

ghost use Rattle.std.specs.Prelude.{◌≡◌, ◌<◌, ◌^◌, ◌||◌, true, false, length};
ghost use Rattle.rule_model.specs.declared.event.Act.TheVariants.{Disconnect};
ghost use Rattle.rule_model.specs.Acts.{is_framed};
ghost use Rattle.wire_frames.specs.Spelling.{body_of};
ghost use Rattle.wire_frames.specs.Replies.{reply_body};
ghost use Rattle.connections.specs.Talks.{is_refusal, joins};

use rule_model::{Reply, Request};
use std::sync::Wait;

/// Answers the requests of one connection, one after another: one call of a service each.
pub trait Answerer {
    ghost use Rattle.std.specs.Prelude.{Bool};
    ghost use Rattle.rule_model.specs.declared.event.Act.{Act};
    ghost use Rattle.rule_model.specs.declared.reply.Reply.{Reply};

    /// Whether the one becomes the other by a call for this act that is answered with this reply.
    ghost answers: { Self → Act → Reply → Self → Type 0 };

    /// Whether a client has come by it, and was not asked to go.
    ghost connected: { Self → Bool };

    /// Answers a request, whose body has fewer than 2^32 bytes. It may wait for other callers. The disconnect of a client
    /// that is connected is never refused for want of memory or of room.
    fn answer<R: Wait>(self, rt: &R, request: Request) -> (Self, Reply)
        requires short { length (body_of request) < 2 ^ 32 }
        ensures answers { answers self request result.1 result.0 }
        ensures stays { is_framed request ≡ true → connected result.0 ≡ (connected self || joins (record { act = request; reply = result.1 })) }
        ensures goes { request ≡ Disconnect → connected self ≡ true → (connected result.0 ≡ false) × (is_refusal result.1 ≡ false) }
        ensures told { length (reply_body result.1) < 2 ^ 32 };
}
