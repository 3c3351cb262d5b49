//! A step, and what the book records of it.

ghost use Rattle.std.specs.Prelude.{◌≡◌, ◌+◌, ◌<◌, ◌^◌, length, true};
ghost use Rattle.rule_model.specs.Acts as acts_spec;
ghost use Rattle.service_book.specs.Book.{log_of};
ghost use Rattle.service_book.specs.Limits.{acted_bytes};
ghost use Rattle.wire_frames.specs.Replies.{reply_body};
ghost use Rattle.wire_frames.specs.Sizes as sizes;
ghost use Rattle.wire_frames.specs.Spelling.{body_of};
ghost use Rattle.rule_model.specs.Entries.{is_done};
ghost use Rattle.shared_service.specs.Desks.{HasMade, HasPlaces, MayMake};
ghost use Rattle.shared_service.specs.Owning.{is_parting};
ghost use Rattle.shared_service.specs.Requests.{GrowsBy};
ghost use Rattle.shared_service.specs.DeskWords.{desk_book, desk_name, desk_places};

use super::Desk;
use crate::prepared::Prepared;
use crate::stamp::Stamp;
use crate::step::Step;
use cipher_ops::Done;
use ks_outside::{Disk, Entropy};
use rule_model::{Act, Entry, Reply, Stepped};
use wire_frames::reply_length;

/// How many bytes an event and its reply record, by the length of its request's frame.
fn recorded_bytes(act: &Act, frame: u64, reply: &Reply) -> u64
    requires frame { frame ≡ sizes.frame_length act.now }
    requires small { frame < 2 ^ 33 }
    requires short { length (reply_body reply.now) < 2 ^ 32 }
    ensures bytes { result ≡ acted_bytes act.now reply.now }
    ensures small { result < 2 ^ 34 }
{
    if act.is_disconnect() {
        return 0;
    }
    frame + reply_length(reply)
}

impl<D: Disk, N: Entropy> Desk<D, N> {
    /// Makes the step of an event and records it.
    pub(super) fn step(&mut self, pass: u64, prepared: Prepared, back: Option<Done>) -> Step
        requires same { prepared.copy ≡ prepared.event }
        requires frame { prepared.frame ≡ sizes.frame_length prepared.event.act }
        requires small { prepared.frame < 2 ^ 33 }
        requires may { ∥ MayMake (desk_name self.old) (log_of (desk_book self.old)) pass prepared.event prepared.room back ∥₁ }
        requires places { HasPlaces prepared.event.act pass (log_of (desk_book self.old)) (desk_places self.old) }
        ensures name { desk_name self.new ≡ desk_name self.old }
        ensures made { ∥ HasMade (desk_name self.old) pass prepared.event (desk_book self.old) (desk_book self.new) result.reply result.job ∥₁ }
        ensures grown { GrowsBy pass (desk_book self.old) (desk_book self.new) }
        ensures first { result.first ≡ length (desk_book self.old) + 1 }
        ensures last { result.last ≡ length (desk_book self.new) }
        ensures parts { is_parting prepared.event.act pass (log_of (desk_book self.old)) ≡ true → is_done result.reply ≡ true }
        ensures told { length (reply_body result.reply) < 2 ^ 32 }
    {
        let Prepared {
            event,
            copy,
            frame,
            room,
            parting: _,
        } = prepared;
        let first = self.book.len() + 1;
        let disk_before = self.disk.faults();
        let entropy_before = self.entropy.faults();
        let Stepped {
            settled,
            reply,
            job,
            drawn,
        } = self
            .engine
            .step(&mut self.disk, &mut self.entropy, event, back);
        let stamp = Stamp {
            pass,
            disk_before,
            disk_after: self.disk.faults(),
            entropy_before,
            entropy_after: self.entropy.faults(),
        };
        self.book.settle(stamp, settled);
        let bytes = recorded_bytes(&copy.act, frame, &reply);
        let acted = Entry::Acted {
            event: copy,
            drawn,
            reply: room.copy(&reply),
        };
        self.book.add(stamp.entry(acted), bytes);
        Step {
            first,
            last: self.book.len(),
            reply,
            job,
            leave: None,
        }
    }
}
