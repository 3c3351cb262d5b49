//! The memory of a request that can be taken at the desk alone, before its step.

ghost use Rattle.std.specs.Prelude.{◌≡◌, ◌+◌, ◌≤◌, ◌<◌, ◌^◌, ℕ, List, Some, length, IfOk, IfSome, OnOk, is_some};
ghost use Rattle.std.specs.Option.{option_copied};
ghost use Rattle.rule_model.specs.Acts as acts_spec;
ghost use Rattle.rule_model.specs.ReplyRooms.{no_sizes};
ghost use Rattle.service_book.specs.Book.{log_of};
ghost use Rattle.rule_model.specs.Acts.{need_of};
ghost use Rattle.shared_service.specs.Desks.{weight};
ghost use Rattle.shared_service.specs.DeskWords.{desk_book, desk_engine, desk_name, desk_places};
ghost use Rattle.shared_service.specs.Rooms.{IsOutput};

use super::Desk;
use ks_outside::{Disk, Entropy};
use rule_model::{Act, ReplyRoom};
use tags::NoMemory;

impl<D: Disk, N: Entropy> Desk<D, N> {
    /// Takes the places of a request in the book.
    pub(super) fn reserve(&mut self, act: &Act) -> Result<(), NoMemory>
        ensures same { (desk_name self.new ≡ desk_name self.old) × (desk_book self.new ≡ desk_book self.old) × (desk_engine self.new ≡ desk_engine self.old) }
        ensures places { OnOk result (weight (log_of (desk_book self.old)) + need_of act.now ≤ desk_places self.new) }
    {
        self.book.reserve(act.need())
    }

    /// Room for the reply to the leave of an enter, which the engine alone can tell.
    pub(super) fn leave_room(&self, act: &Act) -> Result<Option<ReplyRoom>, NoMemory>
        ensures some { IfOk result (λ o. is_some o ≡ acts_spec.is_enter act.now) }
        ensures room { IfOk result (λ o. IfSome o (λ room. IsOutput (desk_engine self.now) act.now room)) }
    {
        if !act.is_enter() {
            return Ok(None);
        }
        let most = self.engine.most_out(act);
        let room = ReplyRoom::of(self.alloc, &Act::Leave { ticket: 0 }, most)?;
        Ok(Some(room))
    }
}
