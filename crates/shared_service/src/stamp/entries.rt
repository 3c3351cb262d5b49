//! The entries of a step.

ghost use Rattle.std.specs.Prelude.{◌≡◌};
ghost use Rattle.shared_service.specs.Calls.{entry_by};
ghost use Rattle.shared_service.specs.Stamps.{stamped_before, stamped_behind};

use super::Stamp;
use rule_model::Entry;
use service_book::BookEntry;

impl Stamp {
    /// An entry of the step.
    pub(crate) fn entry(&self, entry: Entry) -> BookEntry
        ensures { result ≡ entry_by self.now.pass (stamped_before self.now) (stamped_behind self.now) entry }
    {
        BookEntry {
            pass: self.pass,
            entry,
            disk_before: self.disk_before,
            disk_after: self.disk_after,
            entropy_before: self.entropy_before,
            entropy_after: self.entropy_after,
        }
    }
}
