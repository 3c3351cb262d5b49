//! What tells the rows of a lasting part.

ghost use Rattle.std.specs.Prelude.{◌≡◌, IfSome, IsSome};
ghost use Rattle.std.specs.Option.{option_map};
ghost use Rattle.journal_records.specs.LastingPart.{Lasting};
ghost use Rattle.journal_records.specs.Lookups.{key_of_id};
ghost use Rattle.journal_records.specs.Spelling.{numbers_of};
ghost use Rattle.held_rows.specs.Rows.{grant_after, held_row, key_after};

use crate::row::HeldRow;
use journal_records::HeldNumbers;

/// The live keys and the grants, each by rising numbers, and the numbers that the next of each take. No call takes memory.
pub trait Held {
    ghost part: { Self → Lasting };

    /// The numbers that the next key and the next grant take.
    fn next_numbers(&self) -> (u64, u64)
        ensures { result ≡ ((part self.now).next_key, (part self.now).next_grant) };

    /// The numbers of the live key of the least number greater than `past`; None where there is none.
    fn key_after(&self, past: u64) -> Option<HeldNumbers>
        ensures { result ≡ option_map numbers_of (key_after (part self.now) past) };

    /// The alias of a live key: 1 to 256 bytes.
    fn alias(&self, id: u64) -> &[u8]
        requires live { IsSome (key_of_id (part self.now) id) }
        ensures { IfSome (key_of_id (part self.now) id) (λ key. result.now ≡ key.alias) };

    /// The sealed blob of a live key.
    fn blob(&self, id: u64) -> &[u8]
        requires live { IsSome (key_of_id (part self.now) id) }
        ensures { IfSome (key_of_id (part self.now) id) (λ key. result.now ≡ key.blob) };

    /// The encoded authorization list of a live key.
    fn list(&self, id: u64) -> &[u8]
        requires live { IsSome (key_of_id (part self.now) id) }
        ensures { IfSome (key_of_id (part self.now) id) (λ key. result.now ≡ key.list) };

    /// The grant of the least number greater than `past`; None where there is none.
    fn grant_after(&self, past: u64) -> Option<HeldRow>
        ensures { result ≡ option_map held_row (grant_after (part self.now) past) };
}
