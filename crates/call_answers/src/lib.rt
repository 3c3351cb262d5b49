//! What a call reads of the keys and grants that last, and what it makes of them: the key that a descriptor finds with the
//! caller's bits, the facts of new keys, begins and calls on keys, a new key's blob and change, upgrades, entries, listings and counts,
//! and the places of grants.
//!
//! Its contract: each of these is the word of `rule_model` for it, over the lasting part of a `LastingTable` (`lasting_in`),
//! so that an engine and a checker of histories read one answer. A call looks a key up once: what is found goes on with the
//! call. No call here touches a disk, and none changes the table.
#![tactic(auto)]

mod begins;
mod callers;
mod descriptors;
mod found;
mod grant_places;
mod key_calls;
mod key_sources;
mod listing;
mod new_keys;
mod upgrades;

pub use begins::{AdmittedBegin, BeginKey};
pub use callers::{owner_of, row_for, system_facts, user_of};
pub use descriptors::owner_domain;
pub use found::find_for;
pub use grant_places::{grant_place, grant_to};
pub use key_calls::{entry_fields, key_call};
pub use key_sources::KeySource;
pub use listing::{count_entries, list_entries};
pub use new_keys::{AdmittedKey, AskedKey, KeyFault, NONCE_BYTES, SealedKey};
pub use upgrades::{AdmittedUpgrade, KeyPlace, UpgradeFault, admit_upgrade};
