//! Table A: whether a call that has no table of its own is let through, by the facts that the service gathered of it.
//!
//! Its one contract: each call answers the first of its rules that does not hold, with its code. The calls with their
//! rules stand in `specs/Table.antt`, and the forms of their arguments in `specs/Rules.antt`. The rules and their order are
//! the service's own; calls, codes and permissions have the names of Android's Keystore2 (`IKeystoreService`,
//! `IKeystoreMaintenance`, `IKeystoreAuthorization`, `ResponseCode`, `KeyPermission`). No call takes memory.
#![tactic(auto)]

mod facts;
mod rules;
mod table;

pub use facts::{KeyCallFacts, SystemCallFacts, UpgradeFacts};
pub use table::{
    check_clear_namespace, check_delete_key, check_disconnect, check_get_key_entry, check_grant,
    check_listing, check_system_call, check_token, check_ungrant, check_upgrade_key,
    check_user_call,
};
