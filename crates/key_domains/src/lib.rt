//! Which key a descriptor finds, and what its caller may do with it.
//!
//! Its contract: `find_key` answers what `access` of `specs/Access.antt` finds among the live keys and grants. It makes
//! the look-ups of one descriptor and one uid (`KeyDatabaseView::of`) and reads them by the descriptor's domain
//! (`resolve`). The domains are those of Android's `KeyDescriptor`, and the permissions those of Keystore2's
//! `KeyPermission`. No call takes memory.
#![tactic(auto)]

mod access;
mod caller;
mod forms;
mod permission;
mod view;

pub use access::{Access, find_key, resolve};
pub use forms::{is_by_alias, is_in_policy, names_any_key, names_key};
pub use permission::{Permission, Permissions};
pub use view::{GrantedRow, KeyDatabaseView, KeyLookups, KeyRow};
