//! The grants: which key is shared with which uid, under which number and with which permissions.
//!
//! Its contract: `Grants` is seen as the list of its rows in the order of their numbers (`specs/Table.antt`), where no
//! two rows have one number, or one key and uid. Each call is a look-up in that list or a change of it, and `reserve`
//! alone takes memory. The rows are those of the grants of Android's Keystore2 (`IKeystoreService.grant`).
#![tactic(auto)]

mod maps;
mod row;
mod table;

pub use row::GrantRow;
pub use table::Grants;
