//! The words of the service: tags, codes, rules, plans, descriptors, and what is handed in with them.
//!
//! Its contract: each table (tags by number and name, codes by number, rules by letter) is a function of `specs/`,
//! and the calls are those functions. The names are those of Android's AIDL documents `Tag`, `ErrorCode`,
//! `ResponseCode` and `KeyDescriptor`.
#![tactic(auto)]

mod bytes;
mod code;
mod descriptor;
mod limits;
mod material;
mod param;
mod plan;
mod policy;
mod rule;
mod secrets;
mod settled;
mod table;
mod tag;
pub mod values;

pub use bytes::{Bytes, NoMemory};
pub use code::Code;
pub use descriptor::{
    DOMAIN_APP, DOMAIN_BLOB, DOMAIN_GRANT, DOMAIN_KEY_ID, DOMAIN_SELINUX, Descriptor, is_text,
};
pub use limits::{
    ALIAS_BYTES, BLOB_BYTES, FRAME_BYTES, JOURNAL_BYTES, KEPT_LIST_BYTES, LINE_BYTES, LIST_BYTES,
    LISTED, MOST_GRANTS, MOST_KEYS, MOST_SLOTS, MOST_TRIPLES, MOST_USER, NUMBERS_END,
    OPERATION_BYTES, PIECE_BYTES, POLICY_ROWS, RECORD_BYTES, SCRIPT_BYTES, USER_UIDS,
};
pub use material::Material;
pub use param::{Param, ParamValue};
pub use plan::Plan;
pub use policy::{Policy, PolicyRow};
pub use rule::{Rule, RuleTable};
pub use secrets::DeviceSecrets;
pub use settled::Settled;
pub use table::{Ruling, check};
pub use tag::{Tag, TagType};
