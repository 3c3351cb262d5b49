//! The members of a line's JSON object (RFC 8259): read by their names and kinds, and written.
//!
//! Its one contract: what is read of a value is what `specs/Members.antt` finds in it, and a line that has none of it is `Malformed`;
//! a `WrittenObject` has the members that were put into it, in byte order, and its compact text is read back as the object.
#![tactic(auto)]

mod alias_form;
mod fault;
mod members;
mod value;
mod written_object;

pub use alias_form::AliasForm;
pub use fault::LineFault;
pub use members::{
    alias_of, bytes_of_hex, flag_or_false, hex_of, hex_or_empty, needed_hex, needed_hex_32,
    needed_u32, needed_u64, optional_alias, optional_hex, optional_hex_32, optional_u32,
    optional_u64, two_of, u32_of, u64_of, u64_or_zero,
};
pub use value::parsed;
pub use written_object::WrittenObject;
