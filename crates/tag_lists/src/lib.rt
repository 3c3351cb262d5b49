//! Authorization lists: the parameters of keys and operations, and their bytes.
//!
//! Its one contract: reading a list is the grammar of `specs/Reading.antt`, both ways and with each fault at its
//! offset, and writing one gives its one canonical spelling, which reads as that list again. The format is the
//! service's own, over the tags of Android's AIDL document `Tag`; `specs/Spelling.antt` is its spelling.
//!
//! ```rust
//! use tag_lists::AuthList;
//! use tags::{Param, ParamValue, Tag};
//!
//! let Ok(list) = AuthList::read(alloc, bytes) else { return None; };
//! let size = Param { tag: Tag::KeySize, value: ParamValue::Number(256) };
//! let changed = list.without(Tag::KeySize).with(size).ok()?;
//! let spelled = changed.write(alloc).ok()?;
//! ```
#![tactic(auto)]

mod fault;
mod list;
mod reading;
mod shape;
mod versions;
mod writing;

pub use fault::ListFault;
pub use list::AuthList;
pub use writing::spelled;
