//! Sealed blobs: how a key's list and material are kept outside the engine, and how a blob is opened again.
//!
//! Its contract: `seal` gives the one blob that its definition says (`specs/Blobs.antt`), which opens to what was sealed;
//! `unseal` gives the list and the material of a blob that opens under the device's key and was sealed for its root of
//! trust and for the caller's ids, and otherwise the first fault. A blob is AES-256-GCM (SP 800-38D) over a text of the
//! service's own format (`specs/Text.antt`). No copy of the material is left but the one that is answered.
//!
//! ```rust
//! use key_blobs::{Sealed, seal, unseal};
//! use tags::DeviceSecrets;
//!
//! let device = DeviceSecrets::demo();
//! let sealed = Sealed { root: device.root, app_id, app_bytes: None, list, material };
//! let blob = seal(alloc, &device, nonce, &sealed)?;
//! let opened = unseal(alloc, &device, blob.as_slice(), Some(b"ab"), None);
//! ```
#![tactic(auto)]

mod fault;
mod opening;
mod reading;
mod sealed;
mod sealing;

pub use fault::BlobFault;
pub use opening::unseal;
pub use sealed::{Opened, Sealed};
pub use sealing::seal;
