//! The plans of making a key and of beginning an operation, over what the service knows of the call: what is kept, and how
//! many bytes are drawn, before any are; the blob that a new key is sealed in, what a call reads of one, and its upgrade.
//!
//! Its one contract: `plan_key` answers by table K, with the kept list spelled out and the size of the material that is
//! drawn, and `seal_key` gives the one blob of that plan; `open_key` opens a blob once, and `plan_begin` answers by table B
//! over what was opened, and what it plans starts, by `Begin::start`, with the key's material and any
//! nonce of the size that it wants; `open_blob` opens a blob for an upgrade, `OpenedBlob::upgrade` sets the device's versions in its
//! list, and `seal_upgraded` gives the one blob of that; `open_wrapped` gives the text of a key that comes wrapped under an opened
//! one (KW-AD of SP 800-38F section 6.2). The material of an AES key has a length of FIPS 197 section 6.1, a nonce the length of
//! its mode (SP 800-38A section 5.3, SP 800-38D section 5.2.1.1). Making keys, upgrading them and beginning operations follow KeyMint's
//! `IKeyMintDevice`.
#![tactic(auto)]

mod begin;
mod creation;
mod opening;
mod unwrapping;
mod upgrade;

pub use begin::{Begin, BeginFault, plan_begin};
pub use creation::{NewKey, plan_key, seal_key};
pub use opening::{OpenedBlob, OpenedKey, open_blob, open_key};
pub use unwrapping::open_wrapped;
pub use upgrade::{UpgradeSizes, UpgradedKey, seal_upgraded};
