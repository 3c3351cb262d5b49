//! What the two files of a device spell: its secrets with the versions of its system, and the policy that stands in place of SELinux.
//!
//! Its one contract: `device_in` and `policy_in` answer what the definitions of `specs/` say of the bytes of `device.key` and
//! `policy.json`, and a fault exactly where these say nothing; `device_of` and `policy_of` say what is wrong there. JSON is that of
//! RFC 8259, as `serde_json` reads it. What a real file holds no clause says; `read_file` is shown by tools.
#![tactic(auto)]

mod device;
mod fault;
mod files;
mod policy;

pub use device::device_in;
pub use fault::FileFault;
pub use files::{DEVICE_BYTES, FileTrouble, POLICY_BYTES, device_of, policy_of, read_file};
pub use policy::{PolicyFault, policy_fault, policy_in};
