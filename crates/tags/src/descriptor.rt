//! Which key a call means.

ghost use Rattle.std.specs.Prelude.{◌≡◌};
ghost use Rattle.std.specs.Str.{is_utf8};
ghost use Rattle.tags.specs.Descriptor as spec;

use crate::Bytes;
use crate::limits::ALIAS_BYTES;

/// The domain of an app's own keys; its owner is the app's uid.
pub const DOMAIN_APP: u32 = 0;
/// The domain of keys reached by a grant.
pub const DOMAIN_GRANT: u32 = 1;
/// The domain of keys of a namespace of the policy.
pub const DOMAIN_SELINUX: u32 = 2;
/// The domain of keys that the caller keeps as a blob.
pub const DOMAIN_BLOB: u32 = 3;
/// The domain of keys named by their number.
pub const DOMAIN_KEY_ID: u32 = 4;

/// Which key a call means, after Keystore2's `KeyDescriptor`.
#[derive(Debug, Drop)]
pub struct Descriptor {
    pub domain: u32,
    /// a uid, a namespace, a grant or a key id, as the domain says
    pub nspace: u64,
    /// UTF-8 where the rules accept it
    pub alias: Option<Bytes>,
    pub blob: Option<Bytes>,
}

/// Whether the bytes are UTF-8. It takes no memory.
#[tactic(auto, using(crate::proofs::Texts::is_text, crate::proofs::Texts::is_no_text))]
pub fn is_text(bytes: &[u8]) -> bool
    ensures { result ≡ is_utf8 bytes.now }
{
    match str::from_utf8(bytes) {
        Ok(_) => true,
        Err(_) => false,
    }
}

/// Whether the bytes may be an alias: 1 to 256 bytes of UTF-8.
fn is_alias(alias: &[u8]) -> bool
    ensures { result ≡ spec.is_alias alias.now }
{
    1 <= alias.len() && alias.len() <= ALIAS_BYTES && is_text(alias)
}

impl Descriptor {
    /// Whether there is an alias of 1 to 256 bytes of UTF-8. It takes no memory.
    pub fn has_alias(&self) -> bool
        ensures { result ≡ spec.has_alias self.now }
    {
        match &self.alias {
            Some(alias) => is_alias(alias.as_slice()),
            None => false,
        }
    }
}
