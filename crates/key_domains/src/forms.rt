//! The forms of a descriptor.

ghost use Rattle.std.specs.Prelude.{◌≡◌};
ghost use Rattle.key_domains.specs.Forms as spec;

use tags::{DOMAIN_APP, DOMAIN_BLOB, DOMAIN_GRANT, DOMAIN_KEY_ID, DOMAIN_SELINUX, Descriptor};

/// Whether a key of the domain is found by its owner and alias.
pub fn is_by_alias(domain: u32) -> bool
    ensures { result ≡ spec.is_by_alias domain }
{
    domain == DOMAIN_APP || domain == DOMAIN_SELINUX
}

fn is_by_number(domain: u32) -> bool
    ensures { result ≡ spec.is_by_number domain }
{
    domain == DOMAIN_GRANT || domain == DOMAIN_KEY_ID
}

/// Whether the descriptor has the form of a domain that finds a stored key: an alias of 1 to 256 bytes of UTF-8 in APP and
/// SELINUX; in GRANT and KEY_ID its number is enough.
pub fn names_key(descriptor: &Descriptor) -> bool
    ensures { result ≡ spec.names_key descriptor.now }
{
    is_by_alias(descriptor.domain) && descriptor.has_alias() || is_by_number(descriptor.domain)
}

fn hands_blob(descriptor: &Descriptor) -> bool
    ensures { result ≡ spec.hands_blob descriptor.now }
{
    descriptor.domain == DOMAIN_BLOB && descriptor.blob.is_some()
}

/// Whether the descriptor has the form of a domain that finds a key, stored or handed in as a blob of any bytes.
pub fn names_any_key(descriptor: &Descriptor) -> bool
    ensures { result ≡ spec.names_any_key descriptor.now }
{
    names_key(descriptor) || hands_blob(descriptor)
}

/// SELINUX: whether the policy has a row of the caller and the namespace.
pub fn is_in_policy(domain: u32, row: Option<u32>) -> bool
    ensures { result ≡ spec.is_in_policy domain row }
{
    domain != DOMAIN_SELINUX || row.is_some()
}
