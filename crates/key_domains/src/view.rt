//! What the look-ups of one descriptor and one uid find.

ghost use Rattle.std.specs.Prelude.{◌≡◌, ℕ, List, Option};
ghost use Rattle.key_domains.specs.declared.view.KeyRow.{KeyRow};
ghost use Rattle.key_domains.specs.declared.view.GrantedRow.{GrantedRow};
ghost use Rattle.key_domains.specs.View as spec;
ghost use Rattle.key_domains.specs.View.{view_of};

use crate::Permissions;
use tags::{DOMAIN_APP, DOMAIN_SELINUX, Descriptor};

/// A live key, as far as access to it goes.
#[derive(Clone, Copy, Debug, PartialEq, Eq)]
pub struct KeyRow {
    /// the key's number
    pub id: u64,
    /// `DOMAIN_APP` or `DOMAIN_SELINUX`
    pub domain: u32,
    /// the uid that owns it in APP, the namespace in SELINUX
    pub nspace: u64,
}

/// A grant of a live key.
#[derive(Clone, Copy, Debug, PartialEq, Eq)]
pub struct GrantedRow {
    pub key: KeyRow,
    /// the uid that the key is shared with
    pub uid: u32,
    /// what that uid may do with the key
    pub bits: Permissions,
}

/// What one descriptor and one uid find, before the descriptor's domain says which of it counts.
#[derive(Clone, Copy, Debug, PartialEq, Eq)]
pub struct KeyDatabaseView {
    /// the live key of the descriptor's owner and alias
    pub named: Option<KeyRow>,
    /// the live key whose number is the descriptor's nspace
    pub numbered: Option<KeyRow>,
    /// the grant whose number is the descriptor's nspace
    pub granted: Option<GrantedRow>,
    /// the bits of a grant of `numbered` to the uid
    pub shared: Option<Permissions>,
}

/// The live keys and grants, by look-ups that take no memory.
pub trait KeyLookups {
    ghost named: { Self → ℕ → ℕ → List ℕ → Option KeyRow };

    ghost numbered: { Self → ℕ → Option KeyRow };

    ghost granted: { Self → ℕ → Option GrantedRow };

    ghost shared: { Self → ℕ → ℕ → Option ℕ };

    /// The live key of an owner (its domain and nspace) and an alias, of any bytes.
    fn by_name(&self, domain: u32, nspace: u64, alias: &[u8]) -> Option<KeyRow>
        ensures { result ≡ named self.now domain nspace alias.now };

    /// The live key of a number.
    fn by_id(&self, id: u64) -> Option<KeyRow>
        ensures { result ≡ numbered self.now id };

    /// The grant of a number, with its live key.
    fn by_grant(&self, grant: u64) -> Option<GrantedRow>
        ensures { result ≡ granted self.now grant };

    /// The bits of the grant of a key to a uid.
    fn shared_with(&self, key: u64, uid: u32) -> Option<Permissions>
        ensures { result ≡ shared self.now key uid };
}

/// The owner whose keys a descriptor names by their alias: its domain and nspace.
fn owner_of(descriptor: &Descriptor, uid: u32) -> Option<(u32, u64)>
    ensures { result ≡ spec.owner_of descriptor.now uid }
{
    match descriptor.domain {
        DOMAIN_APP => Some((DOMAIN_APP, uid as u64)),
        DOMAIN_SELINUX => Some((DOMAIN_SELINUX, descriptor.nspace)),
        _ => None,
    }
}

/// The live key of a descriptor's owner and alias.
fn named_by<K: KeyLookups>(descriptor: &Descriptor, uid: u32, keys: &K) -> Option<KeyRow>
    ensures { result ≡ spec.named_by (K.named keys.now) descriptor.now uid }
{
    let (domain, nspace) = owner_of(descriptor, uid)?;
    let alias = descriptor.alias.as_ref()?;
    keys.by_name(domain, nspace, alias.as_slice())
}

impl KeyDatabaseView {
    /// The look-ups of a descriptor and a uid. A descriptor without an alias names no key; one whose alias no key has,
    /// as one that is empty, too long or no UTF-8, finds none.
    pub fn of<K: KeyLookups>(descriptor: &Descriptor, uid: u32, keys: &K) -> KeyDatabaseView
        ensures { result ≡ view_of (K.named keys.now) (K.numbered keys.now) (K.granted keys.now) (K.shared keys.now) descriptor.now uid }
    {
        let numbered = keys.by_id(descriptor.nspace);
        KeyDatabaseView {
            named: named_by(descriptor, uid, keys),
            numbered,
            granted: keys.by_grant(descriptor.nspace),
            shared: match numbered {
                Some(key) => keys.shared_with(key.id, uid),
                None => None,
            },
        }
    }
}
