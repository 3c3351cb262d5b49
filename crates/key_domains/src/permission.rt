//! Permissions by name, and sets of them as the bits that descriptors, policies and grants carry.

ghost use Rattle.std.specs.Prelude.{◌≡◌};
ghost use Rattle.key_domains.specs.Bits.{bit_of, joined, covers, can_share};
ghost use Rattle.key_domains.specs.Bits as spec;

use std::marker::Model;

/// One thing that a caller may do with a key, after Keystore2's `KeyPermission`.
#[derive(Clone, Copy, Debug, PartialEq, Eq)]
pub enum Permission {
    /// take the key out
    Delete,
    /// read the key's entry
    GetInfo,
    /// share the key with another uid
    Grant,
    /// hand the key in as a blob
    ManageBlob,
    /// put a new key under the key's alias
    Rebind,
    /// begin an operation that may end any other
    ReqForcedOp,
    /// change the key's blob or certificate
    Update,
    /// begin an operation
    Use,
}

impl Permission {
    /// The permission's bit, a power of two.
    pub fn bit(self) -> u32
        ensures { result ≡ bit_of self }
    {
        match self {
            Permission::Delete => 1,
            Permission::GetInfo => 4,
            Permission::Grant => 8,
            Permission::ManageBlob => 16,
            Permission::Rebind => 32,
            Permission::ReqForcedOp => 64,
            Permission::Update => 128,
            Permission::Use => 256,
        }
    }
}

/// A set of permissions, seen as the sum of their bits. Bits that name no permission are kept.
#[derive(Clone, Copy, Debug, PartialEq, Eq)]
pub struct Permissions {
    bits: u32,
}

impl Model for Permissions {
    ghost use Rattle.std.specs.Prelude.{ℕ};

    ghost Value = { ℕ };

    ghost view = { λ permissions. permissions.bits };

    ghost inverse = { λ bits. record { bits = bits } };
}

impl Permissions {
    /// No permission.
    pub const NONE: Permissions = Permissions { bits: 0 };

    /// The permissions of these bits.
    pub fn of_bits(bits: u32) -> Permissions
        ensures { result ≡ bits }
    {
        Permissions { bits }
    }

    /// The bits, as they stand in a policy, a grant or a request.
    pub fn bits(self) -> u32
        ensures { result ≡ self }
    {
        self.bits
    }

    /// Whether a permission is among these.
    pub fn has(self, permission: Permission) -> bool
        ensures { result ≡ spec.has self permission }
    {
        self.bits & permission.bit() == permission.bit()
    }

    /// These permissions and those.
    pub fn joined(self, other: Permissions) -> Permissions
        ensures { result ≡ joined self other }
    {
        Permissions {
            bits: self.bits | other.bits,
        }
    }

    /// Whether each bit of the others is one of these.
    pub fn covers(self, other: Permissions) -> bool
        ensures { result ≡ covers self other }
    {
        self.bits & other.bits == other.bits
    }

    /// Whether a caller with these permissions may share the others by a grant: no one passes GRANT on, nor what it
    /// lacks itself.
    pub fn can_share(self, other: Permissions) -> bool
        ensures { result ≡ can_share self other }
    {
        !other.has(Permission::Grant) && self.covers(other)
    }
}
