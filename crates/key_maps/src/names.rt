//! Names of keys, as keys of an ordered map.

ghost use Rattle.std.specs.Prelude.{◌≡◌, ◌≤◌, ◌++◌, length, drop};
ghost use Rattle.key_maps.specs.Names as spec;

use tags::ALIAS_BYTES;

/// The owner of a key: its domain, and its uid or namespace.
pub(crate) type Owner = (u8, u64);

/// An alias with zeros behind it, and its length in bytes.
pub(crate) type Padded = ([u8; ALIAS_BYTES], u16);

/// An owner and an alias.
pub(crate) type Name = (Owner, Padded);

/// The bytes, with zeros behind them.
fn padded(alias: &[u8]) -> [u8; ALIAS_BYTES]
    requires { length alias.now ≤ ALIAS_BYTES }
    ensures { result ≡ spec.padded ALIAS_BYTES alias.now }
{
    let mut bytes = [0; ALIAS_BYTES];
    put_front(&mut bytes, alias);
    bytes
}

/// Writes bytes over the front.
fn put_front(out: &mut [u8], bytes: &[u8])
    requires { length bytes.now ≤ length out.old }
    ensures { out.new ≡ bytes.now ++ drop (length bytes.now) out.old }
{
    out[..bytes.len()].copy_from_slice(bytes);
}

/// The name of an owner's key of this alias.
pub(crate) fn name_of(domain: u8, nspace: u64, alias: &[u8]) -> Name
    requires { length alias.now ≤ ALIAS_BYTES }
    ensures { result ≡ spec.name_of domain nspace alias.now }
{
    ((domain, nspace), (padded(alias), alias.len() as u16))
}
