//! When a token fits a key, and when it is recent enough for it.

ghost use Rattle.std.specs.Prelude.{◌≡◌};
ghost use Rattle.token_store.specs.Fitting as spec;

use auth_tokens::AuthToken;
use tag_lists::AuthList;
use tags::Tag;

/// Whether the token's user or its authenticator is among the key's USER_SECURE_IDs.
fn is_of_user(token: &AuthToken, list: &AuthList) -> bool
    ensures { result ≡ spec.is_of_user list.now token.now }
{
    list.has(Tag::UserSecureId, token.user) || list.has(Tag::UserSecureId, token.authenticator)
}

/// Each kind of authenticator.
const EVERY_KIND: u64 = 4_294_967_295;

/// The kinds that the key takes: every one where USER_AUTH_TYPE is not there.
fn kinds_of(list: &AuthList) -> u64
    ensures { result ≡ spec.kinds_of list.now }
{
    list.number(Tag::UserAuthType).unwrap_or(EVERY_KIND)
}

/// Whether the token's kind has a bit in common with the kinds that the key takes.
fn is_of_kind(token: &AuthToken, list: &AuthList) -> bool
    ensures { result ≡ spec.is_of_kind list.now token.now }
{
    kinds_of(list) & u64::from(token.kind) != 0
}

/// Whether a token fits the key of this list: its user or its authenticator is among the key's USER_SECURE_IDs, and its
/// kind has a bit in common with the key's USER_AUTH_TYPE, which is all kinds where the key does not have it. A token fits no
/// key that lacks USER_SECURE_ID. It takes no memory.
pub fn fits(token: &AuthToken, list: &AuthList) -> bool
    ensures { result ≡ spec.fits list.now token.now }
{
    is_of_user(token, list) && is_of_kind(token, list)
}

/// Whether a token is no later than the reading `boot` and at most so many seconds old. Readings and times are milliseconds
/// since the device started.
pub(crate) fn is_recent(token: &AuthToken, seconds: u64, boot: u64) -> bool
    ensures { result ≡ spec.is_recent seconds boot token.now }
{
    token.time <= boot && u128::from(boot - token.time) <= 1000 * u128::from(seconds)
}
