//! The last tokens, and the key by which their macs are told.

ghost use Rattle.std.specs.Prelude.{◌≡◌, ◌==◌, [], length, is_err, IfOk, OnErr, OnOk};
ghost use Rattle.std.specs.List.{list_any};
ghost use Rattle.token_store.specs.Fitting.{opens};
ghost use Rattle.rule_model.specs.declared.entry_change.BootChange.TheVariants.{Accepts, StartsAgain};
ghost use Rattle.rule_model.specs.Boot.{other_triples};
ghost use Rattle.rule_model.specs.Calls.{has_right_mac as has_right_mac_in};
ghost use Rattle.live_tables.specs.Tokens.{ChangesTokens, SameTokens, token_key_in, tokens_in};
ghost use Rattle.tags.specs.declared.limits.TheConstants.{MOST_TRIPLES};

use auth_tokens::{AuthToken, check};
use std::alloc::Global;
use tag_lists::AuthList;
use tags::NoMemory;
use token_store::{TokenStore, TokensFull};

/// The last token of each triple of user, authenticator and kind, and the key that the device shares with the
/// authenticators.
#[derive(Drop)]
pub struct Tokens {
    key: [u8; 32],
    store: TokenStore,
}

impl Tokens {
    /// No tokens under this key, with room for `MOST_TRIPLES` triples. It is the one call that takes memory.
    pub fn with_room(alloc: Global, key: [u8; 32]) -> Result<Tokens, NoMemory>
        ensures key { IfOk result (λ tokens. token_key_in tokens ≡ key) }
        ensures empty { IfOk result (λ tokens. tokens_in tokens ≡ []) }
    {
        Ok(Tokens {
            key,
            store: TokenStore::with_room(alloc)?,
        })
    }

    /// Whether a token's mac is right.
    pub fn has_right_mac(&self, token: &AuthToken) -> bool
        ensures { result ≡ has_right_mac_in (token_key_in self.now) token.now }
    {
        check(token, &self.key)
    }

    /// Makes a token the last one of its triple; `TokensFull` comes exactly where `MOST_TRIPLES` other triples have one.
    pub fn accept(&mut self, token: AuthToken) -> Result<(), TokensFull>
        ensures full { is_err result ≡ (length (other_triples token (tokens_in self.old)) == MOST_TRIPLES) }
        ensures accepts { OnOk result (ChangesTokens (Accepts token) self.old self.new) }
        ensures same { OnErr result (SameTokens self.old self.new) }
    {
        self.store.add(token)
    }

    /// Forgets all tokens.
    pub fn clear(&mut self)
        ensures { ChangesTokens StartsAgain self.old self.new }
    {
        self.store.clear();
    }

    /// Whether one of the last tokens fits the key of a list and is no older than its AUTH_TIMEOUT at the reading `boot`, in
    /// milliseconds.
    pub fn timely(&self, list: &AuthList, boot: u64) -> bool
        ensures { result ≡ list_any (λ token. opens list.now boot token) (tokens_in self.now) }
    {
        self.store.timely(list, boot)
    }
}
