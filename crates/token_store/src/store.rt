//! The last token of each triple.

ghost use Rattle.std.specs.Prelude.{◌≡◌, ◌≤◌, ◌<◌, ◌==◌, ◌↔◌, ◌&&◌, ◌+◌, ◌-◌, if◌then◌else◌, IsTrue, IfOk, OnOk, OnErr, is_err, vec_capacity};
ghost use Rattle.std.specs.List.{list_any};
ghost use Rattle.token_store.specs.Fitting.{is_recent as is_recent_at, fits as fits_key};
ghost use Rattle.token_store.specs.Table.{is_like as like_in, is_held, triple_count, others_of, other_triples, IsSound, IsEmpty, SameTokens, AddsToken, FindsAdded, FindsNone, is_timely, IsTimely};

use crate::fitting::{fits, is_recent};
use auth_tokens::AuthToken;
use std::alloc::Global;
use std::marker::Model;
use tag_lists::AuthList;
use tags::{MOST_TRIPLES, NoMemory, Tag};

/// Each of the 256 places is taken by another triple.
#[derive(Clone, Copy, Debug, PartialEq, Eq)]
pub struct TokensFull;

/// The last token of each triple of user, authenticator and kind, for at most 256 triples.
#[derive(Drop)]
pub struct TokenStore {
    tokens: Vec<AuthToken>,
}

impl Model for TokenStore {
    ghost use Rattle.std.specs.Prelude.{List, vec_capacity};
    ghost use Rattle.auth_tokens.specs.declared.token.AuthToken.{AuthToken};
    ghost use Rattle.token_store.specs.Room.{IsRoomy};

    ghost Value = { List AuthToken };

    ghost view = { λ store. store.tokens.items };

    ghost invariant = { λ store. IsRoomy store.tokens.items (vec_capacity store.tokens) };
}

/// Whether two tokens are of one triple.
fn is_like(token: &AuthToken, other: &AuthToken) -> bool
    ensures { result ≡ like_in token.now other.now }
{
    other.user == token.user
        && other.authenticator == token.authenticator
        && other.kind == token.kind
}

/// Takes out the token of this one's triple.
fn drop_like(tokens: &mut Vec<AuthToken>, token: &AuthToken)
    ensures others { tokens.new.items ≡ others_of tokens.old.items token.now }
    ensures fewer { triple_count tokens.new.items ≤ triple_count tokens.old.items }
    ensures room { vec_capacity tokens.new ≡ vec_capacity tokens.old }
{
    tokens.retain(|other| !is_like(token, other));
}

/// Puts a token behind those of the other triples, where there is room.
fn put_last(tokens: &mut Vec<AuthToken>, token: AuthToken) -> Result<(), TokensFull>
    requires few { triple_count tokens.old.items ≤ MOST_TRIPLES }
    requires room { MOST_TRIPLES ≤ vec_capacity tokens.old }
    ensures full { is_err result ≡ (other_triples tokens.old.items token == MOST_TRIPLES) }
    ensures ok { OnOk result (AddsToken tokens.old.items tokens.new.items token) }
    ensures few { OnOk result (other_triples tokens.old.items token < MOST_TRIPLES) }
    ensures err { OnErr result (SameTokens tokens.old.items tokens.new.items) }
    ensures room { MOST_TRIPLES ≤ vec_capacity tokens.new }
{
    drop_like(tokens, &token);
    if tokens.len() == MOST_TRIPLES {
        return Err(TokensFull);
    }
    match tokens.push(token) {
        Ok(()) => Ok(()),
        Err(_) => unreachable!(),
    }
}

/// Whether one of the tokens fits the key of this list and is at most so many seconds old at the reading `boot`.
fn any_opens(tokens: &[AuthToken], list: &AuthList, seconds: u64, boot: u64) -> bool
    ensures { result ≡ list_any (λ token. is_recent_at seconds boot token && fits_key list.now token) tokens.now }
{
    tokens.iter().any(|token| is_recent(token, seconds, boot) && fits(token, list))
}

impl TokenStore {
    /// No tokens, with room for 256 triples. It is the one call that takes memory.
    pub fn with_room(alloc: Global) -> Result<TokenStore, NoMemory>
        ensures empty { IfOk result (λ store. IsEmpty store) }
        ensures found { IfOk result (λ store. FindsNone store) }
    {
        Ok(TokenStore {
            tokens: Vec::with_capacity(alloc, MOST_TRIPLES)?,
        })
    }

    /// Makes the token the last one of its triple. `TokensFull` comes exactly where 256 other triples have a token, and
    /// then nothing changes.
    pub fn add(&mut self, token: AuthToken) -> Result<(), TokensFull>
        ensures full { is_err result ≡ (other_triples self.old token == MOST_TRIPLES) }
        ensures others { other_triples self.old token ≡ (if is_held self.old token then triple_count self.old - 1 else triple_count self.old) }
        ensures count { OnOk result (triple_count self.new ≡ other_triples self.old token + 1) }
        ensures added { OnOk result (AddsToken self.old self.new token) }
        ensures found { OnOk result (FindsAdded self.old self.new token) }
        ensures same { OnErr result (SameTokens self.old self.new) }
        ensures sound { IsSound self.new }
    {
        put_last(&mut self.tokens, token)
    }

    /// Forgets every token.
    pub fn clear(&mut self)
        ensures empty { IsEmpty self.new }
        ensures found { FindsNone self.new }
    {
        self.tokens.clear();
    }

    /// Whether one of the last tokens fits the key of this list and is recent enough for it at the reading `boot`, in
    /// milliseconds since the device started: it is no later than the reading, and at most the key's AUTH_TIMEOUT old,
    /// which is in seconds. It never holds of a key that lacks USER_SECURE_ID or AUTH_TIMEOUT.
    pub fn timely(&self, list: &AuthList, boot: u64) -> bool
        ensures last { IsTrue result ↔ IsTimely self.now list.now boot }
        ensures exact { result ≡ is_timely self.now list.now boot }
        ensures sound { IsSound self.now }
    {
        match list.number(Tag::AuthTimeout) {
            Some(seconds) => any_opens(&self.tokens, list, seconds, boot),
            None => false,
        }
    }
}
