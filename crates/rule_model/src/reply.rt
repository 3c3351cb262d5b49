//! The answers of the service: the fields of an admitted call, or the rule or the code that stopped it.

ghost use Rattle.std.specs.Prelude.{◌≡◌, ◌==◌, bytes_eq};
ghost use Rattle.std.specs.Ordering.{on, eq_of_both};
ghost use Rattle.std.specs.Cmp.Lexicographic.{pointwise};
ghost use Rattle.std.specs.Cmp.Rules.{comparing};
ghost use Rattle.std.proofs.Common.{rules};
ghost use Rattle.rule_model.specs.Entries.{is_done};

use std::alloc::Global;
use std::marker::Model;
use tags::{Bytes, Code, Rule};

/// The keys of a listing: each alias with the key's id, in ascending order of the aliases.
#[derive(Debug, Drop)]
pub struct Entries {
    entries: Vec<(Bytes, u64)>,
}

impl Model for Entries {
    ghost use Rattle.std.specs.Prelude.{List, ℕ};

    ghost Value = { List (List ℕ × ℕ) };

    ghost view = { λ e. e.entries.items };
}

impl Entries {
    /// These entries. It takes no memory.
    pub fn of(entries: Vec<(Bytes, u64)>) -> Entries
        ensures { result ≡ entries.items }
    {
        Entries { entries }
    }

    /// The entries, lent. It takes no memory.
    pub fn as_slice(&self) -> &[(Bytes, u64)]
        ensures { result.now ≡ self.now }
    {
        self.entries.as_slice()
    }
}

/// Entries are equal where they are the same keys in the same order.
impl PartialEq for Entries {
    ghost eq = { pointwise (eq_of_both (on (λ e. e.0) bytes_eq) (on (λ e. e.1) ◌==◌)) };

    ghost laws = { Prim.search (comparing, rules) };

    fn eq(&self, other: &Entries) -> bool {
        self.as_slice() == other.as_slice()
    }
}

impl Eq for Entries {
    ghost laws = { Prim.search (comparing, rules) };
}

/// What an admitted call answers; which fields stand in which reply is said at each act.
#[derive(Debug, Drop, PartialEq, Eq)]
pub struct Fields {
    /// the client's number, of a connect
    pub client: Option<u64>,
    /// the key's id
    pub key: Option<u64>,
    /// the operation's number
    pub op: Option<u64>,
    /// what a token for this operation must name
    pub challenge: Option<u64>,
    /// the number by which a leave names its enter
    pub ticket: Option<u64>,
    /// the number of the operation that was pruned
    pub pruned: Option<u64>,
    /// the grant's number
    pub grant: Option<u64>,
    /// how many keys
    pub count: Option<u64>,
    /// how many uses are left
    pub uses: Option<u32>,
    /// the domain of the key's owner
    pub domain: Option<u32>,
    /// the uid or the namespace of the key's owner
    pub nspace: Option<u64>,
    pub alias: Option<Bytes>,
    /// the nonce that was drawn
    pub nonce: Option<Bytes>,
    /// the output of the cipher
    pub out: Option<Bytes>,
    /// the sealed key that the caller keeps
    pub blob: Option<Bytes>,
    /// the key's authorization list, encoded
    pub list: Option<Bytes>,
    pub entries: Option<Entries>,
}

/// No field.
pub const NO_FIELDS: Fields = Fields {
    client: None,
    key: None,
    op: None,
    challenge: None,
    ticket: None,
    pruned: None,
    grant: None,
    count: None,
    uses: None,
    domain: None,
    nspace: None,
    alias: None,
    nonce: None,
    out: None,
    blob: None,
    list: None,
    entries: None,
};

/// The answer to an event.
#[derive(Debug, Drop, PartialEq, Eq)]
pub enum Reply {
    /// Each rule holds.
    Done(Fields),
    /// The first rule of the call's table that does not hold.
    Broken { rule: Rule, code: Code },
    /// No rule is broken, and something else stopped the call.
    Stopped { code: Code },
}

impl Reply {
    /// Whether it admits its event.
    pub fn is_done(&self) -> bool
        ensures { result ≡ is_done self.now }
    {
        match self {
            Reply::Done(_) => true,
            _ => false,
        }
    }
}
