//! The plan of beginning an operation, and its start.

ghost use Rattle.std.specs.Prelude.{◌≡◌, ℕ, ◌≤◌, List, length, IfOk, true};
ghost use Rattle.std.specs.Option.{option_copied};
ghost use Rattle.tags.specs.Plan.{Fits};
ghost use Rattle.tag_lists.specs.Lookups.{IsKey};
ghost use Rattle.use_rules.specs.Table.{key_of};
ghost use Rattle.keymint_ops.specs.declared.begin.BeginFault.TheVariants.{Memory};
ghost use Rattle.keymint_ops.specs.Begin as spec;

use cipher_ops::CipherState;
use std::alloc::Global;
use std::fmt;
use tags::{Bytes, Code, NoMemory, Plan, Rule};
use use_rules::{BeginFacts, check_begin, nonce_given, nonce_wanted};

/// An operation that may begin.
#[derive(Debug, Drop)]
pub struct Begin {
    /// what its work is
    pub plan: Plan,
    /// the nonce that the caller gave
    pub nonce: Option<Bytes>,
    /// how many bytes of nonce are drawn
    pub wanted: usize,
}

/// Why no operation begins.
#[derive(Clone, Copy, Debug, PartialEq, Eq)]
pub enum BeginFault {
    /// The first rule of table B that is broken, and the code of its first part that is.
    Broken(Rule, Code),
    /// Want of memory.
    Memory,
}

impl From<NoMemory> for BeginFault {
    ghost from_gives = { λ _ e. e ≡ Memory };

    fn from(_fault: NoMemory) -> BeginFault {
        BeginFault::Memory
    }
}

impl fmt::Display for BeginFault {
    fn fmt<W: fmt::Write>(&self, f: &mut fmt::Formatter<W>) -> fmt::Result {
        match self {
            BeginFault::Broken(rule, _) => write!(f, "rule {rule} is broken"),
            BeginFault::Memory => f.write_str("memory was wanting"),
        }
    }
}

/// The nonce that is used: the caller's, or else the one that is drawn.
fn nonce_used<'a>(nonce: &'a Option<Bytes>, drawn: &'a [u8]) -> &'a [u8]
    ensures { result.now ≡ spec.nonce_used nonce.now drawn.now }
{
    match nonce {
        Some(nonce) => nonce.as_slice(),
        None => drawn,
    }
}

impl Begin {
    ghost use Rattle.std.specs.Prelude.{[]};
    ghost use Rattle.cipher_ops.specs.Standing.{StandsFor};

    /// The state of the operation under the key's material, with the caller's nonce or else the one that is drawn. Where
    /// `limited` is set all output comes at the finish.
    pub fn start(
        &self,
        alloc: Global,
        limited: bool,
        material: &[u8],
        drawn: &[u8],
    ) -> Result<CipherState, NoMemory>
        requires { Fits self.now.plan material.now (spec.nonce_used self.now.nonce drawn.now) }
        ensures { IfOk result (λ state. StandsFor state self.now.plan limited material.now (spec.nonce_used self.now.nonce drawn.now) [] []) }
    {
        let nonce = nonce_used(&self.nonce, drawn);
        CipherState::begin(alloc, self.plan, limited, material, nonce)
    }
}

/// The nonce that the caller gives, in memory of its own.
fn copy_of(alloc: Global, nonce: Option<&[u8]>) -> Result<Option<Bytes>, NoMemory>
    ensures { IfOk result (λ copy. copy ≡ option_copied nonce.entry) }
{
    match nonce {
        Some(nonce) => Ok(Some(Bytes::copy_of(alloc, nonce)?)),
        None => Ok(None),
    }
}

/// What begins by these facts on a key of this material: the plan, the nonce that the caller gave, and how many bytes of
/// nonce are drawn, 0, 12 or 16; or else the first broken rule of table B and its code. The facts say that the key fits only
/// where its list and material are a key of its cipher, which `key_rules::usable` tells. Then a key was found, the plan is that
/// of the two lists, and it fits the material and the nonce, so that `Begin::start` may be called with any `wanted` bytes
/// that are drawn. `Memory` comes where memory is wanted.
pub fn plan_begin(alloc: Global, facts: &BeginFacts, material: &[u8]) -> Result<Begin, BeginFault>
    requires { facts.now.fits ≡ true → IsKey (key_of facts.now) (length material.now) }
    ensures gives { spec.GivesBegin result facts.now }
    ensures fits { IfOk result (λ begin. (drawn : List ℕ) → length drawn ≡ begin.wanted → Fits begin.plan material.now (spec.nonce_used begin.nonce drawn)) }
    ensures most { IfOk result (λ begin. begin.wanted ≤ 16) }
{
    let plan = match check_begin(facts) {
        Ok(plan) => plan,
        Err((rule, code)) => return Err(BeginFault::Broken(rule, code)),
    };
    let nonce = copy_of(alloc, nonce_given(facts))?;
    let wanted = nonce_wanted(facts);
    Ok(Begin {
        plan,
        nonce,
        wanted,
    })
}
