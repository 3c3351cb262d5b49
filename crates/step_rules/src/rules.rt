//! The rules of a step.

ghost use Rattle.std.specs.Prelude.{◌≡◌};
ghost use Rattle.step_rules.specs.Rules as spec;

use crate::{StepFacts, StepKind};
use tags::{OPERATION_BYTES, PIECE_BYTES};

/// Whether the step enters an operation; an abort does not.
pub fn is_enter(kind: StepKind) -> bool
    ensures { result ≡ spec.is_enter kind }
{
    match kind {
        StepKind::Aad | StepKind::Text | StepKind::Last => true,
        StepKind::Abort => false,
    }
}

/// Whether input and signature are not too long.
pub fn are_pieces_short(facts: &StepFacts) -> bool
    ensures { result ≡ spec.are_pieces_short facts.now }
{
    facts.input <= PIECE_BYTES && facts.signature <= PIECE_BYTES
}

fn is_aad(kind: StepKind) -> bool
    ensures { result ≡ spec.is_aad kind }
{
    matches!(kind, StepKind::Aad)
}

fn is_last(kind: StepKind) -> bool
    ensures { result ≡ spec.is_last kind }
{
    matches!(kind, StepKind::Last)
}

/// Whether additional data may come: the plan takes it, and no text came.
pub fn may_take_aad(facts: &StepFacts) -> bool
    ensures { result ≡ spec.may_take_aad facts.now }
{
    !is_aad(facts.kind) || facts.plan.takes_aad() && facts.text == 0
}

/// Whether the operation has room for the input.
pub fn is_total_within(facts: &StepFacts) -> bool
    ensures { result ≡ spec.is_total_within facts.now }
{
    facts.aad as u128 + facts.text as u128 + facts.input as u128 <= OPERATION_BYTES as u128
}

/// Whether a text that ends here has a length that the plan takes.
pub fn has_whole_text(facts: &StepFacts) -> bool
    ensures { result ≡ spec.has_whole_text facts.now }
{
    !is_last(facts.kind) || facts.plan.may_end(facts.text as u128 + facts.input as u128)
}
