//! Table S, walked in its order.

ghost use Rattle.std.specs.Prelude.{◌≡◌, false, true, IfErr, OnOk};
ghost use Rattle.tags.specs.declared.rule.RuleTable.TheVariants.{S};
ghost use Rattle.tags.specs.Table.{first_broken, rule_of};
ghost use Rattle.step_rules.specs.Rules.{is_enter as is_enter_kind, Enters};
ghost use Rattle.step_rules.specs.Table as spec;

use crate::StepFacts;
use crate::rules::{are_pieces_short, has_whole_text, is_enter, is_total_within, may_take_aad};
use tags::{Code, Rule, RuleTable, Ruling, check};

/// A rule of the table by its number.
fn rule(number: u8) -> Rule
    ensures { result ≡ rule_of S number }
{
    RuleTable::S.rule(number)
}

/// The rules of every step.
fn check_call(facts: &StepFacts) -> Ruling
    ensures first { result ≡ first_broken S (spec.call_rules facts.now) }
    ensures own { OnOk result (facts.now.own ≡ true) }
    ensures idle { OnOk result (facts.now.busy ≡ false) }
{
    check(rule(1), Code::InvalidOperationHandle, facts.own)?;
    check(rule(2), Code::OperationBusy, !facts.busy)?;
    Ok(())
}

/// The rules of a step that enters the operation.
#[tactic(auto, using(crate::proofs::Entering::enters))]
fn check_enter(facts: &StepFacts) -> Ruling
    ensures first { result ≡ first_broken S (spec.enter_rules facts.now) }
    ensures enters { OnOk result (Enters facts.now) }
{
    check(rule(3), Code::TooMuchData, are_pieces_short(facts))?;
    check(rule(4), Code::InvalidKeyBlob, !facts.ended)?;
    check(rule(5), Code::KeyUserNotAuthenticated, !facts.waiting)?;
    check(rule(6), Code::InvalidTag, may_take_aad(facts))?;
    check(rule(7), Code::InvalidInputLength, is_total_within(facts))?;
    check(rule(8), Code::InvalidInputLength, has_whole_text(facts))?;
    Ok(())
}

/// The first rule of the table that the step breaks, with its code: updateAad, update and finish walk all rules, and
/// abort the first two alone. A step that breaks none is the client's own, of an idle operation, and keeps to the lengths,
/// the key and the plan. A rule whose denial ends the operation breaks on the client's own idle operation alone. It takes no
/// memory.
#[tactic(auto, unfolding(crate::specs::Table::answer))]
pub fn check_step(facts: &StepFacts) -> Ruling
    ensures first { result ≡ spec.answer facts.now }
    ensures own { OnOk result (facts.now.own ≡ true) }
    ensures idle { OnOk result (facts.now.busy ≡ false) }
    ensures ends { IfErr result (λ broken. spec.ends_operation broken.0 ≡ true → spec.IsOwnAndIdle facts.now) }
    ensures enters { OnOk result (is_enter_kind facts.now.kind ≡ true → Enters facts.now) }
{
    check_call(facts)?;
    if is_enter(facts.kind) {
        check_enter(facts)?;
    }
    Ok(())
}

/// Whether the denial by a rule ends the operation: by S4, S6, S7 and S8.
pub fn ends_operation(rule: Rule) -> bool
    ensures { result ≡ spec.ends_operation rule }
{
    matches!(rule.table, RuleTable::S) && matches!(rule.number, 4 | 6 | 7 | 8)
}
