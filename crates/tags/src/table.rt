//! How a rule table is walked: rule by rule, until the first that does not hold.

ghost use Rattle.std.specs.Prelude.{◌≡◌, ◌∷◌, [], OnOk, true};
ghost use Rattle.tags.specs.Table as spec;

use crate::{Code, Rule};

/// What a table answers: nothing where all its rules hold, and otherwise the first rule that does not, with the code of its
/// first part that does not.
pub type Ruling = Result<(), (Rule, Code)>;

/// One row of a table: the rule with its code where this part of it does not hold. A walk is one call a row, in the table's
/// order, each with a `?`. It takes no memory.
pub fn check(rule: Rule, code: Code, holds: bool) -> Ruling
    ensures first { result ≡ spec.first_broken rule.table (spec.check rule.number code holds ∷ []) }
    ensures holds { OnOk result (holds ≡ true) }
{
    if holds { Ok(()) } else { Err((rule, code)) }
}
