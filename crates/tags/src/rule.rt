//! The rules by table and number.

ghost use Rattle.std.specs.Prelude.{◌≡◌, Some};

use std::fmt;

/// A table of rules.
#[derive(Clone, Copy, Debug, PartialEq, Eq)]
pub enum RuleTable {
    /// a new key
    K,
    /// the beginning of an operation
    B,
    /// a step of an operation
    S,
    /// the other calls
    A,
    /// the lines of a script
    L,
}

impl RuleTable {
    ghost use Rattle.tags.specs.Rule.{letter_of};
    ghost use Rattle.tags.specs.Table.{rule_of};

    /// The table's rule of a number.
    pub fn rule(self, number: u8) -> Rule
        ensures { result ≡ rule_of self number }
    {
        Rule {
            table: self,
            number,
        }
    }

    /// The table's letter.
    pub fn letter(self) -> &'static str
        ensures { result.now ≡ letter_of self }
    {
        match self {
            RuleTable::K => "K",
            RuleTable::B => "B",
            RuleTable::S => "S",
            RuleTable::A => "A",
            RuleTable::L => "L",
        }
    }
}

/// A rule of a table. It prints as the letter and the number, as `B11`.
#[derive(Clone, Copy, Debug, PartialEq, Eq)]
pub struct Rule {
    pub table: RuleTable,
    pub number: u8,
}

impl fmt::Display for Rule {
    ghost use Rattle.tags.specs.Rule.{rule_text};

    ghost output = { λ rule. Some (rule_text rule) };

    fn fmt<W: fmt::Write>(&self, f: &mut fmt::Formatter<W>) -> fmt::Result {
        write!(f, "{}{}", self.table.letter(), self.number)
    }
}
