//! Why no key is made.

ghost use Rattle.std.specs.Prelude.{◌≡◌};
ghost use Rattle.key_rules.specs.declared.fault.NewFault.TheVariants.{Broken, Memory};

use std::fmt;
use tags::{Code, NoMemory, Rule};

/// Why no key is made.
#[derive(Clone, Copy, Debug, PartialEq, Eq)]
pub enum NewFault {
    /// The first rule of table K that is broken, and the code of its first part that is.
    Broken(Rule, Code),
    /// Want of memory.
    Memory,
}

impl From<NoMemory> for NewFault {
    ghost from_gives = { λ _ e. e ≡ Memory };

    fn from(_fault: NoMemory) -> NewFault {
        NewFault::Memory
    }
}

impl From<(Rule, Code)> for NewFault {
    ghost from_gives = { λ broken e. e ≡ Broken broken.0 broken.1 };

    fn from(broken: (Rule, Code)) -> NewFault {
        NewFault::Broken(broken.0, broken.1)
    }
}

impl fmt::Display for NewFault {
    fn fmt<W: fmt::Write>(&self, f: &mut fmt::Formatter<W>) -> fmt::Result {
        match self {
            NewFault::Broken(rule, _) => write!(f, "rule {rule} is broken"),
            NewFault::Memory => f.write_str("memory was wanting"),
        }
    }
}
