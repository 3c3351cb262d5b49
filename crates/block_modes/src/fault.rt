//! Why a text has no output.

use std::fmt;

/// Why [`crate::Blocks::finish`] gives no bytes.
#[derive(Clone, Copy, Debug, PartialEq, Eq, Drop)]
pub enum ModeFault {
    /// The length of the whole text is no multiple of 16, or a padded text to be opened is empty
    Length,
    /// The last block has no right padding (RFC 5652 section 6.3)
    Padding,
}

impl fmt::Display for ModeFault {
    fn fmt<W: fmt::Write>(&self, f: &mut fmt::Formatter<W>) -> fmt::Result {
        match self {
            ModeFault::Length => f.write_str("the text has no length of whole blocks"),
            ModeFault::Padding => f.write_str("the last block has no right padding"),
        }
    }
}
