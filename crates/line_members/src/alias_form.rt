//! How a line writes an alias.

/// How a line writes an alias, and the alias behind which a listing goes on.
#[derive(Clone, Copy, Debug, PartialEq, Eq)]
pub enum AliasForm {
    /// a text, as in a script
    Text,
    /// a text, or an object with the hex of bytes that are no UTF-8, as in a trace
    TextOrHex,
}
