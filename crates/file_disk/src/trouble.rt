//! Why a call of a store's file failed, in words.

use std::fmt;
use std::fmt::{Display, Formatter};
use std::io::Error;

/// Why a call of a store's file failed.
#[derive(Debug, Drop)]
pub enum Trouble {
    /// another process holds its lock
    InUse,
    /// its path leads to nothing, or to another file, since it was opened
    Moved,
    /// what stands at its path is no regular file
    NoFile,
    /// it was opened in place of a standard stream, which was closed
    Stream,
    /// a file has no such place
    TooFar,
    /// the system says so
    System(Error),
}

impl From<Error> for Trouble {
    fn from(error: Error) -> Trouble {
        Trouble::System(error)
    }
}

impl Display for Trouble {
    fn fmt<W: fmt::Write>(&self, f: &mut Formatter<W>) -> fmt::Result {
        match self {
            Trouble::InUse => f.write_str("it is in use by another process"),
            Trouble::Moved => f.write_str("it was moved, removed or replaced meanwhile"),
            Trouble::NoFile => f.write_str("it is no regular file"),
            Trouble::Stream => f.write_str("it would stand in place of a closed standard stream"),
            Trouble::TooFar => f.write_str("no file is so long"),
            Trouble::System(error) => Display::fmt(error, f),
        }
    }
}
