//! Text into a sink.

ghost use Rattle.std.specs.Prelude.{◌≡◌, ℕ, true, false, List, ◌++◌, OnOk, OnErr};
ghost use Rattle.ks_outside.specs.Shown.{Put};

use ks_outside::{Failed, Sink};

/// Writes all of a text. After a failure a front of it is written, and no write is made after the one that failed.
pub fn write_all<K: Sink>(sink: &mut K, text: &[u8]) -> Result<(), Failed>
    ensures ok { OnOk result (Put K.Sink sink.old sink.new text.now false) }
    ensures err { OnErr result ((part : List ℕ) × (missing : List ℕ) × Put K.Sink sink.old sink.new part true × (text.now ≡ part ++ missing)) }
{
    let mut rest = text;
    'pieces: while !rest.is_empty() {
        let count = sink.write(rest)?;
        rest = &rest[count..];
    }
    Ok(())
}
