//! The summary of what a load was answered.

ghost use Rattle.std.specs.Prelude.{◌≡◌, ℤ, ℕ, ◌++◌, ◌+◌, ◌<◌, ◌≤◌, ◌^◌, [], ◌∷◌, List, flat_map, IfOk, OnOk, string_bytes};
ghost use Rattle.soak_lines.specs.Summary.{count_in, row_text, summary_of};

use sha2::{Digest, Sha256};
use std::alloc::{AllocError, Global};
use std::collections::BTreeMap;

/// How often each code came, and the digest of all the text.
#[derive(Drop)]
pub struct Summary {
    counts: BTreeMap<i32, u64>,
    digest: Sha256,
    lines: u64,
    ghost within: { (code : ℤ) → count_in counts.entries code ≤ lines },
}

/// A line for each code, ascending.
fn rows_text(alloc: Global, mut counts: BTreeMap<i32, u64>) -> Result<String, AllocError>
    ensures { IfOk result (λ out. string_bytes out ≡ flat_map row_text counts.entries) }
{
    let mut out = String::new(alloc);
    'rows: while let Some((code, count)) = counts.pop_first() {
        let row = format!(in alloc; "code {code} count {count}\n")?;
        out.push_str(&row)?;
    }
    Ok(out)
}

impl Summary {
    ghost use Rattle.soak_lines.specs.Summing.{HasSummed, lines_in};

    /// That of no line.
    pub fn new(alloc: Global) -> Summary
        ensures summed { HasSummed [] [] result }
        ensures lines { lines_in result ≡ 0 }
    {
        Summary {
            counts: BTreeMap::new(alloc),
            digest: Sha256::new(),
            lines: 0,
        }
    }

    /// Takes a reply line, with its LF, and the code in it. After want of memory the summary is not gone on with.
    pub fn add(&mut self, code: i32, line: &[u8]) -> Result<(), AllocError>
        requires few { lines_in self.old < 2 ^ 63 }
        ensures summed { OnOk result ((replied : List ℤ) (text : List ℕ) → HasSummed replied text self.old → HasSummed (code ∷ replied) (text ++ line.now) self.new) }
        ensures lines { OnOk result (lines_in self.new ≡ lines_in self.old + 1) }
    {
        let count = match self.counts.get(&code) {
            Some(count) => *count,
            None => 0,
        };
        self.counts.insert(code, count + 1)?;
        self.lines += 1;
        self.digest.update(line);
        Ok(())
    }

    /// Its text: a line for each code that came, ascending, and then the digest.
    pub fn text(self, alloc: Global) -> Result<String, AllocError>
        ensures { IfOk result (λ out. (replied : List ℤ) (text : List ℕ) → HasSummed replied text self → string_bytes out ≡ summary_of replied text) }
    {
        let Summary { counts, digest, .. } = self;
        let mut out = rows_text(alloc, counts)?;
        let digest = hex::encode(alloc, digest.finalize())?;
        let last = format!(in alloc; "sha256 {digest}\n")?;
        out.push_str(&last)?;
        Ok(out)
    }
}
