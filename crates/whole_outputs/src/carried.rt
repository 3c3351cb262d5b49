//! What is carried of an operation's texts from one call to the next.

use crate::joined::joined;
use crate::mode::Mode;
use std::alloc::Global;
use tags::{Bytes, Code, NoMemory, Plan};

/// What is carried of an operation's texts: what the bytes behind those that are done hang on, and the bytes that wait.
///
/// `Carries` says which texts. Where the key has a use limit the whole text waits for the finish; else at most a block
/// waits, or the bytes that may be a tag. What the bytes hang on lies apart, since it has three thousand bytes.
#[derive(Drop)]
pub struct Carried {
    limited: bool,
    mode: Box<Mode>,
    waiting: Vec<u8>,
}

impl Carried {
    ghost use Rattle.std.specs.Prelude.{◌≡◌, ℕ, Bool, List, [], ◌++◌, MatchResult, IfOk};
    ghost use Rattle.tags.specs.declared.plan.Plan.{Plan};
    ghost use Rattle.tags.specs.Plan.{Fits};
    ghost use Rattle.cipher_ops.specs.Output.{update_output, finish_output};
    ghost use Rattle.whole_outputs.specs.Carries.{Carries};

    /// Begins an operation. GCM has a nonce of 12 bytes and a tag of 12 to 16, CBC and CTR have a nonce of 16, ECB and
    /// HMAC look at none. AES has a key of 16, 24 or 32 bytes, HMAC one of any length, a digest of 3 to 6 and a mac of
    /// at most the digest's bytes. Where `limited` is set all output comes at the finish.
    pub fn begin(
        alloc: Global,
        plan: Plan,
        limited: bool,
        key: &[u8],
        nonce: &[u8],
    ) -> Result<Carried, NoMemory>
        requires { Fits plan key.now nonce.now }
        ensures { IfOk result (λ carried. Carries carried plan limited key.now nonce.now [] []) }
    {
        let mode = Box::new(alloc, Mode::new(plan, key, nonce))?;
        Ok(Carried {
            limited,
            mode,
            waiting: Vec::new(alloc),
        })
    }

    /// Takes the next bytes of the additional data, before any byte of text.
    pub fn aad(&mut self, input: &[u8])
        ensures { (plan : Plan) (limited : Bool) (key nonce aad : List ℕ) → Carries self.old plan limited key nonce aad [] →
            Carries self.new plan limited key nonce (aad ++ input.now) [] }
    {
        self.mode.aad(input);
    }

    /// Takes the next bytes of the text, and gives what is out for them. Where memory is wanting nothing is taken.
    pub fn update(&mut self, alloc: Global, input: &[u8]) -> Result<Bytes, NoMemory>
        ensures carries { (plan : Plan) (limited : Bool) (key nonce aad text : List ℕ) → Carries self.old plan limited key nonce aad text →
            MatchResult result (λ _. Carries self.new plan limited key nonce aad (text ++ input.now)) (λ _. Carries self.new plan limited key nonce aad text) }
        ensures output { (plan : Plan) (limited : Bool) (key nonce aad text : List ℕ) → Carries self.old plan limited key nonce aad text →
            IfOk result (λ out. out ≡ update_output plan limited key nonce text (text ++ input.now)) }
    {
        if self.limited {
            self.waiting.extend_from_slice(input)?;
            return Ok(Bytes::empty(alloc));
        }
        let piece = joined(alloc, &self.waiting, input)?;
        let (part, rest) = piece.split_at(self.mode.goes(piece.len()));
        let waiting = Vec::from_slice(alloc, rest)?;
        let out = self.mode.pass(alloc, part)?;
        self.waiting = waiting;
        Ok(Bytes::of(out))
    }

    /// Takes the last bytes of the text, and where a mac is verified its signature, and gives what was not given yet, or
    /// the code with which the output is refused.
    ///
    /// `InvalidInputLength` comes for a text of ECB or CBC whose length is not that of its blocks, `InvalidKeyArgument` for
    /// a padding that is none, and `VerificationFailed` for a tag or a mac that does not match.
    pub fn finish(
        self,
        alloc: Global,
        input: &[u8],
        signature: &Option<Bytes>,
    ) -> Result<Result<Bytes, Code>, NoMemory>
        ensures { (plan : Plan) (limited : Bool) (key nonce aad text : List ℕ) → Carries self plan limited key nonce aad text →
            IfOk result (λ output. output ≡ finish_output plan limited key nonce aad text (text ++ input.now) signature.now) }
    {
        let Carried {
            limited: _,
            mode,
            waiting,
        } = self;
        let rest = joined(alloc, &waiting, input)?;
        Box::into_inner(mode).end(alloc, &rest, signature)
    }
}
