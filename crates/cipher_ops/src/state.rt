//! The state of an operation between its calls.

ghost use Rattle.std.specs.Prelude.{◌≡◌, ℕ, ◌+◌, ◌-◌, ◌≤◌, Bool, List, [], ◌++◌, length, take, IfOk, Option};
ghost use Rattle.tags.specs.declared.plan.Plan.{Plan};

use crate::transform::Transform;
use std::alloc::Global;
use tags::{Bytes, Code, NoMemory, Plan};

/// An operation under way: a plan under a key and a nonce, with the additional data and the text that it has taken.
///
/// `StandsFor` says which. Where the key has a use limit it keeps its output until the end, else at most a block and
/// the bytes that may be its tag. The transform lies apart: it has three thousand bytes, and a state goes by value from
/// slot to job and back.
#[derive(Drop)]
pub struct CipherState {
    pub(crate) limited: bool,
    pub(crate) transform: Box<Transform>,
    pub(crate) held: Bytes,
}

impl CipherState {
    ghost use Rattle.tags.specs.Plan.{Fits};
    ghost use Rattle.cipher_ops.specs.Output.{update_output, finish_output};
    ghost use Rattle.cipher_ops.specs.Standing.{StandsFor, TakesAad, CanTake, CanComplete};

    /// Begins an operation. GCM has a nonce of 12 bytes and a tag of 12 to 16, CBC and CTR have a nonce of 16, ECB and
    /// HMAC look at none. AES has a key of 16, 24 or 32 bytes, HMAC one of any length, a digest of 3 to 6 and a mac of
    /// at most the digest's bytes. Where `limited` is set all output comes at the finish.
    pub fn begin(
        alloc: Global,
        plan: Plan,
        limited: bool,
        key: &[u8],
        nonce: &[u8],
    ) -> Result<CipherState, NoMemory>
        requires { Fits plan key.now nonce.now }
        ensures { IfOk result (λ state. StandsFor state plan limited key.now nonce.now [] []) }
    {
        let transform = Box::new(alloc, Transform::new(plan, key, nonce))?;
        Ok(CipherState {
            limited,
            transform,
            held: Bytes::empty(alloc),
        })
    }

    /// Takes the next bytes of the additional data.
    pub(crate) fn aad(&mut self, input: &[u8])
        requires { TakesAad self.old.transform.value }
        ensures { (plan : Plan) (limited : Bool) (key nonce aad : List ℕ) → StandsFor self.old plan limited key nonce aad [] →
            StandsFor self.new plan limited key nonce (aad ++ input.now) [] }
    {
        self.transform.aad(input);
    }

    /// Takes the next bytes of the text, and gives what is out for them.
    pub(crate) fn text(&mut self, input: &[u8], out: Vec<u8>, nothing: Bytes) -> Bytes
        requires room { CanTake self.old (length input.now) (length out.items) }
        requires nothing { nothing ≡ [] }
        ensures stands { (plan : Plan) (limited : Bool) (key nonce aad text : List ℕ) → StandsFor self.old plan limited key nonce aad text →
            StandsFor self.new plan limited key nonce aad (text ++ input.now) }
        ensures output { (plan : Plan) (limited : Bool) (key nonce aad text : List ℕ) → StandsFor self.old plan limited key nonce aad text →
            result ≡ update_output plan limited key nonce text (text ++ input.now) }
    {
        let mut out = out;
        let end = self
            .transform
            .advance(self.held.as_slice(), input, &mut out);
        out.truncate(end);
        let bytes = Bytes::of(out);
        if self.limited {
            self.held = bytes;
            nothing
        } else {
            bytes
        }
    }

    /// Takes the last bytes of the text, and gives what was not given yet.
    pub(crate) fn last(
        self,
        input: &[u8],
        signature: Option<Bytes>,
        out: Vec<u8>,
    ) -> Result<Bytes, Code>
        requires room { CanTake self (length input.now) (length out.items) }
        requires end { ∥ CanComplete self.transform.value input.now (length self.held) (length out.items) ∥₁ }
        ensures { (plan : Plan) (limited : Bool) (key nonce aad text : List ℕ) → StandsFor self plan limited key nonce aad text →
            result ≡ finish_output plan limited key nonce aad text (text ++ input.now) signature }
    {
        let CipherState {
            limited: _,
            transform,
            held,
        } = self;
        let mut out = out;
        match Box::into_inner(transform).complete(held.as_slice(), input, signature, &mut out) {
            Ok(size) => {
                out.truncate(size);
                Ok(Bytes::of(out))
            }
            Err(code) => Err(code),
        }
    }
}
