//! The mode of an operation, or its mac, of whose text some bytes are done.

ghost use Rattle.std.specs.Prelude.{◌≡◌, true, length};
ghost use Rattle.aes_core.specs.Cipher.{is_key_size};
ghost use Rattle.aes_wide.specs.WideKey.{wide_key_of};

use crate::chained::{Chained, Links};
use crate::gcm::GcmText;
use crate::key_stream::{Counting, KeyStream};
use crate::mac::{signed, verified};
use aes_wide::WideAes;
use hmac_core::Hmac;
use std::alloc::Global;
use tags::{Bytes, Code, NoMemory, Plan};

/// What the next bytes of a text hang on, by the operation's plan.
#[derive(Drop)]
pub(crate) enum Mode {
    /// ECB and CBC
    Blocks(Chained),
    /// CTR
    Counter(KeyStream),
    /// GCM, sealing
    Seal(GcmText),
    /// GCM, opening
    Open(GcmText),
    /// HMAC, of which so many bytes are given
    Sign { mac: Hmac, size: usize },
    /// HMAC, against a signature of at least so many bytes
    Verify { mac: Hmac, least: usize },
}

/// The cipher of a key of 16, 24 or 32 bytes.
fn aes_of(key: &[u8]) -> WideAes
    requires { is_key_size (length key.now) ≡ true }
    ensures { wide_key_of result ≡ key.now }
{
    match WideAes::new(key) {
        Some(aes) => aes,
        None => unreachable!(),
    }
}

/// A nonce of 16 bytes as a block.
fn block_of(nonce: &[u8]) -> [u8; 16]
    requires { length nonce.now ≡ 16 }
    ensures { result ≡ nonce.now }
{
    let mut block = [0; 16];
    block.copy_from_slice(nonce);
    block
}

impl Mode {
    ghost use Rattle.std.specs.Prelude.{◌≡◌, ℕ, ◌≤◌, List, [], ◌++◌, length, MatchResult, IfOk};
    ghost use Rattle.tags.specs.declared.plan.Plan.{Plan};
    ghost use Rattle.tags.specs.Plan.{Fits};
    ghost use Rattle.cipher_ops.specs.Output.{raw, whole, behind};
    ghost use Rattle.whole_outputs.specs.Sizes.{done_size, out_size};
    ghost use Rattle.whole_outputs.specs.Modes.{ModeIs, MayPass, MayEnd};

    /// The mode of a plan, before any additional data and any text.
    pub(crate) fn new(plan: Plan, key: &[u8], nonce: &[u8]) -> Mode
        requires { Fits plan key.now nonce.now }
        ensures { ModeIs result plan key.now nonce.now [] [] }
    {
        match plan {
            Plan::Ecb { seal, padded } => Mode::Blocks(Chained::new(
                aes_of(key),
                Links::Apart,
                seal,
                padded,
                [0; 16],
            )),
            Plan::Cbc { seal, padded } => Mode::Blocks(Chained::new(
                aes_of(key),
                Links::Linked,
                seal,
                padded,
                block_of(nonce),
            )),
            Plan::Ctr => Mode::Counter(KeyStream::new(
                aes_of(key),
                Counting::Whole,
                block_of(nonce),
            )),
            Plan::Gcm { seal, tag } => {
                let gcm = GcmText::new(aes_of(key), nonce, tag as usize);
                if seal {
                    Mode::Seal(gcm)
                } else {
                    Mode::Open(gcm)
                }
            }
            Plan::HmacSign { digest, size } => Mode::Sign {
                mac: Hmac::new(digest, key),
                size: size as usize,
            },
            Plan::HmacVerify { digest, least } => Mode::Verify {
                mac: Hmac::new(digest, key),
                least: least as usize,
            },
        }
    }

    /// Takes the next bytes of the additional data, before any byte of text. GCM alone has it.
    pub(crate) fn aad(&mut self, input: &[u8])
        ensures { (plan : Plan) (key nonce aad : List ℕ) → ModeIs self.old plan key nonce aad [] → ModeIs self.new plan key nonce (aad ++ input.now) [] }
    {
        match self {
            Mode::Seal(gcm) => gcm.aad(input),
            Mode::Open(gcm) => gcm.aad(input),
            _ => {}
        }
    }

    /// How many of so many bytes go through the mode before more of the text comes.
    pub(crate) fn goes(&self, size: usize) -> usize
        ensures size { (plan : Plan) (key nonce aad done : List ℕ) → ModeIs self.now plan key nonce aad done → result ≡ done_size plan size }
        ensures within { result ≤ size }
        ensures whole { MayPass self.now result }
    {
        match self {
            Mode::Blocks(chained) => chained.goes(size),
            Mode::Open(gcm) => gcm.before_tag(size),
            _ => size,
        }
    }

    /// What the mode puts out for the next bytes, a mac nothing.
    pub(crate) fn pass(&mut self, alloc: Global, part: &[u8]) -> Result<Vec<u8>, NoMemory>
        requires { MayPass self.old (length part.now) }
        ensures made { (plan : Plan) (key nonce aad done : List ℕ) → ModeIs self.old plan key nonce aad done →
            IfOk result (λ out. raw plan key nonce done ++ out.items ≡ raw plan key nonce (done ++ part.now)) }
        ensures mode { (plan : Plan) (key nonce aad done : List ℕ) → ModeIs self.old plan key nonce aad done →
            MatchResult result (λ _. ModeIs self.new plan key nonce aad (done ++ part.now)) (λ _. ModeIs self.new plan key nonce aad done) }
    {
        match self {
            Mode::Blocks(chained) => chained.pass(alloc, part),
            Mode::Counter(stream) => stream.pass(alloc, part),
            Mode::Seal(gcm) => gcm.seal(alloc, part),
            Mode::Open(gcm) => gcm.open(alloc, part),
            Mode::Sign { mac, .. } => {
                mac.update(part);
                Ok(Vec::new(alloc))
            }
            Mode::Verify { mac, .. } => {
                mac.update(part);
                Ok(Vec::new(alloc))
            }
        }
    }

    /// What is put out for the rest of the text and at its end, or the code of a text that has no output.
    pub(crate) fn end(
        self,
        alloc: Global,
        rest: &[u8],
        signature: &Option<Bytes>,
    ) -> Result<Result<Bytes, Code>, NoMemory>
        ensures { (plan : Plan) (key nonce aad done : List ℕ) → ModeIs self plan key nonce aad done → MayEnd plan (length done) (length rest.now) →
            IfOk result (λ output. output ≡ behind (out_size plan (length done)) (whole plan key nonce aad (done ++ rest.now) signature.now)) }
    {
        match self {
            Mode::Blocks(chained) => chained.end(alloc, rest),
            Mode::Counter(mut stream) => Ok(Ok(Bytes::of(stream.pass(alloc, rest)?))),
            Mode::Seal(gcm) => Ok(Ok(gcm.end_sealed(alloc, rest)?)),
            Mode::Open(gcm) => gcm.end_opened(alloc, rest),
            Mode::Sign { mut mac, size } => {
                mac.update(rest);
                Ok(Ok(signed(alloc, mac, size)?))
            }
            Mode::Verify { mut mac, least } => {
                mac.update(rest);
                Ok(verified(alloc, mac, least, signature))
            }
        }
    }
}
