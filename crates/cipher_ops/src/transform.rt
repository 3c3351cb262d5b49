//! The cipher or mac of an operation, whichever its plan asks for.

ghost use Rattle.std.specs.Prelude.{◌≡◌, ℕ, ◌+◌, ◌-◌, ◌≤◌, Bool, true, List, [], ◌++◌, length, take, MatchResult, IfOk, Option};
ghost use Rattle.tags.specs.declared.plan.Plan.{Plan};
ghost use Rattle.aes_core.specs.Cipher.{is_key_size};
ghost use Rattle.aes_wide.specs.WideKey.{wide_key_of};
ghost use Rattle.cipher_ops.specs.Output.{mode_code};

use crate::mac::{put_mac, verify};
use aes_wide::WideAes;
use block_modes::{Blocks, ModeFault};
use gcm_mode::{GcmOpen, GcmSeal, TagWrong};
use hmac_core::Hmac;
use tags::{Bytes, Code, Plan};

/// A text under way in its mode, or under its mac.
#[derive(Drop)]
pub(crate) enum Transform {
    /// ECB, CBC or CTR
    Modes(Blocks<WideAes>),
    /// GCM, sealing
    Seal(GcmSeal<WideAes>),
    /// GCM, opening
    Open(GcmOpen<WideAes>),
    /// HMAC, of which so many bytes are given
    Sign { mac: Hmac, size: usize },
    /// HMAC, against a signature of at least so many bytes
    Verify { mac: Hmac, least: usize },
}

/// The cipher of a key of 16, 24 or 32 bytes.
fn aes_of(key: &[u8]) -> WideAes
    requires { is_key_size (length key.now) ≡ true }
    ensures { wide_key_of result ≡ key.now }
{
    match WideAes::new(key) {
        Some(aes) => aes,
        None => unreachable!(),
    }
}

/// The bytes as an array of their length.
fn array_of<const N: usize>(bytes: &[u8]) -> [u8; N]
    requires { length bytes.now ≡ N }
    ensures { result ≡ bytes.now }
{
    let mut array = [0; N];
    array.copy_from_slice(bytes);
    array
}

/// The code of a text that has no output in its mode.
fn code_of(fault: ModeFault) -> Code
    ensures { result ≡ mode_code fault }
{
    match fault {
        ModeFault::Padding => Code::InvalidKeyArgument,
        ModeFault::Length => Code::InvalidInputLength,
    }
}

impl Transform {
    ghost use Rattle.tags.specs.Plan.{Fits};
    ghost use Rattle.cipher_ops.specs.Output.{whole};
    ghost use Rattle.cipher_ops.specs.Sizes.{piece_room};
    ghost use Rattle.cipher_ops.specs.Standing.{Holds, given, TakesAad, HasRoom, MayEnd, CanComplete, Ends};

    /// The transform of a plan, with no additional data and no text.
    pub(crate) fn new(plan: Plan, key: &[u8], nonce: &[u8]) -> Transform
        requires { Fits plan key.now nonce.now }
        ensures { Holds result plan key.now nonce.now [] [] }
    {
        match plan {
            Plan::Ecb { .. } => Transform::Modes(Blocks::new(aes_of(key), plan, [0; 16])),
            Plan::Cbc { .. } => Transform::Modes(Blocks::new(aes_of(key), plan, array_of(nonce))),
            Plan::Ctr => Transform::Modes(Blocks::new(aes_of(key), plan, array_of(nonce))),
            Plan::Gcm { seal, tag } => {
                if seal {
                    Transform::Seal(GcmSeal::new(aes_of(key), array_of(nonce), tag as usize))
                } else {
                    Transform::Open(GcmOpen::new(aes_of(key), array_of(nonce), tag as usize))
                }
            }
            Plan::HmacSign { digest, size } => Transform::Sign {
                mac: Hmac::new(digest, key),
                size: size as usize,
            },
            Plan::HmacVerify { digest, least } => Transform::Verify {
                mac: Hmac::new(digest, key),
                least: least as usize,
            },
        }
    }

    /// Takes the next bytes of the additional data.
    pub(crate) fn aad(&mut self, input: &[u8])
        requires { TakesAad self.old }
        ensures { (plan : Plan) (key nonce aad : List ℕ) → Holds self.old plan key nonce aad [] → Holds self.new plan key nonce (aad ++ input.now) [] }
    {
        match self {
            Transform::Seal(seal) => seal.aad(input),
            Transform::Open(open) => open.aad(input),
            _ => {}
        }
    }

    /// Takes the next bytes of the text, and puts what the mode gives for them at the front of `out`.
    pub(crate) fn update(&mut self, input: &[u8], out: &mut [u8]) -> usize
        requires { HasRoom self.old (length input.now) (length out.old) }
        ensures holds { (plan : Plan) (key nonce aad text : List ℕ) → Holds self.old plan key nonce aad text → Holds self.new plan key nonce aad (text ++ input.now) }
        ensures joined { (plan : Plan) (key nonce aad text : List ℕ) → Holds self.old plan key nonce aad text →
            given plan key nonce text ++ take result out.new ≡ given plan key nonce (text ++ input.now) }
        ensures room { (plan : Plan) (key nonce aad text : List ℕ) → Holds self.old plan key nonce aad text → result ≤ piece_room plan (length input.now) }
        ensures within { result ≤ length out.new }
    {
        match self {
            Transform::Modes(blocks) => blocks.update(input, out),
            Transform::Seal(seal) => seal.update(input, out),
            Transform::Open(open) => open.update(input, out),
            Transform::Sign { mac, .. } => {
                mac.update(input);
                0
            }
            Transform::Verify { mac, .. } => {
                mac.update(input);
                0
            }
        }
    }

    /// Ends the text, and puts the bytes that were not given yet at the front of `out`.
    pub(crate) fn finish(self, signature: Option<Bytes>, out: &mut [u8]) -> Result<usize, Code>
        requires { MayEnd self (length out.old) }
        ensures ends { (plan : Plan) (key nonce aad text : List ℕ) → Holds self plan key nonce aad text →
            Ends (whole plan key nonce aad text signature) (given plan key nonce text) result out.new }
        ensures within { IfOk result (λ n. n ≤ length out.new) }
    {
        match self {
            Transform::Modes(blocks) => match blocks.finish(out) {
                Ok(size) => Ok(size),
                Err(fault) => Err(code_of(fault)),
            },
            Transform::Seal(seal) => Ok(seal.finish(out)),
            Transform::Open(open) => match open.finish(out) {
                Ok(_) => Ok(0),
                Err(TagWrong) => Err(Code::VerificationFailed),
            },
            Transform::Sign { mac, size } => Ok(put_mac(mac, size, out)),
            Transform::Verify { mac, least } => match verify(mac, least, signature) {
                Ok(()) => Ok(0),
                Err(code) => Err(code),
            },
        }
    }

    /// Puts the bytes that are held, and behind them what the mode gives for the next bytes of the text.
    pub(crate) fn advance(&mut self, held: &[u8], input: &[u8], out: &mut [u8]) -> usize
        requires fits { length held.now ≤ length out.old }
        requires room { HasRoom self.old (length input.now) (length out.old - length held.now) }
        ensures holds { (plan : Plan) (key nonce aad text : List ℕ) → Holds self.old plan key nonce aad text → Holds self.new plan key nonce aad (text ++ input.now) }
        ensures joined { (plan : Plan) (key nonce aad text before : List ℕ) → Holds self.old plan key nonce aad text →
            before ++ held.now ≡ given plan key nonce text → before ++ take result out.new ≡ given plan key nonce (text ++ input.now) }
        ensures room { (plan : Plan) (key nonce aad text : List ℕ) → Holds self.old plan key nonce aad text → result ≤ length held.now + piece_room plan (length input.now) }
        ensures within { result ≤ length out.new }
    {
        let (front, back) = out.split_at_mut(held.len());
        front.copy_from_slice(held);
        held.len() + self.update(input, back)
    }

    /// Puts the bytes that are held, and behind them all that the last bytes of the text and its end add.
    pub(crate) fn complete(
        self,
        held: &[u8],
        input: &[u8],
        signature: Option<Bytes>,
        out: &mut [u8],
    ) -> Result<usize, Code>
        requires fits { length held.now ≤ length out.old }
        requires room { HasRoom self (length input.now) (length out.old - length held.now) }
        requires end { ∥ CanComplete self input.now (length held.now) (length out.old) ∥₁ }
        ensures ends { (plan : Plan) (key nonce aad text before : List ℕ) → Holds self plan key nonce aad text → before ++ held.now ≡ given plan key nonce text →
            Ends (whole plan key nonce aad (text ++ input.now) signature) before result out.new }
        ensures within { IfOk result (λ n. n ≤ length out.new) }
    {
        let mut transform = self;
        let at = transform.advance(held, input, out);
        let (_, back) = out.split_at_mut(at);
        match transform.finish(signature, back) {
            Ok(size) => Ok(at + size),
            Err(code) => Err(code),
        }
    }
}
