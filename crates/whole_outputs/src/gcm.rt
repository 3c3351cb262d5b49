//! GCM (SP 800-38D section 7), of which some bytes are done.

ghost use Rattle.std.specs.Prelude.{◌≡◌, ◌++◌, length};
ghost use Rattle.std.specs.Int.{w32, to_be_bytes};

use crate::bytewise::sum;
use crate::key_stream::{Counting, KeyStream};
use crate::text_hash::BothHash;
use aes_core::BlockCipher;
use aes_wide::WideAes;
use byte_strings::same_bytes;
use std::alloc::Global;
use tags::{Bytes, Code, NoMemory};

/// A text in GCM: the key stream from its next byte on, the hash so far, and what is added to the whole hash for the tag.
#[derive(Drop)]
pub(crate) struct GcmText {
    stream: KeyStream,
    hash: BothHash,
    tag_key: [u8; 16],
    tag: usize,
}

/// The counter block of a nonce with this number.
fn counter_block(nonce: &[u8], number: u32) -> [u8; 16]
    requires { length nonce.now ≡ 12 }
    ensures { result ≡ nonce.now ++ to_be_bytes w32 number }
{
    let mut block = [0; 16];
    block[..12].copy_from_slice(nonce);
    block[12..].copy_from_slice(&number.to_be_bytes());
    block
}

impl GcmText {
    ghost use Rattle.std.specs.Prelude.{◌≡◌, ℕ, ◌+◌, ◌-◌, ◌≤◌, List, [], ◌++◌, length, take, drop, MatchResult, IfOk};
    ghost use Rattle.std.specs.Option.{ok_or};
    ghost use Rattle.aes_core.specs.Cipher.{cipher};
    ghost use Rattle.aes_wide.specs.WideKey.{wide_key_of};
    ghost use Rattle.gcm_mode.specs.Gcm.{raw, gcm_seal, gcm_open, tag_of};
    ghost use Rattle.tags.specs.declared.code.Code.TheVariants.{VerificationFailed};
    ghost use Rattle.cipher_ops.specs.Output.{behind};
    ghost use Rattle.whole_outputs.specs.Modes.{IsGcm};

    /// No additional data and no text yet, under a nonce of 12 bytes.
    pub(crate) fn new(cipher: WideAes, nonce: &[u8], tag: usize) -> GcmText
        requires { length nonce.now ≡ 12 }
        ensures gcm { IsGcm result (wide_key_of cipher) nonce.now [] 0 [] }
        ensures tag { result.tag ≡ tag }
    {
        let tag_key = cipher.encrypt(counter_block(nonce, 1));
        let hash = BothHash::new(cipher.encrypt([0; 16]));
        GcmText {
            stream: KeyStream::new(cipher, Counting::Last, counter_block(nonce, 2)),
            hash,
            tag_key,
            tag,
        }
    }

    /// Takes the next bytes of the additional data, before any byte of text.
    pub(crate) fn aad(&mut self, bytes: &[u8])
        ensures gcm { (key nonce aad : List ℕ) → IsGcm self.old key nonce aad 0 [] → IsGcm self.new key nonce (aad ++ bytes.now) 0 [] }
        ensures tag { self.new.tag ≡ self.old.tag }
    {
        self.hash.aad(bytes);
    }

    /// How many of so many bytes of an opened text cannot be its tag.
    pub(crate) fn before_tag(&self, size: usize) -> usize
        ensures { result ≡ size - self.now.tag }
    {
        size.saturating_sub(self.tag)
    }

    /// The ciphertext of the next bytes of the text.
    pub(crate) fn seal(&mut self, alloc: Global, text: &[u8]) -> Result<Vec<u8>, NoMemory>
        ensures made { (key nonce aad done : List ℕ) → IsGcm self.old key nonce aad (length done) (raw (cipher key) nonce done) →
            IfOk result (λ out. raw (cipher key) nonce done ++ out.items ≡ raw (cipher key) nonce (done ++ text.now)) }
        ensures gcm { (key nonce aad done : List ℕ) → IsGcm self.old key nonce aad (length done) (raw (cipher key) nonce done) →
            MatchResult result (λ _. IsGcm self.new key nonce aad (length (done ++ text.now)) (raw (cipher key) nonce (done ++ text.now)))
            (λ _. IsGcm self.new key nonce aad (length done) (raw (cipher key) nonce done)) }
        ensures tag { self.new.tag ≡ self.old.tag }
    {
        match self.stream.pass(alloc, text) {
            Ok(sealed) => {
                self.hash.text(&sealed);
                Ok(sealed)
            }
            Err(fault) => Err(fault),
        }
    }

    /// The text of the next bytes of ciphertext.
    pub(crate) fn open(&mut self, alloc: Global, sealed: &[u8]) -> Result<Vec<u8>, NoMemory>
        ensures made { (key nonce aad done : List ℕ) → IsGcm self.old key nonce aad (length done) done →
            IfOk result (λ out. raw (cipher key) nonce done ++ out.items ≡ raw (cipher key) nonce (done ++ sealed.now)) }
        ensures gcm { (key nonce aad done : List ℕ) → IsGcm self.old key nonce aad (length done) done →
            MatchResult result (λ _. IsGcm self.new key nonce aad (length (done ++ sealed.now)) (done ++ sealed.now))
            (λ _. IsGcm self.new key nonce aad (length done) done) }
        ensures tag { self.new.tag ≡ self.old.tag }
    {
        match self.stream.pass(alloc, sealed) {
            Ok(text) => {
                self.hash.text(sealed);
                Ok(text)
            }
            Err(fault) => Err(fault),
        }
    }

    /// The whole hash as it is sent, of which the tag is the front.
    fn whole_tag(self) -> [u8; 16]
        ensures { (key nonce aad : List ℕ) (count : ℕ) (sealed : List ℕ) → IsGcm self key nonce aad count sealed →
            (tag : ℕ) → take tag result ≡ tag_of (cipher key) nonce tag aad sealed }
    {
        let GcmText { hash, tag_key, .. } = self;
        sum(hash.value(), tag_key)
    }

    /// The ciphertext of the rest of the text, and the tag behind it.
    pub(crate) fn end_sealed(mut self, alloc: Global, rest: &[u8]) -> Result<Bytes, NoMemory>
        ensures { (key nonce aad done : List ℕ) → IsGcm self key nonce aad (length done) (raw (cipher key) nonce done) →
            IfOk result (λ out. out ≡ drop (length done) (gcm_seal (cipher key) nonce self.tag aad (done ++ rest.now))) }
    {
        let mut sealed = self.seal(alloc, rest)?;
        let size = self.tag.min(16);
        sealed.extend_from_slice(&self.whole_tag()[..size])?;
        Ok(Bytes::of(sealed))
    }

    /// The text of the rest, whose last bytes are the tag, or `VerificationFailed` where they are another's or too few.
    pub(crate) fn end_opened(
        mut self,
        alloc: Global,
        rest: &[u8],
    ) -> Result<Result<Bytes, Code>, NoMemory>
        ensures { (key nonce aad done : List ℕ) → IsGcm self key nonce aad (length done) done → length done ≤ length done + length rest.now - self.tag →
            IfOk result (λ output. output ≡ behind (length done) (ok_or (gcm_open (cipher key) nonce self.tag aad (done ++ rest.now)) VerificationFailed)) }
    {
        if rest.len() < self.tag {
            return Ok(Err(Code::VerificationFailed));
        }
        let (sealed, tag) = rest.split_at(rest.len() - self.tag);
        let text = self.open(alloc, sealed)?;
        let size = self.tag.min(16);
        if same_bytes(&self.whole_tag()[..size], tag) {
            Ok(Ok(Bytes::of(text)))
        } else {
            Ok(Err(Code::VerificationFailed))
        }
    }
}
