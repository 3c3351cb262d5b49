//! Authenticated encryption (SP 800-38D section 7.1), in any pieces.

ghost use Rattle.std.specs.Prelude.{◌≡◌, ℕ, ◌≤◌, ◌++◌, [], List, Some, drop, length, slice_range, take};
ghost use Rattle.gcm_mode.specs.Gcm.{gcm_open, gcm_seal, raw, seal_front, seal_given};
ghost use Rattle.gcm_mode.specs.Holds.{Seals, SealsNoText, tag_size};

use crate::authenticator::Authenticator;
use crate::bytes::xor_blocks;
use crate::stream::Gctr;
use crate::tag_size::TagSize;
use aes_core::ManyBlocks;

/// A sealing under way: additional data in any pieces, then text in any pieces, then the tag.
#[derive(Drop)]
pub struct GcmSeal<C> {
    stream: Gctr<C>,
    hash: Authenticator,
    tag: TagSize,
}

impl<C: ManyBlocks + Drop> GcmSeal<C> {
    /// Begins a sealing under a cipher and a nonce of 12 bytes, for a tag of 12 to 16 bytes.
    pub fn new(cipher: C, nonce: [u8; 12], tag: usize) -> GcmSeal<C>
        requires least { 12 ≤ tag }
        requires most { tag ≤ 16 }
        ensures { Seals C.cipher result (C.cipher cipher) nonce tag [] [] }
    {
        let stream = Gctr::new(cipher, nonce);
        let hash = Authenticator::new(stream.hash_subkey());
        GcmSeal {
            stream,
            hash,
            tag: TagSize::new(tag),
        }
    }

    /// Takes the next bytes of the additional data, before any byte of text.
    pub fn aad(&mut self, input: &[u8])
        requires { SealsNoText self.old }
        ensures no_text { SealsNoText self.new }
        ensures seals { (cipher : List ℕ → List ℕ) (nonce : List ℕ) (tag : ℕ) (aad : List ℕ)
            → Seals C.cipher self.old cipher nonce tag aad [] → Seals C.cipher self.new cipher nonce tag (aad ++ input.now) [] }
    {
        self.hash.aad(input);
    }

    /// Takes the next bytes of the text, and puts as many bytes of ciphertext at the front of `out`.
    pub fn update(&mut self, input: &[u8], out: &mut [u8]) -> usize
        requires { length input.now ≤ length out.old }
        ensures count { result ≡ length input.now }
        ensures rest { drop result out.new ≡ drop result out.old }
        ensures given { (cipher : List ℕ → List ℕ) (nonce : List ℕ) (tag : ℕ) (aad text : List ℕ)
            → Seals C.cipher self.old cipher nonce tag aad text
            → seal_given cipher nonce text ++ take result out.new ≡ seal_given cipher nonce (text ++ input.now) }
        ensures piece { (cipher : List ℕ → List ℕ) (nonce : List ℕ) (tag : ℕ) (aad text : List ℕ)
            → Seals C.cipher self.old cipher nonce tag aad text
            → take result out.new ≡ slice_range (raw cipher nonce (text ++ input.now)) (seal_front text) (seal_front (text ++ input.now)) }
        ensures seals { (cipher : List ℕ → List ℕ) (nonce : List ℕ) (tag : ℕ) (aad text : List ℕ)
            → Seals C.cipher self.old cipher nonce tag aad text → Seals C.cipher self.new cipher nonce tag aad (text ++ input.now) }
    {
        let part = &mut out[..input.len()];
        part.copy_from_slice(input);
        self.stream.apply(part);
        self.hash.text(part);
        input.len()
    }

    /// Ends the sealing: puts the tag at the front of `out`, and tells its size.
    pub fn finish(self, out: &mut [u8]) -> usize
        requires { tag_size self ≤ length out.old }
        ensures count { result ≡ tag_size self }
        ensures rest { drop result out.new ≡ drop result out.old }
        ensures sealed { (cipher : List ℕ → List ℕ) (nonce : List ℕ) (tag : ℕ) (aad text : List ℕ)
            → Seals C.cipher self cipher nonce tag aad text
            → seal_given cipher nonce text ++ take result out.new ≡ gcm_seal cipher nonce tag aad text }
        // Opening gives the text again.
        ensures opens { (cipher : List ℕ → List ℕ) (nonce : List ℕ) (tag : ℕ) (aad text : List ℕ)
            → Seals C.cipher self cipher nonce tag aad text
            → gcm_open cipher nonce tag aad (gcm_seal cipher nonce tag aad text) ≡ Some text }
    {
        let size = self.tag.bytes();
        let whole = xor_blocks(self.hash.value(), &self.stream.tag_key());
        out[..size].copy_from_slice(&whole[..size]);
        size
    }
}
