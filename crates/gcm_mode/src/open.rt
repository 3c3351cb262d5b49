//! Authenticated decryption (SP 800-38D section 7.2), in any pieces.

ghost use Rattle.std.specs.Prelude.{◌≡◌, ℕ, ◌+◌, ◌≤◌, ◌++◌, [], List, drop, length, slice_range, take};
ghost use Rattle.gcm_mode.specs.Gcm.{gcm_open, open_front, open_given, raw};
ghost use Rattle.gcm_mode.specs.Holds.{HasTag, IsOpened, Opens, OpensNoText};

use crate::authenticator::Authenticator;
use crate::bytes::xor_blocks;
use crate::held::HeldBack;
use crate::stream::Gctr;
use aes_core::ManyBlocks;
use byte_strings::same_bytes;

/// The tag is not that of the additional data and the ciphertext.
#[derive(Debug, Clone, Copy, PartialEq, Eq, Drop)]
pub struct TagWrong;

/// An opening under way: additional data in any pieces, then ciphertext with its tag behind it in any pieces. The last
/// bytes that it took, as many as a tag has, are held back, so that no byte of the tag is given as text.
#[derive(Drop)]
pub struct GcmOpen<C> {
    stream: Gctr<C>,
    hash: Authenticator,
    held: HeldBack,
}

impl<C: ManyBlocks + Drop> GcmOpen<C> {
    /// Begins an opening under a cipher and a nonce of 12 bytes, for a tag of 12 to 16 bytes.
    pub fn new(cipher: C, nonce: [u8; 12], tag: usize) -> GcmOpen<C>
        requires least { 12 ≤ tag }
        requires most { tag ≤ 16 }
        ensures { Opens C.cipher result (C.cipher cipher) nonce tag [] [] }
    {
        let stream = Gctr::new(cipher, nonce);
        let hash = Authenticator::new(stream.hash_subkey());
        GcmOpen {
            stream,
            hash,
            held: HeldBack::new(tag),
        }
    }

    /// Takes the next bytes of the additional data, before any byte of text.
    pub fn aad(&mut self, input: &[u8])
        requires { OpensNoText self.old }
        ensures no_text { OpensNoText self.new }
        ensures opens { (cipher : List ℕ → List ℕ) (nonce : List ℕ) (tag : ℕ) (aad : List ℕ)
            → Opens C.cipher self.old cipher nonce tag aad [] → Opens C.cipher self.new cipher nonce tag (aad ++ input.now) [] }
    {
        self.hash.aad(input);
    }

    /// Takes the next bytes of ciphertext and tag, and puts the text of all that cannot be the tag at the front of
    /// `out`. Tells how many bytes it put.
    pub fn update(&mut self, input: &[u8], out: &mut [u8]) -> usize
        requires { length input.now ≤ length out.old }
        ensures within { result ≤ length input.now }
        ensures rest { drop result out.new ≡ drop result out.old }
        ensures count { (cipher : List ℕ → List ℕ) (nonce : List ℕ) (tag : ℕ) (aad text : List ℕ)
            → Opens C.cipher self.old cipher nonce tag aad text → open_front tag text + result ≡ open_front tag (text ++ input.now) }
        ensures given { (cipher : List ℕ → List ℕ) (nonce : List ℕ) (tag : ℕ) (aad text : List ℕ)
            → Opens C.cipher self.old cipher nonce tag aad text
            → open_given cipher nonce tag text ++ take result out.new ≡ open_given cipher nonce tag (text ++ input.now) }
        ensures piece { (cipher : List ℕ → List ℕ) (nonce : List ℕ) (tag : ℕ) (aad text : List ℕ)
            → Opens C.cipher self.old cipher nonce tag aad text
            → take result out.new ≡ slice_range (raw cipher nonce (text ++ input.now)) (open_front tag text) (open_front tag (text ++ input.now)) }
        ensures opens { (cipher : List ℕ → List ℕ) (nonce : List ℕ) (tag : ℕ) (aad text : List ℕ)
            → Opens C.cipher self.old cipher nonce tag aad text → Opens C.cipher self.new cipher nonce tag aad (text ++ input.now) }
    {
        let given = self.held.pass(input, out);
        let part = &mut out[..given];
        self.hash.text(part);
        self.stream.apply(part);
        given
    }

    /// Ends the opening: all text was given before, so that `_out` stays as it is. `TagWrong` comes exactly where the
    /// bytes that were held back are not the tag.
    pub fn finish(self, _out: &mut [u8]) -> Result<usize, TagWrong>
        requires { HasTag self }
        ensures rest { _out.new ≡ _out.old }
        ensures opened { (cipher : List ℕ → List ℕ) (nonce : List ℕ) (tag : ℕ) (aad text : List ℕ)
            → Opens C.cipher self cipher nonce tag aad text
            → IsOpened result (gcm_open cipher nonce tag aad text) (open_given cipher nonce tag text) }
    {
        let whole = xor_blocks(self.hash.value(), &self.stream.tag_key());
        let held = self.held.bytes();
        if same_bytes(&whole[..held.len()], held) {
            Ok(0)
        } else {
            Err(TagWrong)
        }
    }
}
