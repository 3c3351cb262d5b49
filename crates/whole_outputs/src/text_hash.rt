//! GHASH of strings of bytes that come in pieces (SP 800-38D section 6.4), and of what GCM hashes.

ghost use Rattle.std.specs.Prelude.{◌≡◌, ℕ, ◌%◌, List, [], ◌++◌, length};
ghost use Rattle.ghash.specs.Hash.{ghash};
ghost use Rattle.gcm_mode.specs.Blocks.{blocks_of, padded};
ghost use Rattle.gcm_mode.specs.Gcm.{hash_input};
ghost use Rattle.whole_outputs.specs.Hashes.{Hashes, HashesBoth};

use crate::part::Part;
use ghash::Ghash;

/// The hash of the whole blocks of a string, and the bytes behind them.
#[derive(Drop)]
pub(crate) struct TextHash {
    hash: Ghash,
    rest: Part,
}

impl TextHash {
    /// The hash of no bytes under a subkey.
    pub(crate) fn new(subkey: [u8; 16]) -> TextHash
        ensures { Hashes result subkey [] }
    {
        TextHash {
            hash: Ghash::new(subkey),
            rest: Part::new(),
        }
    }

    /// Takes the next bytes of the string.
    pub(crate) fn take(&mut self, bytes: &[u8])
        ensures { (subkey before : List ℕ) → Hashes self.old subkey before → Hashes self.new subkey (before ++ bytes.now) }
    {
        let count = self.rest.fill(bytes);
        if self.rest.len() < 16 {
            return;
        }
        self.hash.absorb(self.rest.block());
        let (blocks, end) = bytes[count..].as_chunks::<16>();
        self.hash.absorb_all(blocks);
        self.rest.clear();
        self.rest.fill(end);
    }

    /// Takes zeros up to whole blocks.
    pub(crate) fn pad(&mut self)
        ensures { (subkey before : List ℕ) → Hashes self.old subkey before → Hashes self.new subkey (padded before) }
    {
        let count = (16 - self.rest.len()) % 16;
        let zeros = [0; 16];
        self.take(&zeros[..count]);
    }

    /// The hash of a string of whole blocks.
    pub(crate) fn value(&self) -> [u8; 16]
        ensures { (subkey bytes : List ℕ) → Hashes self.now subkey bytes → length bytes % 16 ≡ 0 → result ≡ ghash subkey (blocks_of bytes) }
    {
        self.hash.value()
    }
}

/// The hash of additional data and then of ciphertext, and how many bytes of each it took, modulo 2^64.
#[derive(Drop)]
pub(crate) struct BothHash {
    hash: TextHash,
    has_text: bool,
    aad_len: u64,
    text_len: u64,
}

impl BothHash {
    /// The hash of neither under a subkey.
    pub(crate) fn new(subkey: [u8; 16]) -> BothHash
        ensures { HashesBoth result subkey [] [] }
    {
        BothHash {
            hash: TextHash::new(subkey),
            has_text: false,
            aad_len: 0,
            text_len: 0,
        }
    }

    /// Takes the next bytes of the additional data, before any byte of ciphertext.
    pub(crate) fn aad(&mut self, bytes: &[u8])
        ensures { (subkey aad : List ℕ) → HashesBoth self.old subkey aad [] → HashesBoth self.new subkey (aad ++ bytes.now) [] }
    {
        self.hash.take(bytes);
        self.aad_len = self.aad_len.wrapping_add(bytes.len() as u64);
    }

    /// Pads the additional data before the first byte of ciphertext.
    fn begin_text(&mut self)
        ensures hash { (subkey aad text : List ℕ) → HashesBoth self.old subkey aad text → Hashes self.new.hash subkey (padded aad ++ text) }
        ensures lengths { (self.new.aad_len ≡ self.old.aad_len) × (self.new.text_len ≡ self.old.text_len) }
    {
        if !self.has_text {
            self.hash.pad();
        }
    }

    /// Takes the next bytes of the ciphertext.
    pub(crate) fn text(&mut self, bytes: &[u8])
        ensures { (subkey aad text : List ℕ) → HashesBoth self.old subkey aad text → HashesBoth self.new subkey aad (text ++ bytes.now) }
    {
        if bytes.is_empty() {
            return;
        }
        self.begin_text();
        self.hash.take(bytes);
        self.has_text = true;
        self.text_len = self.text_len.wrapping_add(bytes.len() as u64);
    }

    /// The hash of both, with their lengths in bits behind them.
    pub(crate) fn value(mut self) -> [u8; 16]
        ensures { (subkey aad text : List ℕ) → HashesBoth self subkey aad text → result ≡ ghash subkey (blocks_of (hash_input aad text)) }
    {
        self.hash.pad();
        self.hash.take(&self.aad_len.wrapping_mul(8).to_be_bytes());
        self.hash.take(&self.text_len.wrapping_mul(8).to_be_bytes());
        self.hash.value()
    }
}
