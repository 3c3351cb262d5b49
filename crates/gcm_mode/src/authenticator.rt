//! The hash of additional data and ciphertext (SP 800-38D section 7.1, steps 4 and 5).

ghost use Rattle.std.specs.Prelude.{◌≡◌, ℕ, ◌++◌, [], List, false};
ghost use Rattle.ghash.specs.Hash.{ghash};
ghost use Rattle.gcm_mode.specs.Blocks.{blocks_of, padded};
ghost use Rattle.gcm_mode.specs.Gcm.{hash_input};
ghost use Rattle.gcm_mode.specs.Parts.{Authenticates, Feeds, hashed};

use crate::feed::Feed;

/// The hash so far of the additional data and then of the ciphertext, with their lengths in bytes modulo 2^64.
#[derive(Drop)]
pub(crate) struct Authenticator {
    feed: Feed,
    has_text: bool,
    aad_len: u64,
    text_len: u64,
}

impl Authenticator {
    /// The hash of nothing yet, under a subkey.
    pub(crate) fn new(h: [u8; 16]) -> Authenticator
        ensures { Authenticates result h [] [] }
    {
        Authenticator {
            feed: Feed::new(h),
            has_text: false,
            aad_len: 0,
            text_len: 0,
        }
    }

    /// Takes the next bytes of the additional data.
    pub(crate) fn aad(&mut self, input: &[u8])
        ensures has_text { self.new.has_text ≡ self.old.has_text }
        ensures hash { (h aad : List ℕ) → Authenticates self.old h aad [] → Authenticates self.new h (aad ++ input.now) [] }
    {
        self.feed.take(input);
        self.aad_len = self.aad_len.wrapping_add(input.len() as u64);
    }

    /// Pads the additional data before the first byte of ciphertext.
    fn begin_text(&mut self)
        ensures feed { (h aad text : List ℕ) → Authenticates self.old h aad text → Feeds self.new.feed h (padded aad ++ text) }
        ensures lengths { (self.new.aad_len ≡ self.old.aad_len) × (self.new.text_len ≡ self.old.text_len) }
    {
        if !self.has_text {
            self.feed.pad();
        }
    }

    /// Takes the next bytes of the ciphertext.
    pub(crate) fn text(&mut self, input: &[u8])
        ensures { (h aad text : List ℕ) → Authenticates self.old h aad text → Authenticates self.new h aad (text ++ input.now) }
    {
        if input.is_empty() {
            return;
        }
        self.begin_text();
        self.feed.take(input);
        self.has_text = true;
        self.text_len = self.text_len.wrapping_add(input.len() as u64);
    }

    /// The hash of all, with the lengths in bits behind it.
    pub(crate) fn value(mut self) -> [u8; 16]
        ensures { (h aad text : List ℕ) → Authenticates self h aad text → result ≡ ghash h (blocks_of (hash_input aad text)) }
    {
        self.feed.pad();
        self.feed.take(&self.aad_len.wrapping_mul(8).to_be_bytes());
        self.feed.take(&self.text_len.wrapping_mul(8).to_be_bytes());
        self.feed.value()
    }
}
