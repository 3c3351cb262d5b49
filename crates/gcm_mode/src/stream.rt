//! GCTR (SP 800-38D section 6.5), a text in any pieces.

ghost use Rattle.std.specs.Prelude.{◌≡◌, ℕ, ◌+◌, ◌*◌, ◌/◌, ◌%◌, ◌^◌, ◌<◌, ◌≤◌, ◌++◌, List, length};
ghost use Rattle.std.specs.Int.{w32, to_be_bytes};
ghost use Rattle.gcm_mode.specs.Bytewise.{xor_by};
ghost use Rattle.gcm_mode.specs.Gcm.{hash_subkey, pre_counter, raw};
ghost use Rattle.gcm_mode.specs.Parts.{IsReady, Streams, counter_blocks, key_byte};

use crate::bytes::add_blocks;
use aes_core::ManyBlocks;

/// The key stream of a text under a nonce, and how far it was used.
#[derive(Drop)]
pub(crate) struct Gctr<C> {
    cipher: C,
    nonce: [u8; 12],
    /// the number in the next counter block
    counter: u32,
    key_block: [u8; 16],
    /// how many bytes of the key block were used, 0 where the next is due
    used: usize,
}

/// Puts a counter block. Its parts are stored by themselves, since a vector that is read back from several stores waits
/// for all of them.
#[inline(always)]
fn put_counter(out: &mut [u8; 16], nonce: &[u8; 12], counter: u32)
    ensures { out.new ≡ nonce.now ++ to_be_bytes w32 counter }
{
    out[..12].copy_from_slice(nonce);
    out[12..].copy_from_slice(&counter.to_be_bytes());
}

fn counter_block(nonce: &[u8; 12], counter: u32) -> [u8; 16]
    ensures { result ≡ nonce.now ++ to_be_bytes w32 counter }
{
    let mut block = [0; 16];
    put_counter(&mut block, nonce, counter);
    block
}

impl<C: ManyBlocks> Gctr<C> {
    /// The stream of an empty text.
    pub(crate) fn new(cipher: C, nonce: [u8; 12]) -> Gctr<C>
        ensures { Streams C.cipher result (C.cipher cipher) nonce 0 }
    {
        Gctr {
            cipher,
            nonce,
            counter: 2,
            key_block: [0; 16],
            used: 0,
        }
    }

    /// The subkey of the hash: the cipher of the zero block.
    pub(crate) fn hash_subkey(&self) -> [u8; 16]
        ensures { result ≡ hash_subkey (C.cipher self.now.cipher) }
    {
        self.cipher.encrypt([0; 16])
    }

    /// The cipher of the block before the text's first counter block, under which the tag is sent.
    pub(crate) fn tag_key(&self) -> [u8; 16]
        ensures { result ≡ C.cipher self.now.cipher (pre_counter self.now.nonce) }
    {
        self.cipher.encrypt(counter_block(&self.nonce, 1))
    }

    /// The next counter block, whose number goes up in 32 bits.
    fn next_counter(&mut self) -> [u8; 16]
        ensures block { result ≡ self.old.nonce ++ to_be_bytes w32 self.old.counter }
        ensures counter { self.new ≡ record self.old { counter = (self.old.counter + 1) % 2 ^ 32 } }
    {
        let block = counter_block(&self.nonce, self.counter);
        self.counter = self.counter.wrapping_add(1);
        block
    }

    /// Makes the next block of the key stream where it is due.
    fn make_ready(&mut self)
        ensures { (cipher : List ℕ → List ℕ) (nonce : List ℕ) (n : ℕ)
            → Streams C.cipher self.old cipher nonce n → IsReady C.cipher self.new cipher nonce n }
    {
        if self.used == 0 {
            let block = self.next_counter();
            self.key_block = self.cipher.encrypt(block);
        }
    }

    /// The next byte of the key stream.
    fn next_byte(&mut self) -> u8
        ensures byte { (cipher : List ℕ → List ℕ) (nonce : List ℕ) (n : ℕ)
            → Streams C.cipher self.old cipher nonce n → result ≡ key_byte cipher nonce n }
        ensures stream { (cipher : List ℕ → List ℕ) (nonce : List ℕ) (n : ℕ)
            → Streams C.cipher self.old cipher nonce n → Streams C.cipher self.new cipher nonce (n + 1) }
    {
        self.make_ready();
        let at = self.used % 16;
        let byte = self.key_block[at];
        self.used = (at + 1) % 16;
        byte
    }

    /// Goes on with a few bytes, one by one.
    fn apply_each(&mut self, bytes: &mut [u8])
        ensures bytes { (cipher : List ℕ → List ℕ) (nonce : List ℕ) (n : ℕ)
            → Streams C.cipher self.old cipher nonce n → bytes.new ≡ xor_by (key_byte cipher nonce) n bytes.old }
        ensures stream { (cipher : List ℕ → List ℕ) (nonce : List ℕ) (n : ℕ)
            → Streams C.cipher self.old cipher nonce n → Streams C.cipher self.new cipher nonce (n + length bytes.old) }
    {
        'bytes: for i in 0..bytes.len() {
            let key = self.next_byte();
            bytes[i] ^= key;
        }
    }

    /// Puts the next counter blocks, where a block is due.
    fn put_counters(&mut self, out: &mut [[u8; 16]])
        ensures blocks { (cipher : List ℕ → List ℕ) (nonce : List ℕ) (n : ℕ)
            → Streams C.cipher self.old cipher nonce n → n % 16 ≡ 0 → out.new ≡ counter_blocks nonce (2 + n / 16) (length out.old) }
        ensures stream { (cipher : List ℕ → List ℕ) (nonce : List ℕ) (n : ℕ)
            → Streams C.cipher self.old cipher nonce n → n % 16 ≡ 0 → Streams C.cipher self.new cipher nonce (n + 16 * length out.old) }
    {
        'each: for i in 0..out.len() {
            put_counter(&mut out[i], &self.nonce, self.counter);
            self.counter = self.counter.wrapping_add(1);
        }
    }

    /// Goes on with at most 64 whole blocks, where a block is due: one call of the cipher makes their key stream.
    fn apply_group(&mut self, bytes: &mut [u8])
        requires few { length bytes.old ≤ 1024 }
        requires whole { length bytes.old % 16 ≡ 0 }
        ensures bytes { (cipher : List ℕ → List ℕ) (nonce : List ℕ) (n : ℕ)
            → Streams C.cipher self.old cipher nonce n → n % 16 ≡ 0 → bytes.new ≡ xor_by (key_byte cipher nonce) n bytes.old }
        ensures stream { (cipher : List ℕ → List ℕ) (nonce : List ℕ) (n : ℕ)
            → Streams C.cipher self.old cipher nonce n → n % 16 ≡ 0 → Streams C.cipher self.new cipher nonce (n + length bytes.old) }
    {
        let mut room = [[0u8; 16]; 64];
        let keys = &mut room[..bytes.len() / 16];
        self.put_counters(keys);
        self.cipher.encrypt_all(keys);
        add_blocks(bytes, keys);
    }

    /// Goes on with whole blocks, where a block is due, 64 at a time.
    fn apply_blocks(&mut self, bytes: &mut [u8])
        requires { length bytes.old % 16 ≡ 0 }
        ensures bytes { (cipher : List ℕ → List ℕ) (nonce : List ℕ) (n : ℕ)
            → Streams C.cipher self.old cipher nonce n → n % 16 ≡ 0 → bytes.new ≡ xor_by (key_byte cipher nonce) n bytes.old }
        ensures stream { (cipher : List ℕ → List ℕ) (nonce : List ℕ) (n : ℕ)
            → Streams C.cipher self.old cipher nonce n → n % 16 ≡ 0 → Streams C.cipher self.new cipher nonce (n + length bytes.old) }
    {
        let mut done = 0;
        'groups: while done < bytes.len() {
            let count = (bytes.len() - done).min(1024);
            self.apply_group(&mut bytes[done..done + count]);
            done += count;
        }
    }

    /// Goes on with the next bytes of the text, in place. The whole blocks among them go through the cipher together
    /// where they are eight or more.
    pub(crate) fn apply(&mut self, bytes: &mut [u8])
        ensures raw { (cipher : List ℕ → List ℕ) (nonce text : List ℕ)
            → Streams C.cipher self.old cipher nonce (length text)
            → raw cipher nonce text ++ bytes.new ≡ raw cipher nonce (text ++ bytes.old) }
        ensures stream { (cipher : List ℕ → List ℕ) (nonce : List ℕ) (n : ℕ)
            → Streams C.cipher self.old cipher nonce n → Streams C.cipher self.new cipher nonce (n + length bytes.old) }
    {
        let first = (16 - self.used % 16) % 16;
        if bytes.len() < first + 128 {
            self.apply_each(bytes);
            return;
        }
        let (front, back) = bytes.split_at_mut(first);
        self.apply_each(front);
        let (blocks, rest) = back.split_at_mut(back.len() / 16 * 16);
        self.apply_blocks(blocks);
        self.apply_each(rest);
    }
}
