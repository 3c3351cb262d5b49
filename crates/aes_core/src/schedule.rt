//! The key schedule: the words that key expansion makes of a key (FIPS 197 section 5.2).

ghost use Rattle.std.specs.Prelude.{◌≡◌, ℕ, ◌+◌, ◌*◌, ◌/◌, ◌<◌, ◌≤◌, [], ◌∷◌, ◌++◌, length, take, true};
ghost use Rattle.aes_core.specs.Expansion.{word, add_words, rot_word, sub_word, power_of_x, changed, next_word, expanded, round_key, key_expansion};
ghost use Rattle.aes_core.specs.Cipher.{is_key_size};

use crate::tower::sub_bytes;
use std::marker::Model;
use std::simd::prelude::*;

/// The powers of x that key expansion adds, from x^0 on.
static POWERS: [u8; 10] = [0x01, 0x02, 0x04, 0x08, 0x10, 0x20, 0x40, 0x80, 0x1b, 0x36];

/// The bytes of the words made so far, at most 60 words. Contracts see the list of these bytes.
#[derive(Drop)]
pub(crate) struct Schedule {
    bytes: [u8; 240],
    len: usize,
}

impl Model for Schedule {
    ghost use Rattle.std.specs.Prelude.{ℕ, ◌≤◌, List, take};

    ghost Value = { List ℕ };

    ghost view = { λ s. take s.len s.bytes };

    ghost invariant = { λ s. s.len ≤ 240 };
}

impl Schedule {
    fn new() -> Schedule
        ensures { result ≡ [] }
    {
        Schedule {
            bytes: [0; 240],
            len: 0,
        }
    }

    fn push(&mut self, byte: u8)
        requires { length self.old < 240 }
        ensures { self.new ≡ self.old ++ byte ∷ [] }
    {
        self.bytes[self.len] = byte;
        self.len += 1;
    }

    fn push_word(&mut self, word: [u8; 4])
        requires { length self.old + 4 ≤ 240 }
        ensures { self.new ≡ self.old ++ word }
    {
        self.push(word[0]);
        self.push(word[1]);
        self.push(word[2]);
        self.push(word[3]);
    }

    fn word(&self, index: usize) -> [u8; 4]
        requires { 4 * index + 4 ≤ length self.now }
        ensures { result ≡ word self.now index }
    {
        word(&self.bytes, index)
    }

    /// The round key of a round: 16 bytes.
    pub(crate) fn round_key(&self, round: usize) -> &[u8]
        requires { 16 * round + 16 ≤ length self.now }
        ensures bytes { result.now ≡ round_key self.now round }
        ensures size { length result.now ≡ 16 }
    {
        let bytes = &self.bytes;
        &bytes[16 * round..16 * round + 16]
    }
}

/// Word `index` of the words in `bytes`.
fn word(bytes: &[u8], index: usize) -> [u8; 4]
    requires { 4 * index + 4 ≤ length bytes.now }
    ensures { result ≡ word bytes.now index }
{
    let at = 4 * index;
    [bytes[at], bytes[at + 1], bytes[at + 2], bytes[at + 3]]
}

#[tactic(auto, unfolding(crate::specs::Expansion::add_words))]
fn add_words(v: [u8; 4], w: [u8; 4]) -> [u8; 4]
    ensures { result ≡ add_words v w }
{
    [v[0] ^ w[0], v[1] ^ w[1], v[2] ^ w[2], v[3] ^ w[3]]
}

#[tactic(auto, unfolding(crate::specs::Expansion::sub_word))]
fn sub_word(w: [u8; 4]) -> [u8; 4]
    ensures { result ≡ sub_word w }
{
    let bytes = [w[0], w[1], w[2], w[3], 0, 0, 0, 0, 0, 0, 0, 0, 0, 0, 0, 0];
    let out = sub_bytes(u8x16::from_array(bytes)).to_array();
    [out[0], out[1], out[2], out[3]]
}

#[tactic(auto, unfolding(crate::specs::Expansion::rot_word))]
fn rot_word(w: [u8; 4]) -> [u8; 4]
    ensures { result ≡ rot_word w }
{
    [w[1], w[2], w[3], w[0]]
}

/// x to the power of `exponent`.
fn power_of_x(exponent: usize) -> u8
    requires { exponent < 10 }
    ensures { result ≡ power_of_x exponent }
{
    POWERS[exponent]
}

/// What is added to the word `nk` places back, from the word before word `i`.
#[tactic(auto, unfolding(crate::specs::Expansion::changed, crate::specs::Expansion::round_constant))]
fn changed(nk: usize, i: usize, before: [u8; 4]) -> [u8; 4]
    requires count { 4 ≤ nk }
    requires key { nk ≤ i }
    requires power { i / nk ≤ 10 }
    ensures { result ≡ changed nk i before }
{
    if i % nk == 0 {
        let turned = sub_word(rot_word(before));
        let constant = [power_of_x(i / nk - 1), 0, 0, 0];
        add_words(turned, constant)
    } else if nk == 8 && i % 8 == 4 {
        sub_word(before)
    } else {
        before
    }
}

/// Word `i`, from the key and the words before.
#[tactic(auto, unfolding(crate::specs::Expansion::next_word))]
fn next_word(nk: usize, key: &[u8], i: usize, words: &Schedule) -> [u8; 4]
    requires count { 4 ≤ nk }
    requires key { length key.now ≡ 4 * nk }
    requires before { length words.now ≡ 4 * i }
    requires power { i / nk ≤ 10 }
    ensures { result ≡ next_word nk key.now i words.now }
{
    if i < nk {
        word(key, i)
    } else {
        add_words(words.word(i - nk), changed(nk, i, words.word(i - 1)))
    }
}

/// The key schedule of a key.
pub(crate) fn expand(key: &[u8]) -> Schedule
    requires { is_key_size (length key.now) ≡ true }
    ensures { result ≡ key_expansion key.now }
{
    let nk = key.len() / 4;
    let mut words = Schedule::new();
    'words: for i in 0..4 * (nk + 7) {
        let next = next_word(nk, key, i, &words);
        words.push_word(next);
    }
    words
}
