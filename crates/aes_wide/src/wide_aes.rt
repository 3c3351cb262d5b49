//! AES under one key, on eight blocks at a time.

ghost use Rattle.std.specs.Prelude.{◌≡◌, ℕ, ◌+◌, ◌<◌, ◌≤◌, length, map};
ghost use Rattle.aes_core.specs.Cipher.{cipher};
ghost use Rattle.aes_core.specs.Expansion.{key_expansion, rounds_of};
ghost use Rattle.aes_core.specs.KeyOf.{key_of};
ghost use Rattle.aes_wide.specs.RoundKeyPlanes.{HasAllKeys, held_key};
ghost use Rattle.aes_wide.specs.Planes.{IsWhole, standing};
ghost use Rattle.aes_wide.specs.Single.{HasRows};

use crate::planes::{added, last_round, round, unmixed, unsubbed};
use crate::single::{RoundKey, key_rows, last_tower_round, sum, tower_round};
use crate::transpose::{rows_of, transposed};
use aes_core::{AesKey, BlockCipher, ManyBlocks, to_tower};
use std::simd::prelude::*;

/// A round key in planes, as each of eight blocks.
#[derive(Clone, Copy)]
struct KeyPlanes {
    p0: u8x16,
    p1: u8x16,
    p2: u8x16,
    p3: u8x16,
    p4: u8x16,
    p5: u8x16,
    p6: u8x16,
    p7: u8x16,
}

impl KeyPlanes {
    ghost use Rattle.std.specs.Prelude.{◌≡◌};
    ghost use Rattle.aes_wide.specs.RoundKeyPlanes.{planes_in};

    fn of(planes: [u8x16; 8]) -> KeyPlanes
        requires { IsWhole 8 planes }
        ensures { planes_in result ≡ planes }
    {
        let [p0, p1, p2, p3, p4, p5, p6, p7] = planes;
        KeyPlanes {
            p0,
            p1,
            p2,
            p3,
            p4,
            p5,
            p6,
            p7,
        }
    }

    fn planes(&self) -> [u8x16; 8]
        ensures { result ≡ planes_in self.now }
    {
        [
            self.p0, self.p1, self.p2, self.p3, self.p4, self.p5, self.p6, self.p7,
        ]
    }
}

/// A key of 16, 24 or 32 bytes with its round keys in planes, which are made once.
///
/// `wide_key_of` is the bytes of the key.
#[derive(Drop)]
pub struct WideAes {
    plain: AesKey,
    keys: [KeyPlanes; 15],
    rows: [RoundKey; 15],
    ghost has_keys: { HasAllKeys keys (key_of plain) },
    ghost has_rows: { HasRows rows (key_of plain) },
}

/// A block, as each of eight, in planes.
fn spread(x: u8x16) -> [u8x16; 8]
    ensures whole { IsWhole 8 result }
    ensures blocks { (b : ℕ) → b < 8 → standing result b ≡ x }
{
    transposed(rows_of([x, x, x, x, x, x, x, x]))
}

/// A round key as it is held. The constant of the S-box is added to it here, and not in each round.
fn held_key(plain: &AesKey, round: usize) -> u8x16
    requires { round ≤ rounds_of (key_of plain.now) }
    ensures { result ≡ held_key (key_expansion (key_of plain.now)) round }
{
    let key = u8x16::from_array(plain.round_key(round));
    if round == 0 {
        return key;
    }
    sum(key, u8x16::splat(0x63))
}

/// The round keys of a key in planes.
fn key_planes(plain: &AesKey) -> [KeyPlanes; 15]
    ensures { HasAllKeys result (key_of plain.now) }
{
    let none = KeyPlanes::of([u8x16::splat(0); 8]);
    let mut keys = [none; 15];
    let count = plain.rounds() + 1;
    'each: for r in 0..count {
        let key = KeyPlanes::of(spread(held_key(plain, r)));
        keys[r] = key;
    }
    keys
}

impl WideAes {
    ghost use Rattle.std.specs.Prelude.{◌≡◌, ℕ, ◌<◌, ◌≤◌, [], ◌∷◌, map, length, is_some, IfSome};
    ghost use Rattle.aes_core.specs.Cipher.{is_key_size, cipher, inverse_cipher};
    ghost use Rattle.aes_wide.specs.Planes.{IsWhole, standing};
    ghost use Rattle.aes_wide.specs.WideKey.{wide_key_of};

    /// The key of these bytes. `None` comes exactly for a length other than 16, 24 and 32 bytes.
    pub fn new(key: &[u8]) -> Option<WideAes>
        ensures size { is_some result ≡ is_key_size (length key.now) }
        ensures key { IfSome result (λ aes. wide_key_of aes ≡ key.now) }
    {
        let plain = AesKey::new(key)?;
        let keys = key_planes(&plain);
        let rows = key_rows(&plain);
        Some(WideAes { plain, keys, rows })
    }

    /// The cipher of one block.
    fn encrypt_one(&self, x: u8x16) -> u8x16
        ensures { result ≡ cipher (wide_key_of self.now) x }
    {
        let count = self.plain.rounds();
        let mut state = sum(to_tower(x), self.rows[0].bytes);
        'rounds: for done in 0..count - 1 {
            let next = tower_round(state, self.rows[done + 1].bytes);
            state = next;
        }
        last_tower_round(state, self.rows[count].bytes)
    }

    /// The cipher of eight blocks in planes. A round key is read where it is added, and stays in memory until then.
    fn encrypt_planes(&self, x: [u8x16; 8]) -> [u8x16; 8]
        requires { IsWhole 8 x }
        ensures whole { IsWhole 8 result }
        ensures blocks { (b : ℕ) → b < 8 → standing result b ≡ cipher (wide_key_of self.now) (standing x b) }
    {
        let count = self.plain.rounds();
        let mut state = added(x, self.keys[0].planes());
        'rounds: for done in 0..count - 1 {
            let mixed = round(state);
            let next = added(mixed, self.keys[done + 1].planes());
            state = next;
        }
        let last = last_round(state);
        added(last, self.keys[count].planes())
    }

    /// The cipher of eight blocks in vectors.
    fn encrypt_eight(
        &self,
        x0: u8x16,
        x1: u8x16,
        x2: u8x16,
        x3: u8x16,
        x4: u8x16,
        x5: u8x16,
        x6: u8x16,
        x7: u8x16,
    ) -> [u8x16; 8]
        ensures { result ≡ map (cipher (wide_key_of self.now)) (x0 ∷ x1 ∷ x2 ∷ x3 ∷ x4 ∷ x5 ∷ x6 ∷ x7 ∷ []) }
    {
        let planes = transposed(rows_of([x0, x1, x2, x3, x4, x5, x6, x7]));
        let done = self.encrypt_planes(planes);
        rows_of(transposed(done))
    }

    /// The cipher of eight blocks.
    fn encrypt_group(&self, group: &mut [[u8; 16]])
        requires { length group.old ≡ 8 }
        ensures { group.new ≡ map (cipher (wide_key_of self.now)) group.old }
    {
        let out = self.encrypt_eight(
            u8x16::from_array(group[0]),
            u8x16::from_array(group[1]),
            u8x16::from_array(group[2]),
            u8x16::from_array(group[3]),
            u8x16::from_array(group[4]),
            u8x16::from_array(group[5]),
            u8x16::from_array(group[6]),
            u8x16::from_array(group[7]),
        );
        group[0] = out[0].to_array();
        group[1] = out[1].to_array();
        group[2] = out[2].to_array();
        group[3] = out[3].to_array();
        group[4] = out[4].to_array();
        group[5] = out[5].to_array();
        group[6] = out[6].to_array();
        group[7] = out[7].to_array();
    }

    /// The cipher of at most eight blocks, by that of eight.
    fn encrypt_few(&self, few: &mut [[u8; 16]])
        requires { length few.old ≤ 8 }
        ensures { few.new ≡ map (cipher (wide_key_of self.now)) few.old }
    {
        let mut group = [[0u8; 16]; 8];
        let count = few.len();
        group[..count].copy_from_slice(few);
        self.encrypt_group(&mut group);
        few.copy_from_slice(&group[..count]);
    }

    /// The inverse cipher of eight blocks in planes.
    fn decrypt_planes(&self, x: [u8x16; 8]) -> [u8x16; 8]
        requires { IsWhole 8 x }
        ensures whole { IsWhole 8 result }
        ensures blocks { (b : ℕ) → b < 8 → standing result b ≡ inverse_cipher (wide_key_of self.now) (standing x b) }
    {
        let count = self.plain.rounds();
        let mut state = added(x, self.keys[count].planes());
        'rounds: for done in 0..count - 1 {
            let plain = unsubbed(state);
            let sum = added(plain, self.keys[count - 1 - done].planes());
            let next = unmixed(sum);
            state = next;
        }
        let last = unsubbed(state);
        added(last, self.keys[0].planes())
    }

    /// The inverse cipher of eight blocks in vectors.
    fn decrypt_eight(
        &self,
        x0: u8x16,
        x1: u8x16,
        x2: u8x16,
        x3: u8x16,
        x4: u8x16,
        x5: u8x16,
        x6: u8x16,
        x7: u8x16,
    ) -> [u8x16; 8]
        ensures { result ≡ map (inverse_cipher (wide_key_of self.now)) (x0 ∷ x1 ∷ x2 ∷ x3 ∷ x4 ∷ x5 ∷ x6 ∷ x7 ∷ []) }
    {
        let planes = transposed(rows_of([x0, x1, x2, x3, x4, x5, x6, x7]));
        let done = self.decrypt_planes(planes);
        rows_of(transposed(done))
    }

    /// The inverse cipher of eight blocks.
    fn decrypt_group(&self, group: &mut [[u8; 16]])
        requires { length group.old ≡ 8 }
        ensures { group.new ≡ map (inverse_cipher (wide_key_of self.now)) group.old }
    {
        let out = self.decrypt_eight(
            u8x16::from_array(group[0]),
            u8x16::from_array(group[1]),
            u8x16::from_array(group[2]),
            u8x16::from_array(group[3]),
            u8x16::from_array(group[4]),
            u8x16::from_array(group[5]),
            u8x16::from_array(group[6]),
            u8x16::from_array(group[7]),
        );
        group[0] = out[0].to_array();
        group[1] = out[1].to_array();
        group[2] = out[2].to_array();
        group[3] = out[3].to_array();
        group[4] = out[4].to_array();
        group[5] = out[5].to_array();
        group[6] = out[6].to_array();
        group[7] = out[7].to_array();
    }

    /// The inverse cipher of at most eight blocks, by that of eight.
    fn decrypt_few(&self, few: &mut [[u8; 16]])
        requires { length few.old ≤ 8 }
        ensures { few.new ≡ map (inverse_cipher (wide_key_of self.now)) few.old }
    {
        let mut group = [[0u8; 16]; 8];
        let count = few.len();
        group[..count].copy_from_slice(few);
        self.decrypt_group(&mut group);
        few.copy_from_slice(&group[..count]);
    }
}

impl BlockCipher for WideAes {
    ghost use Rattle.std.specs.Prelude.{◌≡◌};
    ghost use Rattle.aes_core.specs.Cipher.{cipher, inverse_cipher};
    ghost use Rattle.aes_wide.specs.WideKey.{wide_key_of};
    ghost use Rattle.aes_wide.specs.WideLaws.{wide_keeps, wide_inverse_keeps, wide_undoes, wide_redoes};

    ghost cipher = { λ aes. cipher (wide_key_of aes) };

    ghost inverse = { λ aes. inverse_cipher (wide_key_of aes) };

    /// The cipher of a block, in a vector of its own.
    fn encrypt(&self, block: [u8; 16]) -> [u8; 16]
        ensures { result ≡ cipher (wide_key_of self.now) block }
    {
        self.encrypt_one(u8x16::from_array(block)).to_array()
    }

    /// The inverse cipher of a block, by that of eight.
    fn decrypt(&self, block: [u8; 16]) -> [u8; 16]
        ensures { result ≡ inverse_cipher (wide_key_of self.now) block }
    {
        let mut one = [block];
        self.decrypt_few(&mut one);
        one[0]
    }

    ghost cipher_keeps = { wide_keeps };

    ghost inverse_keeps = { wide_inverse_keeps };

    ghost undoes = { wide_undoes };

    ghost redoes = { wide_redoes };
}

impl ManyBlocks for WideAes {
    ghost use Rattle.std.specs.Prelude.{◌≡◌, map};
    ghost use Rattle.aes_core.specs.Cipher.{cipher, inverse_cipher};
    ghost use Rattle.aes_wide.specs.WideKey.{wide_key_of};

    /// Eight blocks at a time.
    fn encrypt_all(&self, blocks: &mut [[u8; 16]])
        ensures { blocks.new ≡ map (cipher (wide_key_of self.now)) blocks.old }
    {
        let mut done = 0;
        'groups: while blocks.len() - done >= 8 {
            self.encrypt_group(&mut blocks[done..done + 8]);
            done += 8;
        }
        if done < blocks.len() {
            self.encrypt_few(&mut blocks[done..]);
        }
    }

    /// Eight blocks at a time.
    fn decrypt_all(&self, blocks: &mut [[u8; 16]])
        ensures { blocks.new ≡ map (inverse_cipher (wide_key_of self.now)) blocks.old }
    {
        let mut done = 0;
        'groups: while blocks.len() - done >= 8 {
            self.decrypt_group(&mut blocks[done..done + 8]);
            done += 8;
        }
        if done < blocks.len() {
            self.decrypt_few(&mut blocks[done..]);
        }
    }
}
