//! AES under one key.

ghost use Rattle.std.specs.Prelude.{◌≡◌, length};
ghost use Rattle.aes_core.specs.Expansion.{key_expansion, rounds_of};
ghost use Rattle.aes_core.specs.Cipher.{IsKey};
ghost use Rattle.aes_core.specs.Schedules.{key_in};

use crate::block_cipher::{BlockCipher, ManyBlocks};
use crate::rounds::{cipher_by, inverse_by};
use crate::schedule::{Schedule, expand};

/// A key of 16, 24 or 32 bytes with its key schedule (FIPS 197 section 5.2), which is made once.
///
/// `key_of` is the bytes of the key.
#[derive(Drop)]
pub struct AesKey {
    schedule: Schedule,
    rounds: usize,
    ghost is_key: { IsKey (key_in schedule rounds) },
    ghost rounds_are: { rounds ≡ rounds_of (key_in schedule rounds) },
    ghost is_expanded: { schedule ≡ key_expansion (key_in schedule rounds) },
}

impl AesKey {
    ghost use Rattle.std.specs.Prelude.{◌≡◌, ◌≤◌, length, is_some, IfSome};
    ghost use Rattle.aes_core.specs.Expansion.{key_expansion, round_key, rounds_of};
    ghost use Rattle.aes_core.specs.Cipher.{is_key_size};
    ghost use Rattle.aes_core.specs.KeyOf.{key_of};

    /// The key of these bytes. `None` comes exactly for a length other than 16, 24 and 32 bytes.
    pub fn new(key: &[u8]) -> Option<AesKey>
        ensures size { is_some result ≡ is_key_size (length key.now) }
        ensures key { IfSome result (λ aes. key_of aes ≡ key.now) }
    {
        let size = key.len();
        if size != 16 && size != 24 && size != 32 {
            return None;
        }
        let schedule = expand(key);
        Some(AesKey {
            schedule,
            rounds: size / 4 + 6,
        })
    }

    /// The number of rounds: 10, 12 or 14.
    pub fn rounds(&self) -> usize
        ensures { result ≡ rounds_of (key_of self.now) }
    {
        self.rounds
    }

    /// The round key of a round, of which the first, number 0, comes before the rounds.
    pub fn round_key(&self, round: usize) -> [u8; 16]
        requires { round ≤ rounds_of (key_of self.now) }
        ensures { result ≡ round_key (key_expansion (key_of self.now)) round }
    {
        block_of(self.schedule.round_key(round))
    }
}

/// A block of 16 bytes.
fn block_of(bytes: &[u8]) -> [u8; 16]
    requires { length bytes.now ≡ 16 }
    ensures { result ≡ bytes.now }
{
    [
        bytes[0], bytes[1], bytes[2], bytes[3], bytes[4], bytes[5], bytes[6], bytes[7], bytes[8],
        bytes[9], bytes[10], bytes[11], bytes[12], bytes[13], bytes[14], bytes[15],
    ]
}

impl BlockCipher for AesKey {
    ghost use Rattle.std.specs.Prelude.{◌≡◌};
    ghost use Rattle.aes_core.specs.Cipher.{cipher, inverse_cipher};
    ghost use Rattle.aes_core.specs.KeyOf.{key_of};
    ghost use Rattle.aes_core.specs.Laws.AesLaws.{cipher_keeps_blocks, inverse_keeps_blocks, inverse_undoes_cipher, cipher_undoes_inverse};

    ghost cipher = { λ aes. cipher (key_of aes) };

    ghost inverse = { λ aes. inverse_cipher (key_of aes) };

    /// The cipher of a block (FIPS 197 section 5.1).
    fn encrypt(&self, block: [u8; 16]) -> [u8; 16]
        ensures { result ≡ cipher (key_of self.now) block }
    {
        cipher_by(&self.schedule, self.rounds, block)
    }

    /// The inverse cipher of a block (FIPS 197 section 5.3).
    fn decrypt(&self, block: [u8; 16]) -> [u8; 16]
        ensures { result ≡ inverse_cipher (key_of self.now) block }
    {
        inverse_by(&self.schedule, self.rounds, block)
    }

    ghost cipher_keeps = { cipher_keeps_blocks };

    ghost inverse_keeps = { inverse_keeps_blocks };

    ghost undoes = { inverse_undoes_cipher };

    ghost redoes = { cipher_undoes_inverse };
}

impl ManyBlocks for AesKey {
    ghost use Rattle.std.specs.Prelude.{◌≡◌, map};
    ghost use Rattle.aes_core.specs.Cipher.{cipher, inverse_cipher};
    ghost use Rattle.aes_core.specs.KeyOf.{key_of};

    fn encrypt_all(&self, blocks: &mut [[u8; 16]])
        ensures { blocks.new ≡ map (cipher (key_of self.now)) blocks.old }
    {
        'each: for i in 0..blocks.len() {
            blocks[i] = self.encrypt(blocks[i]);
        }
    }

    fn decrypt_all(&self, blocks: &mut [[u8; 16]])
        ensures { blocks.new ≡ map (inverse_cipher (key_of self.now)) blocks.old }
    {
        'each: for i in 0..blocks.len() {
            blocks[i] = self.decrypt(blocks[i]);
        }
    }
}
