//! The key stream of a counter mode (SP 800-38A section 6.5, and under GCM SP 800-38D section 6.5).

ghost use Rattle.std.specs.Prelude.{◌≡◌, ◌+◌, ◌*◌, ◌≤◌, length, drop, map, IfOk};
ghost use Rattle.std.specs.Int.{w32, from_be_bytes};
ghost use Rattle.gcm_mode.specs.Bytewise.{xor_by, stream_byte};
ghost use Rattle.cipher_ops.specs.Standing.{aes};
ghost use Rattle.whole_outputs.specs.Streams.{next_of, counters};

use aes_core::ManyBlocks;
use aes_wide::WideAes;
use std::alloc::Global;
use tags::NoMemory;

/// How a counter block goes on to the next one: by one in all its bits, or in its last 32.
#[derive(Clone, Copy)]
pub(crate) enum Counting {
    Whole,
    Last,
}

/// A key stream, of which some bytes are used: the counter block of the next byte, and how many bytes of its key are used.
#[derive(Drop)]
pub(crate) struct KeyStream {
    cipher: WideAes,
    counting: Counting,
    counter: [u8; 16],
    used: usize,
}

/// The last four bytes of a block as a number.
fn last_number(block: &[u8; 16]) -> u32
    ensures { result ≡ from_be_bytes w32 (drop 12 block.now) }
{
    let mut bytes = [0; 4];
    bytes.copy_from_slice(&block[12..]);
    u32::from_be_bytes(bytes)
}

/// The counter block behind another.
fn next(counting: Counting, block: [u8; 16]) -> [u8; 16]
    ensures { result ≡ next_of counting block }
{
    match counting {
        Counting::Whole => u128::from_be_bytes(block).wrapping_add(1).to_be_bytes(),
        Counting::Last => {
            let number = last_number(&block).wrapping_add(1);
            let mut more = block;
            more[12..].copy_from_slice(&number.to_be_bytes());
            more
        }
    }
}

/// Puts the counter blocks from a first one on.
fn put_counters(counting: Counting, first: [u8; 16], out: &mut [[u8; 16]])
    ensures { out.new ≡ counters (next_of counting) (length out.old) first }
{
    let mut block = first;
    'each: for i in 0..out.len() {
        out[i] = block;
        let more = next(counting, block);
        block = more;
    }
}

/// So many counter blocks from a first one on.
fn counters_from(
    alloc: Global,
    counting: Counting,
    first: [u8; 16],
    count: usize,
) -> Result<Vec<[u8; 16]>, NoMemory>
    ensures blocks { IfOk result (λ blocks. blocks.items ≡ counters (next_of counting) count first) }
    ensures len { IfOk result (λ blocks. length blocks.items ≡ count) }
{
    let mut blocks = vec![in alloc; [0u8; 16]; count]?;
    put_counters(counting, first, &mut blocks);
    Ok(blocks)
}

/// The cipher of each block.
fn encrypted(cipher: &WideAes, blocks: Vec<[u8; 16]>) -> Vec<[u8; 16]>
    ensures keys { result.items ≡ map (aes cipher.now) blocks.items }
    ensures len { length result.items ≡ length blocks.items }
{
    let mut keys = blocks;
    cipher.encrypt_all(&mut keys);
    keys
}

/// Adds to some bytes the keys from a byte of them on.
fn add_keys(bytes: &mut [u8], keys: &[[u8; 16]], from: usize)
    requires { from + length bytes.old ≤ 16 * length keys.now }
    ensures { bytes.new ≡ xor_by (stream_byte keys.now) from bytes.old }
{
    'bytes: for i in 0..bytes.len() {
        let at = from + i;
        bytes[i] ^= keys[at / 16][at % 16];
    }
}

impl KeyStream {
    ghost use Rattle.std.specs.Prelude.{◌≡◌, ℕ, ◌+◌, List, length, MatchResult, IfOk};
    ghost use Rattle.aes_wide.specs.WideKey.{wide_key_of};
    ghost use Rattle.gcm_mode.specs.Bytewise.{xor_by};
    ghost use Rattle.whole_outputs.specs.Streams.{Streams, key_byte};

    /// The stream from a first counter block on, of which no byte is used.
    pub(crate) fn new(cipher: WideAes, counting: Counting, first: [u8; 16]) -> KeyStream
        ensures { Streams result (wide_key_of cipher) counting first 0 }
    {
        KeyStream {
            cipher,
            counting,
            counter: first,
            used: 0,
        }
    }

    /// The next bytes with the stream added to them.
    pub(crate) fn pass(&mut self, alloc: Global, bytes: &[u8]) -> Result<Vec<u8>, NoMemory>
        ensures made { (key : List ℕ) (counting : Counting) (first : List ℕ) (n : ℕ) → Streams self.old key counting first n →
            IfOk result (λ out. out.items ≡ xor_by (key_byte key counting first) n bytes.now) }
        ensures stream { (key : List ℕ) (counting : Counting) (first : List ℕ) (n : ℕ) → Streams self.old key counting first n →
            MatchResult result (λ _. Streams self.new key counting first (n + length bytes.now)) (λ _. Streams self.new key counting first n) }
    {
        let from = self.used % 16;
        let end = from + bytes.len();
        let blocks = counters_from(alloc, self.counting, self.counter, end / 16 + 1)?;
        let mut out = Vec::from_slice(alloc, bytes)?;
        self.counter = blocks[end / 16];
        self.used = end % 16;
        let keys = encrypted(&self.cipher, blocks);
        add_keys(&mut out, &keys, from);
        Ok(out)
    }
}
