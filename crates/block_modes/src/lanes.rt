//! What a mode makes of many blocks, most of them by one call of the cipher.

ghost use Rattle.std.specs.Prelude.{◌≡◌, ◌+◌, ◌<◌, ◌%◌, ◌^◌, true, false, length};
ghost use Rattle.std.specs.Int.{w128, to_be_bytes};
ghost use Rattle.tags.specs.declared.plan.Plan.TheVariants.{Cbc};
ghost use Rattle.std.specs.Simd.Lanes.{zip2};
ghost use Rattle.block_modes.specs.Texts.{xor_bytes};
ghost use Rattle.block_modes.specs.Steps.{outs, chain_after, counter_blocks, counter_after, before_each, before_next};

use crate::step::xor;
use aes_core::ManyBlocks;
use std::simd::prelude::*;
use tags::Plan;

/// Seals one block after another in CBC, each with the cipher text before it. The chain stays a vector between the blocks.
fn seal_chain<C: ManyBlocks>(
    cipher: &C,
    chain: [u8; 16],
    texts: &[[u8; 16]],
    made: &mut [[u8; 16]],
) -> [u8; 16]
    requires { length texts.now ≡ length made.old }
    ensures made { made.new ≡ outs (C.cipher cipher.now) (C.inverse cipher.now) (Cbc true false) chain texts.now }
    ensures chain { result ≡ chain_after (C.cipher cipher.now) (C.inverse cipher.now) (Cbc true false) chain texts.now }
{
    let mut before = u8x16::from_array(chain);
    'each: for i in 0..texts.len() {
        let sum = u8x16::from_array(texts[i]) ^ before;
        let out = cipher.encrypt(sum.to_array());
        made[i] = out;
        before = u8x16::from_array(out);
    }
    before.to_array()
}

/// What is added to a block for the next number, where its last byte can go up.
const ONE: [u8; 16] = [0, 0, 0, 0, 0, 0, 0, 0, 0, 0, 0, 0, 0, 0, 0, 1];

/// The counter block behind that of a number whose last byte can go up.
#[inline(always)]
fn raised(block: u8x16, _number: u128) -> u8x16
    requires last { _number % 256 < 255 }
    requires spells { block ≡ to_be_bytes w128 _number }
    ensures { result ≡ to_be_bytes w128 ((_number + 1) % 2 ^ 128) }
{
    block + u8x16::from_array(ONE)
}

/// The counter block behind that of a number. It is spelled anew where the last byte carries.
#[inline(always)]
fn next_block(block: u8x16, number: u128) -> u8x16
    requires { block ≡ to_be_bytes w128 number }
    ensures { result ≡ to_be_bytes w128 ((number + 1) % 2 ^ 128) }
{
    if number % 256 < 255 {
        return raised(block, number);
    }
    u8x16::from_array(number.wrapping_add(1).to_be_bytes())
}

/// Puts the counter blocks from `first` on, and gives the one behind them.
fn put_counters(first: [u8; 16], out: &mut [[u8; 16]]) -> [u8; 16]
    ensures blocks { out.new ≡ counter_blocks (length out.old) first }
    ensures next { result ≡ counter_after (length out.old) first }
{
    if out.is_empty() {
        return first;
    }
    out[0] = first;
    let mut number = u128::from_be_bytes(first).wrapping_add(1);
    let mut block = u8x16::from_array(number.to_be_bytes());
    'each: for i in 1..out.len() {
        out[i] = block.to_array();
        let next = next_block(block, number);
        block = next;
        number = number.wrapping_add(1);
    }
    block.to_array()
}

/// Adds a key stream to texts: each block of it becomes its sum with the text.
fn add_texts(texts: &[[u8; 16]], keys: &mut [[u8; 16]])
    requires { length texts.now ≡ length keys.old }
    ensures { keys.new ≡ zip2 xor_bytes texts.now keys.old }
{
    'each: for i in 0..texts.len() {
        keys[i] = xor(texts[i], keys[i]);
    }
}

/// Adds to each block the block of cipher text before its own, at first `before`, and gives the last of them.
fn unchain(before: [u8; 16], texts: &[[u8; 16]], made: &mut [[u8; 16]]) -> [u8; 16]
    requires { length texts.now ≡ length made.old }
    ensures made { made.new ≡ zip2 xor_bytes made.old (before_each before texts.now) }
    ensures last { result ≡ before_next before texts.now }
{
    let mut chain = before;
    'each: for i in 0..texts.len() {
        made[i] = xor(made[i], chain);
        chain = texts[i];
    }
    chain
}

/// What the mode makes of some blocks of text that are chained to `chain`, and what the next block is chained to.
///
/// All blocks go through the cipher in one call, but in CBC sealing, where each waits for the one before it.
pub(crate) fn pass_all<C: ManyBlocks>(
    cipher: &C,
    plan: Plan,
    chain: [u8; 16],
    texts: &[[u8; 16]],
    made: &mut [[u8; 16]],
) -> [u8; 16]
    requires { length texts.now ≡ length made.old }
    ensures made { made.new ≡ outs (C.cipher cipher.now) (C.inverse cipher.now) plan chain texts.now }
    ensures chain { result ≡ chain_after (C.cipher cipher.now) (C.inverse cipher.now) plan chain texts.now }
{
    match plan {
        Plan::Ecb { seal, .. } => {
            made.copy_from_slice(texts);
            if seal {
                cipher.encrypt_all(made);
            } else {
                cipher.decrypt_all(made);
            }
            chain
        }
        Plan::Cbc { seal, .. } => {
            if seal {
                return seal_chain(cipher, chain, texts, made);
            }
            made.copy_from_slice(texts);
            cipher.decrypt_all(made);
            unchain(chain, texts, made)
        }
        _ => {
            let next = put_counters(chain, made);
            cipher.encrypt_all(made);
            add_texts(texts, made);
            next
        }
    }
}
