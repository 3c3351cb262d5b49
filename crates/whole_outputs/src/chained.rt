//! Whole blocks in ECB and CBC (SP 800-38A sections 6.1 and 6.2).

ghost use Rattle.std.specs.Prelude.{◌≡◌, Bool, true, false, length, map};
ghost use Rattle.std.specs.Simd.Lanes.{zip2};
ghost use Rattle.tags.specs.declared.plan.Plan.TheVariants.{Cbc};
ghost use Rattle.block_modes.specs.Texts.{xor_bytes};
ghost use Rattle.block_modes.specs.Steps.{outs, chain_after, before_each, before_next};
ghost use Rattle.cipher_ops.specs.Standing.{aes, aes_inverse};
ghost use Rattle.whole_outputs.specs.Links.{plan_of};

use crate::bytewise::sum;
use crate::padding::{with_padding, without_padding};
use aes_core::{BlockCipher, ManyBlocks};
use aes_wide::WideAes;
use std::alloc::Global;
use tags::{Bytes, Code, NoMemory, Plan};

/// Whether each block is linked to the one before it, as in CBC, or stands by itself, as in ECB.
#[derive(Clone, Copy)]
pub(crate) enum Links {
    Apart,
    Linked,
}

/// A text in ECB or CBC, of which some whole blocks are done: what the next of them is chained to.
#[derive(Drop)]
pub(crate) struct Chained {
    cipher: WideAes,
    links: Links,
    seal: bool,
    padded: bool,
    chain: [u8; 16],
}

/// Seals blocks that are linked, each with the cipher text before it, and gives the last cipher text.
fn seal_linked(
    cipher: &WideAes,
    before: [u8; 16],
    texts: &[[u8; 16]],
    made: &mut [[u8; 16]],
) -> [u8; 16]
    requires { length texts.now ≡ length made.old }
    ensures made { made.new ≡ outs (aes cipher.now) (aes_inverse cipher.now) (Cbc true false) before texts.now }
    ensures chain { result ≡ chain_after (aes cipher.now) (aes_inverse cipher.now) (Cbc true false) before texts.now }
{
    let mut last = before;
    'each: for i in 0..texts.len() {
        let block = cipher.encrypt(sum(texts[i], last));
        made[i] = block;
        last = block;
    }
    last
}

/// Adds to each block the cipher text before its own, at first `before`, and gives the last cipher text.
fn add_before(before: [u8; 16], texts: &[[u8; 16]], made: &mut [[u8; 16]]) -> [u8; 16]
    requires { length texts.now ≡ length made.old }
    ensures made { made.new ≡ zip2 xor_bytes made.old (before_each before texts.now) }
    ensures chain { result ≡ before_next before texts.now }
{
    let mut last = before;
    'each: for i in 0..texts.len() {
        let block = sum(made[i], last);
        made[i] = block;
        last = texts[i];
    }
    last
}

/// What comes out for some blocks, and what the next one is chained to.
fn pass_all(
    cipher: &WideAes,
    links: Links,
    seal: bool,
    chain: [u8; 16],
    texts: &[[u8; 16]],
    made: &mut [[u8; 16]],
) -> [u8; 16]
    requires { length texts.now ≡ length made.old }
    ensures made { (padded : Bool) → made.new ≡ outs (aes cipher.now) (aes_inverse cipher.now) (plan_of links seal padded) chain texts.now }
    ensures chain { (padded : Bool) → result ≡ chain_after (aes cipher.now) (aes_inverse cipher.now) (plan_of links seal padded) chain texts.now }
{
    match links {
        Links::Apart => {
            made.copy_from_slice(texts);
            if seal {
                cipher.encrypt_all(made);
            } else {
                cipher.decrypt_all(made);
            }
            chain
        }
        Links::Linked => {
            if seal {
                return seal_linked(cipher, chain, texts, made);
            }
            made.copy_from_slice(texts);
            cipher.decrypt_all(made);
            add_before(chain, texts, made)
        }
    }
}

impl Chained {
    ghost use Rattle.std.specs.Prelude.{◌≡◌, ◌≤◌, ◌*◌, ◌/◌, ◌%◌, length, MatchResult, IfOk};
    ghost use Rattle.tags.specs.Plan.{is_whole};
    ghost use Rattle.block_modes.specs.Output.{blocks_out, whole_blocks};
    ghost use Rattle.cipher_ops.specs.Output.{coded};
    ghost use Rattle.whole_outputs.specs.Chains.{made_from, after};

    /// A text from its first block on, under a key of AES: `chain` is the initialization vector of CBC, and not looked at
    /// in ECB.
    pub(crate) fn new(
        cipher: WideAes,
        links: Links,
        seal: bool,
        padded: bool,
        chain: [u8; 16],
    ) -> Chained
        ensures { result ≡ record { cipher = cipher; links = links; seal = seal; padded = padded; chain = chain } }
    {
        Chained {
            cipher,
            links,
            seal,
            padded,
            chain,
        }
    }

    /// How many of so many bytes are in blocks that are out: all whole ones, but where a padding is taken off not a last
    /// one that nothing follows yet.
    pub(crate) fn goes(&self, size: usize) -> usize
        ensures size { result ≡ blocks_out self.now.seal self.now.padded size }
        ensures within { result ≤ size }
        ensures whole { result % 16 ≡ 0 }
    {
        if self.padded && !self.seal && size % 16 == 0 {
            size.saturating_sub(16)
        } else {
            16 * (size / 16)
        }
    }

    /// What comes out for the next whole blocks.
    pub(crate) fn pass(&mut self, alloc: Global, part: &[u8]) -> Result<Vec<u8>, NoMemory>
        ensures made { IfOk result (λ out. out.items ≡ made_from self.old part.now) }
        ensures len { IfOk result (λ out. length out.items ≡ 16 * (length part.now / 16)) }
        ensures state { MatchResult result (λ _. self.new ≡ after self.old part.now) (λ _. self.new ≡ self.old) }
    {
        let (texts, _) = part.as_chunks::<16>();
        let mut made = vec![in alloc; [0u8; 16]; texts.len()]?;
        let next = pass_all(
            &self.cipher,
            self.links,
            self.seal,
            self.chain,
            texts,
            &mut made,
        );
        let out = Vec::from_slice(alloc, made.as_flattened())?;
        self.chain = next;
        Ok(out)
    }

    /// Whether a rest of so many bytes can be the last of a text.
    fn may_end(&self, size: usize) -> bool
        ensures { result ≡ is_whole self.now.seal self.now.padded size }
    {
        let seal = self.seal;
        let padded = self.padded;
        match self.links {
            Links::Apart => Plan::Ecb { seal, padded }.may_end(size as u128),
            Links::Linked => Plan::Cbc { seal, padded }.may_end(size as u128),
        }
    }

    /// What comes out for the rest of the text, or the code of a text that has no output.
    ///
    /// `InvalidInputLength` comes exactly where the rest is no whole blocks, though no padding is added to it, or where it is
    /// empty and a padding is to be taken off; `InvalidKeyArgument` exactly where the last block has no right padding.
    pub(crate) fn end(mut self, alloc: Global, rest: &[u8]) -> Result<Result<Bytes, Code>, NoMemory>
        ensures { IfOk result (λ output. output ≡ coded (whole_blocks self.seal self.padded (made_from self) rest.now)) }
    {
        if !self.may_end(rest.len()) {
            return Ok(Err(Code::InvalidInputLength));
        }
        match (self.seal, self.padded) {
            (true, true) => {
                let text = with_padding(alloc, rest)?;
                Ok(Ok(Bytes::of(self.pass(alloc, &text)?)))
            }
            (false, true) => Ok(without_padding(self.pass(alloc, rest)?)),
            (_, false) => Ok(Ok(Bytes::of(self.pass(alloc, rest)?))),
        }
    }
}
