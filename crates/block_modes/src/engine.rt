//! The streaming engine: it gathers blocks and lets each through the mode.

ghost use Rattle.std.specs.Prelude.{◌≡◌, ℕ, ◌+◌, ◌*◌, ◌<◌, ◌≤◌, true, List, [], ◌++◌, length, take, drop};
ghost use Rattle.std.specs.List.{concat};
ghost use Rattle.block_modes.specs.Steps.{is_counter, holds_back};

use crate::fault::ModeFault;
use crate::lanes::pass_all;
use crate::padding::text_size;
use crate::partial::Partial;
use crate::step::step;
use aes_core::ManyBlocks;
use tags::Plan;

/// A text in ECB, CBC or CTR (SP 800-38A section 6), as far as it has come.
///
/// `Holds` says which text: under the functions that the cipher is of a block, with a plan, a nonce and the bytes so far.
#[derive(Drop)]
pub struct Blocks<C> {
    cipher: C,
    plan: Plan,
    chain: [u8; 16],
    held: Partial,
}

/// Puts the bytes into `out` at `at`, and says where they end.
fn put(out: &mut [u8], at: usize, bytes: &[u8]) -> usize
    requires { at + length bytes.now ≤ length out.old }
    ensures front { take result out.new ≡ take at out.old ++ bytes.now }
    ensures rest { drop result out.new ≡ drop result out.old }
    ensures count { result ≡ at + length bytes.now }
{
    let end = at + bytes.len();
    out[at..end].copy_from_slice(bytes);
    end
}

/// Puts the blocks into `out` from `at` on, and says where they end.
fn put_blocks(out: &mut [u8], at: usize, blocks: &[[u8; 16]]) -> usize
    requires { at + 16 * length blocks.now ≤ length out.old }
    ensures front { take result out.new ≡ take at out.old ++ concat blocks.now }
    ensures rest { drop result out.new ≡ drop result out.old }
    ensures count { result ≡ at + 16 * length blocks.now }
{
    put(out, at, blocks.as_flattened())
}

impl<C: ManyBlocks + Drop> Blocks<C> {
    ghost use Rattle.std.specs.Prelude.{◌≡◌, ℕ, ◌+◌, ◌*◌, ◌<◌, ◌≤◌, true, false, List, [], ◌++◌, length, take, drop, MatchResult, IfOk, Ok, Err};
    ghost use Rattle.tags.specs.declared.plan.Plan.{Plan};
    ghost use Rattle.block_modes.specs.Texts.{xor_bytes};
    ghost use Rattle.block_modes.specs.Output.{is_served, raw, front, whole};
    ghost use Rattle.block_modes.specs.Steps.{is_counter, holds_back};
    ghost use Rattle.block_modes.specs.Holds.{Going, IsLazy, shown, Settled, Holds, out_of, after_block, outs_of, after_blocks, Gives, Finishes, last};

    /// The empty text under a cipher, a plan of ECB, CBC or CTR, and a nonce of 16 bytes: the initialization vector of CBC,
    /// the first counter block of CTR, and not looked at in ECB.
    pub fn new(cipher: C, plan: Plan, nonce: [u8; 16]) -> Blocks<C>
        requires { is_served plan ≡ true }
        ensures { Holds C.cipher C.inverse result (C.cipher cipher) (C.inverse cipher) plan nonce [] }
    {
        Blocks {
            cipher,
            plan,
            chain: nonce,
            held: Partial::new(),
        }
    }

    fn is_counter(&self) -> bool
        ensures { result ≡ is_counter self.now.plan }
    {
        match self.plan {
            Plan::Ctr => true,
            _ => false,
        }
    }

    /// How many bytes of the block that is held are out.
    fn shown(&self) -> usize
        ensures out { result ≡ shown self.now.plan (length self.now.held) }
        ensures part { result ≤ length self.now.held }
        ensures room { length self.now.held ≤ 16 }
    {
        let size = self.held.len();
        if self.is_counter() { size } else { 0 }
    }

    fn holds_back(&self) -> bool
        ensures { result ≡ holds_back self.now.plan }
    {
        match self.plan {
            Plan::Ecb { seal, padded } => padded && !seal,
            Plan::Cbc { seal, padded } => padded && !seal,
            _ => false,
        }
    }

    /// Lets the block that is held through, and puts what comes out without its first `skip` bytes.
    fn let_through(&mut self, out: &mut [u8], at: usize, skip: usize) -> usize
        requires full { length self.old.held ≡ 16 }
        requires part { skip ≤ 16 }
        requires room { at + 16 ≤ length out.old + skip }
        ensures state { self.new ≡ after_block C.cipher C.inverse self.old }
        ensures size { length (out_of C.cipher C.inverse self.old self.old.held) ≡ 16 }
        ensures front { take result out.new ≡ take at out.old ++ drop skip (out_of C.cipher C.inverse self.old self.old.held) }
        ensures rest { drop result out.new ≡ drop result out.old }
        ensures count { result + skip ≡ at + 16 }
    {
        let (made, chain) = step(&self.cipher, self.plan, self.chain, self.held.block());
        self.chain = chain;
        self.held.clear();
        put(out, at, &made[skip..])
    }

    /// Puts what comes out for the part of a block that is held, without its first `skip` bytes.
    fn show(&self, out: &mut [u8], at: usize, skip: usize) -> usize
        requires counter { is_counter self.now.plan ≡ true }
        requires part { skip ≤ length self.now.held }
        requires room { at + length self.now.held ≤ length out.old + skip }
        ensures front { take result out.new ≡ take at out.old ++ drop skip (xor_bytes self.now.held (C.cipher self.now.cipher self.now.chain)) }
        ensures size { length (xor_bytes self.now.held (C.cipher self.now.cipher self.now.chain)) ≡ length self.now.held }
        ensures rest { drop result out.new ≡ drop result out.old }
        ensures count { result + skip ≡ at + length self.now.held }
    {
        let (made, _) = step(&self.cipher, self.plan, self.chain, self.held.block());
        put(out, at, &made[skip..self.held.len()])
    }

    /// Puts what is out at the end of a piece: a whole block that does not wait, or the part of a block in CTR.
    fn settle(&mut self, out: &mut [u8], at: usize, skip: usize) -> usize
        requires part { skip ≤ length self.old.held }
        requires room { at + length self.old.held ≤ length out.old }
        ensures holds { (cipher inverse : List ℕ → List ℕ) (plan : Plan) (nonce text before : List ℕ) →
            Going C.cipher C.inverse self.old cipher inverse plan nonce text skip (before ++ take at out.old) → IsLazy plan text self.old.held →
            Settled C.cipher C.inverse self.new cipher inverse plan nonce text (before ++ take result out.new) }
        ensures rest { drop result out.new ≡ drop result out.old }
        ensures within { at ≤ result }
        ensures count { result + skip ≤ at + length self.old.held }
    {
        let size = self.held.len();
        if size == 16 && !self.holds_back() {
            return self.let_through(out, at, skip);
        }
        if self.is_counter() {
            return self.show(out, at, skip);
        }
        at
    }

    /// Lets a whole block through before more is held, and says where the output ends and how much of the next block is out.
    fn make_room(&mut self, out: &mut [u8], at: usize, skip: usize) -> (usize, usize)
        requires part { skip ≤ length self.old.held }
        requires room { at + length self.old.held ≤ length out.old }
        ensures goes { (cipher inverse : List ℕ → List ℕ) (plan : Plan) (nonce text before : List ℕ) →
            Going C.cipher C.inverse self.old cipher inverse plan nonce text skip (before ++ take at out.old) →
            Going C.cipher C.inverse self.new cipher inverse plan nonce text result.1 (before ++ take result.0 out.new) }
        ensures part { result.1 ≤ length self.new.held }
        ensures space { length self.new.held < 16 }
        ensures rest { drop result.0 out.new ≡ drop result.0 out.old }
        ensures count { result.0 + length self.new.held ≤ at + length self.old.held }
        ensures within { at ≤ result.0 }
    {
        if self.held.len() == 16 {
            (self.let_through(out, at, skip), 0)
        } else {
            (at, skip)
        }
    }

    /// How many whole blocks of an input can go through before its last bytes are held.
    fn whole_blocks(&self, size: usize) -> usize
        ensures within { 16 * result ≤ size }
        ensures behind { holds_back self.now.plan ≡ true → 0 < size → 16 * result < size }
    {
        if self.holds_back() {
            size.saturating_sub(1) / 16
        } else {
            size / 16
        }
    }

    /// Lets at most 64 blocks through, and puts what comes out.
    fn pass(&mut self, texts: &[[u8; 16]], out: &mut [u8], at: usize) -> usize
        requires few { length texts.now ≤ 64 }
        requires room { at + 16 * length texts.now ≤ length out.old }
        ensures state { self.new ≡ after_blocks C.cipher C.inverse self.old texts.now }
        ensures front { take result out.new ≡ take at out.old ++ outs_of C.cipher C.inverse self.old texts.now }
        ensures rest { drop result out.new ≡ drop result out.old }
        ensures count { result ≡ at + 16 * length texts.now }
    {
        let mut room = [[0u8; 16]; 64];
        let made = &mut room[..texts.len()];
        self.chain = pass_all(&self.cipher, self.plan, self.chain, texts, made);
        put_blocks(out, at, made)
    }

    /// Lets blocks through while none is held, 64 at a time, and puts what comes out.
    fn run(&mut self, texts: &[[u8; 16]], out: &mut [u8], at: usize) -> usize
        requires room { at + 16 * length texts.now ≤ length out.old }
        ensures state { self.new ≡ after_blocks C.cipher C.inverse self.old texts.now }
        ensures front { take result out.new ≡ take at out.old ++ outs_of C.cipher C.inverse self.old texts.now }
        ensures rest { drop result out.new ≡ drop result out.old }
        ensures count { result ≡ at + 16 * length texts.now }
    {
        let mut end = at;
        let mut done = 0;
        'groups: while done < texts.len() {
            let count = (texts.len() - done).min(64);
            end = self.pass(&texts[done..done + count], out, end);
            done += count;
        }
        end
    }

    /// Lets a whole block through before more is held, and where none is held then, the next blocks, if they are eight or
    /// more. Says where the output ends, how much of the next block is out, and how much of the input went through.
    fn make_way(
        &mut self,
        input: &[u8],
        out: &mut [u8],
        at: usize,
        skip: usize,
    ) -> (usize, usize, usize)
        requires part { skip ≤ length self.old.held }
        requires room { at + length self.old.held + length input.now ≤ length out.old }
        ensures goes { (cipher inverse : List ℕ → List ℕ) (plan : Plan) (nonce text before : List ℕ) →
            Going C.cipher C.inverse self.old cipher inverse plan nonce text skip (before ++ take at out.old) →
            Going C.cipher C.inverse self.new cipher inverse plan nonce (text ++ take result.2 input.now) result.1 (before ++ take result.0 out.new) }
        ensures part { result.1 ≤ length self.new.held }
        ensures space { length self.new.held < 16 }
        ensures rest { drop result.0 out.new ≡ drop result.0 out.old }
        ensures count { result.0 + length self.new.held ≤ at + length self.old.held + result.2 }
        ensures within { at ≤ result.0 }
        ensures taken { result.2 ≤ length input.now }
        ensures behind { holds_back self.new.plan ≡ true → 0 < length input.now → result.2 < length input.now }
    {
        let (end, part) = self.make_room(out, at, skip);
        let count = self.whole_blocks(input.len());
        if self.held.len() != 0 || count < 8 {
            return (end, part, 0);
        }
        let (blocks, _) = input.as_chunks::<16>();
        (self.run(&blocks[..count], out, end), 0, 16 * count)
    }

    /// Takes the next piece of the text, puts the bytes that are out by now at the front of `out`, and says how many.
    ///
    /// `out` has room for 16 bytes more than the piece; what stands behind the bytes stays. After CTR all bytes are out,
    /// after the other modes all whole blocks, but where a padded text is opened not the last one while nothing follows it.
    pub fn update(&mut self, input: &[u8], out: &mut [u8]) -> usize
        requires { length input.now + 16 ≤ length out.old }
        ensures holds { (cipher inverse : List ℕ → List ℕ) (plan : Plan) (nonce text : List ℕ) →
            Holds C.cipher C.inverse self.old cipher inverse plan nonce text →
            Holds C.cipher C.inverse self.new cipher inverse plan nonce (text ++ input.now) }
        ensures gives { (cipher inverse : List ℕ → List ℕ) (plan : Plan) (nonce text : List ℕ) →
            Holds C.cipher C.inverse self.old cipher inverse plan nonce text →
            Gives (raw cipher inverse plan nonce) (front plan) text (text ++ input.now) (take result out.new) }
        ensures rest { drop result out.new ≡ drop result out.old }
        ensures room { result ≤ length input.now + 16 }
    {
        let mut rest = input;
        let mut at = 0;
        let mut skip = self.shown();
        'pieces: while !rest.is_empty() {
            let (end, part, passed) = self.make_way(rest, out, at, skip);
            at = end;
            skip = part;
            rest = &rest[passed..];
            let taken = self.held.fill(rest);
            rest = &rest[taken..];
        }
        self.settle(out, at, skip)
    }

    /// Puts what the end of the text adds in a mode of blocks, sealing or opening, with a padding or without one.
    fn complete(&self, seal: bool, padded: bool, out: &mut [u8]) -> Result<usize, ModeFault>
        requires { 16 ≤ length out.old }
        ensures last { (seal ≡ true → length self.now.held < 16) →
            MatchResult result (λ n. last C.cipher C.inverse self.now seal padded ≡ Ok (take n out.new)) (λ fault. last C.cipher C.inverse self.now seal padded ≡ Err fault) }
        ensures size { seal ≡ false → padded ≡ true → length self.now.held ≡ 16 → length (out_of C.cipher C.inverse self.now self.now.held) ≡ 16 }
        ensures rest { MatchResult result (λ n. drop n out.new ≡ drop n out.old) (λ _. out.new ≡ out.old) }
        ensures room { IfOk result (λ n. n ≤ 16) }
    {
        if !padded {
            return if self.held.len() == 0 {
                Ok(0)
            } else {
                Err(ModeFault::Length)
            };
        }
        if seal {
            let (made, _) = step(&self.cipher, self.plan, self.chain, self.held.padded());
            return Ok(put(out, 0, &made));
        }
        if self.held.len() != 16 {
            return Err(ModeFault::Length);
        }
        let (made, _) = step(&self.cipher, self.plan, self.chain, self.held.block());
        match text_size(&made) {
            Some(size) => Ok(put(out, 0, &made[..size])),
            None => Err(ModeFault::Padding),
        }
    }

    /// Ends the text: puts the bytes that are not out yet at the front of `out`, which has room for 16, and says how many.
    ///
    /// `Length` comes exactly where the length of the text is no multiple of 16, or where a padded text to be opened is empty
    /// (sealing with a padding and CTR take every length), and `Padding` exactly where the last block has no right padding.
    /// Nothing is put then.
    pub fn finish(self, out: &mut [u8]) -> Result<usize, ModeFault>
        requires { 16 ≤ length out.old }
        ensures gives { (cipher inverse : List ℕ → List ℕ) (plan : Plan) (nonce text : List ℕ) →
            Holds C.cipher C.inverse self cipher inverse plan nonce text →
            Finishes (whole cipher inverse plan nonce text) (take (front plan text) (raw cipher inverse plan nonce text)) result out.new }
        ensures rest { MatchResult result (λ n. drop n out.new ≡ drop n out.old) (λ _. out.new ≡ out.old) }
        ensures room { IfOk result (λ n. n ≤ 16) }
    {
        match self.plan {
            Plan::Ecb { seal, padded } => self.complete(seal, padded, out),
            Plan::Cbc { seal, padded } => self.complete(seal, padded, out),
            _ => Ok(0),
        }
    }
}
