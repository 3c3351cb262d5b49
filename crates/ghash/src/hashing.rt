//! The functions of GHASH (SP 800-38D section 6.4).

ghost use Rattle.std.specs.Prelude.{◌≡◌, ℕ, List, [], ◌∷◌, ◌++◌, ◌%◌, ◌≤◌, length};
ghost use Rattle.ghash.specs.Chains.{repeated};
ghost use Rattle.ghash.specs.Hash.{Holds, ghash};

use crate::chains::{hash_of_groups, power_16};
use crate::field::{block_of, element};
use crate::state::Ghash;
use crate::table::{product_by, products_with};

/// From how many blocks on the chains are worth their tables, and the power of the subkey besides, as measured.
const MANY: usize = 32;

const MANY_AT_FIRST: usize = 48;

impl Ghash {
    /// GHASH of no blocks, under the hash subkey `h`: 16 bytes, in GCM the block cipher of 16 zero bytes.
    #[tactic(auto, unfolding(crate::specs::Hash::Holds))]
    pub fn new(h: [u8; 16]) -> Ghash
        ensures { Holds result h [] }
    {
        let subkey = element(h);
        Ghash {
            subkey,
            table: products_with(subkey),
            sum: 0,
            power: None,
        }
    }

    /// Takes the next block of 16 bytes.
    #[tactic(auto, using(crate::proofs::Steps::holds_more))]
    pub fn absorb(&mut self, block: [u8; 16])
        ensures { (h : List ℕ) (blocks : List (List ℕ)) → Holds self.old h blocks → Holds self.new h (blocks ++ block ∷ []) }
    {
        self.sum = product_by(&self.table, self.sum ^ element(block));
    }

    /// Takes a few blocks, one by one.
    fn absorb_each(&mut self, blocks: &[[u8; 16]])
        ensures { (h : List ℕ) (before : List (List ℕ)) → Holds self.old h before → Holds self.new h (before ++ blocks.now) }
    {
        'each: for block in blocks {
            self.absorb(*block);
        }
    }

    /// The subkey to the power 16, as it was kept or made now.
    fn raised(&self) -> u128
        ensures { result ≡ repeated self.now.subkey 15 self.now.subkey }
    {
        match self.power {
            Some(power) => power,
            None => power_16(&self.table, self.subkey),
        }
    }

    /// Takes whole groups of sixteen blocks.
    fn absorb_groups(&mut self, groups: &[[u8; 16]])
        requires some { 16 ≤ length groups.now }
        requires whole { length groups.now % 16 ≡ 0 }
        ensures { (h : List ℕ) (before : List (List ℕ)) → Holds self.old h before → Holds self.new h (before ++ groups.now) }
    {
        let power = self.raised();
        self.power = Some(power);
        self.sum = hash_of_groups(&self.table, self.subkey, power, self.sum, groups);
    }

    /// Takes the next blocks, in their order.
    pub fn absorb_all(&mut self, blocks: &[[u8; 16]])
        ensures { (h : List ℕ) (before : List (List ℕ)) → Holds self.old h before → Holds self.new h (before ++ blocks.now) }
    {
        let least = if self.power.is_some() {
            MANY
        } else {
            MANY_AT_FIRST
        };
        if blocks.len() < least {
            self.absorb_each(blocks);
            return;
        }
        let (groups, rest) = blocks.split_at(blocks.len() / 16 * 16);
        self.absorb_groups(groups);
        self.absorb_each(rest);
    }

    /// The hash of the blocks so far, 16 bytes.
    #[tactic(auto, unfolding(crate::specs::Hash::Holds))]
    pub fn value(&self) -> [u8; 16]
        ensures { (h : List ℕ) (blocks : List (List ℕ)) → Holds self.now h blocks → result ≡ ghash h blocks }
    {
        block_of(self.sum)
    }
}
