//! The state of GHASH (SP 800-38D section 6.4). Its functions stand in hashing.rt: the struct has a ghost field, and what
//! this file names may not name the struct.

ghost use Rattle.ghash.specs.Tables.{IsProducts};
ghost use Rattle.ghash.specs.Chains.{IsRaised};

/// GHASH of the blocks that were absorbed so far (SP 800-38D section 6.4). It takes no memory.
#[derive(Drop)]
pub struct Ghash {
    pub(crate) subkey: u128,
    pub(crate) table: [u128; 16],
    pub(crate) sum: u128,
    /// the subkey to the power 16, once it was needed
    pub(crate) power: Option<u128>,
    ghost keyed: { IsProducts table subkey },
    ghost raised: { IsRaised power subkey },
}
