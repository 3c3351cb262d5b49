//! What a mode of operation asks of a block cipher.

ghost use Rattle.std.specs.Prelude.{◌≡◌, ℕ, List, map};
ghost use Rattle.aes_core.specs.Block.{IsBlock};

/// A block cipher under one key: two functions on blocks of 16 bytes, each of which undoes the other.
///
/// `cipher` and `inverse` say what the calls make of a block, as lists of bytes. The laws say that both
/// send blocks to blocks, and that each undoes the other.
pub trait BlockCipher {
    ghost cipher: { Self → List ℕ → List ℕ };

    ghost inverse: { Self → List ℕ → List ℕ };

    /// The cipher of a block.
    fn encrypt(&self, block: [u8; 16]) -> [u8; 16]
        ensures { result ≡ cipher self.now block };

    /// The inverse cipher of a block.
    fn decrypt(&self, block: [u8; 16]) -> [u8; 16]
        ensures { result ≡ inverse self.now block };

    ghost cipher_keeps: { (key : Self) (block : List ℕ) → IsBlock block → IsBlock (cipher key block) };

    ghost inverse_keeps: { (key : Self) (block : List ℕ) → IsBlock block → IsBlock (inverse key block) };

    ghost undoes: { (key : Self) (block : List ℕ) → IsBlock block → inverse key (cipher key block) ≡ block };

    ghost redoes: { (key : Self) (block : List ℕ) → IsBlock block → cipher key (inverse key block) ≡ block };
}

/// A block cipher that takes many blocks in one call, so that it can work on several at a time.
pub trait ManyBlocks: BlockCipher {
    /// Each block becomes the cipher of it.
    fn encrypt_all(&self, blocks: &mut [[u8; 16]])
        ensures { blocks.new ≡ map (Self.cipher self.now) blocks.old };

    /// Each block becomes the inverse cipher of it.
    fn decrypt_all(&self, blocks: &mut [[u8; 16]])
        ensures { blocks.new ≡ map (Self.inverse self.now) blocks.old };
}
