//! The values of the tags, after the names of Android's AIDL documents of the same names.

ghost use Rattle.std.specs.Prelude.{◌≡◌};
ghost use Rattle.tags.specs.Values as spec;

/// PURPOSE: to encrypt.
pub const ENCRYPT: u64 = 0;
/// PURPOSE: to decrypt.
pub const DECRYPT: u64 = 1;
/// PURPOSE: to give a mac.
pub const SIGN: u64 = 2;
/// PURPOSE: to compare a mac.
pub const VERIFY: u64 = 3;
/// PURPOSE: to open keys that come in wrapped.
pub const WRAP_KEY: u64 = 5;

/// ALGORITHM: AES (FIPS 197).
pub const AES: u64 = 32;
/// ALGORITHM: HMAC (FIPS 198-1).
pub const HMAC: u64 = 128;

/// BLOCK_MODE: ECB (SP 800-38A section 6.1).
pub const ECB: u64 = 1;
/// BLOCK_MODE: CBC (SP 800-38A section 6.2).
pub const CBC: u64 = 2;
/// BLOCK_MODE: CTR (SP 800-38A section 6.5).
pub const CTR: u64 = 3;
/// BLOCK_MODE: GCM (SP 800-38D).
pub const GCM: u64 = 32;

/// PADDING: none.
pub const UNPADDED: u64 = 1;
/// PADDING: that of PKCS #7 (RFC 5652 section 6.3).
pub const PKCS7: u64 = 64;

/// DIGEST: SHA-224 (FIPS 180-4).
pub const SHA_224: u64 = 3;
/// DIGEST: SHA-256 (FIPS 180-4).
pub const SHA_256: u64 = 4;
/// DIGEST: SHA-384 (FIPS 180-4).
pub const SHA_384: u64 = 5;
/// DIGEST: SHA-512 (FIPS 180-4).
pub const SHA_512: u64 = 6;

/// ORIGIN: the service drew the key.
pub const GENERATED: u64 = 0;
/// ORIGIN: the caller gave the key.
pub const IMPORTED: u64 = 2;
/// ORIGIN: the key came in wrapped under another one.
pub const SECURELY_IMPORTED: u64 = 4;

/// The format of an imported key whose material is its bytes.
pub const RAW: u32 = 3;

/// The values of PURPOSE that AES takes here.
pub const AES_PURPOSES: [u64; 2] = [ENCRYPT, DECRYPT];
/// The values of PURPOSE that HMAC takes here.
pub const HMAC_PURPOSES: [u64; 2] = [SIGN, VERIFY];
/// The values of BLOCK_MODE that AES takes here.
pub const MODES: [u64; 4] = [ECB, CBC, CTR, GCM];
/// The values of PADDING that AES takes here.
pub const PADDINGS: [u64; 2] = [UNPADDED, PKCS7];
/// The values of DIGEST that HMAC takes here.
pub const DIGESTS: [u64; 4] = [SHA_224, SHA_256, SHA_384, SHA_512];

/// Whether the number is one of these. It takes no memory.
pub fn one_in(numbers: &[u64], number: u64) -> bool
    ensures { result ≡ spec.one_in numbers.now number }
{
    numbers.iter().any(|own| number == *own)
}

/// Whether so many bits are whole bytes, from the least to the most bits. It takes no memory.
pub fn is_whole_bytes(least: u64, most: u64, bits: u64) -> bool
    ensures { result ≡ spec.is_whole_bytes least most bits }
{
    least <= bits && bits <= most && bits % 8 == 0
}

/// The bits of a digest of `DIGESTS` (FIPS 180-4 section 1), and 0 for every other value. It takes no memory.
pub fn digest_bits(digest: u64) -> u64
    ensures { result ≡ spec.digest_bits digest }
{
    match digest {
        SHA_224 => 224,
        SHA_256 => 256,
        SHA_384 => 384,
        SHA_512 => 512,
        _ => 0,
    }
}
