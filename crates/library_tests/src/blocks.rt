//! Blocks of AES: the vectors that FIPS 197 and SP 800-38A print. Many blocks at once are in `checks/many-blocks.jsonl`.

use aes_core::{AesKey, BlockCipher};
use aes_wide::WideAes;

/// A key, a block, and what it becomes under the key.
type Vector = (&'static [u8], u128, u128);

/// The keys of SP 800-38A, appendix F.1.
const KEY_16: &[u8] = b"\x2b\x7e\x15\x16\x28\xae\xd2\xa6\xab\xf7\x15\x88\x09\xcf\x4f\x3c";

const KEY_24: &[u8] =
    b"\x8e\x73\xb0\xf7\xda\x0e\x64\x52\xc8\x10\xf3\x2b\x80\x90\x79\xe5\x62\xf8\xea\xd2\x52\x2c\x6b\x7b";

const KEY_32: &[u8] =
    b"\x60\x3d\xeb\x10\x15\xca\x71\xbe\x2b\x73\xae\xf0\x85\x7d\x77\x81\x1f\x35\x2c\x07\x3b\x61\x08\xd7\x2d\x98\x10\xa3\x09\x14\xdf\xf4";

static VECTORS: [Vector; 15] = [
    // FIPS 197, appendix C
    (
        b"\x00\x01\x02\x03\x04\x05\x06\x07\x08\x09\x0a\x0b\x0c\x0d\x0e\x0f",
        0x00112233_44556677_8899aabb_ccddeeff,
        0x69c4e0d8_6a7b0430_d8cdb780_70b4c55a,
    ),
    (
        b"\x00\x01\x02\x03\x04\x05\x06\x07\x08\x09\x0a\x0b\x0c\x0d\x0e\x0f\x10\x11\x12\x13\x14\x15\x16\x17",
        0x00112233_44556677_8899aabb_ccddeeff,
        0xdda97ca4_864cdfe0_6eaf70a0_ec0d7191,
    ),
    (
        b"\x00\x01\x02\x03\x04\x05\x06\x07\x08\x09\x0a\x0b\x0c\x0d\x0e\x0f\x10\x11\x12\x13\x14\x15\x16\x17\x18\x19\x1a\x1b\x1c\x1d\x1e\x1f",
        0x00112233_44556677_8899aabb_ccddeeff,
        0x8ea2b7ca_516745bf_eafc4990_4b496089,
    ),
    // SP 800-38A, appendix F.1
    (
        KEY_16,
        0x6bc1bee2_2e409f96_e93d7e11_7393172a,
        0x3ad77bb4_0d7a3660_a89ecaf3_2466ef97,
    ),
    (
        KEY_16,
        0xae2d8a57_1e03ac9c_9eb76fac_45af8e51,
        0xf5d3d585_03b9699d_e785895a_96fdbaaf,
    ),
    (
        KEY_16,
        0x30c81c46_a35ce411_e5fbc119_1a0a52ef,
        0x43b1cd7f_598ece23_881b00e3_ed030688,
    ),
    (
        KEY_16,
        0xf69f2445_df4f9b17_ad2b417b_e66c3710,
        0x7b0c785e_27e8ad3f_82232071_04725dd4,
    ),
    (
        KEY_24,
        0x6bc1bee2_2e409f96_e93d7e11_7393172a,
        0xbd334f1d_6e45f25f_f712a214_571fa5cc,
    ),
    (
        KEY_24,
        0xae2d8a57_1e03ac9c_9eb76fac_45af8e51,
        0x97410484_6d0ad3ad_7734ecb3_ecee4eef,
    ),
    (
        KEY_24,
        0x30c81c46_a35ce411_e5fbc119_1a0a52ef,
        0xef7afd22_70e2e60a_dce0ba2f_ace6444e,
    ),
    (
        KEY_24,
        0xf69f2445_df4f9b17_ad2b417b_e66c3710,
        0x9a4b41ba_738d6c72_fb166916_03c18e0e,
    ),
    (
        KEY_32,
        0x6bc1bee2_2e409f96_e93d7e11_7393172a,
        0xf3eed1bd_b5d2a03c_064b5a7e_3db181f8,
    ),
    (
        KEY_32,
        0xae2d8a57_1e03ac9c_9eb76fac_45af8e51,
        0x591ccb10_d410ed26_dc5ba74a_31362870,
    ),
    (
        KEY_32,
        0x30c81c46_a35ce411_e5fbc119_1a0a52ef,
        0xb6ed21b9_9ca6f4f9_f153e7b1_beafed1d,
    ),
    (
        KEY_32,
        0xf69f2445_df4f9b17_ad2b417b_e66c3710,
        0x23304b7a_39f9f3ff_067d8d8f_9e24ecc7,
    ),
];

/// Whether a block becomes this one, and back, one by one and beside others.
fn goes_both_ways(vector: &Vector) -> bool {
    let (key, text, cipher) = vector;
    let plain = match AesKey::new(key) {
        Some(key) => goes(&key, *text, *cipher),
        None => false,
    };
    match WideAes::new(key) {
        Some(key) => goes(&key, *text, *cipher) && plain,
        None => false,
    }
}

/// Whether a cipher makes the one block of the other, and back.
fn goes<C: BlockCipher>(key: &C, text: u128, cipher: u128) -> bool {
    let (text, cipher) = (text.to_be_bytes(), cipher.to_be_bytes());
    key.encrypt(text) == cipher && key.decrypt(cipher) == text
}

#[test]
fn the_vectors_of_fips_197_and_sp_800_38a_both_ways(rt: HostRuntime) {
    for (row, vector) in VECTORS.iter().enumerate() {
        let right = goes_both_ways(vector);
        assert!(rt; right, "in row {row}");
    }
}

#[test]
fn other_sizes_are_no_keys(rt: HostRuntime) {
    let bytes = [0; 40];
    let mut other = None;
    for size in 0..41usize {
        let is_size = size == 16 || size == 24 || size == 32;
        let plain = AesKey::new(&bytes[..size]).is_some();
        let wide = WideAes::new(&bytes[..size]).is_some();
        if (plain, wide) != (is_size, is_size) {
            other = Some(size);
        }
    }
    assert_eq!(rt; other, None);
}
