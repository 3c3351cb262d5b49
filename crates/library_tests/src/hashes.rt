//! Vectors of GHASH, also by the product bit by bit. Many blocks at once are in `checks/many-blocks.jsonl`.

use ghash::{Ghash, element, product};

// The hash subkey, the blocks and the hash of each test case.
struct Case {
    subkey: u128,
    blocks: &'static [u128],
    value: u128,
}

// Test cases 1 to 6 and 13 to 18 of the GCM specification (McGrew and Viega, appendix B).
static CASES: [Case; 12] = [
    // case 1
    Case {
        subkey: 0x66e94bd4_ef8a2c3b_884cfa59_ca342b2e,
        blocks: &[0x00000000_00000000_00000000_00000000],
        value: 0x00000000_00000000_00000000_00000000,
    },
    // case 2
    Case {
        subkey: 0x66e94bd4_ef8a2c3b_884cfa59_ca342b2e,
        blocks: &[
            0x0388dace_60b6a392_f328c2b9_71b2fe78,
            0x00000000_00000000_00000000_00000080,
        ],
        value: 0xf38cbb1a_d69223dc_c3457ae5_b6b0f885,
    },
    // case 3
    Case {
        subkey: 0xb83b5337_08bf535d_0aa6e529_80d53b78,
        blocks: &[
            0x42831ec2_21777424_4b7221b7_84d0d49c,
            0xe3aa212f_2c02a4e0_35c17e23_29aca12e,
            0x21d514b2_5466931c_7d8f6a5a_ac84aa05,
            0x1ba30b39_6a0aac97_3d58e091_473f5985,
            0x00000000_00000000_00000000_00000200,
        ],
        value: 0x7f1b32b8_1b820d02_614f8895_ac1d4eac,
    },
    // case 4
    Case {
        subkey: 0xb83b5337_08bf535d_0aa6e529_80d53b78,
        blocks: &[
            0xfeedface_deadbeef_feedface_deadbeef,
            0xabaddad2_00000000_00000000_00000000,
            0x42831ec2_21777424_4b7221b7_84d0d49c,
            0xe3aa212f_2c02a4e0_35c17e23_29aca12e,
            0x21d514b2_5466931c_7d8f6a5a_ac84aa05,
            0x1ba30b39_6a0aac97_3d58e091_00000000,
            0x00000000_000000a0_00000000_000001e0,
        ],
        value: 0x698e57f7_0e6ecc7f_d9463b72_60a9ae5f,
    },
    // case 5
    Case {
        subkey: 0xb83b5337_08bf535d_0aa6e529_80d53b78,
        blocks: &[
            0xfeedface_deadbeef_feedface_deadbeef,
            0xabaddad2_00000000_00000000_00000000,
            0x61353b4c_2806934a_777ff51f_a22a4755,
            0x699b2a71_4fcdc6f8_3766e5f9_7b6c7423,
            0x73806900_e49f24b2_2b097544_d4896b42,
            0x4989b5e1_ebac0f07_c23f4598_00000000,
            0x00000000_000000a0_00000000_000001e0,
        ],
        value: 0xdf586bb4_c249b92c_b6922877_e444d37b,
    },
    // case 6
    Case {
        subkey: 0xb83b5337_08bf535d_0aa6e529_80d53b78,
        blocks: &[
            0xfeedface_deadbeef_feedface_deadbeef,
            0xabaddad2_00000000_00000000_00000000,
            0x8ce24998_625615b6_03a033ac_a13fb894,
            0xbe9112a5_c3a211a8_ba262a3c_ca7e2ca7,
            0x01e4a9a4_fba43c90_ccdcb281_d48c7c6f,
            0xd62875d2_aca41703_4c34aee5_00000000,
            0x00000000_000000a0_00000000_000001e0,
        ],
        value: 0x1c5afe97_60d3932f_3c9a878a_ac3dc3de,
    },
    // case 13
    Case {
        subkey: 0xdc95c078_a2408989_ad48a214_92842087,
        blocks: &[0x00000000_00000000_00000000_00000000],
        value: 0x00000000_00000000_00000000_00000000,
    },
    // case 14
    Case {
        subkey: 0xdc95c078_a2408989_ad48a214_92842087,
        blocks: &[
            0xcea7403d_4d606b6e_074ec5d3_baf39d18,
            0x00000000_00000000_00000000_00000080,
        ],
        value: 0x83de425c_5edc5d49_8f382c44_1041ca92,
    },
    // case 15
    Case {
        subkey: 0xacbef205_79b4b8eb_ce889bac_8732dad7,
        blocks: &[
            0x522dc1f0_99567d07_f47f37a3_2a84427d,
            0x643a8cdc_bfe5c0c9_7598a2bd_2555d1aa,
            0x8cb08e48_590dbb3d_a7b08b10_56828838,
            0xc5f61e63_93ba7a0a_bcc9f662_898015ad,
            0x00000000_00000000_00000000_00000200,
        ],
        value: 0x4db870d3_7cb75fcb_46097c36_230d1612,
    },
    // case 16
    Case {
        subkey: 0xacbef205_79b4b8eb_ce889bac_8732dad7,
        blocks: &[
            0xfeedface_deadbeef_feedface_deadbeef,
            0xabaddad2_00000000_00000000_00000000,
            0x522dc1f0_99567d07_f47f37a3_2a84427d,
            0x643a8cdc_bfe5c0c9_7598a2bd_2555d1aa,
            0x8cb08e48_590dbb3d_a7b08b10_56828838,
            0xc5f61e63_93ba7a0a_bcc9f662_00000000,
            0x00000000_000000a0_00000000_000001e0,
        ],
        value: 0x8bd0c4d8_aacd391e_67cca447_e8c38f65,
    },
    // case 17
    Case {
        subkey: 0xacbef205_79b4b8eb_ce889bac_8732dad7,
        blocks: &[
            0xfeedface_deadbeef_feedface_deadbeef,
            0xabaddad2_00000000_00000000_00000000,
            0xc3762df1_ca787d32_ae47c13b_f19844cb,
            0xaf1ae14d_0b976afa_c52ff7d7_9bba9de0,
            0xfeb582d3_3934a4f0_954cc236_3bc73f78,
            0x62ac430e_64abe499_f47c9b1f_00000000,
            0x00000000_000000a0_00000000_000001e0,
        ],
        value: 0x75a34288_b8c68f81_1c52b2e9_a2f97f63,
    },
    // case 18
    Case {
        subkey: 0xacbef205_79b4b8eb_ce889bac_8732dad7,
        blocks: &[
            0xfeedface_deadbeef_feedface_deadbeef,
            0xabaddad2_00000000_00000000_00000000,
            0x5a8def2f_0c9e53f1_f75d7853_659e2a20,
            0xeeb2b22a_afde6419_a058ab4f_6f746bf4,
            0x0fc0c3b7_80f24445_2da3ebf1_c5d82cde,
            0xa2418997_200ef82e_44ae7e3f_00000000,
            0x00000000_000000a0_00000000_000001e0,
        ],
        value: 0xd5ffcf6f_c5ac4d69_72218742_1a7f170b,
    },
];

// The hash of blocks, one after another.
fn in_turn(subkey: u128, blocks: &[u128]) -> u128 {
    let mut hash = Ghash::new(subkey.to_be_bytes());
    for block in blocks {
        hash.absorb(block.to_be_bytes());
    }
    u128::from_be_bytes(hash.value())
}

// The same, bit by bit.
fn bit_by_bit(subkey: u128, blocks: &[u128]) -> u128 {
    let mut sum = 0;
    for block in blocks {
        sum = product(sum ^ element(block.to_be_bytes()), subkey);
    }
    sum
}

#[test]
fn hashes_the_blocks_of_the_gcm_specification(rt: HostRuntime) {
    for (row, case) in CASES.iter().enumerate() {
        let value = in_turn(case.subkey, case.blocks);
        let wanted = bit_by_bit(case.subkey, case.blocks);
        assert!(rt; (value, wanted) == (case.value, case.value), "in row {row}");
    }
}
