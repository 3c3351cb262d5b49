//! Outputs on whole texts: published vectors, each with its text cut in two at every place and in pieces of every size, with and
//! without a use limit.

ghost use Rattle.std.specs.Prelude.{◌<◌};

use std::alloc::Global;
use tags::{Bytes, Code, Plan};
use whole_outputs::Carried;

const KEY_128: [u8; 16] = *b"\x2b\x7e\x15\x16\x28\xae\xd2\xa6\xab\xf7\x15\x88\x09\xcf\x4f\x3c";

const KEY_256: [u8; 32] =
    *b"\x60\x3d\xeb\x10\x15\xca\x71\xbe\x2b\x73\xae\xf0\x85\x7d\x77\x81\x1f\x35\x2c\x07\x3b\x61\x08\xd7\x2d\x98\x10\xa3\x09\x14\xdf\xf4";

/// The initialization vector of CBC; and the key of the blocks that end in no padding.
const VECTOR: [u8; 16] = *b"\x00\x01\x02\x03\x04\x05\x06\x07\x08\x09\x0a\x0b\x0c\x0d\x0e\x0f";

const COUNTER: [u8; 16] = *b"\xf0\xf1\xf2\xf3\xf4\xf5\xf6\xf7\xf8\xf9\xfa\xfb\xfc\xfd\xfe\xff";

const BLOCKS: [u8; 64] =
    *b"\x6b\xc1\xbe\xe2\x2e\x40\x9f\x96\xe9\x3d\x7e\x11\x73\x93\x17\x2a\xae\x2d\x8a\x57\x1e\x03\xac\x9c\x9e\xb7\x6f\xac\x45\xaf\x8e\x51\x30\xc8\x1c\x46\xa3\x5c\xe4\x11\xe5\xfb\xc1\x19\x1a\x0a\x52\xef\xf6\x9f\x24\x45\xdf\x4f\x9b\x17\xad\x2b\x41\x7b\xe6\x6c\x37\x10";

const GCM_KEY: [u8; 16] = *b"\xfe\xff\xe9\x92\x86\x65\x73\x1c\x6d\x6a\x8f\x94\x67\x30\x83\x08";

const NONCE: [u8; 12] = *b"\xca\xfe\xba\xbe\xfa\xce\xdb\xad\xde\xca\xf8\x88";

const DATA: [u8; 20] =
    *b"\xfe\xed\xfa\xce\xde\xad\xbe\xef\xfe\xed\xfa\xce\xde\xad\xbe\xef\xab\xad\xda\xd2";

const MAC_KEY: [u8; 20] = [0x0b; 20];

/// An operation with its whole texts, and all its output or the code with which that is refused.
struct Case {
    plan: Plan,
    key: &'static [u8],
    nonce: &'static [u8],
    aad: &'static [u8],
    text: &'static [u8],
    signature: Option<&'static [u8]>,
    output: Result<&'static [u8], Code>,
}

static CASES: [Case; 34] = [
    // SP 800-38A, F.1.1
    Case {
        plan: Plan::Ecb {
            seal: true,
            padded: false,
        },
        key: &KEY_128,
        nonce: b"",
        aad: b"",
        text: &BLOCKS,
        signature: None,
        output: Ok(
            b"\x3a\xd7\x7b\xb4\x0d\x7a\x36\x60\xa8\x9e\xca\xf3\x24\x66\xef\x97\xf5\xd3\xd5\x85\x03\xb9\x69\x9d\xe7\x85\x89\x5a\x96\xfd\xba\xaf\x43\xb1\xcd\x7f\x59\x8e\xce\x23\x88\x1b\x00\xe3\xed\x03\x06\x88\x7b\x0c\x78\x5e\x27\xe8\xad\x3f\x82\x23\x20\x71\x04\x72\x5d\xd4",
        ),
    },
    // F.1.4
    Case {
        plan: Plan::Ecb {
            seal: false,
            padded: false,
        },
        key: b"\x8e\x73\xb0\xf7\xda\x0e\x64\x52\xc8\x10\xf3\x2b\x80\x90\x79\xe5\x62\xf8\xea\xd2\x52\x2c\x6b\x7b",
        nonce: b"",
        aad: b"",
        text: b"\xbd\x33\x4f\x1d\x6e\x45\xf2\x5f\xf7\x12\xa2\x14\x57\x1f\xa5\xcc\x97\x41\x04\x84\x6d\x0a\xd3\xad\x77\x34\xec\xb3\xec\xee\x4e\xef\xef\x7a\xfd\x22\x70\xe2\xe6\x0a\xdc\xe0\xba\x2f\xac\xe6\x44\x4e\x9a\x4b\x41\xba\x73\x8d\x6c\x72\xfb\x16\x69\x16\x03\xc1\x8e\x0e",
        signature: None,
        output: Ok(&BLOCKS),
    },
    // F.2.1
    Case {
        plan: Plan::Cbc {
            seal: true,
            padded: false,
        },
        key: &KEY_128,
        nonce: &VECTOR,
        aad: b"",
        text: &BLOCKS,
        signature: None,
        output: Ok(
            b"\x76\x49\xab\xac\x81\x19\xb2\x46\xce\xe9\x8e\x9b\x12\xe9\x19\x7d\x50\x86\xcb\x9b\x50\x72\x19\xee\x95\xdb\x11\x3a\x91\x76\x78\xb2\x73\xbe\xd6\xb8\xe3\xc1\x74\x3b\x71\x16\xe6\x9e\x22\x22\x95\x16\x3f\xf1\xca\xa1\x68\x1f\xac\x09\x12\x0e\xca\x30\x75\x86\xe1\xa7",
        ),
    },
    // F.2.6
    Case {
        plan: Plan::Cbc {
            seal: false,
            padded: false,
        },
        key: &KEY_256,
        nonce: &VECTOR,
        aad: b"",
        text: b"\xf5\x8c\x4c\x04\xd6\xe5\xf1\xba\x77\x9e\xab\xfb\x5f\x7b\xfb\xd6\x9c\xfc\x4e\x96\x7e\xdb\x80\x8d\x67\x9f\x77\x7b\xc6\x70\x2c\x7d\x39\xf2\x33\x69\xa9\xd9\xba\xcf\xa5\x30\xe2\x63\x04\x23\x14\x61\xb2\xeb\x05\xe2\xc3\x9b\xe9\xfc\xda\x6c\x19\x07\x8c\x6a\x9d\x1b",
        signature: None,
        output: Ok(&BLOCKS),
    },
    // F.5.1
    Case {
        plan: Plan::Ctr,
        key: &KEY_128,
        nonce: &COUNTER,
        aad: b"",
        text: &BLOCKS,
        signature: None,
        output: Ok(
            b"\x87\x4d\x61\x91\xb6\x20\xe3\x26\x1b\xef\x68\x64\x99\x0d\xb6\xce\x98\x06\xf6\x6b\x79\x70\xfd\xff\x86\x17\x18\x7b\xb9\xff\xfd\xff\x5a\xe4\xdf\x3e\xdb\xd5\xd3\x5e\x5b\x4f\x09\x02\x0d\xb0\x3e\xab\x1e\x03\x1d\xda\x2f\xbe\x03\xd1\x79\x21\x70\xa0\xf3\x00\x9c\xee",
        ),
    },
    // F.5.6
    Case {
        plan: Plan::Ctr,
        key: &KEY_256,
        nonce: &COUNTER,
        aad: b"",
        text: b"\x60\x1e\xc3\x13\x77\x57\x89\xa5\xb7\xa7\xf5\x04\xbb\xf3\xd2\x28\xf4\x43\xe3\xca\x4d\x62\xb5\x9a\xca\x84\xe9\x90\xca\xca\xf5\xc5\x2b\x09\x30\xda\xa2\x3d\xe9\x4c\xe8\x70\x17\xba\x2d\x84\x98\x8d\xdf\xc9\xc5\x8d\xb6\x7a\xad\xa6\x13\xc2\xdd\x08\x45\x79\x41\xa6",
        signature: None,
        output: Ok(&BLOCKS),
    },
    // the same text under a counter of all ones, by OpenSSL
    Case {
        plan: Plan::Ctr,
        key: &KEY_128,
        nonce: b"\xff\xff\xff\xff\xff\xff\xff\xff\xff\xff\xff\xff\xff\xff\xff\xff",
        aad: b"",
        text: &BLOCKS,
        signature: None,
        output: Ok(
            b"\xe1\x33\x38\xe3\x6c\xb7\x19\x62\xe0\x0d\x02\x0b\x4c\xed\xbd\x86\xd3\xda\xe1\x5b\x04\xbb\x35\x2f\xa0\xf5\x9f\xeb\xfc\xb4\xda\x3e\x67\xda\x61\x06\x97\xed\x5a\xae\x4b\x0f\xa7\xa0\xdd\x78\x3d\x29\x61\xa0\x0a\xb6\x97\x36\x79\x15\xd2\x3c\x75\x4b\xd9\x9e\x28\x99",
        ),
    },
    // paddings, by OpenSSL: 20 bytes to two blocks, and two blocks to three
    Case {
        plan: Plan::Cbc {
            seal: true,
            padded: true,
        },
        key: &KEY_128,
        nonce: &VECTOR,
        aad: b"",
        text: b"\x6b\xc1\xbe\xe2\x2e\x40\x9f\x96\xe9\x3d\x7e\x11\x73\x93\x17\x2a\xae\x2d\x8a\x57",
        signature: None,
        output: Ok(
            b"\x76\x49\xab\xac\x81\x19\xb2\x46\xce\xe9\x8e\x9b\x12\xe9\x19\x7d\x2e\x01\x3f\x89\x04\x72\xd8\x22\x17\xb1\x7f\x45\xf6\xe7\xf5\x39",
        ),
    },
    Case {
        plan: Plan::Cbc {
            seal: false,
            padded: true,
        },
        key: &KEY_128,
        nonce: &VECTOR,
        aad: b"",
        text: b"\x76\x49\xab\xac\x81\x19\xb2\x46\xce\xe9\x8e\x9b\x12\xe9\x19\x7d\x2e\x01\x3f\x89\x04\x72\xd8\x22\x17\xb1\x7f\x45\xf6\xe7\xf5\x39",
        signature: None,
        output: Ok(
            b"\x6b\xc1\xbe\xe2\x2e\x40\x9f\x96\xe9\x3d\x7e\x11\x73\x93\x17\x2a\xae\x2d\x8a\x57",
        ),
    },
    Case {
        plan: Plan::Ecb {
            seal: true,
            padded: true,
        },
        key: &KEY_128,
        nonce: b"",
        aad: b"",
        text: b"\x6b\xc1\xbe\xe2\x2e\x40\x9f\x96\xe9\x3d\x7e\x11\x73\x93\x17\x2a\xae\x2d\x8a\x57\x1e\x03\xac\x9c\x9e\xb7\x6f\xac\x45\xaf\x8e\x51",
        signature: None,
        output: Ok(
            b"\x3a\xd7\x7b\xb4\x0d\x7a\x36\x60\xa8\x9e\xca\xf3\x24\x66\xef\x97\xf5\xd3\xd5\x85\x03\xb9\x69\x9d\xe7\x85\x89\x5a\x96\xfd\xba\xaf\xa2\x54\xbe\x88\xe0\x37\xdd\xd9\xd7\x9f\xb6\x41\x1c\x3f\x9d\xf8",
        ),
    },
    Case {
        plan: Plan::Ecb {
            seal: false,
            padded: true,
        },
        key: &KEY_128,
        nonce: b"",
        aad: b"",
        text: b"\x3a\xd7\x7b\xb4\x0d\x7a\x36\x60\xa8\x9e\xca\xf3\x24\x66\xef\x97\xf5\xd3\xd5\x85\x03\xb9\x69\x9d\xe7\x85\x89\x5a\x96\xfd\xba\xaf\xa2\x54\xbe\x88\xe0\x37\xdd\xd9\xd7\x9f\xb6\x41\x1c\x3f\x9d\xf8",
        signature: None,
        output: Ok(
            b"\x6b\xc1\xbe\xe2\x2e\x40\x9f\x96\xe9\x3d\x7e\x11\x73\x93\x17\x2a\xae\x2d\x8a\x57\x1e\x03\xac\x9c\x9e\xb7\x6f\xac\x45\xaf\x8e\x51",
        ),
    },
    // a block that ends in 0102
    Case {
        plan: Plan::Ecb {
            seal: false,
            padded: true,
        },
        key: &VECTOR,
        nonce: b"",
        aad: b"",
        text: b"\xf6\x62\x38\x8a\x8a\x33\x59\x62\x27\xd6\x88\xd9\x04\xbe\xac\x4c",
        signature: None,
        output: Err(Code::InvalidKeyArgument),
    },
    // a block that ends in 11
    Case {
        plan: Plan::Ecb {
            seal: false,
            padded: true,
        },
        key: &VECTOR,
        nonce: b"",
        aad: b"",
        text: b"\x44\x93\xad\xa3\x30\x6c\xe1\x10\xf4\x81\x57\xd8\x66\x89\x59\xd7",
        signature: None,
        output: Err(Code::InvalidKeyArgument),
    },
    // a block that ends in 00
    Case {
        plan: Plan::Ecb {
            seal: false,
            padded: true,
        },
        key: &VECTOR,
        nonce: b"",
        aad: b"",
        text: b"\xc6\xa1\x3b\x37\x87\x8f\x5b\x82\x6f\x4f\x81\x62\xa1\xc8\xd8\x79",
        signature: None,
        output: Err(Code::InvalidKeyArgument),
    },
    // no whole blocks, and none at all
    Case {
        plan: Plan::Ecb {
            seal: true,
            padded: false,
        },
        key: &KEY_128,
        nonce: b"",
        aad: b"",
        text: b"\x6b\xc1\xbe\xe2\x2e\x40\x9f\x96\xe9\x3d\x7e\x11\x73\x93\x17\x2a\xae",
        signature: None,
        output: Err(Code::InvalidInputLength),
    },
    Case {
        plan: Plan::Cbc {
            seal: false,
            padded: true,
        },
        key: &KEY_128,
        nonce: &VECTOR,
        aad: b"",
        text: b"",
        signature: None,
        output: Err(Code::InvalidInputLength),
    },
    // The Galois/Counter Mode of Operation, appendix B, cases 1, 4 and 16, case 4 with a tag of 96 bits
    Case {
        plan: Plan::Gcm {
            seal: true,
            tag: 16,
        },
        key: b"\x00\x00\x00\x00\x00\x00\x00\x00\x00\x00\x00\x00\x00\x00\x00\x00",
        nonce: b"\x00\x00\x00\x00\x00\x00\x00\x00\x00\x00\x00\x00",
        aad: b"",
        text: b"",
        signature: None,
        output: Ok(b"\x58\xe2\xfc\xce\xfa\x7e\x30\x61\x36\x7f\x1d\x57\xa4\xe7\x45\x5a"),
    },
    Case {
        plan: Plan::Gcm {
            seal: true,
            tag: 16,
        },
        key: &GCM_KEY,
        nonce: &NONCE,
        aad: &DATA,
        text: b"\xd9\x31\x32\x25\xf8\x84\x06\xe5\xa5\x59\x09\xc5\xaf\xf5\x26\x9a\x86\xa7\xa9\x53\x15\x34\xf7\xda\x2e\x4c\x30\x3d\x8a\x31\x8a\x72\x1c\x3c\x0c\x95\x95\x68\x09\x53\x2f\xcf\x0e\x24\x49\xa6\xb5\x25\xb1\x6a\xed\xf5\xaa\x0d\xe6\x57\xba\x63\x7b\x39",
        signature: None,
        output: Ok(
            b"\x42\x83\x1e\xc2\x21\x77\x74\x24\x4b\x72\x21\xb7\x84\xd0\xd4\x9c\xe3\xaa\x21\x2f\x2c\x02\xa4\xe0\x35\xc1\x7e\x23\x29\xac\xa1\x2e\x21\xd5\x14\xb2\x54\x66\x93\x1c\x7d\x8f\x6a\x5a\xac\x84\xaa\x05\x1b\xa3\x0b\x39\x6a\x0a\xac\x97\x3d\x58\xe0\x91\x5b\xc9\x4f\xbc\x32\x21\xa5\xdb\x94\xfa\xe9\x5a\xe7\x12\x1a\x47",
        ),
    },
    Case {
        plan: Plan::Gcm {
            seal: false,
            tag: 16,
        },
        key: b"\xfe\xff\xe9\x92\x86\x65\x73\x1c\x6d\x6a\x8f\x94\x67\x30\x83\x08\xfe\xff\xe9\x92\x86\x65\x73\x1c\x6d\x6a\x8f\x94\x67\x30\x83\x08",
        nonce: &NONCE,
        aad: &DATA,
        text: b"\x52\x2d\xc1\xf0\x99\x56\x7d\x07\xf4\x7f\x37\xa3\x2a\x84\x42\x7d\x64\x3a\x8c\xdc\xbf\xe5\xc0\xc9\x75\x98\xa2\xbd\x25\x55\xd1\xaa\x8c\xb0\x8e\x48\x59\x0d\xbb\x3d\xa7\xb0\x8b\x10\x56\x82\x88\x38\xc5\xf6\x1e\x63\x93\xba\x7a\x0a\xbc\xc9\xf6\x62\x76\xfc\x6e\xce\x0f\x4e\x17\x68\xcd\xdf\x88\x53\xbb\x2d\x55\x1b",
        signature: None,
        output: Ok(
            b"\xd9\x31\x32\x25\xf8\x84\x06\xe5\xa5\x59\x09\xc5\xaf\xf5\x26\x9a\x86\xa7\xa9\x53\x15\x34\xf7\xda\x2e\x4c\x30\x3d\x8a\x31\x8a\x72\x1c\x3c\x0c\x95\x95\x68\x09\x53\x2f\xcf\x0e\x24\x49\xa6\xb5\x25\xb1\x6a\xed\xf5\xaa\x0d\xe6\x57\xba\x63\x7b\x39",
        ),
    },
    Case {
        plan: Plan::Gcm {
            seal: false,
            tag: 12,
        },
        key: &GCM_KEY,
        nonce: &NONCE,
        aad: &DATA,
        text: b"\x42\x83\x1e\xc2\x21\x77\x74\x24\x4b\x72\x21\xb7\x84\xd0\xd4\x9c\xe3\xaa\x21\x2f\x2c\x02\xa4\xe0\x35\xc1\x7e\x23\x29\xac\xa1\x2e\x21\xd5\x14\xb2\x54\x66\x93\x1c\x7d\x8f\x6a\x5a\xac\x84\xaa\x05\x1b\xa3\x0b\x39\x6a\x0a\xac\x97\x3d\x58\xe0\x91\x5b\xc9\x4f\xbc\x32\x21\xa5\xdb\x94\xfa\xe9\x5a",
        signature: None,
        output: Ok(
            b"\xd9\x31\x32\x25\xf8\x84\x06\xe5\xa5\x59\x09\xc5\xaf\xf5\x26\x9a\x86\xa7\xa9\x53\x15\x34\xf7\xda\x2e\x4c\x30\x3d\x8a\x31\x8a\x72\x1c\x3c\x0c\x95\x95\x68\x09\x53\x2f\xcf\x0e\x24\x49\xa6\xb5\x25\xb1\x6a\xed\xf5\xaa\x0d\xe6\x57\xba\x63\x7b\x39",
        ),
    },
    // without additional data: case 3
    Case {
        plan: Plan::Gcm {
            seal: true,
            tag: 13,
        },
        key: &GCM_KEY,
        nonce: &NONCE,
        aad: b"",
        text: b"\xd9\x31\x32\x25\xf8\x84\x06\xe5\xa5\x59\x09\xc5\xaf\xf5\x26\x9a\x86\xa7\xa9\x53\x15\x34\xf7\xda\x2e\x4c\x30\x3d\x8a\x31\x8a\x72\x1c\x3c\x0c\x95\x95\x68\x09\x53\x2f\xcf\x0e\x24\x49\xa6\xb5\x25\xb1\x6a\xed\xf5\xaa\x0d\xe6\x57\xba\x63\x7b\x39\x1a\xaf\xd2\x55",
        signature: None,
        output: Ok(
            b"\x42\x83\x1e\xc2\x21\x77\x74\x24\x4b\x72\x21\xb7\x84\xd0\xd4\x9c\xe3\xaa\x21\x2f\x2c\x02\xa4\xe0\x35\xc1\x7e\x23\x29\xac\xa1\x2e\x21\xd5\x14\xb2\x54\x66\x93\x1c\x7d\x8f\x6a\x5a\xac\x84\xaa\x05\x1b\xa3\x0b\x39\x6a\x0a\xac\x97\x3d\x58\xe0\x91\x47\x3f\x59\x85\x4d\x5c\x2a\xf3\x27\xcd\x64\xa6\x2c\xf3\x5a\xbd\x2b",
        ),
    },
    // another ciphertext, and too few bytes for a tag
    Case {
        plan: Plan::Gcm {
            seal: false,
            tag: 16,
        },
        key: &GCM_KEY,
        nonce: &NONCE,
        aad: &DATA,
        text: b"\x42\x83\x1e\xc2\x21\x77\x74\x24\x4b\x72\x21\xb7\x84\xd0\xd4\x9c\xe3\xaa\x21\x2f\x2c\x02\xa4\xe0\x35\xc1\x7e\x23\x29\xac\xa1\x2e\x21\xd5\x14\xb2\x54\x66\x93\x1c\x7d\x8f\x6a\x5a\xac\x84\xaa\x05\x1b\xa3\x0b\x39\x6a\x0a\xac\x97\x3d\x58\xe0\x90\x5b\xc9\x4f\xbc\x32\x21\xa5\xdb\x94\xfa\xe9\x5a\xe7\x12\x1a\x47",
        signature: None,
        output: Err(Code::VerificationFailed),
    },
    Case {
        plan: Plan::Gcm {
            seal: false,
            tag: 16,
        },
        key: &GCM_KEY,
        nonce: &NONCE,
        aad: &DATA,
        text: b"\x5b\xc9\x4f\xbc\x32\x21\xa5\xdb\x94\xfa\xe9\x5a\xe7\x12\x1a",
        signature: None,
        output: Err(Code::VerificationFailed),
    },
    // RFC 4231, case 1
    Case {
        plan: Plan::HmacSign {
            digest: 3,
            size: 28,
        },
        key: &MAC_KEY,
        nonce: b"",
        aad: b"",
        text: b"Hi There",
        signature: None,
        output: Ok(
            b"\x89\x6f\xb1\x12\x8a\xbb\xdf\x19\x68\x32\x10\x7c\xd4\x9d\xf3\x3f\x47\xb4\xb1\x16\x99\x12\xba\x4f\x53\x68\x4b\x22",
        ),
    },
    Case {
        plan: Plan::HmacSign {
            digest: 4,
            size: 32,
        },
        key: &MAC_KEY,
        nonce: b"",
        aad: b"",
        text: b"Hi There",
        signature: None,
        output: Ok(
            b"\xb0\x34\x4c\x61\xd8\xdb\x38\x53\x5c\xa8\xaf\xce\xaf\x0b\xf1\x2b\x88\x1d\xc2\x00\xc9\x83\x3d\xa7\x26\xe9\x37\x6c\x2e\x32\xcf\xf7",
        ),
    },
    Case {
        plan: Plan::HmacSign {
            digest: 5,
            size: 48,
        },
        key: &MAC_KEY,
        nonce: b"",
        aad: b"",
        text: b"Hi There",
        signature: None,
        output: Ok(
            b"\xaf\xd0\x39\x44\xd8\x48\x95\x62\x6b\x08\x25\xf4\xab\x46\x90\x7f\x15\xf9\xda\xdb\xe4\x10\x1e\xc6\x82\xaa\x03\x4c\x7c\xeb\xc5\x9c\xfa\xea\x9e\xa9\x07\x6e\xde\x7f\x4a\xf1\x52\xe8\xb2\xfa\x9c\xb6",
        ),
    },
    Case {
        plan: Plan::HmacSign {
            digest: 6,
            size: 64,
        },
        key: &MAC_KEY,
        nonce: b"",
        aad: b"",
        text: b"Hi There",
        signature: None,
        output: Ok(
            b"\x87\xaa\x7c\xde\xa5\xef\x61\x9d\x4f\xf0\xb4\x24\x1a\x1d\x6c\xb0\x23\x79\xf4\xe2\xce\x4e\xc2\x78\x7a\xd0\xb3\x05\x45\xe1\x7c\xde\xda\xa8\x33\xb7\xd6\xb8\xa7\x02\x03\x8b\x27\x4e\xae\xa3\xf4\xe4\xbe\x9d\x91\x4e\xeb\x61\xf1\x70\x2e\x69\x6c\x20\x3a\x12\x68\x54",
        ),
    },
    // case 5, cut to 128 bits
    Case {
        plan: Plan::HmacSign {
            digest: 6,
            size: 16,
        },
        key: &[0x0c; 20],
        nonce: b"",
        aad: b"",
        text: b"Test With Truncation",
        signature: None,
        output: Ok(b"\x41\x5f\xad\x62\x71\x58\x0a\x53\x1d\x41\x79\xbc\x89\x1d\x87\xa6"),
    },
    // a mac is verified, by as few bytes as serve
    Case {
        plan: Plan::HmacVerify {
            digest: 5,
            least: 32,
        },
        key: &MAC_KEY,
        nonce: b"",
        aad: b"",
        text: b"Hi There",
        signature: Some(
            b"\xaf\xd0\x39\x44\xd8\x48\x95\x62\x6b\x08\x25\xf4\xab\x46\x90\x7f\x15\xf9\xda\xdb\xe4\x10\x1e\xc6\x82\xaa\x03\x4c\x7c\xeb\xc5\x9c\xfa\xea\x9e\xa9\x07\x6e\xde\x7f\x4a\xf1\x52\xe8\xb2\xfa\x9c\xb6",
        ),
        output: Ok(b""),
    },
    Case {
        plan: Plan::HmacVerify {
            digest: 6,
            least: 16,
        },
        key: &[0x0c; 20],
        nonce: b"",
        aad: b"",
        text: b"Test With Truncation",
        signature: Some(b"\x41\x5f\xad\x62\x71\x58\x0a\x53\x1d\x41\x79\xbc\x89\x1d\x87\xa6"),
        output: Ok(b""),
    },
    // too few, another one, too many, and none
    Case {
        plan: Plan::HmacVerify {
            digest: 6,
            least: 17,
        },
        key: &[0x0c; 20],
        nonce: b"",
        aad: b"",
        text: b"Test With Truncation",
        signature: Some(b"\x41\x5f\xad\x62\x71\x58\x0a\x53\x1d\x41\x79\xbc\x89\x1d\x87\xa6"),
        output: Err(Code::VerificationFailed),
    },
    Case {
        plan: Plan::HmacVerify {
            digest: 3,
            least: 16,
        },
        key: &MAC_KEY,
        nonce: b"",
        aad: b"",
        text: b"Hi There",
        signature: Some(
            b"\x89\x6f\xb1\x12\x8a\xbb\xdf\x19\x68\x32\x10\x7c\xd4\x9d\xf3\x3f\x47\xb4\xb1\x16\x99\x12\xba\x4f\x53\x68\x4b\xa2",
        ),
        output: Err(Code::VerificationFailed),
    },
    Case {
        plan: Plan::HmacVerify {
            digest: 4,
            least: 16,
        },
        key: &MAC_KEY,
        nonce: b"",
        aad: b"",
        text: b"Hi There",
        signature: Some(
            b"\xb0\x34\x4c\x61\xd8\xdb\x38\x53\x5c\xa8\xaf\xce\xaf\x0b\xf1\x2b\x88\x1d\xc2\x00\xc9\x83\x3d\xa7\x26\xe9\x37\x6c\x2e\x32\xcf\xf7\x00",
        ),
        output: Err(Code::VerificationFailed),
    },
    Case {
        plan: Plan::HmacVerify {
            digest: 4,
            least: 16,
        },
        key: &MAC_KEY,
        nonce: b"",
        aad: b"",
        text: b"Hi There",
        signature: None,
        output: Err(Code::VerificationFailed),
    },
];

/// A mac of so many bytes to be signed, where the digest has them.
fn begin_sign(alloc: Global, digest: u8, size: u8, limited: bool, key: &[u8]) -> Option<Carried> {
    let begun = match digest {
        3 if size <= 28 => Carried::begin(
            alloc,
            Plan::HmacSign { digest: 3, size },
            limited,
            key,
            b"",
        ),
        4 if size <= 32 => Carried::begin(
            alloc,
            Plan::HmacSign { digest: 4, size },
            limited,
            key,
            b"",
        ),
        5 if size <= 48 => Carried::begin(
            alloc,
            Plan::HmacSign { digest: 5, size },
            limited,
            key,
            b"",
        ),
        6 if size <= 64 => Carried::begin(
            alloc,
            Plan::HmacSign { digest: 6, size },
            limited,
            key,
            b"",
        ),
        _ => return None,
    };
    begun.ok()
}

/// An operation of this plan, where key and nonce serve it.
fn begin(alloc: Global, plan: Plan, limited: bool, key: &[u8], nonce: &[u8]) -> Option<Carried> {
    let aes = key.len() == 16 || key.len() == 24 || key.len() == 32;
    let begun = match plan {
        Plan::Ecb { .. } if aes => Carried::begin(alloc, plan, limited, key, nonce),
        Plan::Cbc { .. } if aes && nonce.len() == 16 => Carried::begin(
            alloc, plan, limited, key, nonce,
        ),
        Plan::Ctr if aes && nonce.len() == 16 => Carried::begin(alloc, plan, limited, key, nonce),
        Plan::Gcm { tag, .. } if aes && nonce.len() == 12 && 12 <= tag && tag <= 16 => {
            Carried::begin(alloc, plan, limited, key, nonce)
        }
        Plan::HmacSign { digest, size } => return begin_sign(alloc, digest, size, limited, key),
        Plan::HmacVerify { digest, .. } if 3 <= digest && digest <= 6 => {
            Carried::begin(alloc, plan, limited, key, nonce)
        }
        _ => return None,
    };
    begun.ok()
}

/// The operation of a case, with its additional data, which comes in two pieces.
fn begun(alloc: Global, case: &Case, limited: bool) -> Option<Carried> {
    let mut carried = begin(alloc, case.plan, limited, case.key, case.nonce)?;
    let (first, rest) = case.aad.split_at(case.aad.len() / 2);
    carried.aad(first);
    carried.aad(rest);
    Some(carried)
}

/// Whether what came before a finish and what it gives are the case's output, or the code is the case's.
fn ends_right(alloc: Global, case: &Case, carried: Carried, before: Vec<u8>, rest: &[u8]) -> bool {
    let signature = match case.signature {
        Some(bytes) => Bytes::copy_of(alloc, bytes).ok(),
        None => None,
    };
    let mut out = before;
    match carried.finish(alloc, rest, &signature) {
        Ok(Ok(last)) => {
            let _ = out.extend_from_slice(last.as_slice());
            case.output == Ok(out.as_slice())
        }
        Ok(Err(code)) => case.output == Err(code),
        Err(_) => false,
    }
}

/// Whether the output is right where an update takes the text's front up to a place, and a finish the rest.
fn right_cut(alloc: Global, case: &Case, limited: bool, at: usize) -> bool {
    let Some(mut carried) = begun(alloc, case, limited) else {
        return false;
    };
    let first = case.text.get(..at).unwrap_or(&[]);
    let rest = case.text.get(at..).unwrap_or(&[]);
    match carried.update(alloc, first) {
        Ok(bytes) => {
            let kept = !limited || bytes.is_empty();
            ends_right(alloc, case, carried, bytes.into_vec(), rest) && kept
        }
        Err(_) => {
            drop(carried);
            false
        }
    }
}

/// Whether the output is right where updates take the whole text in pieces of a size.
fn right_pieces(alloc: Global, case: &Case, limited: bool, size: usize) -> bool
    requires size { 0 < size }
{
    let Some(mut carried) = begun(alloc, case, limited) else {
        return false;
    };
    let mut out = Vec::new(alloc);
    for piece in case.text.chunks(size) {
        if let Ok(bytes) = carried.update(alloc, piece) {
            let _ = out.extend_from_slice(bytes.as_slice());
        }
    }
    ends_right(alloc, case, carried, out, &[])
}

/// Whether the output is right at every cut and in pieces of every size, with a use limit and without one.
fn right_always(alloc: Global, case: &Case) -> bool {
    let mut right = true;
    for at in 0..case.text.len() + 1 {
        right &= right_cut(alloc, case, false, at);
        right &= right_cut(alloc, case, true, at);
        right &= right_pieces(alloc, case, at % 2 == 1, at / 2 + 1);
    }
    right
}

/// The row of the first case whose output is another one.
fn first_other(alloc: Global) -> Option<usize> {
    let mut first = None;
    for (row, case) in CASES.iter().enumerate() {
        let right = right_always(alloc, case);
        if !right && first.is_none() {
            first = Some(row);
        }
    }
    first
}

#[test]
fn outputs_of_published_vectors_are_the_same_at_every_cut(rt: HostRuntime) {
    assert_eq!(rt; first_other(rt.alloc()), None);
}
