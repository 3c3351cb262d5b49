//! AES in its block modes. Further vectors and paddings are in `checks/fips-197.jsonl`, `checks/vectors.jsonl` and
//! `checks/paddings.jsonl`.

use crate::script::{
    BEGUN, CONNECT, CONNECTED, IMPORT_AES, IMPORTED, NOT_OPEN, NOTHING_OUT, Row, check_each,
};

const ENCRYPT: &str =
    r#"{"t":[0,1000],"c":1,"do":"createOperation","key":{"domain":0,"alias":"a"},"params":[["PURPOSE",0],["BLOCK_MODE",1],["PADDING",1]]}"#;

const DECRYPT_PADDED: &str =
    r#"{"t":[0,1000],"c":1,"do":"createOperation","key":{"domain":0,"alias":"a"},"params":[["PURPOSE",1],["BLOCK_MODE",1],["PADDING",64]]}"#;

const FINISH_ALL: &str = r#"{"t":[0,1000],"c":1,"do":"finish","op":1,"input":""}"#;

static BLOCK_MODES: [&[Row]; 3] = [
    &[
        // FIPS 197, appendix C.1, and a text that is no whole number of blocks.
        (CONNECT, CONNECTED),
        (IMPORT_AES, IMPORTED),
        (ENCRYPT, BEGUN),
        (
            r#"{"t":[0,1000],"c":1,"do":"update","op":1,"input":"00112233445566778899aabbccddeeff"}"#,
            r#"{"code":0,"out":"69c4e0d86a7b0430d8cdb78070b4c55a"}"#,
        ),
        (
            r#"{"t":[0,1000],"c":1,"do":"update","op":1,"input":"000000000000000000000000000000"}"#,
            NOTHING_OUT,
        ),
        (FINISH_ALL, r#"{"code":-21,"rule":"S8"}"#),
        (FINISH_ALL, NOT_OPEN),
    ],
    &[
        // A byte and the fifteen others: SP 800-38A, F.2.1. The counter behind ff..ff is 0.
        (CONNECT, CONNECTED),
        (
            r#"{"t":[0,1000],"c":1,"do":"importKey","key":{"domain":0,"alias":"a"},"params":[["PURPOSE",0],["PURPOSE",1],["ALGORITHM",32],["BLOCK_MODE",1],["BLOCK_MODE",2],["BLOCK_MODE",3],["BLOCK_MODE",32],["PADDING",1],["PADDING",64],["MIN_MAC_LENGTH",96],["CALLER_NONCE",true],["NO_AUTH_REQUIRED",true]],"format":3,"material":"2b7e151628aed2a6abf7158809cf4f3c"}"#,
            IMPORTED,
        ),
        (
            r#"{"t":[0,1000],"c":1,"do":"createOperation","key":{"domain":0,"alias":"a"},"params":[["PURPOSE",0],["BLOCK_MODE",2],["PADDING",1],["NONCE","000102030405060708090a0b0c0d0e0f"]]}"#,
            BEGUN,
        ),
        (
            r#"{"t":[0,1000],"c":1,"do":"update","op":1,"input":"6b"}"#,
            NOTHING_OUT,
        ),
        (
            r#"{"t":[0,1000],"c":1,"do":"update","op":1,"input":"c1bee22e409f96e93d7e117393172a"}"#,
            r#"{"code":0,"out":"7649abac8119b246cee98e9b12e9197d"}"#,
        ),
        (FINISH_ALL, NOTHING_OUT),
        (
            r#"{"t":[0,1000],"c":1,"do":"importKey","key":{"domain":0,"alias":"z"},"params":[["PURPOSE",0],["PURPOSE",1],["ALGORITHM",32],["BLOCK_MODE",1],["BLOCK_MODE",2],["BLOCK_MODE",3],["BLOCK_MODE",32],["PADDING",1],["PADDING",64],["MIN_MAC_LENGTH",96],["CALLER_NONCE",true],["NO_AUTH_REQUIRED",true]],"format":3,"material":"00000000000000000000000000000000"}"#,
            r#"{"code":0,"key":2}"#,
        ),
        (
            r#"{"t":[0,1000],"c":1,"do":"createOperation","key":{"domain":0,"alias":"z"},"params":[["PURPOSE",0],["BLOCK_MODE",3],["PADDING",1],["NONCE","ffffffffffffffffffffffffffffffff"]]}"#,
            r#"{"code":0,"op":2}"#,
        ),
        (
            r#"{"t":[0,1000],"c":1,"do":"update","op":2,"input":"0000000000000000000000000000000000000000000000000000000000000000"}"#,
            r#"{"code":0,"out":"3f5b8cc9ea855a0afa7347d23e8d664e66e94bd4ef8a2c3b884cfa59ca342b2e"}"#,
        ),
    ],
    &[
        // A padded text is told by the finish; a wrong padding ends the operation.
        (CONNECT, CONNECTED),
        (IMPORT_AES, IMPORTED),
        (DECRYPT_PADDED, BEGUN),
        (
            r#"{"t":[0,1000],"c":1,"do":"update","op":1,"input":"69c4e0d86a7b0430d8cdb78070b4c55a"}"#,
            NOTHING_OUT,
        ),
        (FINISH_ALL, r#"{"code":-38}"#),
        (FINISH_ALL, NOT_OPEN),
        (
            r#"{"t":[0,1000],"c":1,"do":"createOperation","key":{"domain":0,"alias":"a"},"params":[["PURPOSE",0],["BLOCK_MODE",1],["PADDING",64]]}"#,
            r#"{"code":0,"op":2}"#,
        ),
        (
            r#"{"t":[0,1000],"c":1,"do":"update","op":2,"input":"000000000000000000000000000000"}"#,
            NOTHING_OUT,
        ),
        (
            r#"{"t":[0,1000],"c":1,"do":"finish","op":2,"input":""}"#,
            r#"{"code":0,"out":"7346139595c0b41e497bbde365f42d0a"}"#,
        ),
        (DECRYPT_PADDED, r#"{"code":0,"op":3}"#),
        (
            r#"{"t":[0,1000],"c":1,"do":"update","op":3,"input":"7346139595c0b41e497bbde365f42d0a"}"#,
            NOTHING_OUT,
        ),
        (
            r#"{"t":[0,1000],"c":1,"do":"finish","op":3,"input":""}"#,
            r#"{"code":0,"out":"000000000000000000000000000000"}"#,
        ),
    ],
];

#[test]
fn block_modes_give_what_their_text_allows_by_now(rt: HostRuntime) {
    check_each(&rt, rt.alloc(), &BLOCK_MODES);
}
