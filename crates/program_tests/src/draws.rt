//! Bytes that are drawn, and draws that fail.

use crate::script::{
    BEGIN, BEGUN, CONNECT, CONNECTED, FRESH, IMPORT, IMPORT_AES, IMPORTED, MAC, NO_KEY, NOT_OPEN,
    NOTHING_OUT, Outside, Row, check,
};

const NO_DRAW: &str = r#"{"code":1005}"#;

const GENERATE: &str =
    r#"{"t":[0,1000],"c":1,"do":"generateKey","key":{"domain":0,"alias":"k"},"params":[["PURPOSE",0],["PURPOSE",1],["ALGORITHM",32],["KEY_SIZE",256],["BLOCK_MODE",32],["PADDING",1],["MIN_MAC_LENGTH",128],["NO_AUTH_REQUIRED",true]]}"#;

const SEAL: &str =
    r#"{"t":[0,1000],"c":1,"do":"createOperation","key":{"domain":0,"alias":"k"},"params":[["PURPOSE",0],["BLOCK_MODE",32],["PADDING",1],["MAC_LENGTH",128]]}"#;

const REPLACE: &str =
    r#"{"t":[0,1000],"c":1,"do":"generateKey","key":{"domain":0,"alias":"m"},"params":[["PURPOSE",0],["PURPOSE",1],["ALGORITHM",32],["KEY_SIZE",256],["BLOCK_MODE",32],["PADDING",1],["MIN_MAC_LENGTH",128],["NO_AUTH_REQUIRED",true]]}"#;

/// The first, the third, the sixth and the eighth draw fail: both draws of a generated key, that of an import, and that
/// of a begin. What was drawn before in such a call is spent, numbers are not; a refused call draws nothing.
static FAILING: [Row; 22] = [
    (CONNECT, CONNECTED),
    (GENERATE, NO_DRAW),
    (SEAL, NO_KEY),
    (GENERATE, NO_DRAW),
    (
        r#"{"t":[0,1000],"c":2,"do":"generateKey","key":{"domain":0,"alias":"k"},"params":[["PURPOSE",0],["PURPOSE",1],["ALGORITHM",32],["KEY_SIZE",256],["BLOCK_MODE",32],["PADDING",1],["MIN_MAC_LENGTH",128],["NO_AUTH_REQUIRED",true]]}"#,
        r#"{"code":20,"rule":"K1"}"#,
    ),
    (
        r#"{"t":[0,1000],"c":1,"do":"generateKey","key":{"domain":0,"alias":"k"},"params":[["ALGORITHM",32]]}"#,
        r#"{"code":-6,"rule":"K7"}"#,
    ),
    (SEAL, NO_KEY),
    (GENERATE, IMPORTED),
    (IMPORT_AES, NO_DRAW),
    (
        r#"{"t":[0,1000],"c":1,"do":"importKey","key":{"domain":0,"alias":"a"},"params":[["PURPOSE",0],["PURPOSE",1],["ALGORITHM",32],["BLOCK_MODE",1],["BLOCK_MODE",2],["BLOCK_MODE",3],["BLOCK_MODE",32],["PADDING",1],["PADDING",64],["MIN_MAC_LENGTH",96],["CALLER_NONCE",true],["NO_AUTH_REQUIRED",true]],"format":3,"material":""}"#,
        r#"{"code":-6,"rule":"K7"}"#,
    ),
    (
        r#"{"t":[0,1000],"c":1,"do":"createOperation","key":{"domain":0,"alias":"a"},"params":[["PURPOSE",0],["BLOCK_MODE",32],["PADDING",1],["MAC_LENGTH",128]]}"#,
        NO_KEY,
    ),
    (IMPORT_AES, r#"{"code":0,"key":2}"#),
    (SEAL, NO_DRAW),
    (
        r#"{"t":[0,1000],"c":1,"do":"update","op":1,"input":""}"#,
        NOT_OPEN,
    ),
    (
        r#"{"t":[0,1000],"c":1,"do":"createOperation","key":{"domain":0,"alias":"k"},"params":[["PURPOSE",0],["BLOCK_MODE",32],["PADDING",1]]}"#,
        r#"{"code":-53,"rule":"B20"}"#,
    ),
    (
        SEAL,
        r#"{"code":0,"nonce":"58595a5b5c5d5e5f60616263","op":1}"#,
    ),
    (
        r#"{"t":[0,1000],"c":1,"do":"finish","op":1,"input":"00112233"}"#,
        r#"{"code":0,"out":"6204fbedb37312759a7611788a4fa03b13c43060"}"#,
    ),
    (
        r#"{"t":[0,1000],"c":1,"do":"createOperation","key":{"domain":0,"alias":"a"},"params":[["PURPOSE",0],["BLOCK_MODE",2],["PADDING",64]]}"#,
        r#"{"code":0,"nonce":"6465666768696a6b6c6d6e6f70717273","op":2}"#,
    ),
    (
        r#"{"t":[0,1000],"c":1,"do":"createOperation","key":{"domain":0,"alias":"a"},"params":[["PURPOSE",0],["BLOCK_MODE",1],["PADDING",64]]}"#,
        r#"{"code":0,"op":3}"#,
    ),
    (
        r#"{"t":[0,1000],"c":1,"do":"createOperation","key":{"domain":0,"alias":"a"},"params":[["PURPOSE",0],["BLOCK_MODE",3],["PADDING",1],["NONCE","000102030405060708090a0b0c0d0e0f"]]}"#,
        r#"{"code":0,"op":4}"#,
    ),
    (
        r#"{"t":[0,1000],"c":1,"do":"createOperation","key":{"domain":0,"alias":"a"},"params":[["PURPOSE",0],["BLOCK_MODE",3],["PADDING",1]]}"#,
        r#"{"code":0,"nonce":"7475767778797a7b7c7d7e7f80818283","op":5}"#,
    ),
    (
        r#"{"t":[0,1000],"c":1,"do":"finish","op":5,"input":"00"}"#,
        r#"{"code":0,"out":"4e"}"#,
    ),
];

/// The second and the fourth draw fail: a key whose successor could not be drawn lives on, with its operations.
static LIVING: [Row; 12] = [
    (CONNECT, CONNECTED),
    (IMPORT, IMPORTED),
    (BEGIN, BEGUN),
    (
        r#"{"t":[0,1000],"c":1,"do":"importKey","key":{"domain":0,"alias":"m"},"params":[["PURPOSE",0],["PURPOSE",1],["ALGORITHM",32],["BLOCK_MODE",1],["BLOCK_MODE",2],["BLOCK_MODE",3],["BLOCK_MODE",32],["PADDING",1],["PADDING",64],["MIN_MAC_LENGTH",96],["CALLER_NONCE",true],["NO_AUTH_REQUIRED",true]],"format":3,"material":"000102030405060708090a0b0c0d0e0f"}"#,
        NO_DRAW,
    ),
    (
        r#"{"t":[0,1000],"c":1,"do":"update","op":1,"input":"4869205468"}"#,
        NOTHING_OUT,
    ),
    (REPLACE, NO_DRAW),
    (
        r#"{"t":[0,1000],"c":1,"do":"createOperation","key":{"domain":0,"alias":"m"},"params":[["PURPOSE",2],["MAC_LENGTH",64]]}"#,
        r#"{"code":0,"op":2}"#,
    ),
    (
        r#"{"t":[0,1000],"c":1,"do":"generateKey","key":{"domain":0,"alias":"m"},"params":[["ALGORITHM",32],["KEY_SIZE",127]]}"#,
        r#"{"code":-6,"rule":"K7"}"#,
    ),
    (
        r#"{"t":[0,1000],"c":1,"do":"finish","op":1,"input":"657265"}"#,
        MAC,
    ),
    (
        r#"{"t":[0,1000],"c":1,"do":"finish","op":2,"input":"4869205468657265"}"#,
        r#"{"code":0,"out":"b0344c61d8db3853"}"#,
    ),
    (REPLACE, r#"{"code":0,"key":2}"#),
    (
        r#"{"t":[0,1000],"c":1,"do":"createOperation","key":{"domain":0,"alias":"m"},"params":[["PURPOSE",0],["BLOCK_MODE",32],["PADDING",1],["MAC_LENGTH",128]]}"#,
        r#"{"code":0,"nonce":"58595a5b5c5d5e5f60616263","op":3}"#,
    ),
];

#[test]
fn a_failed_draw_changes_nothing_but_what_was_drawn(rt: HostRuntime) {
    let alloc = rt.alloc();
    let first = Outside {
        draws: &[1, 3, 6, 8],
        ..FRESH
    };
    check(&rt, alloc, first, &FAILING);
    let second = Outside {
        draws: &[2, 4],
        ..FRESH
    };
    check(&rt, alloc, second, &LIVING);
}
