//! Keys that are kept in sealed blobs. More of them are in `checks/application-data.jsonl` and `checks/handed-blobs.jsonl`, blobs of
//! another tool in `checks/made-elsewhere.jsonl`.

use crate::script::{
    BEGIN, BEGUN, CONNECT, CONNECTED, FINISH, IMPORTED, MAC, Row, SECOND_CONNECTED, SYSTEM,
    check_each,
};

const NOT_OWN: &str = r#"{"code":-33,"rule":"B8"}"#;

static BLOBS: [&[Row]; 2] = [
    &[
        // A key opens for the application id that it was made with.
        (CONNECT, CONNECTED),
        (
            r#"{"t":[0,1000],"c":1,"do":"importKey","key":{"domain":0,"alias":"m"},"params":[["PURPOSE",2],["PURPOSE",3],["ALGORITHM",128],["DIGEST",4],["MIN_MAC_LENGTH",64],["NO_AUTH_REQUIRED",true],["APPLICATION_ID","6162"]],"format":3,"material":"0b0b0b0b0b0b0b0b0b0b0b0b0b0b0b0b0b0b0b0b"}"#,
            IMPORTED,
        ),
        (BEGIN, NOT_OWN),
        (
            r#"{"t":[0,1000],"c":1,"do":"createOperation","key":{"domain":0,"alias":"m"},"params":[["PURPOSE",2],["MAC_LENGTH",256],["APPLICATION_ID","6162"]]}"#,
            BEGUN,
        ),
        (
            r#"{"t":[0,1000],"c":1,"do":"createOperation","key":{"domain":0,"alias":"m"},"params":[["PURPOSE",2],["MAC_LENGTH",256],["APPLICATION_ID","6163"]]}"#,
            NOT_OWN,
        ),
        (FINISH, MAC),
    ],
    &[
        // A key that is made in BLOB is handed out as its blob, and used by who may hand blobs in.
        (SYSTEM, CONNECTED),
        (
            r#"{"t":[0,1000],"c":1,"do":"generateKey","key":{"domain":3,"nspace":100},"params":[["PURPOSE",0],["PURPOSE",1],["ALGORITHM",32],["KEY_SIZE",256],["BLOCK_MODE",32],["PADDING",1],["MIN_MAC_LENGTH",128],["NO_AUTH_REQUIRED",true]]}"#,
            r#"{"blob":"4b534231202122232425262728292a2bb0fa2bec25bd883f079661ef9fd0be5a89a6710db5ad17507e11a81cdc5fbe85bc630d34901a7a32009017aed48f1a90a435bde94dc1a2f1b83f3dfcc50695917188c302fc8baa3d5b9a80fc53dbe44399b934da7aa2959edcd2215a9bd2ab3cbf32385ebf1b15813b76b86f00016ac98f720d177c96504176819d9098c628eb173cd03ff6822aa9626453e519371866dd2b5f8177577a53123ff1fe8037ec547e220eee682f2c5d2eee6769a237e6a8c4cfcaa6fbb2ba2ccafd","code":0}"#,
        ),
        (
            r#"{"t":[0,1000],"c":1,"do":"createOperation","key":{"domain":3,"nspace":100,"blob":"4b534231202122232425262728292a2bb0fa2bec25bd883f079661ef9fd0be5a89a6710db5ad17507e11a81cdc5fbe85bc630d34901a7a32009017aed48f1a90a435bde94dc1a2f1b83f3dfcc50695917188c302fc8baa3d5b9a80fc53dbe44399b934da7aa2959edcd2215a9bd2ab3cbf32385ebf1b15813b76b86f00016ac98f720d177c96504176819d9098c628eb173cd03ff6822aa9626453e519371866dd2b5f8177577a53123ff1fe8037ec547e220eee682f2c5d2eee6769a237e6a8c4cfcaa6fbb2ba2ccafd"},"params":[["PURPOSE",0],["BLOCK_MODE",32],["PADDING",1],["MAC_LENGTH",128]]}"#,
            r#"{"code":0,"nonce":"2c2d2e2f3031323334353637","op":1}"#,
        ),
        (
            r#"{"t":[0,1000],"c":1,"do":"createOperation","key":{"domain":3,"nspace":100,"blob":"4b534231202122232425262728292a2bb0fa2bec25bd883f079661ef9fd0be5a89a6710db5ad17507e11a81cdc5fbe85bc630d34901a7a32009017aed48f1a90a435bde94dc1a2f1b83f3dfcc50695917188c302fc8baa3d5b9a80fc53dbe44399b934da7aa2959edcd2215a9bd2ab3cbf32385ebf1b15813b76b86f00016ac98f720d177c96504176819d9098c628eb173cd03ff6822aa9626453e519371866dd2b5f8177577a53123ff1fe8037ec547e220eee682f2c5d2eee6769a237e6a8c4cfcaa6fbb2ba2ccafc"},"params":[["PURPOSE",0],["BLOCK_MODE",32],["PADDING",1],["MAC_LENGTH",128]]}"#,
            r#"{"code":-33,"rule":"B7"}"#,
        ),
        (
            r#"{"t":[0,1000],"c":1,"do":"generateKey","key":{"domain":3,"nspace":100},"params":[["PURPOSE",0],["PURPOSE",1],["ALGORITHM",32],["KEY_SIZE",256],["BLOCK_MODE",32],["PADDING",1],["MIN_MAC_LENGTH",128],["NO_AUTH_REQUIRED",true],["MAX_USES_PER_BOOT",1]]}"#,
            r#"{"code":-39,"rule":"K14"}"#,
        ),
        (CONNECT, SECOND_CONNECTED),
        (
            r#"{"t":[0,1000],"c":2,"do":"generateKey","key":{"domain":3,"nspace":100},"params":[["PURPOSE",0],["PURPOSE",1],["ALGORITHM",32],["KEY_SIZE",256],["BLOCK_MODE",32],["PADDING",1],["MIN_MAC_LENGTH",128],["NO_AUTH_REQUIRED",true]]}"#,
            r#"{"code":6,"rule":"K3"}"#,
        ),
        (
            r#"{"t":[0,1000],"c":1,"do":"finish","op":1,"input":"616263"}"#,
            r#"{"code":0,"out":"339f4666219813e85e358cadd15282fa296739"}"#,
        ),
    ],
];

#[test]
fn a_key_opens_for_its_application_alone_and_a_blob_is_handed_out_and_in(rt: HostRuntime) {
    check_each(&rt, rt.alloc(), &BLOBS);
}
