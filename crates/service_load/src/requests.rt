//! The requests of calls.

ghost use Rattle.std.specs.Prelude.{◌≡◌, ◌≤◌, ◌<◌, ◌^◌, length, IfOk, IfSome};
ghost use Rattle.wire_frames.specs.Spelling.{body_of};

use crate::plan::LoadCall;
use rule_model::{Act, Request};
use std::alloc::Global;
use tags::{Bytes, Descriptor, Material, NoMemory};

/// PURPOSE 2 and 3, ALGORITHM 128, DIGEST 4, MIN_MAC_LENGTH 64, NO_AUTH_REQUIRED, as a list is spelled.
static OWN_KEY: [u8; 47] = [
    0, 6, 0x20, 0, 0, 1, 0, 0, 0, 2, 0x20, 0, 0, 1, 0, 0, 0, 3, 0x10, 0, 0, 2, 0, 0, 0, 0x80, 0x20,
    0, 0, 5, 0, 0, 0, 4, 0x30, 0, 0, 8, 0, 0, 0, 0x40, 0x70, 0, 1, 0xf7, 1,
];

/// The same with USAGE_COUNT_LIMIT 5.
static SHARED_KEY: [u8; 55] = [
    0, 7, 0x20, 0, 0, 1, 0, 0, 0, 2, 0x20, 0, 0, 1, 0, 0, 0, 3, 0x10, 0, 0, 2, 0, 0, 0, 0x80, 0x20,
    0, 0, 5, 0, 0, 0, 4, 0x30, 0, 0, 8, 0, 0, 0, 0x40, 0x70, 0, 1, 0xf7, 1, 0x30, 0, 1, 0x95, 0, 0,
    0, 5,
];

/// PURPOSE 2, MAC_LENGTH 256.
static SIGNING: [u8; 18] = [
    0, 2, 0x20, 0, 0, 1, 0, 0, 0, 2, 0x30, 0, 3, 0xeb, 0, 0, 1, 0,
];

/// 20 bytes 0b, and a text.
static MATERIAL: [u8; 20] = [11; 20];

static TEXT: [u8; 8] = *b"Hi There";

/// How long the text of an update is.
const LONG: usize = 16_384;

const APP: u32 = 10_001;

/// The alias of the key that all threads use, which is no thread's own.
const SHARED_ALIAS: [u8; 2] = *b"us";

/// The alias of a thread's own key, a letter and a digit: those of the first 260 threads differ.
fn own_alias(number: u64) -> [u8; 2] {
    [b'a' + (number / 10 % 26) as u8, b'0' + (number % 10) as u8]
}

/// The key of an alias in the caller's own domain.
fn key_of(alloc: Global, alias: [u8; 2]) -> Result<Descriptor, NoMemory>
    ensures short { IfOk result (λ key. length (Rattle.wire_frames.specs.Spelling.key_of key) ≤ 32) }
{
    Ok(Descriptor {
        domain: 0,
        nspace: 0,
        alias: Some(Bytes::copy_of(alloc, &alias)?),
        blob: None,
    })
}

/// A key is imported, with these parameters.
fn import(alloc: Global, alias: [u8; 2], params: &[u8]) -> Result<Act, NoMemory>
    requires few { length params.now ≤ 256 }
    ensures short { IfOk result (λ act. length (body_of act) < 2 ^ 32) }
{
    let key = key_of(alloc, alias)?;
    let params = Bytes::copy_of(alloc, params)?;
    let material = Material::of(Bytes::copy_of(alloc, &MATERIAL)?);
    Ok(Act::ImportKey {
        key,
        params,
        format: 3,
        material,
    })
}

/// A mac is begun.
fn begin(alloc: Global, alias: [u8; 2]) -> Result<Act, NoMemory>
    ensures short { IfOk result (λ act. length (body_of act) < 2 ^ 32) }
{
    let key = key_of(alloc, alias)?;
    let params = Bytes::copy_of(alloc, &SIGNING)?;
    Ok(Act::CreateOperation {
        key,
        params,
        forced: false,
    })
}

/// A long text comes.
fn update(alloc: Global, op: u64) -> Result<Act, NoMemory>
    ensures short { IfOk result (λ act. length (body_of act) < 2 ^ 32) }
{
    let input = Bytes::of(vec![in alloc; 0u8; LONG]?);
    Ok(Act::EnterUpdate { op, input })
}

/// The short text comes, as the last one.
fn finish(alloc: Global, op: u64) -> Result<Act, NoMemory>
    ensures short { IfOk result (λ act. length (body_of act) < 2 ^ 32) }
{
    let input = Bytes::copy_of(alloc, &TEXT)?;
    Ok(Act::EnterFinish {
        op,
        input,
        signature: None,
    })
}

/// The act of a call.
fn act_of(alloc: Global, call: LoadCall, number: u64, op: u64) -> Result<Act, NoMemory>
    ensures short { IfOk result (λ act. length (body_of act) < 2 ^ 32) }
{
    match call {
        LoadCall::Connect => Ok(Act::Connect { uid: APP }),
        LoadCall::Import => import(alloc, own_alias(number), &OWN_KEY),
        LoadCall::ImportShared => import(alloc, SHARED_ALIAS, &SHARED_KEY),
        LoadCall::Begin => begin(alloc, own_alias(number)),
        LoadCall::BeginShared => begin(alloc, SHARED_ALIAS),
        LoadCall::Update => update(alloc, op),
        LoadCall::Finish => finish(alloc, op),
        LoadCall::Count => Ok(Act::GetNumberOfEntries {
            domain: 0,
            nspace: 0,
        }),
        LoadCall::Disconnect => Ok(Act::Disconnect),
    }
}

/// The request of a call by the pass with this number, where there is memory for it. `op` is the operation that it began last.
pub fn request_of(alloc: Global, call: LoadCall, number: u64, op: u64) -> Option<Request>
    ensures short { IfSome result (λ request. length (body_of request) < 2 ^ 32) }
{
    match act_of(alloc, call, number, op) {
        Ok(act) => Request::of(act),
        Err(NoMemory) => None,
    }
}
