//! The events of the service: a reading of the clocks, a client, and its act with the arguments.

use ks_outside::Reading;
use tags::{Bytes, Descriptor, Material};

/// One call of a client, or what the service makes of it, with the call's arguments. The names are those of
/// Keystore2's AIDL interfaces; `params` is always the bytes of an encoded authorization list.
#[derive(Debug, Drop)]
pub enum Act {
    /// A client comes, with the uid that it is taken to have.
    Connect {
        uid: u32,
    },
    /// The client goes, and its operations end.
    Disconnect,
    GenerateKey {
        key: Descriptor,
        params: Bytes,
    },
    /// `format` is 3 for RAW; `material` is the key's bytes.
    ImportKey {
        key: Descriptor,
        params: Bytes,
        format: u32,
        material: Material,
    },
    /// An operation begins; `forced` prunes another where no slot is free.
    CreateOperation {
        key: Descriptor,
        params: Bytes,
        forced: bool,
    },
    /// Additional data comes for an operation.
    EnterAad {
        op: u64,
        input: Bytes,
    },
    /// Text comes for an operation.
    EnterUpdate {
        op: u64,
        input: Bytes,
    },
    /// The last text comes for an operation, with the signature where one is verified.
    EnterFinish {
        op: u64,
        input: Bytes,
        signature: Option<Bytes>,
    },
    Abort {
        op: u64,
    },
    GetKeyEntry {
        key: Descriptor,
    },
    DeleteKey {
        key: Descriptor,
    },
    /// `bits` is the access vector: permission bits of Keystore2's `KeyPermission`.
    Grant {
        key: Descriptor,
        uid: u32,
        bits: u32,
    },
    Ungrant {
        key: Descriptor,
        uid: u32,
    },
    GetNumberOfEntries {
        domain: u32,
        nspace: u64,
    },
    /// `past` is the alias behind which the listing goes on.
    ListEntriesBatched {
        domain: u32,
        nspace: u64,
        past: Option<Bytes>,
    },
    /// A token of an authenticator, after `HardwareAuthToken`.
    AddAuthToken {
        challenge: u64,
        user: u64,
        authenticator: u64,
        kind: u32,
        /// milliseconds since the start
        time: u64,
        mac: [u8; 32],
    },
    DeviceLocked {
        user: u32,
    },
    DeviceUnlocked {
        user: u32,
    },
    EarlyBootEnded,
    ClearNamespace {
        domain: u32,
        nspace: u64,
    },
    UserRemoved {
        user: u32,
    },
    /// The work behind an admitted enter comes back.
    Leave {
        ticket: u64,
    },
    /// The device starts again, with another root of trust where one is given.
    Restart {
        root: Option<[u8; 32]>,
    },
    /// A key is sealed anew for the versions of the device's system, where its list has others.
    UpgradeKey {
        key: Descriptor,
        params: Bytes,
    },
    /// A key comes in under another one.
    ImportWrappedKey {
        key: Descriptor,
        params: Bytes,
        /// where the key stands under which it comes
        wrapping: Descriptor,
        /// its material, wrapped (NIST SP 800-38F section 6.2, KW-AE)
        wrapped: Bytes,
        /// the list with the wrapping key's ids, encoded
        unwrapping: Bytes,
    },
}

/// An act, with who makes it and when. A connect, a leave and a restart have client 0.
#[derive(Debug, Drop)]
pub struct Event {
    pub reading: Reading,
    pub client: u64,
    pub act: Act,
}

/// What one line of a script says: an event, and whether an enter waits for its leave.
#[derive(Debug, Drop)]
pub struct Line {
    pub event: Event,
    pub hold: bool,
}
