//! The limits of the service, each once, with its unit. Contracts cite them by name.

/// The most operations that are open at once, in slots.
pub const MOST_SLOTS: usize = 1_024;

/// The most bytes of a line of a script, without its LF.
pub const LINE_BYTES: usize = 262_144;
/// How many bytes a script may not reach.
pub const SCRIPT_BYTES: u64 = 1 << 30;
/// The most bytes of a frame's body, behind its length.
pub const FRAME_BYTES: usize = 262_144;

/// How many bytes the journal of a store has at most.
pub const JOURNAL_BYTES: u64 = 268_435_456;
/// The most bytes of a record that is met, with its gate and the closing byte behind it.
pub const RECORD_BYTES: usize = 10_763;

/// The most bytes of an encoded list of parameters that a call brings.
pub const LIST_BYTES: usize = 4_096;
/// The most bytes of the encoded list that a key keeps.
pub const KEPT_LIST_BYTES: usize = 4_140;
/// The most bytes of a sealed blob.
pub const BLOB_BYTES: usize = 6_327;
/// The most bytes of an alias.
pub const ALIAS_BYTES: usize = 256;

/// The most bytes of one input, and of a signature.
pub const PIECE_BYTES: u64 = 32_768;
/// The most bytes that an operation takes in, of additional data and text together.
pub const OPERATION_BYTES: u64 = 1_048_576;

/// How many uids a user has: the uids of user u begin at u times this.
pub const USER_UIDS: u32 = 100_000;
/// The greatest number of a user.
pub const MOST_USER: u32 = 42_949;

/// Numbers of keys and of grants stay below this one.
pub const NUMBERS_END: u64 = 1 << 63;
/// The most keys that are live at once.
pub const MOST_KEYS: usize = 65_536;
/// The most grants that are held at once.
pub const MOST_GRANTS: usize = 65_536;
/// The most triples of user, authenticator and kind of which a token is kept.
pub const MOST_TRIPLES: usize = 256;
/// The most rows of one page of a listing.
pub const LISTED: usize = 256;
/// The most rows of a policy.
pub const POLICY_ROWS: usize = 256;
