//! The codes with which a call is refused.

ghost use Rattle.std.specs.Prelude.{◌≡◌};
ghost use Rattle.tags.specs.Code.{code_number};

/// Why a call was refused: the codes of KeyMint's `ErrorCode` (below 0), of Keystore2's
/// `ResponseCode`, and from 1001 on those of this service's own limits.
#[derive(Clone, Copy, Debug, PartialEq, Eq)]
pub enum Code {
    /// UNSUPPORTED_PURPOSE, -2
    UnsupportedPurpose,
    /// INCOMPATIBLE_PURPOSE, -3
    IncompatiblePurpose,
    /// UNSUPPORTED_ALGORITHM, -4
    UnsupportedAlgorithm,
    /// UNSUPPORTED_KEY_SIZE, -6
    UnsupportedKeySize,
    /// UNSUPPORTED_BLOCK_MODE, -7
    UnsupportedBlockMode,
    /// INCOMPATIBLE_BLOCK_MODE, -8
    IncompatibleBlockMode,
    /// UNSUPPORTED_MAC_LENGTH, -9
    UnsupportedMacLength,
    /// UNSUPPORTED_PADDING_MODE, -10
    UnsupportedPaddingMode,
    /// INCOMPATIBLE_PADDING_MODE, -11
    IncompatiblePaddingMode,
    /// UNSUPPORTED_DIGEST, -12
    UnsupportedDigest,
    /// INCOMPATIBLE_DIGEST, -13
    IncompatibleDigest,
    /// INVALID_USER_ID, -15
    InvalidUserId,
    /// UNSUPPORTED_KEY_FORMAT, -17
    UnsupportedKeyFormat,
    /// INVALID_INPUT_LENGTH, -21
    InvalidInputLength,
    /// KEY_NOT_YET_VALID, -24
    KeyNotYetValid,
    /// KEY_EXPIRED, -25
    KeyExpired,
    /// KEY_USER_NOT_AUTHENTICATED, -26
    KeyUserNotAuthenticated,
    /// INVALID_OPERATION_HANDLE, -28
    InvalidOperationHandle,
    /// VERIFICATION_FAILED, -30
    VerificationFailed,
    /// INVALID_KEY_BLOB, -33
    InvalidKeyBlob,
    /// KeyMint's INVALID_ARGUMENT, -38
    InvalidKeyArgument,
    /// UNSUPPORTED_TAG, -39
    UnsupportedTag,
    /// INVALID_TAG, -40
    InvalidTag,
    /// MEMORY_ALLOCATION_FAILED, -41
    MemoryAllocationFailed,
    /// IMPORT_PARAMETER_MISMATCH, -44
    ImportParameterMismatch,
    /// MISSING_NONCE, -51
    MissingNonce,
    /// INVALID_NONCE, -52
    InvalidNonce,
    /// MISSING_MAC_LENGTH, -53
    MissingMacLength,
    /// CALLER_NONCE_PROHIBITED, -55
    CallerNonceProhibited,
    /// KEY_MAX_OPS_EXCEEDED, -56
    KeyMaxOpsExceeded,
    /// INVALID_MAC_LENGTH, -57
    InvalidMacLength,
    /// MISSING_MIN_MAC_LENGTH, -58
    MissingMinMacLength,
    /// UNSUPPORTED_MIN_MAC_LENGTH, -59
    UnsupportedMinMacLength,
    /// KEY_REQUIRES_UPGRADE, -62
    KeyRequiresUpgrade,
    /// DEVICE_LOCKED, -72
    DeviceLocked,
    /// EARLY_BOOT_ENDED, -73
    EarlyBootEnded,
    /// SYSTEM_ERROR, 4
    SystemError,
    /// PERMISSION_DENIED, 6
    PermissionDenied,
    /// KEY_NOT_FOUND, 7
    KeyNotFound,
    /// VALUE_CORRUPTED, 8
    ValueCorrupted,
    /// BACKEND_BUSY, 18
    BackendBusy,
    /// OPERATION_BUSY, 19
    OperationBusy,
    /// Keystore2's INVALID_ARGUMENT, 20
    InvalidArgument,
    /// TOO_MUCH_DATA, 21
    TooMuchData,
    /// RUN_FULL, 1001
    RunFull,
    /// STORE_FULL, 1002
    StoreFull,
    /// TOKENS_FULL, 1004
    TokensFull,
    /// ENTROPY_FAULT, 1005
    EntropyFault,
    /// NO_TICKET, 1006
    NoTicket,
}

impl Code {
    /// The number that a reply carries.
    pub fn number(self) -> i32
        ensures { result ≡ code_number self }
    {
        match self {
            Code::UnsupportedPurpose => -2,
            Code::IncompatiblePurpose => -3,
            Code::UnsupportedAlgorithm => -4,
            Code::UnsupportedKeySize => -6,
            Code::UnsupportedBlockMode => -7,
            Code::IncompatibleBlockMode => -8,
            Code::UnsupportedMacLength => -9,
            Code::UnsupportedPaddingMode => -10,
            Code::IncompatiblePaddingMode => -11,
            Code::UnsupportedDigest => -12,
            Code::IncompatibleDigest => -13,
            Code::InvalidUserId => -15,
            Code::UnsupportedKeyFormat => -17,
            Code::InvalidInputLength => -21,
            Code::KeyNotYetValid => -24,
            Code::KeyExpired => -25,
            Code::KeyUserNotAuthenticated => -26,
            Code::InvalidOperationHandle => -28,
            Code::VerificationFailed => -30,
            Code::InvalidKeyBlob => -33,
            Code::InvalidKeyArgument => -38,
            Code::UnsupportedTag => -39,
            Code::InvalidTag => -40,
            Code::MemoryAllocationFailed => -41,
            Code::ImportParameterMismatch => -44,
            Code::MissingNonce => -51,
            Code::InvalidNonce => -52,
            Code::MissingMacLength => -53,
            Code::CallerNonceProhibited => -55,
            Code::KeyMaxOpsExceeded => -56,
            Code::InvalidMacLength => -57,
            Code::MissingMinMacLength => -58,
            Code::UnsupportedMinMacLength => -59,
            Code::KeyRequiresUpgrade => -62,
            Code::DeviceLocked => -72,
            Code::EarlyBootEnded => -73,
            Code::SystemError => 4,
            Code::PermissionDenied => 6,
            Code::KeyNotFound => 7,
            Code::ValueCorrupted => 8,
            Code::BackendBusy => 18,
            Code::OperationBusy => 19,
            Code::InvalidArgument => 20,
            Code::TooMuchData => 21,
            Code::RunFull => 1001,
            Code::StoreFull => 1002,
            Code::TokensFull => 1004,
            Code::EntropyFault => 1005,
            Code::NoTicket => 1006,
        }
    }
}
