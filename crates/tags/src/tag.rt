//! The tags of authorization lists, by name and number.

ghost use Rattle.std.specs.Prelude.{◌≡◌, ◌≢◌, ◌^◌, ◌<◌, ◌%◌, IfSome, IfNone};
ghost use Rattle.tags.specs.declared.tag.Tag.{Tag};
ghost use Rattle.tags.specs.Tag.{type_number, type_of, low_of, number_of, name_of, repeats, tag_named, tag_numbered, tag_with_low};

/// The type of a tag's value.
#[derive(Clone, Copy, Debug, PartialEq, Eq)]
pub enum TagType {
    /// one of a few numbers, 32 bits
    Enum,
    /// as `Enum`, and may stand several times
    EnumRep,
    /// a number of 32 bits
    Uint,
    /// as `Uint`, and may stand several times
    UintRep,
    /// a number of 64 bits
    Ulong,
    /// milliseconds since 1970, 64 bits
    Date,
    /// present or absent
    Bool,
    /// a number of any length
    Bignum,
    /// bytes
    Bytes,
    /// as `Ulong`, and may stand several times
    UlongRep,
}

impl TagType {
    /// The four highest bits of a tag of this type.
    pub fn number(self) -> u32
        ensures { result ≡ type_number self }
    {
        match self {
            TagType::Enum => 1,
            TagType::EnumRep => 2,
            TagType::Uint => 3,
            TagType::UintRep => 4,
            TagType::Ulong => 5,
            TagType::Date => 6,
            TagType::Bool => 7,
            TagType::Bignum => 8,
            TagType::Bytes => 9,
            TagType::UlongRep => 10,
        }
    }

    /// Whether tags of this type may stand several times in a list.
    pub fn is_repeatable(self) -> bool
        ensures { result ≡ repeats self }
    {
        matches!(
            self,
            TagType::EnumRep | TagType::UintRep | TagType::UlongRep
        )
    }
}

/// A tag of an authorization list, after the names of KeyMint's `Tag`.
#[derive(Clone, Copy, Debug, PartialEq, Eq)]
pub enum Tag {
    /// what the key may be used for, or an operation is for
    Purpose,
    /// AES or HMAC
    Algorithm,
    /// the length of the key, in bits
    KeySize,
    /// a mode of AES
    BlockMode,
    /// a digest of HMAC
    Digest,
    /// a padding of the block modes
    Padding,
    /// the caller may give the nonce of an encryption
    CallerNonce,
    /// the least length of a mac or tag, in bits
    MinMacLength,
    /// usable only before early boot has ended
    EarlyBootOnly,
    /// not usable before, in milliseconds since 1970
    ActiveDatetime,
    /// no encryption or signing after, in milliseconds since 1970
    OriginationExpireDatetime,
    /// no decryption or verification after, in milliseconds since 1970
    UsageExpireDatetime,
    /// how many operations may begin between two restarts
    MaxUsesPerBoot,
    /// how many operations may finish in the key's life
    UsageCountLimit,
    /// the one user whose apps may use the key
    UserId,
    /// a secure user whose token authorizes the key
    UserSecureId,
    /// the key needs no token
    NoAuthRequired,
    /// the kinds of authenticator, one bit a kind
    UserAuthType,
    /// how long a token serves, in seconds
    AuthTimeout,
    /// usable only while the user's device is unlocked
    UnlockedDeviceRequired,
    /// bytes that each operation must repeat
    ApplicationId,
    /// more bytes that each operation must repeat
    ApplicationData,
    /// when the key was made, in milliseconds since 1970
    CreationDatetime,
    /// how the key came to be
    Origin,
    /// the system's version as the key was made
    OsVersion,
    /// the system's patch level as the key was made
    OsPatchlevel,
    /// the nonce of an operation
    Nonce,
    /// the length of an operation's mac or tag, in bits
    MacLength,
}

impl Tag {
    /// The type of the tag's value.
    pub fn kind(self) -> TagType
        ensures { result ≡ type_of self }
    {
        match self {
            Tag::Purpose => TagType::EnumRep,
            Tag::Algorithm => TagType::Enum,
            Tag::KeySize => TagType::Uint,
            Tag::BlockMode => TagType::EnumRep,
            Tag::Digest => TagType::EnumRep,
            Tag::Padding => TagType::EnumRep,
            Tag::CallerNonce => TagType::Bool,
            Tag::MinMacLength => TagType::Uint,
            Tag::EarlyBootOnly => TagType::Bool,
            Tag::ActiveDatetime => TagType::Date,
            Tag::OriginationExpireDatetime => TagType::Date,
            Tag::UsageExpireDatetime => TagType::Date,
            Tag::MaxUsesPerBoot => TagType::Uint,
            Tag::UsageCountLimit => TagType::Uint,
            Tag::UserId => TagType::Uint,
            Tag::UserSecureId => TagType::UlongRep,
            Tag::NoAuthRequired => TagType::Bool,
            Tag::UserAuthType => TagType::Enum,
            Tag::AuthTimeout => TagType::Uint,
            Tag::UnlockedDeviceRequired => TagType::Bool,
            Tag::ApplicationId => TagType::Bytes,
            Tag::ApplicationData => TagType::Bytes,
            Tag::CreationDatetime => TagType::Date,
            Tag::Origin => TagType::Enum,
            Tag::OsVersion => TagType::Uint,
            Tag::OsPatchlevel => TagType::Uint,
            Tag::Nonce => TagType::Bytes,
            Tag::MacLength => TagType::Uint,
        }
    }

    /// The tag's 28 low bits.
    pub fn low(self) -> u32
        ensures value { result ≡ low_of self }
        ensures bound { result < 2 ^ 28 }
    {
        match self {
            Tag::Purpose => 1,
            Tag::Algorithm => 2,
            Tag::KeySize => 3,
            Tag::BlockMode => 4,
            Tag::Digest => 5,
            Tag::Padding => 6,
            Tag::CallerNonce => 7,
            Tag::MinMacLength => 8,
            Tag::EarlyBootOnly => 305,
            Tag::ActiveDatetime => 400,
            Tag::OriginationExpireDatetime => 401,
            Tag::UsageExpireDatetime => 402,
            Tag::MaxUsesPerBoot => 404,
            Tag::UsageCountLimit => 405,
            Tag::UserId => 501,
            Tag::UserSecureId => 502,
            Tag::NoAuthRequired => 503,
            Tag::UserAuthType => 504,
            Tag::AuthTimeout => 505,
            Tag::UnlockedDeviceRequired => 509,
            Tag::ApplicationId => 601,
            Tag::ApplicationData => 700,
            Tag::CreationDatetime => 701,
            Tag::Origin => 702,
            Tag::OsVersion => 705,
            Tag::OsPatchlevel => 706,
            Tag::Nonce => 1001,
            Tag::MacLength => 1003,
        }
    }

    /// The tag's whole number: the type in the four highest bits, then `low`.
    pub fn number(self) -> u32
        ensures { result ≡ number_of self }
    {
        (self.kind().number() << 28) + self.low()
    }

    /// The name by which users write the tag.
    pub fn name(self) -> &'static str
        ensures { result.now ≡ name_of self }
    {
        match self {
            Tag::Purpose => "PURPOSE",
            Tag::Algorithm => "ALGORITHM",
            Tag::KeySize => "KEY_SIZE",
            Tag::BlockMode => "BLOCK_MODE",
            Tag::Digest => "DIGEST",
            Tag::Padding => "PADDING",
            Tag::CallerNonce => "CALLER_NONCE",
            Tag::MinMacLength => "MIN_MAC_LENGTH",
            Tag::EarlyBootOnly => "EARLY_BOOT_ONLY",
            Tag::ActiveDatetime => "ACTIVE_DATETIME",
            Tag::OriginationExpireDatetime => "ORIGINATION_EXPIRE_DATETIME",
            Tag::UsageExpireDatetime => "USAGE_EXPIRE_DATETIME",
            Tag::MaxUsesPerBoot => "MAX_USES_PER_BOOT",
            Tag::UsageCountLimit => "USAGE_COUNT_LIMIT",
            Tag::UserId => "USER_ID",
            Tag::UserSecureId => "USER_SECURE_ID",
            Tag::NoAuthRequired => "NO_AUTH_REQUIRED",
            Tag::UserAuthType => "USER_AUTH_TYPE",
            Tag::AuthTimeout => "AUTH_TIMEOUT",
            Tag::UnlockedDeviceRequired => "UNLOCKED_DEVICE_REQUIRED",
            Tag::ApplicationId => "APPLICATION_ID",
            Tag::ApplicationData => "APPLICATION_DATA",
            Tag::CreationDatetime => "CREATION_DATETIME",
            Tag::Origin => "ORIGIN",
            Tag::OsVersion => "OS_VERSION",
            Tag::OsPatchlevel => "OS_PATCHLEVEL",
            Tag::Nonce => "NONCE",
            Tag::MacLength => "MAC_LENGTH",
        }
    }

    /// The table's rows.
    pub const ALL: [Tag; 28] = [
        Tag::Purpose,
        Tag::Algorithm,
        Tag::KeySize,
        Tag::BlockMode,
        Tag::Digest,
        Tag::Padding,
        Tag::CallerNonce,
        Tag::MinMacLength,
        Tag::EarlyBootOnly,
        Tag::ActiveDatetime,
        Tag::OriginationExpireDatetime,
        Tag::UsageExpireDatetime,
        Tag::MaxUsesPerBoot,
        Tag::UsageCountLimit,
        Tag::UserId,
        Tag::UserSecureId,
        Tag::NoAuthRequired,
        Tag::UserAuthType,
        Tag::AuthTimeout,
        Tag::UnlockedDeviceRequired,
        Tag::ApplicationId,
        Tag::ApplicationData,
        Tag::CreationDatetime,
        Tag::Origin,
        Tag::OsVersion,
        Tag::OsPatchlevel,
        Tag::Nonce,
        Tag::MacLength,
    ];

    /// The tag of a name.
    pub fn of_name(name: &str) -> Option<Tag>
        ensures { result ≡ tag_named name.now }
    {
        Tag::ALL.iter().copied().find(|tag| tag.name() == name)
    }

    /// The tag with these 28 low bits, by the table's rows.
    fn row_of_low(low: u32) -> Option<Tag>
        ensures found { IfSome result (λ tag. low_of tag ≡ low) }
        ensures none { IfNone result ((tag : Tag) → low_of tag ≢ low) }
    {
        let tag = match low {
            1 => Tag::Purpose,
            2 => Tag::Algorithm,
            3 => Tag::KeySize,
            4 => Tag::BlockMode,
            5 => Tag::Digest,
            6 => Tag::Padding,
            7 => Tag::CallerNonce,
            8 => Tag::MinMacLength,
            305 => Tag::EarlyBootOnly,
            400 => Tag::ActiveDatetime,
            401 => Tag::OriginationExpireDatetime,
            402 => Tag::UsageExpireDatetime,
            404 => Tag::MaxUsesPerBoot,
            405 => Tag::UsageCountLimit,
            501 => Tag::UserId,
            502 => Tag::UserSecureId,
            503 => Tag::NoAuthRequired,
            504 => Tag::UserAuthType,
            505 => Tag::AuthTimeout,
            509 => Tag::UnlockedDeviceRequired,
            601 => Tag::ApplicationId,
            700 => Tag::ApplicationData,
            701 => Tag::CreationDatetime,
            702 => Tag::Origin,
            705 => Tag::OsVersion,
            706 => Tag::OsPatchlevel,
            1001 => Tag::Nonce,
            1003 => Tag::MacLength,
            _ => return None,
        };
        Some(tag)
    }

    /// The tag with these 28 low bits, whatever its type: `None` exactly for bits that no tag has.
    pub fn of_low(low: u32) -> Option<Tag>
        ensures { result ≡ tag_with_low low }
    {
        Tag::row_of_low(low)
    }

    /// The tag with these low bits, where its type is that of the number.
    fn row_of_number(number: u32) -> Option<Tag>
        ensures found { IfSome result (λ tag. number_of tag ≡ number) }
        ensures none { IfNone result ((tag : Tag) → number_of tag ≢ number) }
    {
        let tag = Tag::row_of_low(number % (1 << 28))?;
        if tag.number() == number {
            Some(tag)
        } else {
            None
        }
    }

    /// The tag of a whole number: `None` exactly for a number that no tag has.
    pub fn of_number(number: u32) -> Option<Tag>
        ensures { result ≡ tag_numbered number }
    {
        Tag::row_of_number(number)
    }
}
