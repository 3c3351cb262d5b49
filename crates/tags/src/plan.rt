//! What the work of an operation is, and what it asks of key, nonce and lengths.

ghost use Rattle.std.specs.Prelude.{◌≡◌};
ghost use Rattle.tags.specs.Plan as spec;

/// What the work of an operation is: the cipher, its mode, and what the mode needs to know.
#[derive(Clone, Copy, Debug, PartialEq, Eq)]
pub enum Plan {
    /// AES in ECB (SP 800-38A section 6.1), padded by PKCS7 or not
    Ecb { seal: bool, padded: bool },
    /// AES in CBC (SP 800-38A section 6.2), padded by PKCS7 or not
    Cbc { seal: bool, padded: bool },
    /// AES in CTR (SP 800-38A section 6.5), the whole block counting
    Ctr,
    /// AES in GCM (SP 800-38D), with a tag of so many bytes
    Gcm { seal: bool, tag: u8 },
    /// HMAC (FIPS 198-1) with this digest, cut to so many bytes
    HmacSign { digest: u8, size: u8 },
    /// HMAC with this digest, against a signature of at least so many bytes
    HmacVerify { digest: u8, least: u8 },
}

/// Whether a whole text of ECB or CBC may have so many bytes.
fn is_whole(seal: bool, padded: bool, length: u128) -> bool
    ensures { result ≡ spec.is_whole seal padded length }
{
    match (seal, padded) {
        (_, false) => length % 16 == 0,
        (true, true) => true,
        (false, true) => length % 16 == 0 && 16 <= length,
    }
}

impl Plan {
    /// Whether the plan takes additional data: GCM alone does.
    pub fn takes_aad(self) -> bool
        ensures { result ≡ spec.takes_aad self }
    {
        matches!(self, Plan::Gcm { .. })
    }

    /// Whether a whole text may have so many bytes: whole blocks for ECB and CBC where no padding is added, and at least one
    /// where a padding is taken off; at least the tag's bytes where GCM opens; and any else.
    pub fn may_end(self, length: u128) -> bool
        ensures { result ≡ spec.may_end self length }
    {
        match self {
            Plan::Ecb { seal, padded } | Plan::Cbc { seal, padded } => is_whole(
                seal, padded, length,
            ),
            Plan::Gcm { seal, tag } => seal || tag as u128 <= length,
            Plan::Ctr | Plan::HmacSign { .. } | Plan::HmacVerify { .. } => true,
        }
    }
}
