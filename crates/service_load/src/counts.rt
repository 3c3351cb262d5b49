//! What calls came to.

use rule_model::{Fields, Reply};
use shared_service::Served;
use tags::Code;

/// The HMAC-SHA256 of "Hi There" under 20 bytes 0b (RFC 4231, section 4.2).
static MAC: [u8; 32] = [
    0xb0, 0x34, 0x4c, 0x61, 0xd8, 0xdb, 0x38, 0x53, 0x5c, 0xa8, 0xaf, 0xce, 0xaf, 0x0b, 0xf1, 0x2b,
    0x88, 0x1d, 0xc2, 0x00, 0xc9, 0x83, 0x3d, 0xa7, 0x26, 0xe9, 0x37, 0x6c, 0x2e, 0x32, 0xcf, 0xf7,
];

/// How many calls came to what.
#[derive(Clone, Copy, Debug, PartialEq, Eq)]
pub struct Counts {
    pub admitted: u64,
    /// were admitted, and gave the known mac or told that there is no key
    pub right: u64,
    /// found no key to begin with
    pub gone: u64,
    /// were to end what was begun, and found the key used up
    pub late: u64,
    /// found the run full, and added nothing
    pub full: u64,
    /// were not made, for want of memory; and the signals that were not waited for to the end
    pub missed: u64,
}

/// No call.
pub const NO_CALLS: Counts = Counts {
    admitted: 0,
    right: 0,
    gone: 0,
    late: 0,
    full: 0,
    missed: 0,
};

/// Whether the known mac is the output, or no key is counted.
fn is_right(fields: &Fields) -> bool {
    match &fields.out {
        Some(out) => out.as_slice() == MAC.as_slice(),
        None => fields.count == Some(0),
    }
}

/// Whether a call found the run full, and added nothing.
fn is_full(served: &Served) -> bool {
    match served.reply {
        Reply::Stopped {
            code: Code::RunFull,
        } => served.first == 0 && served.last == 0,
        _ => false,
    }
}

impl Counts {
    /// With a call that was answered so.
    pub(crate) fn with(self, served: &Served) -> Counts {
        let mut counts = self;
        match &served.reply {
            Reply::Done(fields) => {
                counts.admitted = counts.admitted.wrapping_add(1);
                if is_right(fields) {
                    counts.right = counts.right.wrapping_add(1);
                }
            }
            Reply::Broken {
                code: Code::KeyNotFound,
                ..
            } => counts.gone = counts.gone.wrapping_add(1),
            Reply::Broken {
                code: Code::InvalidKeyBlob,
                ..
            } => counts.late = counts.late.wrapping_add(1),
            _ => {
                if is_full(served) {
                    counts.full = counts.full.wrapping_add(1);
                }
            }
        }
        counts
    }

    /// With a call that was not made.
    pub(crate) fn with_missed(self) -> Counts {
        Counts {
            missed: self.missed.wrapping_add(1),
            ..self
        }
    }

    /// How many calls were admitted and not in vain: a begin whose end found the key used up is none of them. Which of the threads come
    /// late differs from run to run, and this number does not.
    pub fn served(&self) -> u64 {
        self.admitted.wrapping_sub(self.late)
    }

    /// How many uses were refused, at their begin or at their end.
    pub fn refused(&self) -> u64 {
        self.gone.wrapping_add(self.late)
    }
}
