//! What is drawn, and the digest of it.

use std::alloc::{AllocError, Global};

/// Draws by xorshift64*, as `tools/ks make stores` makes them.
#[derive(Drop)]
pub(crate) struct Draws {
    state: u64,
}

/// The fields of the bodies of records, by their kinds from 1 on: a number of eight bytes (l), of four (s), a byte (b), and counted bytes (t).
static FORMS: [&[u8]; 7] = [b"lblttts", b"l", b"l", b"llss", b"l", b"bl", b"s"];

impl Draws {
    pub(crate) fn of(seed: u64) -> Draws {
        Draws { state: seed }
    }

    pub(crate) fn next(&mut self) -> u64 {
        let mut x = self.state;
        x ^= x >> 12;
        x ^= x << 25;
        x ^= x >> 27;
        self.state = x;
        x.wrapping_mul(2_685_821_657_736_338_717)
    }

    pub(crate) fn byte(&mut self) -> u8 {
        (self.next() % 256) as u8
    }

    /// A number below another, or 0 where that is 0.
    pub(crate) fn below(&mut self, count: u64) -> u64 {
        self.next().checked_rem(count).unwrap_or(0)
    }

    /// Adds up to eleven bytes behind their count.
    pub(crate) fn put_bytes(&mut self, body: &mut Vec<u8>) -> Result<(), AllocError> {
        let count = (self.next() % 12) as u32;
        body.extend_from_slice(&count.to_be_bytes())?;
        for _ in 0..count {
            body.push(self.byte())?;
        }
        Ok(())
    }

    /// Adds a field.
    fn put(&mut self, form: u8, body: &mut Vec<u8>) -> Result<(), AllocError> {
        match form {
            b'l' => body.extend_from_slice(&self.next().to_be_bytes()),
            b's' => body.extend_from_slice(&((self.next() % (1 << 32)) as u32).to_be_bytes()),
            b'b' => body.extend_from_slice(&[self.byte()]),
            _ => self.put_bytes(body),
        }
    }

    /// The body of a record of any kind.
    fn body(&mut self, alloc: Global) -> Result<Vec<u8>, AllocError> {
        let mut body = Vec::new(alloc);
        let kind = (self.next() % 7) as usize;
        body.push(kind as u8 + 1)?;
        for form in FORMS[kind] {
            self.put(*form, &mut body)?;
        }
        Ok(body)
    }

    /// A record of any kind, without its closing byte.
    pub(crate) fn record(&mut self, alloc: Global) -> Result<Vec<u8>, AllocError> {
        let body = self.body(alloc)?;
        framed(alloc, body.as_slice())
    }
}

/// The record of a body, without its closing byte.
pub(crate) fn framed(alloc: Global, body: &[u8]) -> Result<Vec<u8>, AllocError> {
    let mut record = Vec::from_slice(alloc, b"\x4b")?;
    record.extend_from_slice(&((body.len() % 65_536) as u32).to_be_bytes())?;
    record.extend_from_slice(body)?;
    Ok(record)
}

/// FNV-1a of 64 bits, gone on with.
pub(crate) fn digest(bytes: &[u8], state: u64) -> u64 {
    let mut state = state;
    for byte in bytes {
        state = (state ^ *byte as u64).wrapping_mul(0x100_0000_01b3);
    }
    state
}
