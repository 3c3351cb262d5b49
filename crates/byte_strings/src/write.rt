//! Writing fields: `put_` behind the bytes of a vector, and `place_` behind the first `at` bytes of a slice, answering
//! where the field ends. Numbers are big-endian.

ghost use Rattle.std.specs.Prelude.{◌≡◌, ℕ, ◌+◌, ◌≤◌, ◌<◌, ◌^◌, ◌++◌, ◌∷◌, [], length, take, drop, OnOk};
ghost use Rattle.std.specs.Option.{option_copied};
ghost use Rattle.byteorder.specs.Endian.{big_bytes};
ghost use Rattle.byte_strings.specs.Fields as spec;

use std::alloc::AllocError;

/// A byte.
#[inline]
pub fn put_u8(out: &mut Vec<u8>, byte: u8) -> Result<(), AllocError>
    ensures { OnOk result (out.new.items ≡ out.old.items ++ byte ∷ []) }
{
    out.extend_from_slice(&[byte])
}

/// A number of two bytes.
#[inline]
pub fn put_u16(out: &mut Vec<u8>, number: u16) -> Result<(), AllocError>
    ensures { OnOk result (out.new.items ≡ out.old.items ++ big_bytes 2 number) }
{
    out.extend_from_slice(&number.to_be_bytes())
}

/// A number of four bytes.
#[inline]
pub fn put_u32(out: &mut Vec<u8>, number: u32) -> Result<(), AllocError>
    ensures { OnOk result (out.new.items ≡ out.old.items ++ big_bytes 4 number) }
{
    out.extend_from_slice(&number.to_be_bytes())
}

/// A number of eight bytes.
#[inline]
pub fn put_u64(out: &mut Vec<u8>, number: u64) -> Result<(), AllocError>
    ensures { OnOk result (out.new.items ≡ out.old.items ++ big_bytes 8 number) }
{
    out.extend_from_slice(&number.to_be_bytes())
}

/// Plain bytes.
#[inline]
pub fn put_bytes(out: &mut Vec<u8>, bytes: &[u8]) -> Result<(), AllocError>
    ensures { OnOk result (out.new.items ≡ out.old.items ++ bytes.now) }
{
    out.extend_from_slice(bytes)
}

/// Bytes behind their length of one byte.
#[inline]
pub fn put_counted_u8(out: &mut Vec<u8>, bytes: &[u8]) -> Result<(), AllocError>
    requires { length bytes.now < 2 ^ 8 }
    ensures { OnOk result (out.new.items ≡ out.old.items ++ spec.counted 1 bytes.now) }
{
    put_u8(out, bytes.len() as u8)?;
    put_bytes(out, bytes)
}

/// Bytes behind their length of two bytes.
#[inline]
pub fn put_counted_u16(out: &mut Vec<u8>, bytes: &[u8]) -> Result<(), AllocError>
    requires { length bytes.now < 2 ^ 16 }
    ensures { OnOk result (out.new.items ≡ out.old.items ++ spec.counted 2 bytes.now) }
{
    put_u16(out, bytes.len() as u16)?;
    put_bytes(out, bytes)
}

/// Bytes behind their length of four bytes.
#[inline]
pub fn put_counted_u32(out: &mut Vec<u8>, bytes: &[u8]) -> Result<(), AllocError>
    requires { length bytes.now < 2 ^ 32 }
    ensures { OnOk result (out.new.items ≡ out.old.items ++ spec.counted 4 bytes.now) }
{
    put_u32(out, bytes.len() as u32)?;
    put_bytes(out, bytes)
}

/// Bytes that may be absent: a byte 00, or a byte 01 and the bytes behind their length of two bytes.
#[inline]
pub fn put_optional_u16(out: &mut Vec<u8>, bytes: Option<&[u8]>) -> Result<(), AllocError>
    requires { spec.IsCounted 2 (option_copied bytes) }
    ensures { OnOk result (out.new.items ≡ out.old.items ++ spec.optional 2 (option_copied bytes.entry)) }
{
    match bytes {
        None => put_u8(out, 0),
        Some(given) => {
            put_u8(out, 1)?;
            put_counted_u16(out, given)
        }
    }
}

/// Bytes that may be absent: a byte 00, or a byte 01 and the bytes behind their length of four bytes.
#[inline]
pub fn put_optional_u32(out: &mut Vec<u8>, bytes: Option<&[u8]>) -> Result<(), AllocError>
    requires { spec.IsCounted 4 (option_copied bytes) }
    ensures { OnOk result (out.new.items ≡ out.old.items ++ spec.optional 4 (option_copied bytes.entry)) }
{
    match bytes {
        None => put_u8(out, 0),
        Some(given) => {
            put_u8(out, 1)?;
            put_counted_u32(out, given)
        }
    }
}

/// A truth value: a byte 00 or 01.
#[inline]
pub fn put_flag(out: &mut Vec<u8>, flag: bool) -> Result<(), AllocError>
    ensures { OnOk result (out.new.items ≡ out.old.items ++ spec.flag flag) }
{
    if flag { put_u8(out, 1) } else { put_u8(out, 0) }
}

/// Plain bytes. It takes no memory.
#[inline]
pub fn place_bytes(out: &mut [u8], at: usize, bytes: &[u8]) -> usize
    requires { at + length bytes.now ≤ length out.old }
    ensures place { result ≡ at + length bytes.now }
    ensures front { take result out.new ≡ take at out.old ++ bytes.now }
    ensures rest { (n : ℕ) → result ≤ n → drop n out.new ≡ drop n out.old }
    ensures size { length out.new ≡ length out.old }
{
    let end = at + bytes.len();
    out[at..end].copy_from_slice(bytes);
    end
}

/// A number of four bytes. It takes no memory.
#[inline]
pub fn place_u32(out: &mut [u8], at: usize, number: u32) -> usize
    requires { at + 4 ≤ length out.old }
    ensures place { result ≡ at + 4 }
    ensures front { take result out.new ≡ take at out.old ++ big_bytes 4 number }
    ensures rest { (n : ℕ) → result ≤ n → drop n out.new ≡ drop n out.old }
    ensures size { length out.new ≡ length out.old }
{
    place_bytes(out, at, &number.to_be_bytes())
}

/// A number of eight bytes. It takes no memory.
#[inline]
pub fn place_u64(out: &mut [u8], at: usize, number: u64) -> usize
    requires { at + 8 ≤ length out.old }
    ensures place { result ≡ at + 8 }
    ensures front { take result out.new ≡ take at out.old ++ big_bytes 8 number }
    ensures rest { (n : ℕ) → result ≤ n → drop n out.new ≡ drop n out.old }
    ensures size { length out.new ≡ length out.old }
{
    place_bytes(out, at, &number.to_be_bytes())
}

/// Bytes behind their length of four bytes. It takes no memory.
#[inline]
pub fn place_counted_u32(out: &mut [u8], at: usize, bytes: &[u8]) -> usize
    requires short { length bytes.now < 2 ^ 32 }
    requires room { at + length (spec.counted 4 bytes.now) ≤ length out.old }
    ensures place { result ≡ at + length (spec.counted 4 bytes.now) }
    ensures front { take result out.new ≡ take at out.old ++ spec.counted 4 bytes.now }
    ensures rest { (n : ℕ) → result ≤ n → drop n out.new ≡ drop n out.old }
    ensures size { length out.new ≡ length out.old }
{
    let at = place_u32(out, at, bytes.len() as u32);
    place_bytes(out, at, bytes)
}
