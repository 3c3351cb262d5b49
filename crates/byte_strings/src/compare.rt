//! The comparison of two byte strings.

ghost use Rattle.std.specs.Prelude.{◌≡◌};
ghost use Rattle.std.specs.Str.{bytes_eq};

/// Tells whether two byte strings are equal. Where their lengths are, it looks at every byte, whatever the bytes are, so
/// that the time it takes tells nothing of where they differ. It takes no memory.
pub fn same_bytes(a: &[u8], b: &[u8]) -> bool
    ensures { result ≡ bytes_eq a.now b.now }
{
    if a.len() != b.len() {
        return false;
    }
    let mut difference = 0u8;
    'bytes: for i in 0..a.len() {
        difference |= a[i] ^ b[i];
    }
    difference == 0
}
