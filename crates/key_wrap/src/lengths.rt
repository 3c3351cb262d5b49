//! The lengths that the calls take, as tests for whoever calls them.

ghost use Rattle.std.specs.Prelude.{◌≡◌, true, List, ℕ, length};
ghost use Rattle.key_wrap.specs.Lengths as spec;
ghost use Rattle.key_wrap.specs.Lengths.{IsText, IsWrapped};

/// Whether a text of so many bytes can be wrapped: 16 to 64, a multiple of 8. The mode takes 16 and more (RFC 3394 section 2).
pub fn is_text_length(size: usize) -> bool
    ensures length { result ≡ spec.is_text_length size }
    ensures text { result ≡ true → (text : List ℕ) → length text ≡ size → IsText text }
{
    16 <= size && size <= 64 && size % 8 == 0
}

/// Whether so many bytes can be unwrapped: 24 to 72, a multiple of 8, eight more than a text has.
pub fn is_wrapped_length(size: usize) -> bool
    ensures length { result ≡ spec.is_wrapped_length size }
    ensures wrapped { result ≡ true → (wrapped : List ℕ) → length wrapped ≡ size → IsWrapped wrapped }
{
    24 <= size && size <= 72 && size % 8 == 0
}
