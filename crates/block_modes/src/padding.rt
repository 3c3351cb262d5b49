//! The padding of a last block (RFC 5652 section 6.3).

ghost use Rattle.std.specs.Prelude.{◌≡◌, ◌≤◌, ◌==◌, take, IfSome};
ghost use Rattle.std.specs.Option.{option_map};
ghost use Rattle.std.specs.List.{list_all};
ghost use Rattle.block_modes.specs.Padding.{unpad};

/// Every byte has this value.
fn all_equal(bytes: &[u8], value: u8) -> bool
    ensures { result ≡ list_all (λ byte. byte == value) bytes.now }
{
    bytes.iter().all(|byte| *byte == value)
}

/// How many bytes of a last block stand before its padding. `None` comes exactly where it has no right padding.
pub(crate) fn text_size(block: &[u8; 16]) -> Option<usize>
    ensures text { unpad block.now ≡ option_map (λ n. take n block.now) result }
    ensures room { IfSome result (λ n. n ≤ 16) }
{
    let size = block[15] as usize;
    if size < 1 || size > 16 {
        return None;
    }
    if all_equal(&block[16 - size..], block[15]) {
        Some(16 - size)
    } else {
        None
    }
}
