//! The padding of a text (RFC 5652 section 6.3).

ghost use Rattle.std.specs.Prelude.{◌≡◌, ◌≤◌, ◌==◌, length, take};
ghost use Rattle.std.specs.Prelude.{IfOk};
ghost use Rattle.std.specs.List.{list_all};
ghost use Rattle.std.specs.Option.{ok_or, option_map};
ghost use Rattle.tags.specs.declared.code.Code.TheVariants.{InvalidKeyArgument};
ghost use Rattle.block_modes.specs.Padding.{pad, unpad};

use std::alloc::Global;
use tags::{Bytes, Code, NoMemory};

/// Some bytes with a padding behind them, up to whole blocks.
pub(crate) fn with_padding(alloc: Global, rest: &[u8]) -> Result<Vec<u8>, NoMemory>
    ensures { IfOk result (λ text. text.items ≡ pad rest.now) }
{
    let size = 16 - rest.len() % 16;
    let mut text = Vec::with_capacity(alloc, rest.len() + size)?;
    text.extend_from_slice(rest)?;
    text.resize(rest.len() + size, size as u8)?;
    Ok(text)
}

/// Every byte has this value.
fn all_equal(bytes: &[u8], value: u8) -> bool
    ensures { result ≡ list_all (λ byte. byte == value) bytes.now }
{
    bytes.iter().all(|byte| *byte == value)
}

/// How many bytes of some whole blocks stand before their padding. `None` comes exactly where the last has no right one.
fn text_size(blocks: &[u8]) -> Option<usize>
    requires { 16 ≤ length blocks.now }
    ensures { unpad blocks.now ≡ option_map (λ n. take n blocks.now) result }
{
    let last = blocks[blocks.len() - 1];
    let size = last as usize;
    if size < 1 || size > 16 {
        return None;
    }
    let before = blocks.len() - size;
    if all_equal(&blocks[before..], last) {
        Some(before)
    } else {
        None
    }
}

/// Whole blocks without their padding, or `InvalidKeyArgument` exactly where the last has no right one.
pub(crate) fn without_padding(blocks: Vec<u8>) -> Result<Bytes, Code>
    requires { 16 ≤ length blocks.items }
    ensures { result ≡ ok_or (unpad blocks.items) InvalidKeyArgument }
{
    let mut text = blocks;
    match text_size(&text) {
        Some(size) => {
            text.truncate(size);
            Ok(Bytes::of(text))
        }
        None => Err(Code::InvalidKeyArgument),
    }
}
