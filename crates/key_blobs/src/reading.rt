//! Reading the text inside a blob.

ghost use Rattle.std.specs.Prelude.{◌≤◌, Result, IfOk, length};
ghost use Rattle.std.specs.Option.{ok_or};
ghost use Rattle.tag_lists.specs.Reading.{listed};
ghost use Rattle.key_blobs.specs.declared.fault.BlobFault.TheVariants.{Format};
ghost use Rattle.byte_strings.specs.Readers as readers;
ghost use Rattle.key_blobs.specs.Text as spec;
ghost use Rattle.key_blobs.specs.Blobs.{Says};

use crate::fault::BlobFault;
use byte_strings::{Short, bytes_at, counted_u8_at, counted_u32_at, optional_u16_at, same_bytes};
use std::alloc::Global;
use tag_lists::{AuthList, ListFault};

/// The parts of a text, lent from it.
#[derive(Clone, Copy)]
pub(crate) struct TextParts<'a> {
    pub(crate) root: &'a [u8],
    pub(crate) app_id: Option<&'a [u8]>,
    pub(crate) app_bytes: Option<&'a [u8]>,
    pub(crate) list: &'a [u8],
    pub(crate) material: &'a [u8],
}

/// The parts of a text, where nothing stands behind them.
#[tactic(auto, unfolding(crate::specs::Text::parts_at))]
fn parts_in(text: &[u8]) -> Result<TextParts<'_>, Short>
    ensures says { readers.Says (λ parts. spec.lent parts) result (spec.parts_in text.now) }
    ensures short { IfOk result (λ parts. length parts.material.now ≤ 255) }
{
    let (root, rest) = bytes_at(32, text)?;
    let (app_id, rest) = optional_u16_at(rest)?;
    let (app_bytes, rest) = optional_u16_at(rest)?;
    let (list, rest) = counted_u32_at(rest)?;
    let (material, rest) = counted_u8_at(rest)?;
    if !rest.is_empty() {
        return Err(Short);
    }
    Ok(TextParts {
        root,
        app_id,
        app_bytes,
        list,
        material,
    })
}

/// The list of these bytes, where they are its canonical spelling.
fn canonical_in(alloc: Global, bytes: &[u8]) -> Result<AuthList, BlobFault>
    ensures { Says (λ list. list) result (ok_or (spec.canonical_in bytes.now (listed bytes.now)) Format) }
{
    match AuthList::read(alloc, bytes) {
        Ok(list) => {
            if same_bytes(list.write(alloc)?.as_slice(), bytes) {
                Ok(list)
            } else {
                Err(BlobFault::Format)
            }
        }
        Err(ListFault::Memory) => Err(BlobFault::Memory),
        Err(_) => Err(BlobFault::Format),
    }
}

/// What a text holds: its parts, and the list that theirs is.
pub(crate) fn sealed_in(alloc: Global, text: &[u8]) -> Result<(TextParts<'_>, AuthList), BlobFault>
    ensures says { Says (λ x. spec.with_list (spec.lent x.0) x.1) result (ok_or (spec.sealed_in text.now) Format) }
    ensures short { IfOk result (λ x. length x.0.material.now ≤ 255) }
{
    let parts = parts_in(text)?;
    let list = canonical_in(alloc, parts.list)?;
    Ok((parts, list))
}
