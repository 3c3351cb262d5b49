//! Where the material of a new key comes from, and what its rules read of that.

ghost use Rattle.std.specs.Prelude.{◌≡◌, [], IfOk, length, true, unwrap_or};
ghost use Rattle.lasting_table.specs.TableView.{lasting_in};
ghost use Rattle.call_answers.specs.KeySources as spec;

use crate::begins::BeginKey;
use crate::callers::row_for;
use crate::found::bits_in;
use key_rules::{ImportFacts, WrapFacts};
use keymint_ops::{OpenedKey, open_wrapped};
use lasting_table::LastingTable;
use rule_model::Caller;
use std::alloc::Global;
use tags::values::RAW;
use tags::{Bytes, Descriptor, DeviceSecrets, Material, NoMemory, Policy};

/// Where the material of a new key comes from.
#[derive(Drop)]
pub enum KeySource {
    /// It is drawn.
    Generated,
    /// It comes in, in a format of this number.
    Imported {
        format: u32,
        material: Material,
    },
    /// It comes in wrapped under another key (NIST SP 800-38F section 6.2, KW-AE).
    Wrapped {
        /// where the wrapping key stands
        wrapping: Descriptor,
        wrapped: Bytes,
        /// the list with the wrapping key's ids, encoded
        unwrapping: Bytes,
    },
}

/// What a new key's rules read of where its material comes from, and the material.
#[derive(Drop)]
pub(crate) struct ReadSource {
    pub import: Option<ImportFacts>,
    pub wrapped: Option<WrapFacts>,
    /// the material, where it is not drawn
    pub material: Option<Material>,
}

/// What the rules read of the key that a wrapped one comes under, and of the wrapped bytes.
fn wrap_facts(
    policy: &Policy,
    caller: Caller,
    own: BeginKey,
    wrapped: &Bytes,
    opens: bool,
) -> WrapFacts
    ensures { result ≡ spec.facts_of policy.now caller own wrapped.now opens }
{
    let BeginKey {
        key,
        asked,
        access,
        found,
        id: _,
        limited: _,
        opened,
    } = own;
    let OpenedKey {
        list,
        fits,
        material: _,
    } = opened;
    let row = row_for(policy, caller, key.nspace);
    WrapFacts {
        descriptor: key,
        row,
        found,
        bits: bits_in(&access),
        asked,
        opened: list,
        fits,
        length: wrapped.len() as u64,
        opens,
    }
}

/// What stands in the text of a wrapped key; no bytes where it does not open.
fn text_or_none(alloc: Global, text: Option<Material>) -> Material
    ensures { result ≡ unwrap_or text [] }
{
    text.unwrap_or(Material::of(Bytes::empty(alloc)))
}

/// Opens a wrapped key: its descriptor is looked up and its blob opened once.
fn unwrapped(
    alloc: Global,
    device: &DeviceSecrets,
    policy: &Policy,
    table: &LastingTable,
    caller: Caller,
    wrapping: Descriptor,
    wrapped: &Bytes,
    unwrapping: &Bytes,
) -> Result<ReadSource, NoMemory>
    ensures { IfOk result (λ own. spec.IsRead own (spec.unwrapped_in device.now policy.now (lasting_in table.now) caller wrapping wrapped.now unwrapping.now)) }
{
    let own = BeginKey::open(alloc, device, policy, table, caller, wrapping, unwrapping)?;
    let text = open_wrapped(alloc, &own.opened, wrapped.as_slice())?;
    let facts = wrap_facts(policy, caller, own, wrapped, text.is_some());
    let import = ImportFacts {
        format: RAW,
        length: facts.length.saturating_sub(8),
    };
    Ok(ReadSource {
        import: Some(import),
        wrapped: Some(facts),
        material: Some(text_or_none(alloc, text)),
    })
}

/// The facts of an import in the clear.
fn imported(format: u32, material: Material) -> ReadSource
    ensures { spec.IsRead result (spec.imported format material) }
{
    ReadSource {
        import: Some(ImportFacts {
            format,
            length: material.len() as u64,
        }),
        wrapped: None,
        material: Some(material),
    }
}

impl KeySource {
    /// What the rules of a caller's new key read of it, over what lasts.
    pub(crate) fn read(
        self,
        alloc: Global,
        device: &DeviceSecrets,
        policy: &Policy,
        table: &LastingTable,
        caller: Caller,
    ) -> Result<ReadSource, NoMemory>
        ensures { IfOk result (λ own. spec.IsRead own (spec.source_in device.now policy.now (lasting_in table.now) caller self)) }
    {
        match self {
            KeySource::Generated => Ok(ReadSource {
                import: None,
                wrapped: None,
                material: None,
            }),
            KeySource::Imported { format, material } => Ok(imported(format, material)),
            KeySource::Wrapped {
                wrapping,
                wrapped,
                unwrapping,
            } => unwrapped(
                alloc,
                device,
                policy,
                table,
                caller,
                wrapping,
                &wrapped,
                &unwrapping,
            ),
        }
    }
}
