//! An upgrade: a key is sealed anew for the versions of the device's system.

ghost use Rattle.std.specs.Prelude.{◌≡◌, ◌≤◌, length, false, None, IfOk};
ghost use Rattle.call_answers.specs.Upgrading as spec;
ghost use Rattle.key_blobs.specs.Blobs.{blob_of};
ghost use Rattle.key_blobs.specs.Text.{blob_size};
ghost use Rattle.key_database.specs.Stands.{is_unsettled, lasting, table_of};
ghost use Rattle.rule_model.specs.declared.event.Act.TheVariants as acts;
ghost use Rattle.rule_model.specs.declared.reply.Reply.TheVariants as replies;
ghost use Rattle.tags.specs.declared.limits.TheConstants.{BLOB_BYTES};
ghost use Rattle.keystore_core.specs.Drawn.{DrewForResult};
ghost use Rattle.keystore_core.specs.Keys.{AreSettled};
ghost use Rattle.keystore_core.specs.Tables.{IsCaller, ServesAfter, event_by};
ghost use Rattle.keystore_core.specs.Writing.{IsWrittenIf, StoreGoes, StoreGoesAfter};

use crate::answered::Answered;
use crate::creating::nonce_in;
use crate::draw_room::DrawRoom;
use crate::tables::Tables;
use crate::writing::write_change;
use call_answers::{AdmittedUpgrade, KeyPlace, NONCE_BYTES, UpgradeFault, admit_upgrade};
use journal_records::Change;
use key_database::KeyDatabase;
use keymint_ops::{UpgradedKey, seal_upgraded};
use ks_outside::{Disk, Entropy};
use rule_model::{Caller, Fields, NO_FIELDS, Pieces, Reply};
use std::alloc::Global;
use tags::{Bytes, Descriptor, NoMemory};

/// What is drawn for an upgrade: the nonce of the new blob.
const NONCE: Pieces = Pieces {
    first: NONCE_BYTES,
    second: 0,
};

/// What is told of a key that has the versions of the device's system already.
fn given_back(place: KeyPlace) -> Reply
    ensures { result ≡ replies.Done (spec.given_fields place) }
{
    let blob = match place {
        KeyPlace::Stored(_) => None,
        KeyPlace::Handed(blob) => Some(blob),
    };
    Reply::Done(Fields { blob, ..NO_FIELDS })
}

/// Keeps a key's new blob and list, or hands the blob out where the key was handed in.
fn keep<D: Disk>(
    keys: &mut KeyDatabase,
    disk: &mut D,
    place: KeyPlace,
    blob: Bytes,
    list: Bytes,
) -> Reply
    requires settled { is_unsettled keys.old ≡ false }
    requires can { spec.CanRenew (table_of keys.old) place blob list }
    ensures written { IsWrittenIf keys.old keys.new (spec.renewing place blob list) (spec.told_fields place blob) result }
    ensures store { StoreGoes D.Disk keys.old keys.new disk.old disk.new false (spec.renewing place blob list) result }
{
    match place {
        KeyPlace::Stored(id) => {
            let change = Change::Upgrade { id, blob, list };
            write_change(keys, disk, change, NO_FIELDS)
        }
        KeyPlace::Handed(given) => {
            drop(given);
            drop(list);
            Reply::Done(Fields {
                blob: Some(blob),
                ..NO_FIELDS
            })
        }
    }
}

impl Tables {
    /// What a caller may upgrade of the key that its descriptor finds, by the rules.
    fn may_upgrade(
        &self,
        alloc: Global,
        caller: Caller,
        key: Descriptor,
        params: &Bytes,
    ) -> Result<AdmittedUpgrade, UpgradeFault>
        ensures { spec.GivesUpgrade self.now.device self.now.policy (lasting self.now.keys) caller key params.now result }
    {
        let table = self.keys.table();
        admit_upgrade(
            alloc,
            &self.device,
            &self.policy,
            table,
            caller,
            key,
            params,
        )
    }

    /// A client has the versions of the device's system set in a key, which is sealed anew where it has others.
    pub fn upgrade_key<D: Disk, N: Entropy>(
        &mut self,
        alloc: Global,
        disk: &mut D,
        entropy: &mut N,
        caller: Caller,
        key: Descriptor,
        params: &Bytes,
    ) -> Result<Answered, NoMemory>
        requires caller { IsCaller self.old caller }
        requires settled { AreSettled self.old }
        ensures serves { ServesAfter self.old self.new (event_by caller (acts.UpgradeKey key params.now)) result }
        ensures job { IfOk result (λ answered. answered.job ≡ None) }
        ensures drew { DrewForResult N.Entropy entropy.old entropy.new result }
        ensures store { StoreGoesAfter D.Disk self.old self.new disk.old disk.new caller (acts.UpgradeKey key params.now) result }
    {
        let admitted = match self.may_upgrade(alloc, caller, key, params) {
            Ok(admitted) => admitted,
            Err(UpgradeFault::Broken(rule, code)) => return Ok(Answered::refused(
                alloc, rule, code,
            )),
            Err(UpgradeFault::Memory) => return Err(NoMemory),
        };
        let AdmittedUpgrade { place, upgraded } = admitted;
        let Some(upgraded) = upgraded else {
            return Ok(Answered::undrawn(alloc, given_back(place)));
        };
        let UpgradedKey { sealed, list } = upgraded;
        let Ok(draws) = DrawRoom::of(alloc, NONCE) else {
            drop(place);
            drop(sealed);
            drop(list);
            return Err(NoMemory);
        };
        let drawn = match draws.draw(entropy) {
            Ok(drawn) => drawn,
            Err(drawn) => {
                drop(place);
                drop(sealed);
                drop(list);
                return Ok(Answered::without_entropy(drawn));
            }
        };
        let nonce = nonce_in(drawn.as_slice());
        let Ok(blob) = seal_upgraded(alloc, &self.device, nonce, sealed) else {
            drop(place);
            drop(list);
            return Ok(Answered::without_memory(drawn));
        };
        let reply = keep(&mut self.keys, disk, place, blob, list);
        Ok(Answered {
            reply,
            job: None,
            drawn,
        })
    }
}
