//! A new key: generated, imported, or imported wrapped.

ghost use Rattle.std.specs.Prelude.{◌≡◌, ◌+◌, ◌^◌, ◌<◌, ◌≤◌, length, false, None, IfOk, IfSome, OnOk};
ghost use Rattle.call_answers.specs.Creating as spec;
ghost use Rattle.call_answers.specs.KeySources.{making};
ghost use Rattle.lasting_table.specs.TableView.{HasRoomForKey};
ghost use Rattle.key_database.specs.Stands.{SameStore, is_unsettled, lasting, table_of};
ghost use Rattle.key_rules.specs.Creation.{IsSmall};
ghost use Rattle.tags.specs.declared.limits.TheConstants.{BLOB_BYTES};
ghost use Rattle.keystore_core.specs.Drawn.{DrewForResult, pieces_in};
ghost use Rattle.keystore_core.specs.Keys.{AreSettled};
ghost use Rattle.keystore_core.specs.Room.{room_in};
ghost use Rattle.keystore_core.specs.Tables.{IsCaller, ServesAfter, event_by};
ghost use Rattle.keystore_core.specs.Writing.{IsWrittenIf, StoreGoes, StoreGoesAfter};

use crate::answered::Answered;
use crate::draws::DrawnRooms;
use crate::room::Room;
use crate::tables::Tables;
use crate::writing::write_change;
use call_answers::{AdmittedKey, AskedKey, KeyFault, NONCE_BYTES, SealedKey};
use key_database::KeyDatabase;
use ks_outside::{Disk, Entropy};
use rule_model::{Caller, Fields, NO_FIELDS, Pieces, Reply};
use std::alloc::Global;
use tags::{Code, DOMAIN_BLOB, DeviceSecrets, Material, NoMemory};

/// The nonce of a blob.
pub(crate) fn nonce_in(drawn: &[u8]) -> [u8; 12]
    requires { length drawn.now ≡ 12 }
    ensures { result ≡ drawn.now }
{
    let mut nonce = [0; 12];
    nonce.copy_from_slice(drawn);
    nonce
}

/// Takes the room of a new key with so many bytes of material to draw, in the tables too.
fn make_ready(alloc: Global, keys: &mut KeyDatabase, size: usize) -> Result<DrawnRooms, NoMemory>
    requires { size + 12 < 2 ^ 62 }
    ensures material { IfOk result (λ rooms. room_in rooms.copy ≡ size) }
    ensures draws { IfOk result (λ rooms. pieces_in rooms.draws ≡ size + 12) }
    ensures room { OnOk result (HasRoomForKey (table_of keys.new)) }
    ensures same { SameStore keys.old keys.new }
{
    let pieces = Pieces {
        first: size,
        second: NONCE_BYTES,
    };
    keys.reserve_key()?;
    DrawnRooms::of(alloc, pieces)
}

/// The blob of an admitted key, with what was drawn for it: its material, where none came in, and the blob's nonce.
fn sealed(
    alloc: Global,
    device: &DeviceSecrets,
    admitted: AdmittedKey,
    room: Room,
    drawn: &[u8],
) -> Result<SealedKey, NoMemory>
    requires small { IsSmall admitted.new.plan }
    requires short { IfSome admitted.material (λ material. length material ≤ 64) }
    requires room { room_in room ≡ admitted.new.plan.size }
    requires whole { length drawn.now ≡ admitted.new.plan.size + 12 }
    ensures sealed { IfOk result (λ key. spec.IsMade device.now admitted drawn.now key) }
    ensures few { IfOk result (λ key. length key.blob ≤ BLOB_BYTES) }
{
    let (front, back) = drawn.split_at(admitted.new.plan.size);
    let generated = Material::of(room.filled(front));
    admitted.seal(alloc, device, generated, nonce_in(back))
}

/// Keeps a new key in its blob, or hands the blob out where it is made in BLOB.
fn keep<D: Disk>(alloc: Global, keys: &mut KeyDatabase, disk: &mut D, sealed: SealedKey) -> Reply
    requires settled { is_unsettled keys.old ≡ false }
    requires can { spec.CanKeep (table_of keys.old) sealed.uid sealed.key sealed.blob sealed.list sealed.limit }
    ensures written { IsWrittenIf keys.old keys.new (spec.keeping (lasting keys.old) sealed.uid sealed.key sealed.blob sealed.list sealed.limit) (spec.kept_fields (lasting keys.old) sealed.key sealed.blob) result }
    ensures store { StoreGoes D.Disk keys.old keys.new disk.old disk.new false (spec.keeping (lasting keys.old) sealed.uid sealed.key sealed.blob sealed.list sealed.limit) result }
{
    if sealed.key.domain == DOMAIN_BLOB {
        return Reply::Done(Fields {
            blob: Some(sealed.into_blob()),
            ..NO_FIELDS
        });
    }
    let id = keys.table().next_numbers().0;
    let fields = Fields {
        key: Some(id),
        ..NO_FIELDS
    };
    write_change(keys, disk, sealed.into_change(alloc, id), fields)
}

impl Tables {
    /// A client makes a key, whose material is drawn, or comes in, in the clear or wrapped.
    pub fn make_key<D: Disk, N: Entropy>(
        &mut self,
        alloc: Global,
        disk: &mut D,
        entropy: &mut N,
        caller: Caller,
        asked: AskedKey,
    ) -> Result<Answered, NoMemory>
        requires caller { IsCaller self.old caller }
        requires settled { AreSettled self.old }
        ensures serves { ServesAfter self.old self.new (event_by caller (making asked.key asked.params asked.source)) result }
        ensures job { IfOk result (λ answered. answered.job ≡ None) }
        ensures drew { DrewForResult N.Entropy entropy.old entropy.new result }
        ensures store { StoreGoesAfter D.Disk self.old self.new disk.old disk.new caller (making asked.key asked.params asked.source) result }
    {
        let early_ended = self.boot.device.has_early_ended();
        let admitted = match asked.admit(
            alloc,
            &self.device,
            &self.policy,
            self.keys.table(),
            caller,
            early_ended,
        ) {
            Ok(admitted) => admitted,
            Err(KeyFault::Broken(rule, code)) => return Ok(Answered::refused(alloc, rule, code)),
            Err(KeyFault::Full) => return Ok(Answered::stopped(alloc, Code::StoreFull)),
            Err(KeyFault::Memory) => return Err(NoMemory),
        };
        let Ok(ready) = make_ready(alloc, &mut self.keys, admitted.new.plan.size) else {
            drop(admitted);
            return Err(NoMemory);
        };
        let DrawnRooms {
            draws,
            copy: material,
        } = ready;
        let drawn = match draws.draw(entropy) {
            Ok(drawn) => drawn,
            Err(drawn) => {
                drop(admitted);
                return Ok(Answered::without_entropy(drawn));
            }
        };
        let Ok(key) = sealed(alloc, &self.device, admitted, material, drawn.as_slice()) else {
            return Ok(Answered::without_memory(drawn));
        };
        let reply = keep(alloc, &mut self.keys, disk, key);
        Ok(Answered {
            reply,
            job: None,
            drawn,
        })
    }
}
