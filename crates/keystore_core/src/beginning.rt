//! The beginning of an operation.

ghost use Rattle.std.specs.Prelude.{◌≡◌, ℕ, ◌+◌, ◌^◌, ◌==◌, ◌<◌, ◌≤◌, List, true, false, Some, None, IfNone, IfOk, IfSome, IsSome, OnOk, is_some, length, if◌then◌else◌};
ghost use Rattle.std.specs.List.{list_any};
ghost use Rattle.std.specs.Option.{option_map_or};
ghost use Rattle.byteorder.specs.Endian.{big_number};
ghost use Rattle.tags.specs.Plan.{Fits};
ghost use Rattle.keymint_ops.specs.Begin.{nonce_used};
ghost use Rattle.rule_model.specs.declared.event.Act.TheVariants as acts;
ghost use Rattle.keystore_core.specs.Beginning as spec;
ghost use Rattle.keystore_core.specs.Drawn.{DrewForResult, pieces_in};
ghost use Rattle.live_tables.specs.Operations.{HasRoomForOperation, operations_given};
ghost use Rattle.keystore_core.specs.Room.{room_in};
ghost use Rattle.keystore_core.specs.Tables.{IsAt, IsCaller, ServesAt, event_by, row_at, state_at};
ghost use Rattle.keystore_core.specs.Writing.{LeavesStore};
ghost use Rattle.operation_slots.specs.Table.{IsLater, has_room as is_free, held};
ghost use Rattle.token_store.specs.Fitting.{opens};
ghost use Rattle.live_tables.specs.Begins.{ChangesBegins, SameBegins, begins_in};
ghost use Rattle.rule_model.specs.Boot.{begins_on as begins_of_key};
ghost use Rattle.live_tables.specs.Boot.{conditions_in};
ghost use Rattle.live_tables.specs.Tokens.{tokens_in};

use crate::answered::Answered;
use crate::draws::DrawnRooms;
use crate::room::Room;
use crate::tables::Tables;
use crate::victims::{has_slot, pruned_for};
use byteorder::{BigEndian, ByteOrder};
use call_answers::{AdmittedBegin, BeginKey, owner_of, user_of};
use cipher_ops::CipherState;
use keymint_ops::BeginFault;
use ks_outside::Entropy;
use live_tables::{Begins, Boot, OperationRow, Tokens};
use rule_model::{Caller, Conditions, Fields, NO_FIELDS, Pieces, Reply};
use std::alloc::Global;
use tag_lists::AuthList;
use tags::{Bytes, Descriptor, NoMemory};

/// Whether one of the last tokens opens the key of a list at the reading `boot`.
fn is_timely(tokens: &Tokens, opened: &Option<AuthList>, boot: u64) -> bool
    ensures { result ≡ option_map_or (λ list. list_any (λ token. opens list boot token) (tokens_in tokens.now)) opened.now false }
{
    match opened {
        Some(list) => tokens.timely(list, boot),
        None => false,
    }
}

/// How many operations began on the key of a number; none on one that is not stored.
fn begins_on(begins: &Begins, id: Option<u64>) -> u64
    ensures { result ≡ option_map_or (begins_in begins.now) id 0 }
{
    match id {
        Some(id) => begins.of(id),
        None => 0,
    }
}

/// The conditions of a caller's begin on a key.
fn conditions(boot: &Boot, caller: Caller, key: &BeginKey, room: bool) -> Conditions
    ensures { result ≡ conditions_in boot.now caller key.now.opened.list key.now.id room }
{
    Conditions {
        early_ended: boot.device.has_early_ended(),
        unlocked: boot.device.is_unlocked(user_of(caller)),
        timely: is_timely(&boot.tokens, &key.opened.list, caller.reading.boot),
        begins: begins_on(&boot.begins, key.id),
        room,
    }
}

/// What the rules read of a new operation, with the challenge that it has.
fn new_operation(
    number: u64,
    client: u64,
    admitted: AdmittedBegin,
    challenge: Option<u64>,
) -> OperationRow
    ensures { spec.IsNewRow result number client admitted challenge }
{
    OperationRow {
        number,
        client,
        key: admitted.id,
        plan: admitted.begin.plan,
        limited: admitted.limited,
        aad: 0,
        text: 0,
        busy: false,
        challenge,
        shown: false,
        list: admitted.list,
    }
}

/// The nonce that was drawn, for the reply.
fn drawn_nonce(room: Room, wanted: usize, drawn: &[u8]) -> Option<Bytes>
    requires { room_in room ≡ length drawn.now }
    ensures { result ≡ (if wanted == 0 then None else Some drawn.now) }
{
    if wanted == 0 {
        return None;
    }
    Some(room.filled(drawn))
}

/// The challenge that was drawn: eight bytes, the highest first, or none.
fn challenge_in(drawn: &[u8]) -> Option<u64>
    ensures { result ≡ (if length drawn.now == 8 then Some (big_number 8 drawn.now) else None) }
{
    if drawn.len() != 8 {
        return None;
    }
    Some(BigEndian::read_u64(drawn))
}

/// Takes room for a begin on a key, where it is stored.
fn reserve_begin(begins: &mut Begins, id: Option<u64>) -> Result<(), NoMemory>
    ensures room { OnOk result (spec.HasRoomOn begins.new id) }
    ensures same { SameBegins begins.old begins.new }
{
    match id {
        Some(id) => begins.reserve(id),
        None => Ok(()),
    }
}

/// Counts a begin on a key, where it is stored.
fn count_begin(begins: &mut Begins, id: Option<u64>)
    requires room { spec.HasRoomOn begins.old id }
    requires few { IfSome id (λ key. begins_in begins.old key < 2 ^ 63) }
    ensures { ChangesBegins (begins_of_key id) begins.old begins.new }
{
    if let Some(id) = id {
        begins.count(id);
    }
}

/// Takes the room of a begin, in the tables too.
fn make_ready(
    alloc: Global,
    begins: &mut Begins,
    admitted: &AdmittedBegin,
) -> Result<DrawnRooms, NoMemory>
    requires { admitted.now.begin.wanted + admitted.now.challenge < 2 ^ 62 }
    ensures nonce { IfOk result (λ rooms. room_in rooms.copy ≡ admitted.now.begin.wanted) }
    ensures draws { IfOk result (λ rooms. pieces_in rooms.draws ≡ admitted.now.begin.wanted + admitted.now.challenge) }
    ensures counted { OnOk result (spec.HasRoomOn begins.new admitted.now.id) }
    ensures begins { SameBegins begins.old begins.new }
{
    let pieces = Pieces {
        first: admitted.begin.wanted,
        second: admitted.challenge,
    };
    reserve_begin(begins, admitted.id)?;
    DrawnRooms::of(alloc, pieces)
}

impl Tables {
    /// Closes the operation that gives way, where one does; then a slot is free.
    fn make_way(&mut self, pruned: Option<u64>)
        requires idle { IfSome pruned (λ op. IsSome (state_at self.old op)) }
        requires free { IfNone pruned (is_free self.old.slots ≡ true) }
        requires row { IfSome pruned (λ op. IsSome (row_at self.old op)) }
        requires room { IfNone pruned (HasRoomForOperation self.old.operations) }
        ensures way { spec.MakesWay pruned self.old self.new }
        ensures boot { self.new.boot ≡ self.old.boot }
        ensures free { is_free self.new.slots ≡ true }
        ensures given { operations_given self.new.operations ≡ operations_given self.old.operations }
        ensures room { HasRoomForOperation self.new.operations }
    {
        if let Some(op) = pruned {
            self.close(op);
        }
    }

    /// Opens an operation of a uid on a key with its state, in the place of one that gives way, and counts it for the key where
    /// that is stored.
    fn open(
        &mut self,
        pruned: Option<u64>,
        step: u64,
        uid: u32,
        key: Option<u64>,
        row: OperationRow,
        state: CipherState,
    )
        requires idle { IfSome pruned (λ op. IsSome (state_at self.old op)) }
        requires free { IfNone pruned (is_free self.old.slots ≡ true) }
        requires fresh { is_some (held self.old.slots row.number) ≡ false }
        requires later { IsLater self.old.slots step }
        requires row { IfSome pruned (λ op. IsSome (row_at self.old op)) }
        requires room { IfNone pruned (HasRoomForOperation self.old.operations) }
        requires few { operations_given self.old.operations < 2 ^ 63 }
        requires number { row.number ≡ operations_given self.old.operations + 1 }
        requires counted { spec.HasRoomOn self.old.boot.begins key }
        requires less { IfSome key (λ id. begins_in self.old.boot.begins id < 2 ^ 63) }
        ensures { spec.OpensOne pruned step uid key row state self.old self.new }
    {
        self.make_way(pruned);
        self.slots.begin(row.number, uid, row.client, step, state);
        self.operations.open(row);
        count_begin(&mut self.boot.begins, key);
    }

    /// What a caller may begin on the key that its descriptor finds, by the rules, where `room` says whether there is a slot.
    fn admit(
        &self,
        alloc: Global,
        caller: Caller,
        key: Descriptor,
        params: &Bytes,
        forced: bool,
        room: bool,
    ) -> Result<AdmittedBegin, BeginFault>
        requires { IsCaller self.now caller }
        ensures gives { spec.Admits self.now caller key params.now forced room result }
        ensures room { IfOk result (λ admitted. room ≡ true) }
        ensures fits { IfOk result (λ admitted. (drawn : List ℕ) → length drawn ≡ admitted.begin.wanted →
            Fits admitted.begin.plan admitted.material (nonce_used admitted.begin.nonce drawn)) }
        ensures few { IfOk result (λ admitted. admitted.begin.wanted + admitted.challenge < 2 ^ 62) }
    {
        let table = self.keys.table();
        let own = BeginKey::open(
            alloc,
            &self.device,
            &self.policy,
            table,
            caller,
            key,
            params,
        )?;
        let conditions = conditions(&self.boot, caller, &own, room);
        own.admit(
            alloc,
            &self.device,
            &self.policy,
            caller,
            forced,
            conditions,
        )
    }

    /// A client begins an operation on a key that its descriptor finds.
    pub fn begin<N: Entropy>(
        &mut self,
        alloc: Global,
        entropy: &mut N,
        caller: Caller,
        step: u64,
        key: Descriptor,
        params: Bytes,
        forced: bool,
    ) -> Result<Answered, NoMemory>
        requires at { ∥ IsAt self.old step (acts.CreateOperation key params forced) None ∥₁ }
        requires few { step ≤ 2 ^ 63 }
        requires caller { IsCaller self.old caller }
        ensures serves { ServesAt step None self.old self.new (event_by caller (acts.CreateOperation key params forced)) result }
        ensures job { IfOk result (λ answered. answered.job ≡ None) }
        ensures drew { DrewForResult N.Entropy entropy.old entropy.new result }
        ensures store { IfOk result (λ answered. LeavesStore self.old self.new answered) }
    {
        let uid = owner_of(caller);
        let pruned = pruned_for(&self.slots, uid, forced, step);
        let room = has_slot(&self.slots, pruned);
        let admitted = match self.admit(alloc, caller, key, &params, forced, room) {
            Ok(admitted) => admitted,
            Err(BeginFault::Broken(rule, code)) => return Ok(Answered::refused(alloc, rule, code)),
            Err(BeginFault::Memory) => return Err(NoMemory),
        };
        let op = self.operations.next();
        let ready = make_ready(alloc, &mut self.boot.begins, &admitted)?;
        let DrawnRooms { draws, copy: nonce } = ready;
        let drawn = match draws.draw(entropy) {
            Ok(drawn) => drawn,
            Err(drawn) => {
                drop(admitted);
                return Ok(Answered::without_entropy(drawn));
            }
        };
        let (front, back) = drawn.as_slice().split_at(admitted.begin.wanted);
        let Ok(state) = admitted.start(alloc, front) else {
            drop(admitted);
            return Ok(Answered::without_memory(drawn));
        };
        let challenge = challenge_in(back);
        let nonce = drawn_nonce(nonce, admitted.begin.wanted, front);
        let id = admitted.id;
        let row = new_operation(op, caller.client, admitted, challenge);
        self.open(pruned, step, uid, id, row, state);
        Ok(Answered {
            reply: Reply::Done(Fields {
                op: Some(op),
                challenge,
                nonce,
                pruned,
                ..NO_FIELDS
            }),
            job: None,
            drawn,
        })
    }
}
