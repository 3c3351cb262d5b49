//! What the engine knows, and how an event is answered from it.

ghost use Rattle.std.specs.Prelude.{◌≡◌, ◌+◌, ◌^◌, ◌≤◌, true, false, None, IfOk, IfSome, IsTrue, OnErr};
ghost use Rattle.cipher_ops.specs.Jobs.{ticket_of};
ghost use Rattle.live_tables.specs.Tickets.{tickets_given};
ghost use Rattle.rule_model.specs.Acts.{fixed_for, is_leave, is_restart};
ghost use Rattle.rule_model.specs.Setup.{Setup};
ghost use Rattle.keystore_core.specs.Drawn.{DrewFor, DrewForResult};
ghost use Rattle.keystore_core.specs.Tables.{AnswersAt, IsAt, IsCaller, ServesAt, TablesStand, event_by};
ghost use Rattle.ks_outside.specs.Images.{tells};
ghost use Rattle.journal_records.specs.Holding.{Holding};
ghost use Rattle.key_database.specs.Stands.{Holds, is_unsettled, lasting};
ghost use Rattle.keystore_core.specs.Engine.{IsOver};
ghost use Rattle.keystore_core.specs.Keys.{AreSettled};
ghost use Rattle.keystore_core.specs.Restarting.{HasRead, is_other_store};
ghost use Rattle.keystore_core.specs.Writing.{StoreAnswers, StoreGoesAfter};
ghost use Rattle.tags.specs.declared.limits.TheConstants.{MOST_SLOTS};

use crate::answered::Answered;
use auth_tokens::AuthToken;
use call_answers::{AskedKey, KeySource};
use cipher_ops::{CipherState, Done, Work};
use key_database::KeyDatabase;
use ks_outside::{Disk, Entropy};
use live_tables::{Boot, Clients, Operations, Tickets};
use operation_slots::Slots;
use rule_model::{Act, Caller, Event, Reading};
use std::alloc::Global;
use tags::{Bytes, Code, DeviceSecrets, NoMemory, Policy, Rule, RuleTable};

/// What the engine knows: the device's secrets with its root of trust, the policy, the connected clients, the keys and
/// grants with the store that they lie in, the open operations with what the rules read of them, the slots with their
/// cipher states, the works that are out, and what lasts until the next restart.
#[derive(Drop)]
pub struct Tables {
    pub(crate) device: DeviceSecrets,
    pub(crate) policy: Policy,
    pub(crate) clients: Clients,
    pub(crate) keys: KeyDatabase,
    pub(crate) operations: Operations,
    pub(crate) slots: Slots<CipherState>,
    pub(crate) tickets: Tickets,
    pub(crate) boot: Boot,
}

impl Tables {
    ghost use Rattle.std.specs.Prelude.{[], ◌<◌};

    /// Tables of a device that starts over a store, under a policy, without clients and operations, with so many slots.
    pub fn new(
        alloc: Global,
        device: &DeviceSecrets,
        policy: Policy,
        slots: usize,
        keys: KeyDatabase,
    ) -> Result<Tables, NoMemory>
        requires some { 0 < slots }
        requires few { slots ≤ MOST_SLOTS }
        requires settled { is_unsettled keys ≡ false }
        ensures stands { IfOk result (λ tables. (setup : Setup) → IsOver setup device.now policy slots keys → TablesStand setup tables []) }
        ensures keys { IfOk result (λ tables. tables.keys ≡ keys) }
    {
        let operations = Operations::with_room(alloc, slots)?;
        let slots = Slots::with_capacity(alloc, slots)?;
        let boot = Boot::new(alloc, device.token)?;
        Ok(Tables {
            device: *device,
            policy,
            clients: Clients::new(alloc),
            keys,
            operations,
            slots,
            tickets: Tickets::new(alloc),
            boot,
        })
    }

    /// Who makes a call.
    fn caller(&self, reading: Reading, client: u64) -> Caller
        ensures caller { IsCaller self.now result }
        ensures reading { result.reading ≡ reading }
        ensures client { result.client ≡ client }
    {
        Caller {
            reading,
            client,
            uid: self.clients.uid_of(client),
        }
    }

    /// Serves an act other than a leave by the rules.
    fn serve<D: Disk, N: Entropy>(
        &mut self,
        alloc: Global,
        disk: &mut D,
        entropy: &mut N,
        caller: Caller,
        step: u64,
        act: Act,
    ) -> Result<Answered, NoMemory>
        requires at { ∥ IsAt self.old step act None ∥₁ }
        requires comes { is_leave act ≡ false }
        requires few { step ≤ 2 ^ 63 }
        requires caller { IsCaller self.old caller }
        requires settled { (fixed_for act).settles ≡ true → AreSettled self.old }
        ensures serves { ServesAt step None self.old self.new (event_by caller act) result }
        ensures number { IfOk result (λ answered. IfSome answered.job (λ job. ticket_of job ≡ tickets_given self.old.tickets + 1)) }
        ensures memory { OnErr result (IsTrue (fixed_for act).takes_memory) }
        ensures drew { DrewForResult N.Entropy entropy.old entropy.new result }
        ensures store { StoreGoesAfter D.Disk self.old self.new disk.old disk.new caller act result }
        ensures same { (held : Holding) → Holds D.Disk self.old.keys disk.old held → tells D.Disk disk.old ≡ true
            → is_restart act ≡ true → IfOk result (λ answered. is_other_store answered.reply ≡ false) }
        ensures reads { is_restart act ≡ true → IfOk result (λ answered. HasRead D.Disk disk.new (lasting self.new.keys) answered.reply) }
    {
        match act {
            Act::Connect { uid } => self.connect(alloc, caller, uid),
            Act::Disconnect => Ok(self.disconnect(alloc, caller)),
            Act::GenerateKey { key, params } => {
                let asked = AskedKey {
                    key,
                    params,
                    source: KeySource::Generated,
                };
                self.make_key(alloc, disk, entropy, caller, asked)
            }
            Act::ImportKey {
                key,
                params,
                format,
                material,
            } => {
                let asked = AskedKey {
                    key,
                    params,
                    source: KeySource::Imported { format, material },
                };
                self.make_key(alloc, disk, entropy, caller, asked)
            }
            Act::CreateOperation {
                key,
                params,
                forced,
            } => self.begin(alloc, entropy, caller, step, key, params, forced),
            Act::EnterAad { op, input } => self.enter(alloc, disk, caller, op, Work::Aad { input }),
            Act::EnterUpdate { op, input } => self.enter(
                alloc,
                disk,
                caller,
                op,
                Work::Text { input },
            ),
            Act::EnterFinish {
                op,
                input,
                signature,
            } => self.enter(alloc, disk, caller, op, Work::Last { input, signature }),
            Act::Abort { op } => Ok(self.abort(alloc, caller, op)),
            Act::GetKeyEntry { key } => self.get_key_entry(alloc, caller, &key),
            Act::DeleteKey { key } => Ok(self.delete_key(alloc, disk, caller, &key)),
            Act::Grant { key, uid, bits } => self.grant(alloc, disk, caller, &key, uid, bits),
            Act::Ungrant { key, uid } => Ok(self.ungrant(alloc, disk, caller, &key, uid)),
            Act::GetNumberOfEntries { domain, nspace } => {
                Ok(self.get_number_of_entries(alloc, caller, domain, nspace))
            }
            Act::ListEntriesBatched {
                domain,
                nspace,
                past,
            } => self.list_entries_batched(alloc, caller, domain, nspace, &past),
            Act::ClearNamespace { domain, nspace } => {
                Ok(self.clear_namespace(alloc, disk, caller, domain, nspace))
            }
            Act::UserRemoved { user } => Ok(self.user_removed(alloc, disk, caller, user)),
            Act::AddAuthToken {
                challenge,
                user,
                authenticator,
                kind,
                time,
                mac,
            } => {
                let token = AuthToken {
                    challenge,
                    user,
                    authenticator,
                    kind,
                    time,
                    mac,
                };
                Ok(self.add_auth_token(alloc, caller, token))
            }
            Act::DeviceLocked { user } => Ok(self.device_locked(alloc, caller, user)),
            Act::DeviceUnlocked { user } => Ok(self.device_unlocked(alloc, caller, user)),
            Act::EarlyBootEnded => Ok(self.early_boot_ended(alloc, caller)),
            Act::Leave { .. } => unreachable!(),
            Act::Restart { root } => self.restart(alloc, disk, caller, root),
            Act::UpgradeKey { key, params } => {
                self.upgrade_key(alloc, disk, entropy, caller, key, &params)
            }
            Act::ImportWrappedKey {
                key,
                params,
                wrapping,
                wrapped,
                unwrapping,
            } => {
                let source = KeySource::Wrapped {
                    wrapping,
                    wrapped,
                    unwrapping,
                };
                let asked = AskedKey {
                    key,
                    params,
                    source,
                };
                self.make_key(alloc, disk, entropy, caller, asked)
            }
        }
    }

    /// Answers an event: by the rules, or with want of memory.
    pub fn answer<D: Disk, N: Entropy>(
        &mut self,
        alloc: Global,
        disk: &mut D,
        entropy: &mut N,
        step: u64,
        event: Event,
        done: Option<Done>,
    ) -> Answered
        requires at { ∥ IsAt self.old step event.act done ∥₁ }
        requires few { step ≤ 2 ^ 63 }
        requires settled { (fixed_for event.act).settles ≡ true → AreSettled self.old }
        ensures answers { AnswersAt step done self.old self.new event result }
        ensures number { IfSome result.job (λ job. ticket_of job ≡ tickets_given self.old.tickets + 1) }
        ensures drew { DrewFor N.Entropy entropy.old entropy.new result }
        ensures store { StoreAnswers D.Disk self.old self.new disk.old disk.new event result }
        ensures same { (held : Holding) → Holds D.Disk self.old.keys disk.old held → tells D.Disk disk.old ≡ true
            → is_restart event.act ≡ true → is_other_store result.reply ≡ false }
        ensures reads { is_restart event.act ≡ true → HasRead D.Disk disk.new (lasting self.new.keys) result.reply }
    {
        let Event {
            reading,
            client,
            act,
        } = event;
        let caller = self.caller(reading, client);
        if let Some(ticket) = act.ticket() {
            drop(act);
            return self.leave(alloc, caller, step, ticket, done);
        }
        drop(done);
        match self.serve(alloc, disk, entropy, caller, step, act) {
            Ok(answered) => answered,
            Err(NoMemory) => Answered::without_memory(Bytes::empty(alloc)),
        }
    }
}
