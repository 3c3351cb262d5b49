//! The calls of the system that tell of the device: a token, a user that is locked or unlocked, and the end of early boot.

ghost use Rattle.std.specs.Prelude.{◌≡◌, ◌==◌, length, is_err, None, Ok, OnErr, OnOk};
ghost use Rattle.rule_model.specs.declared.event.Act.TheVariants as acts;
ghost use Rattle.rule_model.specs.Boot.{other_triples};
ghost use Rattle.keystore_core.specs.Drawn.{IsUndrawn};
ghost use Rattle.keystore_core.specs.Tables.{IsCaller, ServesAfter, event_by};
ghost use Rattle.keystore_core.specs.TokenCalls as spec;
ghost use Rattle.live_tables.specs.Tokens.{tokens_in};
ghost use Rattle.keystore_core.specs.Writing.{LeavesStore};
ghost use Rattle.tags.specs.declared.limits.TheConstants.{MOST_TRIPLES};

use crate::answered::Answered;
use crate::tables::Tables;
use auth_tokens::AuthToken;
use call_answers::system_facts;
use call_rules::{check_system_call, check_token, check_user_call};
use rule_model::{Caller, NO_FIELDS, Reply};
use std::alloc::Global;
use tags::Code;
use token_store::TokensFull;

impl Tables {
    /// Takes a token in and shows it to the operations that it is for, where there is a place for it.
    fn accept(&mut self, token: AuthToken) -> Result<(), TokensFull>
        ensures full { is_err result ≡ (length (other_triples token (tokens_in self.old.boot.tokens)) == MOST_TRIPLES) }
        ensures accepts { OnOk result (spec.AcceptsToken token self.old self.new) }
        ensures same { OnErr result (spec.RefusesToken self.old self.new) }
    {
        self.boot.tokens.accept(token)?;
        self.operations.show(&token);
        Ok(())
    }

    /// The system hands a token over.
    pub fn add_auth_token(&mut self, alloc: Global, caller: Caller, token: AuthToken) -> Answered
        requires { IsCaller self.old caller }
        ensures serves { ServesAfter self.old self.new (event_by caller (spec.adding token)) (Ok result) }
        ensures job { result.job ≡ None }
        ensures drew { IsUndrawn result }
        ensures store { LeavesStore self.old self.new result }
    {
        let is_right = self.boot.tokens.has_right_mac(&token);
        if let Err((rule, code)) = check_token(is_right, &system_facts(caller)) {
            return Answered::refused(alloc, rule, code);
        }
        match self.accept(token) {
            Ok(()) => Answered::undrawn(alloc, Reply::Done(NO_FIELDS)),
            Err(TokensFull) => Answered::stopped(alloc, Code::TokensFull),
        }
    }

    /// The system tells that a user is locked.
    pub fn device_locked(&mut self, alloc: Global, caller: Caller, user: u32) -> Answered
        requires { IsCaller self.old caller }
        ensures serves { ServesAfter self.old self.new (event_by caller (acts.DeviceLocked user)) (Ok result) }
        ensures job { result.job ≡ None }
        ensures drew { IsUndrawn result }
        ensures store { LeavesStore self.old self.new result }
    {
        if let Err((rule, code)) = check_user_call(user, &system_facts(caller)) {
            return Answered::refused(alloc, rule, code);
        }
        self.boot.device.set(user, false);
        Answered::undrawn(alloc, Reply::Done(NO_FIELDS))
    }

    /// The system tells that a user is unlocked.
    pub fn device_unlocked(&mut self, alloc: Global, caller: Caller, user: u32) -> Answered
        requires { IsCaller self.old caller }
        ensures serves { ServesAfter self.old self.new (event_by caller (acts.DeviceUnlocked user)) (Ok result) }
        ensures job { result.job ≡ None }
        ensures drew { IsUndrawn result }
        ensures store { LeavesStore self.old self.new result }
    {
        if let Err((rule, code)) = check_user_call(user, &system_facts(caller)) {
            return Answered::refused(alloc, rule, code);
        }
        self.boot.device.set(user, true);
        Answered::undrawn(alloc, Reply::Done(NO_FIELDS))
    }

    /// The system tells that early boot has ended.
    pub fn early_boot_ended(&mut self, alloc: Global, caller: Caller) -> Answered
        requires { IsCaller self.old caller }
        ensures serves { ServesAfter self.old self.new (event_by caller acts.EarlyBootEnded) (Ok result) }
        ensures job { result.job ≡ None }
        ensures drew { IsUndrawn result }
        ensures store { LeavesStore self.old self.new result }
    {
        if let Err((rule, code)) = check_system_call(&system_facts(caller)) {
            return Answered::refused(alloc, rule, code);
        }
        self.boot.device.end_early_boot();
        Answered::undrawn(alloc, Reply::Done(NO_FIELDS))
    }
}
