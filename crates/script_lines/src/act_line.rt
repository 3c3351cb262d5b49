//! The members that an act has in a line.

ghost use Rattle.std.specs.Prelude.{◌≡◌, OnOk};
ghost use Rattle.script_lines.specs.EventLines.{with_act};
ghost use Rattle.line_members.specs.Objects.{members_in};

use crate::key_acts::{
    put_create_operation, put_grant, put_import_key, put_import_wrapped_key, put_key,
    put_key_and_params, put_list_entries_batched, put_owner, put_ungrant,
};
use crate::service_acts::{put_auth_token, put_restart, put_user};
use crate::step_acts::{put_finish, put_update};
use line_members::WrittenObject;
use rule_model::Act;
use std::alloc::AllocError;

/// Each field of the act by its name; what is absent is left out.
pub fn put_act(object: &mut WrittenObject, act: &Act) -> Result<(), AllocError>
    ensures { OnOk result (members_in object.new ≡ with_act act.now (members_in object.old)) }
{
    match act {
        Act::Connect { uid } => object.put_number("uid", u64::from(*uid)),
        Act::Disconnect | Act::EarlyBootEnded => Ok(()),
        Act::GenerateKey { key, params } => put_key_and_params(object, key, params),
        Act::ImportKey {
            key,
            params,
            format,
            material,
        } => put_import_key(object, key, params, *format, material),
        Act::CreateOperation {
            key,
            params,
            forced,
        } => put_create_operation(object, key, params, *forced),
        Act::EnterAad { op, input } => put_update(object, *op, input),
        Act::EnterUpdate { op, input } => put_update(object, *op, input),
        Act::EnterFinish {
            op,
            input,
            signature,
        } => put_finish(object, *op, input, signature),
        Act::Abort { op } => object.put_number("op", *op),
        Act::GetKeyEntry { key } => put_key(object, key),
        Act::DeleteKey { key } => put_key(object, key),
        Act::Grant { key, uid, bits } => put_grant(object, key, *uid, *bits),
        Act::Ungrant { key, uid } => put_ungrant(object, key, *uid),
        Act::GetNumberOfEntries { domain, nspace } => put_owner(object, *domain, *nspace),
        Act::ClearNamespace { domain, nspace } => put_owner(object, *domain, *nspace),
        Act::ListEntriesBatched {
            domain,
            nspace,
            past,
        } => put_list_entries_batched(object, *domain, *nspace, past),
        Act::AddAuthToken {
            challenge,
            user,
            authenticator,
            kind,
            time,
            mac,
        } => put_auth_token(object, *challenge, *user, *authenticator, *kind, *time, mac),
        Act::DeviceLocked { user } => put_user(object, *user),
        Act::DeviceUnlocked { user } => put_user(object, *user),
        Act::UserRemoved { user } => put_user(object, *user),
        Act::Leave { ticket } => object.put_number("ticket", *ticket),
        Act::Restart { root } => put_restart(object, root),
        Act::UpgradeKey { key, params } => put_key_and_params(object, key, params),
        Act::ImportWrappedKey {
            key,
            params,
            wrapping,
            wrapped,
            unwrapping,
        } => put_import_wrapped_key(object, key, params, wrapping, wrapped, unwrapping),
    }
}
