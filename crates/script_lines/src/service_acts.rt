//! The acts on clients, users and the device.

ghost use Rattle.std.specs.Prelude.{◌≡◌, OnOk};
ghost use Rattle.serde_json.specs.View.{view};
ghost use Rattle.line_members.specs.Reads.{Gives};
ghost use Rattle.rule_model.specs.declared.act_kind.ActKind.TheVariants as names;
ghost use Rattle.script_lines.specs.Acts.{plain_act_of};
ghost use Rattle.rule_model.specs.declared.event.Act.TheVariants as acts;
ghost use Rattle.script_lines.specs.EventLines.{with_act};
ghost use Rattle.line_members.specs.Objects.{members_in};

use line_members::{
    LineFault, WrittenObject, needed_hex_32, needed_u32, needed_u64, optional_hex_32,
};
use rule_model::Act;
use serde_json::Value;
use std::alloc::{AllocError, Global};

/// A connect: its member `uid`.
pub fn connect(object: &Value) -> Result<Act, LineFault>
    ensures { Gives result (plain_act_of names.Connect (view object.now)) }
{
    let uid = needed_u32(object, "uid")?;
    Ok(Act::Connect { uid })
}

/// An addAuthToken: its members `challenge`, `user`, `authenticator`, `kind`, `time` (milliseconds) and `mac` (hex of 32
/// bytes).
pub fn add_auth_token(alloc: Global, object: &Value) -> Result<Act, LineFault>
    ensures { Gives result (plain_act_of names.AddAuthToken (view object.now)) }
{
    let challenge = needed_u64(object, "challenge")?;
    let user = needed_u64(object, "user")?;
    let authenticator = needed_u64(object, "authenticator")?;
    let kind = needed_u32(object, "kind")?;
    let time = needed_u64(object, "time")?;
    let mac = needed_hex_32(alloc, object, "mac")?;
    Ok(Act::AddAuthToken {
        challenge,
        user,
        authenticator,
        kind,
        time,
        mac,
    })
}

/// The members of an addAuthToken.
pub fn put_auth_token(
    object: &mut WrittenObject,
    challenge: u64,
    user: u64,
    authenticator: u64,
    kind: u32,
    time: u64,
    mac: &[u8; 32],
) -> Result<(), AllocError>
    ensures { OnOk result (members_in object.new ≡ with_act (acts.AddAuthToken challenge user authenticator kind time mac.now) (members_in object.old)) }
{
    object.put_number("challenge", challenge)?;
    object.put_number("user", user)?;
    object.put_number("authenticator", authenticator)?;
    object.put_number("kind", u64::from(kind))?;
    object.put_number("time", time)?;
    object.put_hex("mac", mac.as_slice())
}

/// A deviceLocked: its member `user`.
pub fn device_locked(object: &Value) -> Result<Act, LineFault>
    ensures { Gives result (plain_act_of names.DeviceLocked (view object.now)) }
{
    let user = needed_u32(object, "user")?;
    Ok(Act::DeviceLocked { user })
}

/// The member of a deviceLocked, a deviceUnlocked and a userRemoved.
pub fn put_user(object: &mut WrittenObject, user: u32) -> Result<(), AllocError>
    ensures { OnOk result (members_in object.new ≡ with_act (acts.DeviceLocked user) (members_in object.old)) }
{
    object.put_number("user", u64::from(user))
}

/// A deviceUnlocked: its member `user`.
pub fn device_unlocked(object: &Value) -> Result<Act, LineFault>
    ensures { Gives result (plain_act_of names.DeviceUnlocked (view object.now)) }
{
    let user = needed_u32(object, "user")?;
    Ok(Act::DeviceUnlocked { user })
}

/// A userRemoved: its member `user`.
pub fn user_removed(object: &Value) -> Result<Act, LineFault>
    ensures { Gives result (plain_act_of names.UserRemoved (view object.now)) }
{
    let user = needed_u32(object, "user")?;
    Ok(Act::UserRemoved { user })
}

/// A restart: its member `root` (hex of 32 bytes), where there is one.
pub fn restart(alloc: Global, object: &Value) -> Result<Act, LineFault>
    ensures { Gives result (plain_act_of names.Restart (view object.now)) }
{
    let root = optional_hex_32(alloc, object, "root")?;
    Ok(Act::Restart { root })
}

/// The members of a restart.
pub fn put_restart(object: &mut WrittenObject, root: &Option<[u8; 32]>) -> Result<(), AllocError>
    ensures { OnOk result (members_in object.new ≡ with_act (acts.Restart root.now) (members_in object.old)) }
{
    match root {
        None => Ok(()),
        Some(root) => object.put_hex("root", root.as_slice()),
    }
}
