//! The state of the device: which users are unlocked, and whether early boot has ended.

ghost use Rattle.std.specs.Prelude.{◌≡◌, ◌≤◌, IfOk, replicate, false, if◌then◌else◌};
ghost use Rattle.rule_model.specs.declared.entry_change.BootChange.TheVariants.{EndsEarlyBoot, Locks, StartsAgain, Unlocks};
ghost use Rattle.live_tables.specs.Device.{ChangesDevice, IsStart, early_in, unlocked_in};
ghost use Rattle.tags.specs.declared.limits.TheConstants.{MOST_USER};

use crate::device::DeviceState;
use std::alloc::Global;
use tags::NoMemory;

/// How many users there are: 0 to 42,949.
const USERS: usize = 42_950;

/// So many users, all locked.
fn all_locked(alloc: Global, users: usize) -> Result<Vec<bool>, NoMemory>
    ensures { IfOk result (λ unlocked. unlocked.items ≡ replicate users false) }
{
    Ok(vec![in alloc; false; users]?)
}

impl DeviceState {
    /// The state at the start: every user is locked, and early boot has not ended. It is the one call that takes memory.
    pub fn new(alloc: Global) -> Result<DeviceState, NoMemory>
        ensures { IfOk result (λ device. IsStart device) }
    {
        Ok(DeviceState {
            unlocked: all_locked(alloc, USERS)?,
            early_ended: false,
        })
    }

    /// Whether a user is unlocked.
    pub fn is_unlocked(&self, user: u32) -> bool
        ensures { result ≡ unlocked_in self.now user }
    {
        match self.unlocked.get(user as usize) {
            Some(unlocked) => *unlocked,
            None => false,
        }
    }

    /// Whether early boot has ended.
    pub fn has_early_ended(&self) -> bool
        ensures { result ≡ early_in self.now }
    {
        self.early_ended
    }

    /// Locks a user, or unlocks it.
    pub fn set(&mut self, user: u32, unlocked: bool)
        requires { user ≤ MOST_USER }
        ensures { ChangesDevice (if unlocked then Unlocks user else Locks user) self.old self.new }
    {
        self.unlocked[user as usize] = unlocked;
    }

    /// Locks every user, and lets early boot begin.
    pub fn restart(&mut self)
        ensures { ChangesDevice StartsAgain self.old self.new }
    {
        self.unlocked.fill(false);
        self.early_ended = false;
    }

    /// Ends early boot.
    pub fn end_early_boot(&mut self)
        ensures { ChangesDevice EndsEarlyBoot self.old self.new }
    {
        self.early_ended = true;
    }
}
