//! The list of an operation, read as a key's is.

ghost use Rattle.std.specs.Prelude.{◌≡◌, IfOk};
ghost use Rattle.key_rules.specs.Asked as spec;

use crate::NewFault;
use crate::table::read_by_rule;
use std::alloc::Global;
use tag_lists::AuthList;
use tags::{Code, NoMemory};

/// The list of an operation, read as K4 reads a key's, or the code of the first part of K4 that is broken:
/// `InvalidInputLength` for more than 4,096 bytes, `InvalidTag` or `InvalidKeyArgument` for bytes that spell no list, and
/// `InvalidInputLength` for an APPLICATION_ID or APPLICATION_DATA of more than 1,024 bytes. `NoMemory` comes where memory
/// is wanted.
#[tactic(auto, unfolding(crate::specs::Asked::asked))]
pub fn read_asked(alloc: Global, params: &[u8]) -> Result<Result<AuthList, Code>, NoMemory>
    ensures { IfOk result (λ asked. asked ≡ spec.asked params.now) }
{
    match read_by_rule(alloc, params) {
        Ok(list) => Ok(Ok(list)),
        Err(NewFault::Broken(_, code)) => Ok(Err(code)),
        Err(NewFault::Memory) => Err(NoMemory),
    }
}
