//! The permission table that stands in place of SELinux.

ghost use Rattle.std.specs.Prelude.{◌≡◌, ◌≤◌, ◌<◌, ◌↔◌, List, ◌∷◌, [], length, IsSome, IfSome, IfOk};
ghost use Rattle.tags.specs.declared.policy.PolicyRow.{PolicyRow};

use crate::NoMemory;
use crate::limits::POLICY_ROWS;
use std::alloc::Global;
use std::marker::Model;

/// What a uid may do in a namespace of SELINUX: permission bits of Keystore2's `KeyPermission`.
#[derive(Clone, Copy, Debug, PartialEq, Eq)]
pub struct PolicyRow {
    pub uid: u32,
    pub nspace: u64,
    pub bits: u32,
}

/// The permission table that is handed in, in place of SELinux: the list of its rows, at most `POLICY_ROWS`.
#[derive(Debug, Drop)]
pub struct Policy {
    rows: Vec<PolicyRow>,
}

impl Model for Policy {
    ghost use Rattle.std.specs.Prelude.{List, ◌≤◌, length};
    ghost use Rattle.tags.specs.declared.limits.TheConstants.{POLICY_ROWS};
    ghost use Rattle.tags.specs.declared.policy.PolicyRow.{PolicyRow};

    ghost Value = { List PolicyRow };

    ghost view = { λ p. p.rows.items };

    ghost invariant = { λ p. length p.rows.items ≤ POLICY_ROWS };
}

impl Policy {
    ghost use Rattle.tags.specs.Policy.{bits_of};

    /// A policy of these rows: `None` exactly for more than `POLICY_ROWS`. It takes no memory.
    pub fn of(rows: Vec<PolicyRow>) -> Option<Policy>
        ensures few { IsSome result ↔ (length rows.items ≤ POLICY_ROWS) }
        ensures rows { IfSome result (λ policy. policy ≡ rows.items) }
    {
        if rows.len() <= POLICY_ROWS {
            Some(Policy { rows })
        } else {
            None
        }
    }

    /// A policy for demonstrations: uid 1000 in the namespaces 100 and 0.
    pub fn demo(alloc: Global) -> Result<Policy, NoMemory>
        ensures { IfOk result (λ policy. policy ≡
            record { uid = 1000; nspace = 100; bits = 509 } ∷ record { uid = 1000; nspace = 0; bits = 64 } ∷ []) }
    {
        let rows = vec![in alloc;
            PolicyRow {
                uid: 1000,
                nspace: 100,
                bits: 509
            },
            PolicyRow {
                uid: 1000,
                nspace: 0,
                bits: 64
            },
        ]?;
        Ok(Policy { rows })
    }

    /// The rows, at most `POLICY_ROWS`.
    pub fn rows(&self) -> &[PolicyRow]
        ensures rows { result.now ≡ self.now }
        ensures few { length self.now ≤ POLICY_ROWS }
    {
        self.rows.as_slice()
    }

    /// The bits of a uid in a namespace, of the first row that names both. It takes no memory.
    pub fn bits(&self, uid: u32, nspace: u64) -> Option<u32>
        ensures { result ≡ bits_of self.now uid nspace }
    {
        self.rows
            .iter()
            .find(|row| row.uid == uid && row.nspace == nspace)
            .map(|row| row.bits)
    }
}
