//! What an entry makes of what lasts until the next restart: of clients, of operations and tickets, and of the device.

use crate::operation::{Entered, Operation};
use auth_tokens::AuthToken;
use tags::Bytes;

/// What an entry makes of the clients.
#[derive(Clone, Copy, Debug, PartialEq, Eq)]
pub enum ClientChange {
    /// nothing
    SameClients,
    /// One comes.
    Comes {
        /// its number
        client: u64,
        uid: u32,
    },
    /// One goes.
    Goes {
        client: u64,
    },
    /// All are gone.
    AllGo,
}

/// What an entry makes of the operations.
#[derive(Drop)]
pub enum OperationChange {
    /// nothing
    SameOperations,
    /// One opens.
    Opens {
        /// the one that gives way, where one does
        pruned: Option<u64>,
        operation: Operation,
    },
    /// A work on one goes out.
    Enters {
        op: u64,
        ticket: u64,
    },
    /// A work on one came back.
    Returns {
        op: u64,
        /// the additional data that it took
        aad: Bytes,
        /// the text that it took
        text: Bytes,
    },
    /// A token is shown to those that it is for.
    Shows {
        token: AuthToken,
    },
    /// One closes.
    Closes {
        op: u64,
    },
    /// All of a client close.
    ClosesOf {
        client: u64,
    },
    /// All close.
    ClosesAll,
}

/// What an entry makes of the tickets.
#[derive(Drop)]
pub enum TicketChange {
    /// nothing
    SameTickets,
    /// One goes out with its work.
    GoesOut { ticket: u64, entered: Entered },
    /// One comes back.
    ComesBack { ticket: u64 },
    /// All are gone.
    AllGone,
}

/// What an entry makes of what the device keeps until it starts again: users' locks, early boot, tokens and begins.
#[derive(Clone, Copy, Debug, PartialEq, Eq)]
pub enum BootChange {
    /// nothing
    SameBoot,
    /// A user's device is locked.
    Locks { user: u32 },
    /// A user's device is unlocked.
    Unlocks { user: u32 },
    /// Early boot ends.
    EndsEarlyBoot,
    /// A token is accepted.
    Accepts { token: AuthToken },
    /// An operation begins on a stored key.
    BeginsOn { key: u64 },
    /// The device starts again.
    StartsAgain,
}
