//! What stands behind the lock.

ghost use Rattle.std.specs.Prelude.{◌≡◌, ◌*◌, ◌≤◌, ◌^◌, length};
ghost use Rattle.service_book.specs.Book.{log_of};
ghost use Rattle.service_book.specs.Limits.{MOST_ENTRIES, recorded};
ghost use Rattle.shared_service.specs.Desks.{IsDesk, weight};
ghost use Rattle.shared_service.specs.Records.{book_in, places_in};

use crate::name::ServiceId;
use crate::record::Record;
use keystore_core::Engine;
use ks_outside::{Disk, Entropy};
use service_book::BookEntry;
use std::alloc::Global;
use turn_lock::History;

mod making;
mod requests;
mod rooms;
mod steps;

/// The engine with its devices, and the book, which has a place for the leave of each ticket that is out and one for the
/// disconnect of each connected client.
#[derive(Drop)]
pub struct Desk<D: Disk, N: Entropy> {
    alloc: Global,
    name: ServiceId<N>,
    engine: Engine,
    disk: D,
    entropy: N,
    book: Record,
    ghost stands: { ∥ IsDesk D.Disk N.Entropy name engine disk entropy (book_in book) ∥₁ },
    ghost places: { weight (log_of (book_in book)) ≤ places_in book },
    ghost few: { weight (log_of (book_in book)) ≤ MOST_ENTRIES },
    ghost small: { recorded (log_of (book_in book)) ≤ length (book_in book) * 2 ^ 35 },
}

impl<D: Disk, N: Entropy> History<BookEntry, ServiceId<N>> for Desk<D, N> {
    ghost use Rattle.std.specs.Prelude.{◌≡◌};
    ghost use Rattle.std.proofs.Common.{arith};
    ghost use Rattle.shared_service.specs.Records.{book_in};

    ghost entries = { λ desk. book_in desk.book };

    ghost maker = { λ e. e.pass };

    ghost level = { λ _. 0 };

    ghost rises = { λ xs ys. omega arith };

    ghost fits = { λ name desk. desk.name ≡ name };
}
