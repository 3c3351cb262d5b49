//! Places in chains, against one plain list of all places that are in one, the newest last.
ghost use Rattle.std.specs.Prelude.{◌≡◌, ◌<◌};
ghost use Rattle.slot_chain.specs.Table.{places_count};
ghost use Rattle.library_tests.specs.PlainList.{Agrees, holds};

use crate::draws::Draws;
use slot_chain::{Chains, Steps};
use std::alloc::Global;
use std::marker::Brand;
use std::sync::ledger::{Blank, Ledger};

/// The plain list: uids with their places.
type Rows = Vec<(u32, u32)>;

const PLACES: u32 = 64;

/// What is called, and of which uid and place, below their count.
#[derive(Clone, Copy)]
enum Call {
    Push(u32, u32),
    Unlink(u32),
    Clear,
}

/// Whether a place is in the list.
fn has(rows: &[(u32, u32)], place: u32) -> bool
    ensures { result ≡ holds place rows.now }
{
    rows.iter().any(|row| row.1 == place)
}

/// The first place of a uid.
fn first(rows: &[(u32, u32)], uid: u32) -> Option<u32> {
    for row in rows {
        if row.0 == uid {
            return Some(row.1);
        }
    }
    None
}

/// How many uids have a place.
fn owner_count(rows: &[(u32, u32)]) -> usize {
    let mut count = 0usize;
    for row in rows {
        if first(rows, row.0) == Some(row.1) {
            count = count.saturating_add(1);
        }
    }
    count
}

/// Pushes a place that is in no list, and tells whether there was memory for the plain one.
fn push(chains: &mut Chains, rows: &mut Rows, uid: u32, place: u32) -> bool
    requires agrees { Agrees chains.old rows.old.items }
    requires within { place < places_count chains.old }
    ensures agrees { Agrees chains.new rows.new.items }
    ensures count { places_count chains.new ≡ places_count chains.old }
{
    if has(rows, place) {
        return true;
    }
    let Ok(()) = rows.push((uid, place)) else {
        return false;
    };
    chains.push_newest(uid, place);
    true
}

/// Unlinks a place that is in a list.
fn unlink(chains: &mut Chains, rows: &mut Rows, place: u32)
    requires { Agrees chains.old rows.old.items }
    ensures agrees { Agrees chains.new rows.new.items }
    ensures count { places_count chains.new ≡ places_count chains.old }
{
    if !has(rows, place) {
        return;
    }
    chains.unlink(place);
    rows.retain(|row| row.1 != place);
}

/// Clears both.
fn clear(chains: &mut Chains, rows: &mut Rows)
    ensures agrees { Agrees chains.new rows.new.items }
    ensures count { places_count chains.new ≡ places_count chains.old }
{
    chains.clear();
    rows.clear();
}

/// Makes a call, and tells whether there was memory.
fn make(chains: &mut Chains, rows: &mut Rows, call: Call) -> bool
    requires agrees { Agrees chains.old rows.old.items }
    requires count { places_count chains.old ≡ PLACES }
    ensures agrees { Agrees chains.new rows.new.items }
    ensures count { places_count chains.new ≡ places_count chains.old }
{
    match call {
        Call::Push(uid, place) if place < PLACES => push(chains, rows, uid, place),
        Call::Push(_uid, _place) => false,
        Call::Unlink(place) => {
            unlink(chains, rows, place);
            true
        }
        Call::Clear => {
            clear(chains, rows);
            true
        }
    }
}

/// The oldest place of a uid, by a counter of its own.
fn oldest<L: Ledger>(chains: &Chains, uid: u32, blank: Blank) -> Option<u32>
    requires name { blank.name ≡ L.name }
    requires parts { blank.parts ≡ L.parts }
    requires some { 0 < L.parts }
{
    let mut steps = Steps::<L>::new(blank);
    chains.oldest(uid, &mut steps)
}

/// The chains answer as the list does: of a uid, of how many have a place, and of one of these.
fn answer(chains: &Chains, rows: &[(u32, u32)], uid: u32, at: u32) -> bool {
    let owners = owner_count(rows);
    let owner = match chains.owner(at as usize) {
        Some(owner) => (at as usize) < owners && first(rows, owner).is_some(),
        None => owners <= at as usize,
    };
    let oldest = oldest::<Brand>(chains, uid, Blank::new(1));
    owner && oldest == first(rows, uid) && chains.owner_count() == owners
}

/// At first each place is pushed, and then unlinked; from then on the calls are drawn, more pushes in one half of the time and more
/// unlinks in the other.
fn drawn_call(turn: u32, uids: u32, draws: &mut Draws) -> Call {
    if turn < PLACES {
        return Call::Push(turn.checked_rem(uids).unwrap_or(0), turn);
    }
    if turn < 2 * PLACES {
        return Call::Unlink(turn - PLACES);
    }
    let pushes = if turn & 1024 == 0 { 700 } else { 300 };
    match draws.below(1_000) {
        0 => Call::Clear,
        drawn if drawn < pushes => Call::Push(draws.below(uids), draws.below(PLACES)),
        _ => Call::Unlink(draws.below(PLACES)),
    }
}

/// Whether the chains answer as the list does behind each of so many calls.
fn agree(alloc: Global, uids: u32, calls: u32, draws: &mut Draws) -> bool {
    let Ok(mut chains) = Chains::with_places(alloc, PLACES as usize) else {
        return false;
    };
    let mut rows = Vec::new(alloc);
    let mut same = true;
    'calls: for turn in 0..calls {
        same &= make(&mut chains, &mut rows, drawn_call(turn, uids, draws));
        same &= answer(&chains, &rows, draws.below(uids), draws.below(PLACES));
    }
    drop(chains);
    drop(rows);
    same
}

#[test]
fn places_in_chains_go_as_in_a_plain_list(rt: HostRuntime) {
    let mut draws = Draws { state: 73 };
    for uids in [1, 3, 9, PLACES] {
        let agrees = agree(rt.alloc(), uids, 25_000, &mut draws);
        assert!(rt; agrees, "of {uids} uids");
    }
}
