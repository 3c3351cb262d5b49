//! Snapshots of tables that are drawn, beside another writer and reader.

use crate::databases::make;
use crate::draws::{Draws, digest, framed};
use crate::rows::put;
use crate::two_areas::{AREA_B, disk_of, fresh};
use disk_calls::{read_still, sync_still};
use disk_model::MemoryDisk;
use journal_records::{AREA_KINDS, read_record};
use lasting_table::{LastingTable, TableReplay};
use std::alloc::{AllocError, Global};

/// The owners and the aliases of the keys that are drawn.
static OWNERS: [(u8, u64); 4] = [(0, 10_001), (0, 10_002), (0, 110_001), (2, 100)];

static ALIASES: [&[u8]; 4] = [b"m", b"n", b"\xc3\xb6", b"key key key key"];

/// At most so many changes are drawn for a table.
const MOST_CHANGES: u64 = 24;

/// Adds a number that was given, or the next one, which is none.
fn put_given(draws: &mut Draws, next: u64, body: &mut Vec<u8>) -> Result<(), AllocError> {
    let number = draws.below(next).saturating_add(1);
    body.extend_from_slice(&number.to_be_bytes())
}

/// Adds the fields of a new key: its number, owner, alias, blob, list and limit.
fn put_key(draws: &mut Draws, next: u64, body: &mut Vec<u8>) -> Result<(), AllocError> {
    let (domain, nspace) = OWNERS[(draws.next() % 4) as usize];
    let alias = ALIASES[(draws.next() % 4) as usize];
    body.extend_from_slice(&next.to_be_bytes())?;
    body.push(domain)?;
    body.extend_from_slice(&nspace.to_be_bytes())?;
    body.extend_from_slice(&((alias.len() % 256) as u32).to_be_bytes())?;
    body.extend_from_slice(alias)?;
    draws.put_bytes(body)?;
    draws.put_bytes(body)?;
    body.extend_from_slice(&((draws.next() % 3) as u32).to_be_bytes())
}

/// Adds the fields of a grant: its number, the next one; its key, uid and bits.
fn put_grant(draws: &mut Draws, next: (u64, u64), body: &mut Vec<u8>) -> Result<(), AllocError> {
    body.extend_from_slice(&next.1.to_be_bytes())?;
    put_given(draws, next.0, body)?;
    body.extend_from_slice(&((10_002 + draws.next() % 2) as u32).to_be_bytes())?;
    body.extend_from_slice(&256u32.to_be_bytes())
}

/// Adds the fields of another blob and list of a key.
fn put_upgrade(draws: &mut Draws, next: u64, body: &mut Vec<u8>) -> Result<(), AllocError> {
    put_given(draws, next, body)?;
    draws.put_bytes(body)?;
    draws.put_bytes(body)
}

/// The kinds of change that are drawn.
static KINDS: [u8; 10] = [1, 1, 1, 1, 1, 3, 4, 11, 2, 5];

/// A record of a change, whose need may not be met; `next` are the next numbers of a key and of a grant.
fn drawn_record(alloc: Global, draws: &mut Draws, next: (u64, u64)) -> Result<Vec<u8>, AllocError> {
    let kind = KINDS[(draws.next() % 10) as usize];
    let mut body = Vec::new(alloc);
    body.push(kind)?;
    match kind {
        1 => put_key(draws, next.0, &mut body)?,
        4 => put_grant(draws, next, &mut body)?,
        5 => put_given(draws, next.1, &mut body)?,
        11 => put_upgrade(draws, next.0, &mut body)?,
        _ => put_given(draws, next.0, &mut body)?,
    }
    framed(alloc, body.as_slice())
}

/// A table of drawn changes, of which those are made whose need is met.
fn drawn_table(alloc: Global, draws: &mut Draws) -> LastingTable {
    let mut table = LastingTable::empty(alloc);
    for _ in 0..draws.next() % MOST_CHANGES {
        let next = table.next_numbers();
        if let Ok(record) = drawn_record(alloc, draws, next) {
            let _ = make(alloc, &mut table, record.as_slice());
        }
    }
    table
}

/// At most so many rows has a snapshot of a drawn table.
const MOST_ROWS: u64 = 64;

/// Puts the records that bytes are, one behind the other; the table that they make, where the need of each is met.
fn table_of(alloc: Global, bytes: &[u8]) -> Option<LastingTable> {
    let mut replay = TableReplay::new(alloc);
    let mut rest = bytes;
    let mut met = true;
    for _ in 0..MOST_ROWS {
        if let Ok((it, after)) = read_record(alloc, AREA_KINDS, rest.get(1..).unwrap_or(&[])) {
            met &= put(&mut replay, it) == Some(true);
            rest = after;
        }
    }
    let table = replay.into_table();
    if met && rest.is_empty() {
        Some(table)
    } else {
        None
    }
}

/// Whether the records that bytes are make the same table.
fn makes_same(alloc: Global, bytes: &[u8], table: &LastingTable) -> bool {
    match table_of(alloc, bytes) {
        Some(read) => read.same(table),
        None => false,
    }
}

/// Goes on with the digest of the snapshot that area B has, where it has so many bytes and makes the same table.
fn digest_of_area(
    alloc: Global,
    disk: &mut MemoryDisk,
    table: &LastingTable,
    count: usize,
    state: u64,
) -> u64 {
    let Ok(mut bytes) = vec![in alloc; 0; count] else {
        return 0;
    };
    if sync_still(disk).is_err() {
        return 0;
    }
    let read = read_still(disk, AREA_B, bytes.as_mut_slice());
    if read == Ok(count) && makes_same(alloc, bytes.as_slice(), table) {
        digest(bytes.as_slice(), state)
    } else {
        0
    }
}

/// Writes the snapshot of a drawn table into area B, and goes on with the digest of it.
fn digest_of_drawn(alloc: Global, draws: &mut Draws, state: u64) -> u64 {
    let table = drawn_table(alloc, draws);
    let Some(mut disk) = disk_of(alloc, &[]) else {
        return 0;
    };
    let Some(mut areas) = fresh(alloc, &mut disk) else {
        return 0;
    };
    table.storable();
    if !areas.is_settled() || areas.compact(&mut disk, &table).is_err() {
        return 0;
    }
    let count = table.snapshot_length();
    if areas.record_bytes() == count && count < 8192 {
        digest_of_area(alloc, &mut disk, &table, count as usize, state)
    } else {
        0
    }
}

// The digest is what `tools/ks make stores --snapshots` prints, which draws and spells the same snapshots without this code.
#[test]
fn a_thousand_snapshots_are_those_of_another_writer(rt: HostRuntime) {
    let mut draws = Draws::of(3);
    let mut state = 0xcbf2_9ce4_8422_2325;
    for _ in 0..1000 {
        state = digest_of_drawn(rt.alloc(), &mut draws, state);
    }
    assert_eq!(rt; state, 0x81c3_a002_30a8_6994);
}
