//! The same work behind a `Mutex`, to compare.

use crate::list::{ListEntry, PlainList};
use std::alloc::{AllocError, Global};
use std::sync::{Mutex, Wait};
use std::thread;
use std::thread::Threads;

/// Appends the items from 0 on, in a turn each.
fn append_all<R: Wait>(
    rt: &R,
    list: &Mutex<PlainList>,
    by: u64,
    items: u64,
) -> Result<(), AllocError> {
    for item in 0..items {
        list.lock(rt).push(ListEntry { by, item })?;
    }
    Ok(())
}

/// The list to which so many threads appended so many items each.
pub fn appended_behind_mutex<R: Threads + Wait + Sync>(
    rt: &R,
    alloc: Global,
    threads: u32,
    items: u64,
) -> Result<Vec<ListEntry>, AllocError> {
    let list = Mutex::new(PlainList::new(alloc));
    let mut numbers = Vec::new(alloc);
    for number in 0..threads {
        numbers.push(u64::from(number))?;
    }
    let shared = &list;
    let results = thread::map_vec(rt, numbers, &|by: u64| append_all(rt, shared, by, items))?;
    for result in results {
        result?;
    }
    Ok(list.into_inner().entries)
}
