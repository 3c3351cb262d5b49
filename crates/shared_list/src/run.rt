//! Threads that append to a list behind the turn lock.
ghost use Rattle.std.specs.Prelude.{◌≡◌, ℕ, ◌+◌, ◌^◌, ◌<◌, ◌≤◌, [], length, IfOk};
ghost use Rattle.turn_lock.specs.Rule.{own};
ghost use Rattle.turn_lock.specs.Passes.{front, number_of, made_of, made_before, IsPassOf, IsMakerOf, IsClosingOf};
ghost use Rattle.shared_list.specs.Lists.{by, counted, IsInOrder};
ghost use Rattle.shared_list.specs.Runs.{Each, EachOk, IsNew, HasAppended, TookIts};

use crate::append::append_all;
use crate::list::{ListClosing, ListEntry, ListLock, ListMaker, ListPass, PlainList};
use std::alloc::{AllocError, Global};
use std::sync::Wait;
use std::thread;
use std::thread::Threads;
use turn_lock::TurnLock;

/// So many new passes, numbered from 0.
fn new_passes(
    alloc: Global,
    lock: &ListLock,
    maker: &mut ListMaker,
    threads: u32,
) -> Result<Vec<ListPass>, AllocError>
    requires ours { IsMakerOf lock.now maker.old }
    requires first { made_of maker.old ≡ 0 }
    ensures maker { IfOk result (λ _. IsMakerOf lock.now maker.new × (made_of maker.new ≡ threads)) }
    ensures count { IfOk result (λ v. length v.items ≡ threads) }
    ensures ours { IfOk result (λ v. Each (λ _. IsPassOf lock.now) v.items) }
    ensures new { IfOk result (λ v. Each IsNew v.items) }
{
    let mut passes = Vec::new(alloc);
    for _made in 0..threads {
        passes.push(lock.another(maker))?;
    }
    Ok(passes)
}

/// Takes the last turn, with the passes that have appended their items, of which there is one at least.
fn take_in<R: Wait>(
    rt: &R,
    lock: &ListLock,
    maker: ListMaker,
    results: Vec<Result<ListPass, AllocError>>,
) -> Result<ListClosing, AllocError>
    requires some { 0 < length results.items }
    requires maker { IsMakerOf lock.now maker }
    requires ours { EachOk (λ _. IsPassOf lock.now) results.items }
    ensures closing { IfOk result (IsClosingOf lock.now) }
    ensures made { IfOk result (λ c. made_before c ≡ made_of maker) }
    ensures taken { IfOk result (λ c. (items : ℕ) → EachOk (HasAppended items) results.items
        → (k : ℕ) → k < length results.items → TookIts items c k) }
{
    let mut results = results;
    let Some(last) = results.pop() else {
        unreachable!()
    };
    let mut closing = lock.last_turn(rt, last?, maker);
    while let Some(next) = results.pop() {
        lock.absorb(&mut closing, next?);
    }
    Ok(closing)
}

/// Has each pass append its items, in a thread of its own where one can be made.
fn append_each<R: Threads + Wait + Sync>(
    rt: &R,
    lock: &ListLock,
    passes: Vec<ListPass>,
    items: u64,
) -> Result<Vec<Result<ListPass, AllocError>>, AllocError>
    requires ours { Each (λ _. IsPassOf lock.now) passes.items }
    requires new { Each IsNew passes.items }
    ensures count { IfOk result (λ v. length v.items ≡ length passes.items) }
    ensures ours { IfOk result (λ v. EachOk (λ _. IsPassOf lock.now) v.items) }
    ensures all { IfOk result (λ v. EachOk (HasAppended items) v.items) }
{
    thread::map_vec(
        rt,
        passes,
        &|pass: ListPass| -> Result<ListPass, AllocError>
            requires { IsPassOf lock.now pass × (front pass ≡ []) }
            ensures { IfOk result (λ p. IsPassOf lock.entry.now p × HasAppended items (number_of pass) p) }
        { append_all(rt, lock, pass, items) },
    )
}

/// The list of a lock that ends.
fn list_of(lock: ListLock, closing: ListClosing) -> Vec<ListEntry>
    requires { IsClosingOf lock closing }
    ensures all { (items k : ℕ) → TookIts items closing k → own by k result.items ≡ counted k items }
    ensures none { (k : ℕ) → made_before closing ≤ k → own by k result.items ≡ [] }
{
    let (slot, _made) = lock.end(closing);
    let Some(list) = slot else { unreachable!() };
    list.entries
}

/// The list to which so many threads appended so many items each: each thread's own entries stand in it in their
/// order, and nothing else.
pub fn appended<R: Threads + Wait + Sync>(
    rt: &R,
    alloc: Global,
    threads: u32,
    items: u64,
) -> Result<Vec<ListEntry>, AllocError>
    ensures { IfOk result (λ list. IsInOrder threads items list.items) }
{
    if threads == 0 {
        return Ok(Vec::new(alloc));
    }
    let Ok((lock, mut maker)) = TurnLock::open(alloc, PlainList::new(alloc), ()) else {
        return Err(AllocError);
    };
    let passes = new_passes(alloc, &lock, &mut maker, threads)?;
    let results = append_each(rt, &lock, passes, items)?;
    let closing = take_in(rt, &lock, maker, results)?;
    Ok(list_of(lock, closing))
}
