//! Where connections come from.

ghost use Rattle.std.specs.Prelude.{◌≡◌, ◌↔◌, ℕ, ◌<◌, ◌≤◌, ◌++◌, ◌∷◌, [], length, IfOk, IsErr, Contains, vec_capacity};
ghost use Rattle.ks_outside.specs.Faults.{HasCause, one_more};
ghost use Rattle.ks_outside.specs.Listening.{given_after, ended_after, GivesFirst};
ghost use Rattle.ks_outside.specs.Plans.{failing_in, asked_in};

use crate::calls::FailingCalls;
use crate::faults::{Failed, FaultCount};
use crate::link::{Link, MemoryLink};
use std::alloc::{AllocError, Global};
use std::collections::VecDeque;

/// Where connections come from. It counts the links that it gave, and how often it said that no more come; both numbers stay at
/// 2^64 - 1, and nothing else changes them.
pub trait Listener {
    type L: Link;

    /// How many links it gave.
    ghost given: { Self → ℕ };

    /// How often it said that no more come.
    ghost ended: { Self → ℕ };

    ghost fault_count: { Self → ℕ };

    /// The next connection. `None` says that no more come.
    fn next(&mut self) -> Result<Option<Self::L>, Failed>
        ensures gives { given self.new ≡ given_after result (given self.old) }
        ensures ends { ended self.new ≡ ended_after result (ended self.old) }
        ensures cause { HasCause (fault_count self.old) (fault_count self.new) result };

    /// Takes a connection back that was served.
    fn done(&mut self, link: Self::L)
        ensures gives { given self.new ≡ given self.old }
        ensures ends { ended self.new ≡ ended self.old }
        ensures faults { fault_count self.new ≡ fault_count self.old };
}

/// Connections in memory, and the numbers of the calls of `next` that are to fail. It gives its links in order and then says that no more
/// come, and keeps those that are handed back.
#[derive(Drop)]
pub struct MemoryListener<'a> {
    coming: VecDeque<MemoryLink<'a>>,
    served: Vec<MemoryLink<'a>>,
    plan: FailingCalls<'a>,
    faults: FaultCount,
    given: u64,
    ended: u64,
}

impl<'a> MemoryListener<'a> {
    /// It gives these links, and has room to keep as many; the calls of `next` with the numbers `failing`, counted from 1, are to fail.
    pub fn with_links(
        alloc: Global,
        links: Vec<MemoryLink<'a>>,
        failing: &'a [u64],
    ) -> Result<MemoryListener<'a>, AllocError>
        ensures coming { IfOk result (λ s. s.coming.items ≡ links.entry.items) }
        ensures served { IfOk result (λ s. s.served.items ≡ []) }
        ensures room { IfOk result (λ s. length links.entry.items ≤ vec_capacity s.served) }
        ensures failing { IfOk result (λ s. failing_in s.plan ≡ failing.now) }
        ensures none { IfOk result (λ s. asked_in s.plan ≡ 0) }
        ensures faults { IfOk result (λ s. s.faults.count ≡ 0) }
        ensures given { IfOk result (λ s. s.given ≡ 0) }
        ensures ended { IfOk result (λ s. s.ended ≡ 0) }
    {
        Ok(MemoryListener {
            served: Vec::with_capacity(alloc, links.len())?,
            coming: VecDeque::from_vec(links),
            plan: FailingCalls::new(failing),
            faults: FaultCount::new(),
            given: 0,
            ended: 0,
        })
    }

    /// The links that were handed back, in that order.
    pub fn served(&self) -> &[MemoryLink<'a>]
        ensures { result.now ≡ self.now.served.items }
    {
        self.served.as_slice()
    }

    /// How many calls of `next` failed.
    pub fn faults(&self) -> u64
        ensures { result ≡ self.now.faults.count }
    {
        self.faults.count()
    }

    /// How many links it gave.
    pub fn given(&self) -> u64
        ensures { result ≡ self.now.given }
    {
        self.given
    }

    /// How often it said that no more come.
    pub fn ended(&self) -> u64
        ensures { result ≡ self.now.ended }
    {
        self.ended
    }
}

impl<'a> Listener for MemoryListener<'a> {
    type L = MemoryLink<'a>;

    ghost given = { λ s. s.given };

    ghost ended = { λ s. s.ended };

    ghost fault_count = { λ s. s.faults.count };

    fn next(&mut self) -> Result<Option<MemoryLink<'a>>, Failed>
        ensures gives { self.new.given ≡ given_after result self.old.given }
        ensures ends { self.new.ended ≡ ended_after result self.old.ended }
        ensures cause { HasCause self.old.faults.count self.new.faults.count result }
        ensures links { GivesFirst self.old.coming.items self.new.coming.items result }
        ensures served { self.new.served ≡ self.old.served }
        ensures planned { IsErr result ↔ Contains (failing_in self.old.plan) (asked_in self.new.plan) }
        ensures failing { failing_in self.new.plan ≡ failing_in self.old.plan }
        ensures asked { asked_in self.new.plan ≡ one_more (asked_in self.old.plan) }
    {
        if self.plan.next_fails() {
            self.faults.rise();
            return Err(Failed);
        }
        match self.coming.pop_front() {
            Some(link) => {
                self.given = self.given.saturating_add(1);
                Ok(Some(link))
            }
            None => {
                self.ended = self.ended.saturating_add(1);
                Ok(None)
            }
        }
    }

    /// Keeps the link, where there is room or memory for one more.
    fn done(&mut self, link: MemoryLink<'a>)
        ensures gives { self.new.given ≡ self.old.given }
        ensures ends { self.new.ended ≡ self.old.ended }
        ensures faults { self.new.faults.count ≡ self.old.faults.count }
        ensures kept { length self.old.served.items < vec_capacity self.old.served → self.new.served.items ≡ self.old.served.items ++ link.entry ∷ [] }
        ensures room { vec_capacity self.old.served ≤ vec_capacity self.new.served }
        ensures coming { self.new.coming ≡ self.old.coming }
        ensures plan { self.new.plan ≡ self.old.plan }
    {
        let _ = self.served.push(link);
    }
}
