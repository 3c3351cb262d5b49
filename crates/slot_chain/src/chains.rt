//! The lists of places, and each call on them.

ghost use Rattle.std.specs.Prelude.{◌≡◌, ◌<◌, ◌+◌, ◌-◌, ◌^◌, ℕ, length, slice_get, IfOk};
ghost use Rattle.slot_chain.specs.Table.{IsEmpty, IsInNone, IsInOne, IsSound, Pushes, Unlinks, list_in, owners_of, places_count};

use crate::heads::{Head, begin_list, end_list, head_at};
use crate::links::{ChainLink, link_at, put_after, put_before, put_owner};
use crate::steps::Steps;
use std::alloc::Global;
use std::marker::Model;
use std::sync::ledger::Ledger;
use tags::NoMemory;

/// Places in lists, one for each uid. A place stands in one list at most.
#[derive(Drop)]
pub struct Chains {
    /// how each place is linked
    links: Vec<ChainLink>,
    /// of each list that has a place, in the order of the uids
    heads: Vec<Head>,
}

impl Model for Chains {
    ghost use Rattle.slot_chain.specs.Table.{ChainTable, seen};
    ghost use Rattle.slot_chain.specs.Linked.{IsKept, afters, befores, owners};
    ghost use Rattle.std.specs.Prelude.{vec_capacity};

    ghost Value = { ChainTable };

    ghost view = { λ c. seen (afters c.links.items) c.heads.items };

    ghost invariant = { λ c. IsKept (afters c.links.items) (befores c.links.items) (owners c.links.items) c.heads.items (vec_capacity c.heads) };
}

impl Chains {
    /// So many places, from 0 on, all in no list. It needs 1 to 2^32 - 2, and is the one call that takes memory.
    pub fn with_places(alloc: Global, count: usize) -> Result<Chains, NoMemory>
        requires some { 0 < count }
        requires few { count < 2 ^ 32 - 1 }
        ensures empty { IfOk result (λ chains. IsEmpty chains count) }
        ensures sound { IfOk result IsSound }
    {
        let link = ChainLink {
            owner: 0,
            before: 0,
            after: 0,
        };
        Ok(Chains {
            links: vec![in alloc; link; count]?,
            heads: Vec::with_capacity(alloc, count)?,
        })
    }

    /// Puts a place that is in no list behind the others of a uid.
    pub fn push_newest(&mut self, uid: u32, place: u32)
        requires within { place < places_count self.old }
        requires free { IsInNone self.old place }
        ensures pushes { Pushes self.old self.new uid place }
        ensures sound { IsSound self.new }
    {
        put_owner(&mut self.links, place, uid);
        let at = match head_at(&self.heads, uid) {
            Ok(at) => at,
            Err(at) => return begin_list(&mut self.heads, at, uid, place),
        };
        let head = self.heads[at];
        put_after(&mut self.links, head.newest, place);
        put_before(&mut self.links, place, head.newest);
        self.heads[at] = Head {
            newest: place,
            count: head.count + 1,
            ..head
        };
    }

    /// Takes a place out of the list that it is in, whose other places stay in their order.
    pub fn unlink(&mut self, place: u32)
        requires { IsInOne self.old place }
        ensures unlinks { Unlinks self.old self.new place }
        ensures sound { IsSound self.new }
    {
        let link = link_at(&self.links, place);
        let at = match head_at(&self.heads, link.owner) {
            Ok(at) => at,
            Err(_at) => unreachable!(),
        };
        let head = self.heads[at];
        if head.count == 1 {
            return end_list(&mut self.heads, at);
        }
        let count = head.count - 1;
        if place == head.oldest {
            self.heads[at] = Head {
                oldest: link.after,
                count,
                ..head
            };
            return;
        }
        if place == head.newest {
            self.heads[at] = Head {
                newest: link.before,
                count,
                ..head
            };
            return;
        }
        self.heads[at] = Head { count, ..head };
        put_after(&mut self.links, link.before, link.after);
        put_before(&mut self.links, link.after, link.before);
    }

    /// The place of a uid that was pushed first of those that are in its list; None exactly where the list is empty. It
    /// takes exactly one step.
    pub fn oldest<L: Ledger>(&self, uid: u32, steps: &mut Steps<L>) -> Option<u32>
        ensures first { result ≡ slice_get (list_in self.now uid) 0 }
        ensures steps { steps.new ≡ steps.old + 1 }
        ensures sound { IsSound self.now }
    {
        steps.tick();
        match head_at(&self.heads, uid) {
            Ok(at) => Some(self.heads[at].oldest),
            Err(_at) => None,
        }
    }

    /// How many uids have a place in their list.
    pub fn owner_count(&self) -> usize
        ensures count { result ≡ length (owners_of self.now) }
        ensures sound { IsSound self.now }
    {
        self.heads.len()
    }

    /// The uid at this place among those that have a place in their list, each of which stands there once; None exactly
    /// from their count on.
    pub fn owner(&self, at: usize) -> Option<u32>
        ensures owner { result ≡ slice_get (owners_of self.now) at }
        ensures sound { IsSound self.now }
    {
        if at < self.heads.len() {
            Some(self.heads[at].uid)
        } else {
            None
        }
    }

    /// Takes all places out of their lists.
    pub fn clear(&mut self)
        ensures empty { IsEmpty self.new (places_count self.old) }
        ensures sound { IsSound self.new }
    {
        self.heads.clear();
    }
}
