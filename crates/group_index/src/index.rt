//! The pairs of groups and numbers in their order.

ghost use Rattle.std.specs.Prelude.{◌≡◌, ◌<◌, ◌≤◌, length, drop, map, slice_get, IfOk, IfErr};
ghost use Rattle.slot_chain.specs.Ordered.{IsOrdered, IsAt, IsGap};
ghost use Rattle.std.specs.List.{AllByRecursion};
ghost use Rattle.group_index.specs.Grouped.{Adds, Drops, IsEmpty, count_in, number_of, numbers_in, rank, room_in};

use std::alloc::Global;
use std::marker::Model;
use tags::NoMemory;

/// A number of a group.
#[derive(Clone, Copy)]
pub struct Grouped {
    pub group: u64,
    pub number: u64,
}

/// Numbers in groups, each of which is in a group once.
#[derive(Drop)]
pub struct GroupIndex {
    pairs: Vec<Grouped>,
}

impl Model for GroupIndex {
    ghost use Rattle.group_index.specs.Grouped.{GroupTable, IsKept, seen};
    ghost use Rattle.std.specs.Prelude.{vec_capacity};

    ghost Value = { GroupTable };

    ghost view = { λ index. seen index.pairs.items (vec_capacity index.pairs) };

    ghost invariant = { λ index. IsKept index.pairs.items };
}

/// The pairs in order: by the groups, and within a group by the numbers.
fn rank_of(pair: Grouped) -> u128
    ensures { result ≡ rank pair }
{
    u128::from(pair.group) * 18446744073709551616 + u128::from(pair.number)
}

/// Where a pair stands, or where it would go. It is found by halving.
fn pair_at(pairs: &[Grouped], pair: Grouped) -> Result<usize, usize>
    requires { IsOrdered rank pairs.now }
    ensures found { IfOk result (IsAt rank pairs.now (rank pair)) }
    ensures absent { IfErr result (IsGap rank pairs.now (rank pair)) }
{
    let own = rank_of(pair);
    pairs.binary_search_by_key(&own, |other| rank_of(*other))
}

/// The pairs from a place on.
fn behind(pairs: &[Grouped], place: usize) -> &[Grouped]
    requires { place ≤ length pairs.now }
    ensures { result.now ≡ drop place pairs.now }
{
    &pairs[place..]
}

impl GroupIndex {
    /// No numbers, with memory for so many.
    pub fn with_room(alloc: Global, room: usize) -> Result<GroupIndex, NoMemory>
        ensures empty { IfOk result IsEmpty }
        ensures room { IfOk result (λ index. room ≤ room_in index) }
    {
        Ok(GroupIndex {
            pairs: Vec::with_capacity(alloc, room)?,
        })
    }

    /// The numbers of a group, which rise.
    pub fn of(&self, group: u64) -> &[Grouped]
        ensures { map number_of result.now ≡ numbers_in self.now group }
    {
        let from = self.pairs.partition_point(|pair| pair.group < group);
        let rest = behind(&self.pairs, from);
        let count = rest.partition_point(|pair| pair.group <= group);
        &rest[..count]
    }

    /// The least number of a group.
    pub fn first(&self, group: u64) -> Option<u64>
        ensures { result ≡ slice_get (numbers_in self.now group) 0 }
    {
        match self.of(group) {
            [pair, ..] => Some(pair.number),
            [] => None,
        }
    }

    /// Puts a number behind those of its group. It needs to be greater than they are, and room.
    pub fn put(&mut self, group: u64, number: u64)
        requires room { count_in self.old < room_in self.old }
        requires last { AllByRecursion (λ other. other < number) (numbers_in self.old group) }
        ensures { Adds group number self.old self.new }
    {
        let pair = Grouped { group, number };
        let at = match pair_at(&self.pairs, pair) {
            Ok(_at) => unreachable!(),
            Err(at) => at,
        };
        match self.pairs.insert(at, pair) {
            Ok(()) => (),
            Err(_) => unreachable!(),
        }
    }

    /// Takes a number out of a group, where it is there.
    pub fn take_out(&mut self, group: u64, number: u64)
        ensures { Drops group number self.old self.new }
    {
        if let Ok(at) = pair_at(&self.pairs, Grouped { group, number }) {
            self.pairs.remove(at);
        }
    }

    /// Takes out all numbers.
    pub fn clear(&mut self)
        ensures empty { IsEmpty self.new }
        ensures room { room_in self.new ≡ room_in self.old }
    {
        self.pairs.clear();
    }
}
