//! The lists' heads, in the order of the uids.

ghost use Rattle.std.specs.Prelude.{◌≡◌, ◌<◌, ◌≤◌, length, IfOk, IfErr, vec_capacity};
ghost use Rattle.std.specs.List.{insert, remove};
ghost use Rattle.slot_chain.specs.Ordered.{IsOrdered, IsAt, IsGap};
ghost use Rattle.slot_chain.specs.Linked.{new_head, uid_of};

/// Where the list of a uid begins and ends, and how many places it has, one at least.
#[derive(Clone, Copy, Debug)]
pub struct Head {
    pub uid: u32,
    pub oldest: u32,
    pub newest: u32,
    pub count: u32,
}

/// Where the head of a uid stands, or where it would go. It is found by halving.
pub(crate) fn head_at(heads: &[Head], uid: u32) -> Result<usize, usize>
    requires { IsOrdered uid_of heads.now }
    ensures found { IfOk result (IsAt uid_of heads.now uid) }
    ensures absent { IfErr result (IsGap uid_of heads.now uid) }
{
    heads.binary_search_by_key(&uid, |head| head.uid)
}

/// Puts the head of a list of one place where it goes.
pub(crate) fn begin_list(heads: &mut Vec<Head>, at: usize, uid: u32, place: u32)
    requires within { at ≤ length heads.old.items }
    requires room { length heads.old.items < vec_capacity heads.old }
    ensures items { heads.new.items ≡ insert heads.old.items at (new_head uid place) }
    ensures capacity { vec_capacity heads.old ≤ vec_capacity heads.new }
{
    let head = Head {
        uid,
        oldest: place,
        newest: place,
        count: 1,
    };
    match heads.insert(at, head) {
        Ok(()) => (),
        Err(_) => unreachable!(),
    }
}

/// Takes out the head of a list that ends.
pub(crate) fn end_list(heads: &mut Vec<Head>, at: usize)
    requires { at < length heads.old.items }
    ensures items { heads.new.items ≡ remove heads.old.items at }
    ensures capacity { vec_capacity heads.new ≡ vec_capacity heads.old }
{
    heads.remove(at);
}
