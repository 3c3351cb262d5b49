//! The array of links.

ghost use Rattle.std.specs.Prelude.{◌≡◌, ◌<◌, length, get_or, map};
ghost use Rattle.slot_chain.specs.Linked.{Puts, afters, befores, owners, blank};

/// How a place is linked. What stands before a list's first place, behind its last one, and of a place that is in no list is
/// read by nobody.
#[derive(Clone, Copy, Debug)]
pub struct ChainLink {
    /// whose list the place is in
    pub owner: u32,
    /// the place before it
    pub before: u32,
    /// the place behind it
    pub after: u32,
}

/// The link of a place.
pub(crate) fn link_at(links: &Vec<ChainLink>, place: u32) -> ChainLink
    requires { place < length links.now.items }
    ensures { result ≡ get_or links.now.items place blank }
{
    links[place as usize]
}

/// Writes whose list a place is in.
pub(crate) fn put_owner(links: &mut Vec<ChainLink>, place: u32, owner: u32)
    requires { place < length links.old.items }
    ensures size { length (owners links.new.items) ≡ length (owners links.old.items) }
    ensures puts { Puts (owners links.old.items) (owners links.new.items) place owner }
    ensures befores { befores links.new.items ≡ befores links.old.items }
    ensures afters { afters links.new.items ≡ afters links.old.items }
{
    let link = link_at(links, place);
    links[place as usize] = ChainLink { owner, ..link };
}

/// Writes which place stands before one.
pub(crate) fn put_before(links: &mut Vec<ChainLink>, place: u32, before: u32)
    requires { place < length links.old.items }
    ensures size { length (befores links.new.items) ≡ length (befores links.old.items) }
    ensures puts { Puts (befores links.old.items) (befores links.new.items) place before }
    ensures owners { owners links.new.items ≡ owners links.old.items }
    ensures afters { afters links.new.items ≡ afters links.old.items }
{
    let link = link_at(links, place);
    links[place as usize] = ChainLink { before, ..link };
}

/// Writes which place stands behind one.
pub(crate) fn put_after(links: &mut Vec<ChainLink>, place: u32, after: u32)
    requires { place < length links.old.items }
    ensures size { length (afters links.new.items) ≡ length (afters links.old.items) }
    ensures puts { Puts (afters links.old.items) (afters links.new.items) place after }
    ensures owners { owners links.new.items ≡ owners links.old.items }
    ensures befores { befores links.new.items ≡ befores links.old.items }
{
    let link = link_at(links, place);
    links[place as usize] = ChainLink { after, ..link };
}
