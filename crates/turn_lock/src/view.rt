//! What a seat at the lock's table knows. No value of these types is made: they are there for the proofs.

use std::collections::LinkedList;

/// Where a seat stands.
pub enum Stage<E> {
    Idle,
    /// It may draw the numbers of passes, and so many were drawn.
    Makes(u64),
    /// It waits for this turn.
    Waits(u64),
    /// This turn of its is served, the value is out with it, and the history is this.
    Serves(u64, LinkedList<E>),
    /// This turn of its is served for good, and the value is in its slot.
    Closes(u64),
    /// The same, and it alone may draw the numbers of passes, of which so many were drawn.
    Ends(u64, u64),
}

/// What one pass knows: the name of the value, its own number where it has one, and the front of the history that it
/// has seen.
pub struct Hand<E, K> {
    pub name: K,
    pub number: Option<u64>,
    pub front: LinkedList<E>,
}

/// A seat has its own hand, and those of the passes that it took in.
pub struct View<E, K> {
    pub stage: Stage<E>,
    pub hands: LinkedList<Hand<E, K>>,
}
