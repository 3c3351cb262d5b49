//! How a service ends.

use service_book::Book;

/// How a service over a listener ended.
#[derive(Clone, Copy, Debug, PartialEq, Eq)]
pub enum ServeStatus {
    /// As many connections came as were wanted, or the listener said that no more come.
    Ok,
    /// Memory was wanting.
    Memory,
    /// The words are no form of a service.
    Usage,
    /// The disk failed while the store was opened.
    DiskFault,
    /// The bytes of the disk stand for no store; `offset` is where they fail.
    Corrupted { offset: u64 },
    /// The listener failed.
    ListenFault,
}

/// The end of a service, with all that it was handed, and its book, where it was there at all: where its words are a form, its store was
/// opened and there was memory for it.
#[derive(Drop)]
pub struct ServeEnd<B, D, N> {
    pub status: ServeStatus,
    pub listener: B,
    pub disk: D,
    pub entropy: N,
    pub book: Option<Book>,
}
