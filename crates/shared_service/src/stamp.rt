//! Whose step it is, and how many calls of the devices had failed before it and behind it.

#[derive(Clone, Copy)]
pub(crate) struct Stamp {
    pub(crate) pass: u64,
    pub(crate) disk_before: u64,
    pub(crate) disk_after: u64,
    pub(crate) entropy_before: u64,
    pub(crate) entropy_after: u64,
}

mod entries;
