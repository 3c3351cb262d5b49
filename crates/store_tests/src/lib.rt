//! The tests of the store, from the disks in memory up to the database, in one crate above them all, so that none of
//! those crates is proved a second time.
#![tactic(auto)]

#[cfg(test)]
mod areas;
#[cfg(test)]
mod compactions;
#[cfg(test)]
mod databases;
#[cfg(test)]
mod disks;
#[cfg(test)]
mod draws;
#[cfg(test)]
mod journals;
#[cfg(test)]
mod older;
#[cfg(test)]
mod openings;
mod rebound;
#[cfg(test)]
mod records;
#[cfg(test)]
mod rows;
#[cfg(test)]
mod snapshots;
#[cfg(test)]
mod sure_disk;
#[cfg(test)]
mod sure_stores;
#[cfg(test)]
mod two_areas;
