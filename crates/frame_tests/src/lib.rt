//! The tests of what a connection crosses, in a crate above it, so that none of its functions is proved a second time: frames and
//! connections, a port of this machine, the turn lock in one thread and in three, and comparing strings. The files of a device and the loads of a
//! seed are shown over the program (`tools/ks check device help`).
#![tactic(auto)]

#[cfg(test)]
mod copies;
#[cfg(test)]
mod frames;
#[cfg(test)]
mod loopback;
#[cfg(test)]
mod notes;
#[cfg(test)]
mod passing;
#[cfg(test)]
mod patience;
#[cfg(test)]
mod strings;
#[cfg(test)]
mod talks;
