//! The tests of a run (`keystore_run`), over sources, sinks, disks and entropies in memory, in a crate above it, so that none of its functions
//! is proved a second time.
#![tactic(auto)]

#[cfg(test)]
mod answered;
#[cfg(test)]
mod blobs;
#[cfg(test)]
mod blocks;
#[cfg(test)]
mod draws;
#[cfg(test)]
mod fates;
#[cfg(test)]
mod images;
#[cfg(test)]
mod lines;
#[cfg(test)]
mod loads;
#[cfg(test)]
mod macs;
#[cfg(test)]
mod script;
#[cfg(test)]
mod scripts;
#[cfg(test)]
mod sealing;
#[cfg(test)]
mod sharing;
#[cfg(test)]
mod stores;
#[cfg(test)]
mod streams;
#[cfg(test)]
mod sweeps;
#[cfg(test)]
mod swept;
#[cfg(test)]
mod tickets;
#[cfg(test)]
mod tokens;
#[cfg(test)]
mod trace_runs;
#[cfg(test)]
mod traces;
#[cfg(test)]
mod upgrades;
#[cfg(test)]
mod uses;
