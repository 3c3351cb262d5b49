//! Tests of the crates of the outside, words, ciphers, rules, keys, access, tokens and slots, over their public calls. A crate with tests is
//! proved a second time with them, so these stand in a crate that has nothing else. It has no contract.
#![tactic(auto)]

#[cfg(test)]
mod begin_rules;
#[cfg(test)]
mod beginnings;
#[cfg(test)]
mod blobs;
#[cfg(test)]
mod blocks;
#[cfg(test)]
mod broken;
#[cfg(test)]
mod chained;
#[cfg(test)]
mod descriptors;
#[cfg(test)]
mod draws;
#[cfg(test)]
mod files;
#[cfg(test)]
mod foreign_blobs;
#[cfg(test)]
mod full_slots;
#[cfg(test)]
mod hashes;
#[cfg(test)]
mod kept_tokens;
#[cfg(test)]
mod links;
#[cfg(test)]
mod lists;
#[cfg(test)]
mod macs;
#[cfg(test)]
mod made_blobs;
#[cfg(test)]
mod new_keys;
#[cfg(test)]
mod outside;
#[cfg(test)]
mod places;
#[cfg(test)]
mod shares;
#[cfg(test)]
mod slot_desk;
#[cfg(test)]
mod slot_lists;
#[cfg(test)]
mod spelled;
#[cfg(test)]
mod steps;
#[cfg(test)]
mod token_macs;
#[cfg(test)]
mod upgrades;
#[cfg(test)]
mod victims;
#[cfg(test)]
mod whole_texts;
#[cfg(test)]
mod wrapped;
