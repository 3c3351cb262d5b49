//! How a run of a process ended.

use keystore_run::Status;

/// The store of a process, in its folder.
pub const STORE: &str = "store.ks";

/// How a run ended, with its output and its store.
#[derive(Drop)]
pub struct RunEnd<K, D> {
    pub status: Status,
    pub output: K,
    pub store: D,
}
