//! What a run is handed of the outside.

/// What a run is handed of the outside: where its lines come from, where its text goes, where its keys last, and what it draws from.
/// Each is lent for the run.
#[derive(Drop)]
pub struct Handed<'a, S, K, D, N> {
    pub source: &'a mut S,
    pub sink: &'a mut K,
    pub disk: &'a mut D,
    pub entropy: &'a mut N,
}
