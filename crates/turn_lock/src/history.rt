//! The value behind a lock.
ghost use Rattle.std.specs.Prelude.{ℕ, List, ◌≤◌, ◌++◌};

/// A value with a history: a list of entries `E`, the oldest first. `K` is a name, which the value keeps while it is
/// behind a lock, and by which a holder of the lock knows which value it is.
pub trait History<E, K> {
    ghost entries: { Self → List E };

    /// The number of the pass that made an entry.
    ghost maker: { E → ℕ };

    /// How far a history is, as far as that is told to whoever looks: a longer one is no less far.
    ghost level: { List E → ℕ };

    ghost rises: { (xs ys : List E) → level xs ≤ level (xs ++ ys) };

    /// The value is one of this name.
    ghost fits: { K → Self → Type 0 };
}
