//! The algebra of the field, on which a product by a table rests.

ghost use Rattle.std.specs.Prelude.{◌≡◌, ℕ, ◌+◌, ◌-◌, ◌^◌, ◌<◌};
ghost use Rattle.std.specs.Int.RustNames.{bit_xor};
ghost use Rattle.ghash.specs.Field.{product, shifted};

/// Does nothing. Its clauses are laws of the product of SP 800-38D section 6.3: it is linear in each factor, and x^k
/// times an element is the element shifted k times.
pub fn field_laws()
    ensures left { (a b y : ℕ) → product (bit_xor a b) y ≡ bit_xor (product a y) (product b y) }
    ensures right { (x a b : ℕ) → product x (bit_xor a b) ≡ bit_xor (product x a) (product x b) }
    ensures power { (k y : ℕ) → k < 128 → product (2 ^ (127 - k)) y ≡ shifted y k }
    ensures shifted_sum { (a b i : ℕ) → shifted (bit_xor a b) i ≡ bit_xor (shifted a i) (shifted b i) }
    ensures shifted_twice { (y i j : ℕ) → shifted y (i + j) ≡ shifted (shifted y i) j }
{}
