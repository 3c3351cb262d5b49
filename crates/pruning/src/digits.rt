//! The binary digits of a number.

ghost use Rattle.std.specs.Prelude.{◌≡◌, ◌≤◌};
ghost use Rattle.pruning.specs.Victim.{binary_digits};

/// How many binary digits a number has; 0 has none.
pub fn count_digits(number: u64) -> usize
    ensures digits { result ≡ binary_digits number }
    ensures few { result ≤ 64 }
{
    (u64::BITS - number.leading_zeros()) as usize
}
