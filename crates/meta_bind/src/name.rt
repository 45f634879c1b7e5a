//! Names of metavariables.

ghost use Rattle.std.specs.Prelude.{◌≡◌};
ghost use Rattle.std.specs.Ordering.{is_eq, is_lt};
ghost use Rattle.meta_bind.specs.Bounds.{name_cmp};

use std::cmp::Ordering;

/// Whether two names are one.
pub fn is_same(a: &str, b: &str) -> bool
    ensures { result ≡ is_eq (name_cmp a.now b.now) }
{
    a.cmp(b) == Ordering::Equal
}

/// Whether the first name is below the second.
pub fn is_below(a: &str, b: &str) -> bool
    ensures { result ≡ is_lt (name_cmp a.now b.now) }
{
    a.cmp(b) == Ordering::Less
}
