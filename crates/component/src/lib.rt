// Components (component.rs): parts of packed paths, compared as unsigned bytes. One line each, so that what std's order of bytes means is
// proved once.
#![tactic(auto)]

ghost use Rattle.std.specs.Prelude.{◌≡◌};
ghost use Rattle.willow.specs.Orders.{is_equal};
ghost use Rattle.willow.specs.Paths.{compare_components};

use std::cmp::Ordering;

// The order of two components.
pub fn compare(x: &[u8], y: &[u8]) -> Ordering
    ensures { result ≡ compare_components x.now y.now }
{
    x.cmp(y)
}

// Whether two components are equal.
pub fn equal(x: &[u8], y: &[u8]) -> bool
    ensures { result ≡ is_equal (compare_components x.now y.now) }
{
    x == y
}
