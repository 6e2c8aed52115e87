// Questions on two lent paths (path/mod.rs): order, equality, prefix, relatedness, longest common prefix. Every call refuses 1,
// then 5 for either path. A path comes as a buffer and a count, as document 01 lends it; `path_view` has the two as one value.
#![tactic(auto, unfolding(willow::specs::Answers::on_paths))]

ghost use Rattle.std.specs.Prelude.{◌≡◌};
ghost use Rattle.willow.specs.Answers.{on_paths, outcome};
ghost use Rattle.relation.specs.Relation.{common_count_of, equality_of, order_of, prefixed_test_of, prefix_test_of, relatedness_of};

use lent_path::lend_two;
use std::cmp::Ordering;
use willow::{Limits, Refusal};

// The order of two paths.
pub fn compare(limits: Limits, a: &[u8], ca: u64, b: &[u8], cb: u64) -> Result<Ordering, Refusal>
    ensures { outcome result ≡ on_paths limits a.now ca b.now cb order_of }
{
    let (p, q) = lend_two(limits, a, ca, b, cb)?;
    Ok(p.cmp(&q))
}

// Whether two paths are equal.
pub fn equal(limits: Limits, a: &[u8], ca: u64, b: &[u8], cb: u64) -> Result<bool, Refusal>
    ensures { outcome result ≡ on_paths limits a.now ca b.now cb equality_of }
{
    let (p, q) = lend_two(limits, a, ca, b, cb)?;
    Ok(p == q)
}

// Whether a is a prefix of b.
pub fn is_prefix_of(limits: Limits, a: &[u8], ca: u64, b: &[u8], cb: u64) -> Result<bool, Refusal>
    ensures { outcome result ≡ on_paths limits a.now ca b.now cb prefix_test_of }
{
    let (p, q) = lend_two(limits, a, ca, b, cb)?;
    Ok(p.is_prefix_of(q))
}

// Whether b is a prefix of a.
pub fn is_prefixed_by(limits: Limits, a: &[u8], ca: u64, b: &[u8], cb: u64) -> Result<bool, Refusal>
    ensures { outcome result ≡ on_paths limits a.now ca b.now cb prefixed_test_of }
{
    let (p, q) = lend_two(limits, a, ca, b, cb)?;
    Ok(q.is_prefix_of(p))
}

// Whether one of the two is a prefix of the other.
pub fn is_related(limits: Limits, a: &[u8], ca: u64, b: &[u8], cb: u64) -> Result<bool, Refusal>
    ensures { outcome result ≡ on_paths limits a.now ca b.now cb relatedness_of }
{
    let (p, q) = lend_two(limits, a, ca, b, cb)?;
    Ok(p.is_related(q))
}

// How many components the longest common prefix has.
pub fn longest_common_prefix(
    limits: Limits,
    a: &[u8],
    ca: u64,
    b: &[u8],
    cb: u64,
) -> Result<u64, Refusal>
    ensures { outcome result ≡ on_paths limits a.now ca b.now cb common_count_of }
{
    let (p, q) = lend_two(limits, a, ca, b, cb)?;
    Ok(p.common(q) as u64)
}
