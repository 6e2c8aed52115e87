// The subspaces of an area (grouping/area.rs, `AreaSubspace`): all of them, or one id. Nothing is refused. Functions and not methods:
// methods stand in the crate of their type, and `willow` has no code.
#![tactic(auto, unfolding(willow::specs::Orders::compare_numbers))]

ghost use Rattle.std.specs.Prelude.{◌≡◌};
ghost use Rattle.willow.specs.Answers.{if_any, outcome_if_any};
ghost use Rattle.willow.specs.Areas.{compare_subspaces, includes_area_subspace, includes_subspace, is_any, is_subspace, subspace_intersection, subspaces_agree};

use std::cmp::Ordering;
use willow::AreaSubspace;

// Whether it is all of them.
pub fn is_any(subspace: AreaSubspace) -> bool
    ensures { result ≡ is_any subspace }
{
    subspace == AreaSubspace::Any
}

// Whether an id is among them.
pub fn includes(subspace: AreaSubspace, sub: u64) -> bool
    ensures { result ≡ includes_subspace subspace sub }
{
    match subspace {
        AreaSubspace::Any => true,
        AreaSubspace::Id(id) => sub == id,
    }
}

// Whether all of another's are among them.
pub fn includes_area_subspace(subspace: AreaSubspace, other: AreaSubspace) -> bool
    ensures { result ≡ includes_area_subspace subspace other }
{
    is_any(subspace) || subspace == other
}

// Whether two do not clash: two ids that differ do.
pub fn agree(subspace: AreaSubspace, other: AreaSubspace) -> bool
    ensures { result ≡ subspaces_agree subspace other }
{
    is_any(subspace) || is_any(other) || subspace == other
}

// Whether it is this one id and no more.
pub fn equals_id(subspace: AreaSubspace, id: u64) -> bool
    ensures { result ≡ is_subspace subspace id }
{
    match subspace {
        AreaSubspace::Any => false,
        AreaSubspace::Id(s) => s == id,
    }
}

// Those that are in both, none where there are none.
pub fn intersection(subspace: AreaSubspace, other: AreaSubspace) -> Option<AreaSubspace>
    ensures met { if_any (λ s. s) result ≡ subspace_intersection subspace other }
    ensures outcome { outcome_if_any (if_any (λ s. s) result) ≡ outcome_if_any (subspace_intersection subspace other) }
{
    match (subspace, other) {
        (AreaSubspace::Any, _) => Some(other),
        (_, AreaSubspace::Any) => Some(subspace),
        (AreaSubspace::Id(a), AreaSubspace::Id(b)) => (a == b).then_some(subspace),
    }
}

// The order: any before an id, ids by number.
pub fn compare(subspace: AreaSubspace, other: AreaSubspace) -> Ordering
    ensures { result ≡ compare_subspaces subspace other }
{
    subspace.cmp(&other)
}
