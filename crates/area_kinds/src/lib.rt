// Areas as a host passes them: the kind of its subspaces and an id, the count of its path, a start, the kind of its end and an end.
// Refuses 1, then 3. The numbers come one by one, as a call for C passes them.
#![tactic(auto, unfolding(willow::specs::Answers::limits_refusal, kinds::specs::Kinds::on_kinds, crate::specs::AreaKinds::area_from))]

ghost use Rattle.std.specs.Prelude.{◌≡◌, IfOk};
ghost use Rattle.std.proofs.Math.Option.{none, some};
ghost use Rattle.willow.specs.Answers.{if_any, limits_refusal, outcome_by};
ghost use Rattle.willow.specs.Refusals.{value};
ghost use Rattle.kinds.specs.Kinds.{both, on_kinds};
ghost use Rattle.area_kinds.specs.AreaKinds.{area_from, parts, two_parts};

use area::Area;
use willow::{Limits, Refusal};

// What kinds and numbers stand for, whatever the limits; none where a kind is bad.
fn read_kinds(kind: u64, id: u64, count: u64, start: u64, end_kind: u64, end: u64) -> Option<Area>
    ensures { if_any parts result ≡ area_from kind id count start end_kind end }
{
    let subspace = kinds::read_subspace(kind, id)?;
    let times = kinds::read_range(start, end_kind, end)?;
    Some(Area::new(subspace, count, times))
}

// An area.
pub fn read_area(
    limits: Limits,
    kind: u64,
    id: u64,
    count: u64,
    start: u64,
    end_kind: u64,
    end: u64,
) -> Result<Area, Refusal>
    ensures answer { outcome_by parts result ≡ on_kinds limits (area_from kind id count start end_kind end) value }
    ensures ok { IfOk result (λ a. (limits_refusal limits ≡ none) × (area_from kind id count start end_kind end ≡ some (parts a))) }
{
    refusals::test_limits(limits)?;
    read_kinds(kind, id, count, start, end_kind, end).ok_or(Refusal::BadKind)
}

// Two areas.
pub fn read_areas(
    limits: Limits,
    kind: u64,
    id: u64,
    count: u64,
    start: u64,
    end_kind: u64,
    end: u64,
    kind2: u64,
    id2: u64,
    count2: u64,
    start2: u64,
    end_kind2: u64,
    end2: u64,
) -> Result<(Area, Area), Refusal>
    ensures answer { outcome_by two_parts result ≡ on_kinds limits (both (area_from kind id count start end_kind end) (area_from kind2 id2 count2 start2 end_kind2 end2)) value }
    ensures ok { IfOk result (λ ab. (limits_refusal limits ≡ none) × (both (area_from kind id count start end_kind end) (area_from kind2 id2 count2 start2 end_kind2 end2) ≡ some (two_parts ab))) }
{
    let a = read_area(limits, kind, id, count, start, end_kind, end)?;
    let b = read_kinds(kind2, id2, count2, start2, end_kind2, end2).ok_or(Refusal::BadKind)?;
    Ok((a, b))
}
