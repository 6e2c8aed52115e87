// The intersection of two areas (grouping/area.rs). Its path is "the longer of the two paths, which is a part of one of the two
// lent inputs": one call answers whose path stands, with its count, the subspaces and the times, and one call gives that path's
// buffer, borrowed from one of the two. Refuses 1, then 5.
#![tactic(auto, unfolding(willow::specs::Answers::on_paths, willow::specs::Areas::area_intersection, willow::specs::Orders::compare_numbers, crate::specs::Standing::standing))]

pub mod inner;

ghost use Rattle.std.specs.Prelude.{◌≡◌};
ghost use Rattle.willow.specs.Answers.{optional_outcome_by};
ghost use Rattle.area.specs.LentAreas.{on_areas};
ghost use Rattle.area_intersection.specs.Standing.{standing, standing_of, standing_part};

use area::Area;
use lent_path::lend_two;
use willow::{Limits, Refusal};

// What lies in both of two lent inputs, areas or areas of interest: beside the first's buffer, or beside the second's.
#[derive(Clone, Copy)]
pub enum Met<T> {
    First(T),
    Second(T),
}

// The area of the triplets that lie in both, none where there is no such triplet.
pub fn intersection(
    limits: Limits,
    area: Area,
    base: &[u8],
    other: Area,
    base2: &[u8],
) -> Result<Option<Met<Area>>, Refusal>
    ensures { optional_outcome_by standing_of result ≡ on_areas limits area base.now other base2.now standing }
{
    let (p, q) = lend_two(limits, base, area.count, base2, other.count)?;
    Ok(inner::intersection(area.at(p), other.at(q)))
}

// The buffer of an intersection's path; an empty part where there is no intersection.
pub fn intersection_path<'a, T: Copy>(
    met: Result<Option<Met<T>>, Refusal>,
    base: &'a [u8],
    base2: &'a [u8],
) -> &'a [u8]
    ensures { result.now ≡ standing_part met base.now base2.now }
{
    match met {
        Ok(Some(Met::First(_))) => base,
        Ok(Some(Met::Second(_))) => base2,
        _ => &base[..0],
    }
}
