// Listing the rules of an area map whose area intersects a given one (grouping/area.rs, `intersecting_values` and
// `intersecting_pairs`). A listing gives positions, where area and value stand (`map_reading`). The sheet is tested: 2.
#![tactic(auto)]

pub mod inner;

ghost use Rattle.std.specs.Prelude.{◌≡◌};
ghost use Rattle.willow.specs.Answers.{outcome, written_buffer};
ghost use Rattle.map_law.specs.Insertions.{argument};
ghost use Rattle.listing_law.specs.Listings.{listed_bytes, listed_number, listing};

use area_kinds::read_area;
use willow::Refusal;

// The positions of the rules whose area intersects an area, in insertion order, written in 8 bytes each to the front of a buffer;
// answers how many. The area comes as its kinds and numbers, its path as a buffer with a count, one by one as the C interface passes
// them. Refuses 2, 3, 5, then 15.
#[tactic(auto, unfolding(listing_law::specs::Listings::listing, map_law::specs::Insertions::area_refusal))]
pub fn intersecting(
    sheet: &[u8],
    kind: u64,
    id: u64,
    base: &[u8],
    count: u64,
    start: u64,
    end_kind: u64,
    end: u64,
    out: &mut [u8],
) -> Result<u64, Refusal>
    ensures result_value { outcome result ≡ listed_number (listing sheet.now (argument kind id base.now count start end_kind end)) out.old }
    ensures out_after { out.new ≡ written_buffer (listed_bytes (listing sheet.now (argument kind id base.now count start end_kind end))) out.old }
{
    let map = map_rules::lend(sheet)?;
    let limits = map.sizes().limits;
    let area = read_area(limits, kind, id, count, start, end_kind, end)?;
    let path = lent_path::lend(limits, base, area.count)?;
    inner::list(map, area.at(path), out)
}
