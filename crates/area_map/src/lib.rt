// The area map (grouping/area.rs, `AreaMap`) as a sheet in lent memory (document 01, "Sheets"): rules inserted. The map's limits and
// capacity stand in the sheet itself. What every list of insertions into a fresh map leaves is `MapTheorem` (crate `map_law`).
#![tactic(auto, unfolding(map_law::specs::Insertions::insert_answer, map_law::specs::Insertions::insert_leaves, map_law::specs::Insertions::insert_refusal, map_law::specs::Insertions::area_refusal))]

pub mod inner;

ghost use Rattle.std.specs.Prelude.{◌≡◌};
ghost use Rattle.willow.specs.Answers.{outcome};
ghost use Rattle.map_law.specs.Insertions.{insert_answer, insertion, insert_leaves};

use area_kinds::read_area;
use map_rules::lend;
use willow::Refusal;

// An area with a value inserted behind the others; answers the position that it took. The area comes as its kinds and numbers, its
// path as a buffer with a count, one by one as the C interface passes them. Refuses 2, then 3, then 5, then 14.
pub fn insert(
    sheet: &mut [u8],
    kind: u64,
    id: u64,
    base: &[u8],
    count: u64,
    start: u64,
    end_kind: u64,
    end: u64,
    value: u64,
) -> Result<u64, Refusal>
    ensures result_value { outcome result ≡ insert_answer sheet.old (insertion kind id base.now count start end_kind end value) }
    ensures sheet_after { sheet.new ≡ insert_leaves sheet.old (insertion kind id base.now count start end_kind end value) }
{
    let sizes = lend(sheet)?.sizes();
    let area = read_area(sizes.limits, kind, id, count, start, end_kind, end)?;
    inner::insert(sheet, sizes, area, base, value)
}
