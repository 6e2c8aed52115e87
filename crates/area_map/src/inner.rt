// An insertion into a map whose sheet and area were tested. It is not open to a caller. A sheet that is written comes with
// its sizes, as in `store_closing`.

ghost use Rattle.std.specs.Prelude.{◌≡◌};
ghost use Rattle.willow.specs.Answers.{outcome};
ghost use Rattle.map_form.specs.Maps.{sizes_in};
ghost use Rattle.map_form.specs.MapTest.{MapPassed};
ghost use Rattle.area_kinds.specs.AreaKinds.{parts};
ghost use Rattle.area_map.specs.Putting.{area_answer, area_leaves};

use area::Area;
use lent_path::lend;
use map_form::sizes::MapSizes;
use map_putting::inner::put_rule;
use sheet::front::COUNT_AT;
use willow::Refusal;

// 5, then 14; else the rule in row n, and n counted up.
pub fn insert(
    sheet: &mut [u8],
    sizes: MapSizes,
    area: Area,
    base: &[u8],
    value: u64,
) -> Result<u64, Refusal>
    requires { MapPassed sheet.old × (sizes ≡ sizes_in sheet.old) }
    ensures result_value { outcome result ≡ area_answer sheet.old (parts area) base.now }
    ensures sheet_after { sheet.new ≡ area_leaves sheet.old (parts area) base.now value }
{
    let path = lend(sizes.limits, base, area.count)?;
    let n = number::read_u64(sheet, COUNT_AT);
    if n == sizes.capacity {
        return Err(Refusal::NoRoom);
    }
    put_rule(sheet, sizes, n as usize, area, path, value);
    Ok(n)
}
