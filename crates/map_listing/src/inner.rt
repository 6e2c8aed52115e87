// Which rules of a map that was tested meet an area. They are not open to a caller.

ghost use Rattle.std.specs.Prelude.{◌*◌, ◌<◌, ◌≡◌, ◌≤◌, length};
ghost use Rattle.willow.specs.Answers.{outcome, written_buffer};
ghost use Rattle.willow.specs.Numbers.{le};
ghost use Rattle.willow.specs.Refusals.{value};
ghost use Rattle.number.specs.Overwriting.{overwrite};
ghost use Rattle.number.specs.Records.{laid};
ghost use Rattle.area.specs.LentAreas.{area_of};
ghost use Rattle.map_form.specs.Maps.{count_in, rules_in};
ghost use Rattle.listing_law.specs.Listings.{listed_bytes, listed_number, meets, positions};
ghost use Rattle.map_rules.specs.RulePlaces.{rule_at};

use area::lent::LentArea;
use area_intersection::inner::intersection;
use map_rules::MapSheet;
use number::write_u64;
use willow::Refusal;

// Whether the area of rule i and another intersect.
fn rule_meets(map: MapSheet, i: usize, area: LentArea) -> bool
    requires { i < count_in map.bytes.now }
    ensures { result ≡ meets (area_of area.entry) (rule_at map.entry.bytes.now i) }
{
    let rule = map.rule(i).area.at(map.rule_path(i));
    intersection(rule, area).is_some()
}

// How many rules meet an area.
fn count_meeting(map: MapSheet, area: LentArea) -> usize
    ensures { result ≡ length (positions (area_of area.entry) (rules_in map.entry.bytes.now)) }
{
    (0..map.count())
        .filter(|&i| rule_meets(map, i, area))
        .count()
}

// The positions of these rules written to the front of a buffer that has room for all of them; answers how many. The count is
// the answer, so it is kept here.
fn write_meeting(map: MapSheet, area: LentArea, out: &mut [u8]) -> usize
    requires { 8 * length (positions (area_of area) (rules_in map.bytes.now)) ≤ length out.old }
    ensures value { result ≡ length (positions (area_of area.entry) (rules_in map.entry.bytes.now)) }
    ensures out_after { out.new ≡ overwrite out.old 0 (laid (le 8) (positions (area_of area.entry) (rules_in map.entry.bytes.now))) }
{
    let mut written = 0;
    for i in 0..map.count() {
        if rule_meets(map, i, area) {
            write_u64(out, 8 * written, i as u64);
            written += 1;
        }
    }
    written
}

// The positions if all of them fit, else 15. Nothing is written unless all fit: so they are counted first, unless there is room for
// every rule.
pub fn list(map: MapSheet, area: LentArea, out: &mut [u8]) -> Result<u64, Refusal>
    ensures result_value { outcome result ≡ listed_number (value (positions (area_of area.entry) (rules_in map.entry.bytes.now))) out.old }
    ensures out_after { out.new ≡ written_buffer (listed_bytes (value (positions (area_of area.entry) (rules_in map.entry.bytes.now)))) out.old }
{
    if out.len() / 8 < map.count() && out.len() < 8 * count_meeting(map, area) {
        return Err(Refusal::OutTooSmall);
    }
    Ok(write_meeting(map, area, out) as u64)
}
