// The calls of `map_making`, `map_test`, `area_map` and `map_listing` for a host in another language: a map made fresh, tested, inserted
// into and listed.
//
// A map is a sheet in a lent buffer, and its limits stand in it. An area is the kind of its subspaces (0 any, 1 one id), an id, the
// packed path as a buffer with a count beside it, and the start, the kind of the end (0 open, 1 closed) and the end of its times; a
// number beside kind 0 is not read. A slice is a pointer and then a length. Nothing is required of the host but that a buffer is as
// long as it says and that a buffer to write overlaps no other. The parts come one by one, as a call for C passes them.
#![tactic(auto)]

ghost use Rattle.std.specs.Prelude.{◌≡◌};
ghost use Rattle.willow.specs.Answers.{written_buffer, written_length};
ghost use Rattle.convention.specs.Exports.{given, itself, limits_of, refusal_status};
ghost use Rattle.map_form.specs.MapTest.{map_refusal};
ghost use Rattle.map_law.specs.Insertions.{argument, fresh_map, insert_answer, insertion, insert_leaves};
ghost use Rattle.listing_law.specs.Listings.{listed_bytes, listed_number, listing};

use convention::{Answer, answered, tested};
use willow::Limits;

// A fresh map of these sizes written to the front of a buffer; answers its length. Refuses 1, then 15.
pub fn wotskrale_map_fresh(mcl: u64, mcc: u64, mpl: u64, capacity: u64, out: &mut [u8]) -> Answer
    ensures value { result ≡ given itself (written_length (fresh_map (limits_of mcl mcc mpl) capacity) out.old) }
    ensures out_after { out.new ≡ written_buffer (fresh_map (limits_of mcl mcc mpl) capacity) out.old }
{
    answered(map_making::fresh(Limits { mcl, mcc, mpl }, capacity, out))
}

// Whether a buffer begins with a map: 0 or 2.
pub fn wotskrale_map_test(sheet: &[u8]) -> u64
    ensures { result ≡ refusal_status (map_refusal sheet.now) }
{
    tested(map_test::test(sheet))
}

// An area with a value inserted behind the others; answers the position that it took. Refuses 2, then 3, then 5, then 14.
pub fn wotskrale_map_insert(
    sheet: &mut [u8],
    kind: u64,
    id: u64,
    base: &[u8],
    count: u64,
    start: u64,
    end_kind: u64,
    end: u64,
    value: u64,
) -> Answer
    ensures value { result ≡ given itself (insert_answer sheet.old (insertion kind id base.now count start end_kind end value)) }
    ensures sheet_after { sheet.new ≡ insert_leaves sheet.old (insertion kind id base.now count start end_kind end value) }
{
    answered(area_map::insert(sheet, kind, id, base, count, start, end_kind, end, value))
}

// The positions of the rules whose area intersects an area, in insertion order, written in 8 bytes each to the front of a buffer;
// answers how many. Refuses 2, then 3, then 5, then 15.
pub fn wotskrale_map_intersecting(
    sheet: &[u8],
    kind: u64,
    id: u64,
    base: &[u8],
    count: u64,
    start: u64,
    end_kind: u64,
    end: u64,
    out: &mut [u8],
) -> Answer
    ensures value { result ≡ given itself (listed_number (listing sheet.now (argument kind id base.now count start end_kind end)) out.old) }
    ensures out_after { out.new ≡ written_buffer (listed_bytes (listing sheet.now (argument kind id base.now count start end_kind end))) out.old }
{
    answered(map_listing::intersecting(sheet, kind, id, base, count, start, end_kind, end, out))
}
