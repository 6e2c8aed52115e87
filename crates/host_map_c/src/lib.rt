// For C: the calls of `host_map`, as a static library. Each is the call of that name there, and promises what that promises;
// the head of `host_map` says how its arguments are passed.
#![tactic(auto)]

ghost use Rattle.std.specs.Prelude.{◌≡◌};
ghost use Rattle.willow.specs.Answers.{written_buffer, written_length};
ghost use Rattle.convention.specs.Exports.{given, itself, limits_of, refusal_status};
ghost use Rattle.map_form.specs.MapTest.{map_refusal};
ghost use Rattle.map_law.specs.Insertions.{argument, fresh_map, insert_answer, insertion, insert_leaves};
ghost use Rattle.listing_law.specs.Listings.{listed_bytes, listed_number, listing};

use convention::Answer;

// A fresh map of these sizes written to the front of a buffer; answers its length. Refuses 1, then 15.
#[unsafe(no_mangle)]
pub extern "C" fn wotskrale_map_fresh(
    mcl: u64,
    mcc: u64,
    mpl: u64,
    capacity: u64,
    out: &mut [u8],
) -> Answer
    ensures value { result ≡ given itself (written_length (fresh_map (limits_of mcl mcc mpl) capacity) out.old) }
    ensures out_after { out.new ≡ written_buffer (fresh_map (limits_of mcl mcc mpl) capacity) out.old }
{
    host_map::wotskrale_map_fresh(mcl, mcc, mpl, capacity, out)
}

// Whether a buffer begins with a map: 0 or 2.
#[unsafe(no_mangle)]
pub extern "C" fn wotskrale_map_test(sheet: &[u8]) -> u64
    ensures { result ≡ refusal_status (map_refusal sheet.now) }
{
    host_map::wotskrale_map_test(sheet)
}

// An area with a value inserted behind the others; answers the position that it took. Refuses 2, then 3, then 5, then 14.
#[unsafe(no_mangle)]
pub extern "C" fn wotskrale_map_insert(
    sheet: &mut [u8],
    kind: u64,
    id: u64,
    base: &[u8],
    count: u64,
    start: u64,
    end_kind: u64,
    end: u64,
    value: u64,
) -> Answer
    ensures value { result ≡ given itself (insert_answer sheet.old (insertion kind id base.now count start end_kind end value)) }
    ensures sheet_after { sheet.new ≡ insert_leaves sheet.old (insertion kind id base.now count start end_kind end value) }
{
    host_map::wotskrale_map_insert(sheet, kind, id, base, count, start, end_kind, end, value)
}

// The positions of the rules whose area intersects an area, in insertion order, written in 8 bytes each to the front of a buffer;
// answers how many. Refuses 2, then 3, then 5, then 15.
#[unsafe(no_mangle)]
pub extern "C" fn wotskrale_map_intersecting(
    sheet: &[u8],
    kind: u64,
    id: u64,
    base: &[u8],
    count: u64,
    start: u64,
    end_kind: u64,
    end: u64,
    out: &mut [u8],
) -> Answer
    ensures value { result ≡ given itself (listed_number (listing sheet.now (argument kind id base.now count start end_kind end)) out.old) }
    ensures out_after { out.new ≡ written_buffer (listed_bytes (listing sheet.now (argument kind id base.now count start end_kind end))) out.old }
{
    host_map::wotskrale_map_intersecting(sheet, kind, id, base, count, start, end_kind, end, out)
}
