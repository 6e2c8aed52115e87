// Reading a store (document 01, "Sheets"): the numbers before the heads, and entry i by its head and its path. Every call tests the
// sheet: 2. A store's entries stand by subspace and then path, and are counted from 0.
#![tactic(auto)]

pub mod inner;

ghost use Rattle.std.specs.Prelude.{◌≡◌};
ghost use Rattle.willow.specs.Answers.{optional_outcome, outcome, written_buffer, written_length};
ghost use Rattle.reading.specs.Reading.{bytes_or};
ghost use Rattle.store_reading.specs.Held.{components_of, entry_read, head_or, held_with, numbers_read, packed_of};

use entry::Head;
use store_test::lend;
use willow::{Limits, Refusal};

// The numbers before the heads: what the store was made with, how many entries it holds, and the bytes held and let go.
#[derive(Clone, Copy)]
pub struct StoreNumbers {
    pub limits: Limits,
    pub capacity: u64,
    pub count: u64,
    pub namespace: u64,
    pub held: u64,
    pub let_go: u64,
}

// An entry but for its namespace, which is the store's, and its path: how many components that has.
#[derive(Clone, Copy)]
pub struct HeldEntry {
    pub count: u64,
    pub head: Head,
}

// The numbers of a store.
#[tactic(auto, unfolding(crate::specs::Held::numbers_read))]
pub fn numbers(sheet: &[u8]) -> Result<StoreNumbers, Refusal>
    ensures { outcome result ≡ numbers_read sheet.now }
{
    lend(sheet)?;
    Ok(inner::numbers(sheet))
}

// Entry i but for its path, of which it has the count; none past the last.
pub fn entry(sheet: &[u8], i: u64) -> Result<Option<HeldEntry>, Refusal>
    ensures { optional_outcome result ≡ held_with (head_or (entry_read sheet.now i)) (components_of (entry_read sheet.now i)) }
{
    Ok(inner::find(sheet, i)?.map(|held| HeldEntry {
        count: held.path.component_count() as u64,
        head: held.head,
    }))
}

// The packed path of entry i, a part of the sheet; an empty part where `entry` refuses or says none.
pub fn entry_path<'a>(sheet: &'a [u8], i: u64) -> &'a [u8]
    ensures { result.now ≡ bytes_or (packed_of (entry_read sheet.now i)) }
{
    match inner::find(sheet, i) {
        Ok(Some(held)) => held.path.bytes,
        _ => &sheet[..0],
    }
}

// The packed path of entry i written to the front of a buffer: how many bytes; none past the last entry. Refuses 2, then 15.
// `.map(..).transpose()` in place of the `let` was tried, and the proof did not close: what the closure leaves in `out` is not told.
pub fn write_entry_path(sheet: &[u8], i: u64, out: &mut [u8]) -> Result<Option<u64>, Refusal>
    ensures result_value { optional_outcome result ≡ written_length (packed_of (entry_read sheet.now i)) out.old }
    ensures out_after { out.new ≡ written_buffer (packed_of (entry_read sheet.now i)) out.old }
{
    let Some(held) = inner::find(sheet, i)? else {
        return Ok(None);
    };
    Ok(Some(written::write(&held.path.bytes, out)?))
}
