// For C: the calls of `host_store_reading`, as a static library. Each is the call of that name there, and promises what that promises;
// the head of `host_store_reading` says how its arguments are passed.
#![tactic(auto)]

ghost use Rattle.std.specs.Prelude.{◌≡◌};
ghost use Rattle.willow.specs.Answers.{written_buffer, written_length};
ghost use Rattle.convention.specs.Exports.{given, itself};
ghost use Rattle.store_reading.specs.Held.{entry_read, numbers_read, packed_of};
ghost use Rattle.host_store_reading.specs.ReadingExports.{given_entry, given_numbers};

use convention::Answer;
use host_store_reading::{EntryAnswer, StoreAnswer};

// The numbers before a store's heads. Refuses 2.
#[unsafe(no_mangle)]
pub extern "C" fn wotskrale_store_numbers(sheet: &[u8]) -> StoreAnswer
    ensures { result ≡ given_numbers (numbers_read sheet.now) }
{
    host_store_reading::wotskrale_store_numbers(sheet)
}

// Entry i but for its path; none past the last. Refuses 2.
#[unsafe(no_mangle)]
pub extern "C" fn wotskrale_store_entry(sheet: &[u8], i: u64) -> EntryAnswer
    ensures { result ≡ given_entry (entry_read sheet.now i) }
{
    host_store_reading::wotskrale_store_entry(sheet, i)
}

// The packed path of entry i written to the front of a buffer; answers its length, none past the last. Refuses 2, then 15.
#[unsafe(no_mangle)]
pub extern "C" fn wotskrale_store_entry_path(sheet: &[u8], i: u64, out: &mut [u8]) -> Answer
    ensures value { result ≡ given itself (written_length (packed_of (entry_read sheet.now i)) out.old) }
    ensures out_after { out.new ≡ written_buffer (packed_of (entry_read sheet.now i)) out.old }
{
    host_store_reading::wotskrale_store_entry_path(sheet, i, out)
}
