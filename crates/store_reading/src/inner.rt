// A store's numbers, and entry i. They are not open to a caller.

ghost use Rattle.std.specs.Prelude.{true, ◌≡◌, IfOk, IfSome};
ghost use Rattle.willow.specs.Packed.{pack};
ghost use Rattle.packed.specs.LentPaths.{path_of};
ghost use Rattle.store_form.specs.Stores.{sizes_in, state_in};
ghost use Rattle.store_form.specs.StoreTest.{is_store};
ghost use Rattle.store_reading.specs.Held.{entry_outcome, entry_read, numbers_of};

use crate::StoreNumbers;
use entry::LentEntry;
use sheet::front::{CAPACITY_AT, COUNT_AT};
use store_form::{HELD_AT, LET_GO_AT, NAMESPACE_AT};
use store_rows::sizes::StoreSizes;
use store_test::lend;
use willow::Refusal;

// The numbers of a store that was tested.
pub fn numbers(sheet: &[u8]) -> StoreNumbers
    requires { is_store sheet.now ≡ true }
    ensures { result ≡ numbers_of (sizes_in sheet.now) (state_in sheet.now) }
{
    StoreNumbers {
        limits: StoreSizes::read(sheet).limits,
        capacity: number::read_u64(sheet, CAPACITY_AT),
        count: number::read_u64(sheet, COUNT_AT),
        namespace: number::read_u64(sheet, NAMESPACE_AT),
        held: number::read_u64(sheet, HELD_AT),
        let_go: number::read_u64(sheet, LET_GO_AT),
    }
}

// Entry i of a store, whose path is packed in a part of the sheet; none past the last. Refuses 2.
pub fn find<'a>(sheet: &'a [u8], i: u64) -> Result<Option<LentEntry<'a>>, Refusal>
    ensures found { entry_outcome result ≡ entry_read sheet.now i }
    ensures whole { IfOk result (λ o. IfSome o (λ e. e.path.bytes.now ≡ pack (path_of e.path))) }
{
    let rows = lend(sheet)?;
    if rows.count as u64 <= i {
        return Ok(None);
    }
    let i = i as usize;
    Ok(Some(LentEntry {
        namespace: number::read_u64(sheet, NAMESPACE_AT),
        head: rows.head(i),
        path: rows.path(i),
    }))
}
