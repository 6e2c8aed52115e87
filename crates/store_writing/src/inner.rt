// The rows of an offer that is taken, and the numbers of the store behind it. A sheet that is written comes with its sizes, as in
// `store_closing`.
#![tactic(auto, unfolding(crate::specs::Filed::with_counts))]

ghost use Rattle.std.specs.Prelude.{◌≡◌, ◌+◌, ◌*◌, ◌<◌, ◌≤◌, length};
ghost use Rattle.willow.specs.Packed.{pack};
ghost use Rattle.packed.specs.LentPaths.{path_of};
ghost use Rattle.entry.specs.LentEntries.{entry_of};
ghost use Rattle.sheet.specs.Cells.{cell_size_of};
ghost use Rattle.sheet.specs.Rows.{with_rows};
ghost use Rattle.store_form.specs.Stores.{store_numbers, store_shape};
ghost use Rattle.store_rows.specs.EntryRows.{RowsReadable, sizes_of};
ghost use Rattle.store_writing.specs.Filed.{filed_rows, rows_left, with_counts};

use entry::LentEntry;
use sheet::front::COUNT_AT;
use store_closing::inner::close_up;
use store_filing::inner::put_row;
use store_form::{HELD_AT, LET_GO_AT};
use store_rows::sizes::StoreSizes;

// The rows that an offer prunes taken out, and its own put in at a place among those that are left.
pub fn file_rows(sheet: &mut [u8], sizes: StoreSizes, n: usize, at: usize, offered: &LentEntry)
    requires rows_readable { RowsReadable sizes.limits sizes.capacity n sheet.old × (length (pack (path_of offered.now.path)) ≤ cell_size_of sizes.limits) }
    requires sheet_len_bound { (length (rows_left sizes.limits sizes.capacity n (entry_of offered.now) sheet.old) < sizes.capacity) × (at ≤ length (rows_left sizes.limits sizes.capacity n (entry_of offered.now) sheet.old)) }
    ensures { sheet.new ≡ with_rows (store_shape (sizes_of sizes.limits sizes.capacity)) sheet.old (filed_rows sizes.limits sizes.capacity n at (entry_of offered.now) sheet.old) }
{
    let left = close_up(sheet, sizes, n, offered);
    put_row(sheet, sizes, left, at, offered);
}

// The count and both totals written.
pub fn set_counts(sheet: &mut [u8], n: u64, held: u64, let_go: u64)
    requires { 8 * store_numbers ≤ length sheet.old }
    ensures { sheet.new ≡ with_counts n held let_go sheet.old }
{
    number::write_u64(sheet, COUNT_AT, n);
    number::write_u64(sheet, HELD_AT, held);
    number::write_u64(sheet, LET_GO_AT, let_go);
}
