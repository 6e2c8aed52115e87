// An offer filed in a store whose sheet, namespace and path were tested. It is not open to a caller.

ghost use Rattle.std.specs.Prelude.{true, ◌≡◌, ◌≤◌, length};
ghost use Rattle.willow.specs.Packed.{pack};
ghost use Rattle.packed.specs.LentPaths.{path_of};
ghost use Rattle.entry.specs.Heads.{entry_at};
ghost use Rattle.sheet.specs.Cells.{cell_size_of};
ghost use Rattle.store_form.specs.Stores.{sizes_in};
ghost use Rattle.store_form.specs.StoreTest.{is_store};
ghost use Rattle.store_answers.specs.Calls.{answer_of};
ghost use Rattle.store_taking.specs.Taking.{entry_answer, entry_leaves};

use entry::{Head, LentEntry};
use packed::lent::LentPath;
use sheet::front::COUNT_AT;
use store_answers::Offered;
use store_answers::inner::{decided, let_go_more};
use store_form::{HELD_AT, LET_GO_AT};
use store_rows::rows::StoreRows;
use store_rows::sizes::StoreSizes;
use store_scan::inner::scan_rows;
use store_writing::inner::{file_rows, set_counts};
use willow::Refusal;

// An offer to a store whose namespace and path were tested: 13; then one pass over the held entries, by which it is answered; and
// nothing is written before that. The namespace is the store's, and plays no part among its rows.
pub fn take_offer(sheet: &mut [u8], head: Head, path: LentPath) -> Result<Offered, Refusal>
    requires { (is_store sheet.old ≡ true) × (length (pack (path_of path)) ≤ cell_size_of (sizes_in sheet.old).limits) }
    ensures result_value { answer_of result ≡ entry_answer sheet.old (entry_at (sizes_in sheet.old).namespace head (path_of path.entry)) }
    ensures sheet_after { sheet.new ≡ entry_leaves sheet.old (entry_at (sizes_in sheet.old).namespace head (path_of path.entry)) }
{
    let sizes = StoreSizes::read(sheet);
    let n = number::read_u64(sheet, COUNT_AT) as usize;
    let held = number::read_u64(sheet, HELD_AT);
    let let_go = number::read_u64(sheet, LET_GO_AT);
    let more = head.payload_length;
    if u64::MAX - held - let_go < more {
        return Err(Refusal::TotalFull);
    }
    let rows = StoreRows {
        bytes: sheet,
        sizes,
        count: n,
    };
    let offered = LentEntry {
        namespace: 0,
        head,
        path,
    };
    let met = scan_rows(rows, &offered);
    let left = n - met.pruned;
    let freed = met.freed;
    let answer = decided(met, left, sizes.capacity)?;
    match answer {
        Offered::Outdated | Offered::Repeat => let_go_more(sheet, let_go, more),
        Offered::Taken(_) => {
            file_rows(sheet, sizes, n, met.place, &offered);
            set_counts(sheet, left as u64 + 1, held + more - freed, let_go + freed);
        }
    }
    Ok(answer)
}
