// The store (document 01, "Sheets"): entries filed in a sheet in lent memory. The store's limits, capacity and namespace stand in the
// sheet itself. What every list of offers to a fresh store leaves is `Demand3OnBytes` (crate `store_law`); a fresh store is made by
// crate `store_making`.
#![tactic(auto)]

ghost use Rattle.std.specs.Prelude.{◌≡◌};
ghost use Rattle.willow.specs.Store.{offer};
ghost use Rattle.store_law.specs.Offers.{answer_in, leaves_in};
ghost use Rattle.store_answers.specs.Calls.{answer_of, offer_of};

use entry::Head;
use store_answers::Offered;
use store_form::NAMESPACE_AT;
use store_taking::inner::take_offer;
use willow::Refusal;

// An entry offered: its namespace, its head, and its path as a buffer with a count. Refuses 2, then 4, then 5, then 13, then 14. Room
// freed by pruning is used by the same offer.
pub fn offer(
    sheet: &mut [u8],
    namespace: u64,
    head: Head,
    path: &[u8],
    count: u64,
) -> Result<Offered, Refusal>
    ensures result_value { answer_of result ≡ answer_in sheet.old (offer (offer_of namespace head path.now count)) }
    ensures sheet_after { sheet.new ≡ leaves_in sheet.old (offer (offer_of namespace head path.now count)) }
{
    let limits = store_test::lend(sheet)?.sizes.limits;
    if number::read_u64(sheet, NAMESPACE_AT) != namespace {
        return Err(Refusal::WrongNamespace);
    }
    let path = lent_path::lend(limits, path, count)?;
    take_offer(sheet, head, path)
}
