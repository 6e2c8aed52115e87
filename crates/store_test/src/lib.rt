// The test of a lent store (document 01, "Sheets"): passes over its rows, each linear in their number, the comparisons of paths among
// them. What passed goes on as the store's rows.
#![tactic(auto)]

pub mod inner;

ghost use Rattle.std.specs.Prelude.{◌≡◌, false, IfErr, IfOk, true};
ghost use Rattle.willow.specs.Answers.{refusal_of};
ghost use Rattle.willow.specs.declared.Refusal.TheVariants.{BadSheet};
ghost use Rattle.store_form.specs.StoreTest.{is_store, store_refusal};
ghost use Rattle.store_rows.specs.HeldRows.{RowsOf};

use store_rows::rows::StoreRows;
use willow::Refusal;

// The rows of a store, once its sheet passed the test: 2.
pub fn lend<'a>(sheet: &'a [u8]) -> Result<StoreRows<'a>, Refusal>
    ensures ok { IfOk result (λ r. (is_store sheet.now ≡ true) × RowsOf r sheet.now) }
    ensures err { IfErr result (λ r. (is_store sheet.now ≡ false) × (r ≡ BadSheet)) }
{
    inner::tested(sheet).ok_or(Refusal::BadSheet)
}

// The test of a store: 2.
pub fn test(sheet: &[u8]) -> Result<(), Refusal>
    ensures { refusal_of result ≡ store_refusal sheet.now }
{
    lend(sheet)?;
    Ok(())
}
