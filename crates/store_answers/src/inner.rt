// The answer to an offer that the totals have room for, and what becomes of one that is not filed. They are not open to a caller.

ghost use Rattle.std.specs.Prelude.{false, ◌≡◌, ◌+◌, ◌*◌, ◌≤◌, eqb, length};
ghost use Rattle.willow.specs.Limits.{max_word};
ghost use Rattle.willow.specs.Numbers.{le};
ghost use Rattle.willow.specs.Store.{answer_by};
ghost use Rattle.number.specs.Overwriting.{overwrite};
ghost use Rattle.store_form.specs.Stores.{let_go_place, store_numbers};
ghost use Rattle.store_answers.specs.Calls.{answer_of};

use crate::Offered;
use store_form::LET_GO_AT;
use store_scan::Scan;
use willow::Refusal;

// What an offer that the totals have room for is answered, by what a pass over the held entries met and how many of them it leaves.
pub fn decided(met: Scan, left: usize, capacity: usize) -> Result<Offered, Refusal>
    ensures { answer_of result ≡ answer_by false met.outdated met.repeat (eqb left capacity) met.pruned }
{
    if met.outdated {
        Ok(Offered::Outdated)
    } else if met.repeat {
        Ok(Offered::Repeat)
    } else if left == capacity {
        Err(Refusal::NoRoom)
    } else {
        Ok(Offered::Taken(met.pruned as u64))
    }
}

// The payload bytes of an offer that is not filed: they go to let-go.
pub fn let_go_more(sheet: &mut [u8], let_go: u64, more: u64)
    requires { (8 * store_numbers ≤ length sheet.old) × (let_go + more ≤ max_word) }
    ensures { sheet.new ≡ overwrite sheet.old let_go_place (le 8 (let_go + more)) }
{
    number::write_u64(sheet, LET_GO_AT, let_go + more);
}
