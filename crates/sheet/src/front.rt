// The numbers with which both sheets begin (document 01: "Sizes first"): MCL, MCC, MPL, N, and how many rows are in use; and how many
// bytes a cell has.

ghost use Rattle.std.specs.Prelude.{◌≡◌, ◌≤◌, IfOk, length};
ghost use Rattle.willow.specs.Answers.{capacity_refusal, limits_refusal, or_else, refusal_of};
ghost use Rattle.willow.specs.Limits.{Accepted, max_capacity, max_word};
ghost use Rattle.willow.specs.Numbers.{le};
ghost use Rattle.number.specs.Overwriting.{overwrite};
ghost use Rattle.sheet.specs.Cells.{cell_size_of};
ghost use Rattle.sheet.specs.Front.{limits_in};

use number::{read_u64, write_u64};
use refusals::{capacity_accepted, test_limits};
use willow::{Limits, Refusal};

pub const MCL_AT: usize = 0;

pub const MCC_AT: usize = 8;

pub const MPL_AT: usize = 16;

pub const CAPACITY_AT: usize = 24;

pub const COUNT_AT: usize = 32;

// The test of limits and a capacity that a sheet is to be made with: 1.
#[tactic(auto, unfolding(willow::specs::Answers::limits_refusal))]
pub fn test_sizes(limits: Limits, capacity: u64) -> Result<(), Refusal>
    ensures refused { refusal_of result ≡ or_else (limits_refusal limits) (capacity_refusal capacity) }
    ensures ok { IfOk result (λ u. Accepted limits × (capacity ≤ max_capacity)) }
{
    test_limits(limits)?;
    if capacity_accepted(capacity) {
        Ok(())
    } else {
        Err(Refusal::BadLimits)
    }
}

// The limits as they stand in a sheet.
pub fn read_limits(sheet: &[u8]) -> Limits
    requires { 24 ≤ length sheet.now }
    ensures { result ≡ limits_in sheet.now }
{
    Limits {
        mcl: read_u64(sheet, MCL_AT),
        mcc: read_u64(sheet, MCC_AT),
        mpl: read_u64(sheet, MPL_AT),
    }
}

// The limits and N written.
pub fn write_sizes(out: &mut [u8], limits: Limits, capacity: u64)
    requires { 32 ≤ length out.old }
    ensures { out.new ≡ overwrite (overwrite (overwrite (overwrite out.old 0 (le 8 limits.mcl)) 8 (le 8 limits.mcc)) 16 (le 8 limits.mpl)) 24 (le 8 capacity) }
{
    write_u64(out, MCL_AT, limits.mcl);
    write_u64(out, MCC_AT, limits.mcc);
    write_u64(out, MPL_AT, limits.mpl);
    write_u64(out, CAPACITY_AT, capacity);
}

// How many bytes a cell has: C.
pub fn cell_size(limits: Limits) -> usize
    requires { cell_size_of limits ≤ max_word }
    ensures { result ≡ cell_size_of limits }
{
    8 * (limits.mcc as usize + 1) + limits.mpl as usize
}
