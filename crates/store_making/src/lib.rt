// A store made fresh (document 01, "Sheets").
#![tactic(auto)]

pub mod inner;

ghost use Rattle.std.specs.Prelude.{◌≡◌};
ghost use Rattle.willow.specs.Answers.{outcome, written_buffer, written_length};
ghost use Rattle.store_law.specs.Offers.{fresh_store};

use sheet::front::test_sizes;
use willow::{Limits, Refusal};

// A fresh store of these sizes and this namespace written to the front of a buffer, of which nothing is read; answers its length.
// Refuses 1, then 15.
#[tactic(auto, unfolding(store_law::specs::Offers::fresh_store))]
pub fn fresh(limits: Limits, capacity: u64, namespace: u64, out: &mut [u8]) -> Result<u64, Refusal>
    ensures result_value { outcome result ≡ written_length (fresh_store (record { limits = limits; capacity = capacity; namespace = namespace })) out.old }
    ensures out_after { out.new ≡ written_buffer (fresh_store (record { limits = limits; capacity = capacity; namespace = namespace })) out.old }
{
    test_sizes(limits, capacity)?;
    inner::make(limits, capacity, namespace, out)
}
