// An area map made fresh (document 01, "Sheets").
#![tactic(auto, unfolding(map_law::specs::Insertions::fresh_map))]

pub mod inner;

ghost use Rattle.std.specs.Prelude.{◌≡◌};
ghost use Rattle.willow.specs.Answers.{outcome, written_buffer, written_length};
ghost use Rattle.map_law.specs.Insertions.{fresh_map};

use map_form::sizes::MapSizes;
use sheet::front::test_sizes;
use willow::{Limits, Refusal};

// A fresh map of these sizes written to the front of a buffer, of which nothing is read; answers its length. Refuses 1, then 15.
pub fn fresh(limits: Limits, capacity: u64, out: &mut [u8]) -> Result<u64, Refusal>
    ensures result_value { outcome result ≡ written_length (fresh_map limits capacity) out.old }
    ensures out_after { out.new ≡ written_buffer (fresh_map limits capacity) out.old }
{
    test_sizes(limits, capacity)?;
    inner::make(MapSizes { limits, capacity }, out)
}
