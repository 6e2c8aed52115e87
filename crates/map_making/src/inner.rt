// The bytes of a fresh map. They are not open to a caller.

ghost use Rattle.std.specs.Prelude.{[], ◌≡◌, ◌≤◌};
ghost use Rattle.willow.specs.Answers.{outcome, written_buffer, written_length};
ghost use Rattle.willow.specs.Limits.{Accepted, max_capacity};
ghost use Rattle.willow.specs.Refusals.{value};
ghost use Rattle.map_form.specs.Maps.{map_layout};

use map_form::sizes::MapSizes;
use number::zero;
use sheet::front::write_sizes;
use willow::Refusal;

// A fresh map of accepted sizes: its header, and zeros.
pub fn make(sizes: MapSizes, out: &mut [u8]) -> Result<u64, Refusal>
    requires { Accepted sizes.limits × (sizes.capacity ≤ max_capacity) }
    ensures result_value { outcome result ≡ written_length (value (map_layout sizes [])) out.old }
    ensures out_after { out.new ≡ written_buffer (value (map_layout sizes [])) out.old }
{
    let length = sizes.sheet_length();
    if out.len() < length {
        return Err(Refusal::OutTooSmall);
    }
    zero(out, 0, length);
    write_sizes(out, sizes.limits, sizes.capacity);
    Ok(length as u64)
}
