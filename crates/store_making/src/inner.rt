// The bytes of a fresh store. They are not open to a caller.

ghost use Rattle.std.specs.Prelude.{◌≡◌, ◌≤◌};
ghost use Rattle.willow.specs.Answers.{outcome, written_buffer, written_length};
ghost use Rattle.willow.specs.Limits.{Accepted, max_capacity};
ghost use Rattle.willow.specs.Refusals.{value};
ghost use Rattle.willow.specs.Store.{fresh};
ghost use Rattle.store_form.specs.Stores.{store_layout};

use sheet::front::write_sizes;
use store_form::NAMESPACE_AT;
use store_rows::sizes::StoreSizes;
use willow::{Limits, Refusal};

// A fresh store of accepted sizes: its header, and zeros.
pub fn make(limits: Limits, capacity: u64, namespace: u64, out: &mut [u8]) -> Result<u64, Refusal>
    requires { Accepted limits × (capacity ≤ max_capacity) }
    ensures result_value { outcome result ≡ written_length (value (store_layout (record { limits = limits; capacity = capacity; namespace = namespace }) fresh)) out.old }
    ensures out_after { out.new ≡ written_buffer (value (store_layout (record { limits = limits; capacity = capacity; namespace = namespace }) fresh)) out.old }
{
    let sizes = StoreSizes {
        limits,
        capacity: capacity as usize,
    };
    let length = sizes.sheet_length();
    if out.len() < length {
        return Err(Refusal::OutTooSmall);
    }
    number::zero(out, 0, length);
    write_sizes(out, limits, capacity);
    number::write_u64(out, NAMESPACE_AT, namespace);
    Ok(length as u64)
}
