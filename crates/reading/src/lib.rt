// Questions on one lent path (path/mod.rs). Every call takes limits, a buffer and a count as they come, refuses 1, then 5, and answers
// a question on the path that was lent. A path comes as a buffer and a count, as document 01 lends it; `path_view` has the two as one value.
#![tactic(auto, unfolding(willow::specs::Answers::on_path))]

ghost use Rattle.std.specs.Prelude.{◌≡◌};
ghost use Rattle.willow.specs.Answers.{on_path, optional_outcome, outcome};
ghost use Rattle.reading.specs.Reading.{bytes_or, component_length_of, component_of, count_of, emptiness_of, length_of, prefix_count_of, prefix_length_of};

use lent_path::lend;
use willow::{Limits, Refusal};

// How many components.
pub fn component_count(limits: Limits, b: &[u8], count: u64) -> Result<u64, Refusal>
    ensures { outcome result ≡ on_path limits b.now count count_of }
{
    Ok(lend(limits, b, count)?.component_count() as u64)
}

// Whether it has none.
pub fn is_empty(limits: Limits, b: &[u8], count: u64) -> Result<bool, Refusal>
    ensures { outcome result ≡ on_path limits b.now count emptiness_of }
{
    Ok(lend(limits, b, count)?.component_count() == 0)
}

// How many bytes in all components.
pub fn path_length(limits: Limits, b: &[u8], count: u64) -> Result<u64, Refusal>
    ensures { outcome result ≡ on_path limits b.now count length_of }
{
    Ok(lend(limits, b, count)?.path_length() as u64)
}

// How many bytes in the first n components; none if there are fewer.
pub fn path_length_of_prefix(
    limits: Limits,
    b: &[u8],
    count: u64,
    n: u64,
) -> Result<Option<u64>, Refusal>
    ensures { optional_outcome result ≡ on_path limits b.now count (prefix_length_of n) }
{
    let path = lend(limits, b, count)?;
    Ok(path.first(n).map(|prefix| prefix.path_length() as u64))
}

// The count of the prefix of n components, which is the same buffer; none if there are fewer.
pub fn create_prefix(limits: Limits, b: &[u8], count: u64, n: u64) -> Result<Option<u64>, Refusal>
    ensures { optional_outcome result ≡ on_path limits b.now count (prefix_count_of n) }
{
    let path = lend(limits, b, count)?;
    Ok(path.first(n).map(|prefix| prefix.component_count() as u64))
}

// The length of component i; none past the count.
pub fn component_length(
    limits: Limits,
    b: &[u8],
    count: u64,
    i: u64,
) -> Result<Option<u64>, Refusal>
    ensures { optional_outcome result ≡ on_path limits b.now count (component_length_of i) }
{
    let path = lend(limits, b, count)?;
    Ok(path.get(i).map(|component| component.len() as u64))
}

// Component i as a part of the buffer; the empty part where `component_length` refuses or says none.
pub fn component<'a>(limits: Limits, b: &'a [u8], count: u64, i: u64) -> &'a [u8]
    ensures { result.now ≡ bytes_or (on_path limits b.now count (component_of i)) }
{
    match lend(limits, b, count) {
        Ok(path) => path.get(i).unwrap_or(&b[..0]),
        Err(_) => &b[..0],
    }
}
