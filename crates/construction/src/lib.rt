// Paths made from parts (`from_slices`, `new_from_slice`, `new_from_iter`, `new_empty`, `new_singleton`, `append` and
// `append_slice` of path/mod.rs), written packed to the front of a lent buffer. All rest on `append_slice`: a path from slices
// is the empty path with the slices behind it, and one component is a list of one slice. Refused are 1, 5, 6, 7, 8, 9 in this
// order, and 15 exactly if the buffer is too short for the path; what stands behind the path stays. A path comes as a buffer and a count,
// as document 01 lends it; `path_view` has the two as one value.
#![tactic(auto)]

ghost use Rattle.std.specs.Prelude.{◌≡◌};
ghost use Rattle.willow.specs.Answers.{on_path, outcome, packed_outcome, written_buffer, written_length};
ghost use Rattle.construction.specs.Making.{appended_of, empty_outcome, iter_outcome, singleton_outcome, slices_appended_of, slices_outcome};

use extension::extended::Extended;
use lent_path::lend;
use willow::{Limits, Refusal};
use written::write;

// The empty path in its packed form: eight bytes, which say that it has no component.
const EMPTY: [u8; 8] = [0; 8];

// Slices behind a lent path.
#[tactic(auto, unfolding(willow::specs::Answers::on_path))]
pub fn append_slice(
    limits: Limits,
    b: &[u8],
    count: u64,
    lengths: &[u8],
    bytes: &[u8],
    out: &mut [u8],
) -> Result<u64, Refusal>
    ensures result_value { outcome result ≡ written_length (packed_outcome (on_path limits b.now count (slices_appended_of limits lengths.now bytes.now))) out.old }
    ensures out_after { out.new ≡ written_buffer (packed_outcome (on_path limits b.now count (slices_appended_of limits lengths.now bytes.now))) out.old }
{
    let path = lend(limits, b, count)?;
    write(&Extended::admit(limits, path, lengths, bytes)?, out)
}

// One component behind a lent path.
#[tactic(auto, using(crate::proofs::MakingLaws::one_appended))]
pub fn append(
    limits: Limits,
    b: &[u8],
    count: u64,
    c: &[u8],
    out: &mut [u8],
) -> Result<u64, Refusal>
    ensures result_value { outcome result ≡ written_length (packed_outcome (on_path limits b.now count (appended_of limits c.now))) out.old }
    ensures out_after { out.new ≡ written_buffer (packed_outcome (on_path limits b.now count (appended_of limits c.now))) out.old }
{
    let lengths = (c.len() as u64).to_le_bytes();
    append_slice(limits, b, count, &lengths, c, out)
}

// A path from slices: `from_slices`, and `new_from_slice`.
#[tactic(auto, using(crate::proofs::MakingLaws::slices_on_empty))]
pub fn from_slices(
    limits: Limits,
    lengths: &[u8],
    bytes: &[u8],
    out: &mut [u8],
) -> Result<u64, Refusal>
    ensures result_value { outcome result ≡ written_length (packed_outcome (slices_outcome limits lengths.now bytes.now)) out.old }
    ensures out_after { out.new ≡ written_buffer (packed_outcome (slices_outcome limits lengths.now bytes.now)) out.old }
{
    append_slice(limits, &EMPTY, 0, lengths, bytes, out)
}

// A path from slices with the total beside them: 6 where it is not their sum.
#[tactic(auto, unfolding(crate::specs::Making::under_limits, willow::specs::Answers::limits_refusal))]
pub fn new_from_iter(
    limits: Limits,
    total: u64,
    lengths: &[u8],
    bytes: &[u8],
    out: &mut [u8],
) -> Result<u64, Refusal>
    ensures result_value { outcome result ≡ written_length (packed_outcome (iter_outcome limits total lengths.now bytes.now)) out.old }
    ensures out_after { out.new ≡ written_buffer (packed_outcome (iter_outcome limits total lengths.now bytes.now)) out.old }
{
    refusals::test_limits(limits)?;
    if total != bytes.len() as u64 {
        return Err(Refusal::BadLengths);
    }
    from_slices(limits, lengths, bytes, out)
}

// The empty path.
#[tactic(auto, using(crate::proofs::MakingLaws::none_made))]
pub fn new_empty(limits: Limits, out: &mut [u8]) -> Result<u64, Refusal>
    ensures result_value { outcome result ≡ written_length (packed_outcome (empty_outcome limits)) out.old }
    ensures out_after { out.new ≡ written_buffer (packed_outcome (empty_outcome limits)) out.old }
{
    from_slices(limits, &[], &[], out)
}

// The path of one component.
#[tactic(auto, using(crate::proofs::MakingLaws::one_on_empty))]
pub fn new_singleton(limits: Limits, c: &[u8], out: &mut [u8]) -> Result<u64, Refusal>
    ensures result_value { outcome result ≡ written_length (packed_outcome (singleton_outcome limits c.now)) out.old }
    ensures out_after { out.new ≡ written_buffer (packed_outcome (singleton_outcome limits c.now)) out.old }
{
    append(limits, &EMPTY, 0, c, out)
}
