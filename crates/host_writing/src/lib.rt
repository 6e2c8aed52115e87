// The calls of `writing` for a host in another language: a component's bytes, and a prefix or the longest common prefix packed,
// written to the front of a buffer.
//
// A slice is a pointer and then a length; limits are three numbers MCL, MCC, MPL. Nothing is required of the host but that a
// buffer is as long as it says and that the buffer to write overlaps no other. The limits come one by one, as a call for C passes them.
#![tactic(auto)]

ghost use Rattle.std.specs.Prelude.{◌≡◌};
ghost use Rattle.willow.specs.Answers.{on_path, on_paths, packed_outcome, written_buffer, written_length};
ghost use Rattle.reading.specs.Reading.{component_of};
ghost use Rattle.writing.specs.Writing.{common_prefix_of, prefix_of};
ghost use Rattle.convention.specs.Exports.{given, itself, limits_of};

use convention::{Answer, answered, answered_if_any};
use willow::Limits;

// Component i written to the front of out: its length.
pub fn wotskrale_path_write_component(
    mcl: u64,
    mcc: u64,
    mpl: u64,
    b: &[u8],
    count: u64,
    i: u64,
    out: &mut [u8],
) -> Answer
    ensures value { result ≡ given itself (written_length (on_path (limits_of mcl mcc mpl) b.now count (component_of i)) out.old) }
    ensures out_after { out.new ≡ written_buffer (on_path (limits_of mcl mcc mpl) b.now count (component_of i)) out.old }
{
    answered_if_any(writing::write_component(Limits { mcl, mcc, mpl }, b, count, i, out))
}

// The packed prefix of n components written to the front of out: its length.
pub fn wotskrale_path_write_prefix(
    mcl: u64,
    mcc: u64,
    mpl: u64,
    b: &[u8],
    count: u64,
    n: u64,
    out: &mut [u8],
) -> Answer
    ensures value { result ≡ given itself (written_length (packed_outcome (on_path (limits_of mcl mcc mpl) b.now count (prefix_of n))) out.old) }
    ensures out_after { out.new ≡ written_buffer (packed_outcome (on_path (limits_of mcl mcc mpl) b.now count (prefix_of n))) out.old }
{
    answered_if_any(writing::write_prefix(Limits { mcl, mcc, mpl }, b, count, n, out))
}

// The packed longest common prefix written to the front of out: its length.
pub fn wotskrale_path_write_longest_common_prefix(
    mcl: u64,
    mcc: u64,
    mpl: u64,
    a: &[u8],
    ca: u64,
    b: &[u8],
    cb: u64,
    out: &mut [u8],
) -> Answer
    ensures value { result ≡ given itself (written_length (packed_outcome (on_paths (limits_of mcl mcc mpl) a.now ca b.now cb common_prefix_of)) out.old) }
    ensures out_after { out.new ≡ written_buffer (packed_outcome (on_paths (limits_of mcl mcc mpl) a.now ca b.now cb common_prefix_of)) out.old }
{
    answered(writing::write_longest_common_prefix(Limits { mcl, mcc, mpl }, a, ca, b, cb, out))
}
