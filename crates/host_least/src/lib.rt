// The calls of `least` for a host in another language: the least paths above a path, written packed to the front of a buffer.
// Each answers the length written.
//
// A slice is a pointer and then a length; limits are three numbers MCL, MCC, MPL. Nothing is required of the host but that a
// buffer is as long as it says and that the buffer to write overlaps no other. The limits come one by one, as a call for C passes them.
#![tactic(auto)]

ghost use Rattle.std.specs.Prelude.{◌≡◌};
ghost use Rattle.willow.specs.Answers.{on_path, packed_outcome, written_buffer, written_length};
ghost use Rattle.least.specs.Places.{next_greater_of, successor_of};
ghost use Rattle.convention.specs.Exports.{given, itself, limits_of};

use convention::{Answer, answered_if_any};
use willow::Limits;

// The least path above a path.
pub fn wotskrale_path_successor(
    mcl: u64,
    mcc: u64,
    mpl: u64,
    b: &[u8],
    count: u64,
    out: &mut [u8],
) -> Answer
    ensures value { result ≡ given itself (written_length (packed_outcome (on_path (limits_of mcl mcc mpl) b.now count (successor_of (limits_of mcl mcc mpl)))) out.old) }
    ensures out_after { out.new ≡ written_buffer (packed_outcome (on_path (limits_of mcl mcc mpl) b.now count (successor_of (limits_of mcl mcc mpl)))) out.old }
{
    answered_if_any(least::successor(Limits { mcl, mcc, mpl }, b, count, out))
}

// The least path above a path that it does not prefix.
pub fn wotskrale_path_greater_but_not_prefixed(
    mcl: u64,
    mcc: u64,
    mpl: u64,
    b: &[u8],
    count: u64,
    out: &mut [u8],
) -> Answer
    ensures value { result ≡ given itself (written_length (packed_outcome (on_path (limits_of mcl mcc mpl) b.now count (next_greater_of (limits_of mcl mcc mpl)))) out.old) }
    ensures out_after { out.new ≡ written_buffer (packed_outcome (on_path (limits_of mcl mcc mpl) b.now count (next_greater_of (limits_of mcl mcc mpl)))) out.old }
{
    answered_if_any(least::greater_but_not_prefixed(Limits { mcl, mcc, mpl }, b, count, out))
}

// The end of the range of one path; none where it is open.
pub fn wotskrale_path_singleton_range(
    mcl: u64,
    mcc: u64,
    mpl: u64,
    b: &[u8],
    count: u64,
    out: &mut [u8],
) -> Answer
    ensures value { result ≡ given itself (written_length (packed_outcome (on_path (limits_of mcl mcc mpl) b.now count (successor_of (limits_of mcl mcc mpl)))) out.old) }
    ensures out_after { out.new ≡ written_buffer (packed_outcome (on_path (limits_of mcl mcc mpl) b.now count (successor_of (limits_of mcl mcc mpl)))) out.old }
{
    answered_if_any(least::singleton_range(Limits { mcl, mcc, mpl }, b, count, out))
}
