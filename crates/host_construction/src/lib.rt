// The calls of `construction` for a host in another language: paths made from parts, written packed to the front of a buffer.
// Each answers the length written.
//
// A slice is a pointer and then a length; limits are three numbers MCL, MCC, MPL. Nothing is required of the host but that a
// buffer is as long as it says and that the buffer to write overlaps no other. The parts come one by one, as a call for C passes them.
#![tactic(auto)]

ghost use Rattle.std.specs.Prelude.{◌≡◌};
ghost use Rattle.willow.specs.Answers.{on_path, packed_outcome, written_buffer, written_length};
ghost use Rattle.construction.specs.Making.{appended_of, empty_outcome, iter_outcome, singleton_outcome, slices_appended_of, slices_outcome};
ghost use Rattle.convention.specs.Exports.{given, itself, limits_of};

use convention::{Answer, answered};
use willow::Limits;

// From slices: lengths as 8-byte numbers, and the bytes.
pub fn wotskrale_path_from_slices(
    mcl: u64,
    mcc: u64,
    mpl: u64,
    lengths: &[u8],
    bytes: &[u8],
    out: &mut [u8],
) -> Answer
    ensures value { result ≡ given itself (written_length (packed_outcome (slices_outcome (limits_of mcl mcc mpl) lengths.now bytes.now)) out.old) }
    ensures out_after { out.new ≡ written_buffer (packed_outcome (slices_outcome (limits_of mcl mcc mpl) lengths.now bytes.now)) out.old }
{
    answered(construction::from_slices(Limits { mcl, mcc, mpl }, lengths, bytes, out))
}

// From slices with their total.
pub fn wotskrale_path_new_from_iter(
    mcl: u64,
    mcc: u64,
    mpl: u64,
    total: u64,
    lengths: &[u8],
    bytes: &[u8],
    out: &mut [u8],
) -> Answer
    ensures value { result ≡ given itself (written_length (packed_outcome (iter_outcome (limits_of mcl mcc mpl) total lengths.now bytes.now)) out.old) }
    ensures out_after { out.new ≡ written_buffer (packed_outcome (iter_outcome (limits_of mcl mcc mpl) total lengths.now bytes.now)) out.old }
{
    answered(construction::new_from_iter(Limits { mcl, mcc, mpl }, total, lengths, bytes, out))
}

// The empty path.
pub fn wotskrale_path_new_empty(mcl: u64, mcc: u64, mpl: u64, out: &mut [u8]) -> Answer
    ensures value { result ≡ given itself (written_length (packed_outcome (empty_outcome (limits_of mcl mcc mpl))) out.old) }
    ensures out_after { out.new ≡ written_buffer (packed_outcome (empty_outcome (limits_of mcl mcc mpl))) out.old }
{
    answered(construction::new_empty(Limits { mcl, mcc, mpl }, out))
}

// The path of one component.
pub fn wotskrale_path_new_singleton(
    mcl: u64,
    mcc: u64,
    mpl: u64,
    c: &[u8],
    out: &mut [u8],
) -> Answer
    ensures value { result ≡ given itself (written_length (packed_outcome (singleton_outcome (limits_of mcl mcc mpl) c.now)) out.old) }
    ensures out_after { out.new ≡ written_buffer (packed_outcome (singleton_outcome (limits_of mcl mcc mpl) c.now)) out.old }
{
    answered(construction::new_singleton(Limits { mcl, mcc, mpl }, c, out))
}

// A component behind a path.
pub fn wotskrale_path_append(
    mcl: u64,
    mcc: u64,
    mpl: u64,
    b: &[u8],
    count: u64,
    c: &[u8],
    out: &mut [u8],
) -> Answer
    ensures value { result ≡ given itself (written_length (packed_outcome (on_path (limits_of mcl mcc mpl) b.now count (appended_of (limits_of mcl mcc mpl) c.now))) out.old) }
    ensures out_after { out.new ≡ written_buffer (packed_outcome (on_path (limits_of mcl mcc mpl) b.now count (appended_of (limits_of mcl mcc mpl) c.now))) out.old }
{
    answered(construction::append(Limits { mcl, mcc, mpl }, b, count, c, out))
}

// Slices behind a path.
pub fn wotskrale_path_append_slice(
    mcl: u64,
    mcc: u64,
    mpl: u64,
    b: &[u8],
    count: u64,
    lengths: &[u8],
    bytes: &[u8],
    out: &mut [u8],
) -> Answer
    ensures value { result ≡ given itself (written_length (packed_outcome (on_path (limits_of mcl mcc mpl) b.now count (slices_appended_of (limits_of mcl mcc mpl) lengths.now bytes.now))) out.old) }
    ensures out_after { out.new ≡ written_buffer (packed_outcome (on_path (limits_of mcl mcc mpl) b.now count (slices_appended_of (limits_of mcl mcc mpl) lengths.now bytes.now))) out.old }
{
    answered(construction::append_slice(Limits { mcl, mcc, mpl }, b, count, lengths, bytes, out))
}
