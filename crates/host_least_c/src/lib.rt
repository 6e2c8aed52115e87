// For C: the calls of `host_least`, as a static library. Each is the call of that name there, and promises what that promises;
// the head of `host_least` says how its arguments are passed.
#![tactic(auto)]

ghost use Rattle.std.specs.Prelude.{◌≡◌};
ghost use Rattle.willow.specs.Answers.{on_path, packed_outcome, written_buffer, written_length};
ghost use Rattle.least.specs.Places.{next_greater_of, successor_of};
ghost use Rattle.convention.specs.Exports.{given, itself, limits_of};

use convention::Answer;

// The least path above a path.
#[unsafe(no_mangle)]
pub extern "C" fn wotskrale_path_successor(
    mcl: u64,
    mcc: u64,
    mpl: u64,
    b: &[u8],
    count: u64,
    out: &mut [u8],
) -> Answer
    ensures value { result ≡ given itself (written_length (packed_outcome (on_path (limits_of mcl mcc mpl) b.now count (successor_of (limits_of mcl mcc mpl)))) out.old) }
    ensures out_after { out.new ≡ written_buffer (packed_outcome (on_path (limits_of mcl mcc mpl) b.now count (successor_of (limits_of mcl mcc mpl)))) out.old }
{
    host_least::wotskrale_path_successor(mcl, mcc, mpl, b, count, out)
}

// The least path above a path that it does not prefix.
#[unsafe(no_mangle)]
pub extern "C" fn wotskrale_path_greater_but_not_prefixed(
    mcl: u64,
    mcc: u64,
    mpl: u64,
    b: &[u8],
    count: u64,
    out: &mut [u8],
) -> Answer
    ensures value { result ≡ given itself (written_length (packed_outcome (on_path (limits_of mcl mcc mpl) b.now count (next_greater_of (limits_of mcl mcc mpl)))) out.old) }
    ensures out_after { out.new ≡ written_buffer (packed_outcome (on_path (limits_of mcl mcc mpl) b.now count (next_greater_of (limits_of mcl mcc mpl)))) out.old }
{
    host_least::wotskrale_path_greater_but_not_prefixed(mcl, mcc, mpl, b, count, out)
}

// The end of the range of one path; none where it is open.
#[unsafe(no_mangle)]
pub extern "C" fn wotskrale_path_singleton_range(
    mcl: u64,
    mcc: u64,
    mpl: u64,
    b: &[u8],
    count: u64,
    out: &mut [u8],
) -> Answer
    ensures value { result ≡ given itself (written_length (packed_outcome (on_path (limits_of mcl mcc mpl) b.now count (successor_of (limits_of mcl mcc mpl)))) out.old) }
    ensures out_after { out.new ≡ written_buffer (packed_outcome (on_path (limits_of mcl mcc mpl) b.now count (successor_of (limits_of mcl mcc mpl)))) out.old }
{
    host_least::wotskrale_path_singleton_range(mcl, mcc, mpl, b, count, out)
}
