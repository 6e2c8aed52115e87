// For C: the call of `host_greatest`, as a static library. It is the call of that name there, and promises what that promises;
// the head of `host_greatest` says how its arguments are passed.
#![tactic(auto)]

ghost use Rattle.std.specs.Prelude.{◌≡◌};
ghost use Rattle.willow.specs.Answers.{packed_outcome, written_buffer, written_length};
ghost use Rattle.greatest.specs.Greatest.{greatest_outcome};
ghost use Rattle.convention.specs.Exports.{given, itself, limits_of};

use convention::Answer;

// The greatest path, written packed to the front of out: the length written.
#[unsafe(no_mangle)]
pub extern "C" fn wotskrale_path_new_max(mcl: u64, mcc: u64, mpl: u64, out: &mut [u8]) -> Answer
    ensures value { result ≡ given itself (written_length (packed_outcome (greatest_outcome (limits_of mcl mcc mpl))) out.old) }
    ensures out_after { out.new ≡ written_buffer (packed_outcome (greatest_outcome (limits_of mcl mcc mpl))) out.old }
{
    host_greatest::wotskrale_path_new_max(mcl, mcc, mpl, out)
}
