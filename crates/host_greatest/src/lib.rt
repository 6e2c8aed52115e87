// The call of `greatest` for a host in another language: the greatest path, written packed to the front of a buffer.
//
// A slice is a pointer and then a length; limits are three numbers MCL, MCC, MPL. Nothing is required of the host but that a
// buffer is as long as it says. The limits come one by one, as a call for C passes them.
#![tactic(auto)]

ghost use Rattle.std.specs.Prelude.{◌≡◌};
ghost use Rattle.willow.specs.Answers.{packed_outcome, written_buffer, written_length};
ghost use Rattle.greatest.specs.Greatest.{greatest_outcome};
ghost use Rattle.convention.specs.Exports.{given, itself, limits_of};

use convention::{Answer, answered};
use willow::Limits;

// The greatest path, written packed to the front of out: the length written.
pub fn wotskrale_path_new_max(mcl: u64, mcc: u64, mpl: u64, out: &mut [u8]) -> Answer
    ensures value { result ≡ given itself (written_length (packed_outcome (greatest_outcome (limits_of mcl mcc mpl))) out.old) }
    ensures out_after { out.new ≡ written_buffer (packed_outcome (greatest_outcome (limits_of mcl mcc mpl))) out.old }
{
    answered(greatest::new_max(Limits { mcl, mcc, mpl }, out))
}
