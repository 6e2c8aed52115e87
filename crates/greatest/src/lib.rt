// The greatest valid path (`new_max` of path/mod.rs), written packed to the front of a lent buffer. Refused are 1, and 15
// exactly if the buffer is too short for the path; what stands behind the path stays.
#![tactic(auto)]

ghost use Rattle.std.specs.Prelude.{true, ◌≡◌, ◌*◌, ◌+◌, ◌≤◌, length};
ghost use Rattle.number.specs.Overwriting.{overwrite};
ghost use Rattle.willow.specs.Answers.{outcome, packed_outcome, written_buffer, written_length};
ghost use Rattle.willow.specs.LeastPaths.{greatest};
ghost use Rattle.willow.specs.Limits.{accepted_limits};
ghost use Rattle.willow.specs.Packed.{accumulated, pack};
ghost use Rattle.willow.specs.Paths.{path_length};
ghost use Rattle.greatest.specs.Greatest.{greatest_outcome};

use willow::{Limits, Refusal};
use written::{Writable, write};

// The accumulated lengths of the greatest path, written over out behind the count. Each component takes as much as MCL and what
// is left of MPL allow; where nothing is left, the sum stays and the components are empty. By index: the proof writes the sums to their
// places.
fn put_lengths(limits: Limits, out: &mut [u8])
    requires { 8 + 8 * limits.mcc ≤ length out.old }
    ensures { out.new ≡ overwrite out.old 8 (accumulated 0 (greatest limits)) }
{
    let mut sum: u64 = 0;
    for i in 0..limits.mcc as usize {
        sum += limits.mcl.min(limits.mpl - sum);
        number::write_u64(out, 8 + 8 * i, sum);
    }
}

// The greatest valid path under accepted limits.
#[derive(Clone, Copy)]
struct Greatest {
    limits: Limits,
    ghost accepted: { accepted_limits limits ≡ true },
}

impl Greatest {
    // How many bytes its components have. Both factors are at most 1,024, so that the product cannot wrap.
    fn path_length(self) -> usize
        ensures { result ≡ path_length (greatest self.limits) }
    {
        (self.limits.mcl * self.limits.mcc).min(self.limits.mpl) as usize
    }
}

// It is written in its packed form.
impl Writable for Greatest {
    ghost bytes = { λ g. pack (greatest g.limits) };

    fn size(&self) -> usize {
        8 + 8 * self.limits.mcc as usize + self.path_length()
    }

    fn put(&self, out: &mut [u8]) {
        let table = 8 + 8 * self.limits.mcc as usize;
        let end = table + self.path_length();
        number::write_u64(out, 0, self.limits.mcc);
        put_lengths(self.limits, out);
        out[table..end].fill(255);
    }
}

// The greatest valid path.
#[tactic(auto, unfolding(construction::specs::Making::under_limits, willow::specs::Answers::limits_refusal))]
pub fn new_max(limits: Limits, out: &mut [u8]) -> Result<u64, Refusal>
    ensures result_value { outcome result ≡ written_length (packed_outcome (greatest_outcome limits)) out.old }
    ensures out_after { out.new ≡ written_buffer (packed_outcome (greatest_outcome limits)) out.old }
{
    refusals::test_limits(limits)?;
    let path = Greatest { limits };
    write(&path, out)
}
