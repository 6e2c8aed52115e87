// Bytes answered in a lent buffer, whole or not at all: most calls that answer with bytes write them by this one function. Whole sheets
// and listings (`map_making`, `store_making`, `map_listing`) and the path of a place (`least_writing`) are measured and written there.
#![tactic(auto)]

ghost use Rattle.std.specs.Prelude.{◌≡◌, ◌≤◌, ℕ, List, length};
ghost use Rattle.number.specs.Overwriting.{overwrite};
ghost use Rattle.willow.specs.Answers.{outcome, written_buffer, written_length};
ghost use Rattle.willow.specs.Refusals.{value};

use willow::Refusal;

// What can be written whole.
pub trait Writable {
    ghost bytes: { Self → List ℕ };

    // How many bytes.
    fn size(&self) -> usize
        ensures { result ≡ length (bytes self.now) };

    // The bytes, written over the front of out.
    fn put(&self, out: &mut [u8])
        requires { length (bytes self.now) ≤ length out.old }
        ensures { out.new ≡ overwrite out.old 0 (bytes self.now) };
}

// Bytes that stand somewhere already.
impl Writable for &[u8] {
    ghost bytes = { λ s. s.now };

    fn size(&self) -> usize {
        self.len()
    }

    fn put(&self, out: &mut [u8]) {
        number::put(out, 0, self)
    }
}

// What can be written, written to the front of a buffer; answers how many bytes. Refuses 15, and then writes nothing.
#[tactic(auto, using(number::proofs::OverwritingLaws::overwrite_at_front))]
pub fn write<T: Writable>(answer: &T, out: &mut [u8]) -> Result<u64, Refusal>
    ensures result_value { outcome result ≡ written_length (value (T.bytes answer.now)) out.old }
    ensures out_after { out.new ≡ written_buffer (value (T.bytes answer.now)) out.old }
{
    let size = answer.size();
    if out.len() < size {
        return Err(Refusal::OutTooSmall);
    }
    answer.put(out);
    Ok(size as u64)
}
