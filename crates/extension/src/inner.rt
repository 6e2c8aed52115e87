// The lengths of slices: whether they fit their bytes and MCL, and their sums written; the refusals of slices behind a path; and the
// parts of a packed path that go on in a longer one. They are not open to a caller. The loops go by index: the proofs read the numbers by their places.

ghost use Rattle.std.specs.Prelude.{not, ◌≡◌, ◌+◌, ◌≤◌, IfOk, ltb, length, true};
ghost use Rattle.number.specs.Overwriting.{overwrite};
ghost use Rattle.packed.specs.LentPaths.{path_of};
ghost use Rattle.packed.specs.Readable.{Readable};
ghost use Rattle.willow.specs.Answers.{path_in, refusal_of};
ghost use Rattle.willow.specs.Construction.{append_slice, lengths_fit, lengths_in, total};
ghost use Rattle.willow.specs.Limits.{max_word};
ghost use Rattle.willow.specs.Lists.{any};
ghost use Rattle.willow.specs.Packed.{accumulated, joined, well_formed};
ghost use Rattle.extension.specs.Extending.{accumulated_by, Admitted, outcome_refusal};

use packed::lent::LentPath;
use willow::{Limits, Refusal};

// Whether the lengths are whole 8-byte numbers and add up to the bytes. What is left is counted down, so that no sum can wrap. As a
// `try_fold` it was tried, and the proof did not close.
pub fn lengths_fit(lengths: &[u8], bytes: &[u8]) -> bool
    ensures { result ≡ lengths_fit lengths.now bytes.now }
{
    if lengths.len() % 8 != 0 {
        return false;
    }
    let mut left = bytes.len() as u64;
    for i in 0..lengths.len() / 8 {
        let n = number::read_u64(lengths, 8 * i);
        if left < n {
            return false;
        }
        left -= n;
    }
    left == 0
}

// Whether no length is over MCL.
pub fn lengths_within(mcl: u64, lengths: &[u8]) -> bool
    ensures { result ≡ not (any (λ n. ltb mcl n) (lengths_in lengths.now)) }
{
    (0..lengths.len() / 8).all(|i| number::read_u64(lengths, 8 * i) <= mcl)
}

// The refusals 6, 7, 8, 9 of the slices behind a path that is well formed under the limits. Where there is none the whole is within them.
pub fn admit(limits: Limits, path: LentPath, lengths: &[u8], bytes: &[u8]) -> Result<(), Refusal>
    requires { well_formed limits path.bytes.now ≡ true }
    ensures refusal { refusal_of result ≡ outcome_refusal (append_slice limits (path_of path.entry) lengths.now bytes.now) }
    ensures admitted { IfOk result (λ u. Admitted limits (path_of path.entry) lengths.now bytes.now) }
{
    if !lengths_fit(lengths, bytes) {
        return Err(Refusal::BadLengths);
    }
    let room = limits.mpl - path.path_length() as u64;
    if room < bytes.len() as u64 {
        return Err(Refusal::PathTooLong);
    }
    let places = limits.mcc - path.component_count() as u64;
    if places < (lengths.len() / 8) as u64 {
        return Err(Refusal::TooManyComponents);
    }
    if !lengths_within(limits.mcl, lengths) {
        return Err(Refusal::ComponentTooLong);
    }
    Ok(())
}

// The accumulated lengths of the slices, behind `from` bytes, written over out from a place on.
pub fn put_lengths(lengths: &[u8], from: usize, out: &mut [u8], to: usize)
    requires { (to + length lengths.now ≤ length out.old) × (from + total (lengths_in lengths.now) ≤ max_word) }
    ensures { out.new ≡ overwrite out.old to (accumulated_by from (lengths_in lengths.now)) }
{
    let mut sum = from as u64;
    for i in 0..lengths.len() / 8 {
        sum += number::read_u64(lengths, 8 * i);
        number::write_u64(out, to + 8 * i, sum);
    }
}

// The accumulated lengths of the first k components of a packed path, and their bytes, as they stand in the buffer. As a method of
// `LentPath` it was tried, and the proof did not close: that the buffer holds bytes is known of a parameter, and not of a field.
pub fn parts(b: &[u8], k: usize) -> (&[u8], &[u8])
    requires { Readable b.now k }
    ensures table { result.0.now ≡ accumulated 0 (path_in b.now k) }
    ensures bytes { result.1.now ≡ joined (path_in b.now k) }
{
    let base = 8 + 8 * packed::inner::component_count(b);
    let end = base + packed::inner::path_length(b, k);
    (&b[8..8 + 8 * k], &b[base..end])
}
