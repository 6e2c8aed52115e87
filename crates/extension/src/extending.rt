// A path with slices behind it: whether it is admitted, and its packed form written. They are not open to a caller.

ghost use Rattle.std.specs.Prelude.{◌≡◌};
ghost use Rattle.std.proofs.Math.Option.{none};
ghost use Rattle.packed.specs.LentPaths.{path_of};
ghost use Rattle.willow.specs.Answers.{path_refusal};
ghost use Rattle.willow.specs.Construction.{append_slice};
ghost use Rattle.willow.specs.Packed.{pack};
ghost use Rattle.extension.specs.ExtendedPaths.{extended_outcome, whole_path};

use crate::extended::Extended;
use crate::inner;
use packed::lent::LentPath;
use willow::{Limits, Refusal};
use written::Writable;

impl<'a, 'b> Extended<'a, 'b> {
    // Slices behind a path that was lent under the limits, if the whole is a path: 6, 7, 8, 9.
    pub fn admit(
        limits: Limits,
        path: LentPath<'a>,
        lengths: &'b [u8],
        bytes: &'b [u8],
    ) -> Result<Extended<'a, 'b>, Refusal>
        requires { path_refusal limits path.bytes.now path.count ≡ none }
        ensures { extended_outcome result ≡ append_slice limits (path_of path.entry) lengths.entry.now bytes.entry.now }
    {
        inner::admit(limits, path, lengths, bytes)?;
        Ok(Extended {
            path,
            lengths,
            bytes,
        })
    }
}

// It is written in its packed form.
impl<'a, 'b> Writable for Extended<'a, 'b> {
    ghost bytes = { λ x. pack (whole_path x) };

    fn size(&self) -> usize {
        self.path.packed_length() + self.lengths.len() + self.bytes.len()
    }

    fn put(&self, out: &mut [u8]) {
        let (table, own) = inner::parts(self.path.bytes, self.path.count);
        let n = self.lengths.len() / 8;
        let end = 8 + table.len();
        let front = end + self.lengths.len();
        number::write_u64(out, 0, (self.path.component_count() + n) as u64);
        number::put(out, 8, table);
        inner::put_lengths(self.lengths, own.len(), out, end);
        number::put(out, front, own);
        number::put(out, front + own.len(), self.bytes);
    }
}
