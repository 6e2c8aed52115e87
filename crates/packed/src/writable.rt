// A lent path is written in its packed form.

ghost use Rattle.willow.specs.Packed.{pack};
ghost use Rattle.packed.specs.LentPaths.{path_of};

use crate::lent::LentPath;
use written::Writable;

impl<'a> Writable for LentPath<'a> {
    ghost bytes = { λ p. pack (path_of p) };

    fn size(&self) -> usize {
        self.packed_length()
    }

    fn put(&self, out: &mut [u8]) {
        LentPath::put(*self, out)
    }
}
