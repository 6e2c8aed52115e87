// A lent path with slices behind it that were admitted together.

ghost use Rattle.packed.specs.LentPaths.{path_of};
ghost use Rattle.extension.specs.Extending.{Extendable};

use packed::lent::LentPath;

// A path, and the slices behind it: their lengths as 8-byte numbers, and their bytes.
#[derive(Clone, Copy)]
pub struct Extended<'a, 'b> {
    pub path: LentPath<'a>,
    pub lengths: &'b [u8],
    pub bytes: &'b [u8],
    ghost extendable: { Extendable (path_of path) lengths.now bytes.now },
}
